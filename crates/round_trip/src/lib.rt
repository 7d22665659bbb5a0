// Which bytes are the image of which sheet, and a sheet that is read from what is written of another.
#![tactic(auto)]

mod copies;
mod theory;

pub use copies::copy;
pub use theory::images_tell;
