// The bytes of an image, walked from front to back before a sheet is asked.
#![tactic(auto)]

mod fields;
mod model;
mod parts;
mod walk;

pub use model::Fields;
