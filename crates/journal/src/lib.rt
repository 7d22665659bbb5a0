// What a sheet keeps of its stays and entries, and the journal that tells what a list of calls has left standing.
#![tactic(auto)]

mod asks;
mod entries;
mod extents;
mod loading;
mod model;
mod plans;
mod ranges;
mod stays;
mod tables;

pub use asks::check_load;
pub use extents::Extents;
pub use loading::Loading;
pub use model::{Stay, Window};
pub use plans::plans_tell;
pub use tables::{Entries, Ranges, Stays};
