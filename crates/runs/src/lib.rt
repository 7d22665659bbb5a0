// Any list of calls, given to a sheet one after the other, and every answer.
#![tactic(auto)]

mod calls;
mod model;
mod plans;

pub use calls::run;
pub use model::{Answer, Call, Told};
