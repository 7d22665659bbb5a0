// Worked cases, proved of the definitions that the contracts use.
#![tactic(auto)]

mod cases;

pub use cases::worked_cases;
