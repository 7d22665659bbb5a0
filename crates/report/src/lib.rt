// From a sheet to text: settle it, and print the plan or that there is none.
#![tactic(auto)]

mod settled;

pub use settled::report;
