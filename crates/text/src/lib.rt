// An answer as text, in a lent buffer: a plan line by line, or that there is none, or a fault.
#![tactic(auto, using(page::proofs::Put::put_append), unfolding(page::specs::Pages::put))]

mod fault;
mod lines;
mod printer;
#[cfg(test)]
mod tests;
mod theory;

pub use fault::TextFault;
pub use printer::{print_fault, print_no_plan, print_plan};
pub use theory::plan_text_tells;
