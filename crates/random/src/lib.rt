// Pseudo-random numbers for the programs that compare.
#![tactic(auto)]

mod random;

pub use random::Random;
