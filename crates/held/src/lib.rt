// A list of at most so many items, whose memory is reserved when it is made.
#![tactic(auto)]

mod held;
#[cfg(test)]
mod tests;

pub use held::Held;
