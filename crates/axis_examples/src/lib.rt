// Worked examples, on both axes.
#![tactic(auto)]

#[cfg(test)]
mod tests;
