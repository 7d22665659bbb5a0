// Worked sheets, with the axes either way round.
#![tactic(auto)]

#[cfg(test)]
mod tests;
