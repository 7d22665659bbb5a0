// Images that are read, and images that are refused.
#![tactic(auto)]

#[cfg(test)]
mod tests;
