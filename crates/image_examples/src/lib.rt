// The worked image, byte for byte.
#![tactic(auto)]

#[cfg(test)]
mod tests;
