// From the bytes of an image to the text that answers it.
#![tactic(auto)]

mod texts;

pub use texts::answer;
