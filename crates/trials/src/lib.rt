// One pair of boxes at a time on two axes: which pair is next, and what is known of and done with a word for it.
#![tactic(auto)]

mod board;
mod picker;
mod trying;

pub use board::Board;
pub use picker::pick;
pub use trying::{back_up, enter, implied, word_at, words};
