// Boxes on two axes, steps by metres: when two overlap, the four words for how they lie, and the order of trials.
#![tactic(auto)]

mod letters;
mod model;
mod order;
mod words;

pub use letters::NoDirection;
pub use model::{Direction, Entry, Place, Size};
pub use order::{MOST_BOXES, MOST_PAIRS, clear, lay_out, pair_count};
pub use words::{ruling, words_tell};
