// Two axes: bounds put on either, taken back and judged, and the least places of boxes on both.
#![tactic(auto)]

mod moves;
mod places;
mod sides;

pub use moves::{Axes, Standing};
pub use sides::{back_on, judge_on, place_all, put_on, reach};
