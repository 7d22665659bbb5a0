// Places boxes on two axes without overlap, or tells that no arrangement exists.
#![tactic(auto)]

mod descent;
mod lent;
mod packs;

pub use lent::pack_lent;
pub use moves::{Axes, Standing, back_on, put_on};
pub use packs::{NoArrangement, pack};
