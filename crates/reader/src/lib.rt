// A sheet read from the bytes of an image: a load, and a bind for each entry.
#![tactic(auto)]

mod entries;
mod loads;
mod reader;

pub use reader::read;
