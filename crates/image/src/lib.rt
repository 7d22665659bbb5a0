// A sheet as bytes, in a lent buffer.
#![tactic(auto, using(page::proofs::Put::put_append), unfolding(page::specs::Pages::put))]

mod body;
mod fields;
mod writer;

pub use writer::write;
