// A stack over a lent slice, written once for every kind of element that has a blank.
#![tactic(auto)]

mod calls;
pub mod elements;
pub mod fault;
mod letters;
#[cfg(test)]
mod tests;

ghost use Rattle.std.specs.Prelude.{◌≡◌, ◌≤◌, length};

pub use elements::{Trial, Word};
pub use fault::StackFault;
pub use letters::NoWord;

// What stands in a slot that holds no element.
// Kept beside Default: a blank slot for lines has a number that no line has, and 0 is a line.
pub trait Blank {
    ghost nothing: { Self };

    fn blank() -> Self
        ensures { result ≡ nothing };
}

// The elements are the first len slots, oldest first.
// Kept as slots with a length beside them: the memory stays the lender's, and no call may need more.
#[derive(Drop)]
pub struct Stack<'a, E> {
    slots: &'a mut [E],
    len: usize,
    ghost ok: { len ≤ length slots.now },
}
