// What a stack refuses.
ghost use Rattle.std.specs.Prelude.{◌≡◌, Some};
ghost use Rattle.stack.specs.Faults.{number, words};

use std::fmt;

#[derive(Clone, Copy, PartialEq, Eq, Debug)]
pub enum StackFault {
    Full = 41,
    Empty = 42,
}

// Kept in each crate that has faults: a trait for one cast would be longer than the three.
impl StackFault {
    pub fn number(self) -> u8
        ensures { result ≡ number self }
    {
        self as u8
    }
}

// Kept without the derive of an error: that promises nothing of the words.
impl fmt::Display for StackFault {
    ghost output = { λ f. Some (words f) };

    fn fmt<W: fmt::Write>(&self, f: &mut fmt::Formatter<W>) -> fmt::Result {
        match self {
            StackFault::Full => write!(f, "no space on the stack"),
            StackFault::Empty => write!(f, "no element on the stack"),
        }
    }
}
