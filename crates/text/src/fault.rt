// What the printer refuses.
ghost use Rattle.std.specs.Prelude.{◌≡◌, Some};
ghost use Rattle.text.specs.Faults.{number, words};

use std::error::Error;
use std::fmt;

#[derive(Clone, Copy, PartialEq, Eq, Debug)]
pub enum TextFault {
    Buffer = 36,
}

// Kept in each crate that has faults: a trait for one cast would be longer than the three.
impl TextFault {
    pub fn number(self) -> u8
        ensures { result ≡ number self }
    {
        self as u8
    }
}

// Kept without the derive of an error: that promises nothing of the words.
impl fmt::Display for TextFault {
    ghost output = { λ f. Some (words f) };

    fn fmt<W: fmt::Write>(&self, f: &mut fmt::Formatter<W>) -> fmt::Result {
        match self {
            TextFault::Buffer => write!(f, "the buffer is too short for the text"),
        }
    }
}

impl Error for TextFault {}
