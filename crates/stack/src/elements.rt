// The kinds of element that stacks hold.
ghost use Rattle.std.specs.Prelude.{None};

use crate::Blank;

// How two stays i and j lie. Before: i is gone when j comes. After: the same with i and j exchanged.
// Nearer: i ends where j begins or nearer to metre 0. Farther: the same with i and j exchanged.
#[derive(Clone, Copy, PartialEq, Eq, Debug)]
pub enum Word {
    Before,
    After,
    Nearer,
    Farther,
}

// A pair of stays and the word that holds of them.
#[derive(Clone, Copy, PartialEq, Eq, Debug, Default)]
pub struct Trial {
    pub i: u8,
    pub j: u8,
    pub word: Option<Word>,
}

// A line number: no line has the number 255.
impl Blank for u8 {
    ghost nothing = { 255 };

    fn blank() -> u8 {
        u8::MAX
    }
}

impl Blank for Trial {
    ghost nothing = { record { i = 0; j = 0; word = None } };

    fn blank() -> Trial {
        Trial::default()
    }
}
