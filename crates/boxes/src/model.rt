// A box's extent and place, and a bound on one of the two axes.
ghost use Rattle.std.specs.Prelude.{◌≡◌};
ghost use Rattle.boxes.specs.Overlaps.{in_direction, side};

use axis::Bound;
use stack::Word;

// A box lasts so many steps and is so many metres long.
#[derive(Clone, Copy, PartialEq, Eq, Debug)]
pub struct Size {
    pub steps: u16,
    pub metres: u16,
}

impl Size {
    // Its steps on the one axis, its metres on the other.
    pub fn along(self, direction: Direction) -> u16
        ensures { result ≡ in_direction self.steps self.metres direction }
    {
        direction.pick(self.steps, self.metres)
    }
}

// A box at this place holds the steps from `step` on and the metres from `metre` on.
#[derive(Clone, Copy, PartialEq, Eq, Debug, Default)]
pub struct Place {
    pub step: u16,
    pub metre: u16,
}

#[derive(Clone, Copy, PartialEq, Eq, Debug)]
pub enum Direction {
    Time,
    Platform,
}

impl Direction {
    // Of a value for each axis, the one for this.
    pub fn pick<V: Copy>(self, time: V, platform: V) -> V
        ensures { result ≡ in_direction time platform self }
    {
        match self {
            Direction::Time => time,
            Direction::Platform => platform,
        }
    }
}

// The axis that the word speaks of.
impl From<Word> for Direction {
    ghost from_gives = { λ word direction. direction ≡ side word };

    fn from(word: Word) -> Direction {
        match word {
            Word::Before | Word::After => Direction::Time,
            Word::Nearer | Word::Farther => Direction::Platform,
        }
    }
}

// A bound on one of the two axes.
#[derive(Clone, Copy, PartialEq, Eq, Debug)]
pub struct Entry {
    pub direction: Direction,
    pub bound: Bound,
}
