// The letters that name the axes: T for time, P for the platform.
ghost use Rattle.std.specs.Prelude.{◌≡◌};
ghost use Rattle.boxes.specs.Letters.{letter_of, Names};

use crate::Direction;
use thiserror::Error;

// A letter that names no axis.
#[derive(Clone, Copy, PartialEq, Eq, Debug, Error)]
#[error("the letter is not T or P")]
pub struct NoDirection;

impl TryFrom<char> for Direction {
    type Error = NoDirection;

    ghost try_from_gives = { Names };

    fn try_from(letter: char) -> Result<Direction, NoDirection> {
        match letter {
            'T' => Ok(Direction::Time),
            'P' => Ok(Direction::Platform),
            _ => Err(NoDirection),
        }
    }
}

impl From<Direction> for char {
    ghost from_gives = { λ direction letter. letter ≡ letter_of direction };

    fn from(direction: Direction) -> char {
        match direction {
            Direction::Time => 'T',
            Direction::Platform => 'P',
        }
    }
}
