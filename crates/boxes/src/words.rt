// The bound that says how two boxes lie.
ghost use Rattle.std.specs.Prelude.{◌≡◌, ◌≤◌, length};
ghost use Rattle.boxes.specs.Overlaps.{Sized, ruled, WordsTell};

use crate::model::{Direction, Entry, Size};
use axis::Bound;
use stack::Word;

// The bound of the word, and its axis.
pub fn ruling(sizes: &[Size], i: u8, j: u8, word: Word) -> Entry
    requires sized { Sized sizes.now }
    requires first { (1 ≤ i) × (i ≤ length sizes.now) }
    requires second { (1 ≤ j) × (j ≤ length sizes.now) }
    ensures { result ≡ ruled sizes.now i j word }
{
    // box p is gone when box q comes, or ends where box q begins or nearer to metre 0
    let (p, q) = match word {
        Word::Before | Word::Nearer => (i, j),
        Word::After | Word::Farther => (j, i),
    };
    let direction = Direction::from(word);
    let extent = sizes[usize::from(p) - 1].along(direction);
    Entry {
        direction,
        bound: Bound {
            p,
            q,
            d: -(extent as i16),
        },
    }
}

// Two boxes are free of overlap exactly when a word holds of them: the gate asks for its proof here.
pub fn words_tell() -> bool
    ensures { WordsTell }
{
    true
}
