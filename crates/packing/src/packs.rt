// The public call: decides a packing from nothing, and leaves both axes as they were.
ghost use Rattle.std.specs.Prelude.{◌≡◌, ◌≤◌, length, Some, codes};
ghost use Rattle.axis.specs.Meaning.{lines};
ghost use Rattle.boxes.specs.Overlaps.{Sized};
ghost use Rattle.boxes.specs.Order.{pairs};
ghost use Rattle.trials.specs.Boards.{Fits};
ghost use Rattle.packing.specs.Packs.{Filled, Packed};

use crate::descent::descend;
use axis::Axis;
use boxes::{MOST_PAIRS, Place, Size, clear, pair_count};
use moves::Axes;
use stack::{Stack, Trial};
use std::error::Error;
use std::fmt;
use trials::Board;

// No arrangement exists: so many words were put to a pair until that was known.
#[derive(Clone, Copy, PartialEq, Eq, Debug)]
pub struct NoArrangement {
    pub tries: u64,
}

// Kept without the derive of an error: that promises nothing of the words.
impl fmt::Display for NoArrangement {
    ghost output = { λ f. Some (codes "no arrangement exists") };

    fn fmt<W: fmt::Write>(&self, f: &mut fmt::Formatter<W>) -> fmt::Result {
        f.write_str("no arrangement exists")
    }
}

impl Error for NoArrangement {}

// The packing with buffers of just the length.
// Kept as four parameters: axes, sizes and both buffers are lent one by one, and one struct of the four would be the board.
fn fill<T: Axis, P: Axis>(
    axes: &mut Axes<T, P>,
    sizes: &[Size],
    places: &mut [Place],
    trials: &mut [Trial],
) -> Result<u64, NoArrangement>
    requires fits { Fits axes.old sizes.now places.old trials.old }
    ensures answer { Filled axes.old sizes.now places.old places.new trials.new result }
    ensures same { axes.new ≡ axes.old }
{
    let mut slots = [Trial::default(); MOST_PAIRS];
    let mut trail = Stack::new(&mut slots);
    let mut board = Board::new(axes, sizes, places, trials, &mut trail);
    let found = descend(&mut board);
    let tries = board.tries();
    if found {
        return Ok(tries);
    }
    clear(trials);
    Err(NoArrangement { tries })
}

// Boxes of these sizes on two axes that have a line for each of them and at most 24 bounds;
// answers how many words were put to a pair on the way.
pub fn pack<T: Axis, P: Axis>(
    axes: &mut Axes<T, P>,
    sizes: &[Size],
    places: &mut [Place],
    trials: &mut [Trial],
) -> Result<u64, NoArrangement>
    requires sized { Sized sizes.now }
    requires timed { lines axes.old.time ≡ length sizes.now }
    requires placed { lines axes.old.platform ≡ length sizes.now }
    requires few { (length axes.old.time.bounds ≤ 24) × (length axes.old.platform.bounds ≤ 24) }
    requires buffers { (length sizes.now ≤ length places.old) × (pairs (length sizes.now) ≤ length trials.old) }
    ensures answer { Packed axes.old sizes.now places.old places.new trials.old trials.new result }
    ensures same { axes.new ≡ axes.old }
{
    let boxes = sizes.len();
    let count = pair_count(axes.box_count(boxes));
    fill(axes, sizes, &mut places[0..boxes], &mut trials[0..count])
}
