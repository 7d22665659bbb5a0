// The tables of a sheet. Memory is reserved for all that they ever hold, so no call fails for want of it.
ghost use Rattle.std.specs.Prelude.{◌≡◌, ◌≤◌, map, length};
ghost use Rattle.boxes.specs.declared.model.Direction.{Direction as Directed};
ghost use Rattle.boxes.specs.Overlaps.{Sized};
ghost use Rattle.journal.specs.Stays.{size_of};
ghost use Rattle.journal.specs.Journal.{bounds_on};

use crate::extents::Extents;
use crate::model::Stay;
use boxes::{Entry, Size};
use held::Held;

// The stays, and what each takes up. Kept beside each other: a packing is lent the sizes as a slice, and a settle may need no memory.
#[derive(Drop)]
pub struct Stays {
    pub(crate) extents: Extents,
    pub(crate) items: Held<Stay, 12>,
    pub(crate) sizes: Held<Size, 12>,
    ghost measured: { sizes ≡ map size_of items },
    ghost sized: { Sized sizes },
}

// The entries, oldest first: at most 24 in each direction.
// Kept without a model (one was tried): a packing asks that at most 24 bounds stand on each axis, which each of the calls would have to hand on.
#[derive(Drop)]
pub struct Entries {
    pub(crate) items: Held<Entry, 48>,
    ghost few: { (d : Directed) → length (bounds_on d items) ≤ 24 },
}

// The ranges of the stays' lines on one axis. Kept as two lists: an axis asks whether its lows and highs are equally many.
#[derive(Drop)]
pub struct Ranges {
    pub(crate) lows: Held<i16, 12>,
    pub(crate) highs: Held<i16, 12>,
}
