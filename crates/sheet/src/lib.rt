// A sheet of stays on two axes: six calls, each a step of the journal.
#![tactic(auto)]

use axis::Axis;
use journal::{Entries, Ranges, Stays};
use moves::Axes;
use std::marker::Model;

mod changes;
mod loads;
mod reads;
mod settles;

#[derive(Drop)]
pub struct Sheet<T: Axis, P: Axis> {
    axes: Axes<T, P>,
    stays: Stays,
    entries: Entries,
    ranges: Ranges,
}

// A clause sees the journal, whose lines and bounds the axes hold.
impl<T: Axis, P: Axis> Model for Sheet<T, P> {
    ghost use Rattle.std.specs.Prelude.{◌≡◌};
    ghost use Rattle.journal.specs.Journal.{Journal};
    ghost use Rattle.journal.specs.Made.{Made};
    ghost use Rattle.journal.specs.Tables.{told};
    ghost use Rattle.sheet.specs.Standing.{axes_of};

    ghost Value = { Journal };

    ghost view = { λ s. told s.stays s.entries };

    ghost invariant = { λ s. (s.axes ≡ axes_of (told s.stays s.entries)) × Made (told s.stays s.entries) };
}
