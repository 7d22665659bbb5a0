// How a sheet begins and is loaded.
ghost use Rattle.std.specs.Prelude.{◌≡◌, map, IfOk, Ok};
ghost use Rattle.moves.specs.Moves.{ResetOn};
ghost use Rattle.journal.specs.Journal.{new, low_on, high_on};
ghost use Rattle.journal.specs.Steps.{load, said, Step};
ghost use Rattle.sheet.specs.Standing.{axes_of};

use crate::Sheet;
use axis::Axis;
use boxes::Direction;
use faults::SheetFault;
use journal::{Entries, Loading, Ranges, Stay, Stays, check_load};
use moves::Axes;
use std::alloc::{AllocError, Global};

// No lines, and no bounds.
fn empty<T: Axis, P: Axis>(axes: &mut Axes<T, P>)
    ensures { axes.new ≡ axes_of new }
{
    let _ = axes.reset(Direction::Time, &[], &[]);
    let _ = axes.reset(Direction::Platform, &[], &[]);
}

// The stays' lines on the axis of the direction, and no bounds. They are paired and in order, so the axis does not refuse.
fn line_up<T: Axis, P: Axis>(
    axes: &mut Axes<T, P>,
    ranges: &mut Ranges,
    direction: Direction,
    loading: &Loading<'_>,
)
    ensures { ResetOn direction axes.old (map (low_on direction) loading.now.stays.now) (map (high_on direction loading.now.extents.span loading.now.extents.platform) loading.now.stays.now) (Ok tt) axes.new }
{
    ranges.line_up(direction, loading);
    let _ = axes.reset(direction, ranges.lows(), ranges.highs());
}

impl<T: Axis + Drop, P: Axis + Drop> Sheet<T, P> {
    // A span of one step on a platform of one metre, no stays and no entries; the axes are emptied.
    pub fn new(heap: Global, time: T, platform: P) -> Result<Sheet<T, P>, AllocError>
        ensures { IfOk result (λ s. s ≡ new) }
    {
        let mut axes = Axes::new(time, platform);
        empty(&mut axes);
        Ok(Sheet {
            axes,
            stays: Stays::new(heap)?,
            entries: Entries::new(heap)?,
            ranges: Ranges::new(heap)?,
        })
    }
}

impl<T: Axis, P: Axis> Sheet<T, P> {
    // The sheet is again as a new one.
    pub fn renew(&mut self)
        ensures { self.new ≡ new }
    {
        empty(&mut self.axes);
        self.stays.clear();
        self.entries.clear();
    }

    // These stays, and no entries.
    pub fn load(&mut self, span: u16, platform: u16, stays: &[Stay]) -> Result<(), SheetFault>
        ensures { Step self.old (load span platform stays.now) (said result) self.new }
    {
        let loading = check_load(span, platform, stays)?;
        line_up(&mut self.axes, &mut self.ranges, Direction::Time, &loading);
        line_up(
            &mut self.axes,
            &mut self.ranges,
            Direction::Platform,
            &loading,
        );
        self.stays.refill(&loading);
        self.entries.clear();
        Ok(())
    }
}
