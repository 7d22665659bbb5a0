// Bounds on one of two axes that lie apart: put, taken back, and judged before they are put; and the least places on both.
ghost use Rattle.std.specs.Prelude.{◌≡◌, ◌≤◌, length};
ghost use Rattle.axis.specs.Meaning.{lines, Earliest, Largest};
ghost use Rattle.axis.specs.Asks.{Named, Within};
ghost use Rattle.boxes.specs.Arranged.{step_of, metre_of};
ghost use Rattle.boxes.specs.Overlaps.{in_direction};
ghost use Rattle.moves.specs.Meanings.{together};
ghost use Rattle.moves.specs.Moves.{PutOn, BackOn, Told};

use crate::moves::Standing;
use crate::places::place_of;
use axis::{Axis, AxisFault, Bound};
use boxes::{Direction, Entry, Place};

// Kept as matches on the direction: the two axes are of two types, and a closure would be of one.
pub fn put_on<T: Axis, P: Axis>(
    time: &mut T,
    platform: &mut P,
    entry: Entry,
) -> Result<(), AxisFault>
    ensures { PutOn entry.direction T.Axis.MOST P.Axis.MOST (together (T.Axis.means time.old) (P.Axis.means platform.old)) entry.bound result (together (T.Axis.means time.new) (P.Axis.means platform.new)) }
{
    match entry.direction {
        Direction::Time => time.put(entry.bound),
        Direction::Platform => platform.put(entry.bound),
    }
}

pub fn back_on<T: Axis, P: Axis>(
    time: &mut T,
    platform: &mut P,
    direction: Direction,
) -> Result<(), AxisFault>
    ensures { BackOn direction (together (T.Axis.means time.old) (P.Axis.means platform.old)) result (together (T.Axis.means time.new) (P.Axis.means platform.new)) }
{
    match direction {
        Direction::Time => time.back(),
        Direction::Platform => platform.back(),
    }
}

// The largest difference, where both lines are there.
pub fn reach<A: Axis>(axis: &A, p: u8, q: u8) -> i16
    ensures { Named (lines (A.means axis.now)) p q → Largest (A.means axis.now) p q result }
{
    axis.tightest(p, q).unwrap_or(0)
}

fn judge<A: Axis>(axis: &A, bound: Bound) -> Standing
    requires { Within (lines (A.means axis.now)) bound }
    ensures { Told (A.means axis.now) bound result }
{
    // the largest the other way round: if it is less than -d, no placement keeps the bound
    if reach(axis, bound.q, bound.p) < -bound.d {
        return Standing::Impossible;
    }
    // if it is at most d, every placement keeps the bound
    if reach(axis, bound.p, bound.q) <= bound.d {
        return Standing::Implied;
    }
    Standing::Possible
}

pub fn judge_on<T: Axis, P: Axis>(time: &T, platform: &P, entry: Entry) -> Standing
    requires { Within (lines (in_direction (T.Axis.means time.now) (P.Axis.means platform.now) entry.direction)) entry.bound }
    ensures { Told (in_direction (T.Axis.means time.now) (P.Axis.means platform.now) entry.direction) entry.bound result }
{
    match entry.direction {
        Direction::Time => judge(time, entry.bound),
        Direction::Platform => judge(platform, entry.bound),
    }
}

// Each box's earliest step and nearest metre.
pub fn place_all<T: Axis, P: Axis>(time: &T, platform: &P, places: &mut [Place])
    requires few { length places.old ≤ 12 }
    requires timed { lines (T.Axis.means time.now) ≡ length places.old }
    requires placed { lines (P.Axis.means platform.now) ≡ length places.old }
    ensures timely { Earliest (T.Axis.means time.now) (step_of places.new) }
    ensures nearest { Earliest (P.Axis.means platform.now) (metre_of places.new) }
{
    for (k, place) in places.iter_mut().enumerate() {
        *place = place_of(time, platform, k as u8 + 1);
    }
}
