// Two axes: bounds on either are put, taken back, and judged before they are put.
ghost use Rattle.std.specs.Prelude.{◌≡◌, ◌≤◌, length};
ghost use Rattle.axis.specs.Meaning.{lines, Earliest, Largest};
ghost use Rattle.axis.specs.Asks.{Named, Within, Tight};
ghost use Rattle.boxes.specs.Arranged.{step_of, metre_of};
ghost use Rattle.moves.specs.Meanings.{along};
ghost use Rattle.moves.specs.Moves.{ResetOn, PutOn, BackOn, Told};

use crate::sides::{back_on, judge_on, place_all, put_on, reach};
use axis::{Axis, AxisFault};
use boxes::{Direction, Entry, Place};
use std::marker::Model;

// A bound that every placement keeps already, that some may keep, or that none does.
#[derive(Clone, Copy, PartialEq, Eq, Debug)]
pub enum Standing {
    Implied,
    Possible,
    Impossible,
}

// Boxes stand at steps on the one, and at metres on the other.
#[derive(Drop)]
pub struct Axes<T: Axis, P: Axis> {
    time: T,
    platform: P,
}

impl<T: Axis, P: Axis> Model for Axes<T, P> {
    ghost use Rattle.moves.specs.Meanings.{Meanings};

    ghost Value = { Meanings };

    ghost view = { λ a. record { time = T.means a.time; platform = P.means a.platform } };
}

// Kept as matches on the direction: the two axes are of two types, and a closure would be of one.
impl<T: Axis, P: Axis> Axes<T, P> {
    pub fn new(time: T, platform: P) -> Axes<T, P>
        ensures { result ≡ record { time = T.means time; platform = P.means platform } }
    {
        Axes { time, platform }
    }

    pub fn time(&self) -> &T
        ensures { T.means result.now ≡ self.now.time }
    {
        &self.time
    }

    pub fn platform(&self) -> &P
        ensures { P.means result.now ≡ self.now.platform }
    {
        &self.platform
    }

    // New lines on the axis of that direction, and no bounds on it.
    pub fn reset(
        &mut self,
        direction: Direction,
        lows: &[i16],
        highs: &[i16],
    ) -> Result<(), AxisFault>
        ensures { ResetOn direction self.old lows.now highs.now result self.new }
    {
        match direction {
            Direction::Time => self.time.reset(lows, highs),
            Direction::Platform => self.platform.reset(lows, highs),
        }
    }

    pub fn put(&mut self, entry: Entry) -> Result<(), AxisFault>
        ensures { PutOn entry.direction T.Axis.MOST P.Axis.MOST self.old entry.bound result self.new }
    {
        put_on(&mut self.time, &mut self.platform, entry)
    }

    pub fn back(&mut self, direction: Direction) -> Result<(), AxisFault>
        ensures { BackOn direction self.old result self.new }
    {
        back_on(&mut self.time, &mut self.platform, direction)
    }

    pub fn tightest(&self, direction: Direction, p: u8, q: u8) -> Result<i16, AxisFault>
        ensures { Tight (along direction self.now) p q result }
    {
        match direction {
            Direction::Time => self.time.tightest(p, q),
            Direction::Platform => self.platform.tightest(p, q),
        }
    }

    // The largest difference, where both lines are there.
    pub fn reach(&self, direction: Direction, p: u8, q: u8) -> i16
        ensures { Named (lines (along direction self.now)) p q → Largest (along direction self.now) p q result }
    {
        match direction {
            Direction::Time => reach(&self.time, p, q),
            Direction::Platform => reach(&self.platform, p, q),
        }
    }

    pub fn judge(&self, entry: Entry) -> Standing
        requires { Within (lines (along entry.direction self.now)) entry.bound }
        ensures { Told (along entry.direction self.now) entry.bound result }
    {
        judge_on(&self.time, &self.platform, entry)
    }

    // How many bounds stand on the axis of that direction.
    pub fn count(&self, direction: Direction) -> usize
        ensures { result ≡ length (along direction self.now).bounds }
    {
        match direction {
            Direction::Time => self.time.count(),
            Direction::Platform => self.platform.count(),
        }
    }

    // The two axes, each by itself again.
    pub fn parts(self) -> (T, P)
        ensures { (T.means result.0 ≡ self.time) × (P.means result.1 ≡ self.platform) }
    {
        let Axes { time, platform } = self;
        (time, platform)
    }

    // So many boxes, with a line for each: by the law of an axis there are at most twelve.
    pub fn box_count(&self, boxes: usize) -> u8
        requires { lines self.now.time ≡ boxes }
        ensures count { result ≡ boxes }
        ensures few { result ≤ 12 }
    {
        // the look at the axis is what brings in its law
        let _ = &self.time;
        boxes as u8
    }

    // Each box's earliest step and nearest metre.
    pub fn place_all(&self, places: &mut [Place])
        requires few { length places.old ≤ 12 }
        requires timed { lines self.now.time ≡ length places.old }
        requires placed { lines self.now.platform ≡ length places.old }
        ensures timely { Earliest self.now.time (step_of places.new) }
        ensures nearest { Earliest self.now.platform (metre_of places.new) }
    {
        place_all(&self.time, &self.platform, places);
    }
}
