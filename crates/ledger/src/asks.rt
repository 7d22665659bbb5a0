// What a ledger tells without changing.
ghost use Rattle.std.specs.Prelude.{◌≡◌, ◌≤◌, length};
ghost use Rattle.axis.specs.Meaning.{lines, low, high};
ghost use Rattle.axis.specs.Asks.{Named};
ghost use Rattle.axis.specs.Distance.{base};
ghost use Rattle.ledger.specs.Means.{Sound, Names, Admits};
ghost use Rattle.ledger.specs.Ranges.{every_low, every_high};

use crate::Ledger;
use axis::{AxisFault, Bound, Range};

impl Ledger {
    pub fn lines(&self) -> usize
        ensures value { result ≡ lines self.now }
        ensures few { result ≤ 12 }
    {
        self.ranges.len()
    }

    // The ranges of the lines from 1 on.
    pub fn ranges(&self) -> &[Range]
        ensures least { every_low result.now ≡ self.now.lows }
        ensures greatest { every_high result.now ≡ self.now.highs }
        ensures sound { Sound self.now }
    {
        self.ranges.as_slice()
    }

    // Line 0 is at 0 always.
    fn range(&self, line: usize) -> Range
        requires { line ≤ lines self.now }
        ensures least { result.low ≡ low self.now line }
        ensures greatest { result.high ≡ high self.now line }
        ensures sound { Sound self.now }
    {
        let ranges = self.ranges();
        if line == 0 {
            Range { low: 0, high: 0 }
        } else {
            ranges[line - 1]
        }
    }

    // The length from line i to line j over line 0, before any bound stands.
    pub fn direct(&self, i: usize, j: usize) -> i16
        requires { Named (lines self.now) i j }
        ensures { result ≡ base self.now.lows self.now.highs i j }
    {
        if i == j {
            0
        } else {
            self.range(i).high - self.range(j).low
        }
    }

    // The standing bounds, oldest first.
    pub fn bounds(&self) -> &[Bound]
        ensures { result.now ≡ self.now.bounds }
    {
        self.bounds.as_slice()
    }

    pub fn count(&self) -> usize
        ensures { result ≡ length self.now.bounds }
    {
        self.bounds.len()
    }

    // Are p and q lines of the axis?
    pub fn names(&self, p: u8, q: u8) -> Result<(), AxisFault>
        ensures { Names self.now p q result }
    {
        let n = self.lines();
        if usize::from(p) > n || usize::from(q) > n {
            return Err(AxisFault::Line);
        }
        Ok(())
    }

    // All questions on a bound but the last, whether a placement would remain.
    pub fn admits(&self, bound: Bound) -> Result<(), AxisFault>
        ensures { Admits self.now bound result }
    {
        self.names(bound.p, bound.q)?;
        if !(-4000..=4000).contains(&bound.d) {
            return Err(AxisFault::Length);
        }
        if self.count() >= 90 {
            return Err(AxisFault::Full);
        }
        Ok(())
    }
}
