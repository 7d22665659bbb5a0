// How a ledger begins and changes.
ghost use Rattle.std.specs.Prelude.{◌≡◌, ℕ, ◌<◌, ◌≤◌, IsTrue, ◌↔◌, [], ◌∷◌, ◌++◌, length, IfOk};
ghost use Rattle.axis.specs.Meaning.{new, lines, with_bound};
ghost use Rattle.axis.specs.Asks.{Reset, Within, Paired, Ordered};
ghost use Rattle.axis.specs.Distance.{Open};
ghost use Rattle.ledger.specs.Means.{Sound, Gone};
ghost use Rattle.ledger.specs.Ranges.{every_low, every_high};

use crate::Ledger;
use axis::{AxisFault, Bound, Range};
use held::Held;
use std::alloc::{AllocError, Global};

impl Ledger {
    pub fn new(heap: Global) -> Result<Ledger, AllocError>
        ensures value { IfOk result (λ l. l ≡ new) }
        ensures sound { IfOk result (λ l. Sound l) }
    {
        let ranges = Held::new(heap)?;
        let bounds = Held::new(heap)?;
        Ok(Ledger { ranges, bounds })
    }

    // New lines with these ranges, and no bounds.
    // Kept two lists: the first question is whether they are equally long.
    pub fn reset(&mut self, lows: &[i16], highs: &[i16]) -> Result<(), AxisFault>
        ensures after { Reset self.old lows.now highs.now result self.new }
        ensures sound { Sound self.old → Sound self.new }
    {
        if lows.len() != highs.len() || lows.len() > 12 {
            return Err(AxisFault::Lists);
        }
        if !ordered(lows, highs) {
            return Err(AxisFault::Ranges);
        }
        refill(&mut self.ranges, lows, highs);
        self.bounds.clear();
        Ok(())
    }

    pub fn push(&mut self, bound: Bound)
        requires within { Within (lines self.old) bound }
        requires space { length self.old.bounds < 90 }
        ensures after { self.new ≡ with_bound self.old bound }
        ensures sound { Sound self.old → Sound self.new }
    {
        self.bounds.push(bound);
    }

    // The newest bound goes.
    pub fn pop(&mut self) -> Result<Bound, AxisFault>
        ensures after { Gone self.old result self.new }
        ensures sound { Sound self.old → Sound self.new }
        ensures opens { Open self.old → Open self.new }
    {
        self.bounds.pop().ok_or(AxisFault::NoBound)
    }
}

// Puts these ranges in place of those that were there.
fn refill(ranges: &mut Held<Range, 12>, lows: &[i16], highs: &[i16])
    requires { Paired lows.now highs.now }
    ensures least { every_low ranges.new ≡ lows.now }
    ensures greatest { every_high ranges.new ≡ highs.now }
{
    ranges.refill_from(
        lows.iter()
            .zip(highs)
            .map(|(&low, &high)| Range { low, high }),
    );
}

// Is every low from 0 to 2880, and every high from its low to 2880?
fn ordered(lows: &[i16], highs: &[i16]) -> bool
    requires { length lows.now ≡ length highs.now }
    ensures { IsTrue result ↔ Ordered lows.now highs.now }
{
    lows.iter()
        .zip(highs)
        .all(|(&low, &high)| Range { low, high }.in_order())
}
