// One direction of a platform sheet: lines with ranges, and bounds on their differences.
#![tactic(auto)]

ghost use Rattle.std.specs.Prelude.{◌≡◌, ℕ, ◌≤◌, length};
ghost use Rattle.axis.specs.Meaning.{Meaning};
ghost use Rattle.axis.specs.Asks.{Put, Back, Reset, Tight, Valid};

mod faults;
mod model;
mod ranges;
mod theory;

pub use model::{AxisFault, Bound, Range};
pub use theory::{distances_hold, earliest, latest};

// Every call asks its questions in order; the first answered no gives the refusal, and a refused call changes nothing.
pub trait Axis {
    // the most bounds that the axis holds
    const MOST: usize;

    ghost MOST: { ℕ };

    ghost means: { Self → Meaning };

    fn capacity() -> usize
        ensures { result ≡ MOST }
    {
        Self::MOST
    }

    // New lines 1, 2 .. with these ranges, and no bounds.
    fn reset(&mut self, lows: &[i16], highs: &[i16]) -> Result<(), AxisFault>
        ensures { Reset (means self.old) lows.now highs.now result (means self.new) };

    // One bound more, the newest.
    fn put(&mut self, bound: Bound) -> Result<(), AxisFault>
        ensures { Put MOST (means self.old) bound result (means self.new) };

    // The newest bound is gone.
    fn back(&mut self) -> Result<(), AxisFault>
        ensures { Back (means self.old) result (means self.new) };

    // The largest difference, p less q, over all placements.
    fn tightest(&self, p: u8, q: u8) -> Result<i16, AxisFault>
        ensures { Tight (means self.now) p q result };

    // How many bounds stand.
    fn count(&self) -> usize
        ensures { result ≡ length (means self.now).bounds };

    ghost roomy: { 90 ≤ MOST };

    ghost valid: { (a : Self) → Valid MOST (means a) };
}
