// The calls of the list axis.
ghost use Rattle.std.specs.Prelude.{◌≡◌, IsTrue, ◌↔◌, pos, ◌+ℤ◌, ◌<ℤ◌, IfOk};
ghost use Rattle.axis.specs.Meaning.{new, lines};
ghost use Rattle.axis.specs.Asks.{Within};
ghost use Rattle.axis.specs.Distance.{distance};
ghost use Rattle.ledger.proofs.Open.{ledger_roomy, ledger_valid};

use crate::ListAxis;
use crate::lengths::lengths_from;
use axis::{Axis, AxisFault, Bound};
use ledger::Ledger;
use std::alloc::{AllocError, Global};

impl ListAxis {
    pub fn new(heap: Global) -> Result<ListAxis, AllocError>
        ensures { IfOk result (λ a. a.ledger ≡ new) }
    {
        let ledger = Ledger::new(heap)?;
        Ok(ListAxis { ledger })
    }

    // Is the way back too short for the bound?
    fn closes_ring(&self, bound: Bound) -> bool
        requires { Within (lines self.now.ledger) bound }
        ensures { IsTrue result ↔ (bound.d +ℤ distance self.now.ledger bound.q bound.p) <ℤ pos 0 }
    {
        let back = lengths_from(&self.ledger, usize::from(bound.q));
        back[usize::from(bound.p)] + bound.d < 0
    }
}

impl Axis for ListAxis {
    const MOST: usize = 90;

    ghost MOST = { 90 };

    ghost means = { λ a. a.ledger };

    ghost roomy = { ledger_roomy };

    ghost valid = { λ a. ledger_valid a.ledger a.standing };

    fn reset(&mut self, lows: &[i16], highs: &[i16]) -> Result<(), AxisFault> {
        self.ledger.reset(lows, highs)
    }

    // Kept beside the matrix axis's: what both do with a ledger is the ledger's, and the table is mended in between.
    fn put(&mut self, bound: Bound) -> Result<(), AxisFault> {
        self.ledger.admits(bound)?;
        if self.closes_ring(bound) {
            return Err(AxisFault::NoPlacement);
        }
        self.ledger.push(bound);
        Ok(())
    }

    fn back(&mut self) -> Result<(), AxisFault> {
        self.ledger.pop()?;
        Ok(())
    }

    fn tightest(&self, p: u8, q: u8) -> Result<i16, AxisFault> {
        self.ledger.names(p, q)?;
        let lengths = lengths_from(&self.ledger, usize::from(p));
        Ok(lengths[usize::from(q)])
    }

    fn count(&self) -> usize {
        self.ledger.count()
    }
}
