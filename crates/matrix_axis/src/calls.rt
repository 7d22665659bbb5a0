// The calls of the matrix axis.
ghost use Rattle.std.specs.Prelude.{◌≡◌, IsTrue, ◌↔◌, pos, ◌+ℤ◌, ◌<ℤ◌, IfOk};
ghost use Rattle.axis.specs.Meaning.{new, lines};
ghost use Rattle.axis.specs.Asks.{Named, Within, Tightest};
ghost use Rattle.axis.specs.Distance.{distance};
ghost use Rattle.ledger.specs.Lengths.{Near};
ghost use Rattle.ledger.proofs.Open.{ledger_roomy, ledger_valid};

use crate::MatrixAxis;
use crate::table::Table;
use axis::{Axis, AxisFault, Bound};
use ledger::Ledger;
use std::alloc::{AllocError, Global};

impl MatrixAxis {
    pub fn new(heap: Global) -> Result<MatrixAxis, AllocError>
        ensures { IfOk result (λ a. a.ledger ≡ new) }
    {
        let ledger = Ledger::new(heap)?;
        let table = Table::new();
        Ok(MatrixAxis { ledger, table })
    }

    // The shortest length, which the table has.
    fn told(&self, p: u8, q: u8) -> i16
        requires { Named (lines self.now.ledger) p q }
        ensures value { result ≡ distance self.now.ledger p q }
        ensures near { Near result }
        ensures tightest { Tightest self.now.ledger p q result }
    {
        self.table.at(usize::from(p), usize::from(q))
    }

    // Is the way back too short for the bound?
    fn closes_ring(&self, bound: Bound) -> bool
        requires { Within (lines self.now.ledger) bound }
        ensures { IsTrue result ↔ (bound.d +ℤ distance self.now.ledger bound.q bound.p) <ℤ pos 0 }
    {
        self.told(bound.q, bound.p) + bound.d < 0
    }
}

impl Axis for MatrixAxis {
    const MOST: usize = 90;

    ghost MOST = { 90 };

    ghost means = { λ a. a.ledger };

    ghost roomy = { ledger_roomy };

    ghost valid = { λ a. ledger_valid a.ledger a.standing };

    fn reset(&mut self, lows: &[i16], highs: &[i16]) -> Result<(), AxisFault> {
        self.ledger.reset(lows, highs)?;
        self.table.fill(&self.ledger);
        Ok(())
    }

    fn put(&mut self, bound: Bound) -> Result<(), AxisFault> {
        self.ledger.admits(bound)?;
        if self.closes_ring(bound) {
            return Err(AxisFault::NoPlacement);
        }
        self.table.mend(self.ledger.lines(), bound);
        self.ledger.push(bound);
        Ok(())
    }

    fn back(&mut self) -> Result<(), AxisFault> {
        // more than the pair that it named may loosen
        let _gone = self.ledger.pop()?;
        self.table.rebuild(&self.ledger);
        Ok(())
    }

    fn tightest(&self, p: u8, q: u8) -> Result<i16, AxisFault> {
        self.ledger.names(p, q)?;
        Ok(self.told(p, q))
    }

    fn count(&self) -> usize {
        self.ledger.count()
    }
}
