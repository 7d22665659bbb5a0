// The table worked out from nothing.
ghost use Rattle.std.specs.Prelude.{◌≡◌, ℕ, ◌≤◌};
ghost use Rattle.axis.specs.Meaning.{lines};
ghost use Rattle.axis.specs.Distance.{base};
ghost use Rattle.ledger.specs.Means.{Standing};
ghost use Rattle.ledger.specs.Lengths.{entry};
ghost use Rattle.matrix_axis.specs.Cells.{Same, Kept};

use crate::table::Table;
use ledger::Ledger;

impl Table {
    // The lengths before any bound stands. What stands past the last line is never read.
    pub fn fill(&mut self, ledger: &Ledger)
        ensures { Same (lines ledger.now) self.new.rows (base ledger.now.lows ledger.now.highs) }
    {
        for (i, row) in self.rows[..=ledger.lines()].iter_mut().enumerate() {
            fill_row(row, ledger, i);
        }
    }

    // The lengths with every bound that stands.
    pub fn rebuild(&mut self, ledger: &Ledger)
        requires { Standing ledger.now }
        ensures { Kept self.new.rows ledger.now }
    {
        self.fill(ledger);
        let last = ledger.lines();
        for bound in ledger.bounds() {
            self.mend(last, *bound);
        }
    }
}

// The lengths from line i.
fn fill_row(row: &mut [i16; 13], ledger: &Ledger, i: usize)
    requires { i ≤ lines ledger.now }
    ensures { (j : ℕ) → j ≤ lines ledger.now → entry row.new j ≡ base ledger.now.lows ledger.now.highs i j }
{
    for (j, length) in row[..=ledger.lines()].iter_mut().enumerate() {
        *length = ledger.direct(i, j);
    }
}
