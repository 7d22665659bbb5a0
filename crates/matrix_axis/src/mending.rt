// Mending the table after a bound: only the listed rows and columns, in place.
ghost use Rattle.std.specs.Prelude.{◌≤◌};
ghost use Rattle.stack.specs.Stacks.{contents};
ghost use Rattle.axis.specs.Asks.{Within};
ghost use Rattle.axis.specs.Distance.{mend};
ghost use Rattle.matrix_axis.specs.Cells.{cell, Same, Closed};
ghost use Rattle.matrix_axis.specs.Mending.{Pending, Mended};

use crate::over::Over;
use crate::table::Table;
use axis::Bound;
use stack::Stack;

impl Table {
    fn mend_rows(&mut self, over: &Over, rows: &mut Stack<'_, u8>, columns: &[u8])
        requires { Pending (cell self.old.rows) over.now (contents rows.old) columns.now }
        ensures { Mended over.now self.old.rows self.new.rows }
    {
        while let Ok(line) = rows.pop() {
            let i = usize::from(line);
            over.mend_row(i, &mut self.rows[i], columns);
        }
    }

    // One bound more, on the lines 0 to last.
    pub fn mend(&mut self, last: usize, bound: Bound)
        requires few { last ≤ 12 }
        requires within { Within last bound }
        requires closed { Closed last (cell self.old.rows) }
        ensures { Same last self.new.rows (mend (cell self.old.rows) bound) }
    {
        let p = usize::from(bound.p);
        let q = usize::from(bound.q);
        let over = Over {
            last,
            starts: self.column(p),
            d: bound.d,
            ends: self.row(q),
        };
        let mut row_slots = [u8::MAX; 13];
        let mut rows = over.list_nearer(&mut row_slots, |i| {
            over.starts[i] + over.d < self.rows[i][q]
        });
        let mut column_slots = [u8::MAX; 13];
        let columns = over.list_nearer(&mut column_slots, |j| {
            over.d + over.ends[j] < self.rows[p][j]
        });
        self.mend_rows(&over, &mut rows, columns.items());
    }
}
