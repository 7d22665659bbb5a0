// The ways over a new bound.
ghost use Rattle.std.specs.Prelude.{◌≡◌, ℕ, ◌<◌, ◌≤◌, false, length, slice_index_or};
ghost use Rattle.stack.specs.Stacks.{contents};
ghost use Rattle.matrix_axis.specs.Lists.{Listed};
ghost use Rattle.matrix_axis.specs.Ways.{Short};

use stack::Stack;

// On the lines 0 to last: the ways of each to the bound's start, its length, and the ways from its end to each.
// Kept as arrays with the last line beside them: mending may need no memory, and thirteen lines are the most.
#[derive(Drop)]
pub struct Over {
    pub last: usize,
    pub starts: [i16; 13],
    pub d: i16,
    pub ends: [i16; 13],
    ghost few: { last ≤ 12 },
    ghost short: { Short last starts d ends },
}

impl Over {
    ghost use Rattle.matrix_axis.specs.Mending.{way, RowMended};

    // From line i over the bound to line j.
    pub fn way(&self, i: usize, j: usize) -> i16
        requires { (i ≤ self.now.last) × (j ≤ self.now.last) }
        ensures { result ≡ way self.now i j }
    {
        self.starts[i] + (self.d + self.ends[j])
    }

    // Lists those of the lines that are nearer over the bound, on the memory lent.
    pub fn list_nearer<'a, F: Fn(usize) -> bool>(
        &self,
        slots: &'a mut [u8; 13],
        is_nearer: F,
    ) -> Stack<'a, u8>
        requires { (r : ℕ) → r ≤ self.now.last → F.pre is_nearer r }
        ensures { Listed self.now.last (λ r. F.post is_nearer r false) (contents result) }
    {
        let mut list = Stack::new(slots);
        // Kept a range: a line is its number, and the closure looks up what it asks.
        for line in 0..self.last + 1 {
            if is_nearer(line) {
                let _ = list.push(line as u8);
            }
        }
        list
    }

    // Lowers the row of line i, in the listed columns.
    pub fn mend_row(&self, i: usize, row: &mut [i16; 13], columns: &[u8])
        requires line { i ≤ self.now.last }
        requires columns { (k : ℕ) → k < length columns.now → slice_index_or columns.now k 0 ≤ self.now.last }
        ensures { RowMended self.now i columns.now row.old row.new }
    {
        for j in columns {
            let j = usize::from(*j);
            row[j] = row[j].min(self.way(i, j));
        }
    }
}
