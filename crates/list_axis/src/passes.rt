// Relaxing the edges of the distance graph: the bounds, and the ranges as bounds against line 0.
ghost use Rattle.std.specs.Prelude.{◌≡◌, ℕ, ◌+◌, ◌<◌, ◌≤◌};
ghost use Rattle.axis.specs.Meaning.{lines, low, high};
ghost use Rattle.list_axis.specs.Rows.{IsEdge, Kept, BoundsKept, RangeKept, RangesKept, EdgesKept};
ghost use Rattle.list_axis.specs.Passing.{Passed};

use crate::lengths::Lengths;
use axis::{Bound, Range};

impl Lengths<'_> {
    // Relaxes every edge once, and says whether that shortened a way.
    pub fn pass(&mut self) -> bool
        ensures { Passed EdgesKept self.old self.new result }
    {
        let bounds = self.pass_bounds();
        let ranges = self.pass_ranges();
        bounds | ranges
    }

    fn pass_bounds(&mut self) -> bool
        ensures { Passed (λ m. BoundsKept m.bounds) self.old self.new result }
    {
        let mut changed = false;
        for bound in self.ledger.bounds() {
            changed |= self.relax(*bound);
        }
        changed
    }

    fn pass_ranges(&mut self) -> bool
        ensures { Passed (λ m. RangesKept m (lines m + 1)) self.old self.new result }
    {
        let mut changed = false;
        for (line, range) in (1..).zip(self.ledger.ranges()) {
            changed |= self.pass_range(line, *range);
        }
        changed
    }

    // A line is at most at its high, and at least at its low.
    fn pass_range(&mut self, line: u8, range: Range) -> bool
        requires line { line ≤ lines self.old.ledger.now }
        requires range { (range.low ≡ low self.old.ledger.now line) × (range.high ≡ high self.old.ledger.now line) }
        ensures { Passed (λ m. RangeKept m line) self.old self.new result }
    {
        let down = self.relax(Bound {
            p: line,
            q: 0,
            d: range.high,
        });
        let up = self.relax(Bound {
            p: 0,
            q: line,
            d: -range.low,
        });
        down | up
    }

    // Takes the way along the edge if it is shorter.
    fn relax(&mut self, edge: Bound) -> bool
        requires { IsEdge self.old.ledger.now edge }
        ensures { Passed (λ _. Kept edge) self.old self.new result }
    {
        let p = usize::from(edge.p);
        let q = usize::from(edge.q);
        let length = self.row[p] + edge.d;
        if length < self.row[q] {
            self.row[q] = length;
            return true;
        }
        false
    }
}
