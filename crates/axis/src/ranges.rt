// Which ranges a line may have.
ghost use Rattle.std.specs.Prelude.{IsTrue, ◌↔◌};
ghost use Rattle.axis.specs.Asks.{InOrder};

use crate::Range;

impl Range {
    // Is the low from 0 to 2880, and the high from the low to 2880?
    pub fn in_order(self) -> bool
        ensures { IsTrue result ↔ InOrder self.low self.high }
    {
        0 <= self.low && self.low <= self.high && self.high <= 2880
    }
}
