// A refusal by its number.
ghost use Rattle.std.specs.Prelude.{◌≡◌};
ghost use Rattle.axis.specs.Asks.{number};

use crate::model::AxisFault;

// Kept in each crate that has faults: a trait for one cast would be longer than the three.
impl AxisFault {
    pub fn number(self) -> u8
        ensures { result ≡ number self }
    {
        self as u8
    }
}
