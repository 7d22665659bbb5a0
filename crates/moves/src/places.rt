// The least place of one box.
ghost use Rattle.std.specs.Prelude.{◌≤◌, pos};
ghost use Rattle.axis.specs.Meaning.{lines};
ghost use Rattle.axis.specs.Theory.{EarliestValue};

use axis::{Axis, earliest};
use boxes::Place;

// The earliest value of a line that is there; it is never below 0.
fn least<A: Axis>(axis: &A, line: u8) -> u16
    requires { line ≤ lines (A.means axis.now) }
    ensures { EarliestValue (A.means axis.now) line (pos result) }
{
    earliest(axis, line).unwrap_or(0) as u16
}

// A box's step and metre, worked out together.
pub(crate) fn place_of<T: Axis, P: Axis>(time: &T, platform: &P, line: u8) -> Place
    requires { (line ≤ lines (T.Axis.means time.now)) × (line ≤ lines (P.Axis.means platform.now)) }
    ensures { EarliestValue (T.Axis.means time.now) line (pos result.step) × EarliestValue (P.Axis.means platform.now) line (pos result.metre) }
{
    Place {
        step: least(time, line),
        metre: least(platform, line),
    }
}
