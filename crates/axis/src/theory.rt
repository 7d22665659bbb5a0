// What the distances of every axis tell: the earliest and the latest value of a line, and the theory behind them.
ghost use Rattle.axis.specs.Theory.{DistancesHold, EarliestOf, LatestOf, ReachOf};

use crate::Axis;
use crate::model::AxisFault;

// The least value that the line has in any placement.
pub fn earliest<A: Axis>(axis: &A, line: u8) -> Result<i16, AxisFault>
    ensures { EarliestOf (A.means axis.now) line result }
{
    Ok(-reach(axis, 0, line)?)
}

// The largest difference, and what it tells of a line less line 0, and of line 0 less a line.
fn reach<A: Axis>(axis: &A, p: u8, q: u8) -> Result<i16, AxisFault>
    ensures { ReachOf (A.means axis.now) p q result }
{
    axis.tightest(p, q)
}

// The greatest value that the line has in any placement.
pub fn latest<A: Axis>(axis: &A, line: u8) -> Result<i16, AxisFault>
    ensures { LatestOf (A.means axis.now) line result }
{
    reach(axis, line, 0)
}

// The theory of distances holds of every axis: the gate asks for its proof here.
pub fn distances_hold() -> bool
    ensures { DistancesHold }
{
    true
}
