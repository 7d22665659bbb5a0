// The task, on any axis.
ghost use Rattle.std.specs.Prelude.{◌≡◌, Ok};
ghost use Rattle.axis.specs.Meaning.{Meaning};
ghost use Rattle.worked_axes.specs.Task.{worked, times, Spanned};

use axis::{Axis, AxisFault, Bound, earliest, latest};

// Three lines with their ranges, and one bound.
#[tactic(auto, using(crate::proofs::Worked::put_done))]
fn set_up<A: Axis>(axis: &mut A) -> Result<(), AxisFault>
    ensures answer { result ≡ Ok tt }
    ensures after { A.means axis.new ≡ worked }
{
    axis.reset(&[0, 0, 0], &[4, 3, 0])?;
    axis.put(Bound { p: 1, q: 2, d: -3 })
}

// The earliest and the latest value of a line.
fn span<A: Axis>(axis: &A, line: u8) -> Result<(i16, i16), AxisFault>
    ensures { Spanned (A.means axis.now) line result }
{
    Ok((earliest(axis, line)?, latest(axis, line)?))
}

pub fn task<A: Axis>(axis: &mut A) -> Result<[(i16, i16); 3], AxisFault>
    ensures answer { result ≡ Ok times }
    ensures after { A.means axis.new ≡ worked }
{
    set_up(axis)?;
    let [first, second, third] = [1, 2, 3].map(|line| span(axis, line));
    Ok([first?, second?, third?])
}
