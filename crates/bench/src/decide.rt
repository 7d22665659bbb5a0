// Decides a packing on two axes of any kind.
ghost use Rattle.std.specs.Prelude.{◌≡◌, ◌≤◌, true, IfOk, OnOk, vec_len};
ghost use Rattle.boxes.specs.Overlaps.{GoodSize, Sized};
ghost use Rattle.bench.specs.Ranges.{lined};
ghost use Rattle.bench.specs.Decided.{Decided};

use crate::packings::Packing;
use anyhow::ensure;
use axis::Axis;
use boxes::{Direction, MOST_BOXES, MOST_PAIRS, Place, Size};
use moves::Axes;
use packing::{NoArrangement, pack};
use stack::Trial;
use std::alloc::Global;

fn is_sized(size: &Size) -> bool
    ensures { result ≡ true → GoodSize size.now }
{
    (1..=2880).contains(&size.steps) && (1..=2880).contains(&size.metres)
}

fn all_sized(sizes: &[Size]) -> bool
    ensures { result ≡ true → Sized sizes.now }
{
    sizes.iter().all(is_sized)
}

// The lines of the ranges in that direction, and no bounds.
#[tactic(auto, using(crate::proofs::Deciding::lined_by_reset))]
fn reset<T: Axis, P: Axis>(
    heap: Global,
    axes: &mut Axes<T, P>,
    direction: Direction,
    packing: &Packing,
) -> anyhow::Result<()>
    ensures after { OnOk result (axes.new ≡ lined direction packing.now.boxes.items axes.old) }
    ensures few { OnOk result (vec_len packing.now.boxes ≤ 12) }
{
    let lows = packing.lows(heap, direction)?;
    let highs = packing.highs(heap, direction)?;
    axes.reset(direction, lows.as_slice(), highs.as_slice())?;
    Ok(())
}

pub fn decide<T: Axis, P: Axis>(
    heap: Global,
    axes: &mut Axes<T, P>,
    packing: &Packing,
) -> anyhow::Result<Result<u64, NoArrangement>>
    ensures { IfOk result (λ answer. Decided packing.now answer) }
{
    let sizes = packing.sizes(heap)?;
    ensure!(
        all_sized(sizes.as_slice()),
        "a box has an extent that is not from 1 to 2880"
    );
    reset(heap, axes, Direction::Time, packing)?;
    reset(heap, axes, Direction::Platform, packing)?;
    // Kept arrays: a packing writes into lent buffers.
    let mut places = [Place::default(); MOST_BOXES];
    let mut trials = [Trial::default(); MOST_PAIRS];
    Ok(pack(axes, sizes.as_slice(), &mut places, &mut trials))
}
