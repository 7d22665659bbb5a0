// A packing on two axes that are lent one by one: each is taken out of its loan for it, and put back.
ghost use Rattle.std.specs.Prelude.{◌≡◌, ◌≤◌, length};
ghost use Rattle.axis.specs.Meaning.{lines};
ghost use Rattle.boxes.specs.Overlaps.{Sized};
ghost use Rattle.boxes.specs.Order.{pairs};
ghost use Rattle.packing.specs.Packs.{Asked, Packed};

use crate::packs::{NoArrangement, pack};
use axis::Axis;
use boxes::{Place, Size};
use core::mem::replace_with;
use moves::Axes;
use stack::Trial;

// What a packing is given besides one axis: the other, owned or lent, the sizes and both buffers.
#[derive(Drop)]
struct Lent<'a, A> {
    other: A,
    sizes: &'a [Size],
    places: &'a mut [Place],
    trials: &'a mut [Trial],
}

// What it gives back. The loans are in it: of what a closure borrows nothing would be known after its call.
#[derive(Drop)]
struct Done<'a, A> {
    other: A,
    places: &'a mut [Place],
    trials: &'a mut [Trial],
    answer: Result<u64, NoArrangement>,
}

// Both axes are out of their loans.
fn with_both<'a, T: Axis, P: Axis>(platform: P, lent: Lent<'a, T>) -> (P, Done<'a, T>)
    requires { Asked (record { time = T.Axis.means lent.other; platform = P.Axis.means platform }) lent.sizes.now lent.places.now lent.trials.now }
    ensures answer { Packed (record { time = T.Axis.means lent.entry.other; platform = P.Axis.means platform }) lent.entry.sizes.now lent.entry.places.now result.1.places.now lent.entry.trials.now result.1.trials.now result.1.answer }
    ensures same { (T.Axis.means result.1.other ≡ T.Axis.means lent.entry.other) × (P.Axis.means result.0 ≡ P.Axis.means platform) }
    ensures loans { (result.1.places.ghost_name ≡ lent.entry.places.ghost_name) × (result.1.trials.ghost_name ≡ lent.entry.trials.ghost_name) }
{
    let Lent {
        other,
        sizes,
        places,
        trials,
    } = lent;
    let mut axes = Axes::new(other, platform);
    let answer = pack(&mut axes, sizes, places, trials);
    let (other, platform) = axes.parts();
    let done = Done {
        other,
        places,
        trials,
        answer,
    };
    (platform, done)
}

// The time axis is out of its loan.
fn with_time<'a, T: Axis, P: Axis>(time: T, lent: Lent<'a, &'a mut P>) -> (T, Done<'a, &'a mut P>)
    requires { Asked (record { time = T.Axis.means time; platform = P.Axis.means lent.other.now }) lent.sizes.now lent.places.now lent.trials.now }
    ensures answer { Packed (record { time = T.Axis.means time; platform = P.Axis.means lent.entry.other.now }) lent.entry.sizes.now lent.entry.places.now result.1.places.now lent.entry.trials.now result.1.trials.now result.1.answer }
    ensures same { (T.Axis.means result.0 ≡ T.Axis.means time) × (P.Axis.means result.1.other.now ≡ P.Axis.means lent.entry.other.now) }
    ensures loans { (result.1.other.ghost_name ≡ lent.entry.other.ghost_name) × (result.1.places.ghost_name ≡ lent.entry.places.ghost_name) × (result.1.trials.ghost_name ≡ lent.entry.trials.ghost_name) }
{
    let Lent {
        other,
        sizes,
        places,
        trials,
    } = lent;
    let owned = Lent {
        other: time,
        sizes,
        places,
        trials,
    };
    let Done {
        other: time,
        places,
        trials,
        answer,
    } = replace_with(&mut *other, owned, with_both);
    let done = Done {
        other,
        places,
        trials,
        answer,
    };
    (time, done)
}

// Neither is out. Kept apart from `pack_lent`: only a call that names its loans tells who lends them what they hold.
fn with_loans<'a, T: Axis, P: Axis>(
    time: &mut T,
    platform: &'a mut P,
    sizes: &'a [Size],
    places: &'a mut [Place],
    trials: &'a mut [Trial],
) -> Done<'a, &'a mut P>
    requires { Asked (record { time = T.Axis.means time.old; platform = P.Axis.means platform.old }) sizes.now places.old trials.old }
    ensures answer { Packed (record { time = T.Axis.means time.old; platform = P.Axis.means platform.old }) sizes.now places.old result.places.now trials.old result.trials.now result.answer }
    ensures same { (T.Axis.means time.new ≡ T.Axis.means time.old) × (P.Axis.means result.other.now ≡ P.Axis.means platform.old) }
    ensures loans { (result.other.ghost_name ≡ platform.entry.ghost_name) × (result.places.ghost_name ≡ places.entry.ghost_name) × (result.trials.ghost_name ≡ trials.entry.ghost_name) }
{
    let lent = Lent {
        other: platform,
        sizes,
        places,
        trials,
    };
    replace_with(time, lent, with_time)
}

// As `pack`, for who has borrowed both axes and so cannot make one value of them.
pub fn pack_lent<T: Axis, P: Axis>(
    time: &mut T,
    platform: &mut P,
    sizes: &[Size],
    places: &mut [Place],
    trials: &mut [Trial],
) -> Result<u64, NoArrangement>
    requires sized { Sized sizes.now }
    requires timed { lines (T.Axis.means time.old) ≡ length sizes.now }
    requires placed { lines (P.Axis.means platform.old) ≡ length sizes.now }
    requires few { (length (T.Axis.means time.old).bounds ≤ 24) × (length (P.Axis.means platform.old).bounds ≤ 24) }
    requires buffers { (length sizes.now ≤ length places.old) × (pairs (length sizes.now) ≤ length trials.old) }
    ensures answer { Packed (record { time = T.Axis.means time.old; platform = P.Axis.means platform.old }) sizes.now places.old places.new trials.old trials.new result }
    ensures same { (T.Axis.means time.new ≡ T.Axis.means time.old) × (P.Axis.means platform.new ≡ P.Axis.means platform.old) }
{
    with_loans(time, platform, sizes, places, trials).answer
}
