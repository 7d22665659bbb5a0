// Which pair to try next: any open pair would do, and this choice is what makes the descent fast.
ghost use Rattle.std.specs.Prelude.{length};
ghost use Rattle.trials.specs.Trials.{PickedBelow};

use axis::Axis;
use boxes::Size;
use moves::{Standing, reach};
use stack::Trial;
use std::cmp::Reverse;

// First a pair with no possible word, then one with an implied word, then those with the fewest possible words.
#[derive(Clone, Copy, PartialEq, Eq, PartialOrd, Ord)]
enum Class {
    Hopeless,
    Implied,
    Possible(usize),
}

// Among equals first the pair whose smaller box has the larger area, then whose larger box has.
#[derive(Clone, Copy, PartialEq, Eq, PartialOrd, Ord)]
struct Rank {
    class: Class,
    smaller: Reverse<u32>,
    larger: Reverse<u32>,
}

// What is known of a word, by the largest difference the one way and the other. Kept beside judge, which asks both for each word:
// here they are asked once for two words, of any sizes.
fn standing(out: i16, back: i16, extent: u16) -> Standing {
    let extent = i32::from(extent);
    if i32::from(back) < extent {
        Standing::Impossible
    } else if i32::from(out) <= -extent {
        Standing::Implied
    } else {
        Standing::Possible
    }
}

fn class_of(standings: [Standing; 4]) -> Class {
    let possible = standings
        .iter()
        .filter(|standing| **standing != Standing::Impossible)
        .count();
    if possible == 0 {
        Class::Hopeless
    } else if standings.contains(&Standing::Implied) {
        Class::Implied
    } else {
        Class::Possible(possible)
    }
}

// The size of that box, counted from 1.
fn size_of(sizes: &[Size], number: u8) -> Size {
    let unit = Size {
        steps: 1,
        metres: 1,
    };
    sizes
        .get(usize::from(number).wrapping_sub(1))
        .copied()
        .unwrap_or(unit)
}

fn area(size: Size) -> u32 {
    u32::from(size.steps).saturating_mul(u32::from(size.metres))
}

// What is known of a word and its mirrored one on one axis, where the boxes take up so much.
fn weigh<A: Axis>(axis: &A, trial: Trial, first: u16, second: u16) -> (Standing, Standing) {
    let out = reach(axis, trial.i, trial.j);
    let back = reach(axis, trial.j, trial.i);
    (standing(out, back, first), standing(back, out, second))
}

fn rank_of<T: Axis, P: Axis>(time: &T, platform: &P, sizes: &[Size], trial: Trial) -> Rank {
    let first = size_of(sizes, trial.i);
    let second = size_of(sizes, trial.j);
    let (before, after) = weigh(time, trial, first.steps, second.steps);
    let (nearer, farther) = weigh(platform, trial, first.metres, second.metres);
    Rank {
        class: class_of([before, after, nearer, farther]),
        smaller: Reverse(area(first).min(area(second))),
        larger: Reverse(area(first).max(area(second))),
    }
}

// An open pair that no other is to be tried before, if one is open.
pub fn pick<T: Axis, P: Axis>(
    time: &T,
    platform: &P,
    sizes: &[Size],
    trials: &[Trial],
) -> Option<usize>
    ensures { PickedBelow (length trials.now) trials.now result }
{
    trials
        .iter()
        .enumerate()
        .filter(|(_, trial)| trial.word.is_none())
        .min_by_key(|(_, trial)| rank_of(time, platform, sizes, **trial))
        .map(|(k, _)| k)
}
