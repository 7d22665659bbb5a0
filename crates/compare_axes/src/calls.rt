// The calls of an axis and what they tell as values, so that one list of calls runs on every side.
ghost use Rattle.std.specs.Prelude.{◌≡◌, ◌<◌, slice_index_or, Ok, Err};

use axis::{Axis, AxisFault, Bound};
use std::array;

#[derive(Drop)]
pub enum Call {
    // Kept parallel: an axis takes two lists, and first refuses those that are not equally long.
    Reset { lows: Vec<i16>, highs: Vec<i16> },
    Put(Bound),
    Back,
    Tightest(u8, u8),
    Count,
}

// What an accepted call tells.
#[derive(Clone, Copy, PartialEq, Eq)]
pub enum Told {
    Done,
    Difference(i32),
    Count(usize),
}

pub type Answer = Result<Told, AxisFault>;

// The lines that an axis may have at most, with line 0.
pub const LINES: usize = 13;

// Line 0, and then 1, 2 .. 12.
pub fn all_lines() -> [u8; LINES]
    ensures { (p : _) → p < 13 → slice_index_or result p 0 ≡ p }
{
    array::from_fn(|p| p as u8)
}

// From line p to each line: (p, 0), (p, 1) .. (p, 12).
pub fn tightests_from(p: u8) -> [Call; LINES]
    ensures { (q : _) → q < 13 → slice_index_or result q Call.Back ≡ Call.Tightest p q }
{
    all_lines().map(|q| Call::Tightest(p, q))
}

// What a call answers that tells nothing more.
fn done(answer: Result<(), AxisFault>) -> Answer
    ensures { elim answer [ Ok _ ↦ result ≡ Ok Told.Done | Err f ↦ result ≡ Err f ] }
{
    answer?;
    Ok(Told::Done)
}

fn difference(answer: Result<i16, AxisFault>) -> Answer
    ensures { elim answer [ Ok t ↦ result ≡ Ok (Told.Difference t) | Err f ↦ result ≡ Err f ] }
{
    Ok(Told::Difference(i32::from(answer?)))
}

pub fn perform<A: Axis>(axis: &mut A, call: &Call) -> Answer {
    match call {
        Call::Reset { lows, highs } => done(axis.reset(lows.as_slice(), highs.as_slice())),
        Call::Put(bound) => done(axis.put(*bound)),
        Call::Back => done(axis.back()),
        Call::Tightest(p, q) => difference(axis.tightest(*p, *q)),
        Call::Count => Ok(Told::Count(axis.count())),
    }
}
