// Packings: boxes with windows in a span of steps by a platform of metres, as sizes and ranges.
ghost use Rattle.std.specs.Prelude.{◌≡◌, map, IfOk};
ghost use Rattle.bench.specs.Ranges.{range_of};
ghost use Rattle.bench.specs.Windows.{on_axis, last_place, window, ranged, Packs};

use axis::Range;
use boxes::{Direction, Size};
use std::alloc::{AllocError, Global};

// A box that comes at the step `first` or later and is gone by the step `gone`.
#[derive(Clone, Copy)]
pub struct Stay {
    pub size: Size,
    pub first: u16,
    pub gone: u16,
}

// A box with the steps at which it may come, and the metres at which it may begin.
#[derive(Clone, Copy)]
pub struct Ranged {
    pub size: Size,
    pub steps: Range,
    pub metres: Range,
}

#[derive(Drop)]
pub struct Packing {
    pub boxes: Vec<Ranged>,
}

// A step or a metre as an axis has it; every axis refuses those past 2880.
fn on_axis(place: u16) -> i16
    ensures { result ≡ on_axis place }
{
    place.min(2881) as i16
}

// The last place from which the extent still ends by `end`; -1 where it does not fit.
fn last_place(end: u16, extent: u16) -> i16
    ensures { result ≡ last_place end extent }
{
    end.checked_sub(extent).map_or(-1, on_axis)
}

// From the first place to the last.
// Kept apart from the range of a stay in a load, which asks that the stay fits: here one that does not is told, by a high of -1.
fn window(first: u16, end: u16, extent: u16) -> Range
    ensures { result ≡ window first end extent }
{
    Range {
        low: on_axis(first),
        high: last_place(end, extent),
    }
}

impl Stay {
    fn ranged(&self, platform: u16) -> Ranged
        ensures { result ≡ ranged platform self.now }
    {
        Ranged {
            size: self.size,
            steps: window(self.first, self.gone, self.size.steps),
            metres: window(0, platform, self.size.metres),
        }
    }
}

impl Ranged {
    pub fn range(&self, direction: Direction) -> Range
        ensures { result ≡ range_of direction self.now }
    {
        direction.pick(self.steps, self.metres)
    }
}

impl Packing {
    pub fn new(heap: Global, stays: &[Stay], platform: u16) -> Result<Packing, AllocError>
        ensures { IfOk result (λ x. Packs platform stays.now x) }
    {
        let boxes = stays
            .iter()
            .map(|stay| stay.ranged(platform))
            .collect(heap)?;
        Ok(Packing { boxes })
    }

    pub fn sizes(&self, heap: Global) -> Result<Vec<Size>, AllocError>
        ensures { IfOk result (λ x. x.items ≡ map (λ b. b.size) self.now.boxes.items) }
    {
        self.boxes.iter().map(|one| one.size).collect(heap)
    }

    // Kept parallel with the highs: an axis takes two lists, and first refuses those that are not equally long.
    pub fn lows(&self, heap: Global, direction: Direction) -> Result<Vec<i16>, AllocError>
        ensures { IfOk result (λ x. x.items ≡ map (λ b. (range_of direction b).low) self.now.boxes.items) }
    {
        self.boxes
            .iter()
            .map(|one| one.range(direction).low)
            .collect(heap)
    }

    // Kept as two chains: one over a closure for the end needs a clause about its calls that is longer than both.
    pub fn highs(&self, heap: Global, direction: Direction) -> Result<Vec<i16>, AllocError>
        ensures { IfOk result (λ x. x.items ≡ map (λ b. (range_of direction b).high) self.now.boxes.items) }
    {
        self.boxes
            .iter()
            .map(|one| one.range(direction).high)
            .collect(heap)
    }
}
