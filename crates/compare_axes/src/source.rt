// The source of the calls: mostly good ones around a hidden placement, and some that must be refused.
use crate::calls::{Call, LINES};
use crate::manner::Manner;
use crate::ranges::{ranges_around, reset_to, spoiled_reset};
use axis::{Bound, Range};
use random::Random;
use std::alloc::{AllocError, Global};

// Lengths at the limits and past them.
const EDGES: [i16; 6] = [4000, -4000, 4001, -4001, i16::MAX, i16::MIN];

#[derive(Drop)]
pub struct Source {
    heap: Global,
    random: Random,
    manner: Manner,
    // the hidden placement, by line
    values: [i16; LINES],
}

impl Source {
    pub fn new(heap: Global) -> Source {
        Source {
            heap,
            random: Random::new(20_240_229),
            manner: Manner::first(),
            values: [0; LINES],
        }
    }

    // Another manner and placement, and the reset to it.
    pub fn next_round(&mut self) -> Result<Call, AllocError> {
        self.manner = Manner::draw(&mut self.random);
        draw_values(&mut self.random, &mut self.values);
        let ranges = self.ranges()?;
        reset_to(self.heap, ranges.as_slice())
    }

    pub fn next_call(&mut self) -> Result<Call, AllocError> {
        match self.random.below(20) {
            0 => self.reset(),
            1 => Ok(Call::Count),
            2..=5 => Ok(self.tightest()),
            _ => Ok(self.change()),
        }
    }

    pub fn tightest(&mut self) -> Call {
        let p = self.line();
        let q = self.line();
        Call::Tightest(p, q)
    }

    pub fn bound(&mut self) -> Bound {
        let p = self.line();
        let q = self.line();
        let d = self.length(p, q);
        Bound { p, q, d }
    }

    fn change(&mut self) -> Call {
        if self.random.below(100) < self.manner.backs {
            return Call::Back;
        }
        Call::Put(self.bound())
    }

    // Seldom a good one, so that many bounds come to stand.
    fn reset(&mut self) -> Result<Call, AllocError> {
        let ranges = self.ranges()?;
        if self.random.below(30) > 0 {
            return spoiled_reset(self.heap, ranges, &mut self.random);
        }
        reset_to(self.heap, ranges.as_slice())
    }

    fn ranges(&mut self) -> Result<Vec<Range>, AllocError> {
        let values = self.values;
        let manner = self.manner;
        ranges_around(
            self.heap,
            &values[1..=usize::from(manner.lines)],
            &manner,
            &mut self.random,
        )
    }

    fn line(&mut self) -> u8 {
        match self.random.below(80) {
            0 => self.manner.lines + 1,
            1 => u8::MAX,
            _ => self.random.below(u16::from(self.manner.lines) + 1) as u8,
        }
    }

    // A line that is not there has no value.
    fn value(&self, line: u8) -> i16 {
        self.values.get(usize::from(line)).copied().unwrap_or(0)
    }

    fn length(&mut self, p: u8, q: u8) -> i16 {
        let kept = self.value(p).saturating_sub(self.value(q));
        let slack = self.random.below(self.manner.slack + 1) as i16;
        if self.random.below(40) == 0 {
            self.random.pick(&EDGES)
        } else if self.random.below(100) < self.manner.daring {
            kept.saturating_sub(slack).saturating_sub(1)
        } else {
            kept.saturating_add(slack)
        }
    }
}

// Line 0 stays at 0.
fn draw_values(random: &mut Random, values: &mut [i16; LINES]) {
    for value in values.iter_mut().skip(1) {
        *value = random.below(2881) as i16;
    }
}
