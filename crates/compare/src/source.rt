// The source of the calls: mostly good ones, and some that must be refused.
use crate::buffers::{PLACES, TRIALS};
use crate::calls::Call;
use crate::manner::Manner;
use crate::plain::Shape;
use crate::stays::{fitting, spoiled};
use axis::Bound;
use journal::Stay;
use random::Random;
use std::alloc::{AllocError, Global};

// Lengths at the limits and past them.
const EDGES: [i16; 6] = [4000, -4000, 4001, -4001, i16::MAX, i16::MIN];

const LETTERS: [char; 12] = ['T', 'P', 'T', 'P', 'T', 'P', 'T', 'P', 't', 'p', 'B', '\0'];

const WORDS: [char; 11] = ['B', 'A', 'N', 'F', 'B', 'A', 'N', 'F', 'b', 'T', ' '];

// Spans and platforms, of which one at least may not be.
const BAD_EXTENTS: [(u16, u16); 5] = [
    (0, 100),
    (2881, 100),
    (100, 0),
    (100, 1001),
    (u16::MAX, u16::MAX),
];

#[derive(Drop)]
pub struct Source {
    heap: Global,
    pub random: Random,
    manner: Manner,
}

impl Source {
    pub fn new(heap: Global) -> Source {
        let mut random = Random::new(20_261_127);
        let manner = Manner::small(&mut random);
        Source {
            heap,
            random,
            manner,
        }
    }

    pub fn make_small(&mut self) {
        self.manner = Manner::small(&mut self.random);
    }

    pub fn make_wide(&mut self) {
        self.manner = Manner::wide(&mut self.random);
    }

    // A load that is accepted.
    pub fn load(&mut self) -> Result<Call, AllocError> {
        let manner = self.manner;
        let span = self.random.up_to(manner.span).saturating_add(1);
        let platform = self.random.up_to(manner.platform).saturating_add(1);
        let count = self.random.up_to(manner.stays);
        Ok(Call::Load {
            span,
            platform,
            stays: self.stays(span, platform, count)?,
        })
    }

    fn stays(&mut self, span: u16, platform: u16, count: u16) -> Result<Vec<Stay>, AllocError> {
        let mut stays = Vec::new(self.heap);
        for _ in 0..count {
            stays.push(fitting(&mut self.random, &self.manner, span, platform))?;
        }
        Ok(stays)
    }

    fn spoiled_load(&mut self) -> Result<Call, AllocError> {
        let mut span = self.random.up_to(self.manner.span).saturating_add(1);
        let mut platform = self.random.up_to(self.manner.platform).saturating_add(1);
        let mut stays = self.stays(span, platform, 4)?;
        match self.random.up_to(7) {
            0 => (span, platform) = self.random.pick(&BAD_EXTENTS),
            1 => stays = self.stays(span, platform, 13)?,
            _ => self.spoil_one(stays.as_mut_slice(), span, platform),
        }
        Ok(Call::Load {
            span,
            platform,
            stays,
        })
    }

    fn spoil_one(&mut self, stays: &mut [Stay], span: u16, platform: u16) {
        let place = usize::from(self.random.up_to(3));
        if let Some(stay) = stays.get_mut(place) {
            *stay = spoiled(&mut self.random, *stay, span, platform);
        }
    }

    pub fn next_call(&mut self, shape: Shape) -> Result<Call, AllocError> {
        match self.random.up_to(39) {
            0 => self.spoiled_load(),
            1 => self.load_seldom(),
            2..=10 => Ok(self.ask(shape)),
            11..=13 => Ok(self.settle(shape)),
            _ => Ok(self.change(shape)),
        }
    }

    // So that many entries come to stand.
    fn load_seldom(&mut self) -> Result<Call, AllocError> {
        if self.random.chance(90) {
            return self.spoiled_load();
        }
        self.load()
    }

    pub fn change(&mut self, shape: Shape) -> Call {
        if self.random.chance(self.manner.withdraws) {
            return Call::Withdraw;
        }
        self.entry(shape)
    }

    // A rule or a bind.
    pub fn entry(&mut self, shape: Shape) -> Call {
        if self.random.chance(30) {
            return Call::Rule {
                i: self.line(shape),
                j: self.line(shape),
                word: self.random.pick(&WORDS),
            };
        }
        Call::Bind {
            letter: self.random.pick(&LETTERS),
            bound: Bound {
                p: self.line(shape),
                q: self.line(shape),
                d: self.length(),
            },
        }
    }

    pub fn ask(&mut self, shape: Shape) -> Call {
        Call::Ask {
            letter: self.random.pick(&LETTERS),
            p: self.line(shape),
            q: self.line(shape),
        }
    }

    // Seldom a number that no line has.
    fn line(&mut self, shape: Shape) -> u8 {
        match self.random.up_to(79) {
            0 => shape.count.saturating_add(1),
            1 => u8::MAX,
            _ => self.random.up_to(u16::from(shape.count)) as u8,
        }
    }

    fn length(&mut self) -> i16 {
        if self.random.chance(2) {
            return self.random.pick(&EDGES);
        }
        let above = self.random.up_to(self.manner.slack);
        let below = self.random.up_to(self.manner.tight);
        i16::try_from(i32::from(above).saturating_sub(i32::from(below))).unwrap_or(0)
    }

    // Often on buffers that are too short, and always where the sheet is too large for the second solver.
    fn settle(&mut self, shape: Shape) -> Call {
        let count = usize::from(shape.count);
        let mut places = PLACES;
        let mut trials = TRIALS;
        if count > 1 && (shape.large || self.random.chance(40)) {
            if self.random.chance(50) {
                places = below(&mut self.random, count);
            } else {
                trials = below(&mut self.random, shape.pairs);
            }
        }
        Call::Settle { places, trials }
    }
}

// A number below the limit, or 0.
fn below(random: &mut Random, limit: usize) -> usize {
    let most = u16::try_from(limit).unwrap_or(u16::MAX).saturating_sub(1);
    usize::from(random.up_to(most))
}
