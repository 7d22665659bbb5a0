// The buffers that a settle is lent, marked so that it shows what is written into them.
use crate::calls::Answer;
use crate::plain::Plain;
use crate::plans::is_plan;
use boxes::Place;
use faults::SheetFault;
use stack::{Trial, Word};

// One more than a plan fills.
pub const PLACES: usize = 13;

pub const TRIALS: usize = 67;

const MARKED_PLACE: Place = Place {
    step: 7777,
    metre: 8888,
};

const MARKED_TRIAL: Trial = Trial {
    i: 77,
    j: 88,
    word: Some(Word::Farther),
};

#[derive(Drop)]
pub struct Buffers {
    pub places: [Place; PLACES],
    pub trials: [Trial; TRIALS],
}

impl Buffers {
    pub fn marked() -> Buffers {
        Buffers {
            places: [MARKED_PLACE; PLACES],
            trials: [MARKED_TRIAL; TRIALS],
        }
    }

    // Do the buffers hold what a settle with this answer writes?
    pub fn tell(&self, plain: &Plain, answer: Answer) -> bool {
        let count = plain.stays.len();
        let pairs = plain.pairs();
        match answer {
            Ok(_) => self.marked_from(count, pairs) && is_plan(plain, &self.places, &self.trials),
            Err(SheetFault::NoPlan) => self.marked_from(0, pairs) && self.blank_before(pairs),
            Err(_) => self.marked_from(0, 0),
        }
    }

    fn marked_from(&self, count: usize, pairs: usize) -> bool {
        self.places
            .iter()
            .skip(count)
            .all(|place| *place == MARKED_PLACE)
            && self
                .trials
                .iter()
                .skip(pairs)
                .all(|trial| *trial == MARKED_TRIAL)
    }

    fn blank_before(&self, pairs: usize) -> bool {
        self.trials.iter().take(pairs).all(|trial| trial.i == 0
            && trial.j == 0
            && trial.word.is_none())
    }
}
