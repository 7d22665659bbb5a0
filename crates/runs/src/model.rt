// A call with its arguments, and its answer.
use axis::Bound;
use boxes::Place;
use faults::SheetFault;
use journal::Stay;
use stack::Trial;

// A settle is given by how many records its buffers have. Kept as data, not closures: a list of calls is told by what each is given.
#[derive(Drop)]
pub enum Call {
    Load {
        span: u16,
        platform: u16,
        stays: Vec<Stay>,
    },
    Bind {
        letter: char,
        bound: Bound,
    },
    Rule {
        i: u8,
        j: u8,
        word: char,
    },
    Withdraw,
    Ask {
        letter: char,
        p: u8,
        q: u8,
    },
    Settle {
        places: usize,
        trials: usize,
    },
}

// What a call tells that is not refused.
#[derive(Drop)]
pub enum Told {
    Done,
    Difference(i16),
    Plan {
        places: Vec<Place>,
        trials: Vec<Trial>,
    },
}

pub type Answer = Result<Told, SheetFault>;
