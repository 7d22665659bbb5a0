// The calls of a sheet as values, so that one list of calls runs on every side.
use crate::buffers::Buffers;
use axis::{Axis, Bound};
use faults::SheetFault;
use journal::Stay;
use sheet::Sheet;

#[derive(Drop)]
pub enum Call {
    Load {
        span: u16,
        platform: u16,
        stays: Vec<Stay>,
    },
    Bind {
        letter: char,
        bound: Bound,
    },
    Rule {
        i: u8,
        j: u8,
        word: char,
    },
    Withdraw,
    Ask {
        letter: char,
        p: u8,
        q: u8,
    },
    // lends so many records
    Settle {
        places: usize,
        trials: usize,
    },
}

// What an accepted call tells; the plan of a settle lies in its buffers.
#[derive(Clone, Copy, PartialEq, Eq)]
pub enum Told {
    Done,
    Difference(i32),
}

pub type Answer = Result<Told, SheetFault>;

pub fn perform<T: Axis, P: Axis>(
    sheet: &mut Sheet<T, P>,
    call: &Call,
    buffers: &mut Buffers,
) -> Answer {
    match call {
        Call::Load {
            span,
            platform,
            stays,
        } => sheet.load(*span, *platform, stays.as_slice())?,
        Call::Bind { letter, bound } => sheet.bind(*letter, *bound)?,
        Call::Rule { i, j, word } => sheet.rule(*i, *j, *word)?,
        Call::Withdraw => sheet.withdraw()?,
        Call::Ask { letter, p, q } => {
            return Ok(Told::Difference(i32::from(sheet.ask(*letter, *p, *q)?)));
        },
        Call::Settle { places, trials } => settle(sheet, buffers, *places, *trials)?,
    }
    Ok(Told::Done)
}

fn settle<T: Axis, P: Axis>(
    sheet: &mut Sheet<T, P>,
    buffers: &mut Buffers,
    places: usize,
    trials: usize,
) -> Result<(), SheetFault> {
    let places = places.min(buffers.places.len());
    let trials = trials.min(buffers.trials.len());
    sheet.settle(
        &mut buffers.places[0..places],
        &mut buffers.trials[0..trials],
    )
}

impl Call {
    pub fn is_settle(&self) -> bool {
        matches!(self, Call::Settle { .. })
    }
}
