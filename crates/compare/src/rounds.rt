// Rounds on one pairing of axes: sheets that are settled, lists of calls, and the squares.
use crate::buffers::{PLACES, TRIALS};
use crate::calls::Call;
use crate::sides::Sides;
use crate::source::Source;
use crate::squares::squares;
use crate::tally::Tally;
use axis::Axis;
use boxes::Direction;
use std::alloc::{AllocError, Global};

const SHEETS: u16 = 4000;

const ROUNDS: u16 = 100;

const CALLS: u16 = 400;

pub fn all_rounds<T: Axis + Drop, P: Axis + Drop>(
    heap: Global,
    time: T,
    platform: P,
    tally: Tally,
) -> Result<Tally, AllocError> {
    let mut sides = Sides::new(heap, time, platform, tally)?;
    let mut source = Source::new(heap);
    sheets(&mut sides, &mut source)?;
    lists(&mut sides, &mut source)?;
    squares(&mut sides)?;
    Ok(sides.tally)
}

fn sheets<T: Axis, P: Axis>(
    sides: &mut Sides<T, P>,
    source: &mut Source,
) -> Result<(), AllocError> {
    for k in 0..SHEETS {
        sheet(sides, source)?;
        if k % 4 == 0 {
            sides.compare_placements('T', Direction::Time)?;
            sides.compare_placements('P', Direction::Platform)?;
        }
    }
    Ok(())
}

// A small sheet with a few entries, settled.
fn sheet<T: Axis, P: Axis>(sides: &mut Sides<T, P>, source: &mut Source) -> Result<(), AllocError> {
    source.make_small();
    sides.compare(&source.load()?)?;
    for _ in 0..source.random.up_to(4) {
        sides.compare(&source.entry(sides.shape()))?;
    }
    sides.compare(&Call::Settle {
        places: PLACES,
        trials: TRIALS,
    })?;
    Ok(())
}

fn lists<T: Axis, P: Axis>(sides: &mut Sides<T, P>, source: &mut Source) -> Result<(), AllocError> {
    for k in 0..ROUNDS {
        if k % 2 == 0 {
            source.make_small();
        } else {
            source.make_wide();
        }
        sides.compare(&source.load()?)?;
        calls(sides, source)?;
    }
    Ok(())
}

fn calls<T: Axis, P: Axis>(sides: &mut Sides<T, P>, source: &mut Source) -> Result<(), AllocError> {
    for _ in 0..CALLS {
        sides.compare(&source.next_call(sides.shape())?)?;
    }
    Ok(())
}
