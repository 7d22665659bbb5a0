// Rounds of calls, each with lines and a manner of its own.
use crate::sides::Sides;
use crate::source::Source;
use std::alloc::{AllocError, Global};

const ROUNDS: u16 = 200;

const CALLS: u16 = 300;

// The first round runs on new axes, every other after a reset.
pub fn all_rounds(heap: Global) -> Result<Sides, AllocError> {
    let mut sides = Sides::new(heap)?;
    let mut source = Source::new(heap);
    for _ in 0..ROUNDS {
        round(&mut sides, &mut source)?;
        sides.compare(&source.next_round()?)?;
    }
    Ok(sides)
}

fn round(sides: &mut Sides, source: &mut Source) -> Result<(), AllocError> {
    for k in 0..CALLS {
        turn(sides, source)?;
        if k % 20 == 0 {
            sides.put_and_back(source.bound())?;
        }
    }
    sides.compare_all_pairs()
}

// One call, and a few looks at what it changed.
fn turn(sides: &mut Sides, source: &mut Source) -> Result<(), AllocError> {
    if sides.compare(&source.next_call()?)? {
        for _ in 0..3 {
            sides.compare(&source.tightest())?;
        }
    }
    Ok(())
}
