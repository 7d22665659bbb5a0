// Nine squares that fill a rectangle of 33 by 32, and no smaller one.
use crate::buffers::{PLACES, TRIALS};
use crate::calls::{Call, Told};
use crate::sides::Sides;
use axis::Axis;
use faults::SheetFault;
use journal::Stay;
use std::alloc::AllocError;

const SIDES: [u16; 9] = [1, 4, 7, 8, 9, 10, 14, 15, 18];

fn square(side: u16) -> Stay {
    let circuit = side.saturating_mul(30);
    Stay {
        circuit,
        lead: 0,
        dwell: circuit,
        metres: side,
        window: None,
    }
}

fn load_squares<T: Axis, P: Axis>(
    sides: &mut Sides<T, P>,
    span: u16,
    platform: u16,
) -> Result<(), AllocError> {
    let stays = SIDES.iter().map(|side| square(*side)).collect(sides.heap)?;
    let load = Call::Load {
        span,
        platform,
        stays,
    };
    sides.compare(&load)?;
    Ok(())
}

pub fn squares<T: Axis, P: Axis>(sides: &mut Sides<T, P>) -> Result<(), AllocError> {
    let settle = Call::Settle {
        places: PLACES,
        trials: TRIALS,
    };
    load_squares(sides, 33, 32)?;
    sides.expect(&settle, Ok(Told::Done));
    load_squares(sides, 33, 31)?;
    sides.expect(&settle, Err(SheetFault::NoPlan));
    Ok(())
}
