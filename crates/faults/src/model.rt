// The faults of a sheet and of an image.
ghost use Rattle.std.specs.Prelude.{◌≡◌};
ghost use Rattle.faults.specs.Carried.{in_sheet, no_direction, no_word, in_cause, in_image};

use axis::AxisFault;
use boxes::NoDirection;
use stack::NoWord;
use thiserror::Error;

// Why a sheet refuses a call. A number is that of the stay, from 1.
#[derive(Clone, Copy, PartialEq, Eq, Debug, Error)]
pub enum SheetFault {
    #[error("the span is not from 1 to 2880 steps, or the platform not from 1 to 1000 metres")]
    Extents,
    #[error("more than 12 stays")]
    Stays,
    #[error("stay {0}: the circuit seconds are not from 1 to 43200")]
    Circuit(u8),
    #[error("stay {0}: lead plus dwell passes the circuit seconds")]
    Doors(u8),
    #[error("stay {0}: the length is not from 1 to that of the platform")]
    Length(u8),
    #[error("stay {0}: it does not fit its window, or the window not the span")]
    Window(u8),
    #[error("{letter}", letter = NoDirection)]
    Letter,
    #[error("24 entries stand on that axis")]
    Entries,
    #[error("{word}", word = NoWord)]
    Word,
    #[error("not two different stays of the sheet")]
    Pair,
    #[error("no entry stands")]
    NoEntry,
    #[error("fewer places than stays")]
    Places,
    #[error("fewer trial records than pairs")]
    Trials,
    #[error("no plan exists")]
    NoPlan,
    #[error(transparent)]
    Axis(AxisFault),
}

// Why an image cannot be read or written.
#[derive(Clone, Copy, PartialEq, Eq, Debug, Error)]
pub enum Cause {
    #[error("the first two bytes do not tell how many follow")]
    Length,
    #[error("the version is not 1")]
    Version,
    #[error("the fields do not end where the image ends")]
    Fields,
    #[error("a stay's length byte is not 8 or 12")]
    StayLength,
    #[error("the buffer is too short for the image")]
    Buffer,
    #[error(transparent)]
    Sheet(SheetFault),
}

// The byte is counted from 0.
#[derive(Clone, Copy, PartialEq, Eq, Debug, Error)]
#[error("at byte {offset}: {cause}")]
pub struct ImageFault {
    pub offset: usize,
    pub cause: Cause,
}

// The innermost layer that a fault comes from.
#[derive(Clone, Copy, PartialEq, Eq, Debug)]
pub enum Layer {
    Axis,
    Sheet,
    Image,
}

// Kept by hand, here and below: nothing is promised of which variant a derived From makes.
impl From<AxisFault> for SheetFault {
    ghost from_gives = { λ e r. r ≡ in_sheet e };

    fn from(fault: AxisFault) -> SheetFault {
        SheetFault::Axis(fault)
    }
}

impl From<NoDirection> for SheetFault {
    ghost from_gives = { λ _ r. r ≡ no_direction };

    fn from(_e: NoDirection) -> SheetFault {
        SheetFault::Letter
    }
}

impl From<NoWord> for SheetFault {
    ghost from_gives = { λ _ r. r ≡ no_word };

    fn from(_e: NoWord) -> SheetFault {
        SheetFault::Word
    }
}

impl From<SheetFault> for Cause {
    ghost from_gives = { λ e r. r ≡ in_cause e };

    fn from(fault: SheetFault) -> Cause {
        Cause::Sheet(fault)
    }
}

// At byte 0, until the reader says where.
impl From<SheetFault> for ImageFault {
    ghost from_gives = { λ e r. r ≡ in_image e };

    fn from(fault: SheetFault) -> ImageFault {
        ImageFault {
            offset: 0,
            cause: fault.into(),
        }
    }
}
