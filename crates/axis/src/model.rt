// The range of a line, a bound on two lines, and why an axis refuses a call.

use thiserror::Error;

// The value of line p less the value of line q is at most d.
#[derive(Clone, Copy, PartialEq, Eq, Debug)]
pub struct Bound {
    pub p: u8,
    pub q: u8,
    pub d: i16,
}

// Where a line may lie: from the low to the high.
#[derive(Clone, Copy, PartialEq, Eq, Debug)]
pub struct Range {
    pub low: i16,
    pub high: i16,
}

// The refusals are numbered from 1 in this order.
#[derive(Clone, Copy, PartialEq, Eq, Debug, Error)]
pub enum AxisFault {
    #[error("lows and highs are not equally many, or more than 12")]
    Lists = 1,
    #[error("a low is not from 0 to 2880, or a high not from its low to 2880")]
    Ranges,
    #[error("the axis has no such line")]
    Line,
    #[error("the bound is not from -4000 to 4000")]
    Length,
    #[error("the axis holds no more bounds")]
    Full,
    #[error("no placement would remain")]
    NoPlacement,
    #[error("no bound stands")]
    NoBound,
}
