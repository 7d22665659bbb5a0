// A fault's number, and the layer that it comes from.
ghost use Rattle.std.specs.Prelude.{◌≡◌};
ghost use Rattle.faults.specs.Numbers.{sheet_number, cause_number, sheet_layer, cause_layer};

use crate::model::{Cause, Layer, SheetFault};

impl SheetFault {
    // Kept as a match, here and in Cause: a variant that carries a value has no number that could be cast.
    pub fn number(self) -> u8
        ensures { result ≡ sheet_number self }
    {
        match self {
            SheetFault::Extents => 11,
            SheetFault::Stays => 12,
            SheetFault::Circuit(_) => 13,
            SheetFault::Doors(_) => 14,
            SheetFault::Length(_) => 15,
            SheetFault::Window(_) => 16,
            SheetFault::Letter => 17,
            SheetFault::Entries => 18,
            SheetFault::Word => 19,
            SheetFault::Pair => 20,
            SheetFault::NoEntry => 21,
            SheetFault::Places => 23,
            SheetFault::Trials => 24,
            SheetFault::NoPlan => 25,
            SheetFault::Axis(fault) => fault.number(),
        }
    }

    pub fn layer(self) -> Layer
        ensures { result ≡ sheet_layer self }
    {
        match self {
            SheetFault::Axis(_) => Layer::Axis,
            _ => Layer::Sheet,
        }
    }
}

impl Cause {
    pub fn number(self) -> u8
        ensures { result ≡ cause_number self }
    {
        match self {
            Cause::Length => 31,
            Cause::Version => 32,
            Cause::Fields => 33,
            Cause::StayLength => 34,
            Cause::Buffer => 35,
            Cause::Sheet(fault) => fault.number(),
        }
    }

    pub fn layer(self) -> Layer
        ensures { result ≡ cause_layer self }
    {
        match self {
            Cause::Sheet(fault) => fault.layer(),
            _ => Layer::Image,
        }
    }
}
