// What a sheet tells without changing.
ghost use Rattle.std.specs.Prelude.{◌≡◌, ◌≤◌, length};
ghost use Rattle.journal.specs.Made.{Made};
ghost use Rattle.journal.specs.Steps.{ask, measured, Step};

use crate::Sheet;
use axis::Axis;
use boxes::{Direction, Entry};
use faults::SheetFault;
use journal::{Extents, Stay};

impl<T: Axis, P: Axis> Sheet<T, P> {
    // The largest difference, p less q, on the axis T or P.
    pub fn ask(&self, letter: char, p: u8, q: u8) -> Result<i16, SheetFault>
        ensures { Step self.now (ask letter p q) (measured result) self.now }
    {
        let direction = Direction::try_from(letter)?;
        Ok(self.axes.tightest(direction, p, q)?)
    }

    pub fn extents(&self) -> Extents
        ensures { (result.span ≡ self.now.span) × (result.platform ≡ self.now.platform) }
    {
        self.stays.extents()
    }

    // Kept beside the extents, like the metres: a caller that asks for one number need not take a struct apart.
    pub fn span(&self) -> u16
        ensures { result ≡ self.now.span }
    {
        self.extents().span
    }

    // The platform's metres.
    pub fn metres(&self) -> u16
        ensures { result ≡ self.now.platform }
    {
        self.extents().platform
    }

    pub fn stays(&self) -> &[Stay]
        ensures value { result.now ≡ self.now.stays }
        ensures few { length result.now ≤ 12 }
    {
        self.stays.items()
    }

    // The entries, oldest first. All that a sheet holds was asked of it: it is one that a load and binds make.
    pub fn entries(&self) -> &[Entry]
        ensures value { result.now ≡ self.now.entries }
        ensures few { length result.now ≤ 48 }
        ensures made { Made self.now }
    {
        self.entries.items()
    }
}
