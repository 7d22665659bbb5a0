// A sheet and the model side by side, with the tally of what they answered.
use crate::buffers::Buffers;
use crate::calls::{Answer, Call, Told, perform};
use crate::lines::{Lines, Values};
use crate::placements::{largest, placements};
use crate::plain::{Plain, Shape};
use crate::tally::Tally;
use axis::{Axis, AxisFault};
use boxes::Direction;
use faults::SheetFault;
use sheet::Sheet;
use std::alloc::{AllocError, Global};

#[derive(Drop)]
pub struct Sides<T: Axis, P: Axis> {
    pub heap: Global,
    sheet: Sheet<T, P>,
    plain: Plain,
    pub tally: Tally,
}

impl<T: Axis + Drop, P: Axis + Drop> Sides<T, P> {
    pub fn new(
        heap: Global,
        time: T,
        platform: P,
        tally: Tally,
    ) -> Result<Sides<T, P>, AllocError> {
        let sheet = Sheet::new(heap, time, platform)?;
        Ok(Sides {
            heap,
            sheet,
            plain: Plain::new(heap),
            tally,
        })
    }
}

impl<T: Axis, P: Axis> Sides<T, P> {
    pub fn shape(&self) -> Shape {
        self.plain.shape()
    }

    // Makes the call on both sides.
    pub fn compare(&mut self, call: &Call) -> Result<(), AllocError> {
        let answer = self.plain.perform(call)?;
        self.expect(call, answer);
        Ok(())
    }

    // Asks for all differences on an axis, and looks for them in all its placements.
    pub fn compare_placements(
        &mut self,
        letter: char,
        direction: Direction,
    ) -> Result<(), AllocError> {
        let found = placements(self.heap, &Lines::of(&self.plain, direction))?;
        for p in 0..=self.plain.count() {
            self.expect_differences(letter, p, found.as_slice());
        }
        Ok(())
    }

    fn expect_differences(&mut self, letter: char, p: u8, found: &[Values]) {
        for q in 0..=self.plain.count() {
            let largest = largest(found, usize::from(p), usize::from(q));
            let answer = largest
                .map(Told::Difference)
                .ok_or(SheetFault::Axis(AxisFault::NoPlacement));
            self.expect(&Call::Ask { letter, p, q }, answer);
            self.tally.note_sought();
        }
    }

    // Makes the call on the sheet, which must answer this.
    pub fn expect(&mut self, call: &Call, answer: Answer) {
        let same = agrees(&mut self.sheet, &self.plain, call, answer);
        self.tally.note(call, answer, same);
    }
}

fn agrees<T: Axis, P: Axis>(
    sheet: &mut Sheet<T, P>,
    plain: &Plain,
    call: &Call,
    answer: Answer,
) -> bool {
    let mut buffers = Buffers::marked();
    let given = perform(sheet, call, &mut buffers);
    given == answer && (!call.is_settle() || buffers.tell(plain, answer))
}
