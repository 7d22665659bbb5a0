// The two axes and the model side by side, with the tally of what they answered.
use crate::calls::{Answer, Call, LINES, Told, all_lines, perform, tightests_from};
use crate::plain::Plain;
use crate::tally::Tally;
use axis::{Axis, AxisFault, Bound};
use list_axis::ListAxis;
use matrix_axis::MatrixAxis;
use std::alloc::{AllocError, Global};

// From line p to line q in row p at place q.
type Differences = [[Result<i16, AxisFault>; LINES]; LINES];

#[derive(Drop)]
pub struct Sides {
    matrix: MatrixAxis,
    list: ListAxis,
    plain: Plain,
    pub tally: Tally,
}

impl Sides {
    pub fn new(heap: Global) -> Result<Sides, AllocError> {
        Ok(Sides {
            matrix: MatrixAxis::new(heap)?,
            list: ListAxis::new(heap)?,
            plain: Plain::new(heap),
            tally: Tally::default(),
        })
    }

    // Makes the call on all sides, and says whether it was accepted.
    pub fn compare(&mut self, call: &Call) -> Result<bool, AllocError> {
        let matrix = perform(&mut self.matrix, call);
        let list = perform(&mut self.list, call);
        let plain = self.plain.perform(call)?;
        let same = matrix == plain && list == plain;
        self.tally.note(call, plain, same);
        Ok(plain == Ok(Told::Done))
    }

    pub fn compare_all_pairs(&mut self) -> Result<(), AllocError> {
        for call in all_lines().into_iter().flat_map(tightests_from) {
            self.compare(&call)?;
        }
        Ok(())
    }

    // A bound that is put and taken back leaves every difference as it was.
    pub fn put_and_back(&mut self, bound: Bound) -> Result<(), AllocError> {
        let before = self.differences();
        if self.compare(&Call::Put(bound))? {
            self.compare(&Call::Back)?;
            let after = self.differences();
            self.tally.note_undone(before == after);
        }
        Ok(())
    }

    fn differences(&self) -> (Differences, Differences) {
        (all_differences(&self.matrix), all_differences(&self.list))
    }
}

fn all_differences<A: Axis>(axis: &A) -> Differences {
    all_lines().map(|p| all_lines().map(|q| axis.tightest(p, q)))
}
