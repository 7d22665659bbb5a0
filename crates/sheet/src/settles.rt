// The call that seeks a plan.
ghost use Rattle.std.specs.Prelude.{◌≡◌, length, take};
ghost use Rattle.boxes.specs.Order.{pairs};
ghost use Rattle.journal.specs.Steps.{settle, planned, Step};
ghost use Rattle.sheet.specs.Standing.{Written};

use crate::Sheet;
use axis::Axis;
use boxes::{Place, pair_count};
use faults::SheetFault;
use packing::pack;
use stack::Trial;

impl<T: Axis, P: Axis> Sheet<T, P> {
    // A plan in stay order at the front of the places, and a word for each pair at the front of the trials.
    pub fn settle(&mut self, places: &mut [Place], trials: &mut [Trial]) -> Result<(), SheetFault>
        ensures answer { Step self.old (settle (length places.old) (length trials.old)) (planned (take (length self.old.stays) places.new) (take (pairs (length self.old.stays)) trials.new) result) self.new }
        ensures written { Written (length self.old.stays) places.old places.new trials.old trials.new result }
        ensures same { self.new ≡ self.old }
    {
        let count = self.stays.count();
        if places.len() < usize::from(count) {
            return Err(SheetFault::Places);
        }
        if trials.len() < pair_count(count) {
            return Err(SheetFault::Trials);
        }
        // Kept without a From: it would stand with the faults, which know of no packing.
        pack(&mut self.axes, self.stays.sizes(), places, trials).or(Err(SheetFault::NoPlan))?;
        Ok(())
    }
}
