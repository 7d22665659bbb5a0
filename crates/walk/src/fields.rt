// What an image tells, once all its fields are there.
ghost use Rattle.std.specs.Prelude.{◌≡◌, take, IfOk};
ghost use Rattle.walk.specs.Fields.{image_asks};
ghost use Rattle.walk.specs.Walked.{Answered};
ghost use Rattle.walk.specs.Told.{Tells};

use crate::model::Fields;
use crate::walk::Walk;
use faults::ImageFault;
use journal::Stay;

const NO_STAY: Stay = Stay {
    circuit: 0,
    lead: 0,
    dwell: 0,
    metres: 0,
    window: None,
};

impl Fields {
    #[tactic(auto, using(crate::proofs::Slots::slots_told))]
    pub fn of(image: &[u8]) -> Result<Fields, ImageFault>
        ensures answer { Answered (image_asks image.now) result }
        ensures told { IfOk result (λ f. Tells image.now f) }
    {
        let mut walk = Walk::begun(image)?;
        let span = walk.number()?;
        let platform = walk.number()?;
        let count = walk.byte()?;
        let mut slots = [NO_STAY; 255];
        let entries = walk.parts(&mut slots[0..usize::from(count)])?;
        Ok(Fields {
            span,
            platform,
            slots,
            count,
            entries,
            offset: image.len() - 5 * usize::from(entries),
        })
    }

    pub fn stays(&self) -> &[Stay]
        ensures { result.now ≡ take self.now.count self.now.slots }
    {
        &self.slots[0..usize::from(self.count)]
    }
}
