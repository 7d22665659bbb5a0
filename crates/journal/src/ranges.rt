// The ranges of the stays' lines, worked out for one axis at a time.
ghost use Rattle.std.specs.Prelude.{◌≡◌, [], IfOk};
ghost use Rattle.journal.specs.Tables.{Lined};

use crate::loading::Loading;
use crate::tables::Ranges;
use boxes::Direction;
use held::Held;
use std::alloc::{AllocError, Global};

impl Ranges {
    pub fn new(heap: Global) -> Result<Ranges, AllocError>
        ensures { IfOk result (λ x. (x.lows ≡ []) × (x.highs ≡ [])) }
    {
        Ok(Ranges {
            lows: Held::new(heap)?,
            highs: Held::new(heap)?,
        })
    }

    // The lines of these stays in the direction.
    pub fn line_up(&mut self, direction: Direction, loading: &Loading<'_>)
        ensures { Lined direction loading.now.extents.span loading.now.extents.platform loading.now.stays.now self.new }
    {
        let stays = loading.stays;
        self.lows.refill_from(
            stays
                .iter()
                .map(|stay| loading.range_of(direction, *stay).low),
        );
        self.highs.refill_from(
            stays
                .iter()
                .map(|stay| loading.range_of(direction, *stay).high),
        );
    }

    pub fn lows(&self) -> &[i16]
        ensures { result.now ≡ self.now.lows }
    {
        self.lows.as_slice()
    }

    pub fn highs(&self) -> &[i16]
        ensures { result.now ≡ self.now.highs }
    {
        self.highs.as_slice()
    }
}
