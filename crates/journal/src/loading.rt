// What a load is given, once its questions are all answered yes.
ghost use Rattle.std.specs.Prelude.{◌≡◌, ◌≤◌, All, length, pos, ◌-ℤ◌};
ghost use Rattle.journal.specs.Stays.{GoodStay};
ghost use Rattle.journal.specs.Journal.{low_on, high_on};

use crate::extents::Extents;
use crate::model::Stay;
use axis::Range;
use boxes::Direction;

#[derive(Drop)]
pub struct Loading<'a> {
    pub(crate) extents: Extents,
    pub(crate) stays: &'a [Stay],
    ghost few: { length stays.now ≤ 12 },
    ghost good: { All (GoodStay extents.span extents.platform) stays.now },
}

impl Loading<'_> {
    // The lowest and the highest value of the stay's line.
    pub(crate) fn range_of(&self, direction: Direction, stay: Stay) -> Range
        requires { GoodStay self.now.extents.span self.now.extents.platform stay }
        ensures low { result.low ≡ low_on direction stay }
        ensures high { result.high ≡ high_on direction self.now.extents.span self.now.extents.platform stay }
    {
        direction.pick(
            Range {
                low: stay.opening() as i16,
                high: less(stay.closing(self.extents.span), stay.steps()),
            },
            Range {
                low: 0,
                high: less(self.extents.platform, stay.metres),
            },
        )
    }
}

// The last place from which the extent still ends by `end`.
fn less(end: u16, extent: u16) -> i16
    requires { (extent ≤ end) × (end ≤ 2880) }
    ensures { result ≡ pos end -ℤ pos extent }
{
    (end - extent) as i16
}
