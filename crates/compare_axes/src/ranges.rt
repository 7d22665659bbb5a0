// The resets: to good ranges around a placement, and to spoiled ones.
ghost use Rattle.std.specs.Prelude.{◌≡◌, length, IfOk, vec_len};

use crate::calls::{Call, LINES};
use crate::manner::Manner;
use axis::Range;
use random::Random;
use std::alloc::{AllocError, Global};

const ZERO: Range = Range { low: 0, high: 0 };

const WIDEST: Range = Range { low: 0, high: 2880 };

// Ranges that no line may have.
const BAD: [Range; 5] = [
    Range { low: -1, high: 9 },
    Range { low: 0, high: 2881 },
    Range {
        low: 700,
        high: 699,
    },
    Range {
        low: 2881,
        high: 2881,
    },
    Range {
        low: i16::MIN,
        high: i16::MAX,
    },
];

fn around(value: i16, manner: &Manner, random: &mut Random) -> Range {
    let below = random.below(manner.reach + 1) as i16;
    let above = random.below(manner.reach + 1) as i16;
    Range {
        low: value.saturating_sub(below).max(0),
        high: value.saturating_add(above).min(2880),
    }
}

pub fn ranges_around(
    heap: Global,
    values: &[i16],
    manner: &Manner,
    random: &mut Random,
) -> Result<Vec<Range>, AllocError>
    ensures { IfOk result (λ x. vec_len x ≡ length values.now) }
{
    values
        .iter()
        .map(|value| around(*value, manner, random))
        .collect(heap)
}

pub fn reset_to(heap: Global, ranges: &[Range]) -> Result<Call, AllocError> {
    reset_to_both(heap, ranges, ranges)
}

// The lows of some ranges and the highs of others, which need not be equally many.
fn reset_to_both(heap: Global, lows: &[Range], highs: &[Range]) -> Result<Call, AllocError> {
    Ok(Call::Reset {
        lows: lows.iter().map(|range| range.low).collect(heap)?,
        highs: highs.iter().map(|range| range.high).collect(heap)?,
    })
}

pub fn spoiled_reset(
    heap: Global,
    mut ranges: Vec<Range>,
    random: &mut Random,
) -> Result<Call, AllocError> {
    let lines = ranges.len();
    match random.below(4) {
        0 => {
            ranges.push(ZERO)?;
            reset_to_both(heap, ranges.as_slice(), &ranges[..lines])
        },
        1 => {
            ranges.push(ZERO)?;
            reset_to_both(heap, &ranges[..lines], ranges.as_slice())
        },
        // one line more than an axis may have
        2 => {
            ranges.resize(LINES, WIDEST)?;
            reset_to(heap, ranges.as_slice())
        },
        _ => {
            spoil_one(ranges.as_mut_slice(), random);
            reset_to(heap, ranges.as_slice())
        },
    }
}

fn spoil_one(ranges: &mut [Range], random: &mut Random) {
    let place = usize::from(random.below(12)) % ranges.len().max(1);
    let bad = random.pick(&BAD);
    if let Some(range) = ranges.get_mut(place) {
        *range = bad;
    }
}
