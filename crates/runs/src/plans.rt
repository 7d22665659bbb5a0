// A settle on buffers of its own, and its plan as an answer.
ghost use Rattle.journal.specs.Steps.{settle};
ghost use Rattle.runs.specs.Runs.{Answered};

use crate::model::{Answer, Told};
use axis::Axis;
use boxes::{MOST_BOXES, MOST_PAIRS, Place, pair_count};
use sheet::Sheet;
use stack::Trial;
use std::alloc::{AllocError, Global};

// No plan has more than MOST_BOXES places and MOST_PAIRS words, so that longer buffers make no difference.
pub fn settle_within<T: Axis, P: Axis>(
    heap: Global,
    sheet: &mut Sheet<T, P>,
    places: usize,
    trials: usize,
) -> Result<Answer, AllocError>
    ensures { Answered sheet.old (settle places trials) result sheet.new }
{
    let count = sheet.stays().len();
    let words = pair_count(count as u8);
    // Kept as arrays of the most that a plan fills: a settle takes lent buffers.
    let mut place_slots = [Place::default(); MOST_BOXES];
    let mut trial_slots = [Trial::default(); MOST_PAIRS];
    let room = places.min(MOST_BOXES);
    let space = trials.min(MOST_PAIRS);
    if let Err(fault) = sheet.settle(&mut place_slots[0..room], &mut trial_slots[0..space]) {
        return Ok(Err(fault));
    }
    let places = Vec::from_slice(heap, &place_slots[0..count])?;
    let trials = Vec::from_slice(heap, &trial_slots[0..words])?;
    Ok(Ok(Told::Plan { places, trials }))
}
