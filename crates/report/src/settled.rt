// The one call from a sheet to the text of its plan.
ghost use Rattle.std.specs.Prelude.{◌≡◌};
ghost use Rattle.report.specs.Reports.{Reported};

use axis::Axis;
use boxes::{MOST_BOXES, MOST_PAIRS, Place};
use sheet::Sheet;
use stack::Trial;
use text::{TextFault, print_no_plan, print_plan};

// The text of a plan that is least under its words, or of none where none exists: with room for every plan a settle has no other refusal.
pub fn report<T: Axis, P: Axis>(
    sheet: &mut Sheet<T, P>,
    buffer: &mut [u8],
) -> Result<usize, TextFault>
    ensures text { Reported sheet.old buffer.old buffer.new result }
    ensures same { sheet.new ≡ sheet.old }
{
    let count = sheet.stays().len();
    // Kept as arrays of the most that a plan fills: a settle takes lent buffers.
    let mut places = [Place::default(); MOST_BOXES];
    let mut trials = [Trial::default(); MOST_PAIRS];
    match sheet.settle(&mut places, &mut trials) {
        Ok(()) => print_plan(&places[0..count], buffer),
        Err(_) => print_no_plan(buffer),
    }
}
