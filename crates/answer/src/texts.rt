// The one call from bytes to text.
ghost use Rattle.answer.specs.Answers.{Answered, Leaves};

use axis::Axis;
use reader::read;
use report::report;
use sheet::Sheet;
use text::{TextFault, print_fault};

// The image is read into the sheet, whatever that holds, and the text of its plan is printed, or that it has none, or why it is refused.
pub fn answer<T: Axis, P: Axis>(
    image: &[u8],
    sheet: &mut Sheet<T, P>,
    buffer: &mut [u8],
) -> Result<usize, TextFault>
    ensures text { Answered image.now buffer.old buffer.new result }
    ensures sheet { Leaves image.now sheet.old sheet.new }
{
    match read(image, sheet) {
        Ok(()) => report(sheet, buffer),
        Err(fault) => print_fault(fault, buffer),
    }
}
