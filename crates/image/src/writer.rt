// The image of a sheet, written into a buffer that is long enough, or refused before a byte is written.
ghost use Rattle.std.specs.Prelude.{◌≡◌, length};
ghost use Rattle.image.specs.Bodies.{told};
ghost use Rattle.image.specs.Bytes.{body_bytes, image_bytes};
ghost use Rattle.image.specs.Writes.{Written};
ghost use Rattle.journal.specs.Made.{Made};
ghost use Rattle.page.specs.Pages.{put};

use crate::body::Body;
use crate::fields::Field;
use axis::Axis;
use faults::{Cause, ImageFault};
use page::Page;
use sheet::Sheet;

// The image fills the front of the buffer, and the answer is its length. It is that of a sheet that a load and binds make.
pub fn write<T: Axis, P: Axis>(sheet: &Sheet<T, P>, buffer: &mut [u8]) -> Result<usize, ImageFault>
    ensures written { Written (image_bytes sheet.now) buffer.old buffer.new result }
    ensures made { Made sheet.now }
{
    let body = Body::of(sheet);
    let len = body.len();
    let fault = ImageFault {
        offset: 0,
        cause: Cause::Buffer,
    };
    // counted already: the two bytes of the length, and those that it counts
    let needed = 2 + usize::from(len);
    page::fill_counted(buffer, needed, fault, |page| put_image(page, len, &body))
}

// The body's length stands before it.
fn put_image(page: &mut Page<'_>, len: u16, body: &Body<'_>)
    requires { len ≡ length (body_bytes (told body.now)) }
    ensures { page.new ≡ put page.old (image_bytes (told body.now)) }
{
    len.put_on(page);
    body.put_on(page);
}
