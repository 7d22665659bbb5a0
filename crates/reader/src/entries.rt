// The entries of an image, bound one after the other.
ghost use Rattle.std.specs.Prelude.{◌≡◌, ◌+◌, ◌-◌, ◌*◌, ◌/◌, ◌<◌, ◌≤◌, length, cond};
ghost use Rattle.reader.specs.Entries.{signed, bind_at};
ghost use Rattle.reader.specs.Bound.{Called, AllBound};

use axis::{Axis, Bound};
use faults::ImageFault;
use sheet::Sheet;

// The number in two's complement.
fn signed_of(high: u8, low: u8) -> i16
    ensures { result ≡ signed (256 * high + low) }
{
    i16::from_be_bytes([high, low])
}

// The entry that begins at this byte.
fn bind_one<T: Axis, P: Axis>(
    sheet: &mut Sheet<T, P>,
    image: &[u8],
    at: usize,
) -> Result<(), ImageFault>
    requires { at + 5 ≤ length image.now }
    ensures { Called (λ _. at) (bind_at image.now at) sheet.old result sheet.new }
{
    let bound = Bound {
        p: image[at + 1],
        q: image[at + 2],
        d: signed_of(image[at + 3], image[at + 4]),
    };
    if let Err(fault) = sheet.bind(char::from(image[at]), bound) {
        return Err(ImageFault {
            offset: at,
            ..fault.into()
        });
    }
    Ok(())
}

// So many entries from the offset on, five bytes each. Refused at one of them, the sheet holds those before it.
pub fn bind_all<T: Axis, P: Axis>(
    sheet: &mut Sheet<T, P>,
    image: &[u8],
    count: u8,
    offset: usize,
) -> Result<(), ImageFault>
    requires { offset + 5 * count ≤ length image.now }
    ensures { AllBound image.now count offset sheet.old result sheet.new }
{
    for k in 0..usize::from(count) {
        bind_one(sheet, image, offset + 5 * k)?;
    }
    Ok(())
}
