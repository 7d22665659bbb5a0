// A sheet's image, read into another sheet.
ghost use Rattle.std.specs.Prelude.{◌≡◌, Ok, OnOk, OnErr};
ghost use Rattle.journal.specs.Made.{Made};
ghost use Rattle.image.specs.Bytes.{image_bytes};
ghost use Rattle.image.specs.Writes.{Written};

use axis::Axis;
use faults::ImageFault;
use image::write;
use reader::read;
use sheet::Sheet;

// The sheet's image is never refused.
fn read_image<T: Axis, P: Axis, U: Axis, Q: Axis>(
    from: &Sheet<T, P>,
    image: &[u8],
    to: &mut Sheet<U, Q>,
) -> Result<(), ImageFault>
    requires made { Made from.now }
    requires image { image.now ≡ image_bytes from.now }
    ensures done { result ≡ Ok tt }
    ensures copied { to.new ≡ from.now }
{
    read(image, to)
}

// What one sheet holds, put into another, which may stand on other axes. The image fills the front of the buffer.
pub fn copy<T: Axis, P: Axis, U: Axis, Q: Axis>(
    from: &Sheet<T, P>,
    to: &mut Sheet<U, Q>,
    buffer: &mut [u8],
) -> Result<usize, ImageFault>
    ensures written { Written (image_bytes from.now) buffer.old buffer.new result }
    ensures copied { OnOk result (to.new ≡ from.now) }
    ensures kept { OnErr result (to.new ≡ to.old) }
{
    let length = write(from, buffer)?;
    read_image(from, &buffer[0..length], to)?;
    Ok(length)
}
