// The one call that reads an image.
ghost use Rattle.std.specs.Prelude.{◌+◌, ◌*◌, ◌≤◌, length};
ghost use Rattle.walk.specs.Told.{Tells};
ghost use Rattle.reader.specs.Bound.{Called, BoundOrNew};
ghost use Rattle.reader.specs.Entries.{load_in};
ghost use Rattle.reader.specs.Located.{load_offset};
ghost use Rattle.reader.specs.Reads.{Read};

use crate::entries::bind_all;
use crate::loads::load_offset;
use axis::Axis;
use faults::ImageFault;
use sheet::Sheet;
use walk::Fields;

fn load_from<T: Axis, P: Axis>(
    sheet: &mut Sheet<T, P>,
    image: &[u8],
    fields: &Fields,
) -> Result<(), ImageFault>
    requires { Tells image.now fields.now }
    ensures { Called (load_offset image.now) (load_in image.now) sheet.old result sheet.new }
{
    if let Err(fault) = sheet.load(fields.span, fields.platform, fields.stays()) {
        return Err(ImageFault {
            offset: load_offset(image, fault),
            ..fault.into()
        });
    }
    Ok(())
}

// The entries, or a sheet as a new one where one of them is refused.
fn bind_or_renew<T: Axis, P: Axis>(
    sheet: &mut Sheet<T, P>,
    image: &[u8],
    fields: &Fields,
) -> Result<(), ImageFault>
    requires { fields.now.offset + 5 * fields.now.entries ≤ length image.now }
    ensures { BoundOrNew image.now fields.now.entries fields.now.offset sheet.old result sheet.new }
{
    let bound = bind_all(sheet, image, fields.entries, fields.offset);
    if bound.is_err() {
        sheet.renew();
    }
    bound
}

// Refused before the first entry, the sheet is as it was; refused at an entry, it is as a new one.
pub fn read<T: Axis, P: Axis>(image: &[u8], sheet: &mut Sheet<T, P>) -> Result<(), ImageFault>
    ensures { Read image.now sheet.old result sheet.new }
{
    let fields = Fields::of(image)?;
    load_from(sheet, image, &fields)?;
    bind_or_renew(sheet, image, &fields)
}
