// The questions of a load.
ghost use Rattle.std.specs.Prelude.{◌≡◌, ◌≤◌, All, length, IfOk};
ghost use Rattle.journal.specs.Stays.{GoodStay};
ghost use Rattle.journal.specs.Asks.{Answered, load_asks, stay_asks, stays_ask};

use crate::extents::Extents;
use crate::loading::Loading;
use crate::model::Stay;
use faults::SheetFault;

// Sums of two 16-bit numbers are taken at 32 bits, so that none wraps.
fn check_stay(extents: Extents, number: u8, stay: Stay) -> Result<(), SheetFault>
    ensures { Answered (stay_asks extents.span extents.platform number stay) result }
{
    if !(1..=43200).contains(&stay.circuit) {
        return Err(SheetFault::Circuit(number));
    }
    if u32::from(stay.lead) + u32::from(stay.dwell) > u32::from(stay.circuit) {
        return Err(SheetFault::Doors(number));
    }
    if !(1..=extents.platform).contains(&stay.metres) {
        return Err(SheetFault::Length(number));
    }
    let gone = stay.closing(extents.span);
    if u32::from(stay.opening()) + u32::from(stay.steps()) > u32::from(gone)
        || gone > extents.span
    {
        return Err(SheetFault::Window(number));
    }
    Ok(())
}

// The stays in their order, each by its number from 1.
fn check_stays(extents: Extents, stays: &[Stay]) -> Result<(), SheetFault>
    requires { length stays.now ≤ 12 }
    ensures { Answered (stays_ask extents.span extents.platform 1 stays.now) result }
{
    for (k, stay) in stays.iter().enumerate() {
        check_stay(extents, k as u8 + 1, *stay)?;
    }
    Ok(())
}

// All that a load asks.
pub fn check_load<'a>(
    span: u16,
    platform: u16,
    stays: &'a [Stay],
) -> Result<Loading<'a>, SheetFault>
    ensures asked { Answered (load_asks span platform stays.now) result }
    ensures given { IfOk result (λ l. (l.extents.span ≡ span) × (l.extents.platform ≡ platform) × (l.stays.now ≡ stays.now)) }
{
    let extents = Extents::of(span, platform)?;
    if stays.len() > 12 {
        return Err(SheetFault::Stays);
    }
    check_stays(extents, stays)?;
    Ok(Loading { extents, stays })
}
