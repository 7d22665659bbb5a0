// The worked sheet, on any two axes.
ghost use Rattle.std.specs.Prelude.{◌≡◌, IfOk};
ghost use Rattle.worked_plan.specs.Sheet.{worked_stays, worked_sheet};

use axis::{Axis, Bound};
use faults::SheetFault;
use journal::{Stay, Window};
use sheet::Sheet;
use std::alloc::Global;

fn stays() -> [Stay; 3]
    ensures { result ≡ worked_stays }
{
    [
        Stay {
            circuit: 90,
            lead: 10,
            dwell: 60,
            metres: 60,
            window: None,
        },
        Stay {
            circuit: 120,
            lead: 0,
            dwell: 120,
            metres: 60,
            window: None,
        },
        Stay {
            circuit: 60,
            lead: 0,
            dwell: 30,
            metres: 40,
            window: Some(Window { from: 0, until: 2 }),
        },
    ]
}

// Three stays, the first gone when the second comes and nearer than the third.
pub fn worked<T: Axis + Drop, P: Axis + Drop>(
    heap: Global,
    time: T,
    platform: P,
) -> anyhow::Result<Sheet<T, P>>
    ensures { IfOk result (λ s. s ≡ worked_sheet) }
{
    let mut sheet = Sheet::new(heap, time, platform)?;
    sheet.load(7, 100, &stays())?;
    sheet.bind('T', Bound { p: 1, q: 2, d: -3 })?;
    sheet.bind('P', Bound { p: 1, q: 3, d: -60 })?;
    Ok(sheet)
}
