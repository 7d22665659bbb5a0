// What is written of a sheet that was loaded and bound, and what of the buffer is left alone.
use axis::{Axis, Bound};
use faults::{Cause, ImageFault};
use image::write;
use journal::{Stay, Window};
use list_axis::ListAxis;
use matrix_axis::MatrixAxis;
use sheet::Sheet;
use std::test::Fail;

// A line for the head, for each stay and for the entries; past the image stands a byte of the buffer.
const IMAGE_AND_ONE: [u8; 51] = *b"\
    \x00\x30\x01\x00\x07\x00\x64\x03\
    \x08\x00\x5A\x00\x0A\x00\x3C\x00\x3C\
    \x08\x00\x78\x00\x00\x00\x78\x00\x3C\
    \x0C\x00\x3C\x00\x00\x00\x1E\x00\x28\x00\x00\x00\x02\
    \x02\x54\x01\x02\xFF\xFD\x50\x01\x03\xFF\xC4\
    \xEE";

fn stay(circuit: u16, lead: u16, dwell: u16, metres: u16, window: Option<Window>) -> Stay {
    Stay {
        circuit,
        lead,
        dwell,
        metres,
        window,
    }
}

fn fill_in<T: Axis, P: Axis>(sheet: &mut Sheet<T, P>) -> Result<(), Fail> {
    let stays = [
        stay(90, 10, 60, 60, None),
        stay(120, 0, 120, 60, None),
        stay(60, 0, 30, 40, Some(Window { from: 0, until: 2 })),
    ];
    sheet.load(7, 100, &stays)?;
    sheet.bind('T', Bound { p: 1, q: 2, d: -3 })?;
    sheet.bind('P', Bound { p: 1, q: 3, d: -60 })?;
    Ok(())
}

#[test]
fn worked_image(rt: HostRuntime) -> Result<(), Fail> {
    let heap = rt.alloc();
    let mut sheet = Sheet::new(heap, MatrixAxis::new(heap)?, ListAxis::new(heap)?)?;
    fill_in(&mut sheet)?;
    let mut buffer = [0xEE; 51];
    assert_eq!(rt; write(&sheet, &mut buffer)?, 50);
    assert_eq!(rt; buffer, IMAGE_AND_ONE);
    Ok(())
}

#[test]
fn one_byte_too_short(rt: HostRuntime) -> Result<(), Fail> {
    let heap = rt.alloc();
    let mut sheet = Sheet::new(heap, ListAxis::new(heap)?, MatrixAxis::new(heap)?)?;
    fill_in(&mut sheet)?;
    let mut buffer = [0xEE; 49];
    let fault = ImageFault {
        offset: 0,
        cause: Cause::Buffer,
    };
    assert_eq!(rt; write(&sheet, &mut buffer), Err(fault));
    assert_eq!(rt; buffer, [0xEE; 49]);
    Ok(())
}
