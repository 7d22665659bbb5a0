// What is printed of examples, and what of the buffer is left alone.
use crate::{TextFault, print_fault, print_no_plan, print_plan};
use axis::AxisFault;
use boxes::Place;
use faults::{Cause, ImageFault, SheetFault};
use std::process::Abort;
use std::test::Fail;

fn check<F: Fn(&mut [u8]) -> Result<usize, TextFault>>(
    rt: &impl Abort,
    print: F,
    text: &[u8],
) -> Result<(), Fail>
    requires { F.IsAlwaysCallable print }
{
    let mut buffer = [b'#'; 40];
    assert_eq!(rt; print(&mut buffer)?, text.len());
    assert!(rt; buffer.starts_with(text));
    Ok(())
}

#[test]
fn plans(rt: HostRuntime) -> Result<(), Fail> {
    let places = [
        Place { step: 0, metre: 0 },
        Place { step: 3, metre: 0 },
        Place { step: 0, metre: 60 },
    ];
    check(
        &rt,
        |buffer| print_plan(&places, buffer),
        b"plan 3\n1 0 0\n2 3 0\n3 0 60\n",
    )?;
    check(&rt, |buffer| print_plan(&[], buffer), b"plan 0\n")
}

#[test]
fn faults_of_each_layer(rt: HostRuntime) -> Result<(), Fail> {
    let full = ImageFault {
        offset: 120,
        cause: Cause::Sheet(SheetFault::Axis(AxisFault::Full)),
    };
    check(
        &rt,
        |buffer| print_fault(full, buffer),
        b"fault 5 axis 120\n",
    )?;
    let window = ImageFault {
        offset: 8,
        cause: Cause::Sheet(SheetFault::Window(2)),
    };
    check(
        &rt,
        |buffer| print_fault(window, buffer),
        b"fault 16 sheet 8\n",
    )?;
    let length = ImageFault {
        offset: 0,
        cause: Cause::Length,
    };
    check(
        &rt,
        |buffer| print_fault(length, buffer),
        b"fault 31 image 0\n",
    )
}

#[test]
fn one_byte_too_short(rt: HostRuntime) {
    let mut buffer = [b'#'; 7];
    assert!(rt; matches!(print_no_plan(&mut buffer), Err(fault) if fault.number() == 36));
    assert_eq!(rt; buffer, [b'#'; 7]);
}

#[test]
fn one_byte_longer(rt: HostRuntime) -> Result<(), Fail> {
    let mut buffer = [b'#'; 9];
    assert_eq!(rt; print_no_plan(&mut buffer)?, 8);
    assert_eq!(rt; buffer, *b"no plan\n#");
    Ok(())
}
