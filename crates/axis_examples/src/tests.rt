// What both axes answer on three lines of twenty steps.
use axis::{Axis, AxisFault, Bound};
use list_axis::ListAxis;
use matrix_axis::MatrixAxis;
use std::process::Abort;
use std::test::Fail;

fn bound(p: u8, q: u8, d: i16) -> Bound {
    Bound { p, q, d }
}

fn three_lines<A: Axis>(axis: &mut A) -> Result<(), AxisFault> {
    axis.reset(&[0, 0, 0], &[19, 19, 19])
}

// A ring of three bounds is found where it is negative, and stands where it is not.
fn ring<A: Axis>(rt: &impl Abort, axis: &mut A) -> Result<(), Fail> {
    three_lines(axis)?;
    axis.put(bound(1, 2, -3))?;
    axis.put(bound(2, 3, -3))?;
    assert_eq!(rt; axis.put(bound(3, 1, 5)), Err(AxisFault::NoPlacement));
    axis.put(bound(3, 1, 6))?;
    assert_eq!(rt; axis.tightest(1, 3)?, -6);
    assert_eq!(rt; axis.tightest(3, 1)?, 6);
    Ok(())
}

fn itself<A: Axis>(rt: &impl Abort, axis: &mut A) -> Result<(), Fail> {
    three_lines(axis)?;
    assert_eq!(rt; axis.put(bound(1, 1, -1)), Err(AxisFault::NoPlacement));
    axis.put(bound(1, 1, 0))?;
    assert_eq!(rt; axis.count(), 1);
    Ok(())
}

// Ninety bounds are held, and the next is refused with 5.
fn ninety<A: Axis>(rt: &impl Abort, axis: &mut A) -> Result<(), Fail> {
    three_lines(axis)?;
    for k in 0..90i16 {
        axis.put(bound(1, 2, 19 - k / 5))?;
    }
    assert_eq!(rt; axis.count(), 90);
    let refused = axis.put(bound(1, 2, 19)).map_err(AxisFault::number);
    assert_eq!(rt; refused, Err(5));
    Ok(())
}

// The differences between line 3 and the others.
fn around<A: Axis>(axis: &A) -> Result<[i16; 3], AxisFault> {
    [(1, 3), (3, 0), (0, 3)].try_map(|(p, q)| axis.tightest(p, q))
}

// More than the pair that the bound named is as it was.
fn back<A: Axis>(rt: &impl Abort, axis: &mut A) -> Result<(), Fail> {
    three_lines(axis)?;
    axis.put(bound(1, 2, -3))?;
    let before = around(axis)?;
    axis.put(bound(2, 3, -3))?;
    assert_ne!(rt; axis.tightest(0, 3)?, before[2]);
    axis.back()?;
    assert_eq!(rt; around(axis)?, before);
    assert_eq!(rt; axis.tightest(2, 3)?, 19);
    Ok(())
}

fn all<A: Axis>(rt: &impl Abort, axis: &mut A) -> Result<(), Fail> {
    ring(rt, axis)?;
    itself(rt, axis)?;
    ninety(rt, axis)?;
    back(rt, axis)
}

#[test]
fn on_the_matrix_axis(rt: HostRuntime) -> Result<(), Fail> {
    all(&rt, &mut MatrixAxis::new(rt.alloc())?)
}

#[test]
fn on_the_list_axis(rt: HostRuntime) -> Result<(), Fail> {
    all(&rt, &mut ListAxis::new(rt.alloc())?)
}
