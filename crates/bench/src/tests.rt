// Two boxes that just fit, and that just do not, on a matrix axis beside a list axis.
use crate::decide::decide;
use crate::packings::{Packing, Stay};
use boxes::Size;
use list_axis::ListAxis;
use matrix_axis::MatrixAxis;
use moves::Axes;
use std::alloc::Global;
use std::test::Fail;

fn stay(first: u16, gone: u16) -> Stay {
    Stay {
        size: Size {
            steps: 3,
            metres: 4,
        },
        first,
        gone,
    }
}

fn fits(heap: Global, stays: &[Stay], platform: u16) -> Result<bool, Fail> {
    let packing = Packing::new(heap, stays, platform)?;
    let mut axes = Axes::new(MatrixAxis::new(heap)?, ListAxis::new(heap)?);
    Ok(decide(heap, &mut axes, &packing)?.is_ok())
}

#[test]
fn beside_each_other(rt: HostRuntime) -> Result<(), Fail> {
    let stays = [stay(0, 3), stay(0, 3)];
    assert!(rt; fits(rt.alloc(), &stays, 8)?);
    assert!(rt; !fits(rt.alloc(), &stays, 7)?);
    Ok(())
}

#[test]
fn one_after_the_other(rt: HostRuntime) -> Result<(), Fail> {
    assert!(rt; fits(rt.alloc(), &[stay(0, 6), stay(0, 6)], 4)?);
    assert!(rt; !fits(rt.alloc(), &[stay(0, 5), stay(0, 5)], 4)?);
    Ok(())
}

// The second comes in the step after the first one's last.
#[test]
fn in_the_next_step(rt: HostRuntime) -> Result<(), Fail> {
    assert!(rt; fits(rt.alloc(), &[stay(0, 3), stay(3, 6)], 4)?);
    assert!(rt; !fits(rt.alloc(), &[stay(0, 3), stay(2, 5)], 4)?);
    Ok(())
}

#[test]
fn no_boxes(rt: HostRuntime) -> Result<(), Fail> {
    assert!(rt; fits(rt.alloc(), &[], 1)?);
    Ok(())
}
