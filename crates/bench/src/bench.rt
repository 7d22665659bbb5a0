// Decides packings on matrix axes and on list axes, and prints a line for each.
use crate::decide::decide;
use crate::packings::{Packing, Stay};
use axis::Axis;
use list_axis::ListAxis;
use matrix_axis::MatrixAxis;
use moves::Axes;
use std::alloc::{AllocError, Global};
use std::time::Instant;

#[derive(Drop)]
pub struct Bench<'a> {
    rt: &'a HostRuntime,
    timed: bool,
    matrix: Axes<MatrixAxis, MatrixAxis>,
    list: Axes<ListAxis, ListAxis>,
}

impl<'a> Bench<'a> {
    pub fn new(rt: &'a HostRuntime, timed: bool) -> Result<Bench<'a>, AllocError> {
        let heap = rt.alloc();
        Ok(Bench {
            rt,
            timed,
            matrix: Axes::new(MatrixAxis::new(heap)?, MatrixAxis::new(heap)?),
            list: Axes::new(ListAxis::new(heap)?, ListAxis::new(heap)?),
        })
    }

    pub fn heap(&self) -> Global {
        self.rt.alloc()
    }

    pub fn decide(&mut self, name: &str, stays: &[Stay], platform: u16) -> anyhow::Result<()> {
        let packing = Packing::new(self.heap(), stays, platform)?;
        print!(self.rt; "{name}, matrix axes: ")?;
        report(self.rt, self.timed, &mut self.matrix, &packing)?;
        print!(self.rt; "{name}, list axes: ")?;
        report(self.rt, self.timed, &mut self.list, &packing)
    }
}

// Ends the line: plan or none, how many words were tried, and the seconds where they are asked for.
fn report<T: Axis, P: Axis>(
    rt: &HostRuntime,
    timed: bool,
    axes: &mut Axes<T, P>,
    packing: &Packing,
) -> anyhow::Result<()> {
    let start = Instant::now(rt)?;
    let answer = decide(rt.alloc(), axes, packing)?;
    let seconds = start.elapsed(rt)?.as_secs_f64();
    match answer {
        Ok(tries) => print!(rt; "plan, {tries} tries")?,
        Err(none) => print!(rt; "none, {} tries", none.tries)?,
    }
    if timed {
        print!(rt; ", {seconds:.6} seconds")?;
    }
    println!(rt; "")?;
    Ok(())
}
