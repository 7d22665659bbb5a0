// Prints the plan of a worked sheet.
#![tactic(auto)]

use matrix_axis::MatrixAxis;
use std::io::Write;

mod plan;

use plan::worked;
use report::report;

// The plan of the worked sheet, on matrix axes.
fn show_plan(rt: &HostRuntime) -> anyhow::Result<()> {
    let heap = rt.alloc();
    let mut sheet = worked(heap, MatrixAxis::new(heap)?, MatrixAxis::new(heap)?)?;
    let mut text = [0; 64];
    let length = report(&mut sheet, &mut text)?;
    rt.stdout().write_all(&text[0..length])?;
    Ok(())
}

fn main(rt: HostRuntime) -> anyhow::Result<()> {
    show_plan(&rt)
}
