// Runs sheets and lists of calls on all four pairings of axes and on a plain model with a solver of its own, and compares every answer.
#![tactic(auto)]

mod buffers;
mod calls;
mod lines;
mod manner;
mod placements;
mod plain;
mod plans;
mod rounds;
mod sides;
mod solver;
mod source;
mod squares;
mod stays;
mod tally;

use list_axis::ListAxis;
use matrix_axis::MatrixAxis;
use std::alloc::{AllocError, Global};
use tally::Tally;

// On each pairing of axes.
fn matrix_and(heap: Global, tally: Tally) -> Result<Tally, AllocError> {
    let tally = rounds::all_rounds(heap, MatrixAxis::new(heap)?, MatrixAxis::new(heap)?, tally)?;
    rounds::all_rounds(heap, MatrixAxis::new(heap)?, ListAxis::new(heap)?, tally)
}

fn list_and(heap: Global, tally: Tally) -> Result<Tally, AllocError> {
    let tally = rounds::all_rounds(heap, ListAxis::new(heap)?, MatrixAxis::new(heap)?, tally)?;
    rounds::all_rounds(heap, ListAxis::new(heap)?, ListAxis::new(heap)?, tally)
}

fn main(rt: HostRuntime) -> anyhow::Result<()> {
    let heap = rt.alloc();
    let tally = list_and(heap, matrix_and(heap, Tally::default())?)?;
    println!(rt; "{tally}")?;
    Ok(())
}
