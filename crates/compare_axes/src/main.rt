// Runs long lists of calls on both axes and on a plain model, and compares every answer.
#![tactic(auto)]

mod calls;
mod manner;
mod plain;
mod ranges;
mod rounds;
mod shortest;
mod sides;
mod source;
mod tally;

fn main(rt: HostRuntime) -> anyhow::Result<()> {
    let sides = rounds::all_rounds(rt.alloc())?;
    let tally = sides.tally;
    println!(rt; "{tally}")?;
    Ok(())
}
