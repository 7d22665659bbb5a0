// Takes one task through both axes and prints each line's earliest and latest step.
#![tactic(auto)]

use list_axis::ListAxis;
use matrix_axis::MatrixAxis;

mod task;

use task::task;

fn show(rt: &HostRuntime, name: &str, times: &[(i16, i16)]) -> anyhow::Result<()> {
    println!(rt; "{name}")?;
    for (k, (earliest, latest)) in times.iter().enumerate() {
        println!(rt; "line {} earliest {earliest} latest {latest}", k + 1)?;
    }
    Ok(())
}

fn run(rt: &HostRuntime) -> anyhow::Result<()> {
    let by_matrix = task(&mut MatrixAxis::new(rt.alloc())?)?;
    let by_list = task(&mut ListAxis::new(rt.alloc())?)?;
    show(rt, "matrix axis", &by_matrix)?;
    show(rt, "list axis", &by_list)?;
    let verdict = if by_matrix == by_list {
        "agree"
    } else {
        "differ"
    };
    println!(rt; "the two axes {verdict}")?;
    Ok(())
}

fn main(rt: HostRuntime) -> anyhow::Result<()> {
    run(&rt)
}
