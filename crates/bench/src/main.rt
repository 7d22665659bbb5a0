// Prints, for a fixed list of packings, plan or none and how many words were tried; with the argument `time` the seconds too.
#![tactic(auto)]

use bench::Bench;
use std::{env, io};

mod bench;
mod days;
mod decide;
mod packings;
mod squares;
#[cfg(test)]
mod tests;

fn asks_for_time(rt: &HostRuntime) -> io::Result<bool> {
    Ok(env::args(rt)?.skip(1).any(|word| word.as_str() == "time"))
}

fn run(rt: &HostRuntime) -> anyhow::Result<()> {
    let mut bench = Bench::new(rt, asks_for_time(rt)?)?;
    squares::nine_squares(&mut bench)?;
    squares::least_boxes(&mut bench)?;
    squares::twelve_squares(&mut bench)?;
    days::platform_days(&mut bench)
}

fn main(rt: HostRuntime) -> anyhow::Result<()> {
    run(&rt)
}
