// Reads an image from standard input and writes the text that answers it.
#![tactic(auto)]

use answer::answer;
use matrix_axis::MatrixAxis;
use sheet::Sheet;
use std::io::{Read, Write};

// One byte more than the first two can count, so that what is longer is refused as it would be whole.
const MOST: u64 = 65538;

// Every text fits: the longest has twelve stays of at most thirteen bytes each, after its first line.
fn plan(rt: &HostRuntime) -> anyhow::Result<()> {
    let heap = rt.alloc();
    let mut image = Vec::new(heap);
    rt.stdin().take(MOST).read_to_end(&mut image)?;
    let mut sheet = Sheet::new(heap, MatrixAxis::new(heap)?, MatrixAxis::new(heap)?)?;
    let mut text = [0; 256];
    let length = answer(image.as_slice(), &mut sheet, &mut text)?;
    rt.stdout().write_all(&text[0..length])?;
    Ok(())
}

fn main(rt: HostRuntime) -> anyhow::Result<()> {
    plan(&rt)
}
