// All placements of one axis, made line by line.
use crate::lines::{LINES, Lines, Values, at, set};
use std::alloc::{AllocError, Global};

pub fn placements(heap: Global, lines: &Lines) -> Result<Vec<Values>, AllocError> {
    let mut found = Vec::new(heap);
    found.push([0; LINES])?;
    for line in 0..LINES {
        found = with_line(heap, lines, line, found.as_slice())?;
    }
    Ok(found)
}

// Those with the line at each of its values that fits.
fn with_line(
    heap: Global,
    lines: &Lines,
    line: usize,
    found: &[Values],
) -> Result<Vec<Values>, AllocError> {
    let mut longer = Vec::new(heap);
    for values in found.iter() {
        add_fitting(&mut longer, lines, line, *values)?;
    }
    Ok(longer)
}

fn add_fitting(
    found: &mut Vec<Values>,
    lines: &Lines,
    line: usize,
    mut values: Values,
) -> Result<(), AllocError> {
    let room = lines.room(line);
    for value in 0..room.values {
        set(&mut values, line, i32::from(room.low.saturating_add(value)));
        if lines.fits(&values, line) {
            found.push(values)?;
        }
    }
    Ok(())
}

// The largest difference, p less q.
pub fn largest(found: &[Values], p: usize, q: usize) -> Option<i32> {
    found
        .iter()
        .map(|values| at(values, p).saturating_sub(at(values, q)))
        .max()
}
