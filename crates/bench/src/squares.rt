// Packings of squares: a square of side s is s steps by s metres.
use crate::bench::Bench;
use crate::packings::Stay;
use boxes::Size;
use std::alloc::{AllocError, Global};

// The nine squares that fill 33 by 32, in three numberings.
const NINE: [(&str, [u16; 9]); 3] = [
    ("nine squares", [1, 4, 7, 8, 9, 10, 14, 15, 18]),
    ("nine squares reversed", [18, 15, 14, 10, 9, 8, 7, 4, 1]),
    ("nine squares shuffled", [9, 15, 1, 18, 7, 14, 4, 10, 8]),
];

const NINE_ROOM: Size = Size {
    steps: 33,
    metres: 32,
};

// So many squares, and the least box of so many steps by so many metres that holds them.
// Kept as tuples: a row is taken apart by names where it is read, and a box written out takes four lines.
const LEAST: [(u16, u16, u16); 7] = [
    (6, 9, 11),
    (7, 7, 22),
    (8, 14, 15),
    (9, 15, 20),
    (10, 15, 27),
    (11, 19, 27),
    (12, 23, 29),
];

fn squares(heap: Global, sides: &[u16], steps: u16) -> Result<Vec<Stay>, AllocError> {
    sides
        .iter()
        .map(|side| Stay {
            size: Size {
                steps: *side,
                metres: *side,
            },
            first: 0,
            gone: steps,
        })
        .collect(heap)
}

fn decide(bench: &mut Bench<'_>, name: &str, sides: &[u16], room: Size) -> anyhow::Result<()> {
    let Size { steps, metres } = room;
    let stays = squares(bench.heap(), sides, steps)?;
    let name = format!(in bench.heap(); "{name} in {steps} by {metres}")?;
    bench.decide(name.as_str(), stays.as_slice(), metres)
}

// A metre less on the platform.
fn narrower(room: Size) -> Size {
    Size {
        metres: room.metres.saturating_sub(1),
        ..room
    }
}

pub fn nine_squares(bench: &mut Bench<'_>) -> anyhow::Result<()> {
    for (name, sides) in NINE {
        decide(bench, name, &sides, NINE_ROOM)?;
        decide(bench, name, &sides, narrower(NINE_ROOM))?;
    }
    Ok(())
}

// The squares of sides 1 to n.
fn decide_to(bench: &mut Bench<'_>, n: u16, room: Size) -> anyhow::Result<()> {
    let sides: Vec<u16> = (1..=n).collect(bench.heap())?;
    let name = format!(in bench.heap(); "squares 1 to {n}")?;
    decide(bench, name.as_str(), sides.as_slice(), room)
}

pub fn least_boxes(bench: &mut Bench<'_>) -> anyhow::Result<()> {
    for (n, steps, metres) in LEAST {
        let room = Size { steps, metres };
        decide_to(bench, n, room)?;
        decide_to(bench, n, narrower(room))?;
    }
    Ok(())
}

pub fn twelve_squares(bench: &mut Bench<'_>) -> anyhow::Result<()> {
    let room = Size {
        steps: 31,
        metres: 21,
    };
    decide_to(bench, 12, room)
}
