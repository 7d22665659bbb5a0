// The shortest lengths between all lines, by Floyd and Warshall's method.
ghost use Rattle.std.specs.Prelude.{◌<◌};

use crate::calls::LINES;
use axis::Bound;
use std::array;

// Longer than any way.
const NO_WAY: i32 = 1_000_000;

// The length from line p to line q stands in row p at place q.
#[derive(Drop)]
pub struct Lengths {
    rows: [[i32; LINES]; LINES],
}

impl Lengths {
    // With no edges a line reaches itself alone.
    pub fn new() -> Lengths {
        let row = |p| array::from_fn(|q| if p == q { 0 } else { NO_WAY });
        Lengths {
            rows: array::from_fn(row),
        }
    }

    // No way leads to or from a line that is not there.
    pub fn at(&self, p: usize, q: usize) -> i32 {
        let length = self.rows.get(p).and_then(|row| row.get(q));
        length.copied().unwrap_or(NO_WAY)
    }

    pub fn add_edge(&mut self, p: usize, q: usize, length: i32) {
        if let Some(row) = self.rows.get_mut(p)
            && let Some(held) = row.get_mut(q)
        {
            *held = length.min(*held);
        }
    }

    pub fn add_bound(&mut self, bound: Bound) {
        self.add_edge(
            usize::from(bound.p),
            usize::from(bound.q),
            i32::from(bound.d),
        );
    }

    // Lets every way lead over every line. Kept by number: the line is a row and a place in every row that is written.
    pub fn shorten(&mut self) {
        for over in 0..LINES {
            self.lead_over(over);
        }
    }

    fn lead_over(&mut self, over: usize)
        requires { over < 13 }
    {
        let onward = self.rows[over];
        for row in self.rows.iter_mut() {
            lead_row_over(row, over, &onward);
        }
    }

    // Once the ways are shortened, a line on a ring of negative length is nearer to itself than 0.
    pub fn has_negative_ring(&self) -> bool {
        self.rows
            .iter()
            .enumerate()
            .any(|(line, row)| row[line] < 0)
    }
}

fn lead_row_over(row: &mut [i32; LINES], over: usize, onward: &[i32; LINES])
    requires { over < 13 }
{
    let first = row[over];
    for (length, rest) in row.iter_mut().zip(onward.iter()) {
        *length = first.saturating_add(*rest).min(*length);
    }
}
