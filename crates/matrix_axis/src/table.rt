// The table of lengths.
ghost use Rattle.std.specs.Prelude.{◌≡◌, ℕ, ◌<◌, ◌≤◌, pos, replicate};
ghost use Rattle.ledger.specs.Lengths.{entry};
ghost use Rattle.matrix_axis.specs.Cells.{cell, row_of};

use std::array;

// Row i has the lengths from line i to each line.
#[derive(Drop)]
pub struct Table {
    pub rows: [[i16; 13]; 13],
}

impl Table {
    pub fn new() -> Table
        ensures { result.rows ≡ replicate 13 (replicate 13 (pos 0)) }
    {
        Table {
            rows: [[0; 13]; 13],
        }
    }

    pub fn at(&self, i: usize, j: usize) -> i16
        requires { (i < 13) × (j < 13) }
        ensures { result ≡ cell self.now.rows i j }
    {
        self.rows[i][j]
    }

    // The lengths from line i to each line.
    pub fn row(&self, i: usize) -> [i16; 13]
        requires { i < 13 }
        ensures { result ≡ row_of self.now.rows i }
    {
        self.rows[i]
    }

    // The lengths from each line to line j.
    pub fn column(&self, j: usize) -> [i16; 13]
        requires { j < 13 }
        ensures { (i : ℕ) → i < 13 → entry result i ≡ cell self.now.rows i j }
    {
        array::from_fn(|i| self.rows[i][j])
    }
}
