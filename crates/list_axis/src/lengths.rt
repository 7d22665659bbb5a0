// The lengths from one line, worked out by relaxing the edges until none shortens a way.
ghost use Rattle.std.specs.Prelude.{◌≡◌, ◌≤◌, length};
ghost use Rattle.axis.specs.Meaning.{lines};
ghost use Rattle.ledger.specs.Means.{Standing};
ghost use Rattle.list_axis.specs.Rows.{Found, Complete};

use ledger::Ledger;

// The way to line j found so far has the length at place j. Kept an array of thirteen: a row needs no memory, and is read to the last line.
#[derive(Drop)]
pub struct Lengths<'a> {
    pub ledger: &'a Ledger,
    pub start: usize,
    pub row: [i16; 13],
    ghost standing: { Standing ledger.now },
    ghost line: { start ≤ lines ledger.now },
    ghost full: { length row ≡ 13 },
    ghost found: { Found ledger.now start row },
}

// The length to line j is at place j. Kept as a premise, here and below: a ledger by itself may have bounds that leave no placement.
pub fn lengths_from(ledger: &Ledger, start: usize) -> [i16; 13]
    requires standing { Standing ledger.now }
    requires line { start ≤ lines ledger.now }
    ensures { Complete ledger.now start result }
{
    let row = ways_over_zero(ledger, start);
    let mut lengths = Lengths { ledger, start, row };
    while lengths.pass() {}
    lengths.row
}

// Every way leads over line 0.
fn ways_over_zero(ledger: &Ledger, start: usize) -> [i16; 13]
    requires standing { Standing ledger.now }
    requires line { start ≤ lines ledger.now }
    ensures { Found ledger.now start result }
{
    let mut row = [0; 13];
    // what stands past the last line is never read
    for (line, way) in row[..=ledger.lines()].iter_mut().enumerate() {
        *way = ledger.direct(start, line);
    }
    row
}
