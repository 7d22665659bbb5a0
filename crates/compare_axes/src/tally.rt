// How many answers were compared, by call and by refusal.
ghost use Rattle.std.specs.Prelude.{◌≡◌, ◌+◌, ◌-◌, ◌^◌, min};

use crate::calls::{Answer, Call};
use std::fmt;

// Kept as fields: a list of counters would need a number for each call, and its name, beside the call.
#[derive(Default, Drop)]
pub struct Tally {
    resets: u32,
    puts: u32,
    backs: u32,
    tightests: u32,
    counts: u32,
    // by the number of the refusal; none has the number 0
    refused: [u32; 8],
    undone: u32,
    differed: u32,
}

impl Tally {
    pub fn note(&mut self, call: &Call, answer: Answer, same: bool) {
        match call {
            Call::Reset { .. } => more(&mut self.resets),
            Call::Put(_) => more(&mut self.puts),
            Call::Back => more(&mut self.backs),
            Call::Tightest(_, _) => more(&mut self.tightests),
            Call::Count => more(&mut self.counts),
        }
        self.note_refusal(answer);
        self.note_difference(same);
    }

    // A bound was put and taken back.
    pub fn note_undone(&mut self, same: bool) {
        more(&mut self.undone);
        self.note_difference(same);
    }

    fn note_refusal(&mut self, answer: Answer) {
        if let Err(fault) = answer {
            more(&mut self.refused[usize::from(fault.number())]);
        }
    }

    fn note_difference(&mut self, same: bool) {
        if !same {
            more(&mut self.differed);
        }
    }
}

fn more(times: &mut u32)
    ensures { times.new ≡ min (times.old + 1) (2 ^ 32 - 1) }
{
    *times = times.saturating_add(1);
}

impl fmt::Display for Tally {
    fn fmt<W: fmt::Write>(&self, f: &mut fmt::Formatter<W>) -> fmt::Result {
        writeln!(f, "reset {}", self.resets)?;
        writeln!(f, "put {}", self.puts)?;
        writeln!(f, "back {}", self.backs)?;
        writeln!(f, "tightest {}", self.tightests)?;
        writeln!(f, "count {}", self.counts)?;
        for (number, times) in self.refused.iter().enumerate().skip(1) {
            writeln!(f, "refused {number} {times}")?;
        }
        writeln!(f, "undone {}", self.undone)?;
        write!(f, "differed {}", self.differed)
    }
}
