// How many answers were compared, by call and by refusal.
ghost use Rattle.std.specs.Prelude.{◌≡◌, ◌+◌, ◌-◌, ◌^◌, min};

use crate::calls::{Answer, Call};
use std::fmt;

// Kept as fields: a list of counters would need a number for each call, and its name, beside the call.
#[derive(Default, Drop)]
pub struct Tally {
    loads: u32,
    binds: u32,
    rules: u32,
    withdraws: u32,
    asks: u32,
    settles: u32,
    plans: u32,
    // by the number of the refusal; none has the number 0
    refused: [u32; 26],
    sought: u32,
    differed: u32,
}

impl Tally {
    pub fn note(&mut self, call: &Call, answer: Answer, same: bool) {
        match call {
            Call::Load { .. } => more(&mut self.loads),
            Call::Bind { .. } => more(&mut self.binds),
            Call::Rule { .. } => more(&mut self.rules),
            Call::Withdraw => more(&mut self.withdraws),
            Call::Ask { .. } => more(&mut self.asks),
            Call::Settle { .. } => self.note_settle(answer),
        }
        self.note_refusal(answer);
        self.note_same(same);
    }

    fn note_settle(&mut self, answer: Answer) {
        more(&mut self.settles);
        if answer.is_ok() {
            more(&mut self.plans);
        }
    }

    // A difference was sought in all placements.
    pub fn note_sought(&mut self) {
        more(&mut self.sought);
    }

    fn note_refusal(&mut self, answer: Answer) {
        if let Err(fault) = answer
            && let Some(times) = self.refused.get_mut(usize::from(fault.number()))
        {
            more(times);
        }
    }

    fn note_same(&mut self, same: bool) {
        if !same {
            more(&mut self.differed);
        }
    }
}

fn more(times: &mut u32)
    ensures { times.new ≡ min (times.old + 1) (2 ^ 32 - 1) }
{
    *times = times.saturating_add(1);
}

impl fmt::Display for Tally {
    fn fmt<W: fmt::Write>(&self, f: &mut fmt::Formatter<W>) -> fmt::Result {
        writeln!(f, "load {}", self.loads)?;
        writeln!(f, "bind {}", self.binds)?;
        writeln!(f, "rule {}", self.rules)?;
        writeln!(f, "withdraw {}", self.withdraws)?;
        writeln!(f, "ask {}", self.asks)?;
        writeln!(f, "settle {}", self.settles)?;
        writeln!(f, "plan {}", self.plans)?;
        for (number, times) in self.refused.iter().enumerate() {
            if *times > 0 {
                writeln!(f, "refused {number} {times}")?;
            }
        }
        writeln!(f, "sought in all placements {}", self.sought)?;
        write!(f, "differed {}", self.differed)
    }
}
