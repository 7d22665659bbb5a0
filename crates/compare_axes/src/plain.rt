// A plain model of an axis: it keeps the lists alone, and works every answer out anew.
ghost use Rattle.std.specs.Prelude.{◌≡◌, ◌-◌, ◌≤◌, Ok, Err, OnOk, if◌then◌else◌, vec_len, nat_eq};

use crate::calls::{Answer, Call, LINES, Told};
use crate::shortest::Lengths;
use axis::{AxisFault, Bound, Range};
use std::alloc::{AllocError, Global};

#[derive(Drop)]
pub struct Plain {
    ranges: Vec<Range>,
    bounds: Vec<Bound>,
}

impl Plain {
    pub fn new(heap: Global) -> Plain
        ensures { (vec_len result.ranges ≡ 0) × (vec_len result.bounds ≡ 0) }
    {
        Plain {
            ranges: Vec::new(heap),
            bounds: Vec::new(heap),
        }
    }

    pub fn perform(&mut self, call: &Call) -> Result<Answer, AllocError> {
        match call {
            Call::Reset { lows, highs } => self.reset(lows.as_slice(), highs.as_slice()),
            Call::Put(bound) => self.put(*bound),
            Call::Back => Ok(self.back()),
            Call::Tightest(p, q) => Ok(self.tightest(*p, *q)),
            Call::Count => Ok(Ok(Told::Count(self.bounds.len()))),
        }
    }

    fn reset(&mut self, lows: &[i16], highs: &[i16]) -> Result<Answer, AllocError> {
        let asked = ask_reset(lows, highs);
        if asked.is_ok() {
            let pairs = lows.iter().zip(highs.iter());
            self.ranges.clear();
            self.ranges.extend(pairs.map(|(low, high)| Range {
                low: *low,
                high: *high,
            }))?;
            self.bounds.clear();
        }
        Ok(asked.map(|()| Told::Done))
    }

    fn put(&mut self, bound: Bound) -> Result<Answer, AllocError> {
        let asked = self.ask_put(bound);
        if asked.is_ok() {
            self.bounds.push(bound)?;
        }
        Ok(asked.map(|()| Told::Done))
    }

    fn back(&mut self) -> Answer
        ensures answer { result ≡ (if nat_eq (vec_len self.old.bounds) 0 then Err AxisFault.NoBound else Ok Told.Done) }
        ensures after { vec_len self.new.bounds ≡ vec_len self.old.bounds - 1 }
    {
        self.bounds.pop().ok_or(AxisFault::NoBound)?;
        Ok(Told::Done)
    }

    fn tightest(&self, p: u8, q: u8) -> Answer {
        self.ask_lines(p, q)?;
        let mut lengths = self.edges();
        lengths.shorten();
        Ok(Told::Difference(lengths.at(usize::from(p), usize::from(q))))
    }

    fn ask_put(&self, bound: Bound) -> Result<(), AxisFault> {
        self.ask_lines(bound.p, bound.q)?;
        ask((-4000..=4000).contains(&bound.d), AxisFault::Length)?;
        ask(self.bounds.len() < 90, AxisFault::Full)?;
        let mut lengths = self.edges();
        lengths.add_bound(bound);
        lengths.shorten();
        ask(!lengths.has_negative_ring(), AxisFault::NoPlacement)
    }

    fn ask_lines(&self, p: u8, q: u8) -> Result<(), AxisFault>
        ensures { OnOk result ((p ≤ vec_len self.now.ranges) × (q ≤ vec_len self.now.ranges)) }
    {
        ask(usize::from(p.max(q)) <= self.ranges.len(), AxisFault::Line)
    }

    // A line is at most at its high over line 0, and at least at its low.
    fn edges(&self) -> Lengths {
        let mut lengths = Lengths::new();
        for (line, range) in (1..LINES).zip(self.ranges.iter()) {
            lengths.add_edge(line, 0, i32::from(range.high));
            lengths.add_edge(0, line, -i32::from(range.low));
        }
        for bound in self.bounds.iter() {
            lengths.add_bound(*bound);
        }
        lengths
    }
}

fn ask_reset(lows: &[i16], highs: &[i16]) -> Result<(), AxisFault> {
    ask(
        lows.len() == highs.len() && lows.len() < LINES,
        AxisFault::Lists,
    )?;
    // Kept apart from the axes' own test: the model shares nothing with what it is compared with.
    let in_order = lows
        .iter()
        .zip(highs.iter())
        .all(|(low, high)| 0 <= *low && low <= high && *high <= 2880);
    ask(in_order, AxisFault::Ranges)
}

fn ask(yes: bool, fault: AxisFault) -> Result<(), AxisFault>
    ensures { result ≡ (if yes then Ok tt else Err fault) }
{
    if yes { Ok(()) } else { Err(fault) }
}
