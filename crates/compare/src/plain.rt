// A plain model of a sheet: it keeps the lists alone, and works every answer out anew.
ghost use Rattle.std.specs.Prelude.{◌≡◌, ◌-◌, Ok, Err, if◌then◌else◌, vec_len, nat_eq};

use crate::calls::{Answer, Call, Told};
use crate::lines::{LINES, Lines, at, lasts};
use crate::solver::has_plan;
use axis::{AxisFault, Bound};
use boxes::{Direction, Entry};
use faults::SheetFault;
use journal::Stay;
use stack::Word;
use std::alloc::{AllocError, Global};

// What the source of the calls goes by.
#[derive(Clone, Copy)]
pub struct Shape {
    pub count: u8,
    pub pairs: usize,
    // past what the second solver tries within moments
    pub large: bool,
}

#[derive(Drop)]
pub struct Plain {
    pub span: u16,
    pub platform: u16,
    pub stays: Vec<Stay>,
    pub entries: Vec<Entry>,
}

impl Plain {
    pub fn new(heap: Global) -> Plain {
        Plain {
            span: 1,
            platform: 1,
            stays: Vec::new(heap),
            entries: Vec::new(heap),
        }
    }

    pub fn perform(&mut self, call: &Call) -> Result<Answer, AllocError> {
        match call {
            Call::Load {
                span,
                platform,
                stays,
            } => self.load(*span, *platform, stays.as_slice()),
            Call::Bind { letter, bound } => self.bind(*letter, *bound),
            Call::Rule { i, j, word } => self.rule(*i, *j, *word),
            Call::Withdraw => Ok(self.withdraw()),
            Call::Ask { letter, p, q } => Ok(self.ask(*letter, *p, *q)),
            Call::Settle { places, trials } => Ok(self.settle(*places, *trials)),
        }
    }

    fn load(&mut self, span: u16, platform: u16, stays: &[Stay]) -> Result<Answer, AllocError> {
        let asked = ask_load(span, platform, stays);
        if asked.is_ok() {
            self.span = span;
            self.platform = platform;
            self.stays.clear();
            self.stays.extend(stays.iter().copied())?;
            self.entries.clear();
        }
        Ok(asked.map(|()| Told::Done))
    }

    fn bind(&mut self, letter: char, bound: Bound) -> Result<Answer, AllocError> {
        match direction_named(letter) {
            Ok(direction) => self.enter(Entry { direction, bound }),
            Err(fault) => Ok(Err(fault)),
        }
    }

    fn rule(&mut self, i: u8, j: u8, letter: char) -> Result<Answer, AllocError> {
        match self.ruled(i, j, letter) {
            Ok(entry) => self.enter(entry),
            Err(fault) => Ok(Err(fault)),
        }
    }

    fn enter(&mut self, entry: Entry) -> Result<Answer, AllocError> {
        let asked = self.ask_entry(entry);
        if asked.is_ok() {
            self.entries.push(entry)?;
        }
        Ok(asked.map(|()| Told::Done))
    }

    fn withdraw(&mut self) -> Answer
        ensures answer { result ≡ (if nat_eq (vec_len self.old.entries) 0 then Err SheetFault.NoEntry else Ok Told.Done) }
        ensures after { vec_len self.new.entries ≡ vec_len self.old.entries - 1 }
    {
        self.entries.pop().ok_or(SheetFault::NoEntry)?;
        Ok(Told::Done)
    }

    fn ask(&self, letter: char, p: u8, q: u8) -> Answer {
        let direction = direction_named(letter)?;
        self.ask_lines(p, q)?;
        let largest = Lines::of(self, direction).largest_from(usize::from(q));
        Ok(Told::Difference(at(&largest, usize::from(p))))
    }

    fn settle(&self, places: usize, trials: usize) -> Answer {
        ask(places >= self.stays.len(), SheetFault::Places)?;
        ask(trials >= self.pairs(), SheetFault::Trials)?;
        ask(has_plan(self), SheetFault::NoPlan)?;
        Ok(Told::Done)
    }

    // How many stays there are.
    pub fn count(&self) -> u8 {
        u8::try_from(self.stays.len()).unwrap_or(u8::MAX)
    }

    pub fn shape(&self) -> Shape {
        Shape {
            count: self.count(),
            pairs: self.pairs(),
            large: self.stays.len() > 5 || self.span > 6 || self.platform > 8,
        }
    }

    // How many pairs they make.
    pub fn pairs(&self) -> usize {
        let count = self.stays.len();
        count.saturating_mul(count.saturating_sub(1)) / 2
    }

    // The entry of a rule: its word and its pair are asked first.
    fn ruled(&self, i: u8, j: u8, letter: char) -> Result<Entry, SheetFault> {
        let word = word_named(letter)?;
        ask(
            self.has_stay(i) && self.has_stay(j) && i != j,
            SheetFault::Pair,
        )?;
        Ok(match word {
            Word::Before => entry(Direction::Time, i, j, self.steps_of(i)),
            Word::After => entry(Direction::Time, j, i, self.steps_of(j)),
            Word::Nearer => entry(Direction::Platform, i, j, self.metres_of(i)),
            Word::Farther => entry(Direction::Platform, j, i, self.metres_of(j)),
        })
    }

    fn has_stay(&self, number: u8) -> bool {
        number > 0 && usize::from(number) <= self.stays.len()
    }

    fn stay(&self, number: u8) -> Option<Stay> {
        self.stays
            .get(usize::from(number).saturating_sub(1))
            .copied()
    }

    fn steps_of(&self, number: u8) -> u16 {
        self.stay(number).map_or(0, |stay| lasts(stay))
    }

    fn metres_of(&self, number: u8) -> u16 {
        self.stay(number).map_or(0, |stay| stay.metres)
    }

    fn ask_entry(&self, entry: Entry) -> Result<(), SheetFault> {
        let standing = self
            .entries
            .iter()
            .filter(|held| held.direction == entry.direction)
            .count();
        ask(standing < 24, SheetFault::Entries)?;
        self.ask_lines(entry.bound.p, entry.bound.q)?;
        ask(
            (-4000..=4000).contains(&entry.bound.d),
            SheetFault::Axis(AxisFault::Length),
        )?;
        let mut lines = Lines::of(self, entry.direction);
        lines.add_bound(entry.bound);
        ask(
            lines.has_placement(),
            SheetFault::Axis(AxisFault::NoPlacement),
        )
    }

    fn ask_lines(&self, p: u8, q: u8) -> Result<(), SheetFault> {
        ask(
            usize::from(p.max(q)) <= self.stays.len(),
            SheetFault::Axis(AxisFault::Line),
        )
    }
}

fn entry(direction: Direction, p: u8, q: u8, extent: u16) -> Entry {
    let d = i16::try_from(extent).map_or(i16::MIN, |extent| -extent);
    Entry {
        direction,
        bound: Bound { p, q, d },
    }
}

fn ask_load(span: u16, platform: u16, stays: &[Stay]) -> Result<(), SheetFault> {
    let in_range = (1..=2880).contains(&span) && (1..=1000).contains(&platform);
    ask(in_range, SheetFault::Extents)?;
    ask(stays.len() < LINES, SheetFault::Stays)?;
    for (number, stay) in (1..=12).zip(stays.iter()) {
        ask_stay(span, platform, number, *stay)?;
    }
    Ok(())
}

fn ask_stay(span: u16, platform: u16, number: u8, stay: Stay) -> Result<(), SheetFault> {
    let opened = u32::from(stay.lead).saturating_add(u32::from(stay.dwell));
    let (from, until) = stay
        .window
        .map_or((0, span), |window| (window.from, window.until));
    let gone = u32::from(from).saturating_add(u32::from(lasts(stay)));
    ask(
        (1..=43_200).contains(&stay.circuit),
        SheetFault::Circuit(number),
    )?;
    ask(opened <= u32::from(stay.circuit), SheetFault::Doors(number))?;
    ask(
        (1..=platform).contains(&stay.metres),
        SheetFault::Length(number),
    )?;
    ask(
        gone <= u32::from(until) && until <= span,
        SheetFault::Window(number),
    )
}

// Kept apart from the sheet's own reading of letters: the model shares nothing with what it is compared with.
fn direction_named(letter: char) -> Result<Direction, SheetFault> {
    match letter {
        'T' => Ok(Direction::Time),
        'P' => Ok(Direction::Platform),
        _ => Err(SheetFault::Letter),
    }
}

fn word_named(letter: char) -> Result<Word, SheetFault> {
    match letter {
        'B' => Ok(Word::Before),
        'A' => Ok(Word::After),
        'N' => Ok(Word::Nearer),
        'F' => Ok(Word::Farther),
        _ => Err(SheetFault::Word),
    }
}

fn ask(yes: bool, fault: SheetFault) -> Result<(), SheetFault>
    ensures { result ≡ (if yes then Ok tt else Err fault) }
{
    if yes { Ok(()) } else { Err(fault) }
}
