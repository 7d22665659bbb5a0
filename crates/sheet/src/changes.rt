// The calls that change the entries.
ghost use Rattle.journal.specs.Steps.{bind, rule, withdraw, said, Step};
ghost use Rattle.sheet.specs.Standing.{Entered};

use crate::Sheet;
use axis::{Axis, Bound};
use boxes::{Direction, Entry, ruling};
use faults::SheetFault;
use stack::Word;

impl<T: Axis, P: Axis> Sheet<T, P> {
    // The entry stands, as the newest.
    fn enter(&mut self, entry: Entry) -> Result<(), SheetFault>
        ensures { Entered self.old entry result self.new }
    {
        if self.entries.count_on(entry.direction) >= 24 {
            return Err(SheetFault::Entries);
        }
        self.axes.put(entry)?;
        self.entries.push(entry);
        Ok(())
    }

    // A bound on the axis T or P.
    pub fn bind(&mut self, letter: char, bound: Bound) -> Result<(), SheetFault>
        ensures { Step self.old (bind letter bound) (said result) self.new }
    {
        let direction = Direction::try_from(letter)?;
        self.enter(Entry { direction, bound })
    }

    // The bound of the word for the stays i and j: B before, A after, N nearer, F farther.
    pub fn rule(&mut self, i: u8, j: u8, word: char) -> Result<(), SheetFault>
        ensures { Step self.old (rule i j word) (said result) self.new }
    {
        let word = Word::try_from(word)?;
        let count = self.stays.count();
        // Kept as comparisons: with ranges the line is as long, and its goals would need answers
        if i < 1 || i > count || j < 1 || j > count || i == j {
            return Err(SheetFault::Pair);
        }
        let entry = ruling(self.stays.sizes(), i, j, word);
        self.enter(entry)
    }

    // The newest entry, on either axis, is gone. Its bound stands there, so the axis does not refuse.
    pub fn withdraw(&mut self) -> Result<(), SheetFault>
        ensures { Step self.old withdraw (said result) self.new }
    {
        let Some(entry) = self.entries.newest() else {
            return Err(SheetFault::NoEntry);
        };
        self.axes.back(entry.direction)?;
        self.entries.pop();
        Ok(())
    }
}
