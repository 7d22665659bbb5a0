// How the table of entries begins and changes.
ghost use Rattle.std.specs.Prelude.{◌≡◌, ◌-◌, ◌<◌, ◌≤◌, [], ◌∷◌, ◌++◌, length, take, IfOk};
ghost use Rattle.journal.specs.Journal.{bounds_on};
ghost use Rattle.journal.specs.Tables.{Newest};

use crate::tables::Entries;
use boxes::{Direction, Entry};
use held::Held;
use std::alloc::{AllocError, Global};

impl Entries {
    pub fn new(heap: Global) -> Result<Entries, AllocError>
        ensures { IfOk result (λ e. e.items ≡ []) }
    {
        Ok(Entries {
            items: Held::new(heap)?,
        })
    }

    pub fn clear(&mut self)
        ensures { self.new.items ≡ [] }
    {
        self.items.clear();
    }

    pub fn items(&self) -> &[Entry]
        ensures value { result.now ≡ self.now.items }
        ensures few { length result.now ≤ 48 }
    {
        self.items.as_slice()
    }

    // How many stand in the direction.
    pub fn count_on(&self, direction: Direction) -> usize
        ensures { result ≡ length (bounds_on direction self.now.items) }
    {
        self.items
            .as_slice()
            .iter()
            .filter(|entry| entry.direction == direction)
            .count()
    }

    // The entry is the newest.
    pub fn push(&mut self, entry: Entry)
        requires { length (bounds_on entry.direction self.old.items) < 24 }
        ensures { self.new.items ≡ self.old.items ++ entry ∷ [] }
    {
        self.items.push(entry);
    }

    pub fn newest(&self) -> Option<Entry>
        ensures { Newest self.now.items result }
    {
        self.items.as_slice().last().copied()
    }

    // The newest entry is gone.
    pub fn pop(&mut self)
        ensures { self.new.items ≡ take (length self.old.items - 1) self.old.items }
    {
        let _ = self.items.pop();
    }
}
