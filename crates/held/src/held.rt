// No call but the first needs memory, so none fails for want of it.
ghost use Rattle.std.specs.Prelude.{◌≡◌, ◌<◌, ◌≤◌, [], ◌∷◌, ◌++◌, List, length, IfOk, vec_capacity};
ghost use Rattle.std.specs.Iterator.{Drains, UpTo};
ghost use Rattle.std.specs.Iterator.Runs.{WholeRun};
ghost use Rattle.held.specs.Newest.{Parted};

use std::alloc::{AllocError, Global};
use std::marker::Model;

#[derive(Drop)]
pub struct Held<T: Drop, const MOST: usize> {
    items: Vec<T>,
}

// A clause sees the items, oldest first.
impl<T: Drop, const MOST: usize> Model for Held<T, MOST> {
    ghost Value = { List T };

    ghost view = { λ h. h.items.items };

    ghost invariant = { λ h. (length h.items.items ≤ MOST) × (MOST ≤ vec_capacity h.items) };
}

impl<T: Copy, const MOST: usize> Held<T, MOST> {
    pub fn new(heap: Global) -> Result<Held<T, MOST>, AllocError>
        ensures { IfOk result (λ h. h ≡ []) }
    {
        let items = Vec::with_capacity(heap, MOST)?;
        Ok(Held { items })
    }

    pub fn as_slice(&self) -> &[T]
        ensures value { result.now ≡ self.now }
        ensures few { length result.now ≤ MOST }
    {
        self.items.as_slice()
    }

    pub fn len(&self) -> usize
        ensures value { result ≡ length self.now }
        ensures few { result ≤ MOST }
    {
        self.items.len()
    }

    pub fn clear(&mut self)
        ensures { self.new ≡ [] }
    {
        self.items.clear();
    }

    // The item is the newest.
    pub fn push(&mut self, item: T)
        requires { length self.old < MOST }
        ensures { self.new ≡ self.old ++ item ∷ [] }
    {
        self.items.push_reserved(item);
    }

    // The newest item goes.
    pub fn pop(&mut self) -> Option<T>
        ensures { Parted self.old result self.new }
    {
        self.items.pop()
    }

    // These items in place of what was there.
    pub fn refill(&mut self, items: &[T])
        requires { length items.now ≤ MOST }
        ensures { self.new ≡ items.now }
    {
        self.refill_from(items.iter().copied());
    }

    // What the iterator gives in place of what was there. The second clause says it of a run, as the library's chains do.
    pub fn refill_from<I: Iterator<Item = T>>(&mut self, items: I)
        requires callable { I.can_next items }
        requires few { UpTo (I.remaining items) MOST }
        ensures ran { Drains I.next_gives items self.new }
        ensures runs { WholeRun I.next_gives items (λ p. self.new ≡ p.items) }
    {
        self.clear();
        for item in items {
            self.push(item);
        }
    }
}
