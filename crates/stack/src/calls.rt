// The calls on a stack.
ghost use Rattle.std.specs.Prelude.{◌≡◌, ◌<◌, [], ◌∷◌, ◌++◌, length};
ghost use Rattle.stack.specs.Stacks.{contents, Fresh, loan, memory, Popped, Pushed};

use crate::{Blank, Stack, StackFault};

impl<'a, E: Blank + Copy> Stack<'a, E> {
    // An empty stack on that memory.
    pub fn new(slots: &'a mut [E]) -> Stack<'a, E>
        ensures after { Fresh slots.old result }
        ensures same { loan result ≡ slots.entry.ghost_name }
    {
        Stack { slots, len: 0 }
    }

    pub fn push(&mut self, x: E) -> Result<(), StackFault>
        ensures after { Pushed self.old x self.new result }
        ensures succeeds { length (contents self.old) < length (memory self.old) → contents self.new ≡ contents self.old ++ x ∷ [] }
        ensures size { length (memory self.new) ≡ length (memory self.old) }
        ensures same { loan self.new ≡ loan self.old }
    {
        if self.len >= self.slots.len() {
            return Err(StackFault::Full);
        }
        self.slots[self.len] = x;
        self.len += 1;
        Ok(())
    }

    // The slot that the newest element leaves is blanked.
    pub fn pop(&mut self) -> Result<E, StackFault>
        ensures after { Popped E.nothing self.old self.new result }
        ensures size { length (memory self.new) ≡ length (memory self.old) }
        ensures same { loan self.new ≡ loan self.old }
    {
        if self.len == 0 {
            return Err(StackFault::Empty);
        }
        self.len -= 1;
        let x = self.slots[self.len];
        self.slots[self.len] = E::blank();
        Ok(x)
    }

    pub fn len(&self) -> usize
        ensures answer { result ≡ length (contents self.now) }
        ensures len { result ≡ self.now.len }
    {
        self.items().len()
    }

    // The elements, oldest first.
    pub fn items(&self) -> &[E]
        ensures { result.now ≡ contents self.now }
    {
        &self.slots[0..self.len]
    }
}
