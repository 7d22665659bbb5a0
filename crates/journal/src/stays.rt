// How the table of stays begins and is filled.
ghost use Rattle.std.specs.Prelude.{◌≡◌, ◌≤◌, [], map, length, IfOk};
ghost use Rattle.boxes.specs.Overlaps.{Sized};
ghost use Rattle.journal.specs.Stays.{size_of};

use crate::extents::Extents;
use crate::loading::Loading;
use crate::model::Stay;
use crate::tables::Stays;
use boxes::Size;
use held::Held;
use std::alloc::{AllocError, Global};

impl Stays {
    // No stays, in a span of one step on a platform of one metre.
    pub fn new(heap: Global) -> Result<Stays, AllocError>
        ensures { IfOk result (λ s. (s.extents.span ≡ 1) × (s.extents.platform ≡ 1) × (s.items ≡ [])) }
    {
        Ok(Stays {
            extents: Extents::LEAST,
            items: Held::new(heap)?,
            sizes: Held::new(heap)?,
        })
    }

    // These stays in place of those that were there.
    pub fn refill(&mut self, loading: &Loading<'_>)
        ensures extents { self.new.extents ≡ loading.now.extents }
        ensures items { self.new.items ≡ loading.now.stays.now }
    {
        self.extents = loading.extents;
        self.items.refill(loading.stays);
        self.sizes
            .refill_from(loading.stays.iter().map(|stay| stay.size()));
    }

    // As a new sheet has it.
    pub fn clear(&mut self)
        ensures extents { (self.new.extents.span ≡ 1) × (self.new.extents.platform ≡ 1) }
        ensures items { self.new.items ≡ [] }
    {
        self.extents = Extents::LEAST;
        self.items.clear();
        self.sizes.clear();
    }

    pub fn extents(&self) -> Extents
        ensures { result ≡ self.now.extents }
    {
        self.extents
    }

    pub fn items(&self) -> &[Stay]
        ensures value { result.now ≡ self.now.items }
        ensures few { length result.now ≤ 12 }
    {
        self.items.as_slice()
    }

    pub fn sizes(&self) -> &[Size]
        ensures value { result.now ≡ map size_of self.now.items }
        ensures count { length result.now ≡ length self.now.items }
        ensures sized { Sized result.now }
    {
        self.sizes.as_slice()
    }

    // How many there are.
    pub fn count(&self) -> u8
        ensures value { result ≡ length self.now.items }
        ensures few { result ≤ 12 }
    {
        self.items.len() as u8
    }
}
