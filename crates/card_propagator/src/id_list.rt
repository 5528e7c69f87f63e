//! A list of cardinalities, by their numbers.
//!
//! Most literals stand in few cardinalities: up to four numbers lie in the list itself, so that a
//! table of lists takes one block of memory, and not one more for each literal.
ghost use Rattle.std.specs.Prelude.{◌≡◌, ◌-◌, [], ◌∷◌, ◌++◌, length, take, OnOk, OnErr};

use crate::id::CardId;
use sat_model::memory::Memory;
use smallvec::SmallVec;
use std::alloc::Global;
use std::marker::Model;

// The ids of some cardinalities, in the order in which they came.
pub(crate) struct IdList {
    // The ids. Up to four lie in the value itself.
    ids: SmallVec<CardId, 4>,
}

impl Drop for IdList {
    fn drop(self) {
        let IdList { ids: _ids } = self;
    }
}

impl Model for IdList {
    ghost use Rattle.std.specs.Prelude.{ℕ, List};

    ghost Value = { List ℕ };

    ghost view = { λ s. s.ids.items };
}

impl IdList {
    // The empty list. It takes no memory.
    pub(crate) fn new(alloc: Global) -> IdList
        ensures { result ≡ [] }
    {
        IdList {
            ids: SmallVec::new(alloc),
        }
    }

    // The ids.
    pub(crate) fn as_slice(&self) -> &[CardId]
        ensures { result.now ≡ self.now }
    {
        self.ids.as_slice()
    }

    // Appends an id. After `Memory` the list is as before.
    pub(crate) fn push(&mut self, id: CardId) -> Result<(), Memory>
        ensures ok { OnOk result (self.new ≡ self.old ++ id ∷ []) }
        ensures err { OnErr result (self.new ≡ self.old) }
    {
        self.ids.push(id)?;
        Ok(())
    }

    // Takes the last id out, if there is one.
    pub(crate) fn pop(&mut self)
        ensures { self.new ≡ take (length self.old - 1) self.old }
    {
        let _last = self.ids.pop();
    }
}
