//! The set of the attached ids, as propagation asks for it.
//!
//! It is a set of flags, so that asking, putting in and taking out cost the same however many members there are.
ghost use Rattle.std.specs.Prelude.{◌≡◌, ◌||◌, ◌&&◌, ◌==◌, ℕ, [], not, OnOk, OnErr};
ghost use Rattle.sat_terms.specs.Literal.{has};
ghost use Rattle.watch_lists.specs.Propagation.{marked, ids_of};

use flag_set::set::FlagSet;
use sat_model::lists::{ClauseId, Ids};
use sat_model::memory::Memory;
use std::alloc::Global;
use std::marker::Model;

// A set of ids. Contracts see a mark at the number of each member.
#[derive(Drop)]
pub(crate) struct Marks {
    // The members.
    ids: FlagSet<ClauseId>,
}

impl Model for Marks {
    ghost use Rattle.std.specs.Prelude.{List, Bool};

    ghost Value = { List Bool };

    ghost view = { λ s. s.ids };
}

impl Marks {
    // The empty set.
    pub(crate) fn new(alloc: Global) -> Marks
        ensures { ids_of result ≡ [] }
    {
        Marks {
            ids: FlagSet::new(alloc),
        }
    }

    // Whether an id is a member.
    pub(crate) fn holds(&self, id: ClauseId) -> bool
        ensures { result ≡ marked self.now id }
    {
        self.ids.has(id)
    }

    // Puts an id in. After `Memory` the set is as before.
    pub(crate) fn add(&mut self, id: ClauseId) -> Result<(), Memory>
        ensures ok { OnOk result ((k : ℕ) → marked self.new k ≡ (marked self.old k || id == k)) }
        ensures err { OnErr result (self.new ≡ self.old) }
    {
        self.ids.put(id)
    }

    // Takes an id out.
    pub(crate) fn remove(&mut self, id: ClauseId)
        ensures { (k : ℕ) → marked self.new k ≡ (marked self.old k && not (k == id)) }
    {
        self.ids.take_out(id);
    }

    // Takes ids out.
    pub(crate) fn remove_all(&mut self, ids: &Ids)
        ensures { (k : ℕ) → marked self.new k ≡ (marked self.old k && not (has ids.now k)) }
    {
        let mut k = 0;
        'each: while k < ids.len() {
            self.remove(ids.id(k));
            k += 1;
        }
    }
}
