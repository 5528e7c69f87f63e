//! Lists of watches.
//!
//! A watch takes twelve bytes: the id, the blocker, and in the padding whether the clause is binary. A visit of a clause whose blocker
//! is true reads nothing else.
ghost use Rattle.std.specs.Prelude.{◌≡◌, ◌==◌, ◌-◌, [], ◌∷◌, ◌++◌, length, not, filter, take, OnOk, OnErr};
ghost use Rattle.watch_lists.specs.Propagation.{marked};

use crate::marks::Marks;
use sat_model::lists::ClauseId;
use sat_model::literal::Lit;
use sat_model::memory::Memory;
use std::alloc::Global;
use std::marker::Model;
use std::mem;

/// A clause that watches the literal of a list, and a literal of the clause: where that is true, the clause need not be looked at.
#[derive(Clone, Copy)]
pub struct Watch {
    /// The clause.
    pub id: ClauseId,
    /// Another literal of it.
    pub blocker: Lit,
    // Whether the clause has no other literals than the blocker and that of the list.
    pub(crate) binary: bool,
}

// The watches of a literal.
#[derive(Drop)]
pub(crate) struct WatchList {
    // The watches, in no order.
    watches: Vec<Watch>,
}

impl Model for WatchList {
    ghost use Rattle.std.specs.Prelude.{List};
    ghost use Rattle.watch_lists.specs.declared.lists.Watch.{Watch};

    ghost Value = { List Watch };

    ghost view = { λ l. l.watches.items };
}

impl WatchList {
    // The empty list.
    pub(crate) fn new(alloc: Global) -> WatchList
        ensures { result ≡ [] }
    {
        WatchList {
            watches: Vec::new(alloc),
        }
    }

    // The watches.
    pub(crate) fn as_slice(&self) -> &[Watch]
        ensures { result.now ≡ self.now }
    {
        self.watches.as_slice()
    }

    // Appends a watch. After `Memory` the list is as before.
    pub(crate) fn push(&mut self, watch: Watch) -> Result<(), Memory>
        ensures ok { OnOk result (self.new ≡ self.old ++ watch ∷ []) }
        ensures err { OnErr result (self.new ≡ self.old) }
    {
        // Most literals have few watches: the first block has room for two.
        if self.watches.is_empty() {
            self.watches.reserve_exact(2)?;
        }
        self.watches.push(watch)?;
        Ok(())
    }

    // Takes the last watch off.
    pub(crate) fn pop(&mut self)
        ensures { self.new ≡ take (length self.old - 1) self.old }
    {
        let len = self.watches.len();
        if len > 0 {
            self.watches.truncate(len - 1);
        }
    }

    // Takes the watches of a clause out.
    pub(crate) fn remove(&mut self, id: ClauseId)
        ensures { self.new ≡ filter (λ w. not (w.id == id)) self.old }
    {
        self.watches.retain(|watch| watch.id != id);
    }

    // Keeps the watches of the clauses of these ids.
    pub(crate) fn keep(&mut self, ids: &Marks)
        ensures { self.new ≡ filter (λ w. marked ids.now w.id) self.old }
    {
        self.watches.retain(|watch| ids.holds(watch.id));
    }

    // Exchanges the watches with those of a vector.
    pub(crate) fn exchange(&mut self, other: &mut Vec<Watch>)
        ensures mine { self.new ≡ other.old.items }
        ensures others { other.new.items ≡ self.old }
    {
        mem::swap(&mut self.watches, other);
    }
}
