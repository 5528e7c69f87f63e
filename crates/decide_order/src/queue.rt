//! The queue of variables: the one bumped last comes first.
//!
//! It is a doubly linked ring, in which a bumped variable moves to the end, and a cursor from which
//! the next variable is looked for, towards older ones: all that were bumped later than the one at
//! the cursor have a value. So a bump and a step are constant, and what the cursor passes is not
//! looked at again until it loses its value: then the cursor goes to it if it is newer
//! (`put_ahead`). Each variable has a stamp, the time of its last bump, by which "newer" is one
//! comparison (VMTF, "variables moved to the front": Ryan 2004; the cursor and the stamps: Biere
//! and Fröhlich 2015).
//!
//! A stamp is never above 2^63 + 2^22: after 2^63 bumps the queue stands still, which no run
//! reaches.
ghost use Rattle.std.specs.Prelude.{◌≡◌, ◌≢◌, ◌<◌, ◌≤◌, ◌+◌, ◌^◌, ℕ, OnOk, MatchOption};
ghost use Rattle.sat_terms.specs.Limits.{max_var};
ghost use Rattle.decide_order.specs.Line.{at, IsAhead, KeepsAhead, IsNewest};

use crate::room::{reach_counts, reach_numbers};
use sat_model::literal::Var;
use sat_model::memory::Memory;
use std::alloc::Global;
use std::marker::Model;

// The stamp from which on bumps leave the queue as it is.
const LAST_STAMP: u64 = 0x8000_0000_0000_0000;

// The variables in the order of their last bump, and the place from which the next one is looked
// for, towards older ones.
#[derive(Drop)]
pub(crate) struct Queue {
    // For each variable the one bumped before it. In this table and the next one the place 0 stands
    // behind the newest and before the oldest.
    prevs: Vec<u32>,
    // For each variable the one bumped after it.
    nexts: Vec<u32>,
    // For each variable its stamp, the time of its last bump.
    stamps: Vec<u64>,
    // How many variables there are: those from 1 on.
    count: u32,
    // For how many places each table has memory; the place 0 is one.
    room: usize,
    // The greatest stamp that was given.
    last: u64,
    // The variable from which the next one is looked for, 0 where none is left.
    cursor: u32,
}

impl Model for Queue {
    ghost use Rattle.decide_order.specs.Line.{Line, IsQueue};

    ghost Value = { Line };

    ghost view = { λ q. record { count = q.count; room = q.room; cursor = q.cursor; stamps = q.stamps.items; last = q.last } };

    ghost invariant = { λ q. IsQueue q.prevs.items q.nexts.items q.stamps.items q.count q.room q.last q.cursor };
}

impl Queue {
    // The queue of no variables. It takes no memory.
    pub(crate) fn new(alloc: Global) -> Queue
        ensures { result.count ≡ 0 }
    {
        Queue {
            prevs: Vec::new(alloc),
            nexts: Vec::new(alloc),
            stamps: Vec::new(alloc),
            count: 0,
            room: 0,
            last: 0,
            cursor: 0,
        }
    }

    // How many variables there are: those from 1 on.
    pub(crate) fn count(&self) -> u32
        ensures { result ≡ self.now.count }
    {
        self.count
    }

    // Takes the memory for so many places. Nothing else changes.
    pub(crate) fn reach(&mut self, places: usize) -> Result<(), Memory>
        ensures room { OnOk result (places ≤ self.new.room) }
        ensures more { self.old.room ≤ self.new.room }
        ensures count { self.new.count ≡ self.old.count }
        ensures ahead { KeepsAhead self.old self.new }
    {
        reach_numbers(&mut self.prevs, places)?;
        reach_numbers(&mut self.nexts, places)?;
        reach_counts(&mut self.stamps, places)?;
        if self.room < places {
            self.room = places;
        }
        Ok(())
    }

    // The next variable comes in as the newest, and the search begins at it.
    pub(crate) fn append(&mut self)
        requires few { self.old.count < max_var }
        requires room { self.old.count + 1 < self.old.room }
        ensures count { self.new.count ≡ self.old.count + 1 }
        ensures room { self.new.room ≡ self.old.room }
        ensures ahead { (v : ℕ) → v ≤ self.new.count → IsAhead self.new v }
    {
        let var = self.count + 1;
        let at = var as usize;
        let newest = self.prevs[0];
        self.prevs[at] = newest;
        self.prevs[0] = var;
        self.nexts[newest as usize] = var;
        self.nexts[at] = 0;
        self.last += 1;
        self.stamps[at] = self.last;
        self.count = var;
        self.cursor = var;
    }

    // The variable at the cursor; `None` where the search is at its end.
    pub(crate) fn top(&self) -> Option<Var>
        ensures { MatchOption result (self.now.cursor ≡ 0) (λ v. v ≡ self.now.cursor) }
    {
        Var::new(self.cursor)
    }

    // Nothing is ahead at the end. The call does nothing.
    pub(crate) fn law_end(&self)
        ensures { self.now.cursor ≡ 0 → (v : ℕ) → 0 < v → IsAhead self.now v → v ≡ 0 }
    {
        let _count = self.count;
    }

    // The search leaves the variable at the cursor behind.
    pub(crate) fn pass(&mut self)
        requires { 0 < self.old.cursor }
        ensures count { self.new.count ≡ self.old.count }
        ensures room { self.new.room ≡ self.old.room }
        ensures ahead { (v : ℕ) → IsAhead self.old v → v ≢ self.old.cursor → IsAhead self.new v }
        ensures older { at self.new.stamps self.new.cursor < at self.old.stamps self.old.cursor }
        ensures stamps { self.new.stamps ≡ self.old.stamps }
    {
        self.cursor = self.prevs[self.cursor as usize];
    }

    // The search comes to a variable.
    pub(crate) fn put_ahead(&mut self, var: Var)
        requires { var ≤ self.old.count }
        ensures count { self.new.count ≡ self.old.count }
        ensures room { self.new.room ≡ self.old.room }
        ensures here { IsAhead self.new var }
        ensures ahead { KeepsAhead self.old self.new }
    {
        let number = var.index();
        let at = number as usize;
        if self.stamps[at] > self.stamps[self.cursor as usize] {
            self.cursor = number;
        }
    }

    // When a variable was bumped last.
    pub(crate) fn stamp(&self, var: Var) -> u64
        requires { var ≤ self.now.count }
    {
        self.stamps[var.index() as usize]
    }

    // A variable becomes the newest. If it was ahead, the search begins at it. Once stamps are used
    // up the queue stays as it is.
    pub(crate) fn bump(&mut self, var: Var)
        requires { var ≤ self.old.count }
        ensures newest { self.old.last < 2 ^ 63 → IsNewest self.old self.new var }
        ensures count { self.new.count ≡ self.old.count }
        ensures room { self.new.room ≡ self.old.room }
        ensures ahead { KeepsAhead self.old self.new }
    {
        let number = var.index();
        let at = number as usize;
        let after = self.nexts[at];
        if after == 0 || self.last >= LAST_STAMP {
            return;
        }
        let before = self.prevs[at];
        let newest = self.prevs[0];
        let was_ahead = self.stamps[at] <= self.stamps[self.cursor as usize];
        self.prevs[after as usize] = before;
        self.prevs[at] = newest;
        self.prevs[0] = number;
        self.nexts[before as usize] = after;
        self.nexts[newest as usize] = number;
        self.nexts[at] = 0;
        self.last += 1;
        self.stamps[at] = self.last;
        if was_ahead {
            self.cursor = number;
        }
    }
}
