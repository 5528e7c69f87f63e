//! What a propagator was told: the observed variables and the seen trail.
//!
//! A propagator is told each literal of an observed variable in the order of the trail, and in
//! its callbacks asks for the value, the level or the place of many variables. So each is found
//! by the variable's number, with one read of a table and one of the list: the table has the
//! place of each variable's literal.
//!
//! What the table has counts only where that place holds a literal of the variable (a sparse set:
//! Briggs and Torczon, "An efficient representation for sparse sets", 1993). So going back is one
//! cut of the list, and the table need not be cleared. The levels rise along the list, since each
//! literal is told at the current level and going back takes all above a level: what stays is the
//! front.
//!
//! `watch` takes the memory of all that can be told later: there is room for as many literals as
//! the table has places, and no variable stands twice. So the three notices themselves cannot
//! fail.
ghost use Rattle.std.specs.Prelude.{◌≡◌, ◌<◌, ◌≤◌, ◌+◌, ℕ, true, [], ◌∷◌, ◌++◌, length, None};
ghost use Rattle.std.specs.Prelude.{OnOk, OnErr, IsTrue, ◌↔◌};
ghost use Rattle.sat_terms.specs.Limits.{max_var};
ghost use Rattle.sat_terms.specs.Literal.{has, var_of};
ghost use Rattle.std.specs.Vec.{vec_capacity};
ghost use Rattle.flag_set.specs.Work.{IsPlaced};
ghost use Rattle.user_propagator.specs.Board.{nothing_noticed, seen_var, trail_value};
ghost use Rattle.user_propagator.specs.Board.{trail_entry, trail_place, with_var, within};
ghost use Rattle.user_propagator.specs.Board.{IsSeenTrail};
ghost use Rattle.user_propagator.specs.Noticing.{IsFront, Rises};

use crate::seen::Seen;
use flag_set::work::WorkList;
use sat_model::literal::{Lit, Var};
use sat_model::memory::Memory;
use std::alloc::Global;
use std::marker::Model;

// The observed variables and the seen trail. Contracts see them, and the current level.
#[derive(Drop)]
pub(crate) struct Notices {
    // The observed variables.
    observed: WorkList<Var>,
    // The literals that were told, oldest first.
    seen: Vec<Seen>,
    // For each number up to the greatest observed variable the place of the variable's literal.
    // What it has for a variable that was not told says nothing.
    places: Vec<u32>,
    // The current level.
    level: u32,
}

impl Model for Notices {
    ghost use Rattle.std.specs.Prelude.{vec_capacity};
    ghost use Rattle.user_propagator.specs.Board.{Noticed};
    ghost use Rattle.user_propagator.specs.Noticing.{AreNoticed};

    ghost Value = { Noticed };

    ghost view = { λ n. record {
      observed = n.observed.members;
      seen = n.seen.items;
      level = n.level;
    } };

    ghost invariant = { λ n.
        AreNoticed n.observed.members n.seen.items n.places.items (vec_capacity n.seen) n.level };
}

// How many entries stand at the front up to a level.
fn front_len(seen: &[Seen], level: u32) -> usize
    requires { Rises seen.now }
    ensures { IsFront seen.now level result }
{
    let mut end = seen.len();
    while end > 0 {
        if seen[end - 1].level <= level {
            return end;
        }
        end -= 1;
    }
    0
}

// Makes room for the place of a variable, and for as many entries as there are places then.
fn make_room(seen: &mut Vec<Seen>, places: &mut Vec<u32>, var: Var) -> Result<(), Memory>
    requires { IsPlaced seen_var seen.old.items places.old.items (vec_capacity seen.old) }
    ensures placed { IsPlaced seen_var seen.new.items places.new.items (vec_capacity seen.new) }
    ensures same { seen.new.items ≡ seen.old.items }
    ensures long { OnOk result (var < length places.new.items) }
    ensures longer { length places.old.items ≤ length places.new.items }
{
    let at = var.index() as usize;
    if at >= places.len() {
        seen.reserve(at + 1 - seen.len())?;
        places.resize(at + 1, 0)?;
    }
    Ok(())
}

impl Notices {
    // Nothing observed and nothing told. It takes no memory.
    pub(crate) fn new(alloc: Global) -> Notices
        ensures { result ≡ nothing_noticed }
    {
        Notices {
            observed: WorkList::new(alloc),
            seen: Vec::new(alloc),
            places: Vec::new(alloc),
            level: 0,
        }
    }

    // The shape of every seen trail. The call does nothing.
    pub(crate) fn law_shape(&self)
        ensures { IsSeenTrail self.now.observed self.now.seen self.now.level }
    {
        let _ = &self.seen;
    }

    // The current level.
    pub(crate) fn level(&self) -> u32
        ensures { result ≡ self.now.level }
    {
        self.level
    }

    // Whether a variable is observed.
    pub(crate) fn is_observed(&self, var: Var) -> bool
        ensures { result ≡ has self.now.observed var }
    {
        self.observed.has(var)
    }

    // Whether no variable is observed.
    pub(crate) fn is_idle(&self) -> bool
        ensures { IsTrue result ↔ (self.now.observed ≡ []) }
    {
        self.observed.as_slice().is_empty()
    }

    // The place of a variable's literal, if it was told.
    pub(crate) fn place_of(&self, var: Var) -> Option<u32>
        ensures { result ≡ trail_place self.now.seen var }
    {
        let at = var.index() as usize;
        if at >= self.places.len() {
            return None;
        }
        let place = self.places[at];
        if place as usize >= self.seen.len() {
            return None;
        }
        let here = self.seen[place as usize].lit.var() == var;
        if here { Some(place) } else { None }
    }

    // The literal of a variable, with its level, if it was told.
    pub(crate) fn entry_of(&self, var: Var) -> Option<Seen>
        ensures { result ≡ trail_entry self.now.seen var }
    {
        match self.place_of(var) {
            Some(place) => Some(self.seen[place as usize]),
            None => None,
        }
    }

    // The truth of a literal, if its variable was told.
    pub(crate) fn value(&self, lit: Lit) -> Option<bool>
        ensures { result ≡ trail_value self.now.seen lit }
    {
        match self.entry_of(lit.var()) {
            Some(entry) => Some(entry.lit == lit),
            None => None,
        }
    }

    // Observes a variable, and takes the memory of all that can be told of it. After `Memory` the
    // same variables are observed.
    pub(crate) fn watch(&mut self, var: Var) -> Result<(), Memory>
        ensures ok { OnOk result (self.new
            ≡ record self.old { observed = with_var self.old.observed var }) }
        ensures err { OnErr result (self.new ≡ self.old) }
    {
        make_room(&mut self.seen, &mut self.places, var)?;
        self.observed.reach(var)?;
        self.observed.put(var);
        Ok(())
    }

    // Appends a literal at the current level.
    pub(crate) fn put(&mut self, lit: Lit, decision: bool)
        requires observed { has self.old.observed (var_of lit) ≡ true }
        requires unseen { trail_value self.old.seen lit ≡ None }
        ensures { self.new ≡ record self.old {
          seen = self.old.seen
              ++ record { lit = lit; level = self.old.level; decision = decision } ∷ [];
        } }
    {
        let place = self.seen.len();
        let entry = Seen {
            lit,
            level: self.level,
            decision,
        };
        match self.seen.push(entry) {
            Ok(()) => {}
            Err(_) => unreachable!(),
        }
        self.places[lit.var().index() as usize] = place as u32;
    }

    // Opens a level.
    pub(crate) fn raise(&mut self)
        requires { self.old.level < max_var }
        ensures { self.new ≡ record self.old { level = self.old.level + 1 } }
    {
        self.level += 1;
    }

    // Goes back to a level.
    pub(crate) fn cut(&mut self, level: u32)
        requires { level ≤ self.old.level }
        ensures { self.new
            ≡ record self.old { seen = within level self.old.seen; level = level } }
    {
        let kept = front_len(&self.seen, level);
        self.seen.truncate(kept);
        self.level = level;
    }
}
