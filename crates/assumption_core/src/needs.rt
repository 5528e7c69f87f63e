//! What a core needs.
//!
//! The walk begins with what is false marked, and goes down the trail from the newest literal to
//! the first above the root. A marked literal that a clause implied gives its mark to the other
//! literals of that clause, which all stand earlier; a marked decision, which is an assumption,
//! keeps it. So at the end the marked decisions are assumptions that, with the clauses, made false
//! what was false at the start (the final analysis of MiniSat: Eén and Sörensson 2003). It is no
//! resolution to a first unique implication point: that stops at the current level, and here all
//! levels count.
//!
//! A literal that the theory implied has a reason too, for which the box is asked when the walk comes
//! to it. What the box admits may fall with each question, and what was blocked stays so.
ghost use Rattle.std.specs.Prelude.{◌≡◌, ◌<◌, ◌+◌, ℕ, Bool, Some, None, true, false, take, length, IfOk, IfErr, OnOk};
ghost use Rattle.sat_terms.specs.Literal.{has, neg};
ghost use Rattle.sat_terms.specs.Truth.{Assignment};
ghost use Rattle.trail_state.specs.Trail.{step, true_on};
ghost use Rattle.rooted_trails.specs.Rooted.{RootedUnder};
ghost use Rattle.theory_bridge.specs.Shown.{facing};
ghost use Rattle.theory_bridge.specs.Going.{Asked, Ended};
ghost use Rattle.lazy_reasons.specs.Facing.{IsReady, IsAskDue};
ghost use Rattle.rooted_trails.specs.Marks.{flag, AboveRoot, BlockedCore, Covered, Grows};
ghost use Rattle.assumption_core.specs.Core.{Both, Starts, asks, falsified_by};
ghost use Rattle.assumption_core.specs.Needs.{IsMarked, IsDecided, IsNeeded, Takes, HoldsNeeded};

use crate::cores::CoreStart;
use crate::places::{decided_at, place_above_root};
use clause_store::store::Store;
use lazy_reasons::source::source_at;
use rooted_trails::reading::is_decision;
use sat_model::lists::Lits;
use sat_model::literal::Lit;
use sat_model::memory::Memory;
use std::alloc::Global;
use theory_bridge::bridge::Bridge;
use theory_bridge::stop::AskStop;
use trail_state::trail::Trail;

// What a core needs: the falsified assumption, if there is one, and the decisions at the marked
// places of the trail. Before the walk back over the trail reaches a marked place of an implied
// literal, its mark stands for what implied it.
#[derive(Drop)]
pub(crate) struct Needs {
    // The assumption that is false, if the core is that of one.
    falsified: Option<Lit>,
    // At each place of the trail whether it is marked.
    places: Vec<bool>,
}

impl Needs {
    // Nothing is needed, over so many places.
    pub(crate) fn new(alloc: Global, len: usize) -> Result<Needs, Memory>
        ensures long { IfOk result (λ n. length n.places.items ≡ len) }
        ensures none { IfOk result (λ n. (j : ℕ) → flag n.places.items j ≡ false) }
        ensures no_literal { IfOk result (λ n. n.falsified ≡ None) }
    {
        Ok(Needs {
            falsified: None,
            places: vec![in alloc; false; len]?,
        })
    }

    // Marks the place of a literal's variable, if it has one above the root.
    fn mark(&mut self, trail: &Trail, lit: Lit)
        requires marked { IsMarked trail.now.steps self.old.places.items }
        ensures falsified { self.new.falsified ≡ self.old.falsified }
        ensures marked { IsMarked trail.now.steps self.new.places.items }
        ensures grows { Grows self.old.places.items self.new.places.items }
        ensures covered { (below : ℕ) → true_on (take below trail.now.steps) (neg lit) ≡ true → Covered trail.now.steps self.new.places.items below lit }
    {
        trail.law_shape();
        match place_above_root(trail, lit.var()) {
            Some(place) => {
                self.places[place] = true;
            }
            None => {}
        }
    }

    // Marks the places of a clause's variables that have one above the root.
    fn mark_all(&mut self, trail: &Trail, clause: &[Lit])
        requires marked { IsMarked trail.now.steps self.old.places.items }
        ensures falsified { self.new.falsified ≡ self.old.falsified }
        ensures marked { IsMarked trail.now.steps self.new.places.items }
        ensures grows { Grows self.old.places.items self.new.places.items }
        ensures covered { (l below : ℕ) → has clause.now l ≡ true → true_on (take below trail.now.steps) (neg l) ≡ true → Covered trail.now.steps self.new.places.items below l }
    {
        for lit in clause {
            self.mark(trail, *lit);
        }
    }

    // Needs what starts the core: the falsified assumption and what made it false, or what made the
    // clause false.
    pub(crate) fn start(
        &mut self,
        store: &Store,
        trail: &Trail,
        assumptions: &[Lit],
        start: CoreStart,
    )
        requires marked { IsMarked trail.now.steps self.old.places.items }
        requires no_literal { self.old.falsified ≡ None }
        requires start { Starts store.now trail.now.steps assumptions.now start }
        ensures falsified { self.new.falsified ≡ falsified_by start }
        ensures marked { IsMarked trail.now.steps self.new.places.items }
        ensures blocked { (admits : Assignment → Bool) → RootedUnder store.now admits trail.now.steps
            → BlockedCore (Both store.now admits (asks (falsified_by start))) trail.now.steps self.new.places.items (length trail.now.steps) }
    {
        trail.law_shape();
        match start {
            CoreStart::Falsified(lit) => {
                self.falsified = Some(lit);
                self.mark(trail, lit);
            }
            CoreStart::Conflict(id) => self.mark_all(trail, store.get(id)),
        }
    }

    // Marks what implied the literal at a place, if that is marked and no decision. The box may be
    // asked for that.
    fn resolve(
        &mut self,
        alloc: Global,
        store: &Store,
        trail: &Trail,
        bridge: &mut Bridge,
        place: usize,
    ) -> Result<(), AskStop>
        requires within { place < length trail.now.steps }
        requires ready { IsReady store.now trail.now.steps (facing meaning bridge.old) }
        requires marked { IsMarked trail.now.steps self.old.places.items }
        ensures falsified { self.new.falsified ≡ self.old.falsified }
        ensures marked { IsMarked trail.now.steps self.new.places.items }
        ensures blocked { OnOk result ((test : Assignment → Bool) → BlockedCore (Both store.now (facing meaning bridge.old).means.admits test) trail.now.steps self.old.places.items (place + 1)
            → BlockedCore (Both store.now (facing meaning bridge.new).means.admits test) trail.now.steps self.new.places.items place) }
        ensures asked { Asked 1 (facing meaning bridge.old) (facing meaning bridge.new) }
        ensures ended { Ended result (facing meaning bridge.old) (facing meaning bridge.new) }
        ensures due { IfErr result (λ e. IsAskDue e trail.now.steps) }
        ensures ready { IsReady store.now trail.now.steps (facing meaning bridge.new) }
    {
        trail.law_shape();
        if !self.places[place] {
            return Ok(());
        }
        if is_decision(trail, place) {
            return Ok(());
        }
        let reason = source_at(alloc, store, trail, bridge, place)?;
        self.mark_all(trail, reason.lits(store));
        Ok(())
    }

    // Walks back over the trail, until the marked decisions are what the conflict comes from.
    pub(crate) fn trace_back(
        &mut self,
        alloc: Global,
        store: &Store,
        trail: &Trail,
        bridge: &mut Bridge,
    ) -> Result<(), AskStop>
        requires ready { IsReady store.now trail.now.steps (facing meaning bridge.old) }
        requires marked { IsMarked trail.now.steps self.old.places.items }
        ensures falsified { OnOk result (self.new.falsified ≡ self.old.falsified) }
        ensures marked { OnOk result (IsMarked trail.now.steps self.new.places.items) }
        ensures blocked { OnOk result ((test : Assignment → Bool) → BlockedCore (Both store.now (facing meaning bridge.old).means.admits test) trail.now.steps self.old.places.items (length trail.now.steps)
            → BlockedCore (Both store.now (facing meaning bridge.new).means.admits test) trail.now.steps self.new.places.items 0) }
        ensures asked { Asked (length trail.now.steps) (facing meaning bridge.old) (facing meaning bridge.new) }
        ensures ended { Ended result (facing meaning bridge.old) (facing meaning bridge.new) }
        ensures due { IfErr result (λ e. IsAskDue e trail.now.steps) }
        ensures ready { IsReady store.now trail.now.steps (facing meaning bridge.new) }
    {
        // What stands at the root is never marked, since it follows from what is known.
        let end = trail.start_of(1) as usize;
        let mut place = trail.lits().len();
        'walk: while place > end {
            place -= 1;
            self.resolve(alloc, store, trail, bridge, place)?;
        }
        Ok(())
    }

    // Whether a literal is the falsified one; it is so no more.
    fn take_falsified(&mut self, lit: Lit) -> bool
        ensures places { self.new.places.items ≡ self.old.places.items }
        ensures takes { Takes (λ l. self.old.falsified ≡ Some l) (λ l. self.new.falsified ≡ Some l) lit result }
    {
        match self.falsified {
            Some(other) => {
                if other != lit {
                    return false;
                }
            }
            None => return false,
        }
        self.falsified = None;
        true
    }

    // Whether a literal is a marked decision; it is so no more.
    fn take_decided(&mut self, trail: &Trail, lit: Lit) -> bool
        requires marked { IsMarked trail.now.steps self.old.places.items }
        ensures falsified { self.new.falsified ≡ self.old.falsified }
        ensures marked { IsMarked trail.now.steps self.new.places.items }
        ensures takes { Takes (IsDecided trail.now.steps self.old.places.items) (IsDecided trail.now.steps self.new.places.items) lit result }
    {
        trail.law_shape();
        let place = match decided_at(trail, lit) {
            Some(place) => place,
            None => return false,
        };
        if !self.places[place] {
            return false;
        }
        self.places[place] = false;
        true
    }

    // Whether a literal is needed; it is so no more.
    fn take(&mut self, trail: &Trail, lit: Lit) -> bool
        requires marked { IsMarked trail.now.steps self.old.places.items }
        ensures marked { IsMarked trail.now.steps self.new.places.items }
        ensures takes { Takes (IsNeeded trail.now.steps self.old.falsified self.old.places.items) (IsNeeded trail.now.steps self.new.falsified self.new.places.items) lit result }
    {
        let falsified = self.take_falsified(lit);
        let decided = self.take_decided(trail, lit);
        falsified || decided
    }

    // The needed assumptions, each once, in their order.
    pub(crate) fn collect(
        &mut self,
        alloc: Global,
        trail: &Trail,
        assumptions: &[Lit],
    ) -> Result<Lits, Memory>
        requires marked { IsMarked trail.now.steps self.old.places.items }
        ensures { IfOk result (λ core. HoldsNeeded (IsNeeded trail.now.steps self.old.falsified self.old.places.items) assumptions.now core) }
    {
        let mut core = Lits::new(alloc);
        for lit in assumptions {
            if self.take(trail, *lit) {
                core.push(*lit)?;
            }
        }
        Ok(core)
    }
}
