//! The walk from a conflict to the first unique implication point.
//!
//! It starts with the literals of the false clause marked. The newest marked literal of the current
//! level is replaced by the rest of its reason, whose literals all stand earlier on the trail: so a
//! walk down the trail, place by place, meets every marked literal, and each one once. It ends
//! where one marked literal of the current level is left, at the decision that opened the level at
//! the latest, since all others of the level follow from it. That literal's negation is the
//! asserting literal; with the negations of the marked literals below the current level it makes
//! the learned clause. What was marked and is marked no more was resolved on, so the clause follows
//! from the stored ones (Marques Silva and Sakallah, GRASP, 1996; the first such point: Moskewicz,
//! Madigan, Zhao, Zhang and Malik, Chaff, 2001).
//!
//! Literals of the root are passed over: they follow from the stored clauses and from what the
//! theory admits.
//!
//! A literal that the theory implied has a reason too, for which the box is asked when the walk
//! comes to it. What the box admits may fall with each question, so the clauses that were resolved
//! on follow from what it admits now, whatever it admitted when they were met.
ghost use Rattle.std.specs.Prelude.{◌≡◌, ◌<◌, ◌≤◌, ◌+◌, ◌⊎◌, ◌==◌, ℕ, length, true, false, take, OnOk, IfOk, IfErr};
ghost use Rattle.sat_terms.specs.Literal.{has, neg, var_of};
ghost use Rattle.trail_state.specs.Trail.{true_on};
ghost use Rattle.theory_bridge.specs.Shown.{facing};
ghost use Rattle.theory_bridge.specs.Going.{Asked, Ended};
ghost use Rattle.lazy_reasons.specs.Facing.{IsReady, IsAskDue};
ghost use Rattle.rooted_trails.specs.Marks.{flag, Covered, Grows};
ghost use Rattle.conflict_analysis.specs.Walking.{marks_on, IsMarking, IsResolving, IsResolved};

use crate::levels::level_of;
use crate::scratch::Scratch;
use clause_store::store::Store;
use lazy_reasons::source::source_at;
use sat_model::literal::Lit;
use sat_model::memory::Memory;
use std::alloc::Global;
use theory_bridge::bridge::Bridge;
use theory_bridge::stop::AskStop;
use trail_state::trail::Trail;

impl Scratch {
    // Marks a literal that is false below a place, if its variable is not marked and stands above
    // the root.
    fn mark(&mut self, trail: &Trail, lit: Lit, below: usize) -> Result<(), Memory>
        requires within { below ≤ length trail.now.steps }
        requires marking { IsMarking trail.now below self.old }
        requires is_false { flag self.old.seen (var_of lit) ≡ false → true_on (take below trail.now.steps) (neg lit) ≡ true }
        ensures marking { OnOk result (IsMarking trail.now below self.new) }
        ensures grows { OnOk result (Grows self.old.seen self.new.seen) }
        ensures covered { OnOk result (true_on (take below trail.now.steps) (neg lit) ≡ true → Covered trail.now.steps (marks_on self.new.seen trail.now.steps) below lit) }
        ensures from { OnOk result ((l : ℕ) → has self.new.met l ≡ true → (has self.old.met l ≡ true) ⊎ (l ≡ lit)) }
    {
        trail.law_shape();
        trail.law_room();
        if self.is_marked(lit) {
            return Ok(());
        }
        let level = level_of(trail, lit);
        if level == 0 {
            return Ok(());
        }
        self.note(lit, level == trail.level())?;
        Ok(())
    }

    // Marks the literals of a clause that are false below a place. The others must be marked
    // already.
    pub(crate) fn mark_all(
        &mut self,
        trail: &Trail,
        clause: &[Lit],
        below: usize,
    ) -> Result<(), Memory>
        requires within { below ≤ length trail.now.steps }
        requires marking { IsMarking trail.now below self.old }
        requires are_false { (l : ℕ) → has clause.now l ≡ true → flag self.old.seen (var_of l) ≡ false → true_on (take below trail.now.steps) (neg l) ≡ true }
        ensures marking { OnOk result (IsMarking trail.now below self.new) }
        ensures grows { OnOk result (Grows self.old.seen self.new.seen) }
        ensures covered { OnOk result ((l : ℕ) → has clause.now l ≡ true → true_on (take below trail.now.steps) (neg l) ≡ true → Covered trail.now.steps (marks_on self.new.seen trail.now.steps) below l) }
        ensures from { OnOk result ((l : ℕ) → has self.new.met l ≡ true → (has self.old.met l ≡ true) ⊎ (has clause.now l ≡ true)) }
    {
        for lit in clause {
            self.mark(trail, *lit, below)?;
        }
        Ok(())
    }

    // Puts for the literal at a place, if it is marked, the other literals of its reason. The box may
    // be asked for that.
    fn resolve_at(
        &mut self,
        alloc: Global,
        store: &Store,
        trail: &Trail,
        bridge: &mut Bridge,
        place: usize,
    ) -> Result<(), AskStop>
        requires within { place < length trail.now.steps }
        requires ready { IsReady store.now trail.now.steps (facing meaning bridge.old) }
        requires resolving { IsResolving store.now (facing meaning bridge.old) trail.now (place + 1) self.old }
        requires more { flag (marks_on self.old.seen trail.now.steps) place ≡ true → 1 < self.old.count }
        ensures resolving { OnOk result (IsResolving store.now (facing meaning bridge.new) trail.now place self.new) }
        ensures asked { Asked 1 (facing meaning bridge.old) (facing meaning bridge.new) }
        ensures ended { Ended result (facing meaning bridge.old) (facing meaning bridge.new) }
        ensures due { IfErr result (λ e. IsAskDue e trail.now.steps) }
        ensures ready { IsReady store.now trail.now.steps (facing meaning bridge.new) }
    {
        trail.law_shape();
        if !self.is_marked_at(trail, place) {
            return Ok(());
        }
        self.drop_one();
        let reason = source_at(alloc, store, trail, bridge, place)?;
        // The literal itself stands in its reason too, and is marked already.
        self.mark_all(trail, reason.lits(store), place)?;
        Ok(())
    }

    // Whether the literal at a place is marked, and the last one that is to be resolved on.
    fn is_last(&self, trail: &Trail, place: usize) -> bool
        requires within { place < length trail.now.steps }
        requires wide { trail.now.declared < length self.now.seen }
        ensures yes { result ≡ true → (self.now.count ≤ 1) × (flag (marks_on self.now.seen trail.now.steps) place ≡ true) }
        ensures no { result ≡ false → flag (marks_on self.now.seen trail.now.steps) place ≡ true → 1 < self.now.count }
    {
        self.count() <= 1 && self.is_marked_at(trail, place)
    }

    // Whether the literal at a place is marked.
    fn is_marked_at(&self, trail: &Trail, place: usize) -> bool
        requires within { place < length trail.now.steps }
        requires wide { trail.now.declared < length self.now.seen }
        ensures { result ≡ flag (marks_on self.now.seen trail.now.steps) place }
    {
        trail.law_room();
        let lit = trail.lits()[place];
        self.is_marked(lit)
    }

    // Goes down the trail until one literal of the current level is left, and gives its place.
    pub(crate) fn find_uip(
        &mut self,
        alloc: Global,
        store: &Store,
        trail: &Trail,
        bridge: &mut Bridge,
    ) -> Result<usize, AskStop>
        requires ready { IsReady store.now trail.now.steps (facing meaning bridge.old) }
        requires resolving { IsResolving store.now (facing meaning bridge.old) trail.now (length trail.now.steps) self.old }
        ensures resolved { IfOk result (λ i. IsResolved store.now (facing meaning bridge.new) trail.now i self.new) }
        ensures asked { Asked (length trail.now.steps) (facing meaning bridge.old) (facing meaning bridge.new) }
        ensures ended { Ended result (facing meaning bridge.old) (facing meaning bridge.new) }
        ensures due { IfErr result (λ e. IsAskDue e trail.now.steps) }
        ensures ready { IsReady store.now trail.now.steps (facing meaning bridge.new) }
    {
        trail.law_shape();
        let mut place = trail.lits().len() - 1;
        'walk: while !self.is_last(trail, place) {
            self.resolve_at(alloc, store, trail, bridge, place)?;
            place -= 1;
        }
        Ok(place)
    }
}
