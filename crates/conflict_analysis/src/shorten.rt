//! Shortening the learned clause.
//!
//! Some literals of a learned clause say nothing: where the others are false, so are they. A
//! literal below the current level follows from the others where the other literals of its reason
//! are in the clause too, stand at the root, or follow in the same way. Without such literals the
//! clause is stronger, and still implied: going up the trail, each dropped literal is false by its
//! reason once the kept ones are (Sörensson and Biere, Minimizing learned clauses, 2009).
//!
//! The marks of the analysis say what is in the clause, so whatever follows from marked literals
//! may be marked too. For each literal of the clause a path is kept: the literal, a literal of its
//! reason that is not marked, one of that one's reason, and so on. Where all of a reason is marked
//! or at the root, the literal is marked and leaves the path. At a decision, or at a literal that
//! was found needed before, the path ends, and all that is on it is needed. So each literal is
//! looked at about once in an analysis. Afterwards the literals of the clause whose whole reason is
//! marked go. The path's length is no depth of calls, and the steps for one literal are bounded.
//!
//! A literal of the current level never helps: it is later on the trail than the reasons here. What
//! the theory implied is kept as a decision is, since its reason would have to be asked for. Not
//! done: the levels of the clause as an early end of a path, and putting one literal for all of a
//! level (shrinking, Fleury and Biere 2021).
ghost use Rattle.std.specs.Prelude.{◌≡◌, ◌≢◌, ◌<◌, ◌≤◌, ◌⊎◌, ℕ, length, true, OnOk, IfSome};
ghost use Rattle.sat_terms.specs.Literal.{has, var_of};
ghost use Rattle.trail_state.specs.Trail.{step};
ghost use Rattle.trail_state.specs.Clauses.{IsReason};
ghost use Rattle.rooted_trails.specs.Known.{everything, Known};
ghost use Rattle.rooted_trails.specs.Rooted.{HasReasons, by_clause};
ghost use Rattle.rooted_trails.specs.Marks.{flag, Covered};
ghost use Rattle.conflict_analysis.specs.Learning.{lit_level};
ghost use Rattle.conflict_analysis.specs.Walking.{marks_on, Follows, KeepsResolved};

use crate::levels::level_of;
use crate::scratch::{Scratch, Visit};
use clause_store::store::Store;
use rooted_trails::reading::{is_by_clause, reason_at};
use sat_model::literal::Lit;
use sat_model::memory::Memory;
use trail_state::trail::Trail;

// The most steps on the path that begins at one literal of the clause.
const MOST_STEPS: usize = 10_000;

// The place of a literal's variable, if it has one above the root and below the current level, and
// a clause implied it.
fn implied_place(trail: &Trail, lit: Lit) -> Option<usize>
    ensures within { IfSome result (λ k. k < length trail.now.steps) }
    ensures same { IfSome result (λ k. var_of (step trail.now.steps k).lit ≡ var_of lit) }
    ensures above { IfSome result (λ k. 0 < (step trail.now.steps k).level) }
    ensures below { IfSome result (λ k. (step trail.now.steps k).level < trail.now.level) }
    ensures clause { IfSome result (λ k. by_clause (step trail.now.steps k).reason ≡ true) }
{
    trail.law_shape();
    let place = trail.place_of(lit.var())?;
    let level = trail.level_at(place);
    if level == 0 || level >= trail.level() || !is_by_clause(trail, place as usize) {
        None
    } else {
        Some(place as usize)
    }
}

impl Scratch {
    // Whether a literal of a reason is the implied one, is marked, or stands at the root.
    fn is_covered(&self, trail: &Trail, lit: Lit, own: Lit) -> bool
        requires { var_of lit < length self.now.seen }
        ensures { result ≡ true → (lit ≡ own) ⊎ ((flag self.now.seen (var_of lit) ≡ true) ⊎ (lit_level trail.now.steps lit ≡ 0)) }
    {
        if lit == own || self.is_marked(lit) {
            return true;
        }
        level_of(trail, lit) == 0
    }

    // Whether the other literals of a place's reason are marked, or stand at the root.
    fn covers(&self, trail: &Trail, reason: &[Lit], place: usize) -> bool
        requires wide { trail.now.declared < length self.now.seen }
        requires within { place < length trail.now.steps }
        requires reason { IsReason reason.now trail.now.steps place }
        ensures { result ≡ true → (l : ℕ) → has reason.now l ≡ true → l ≢ (step trail.now.steps place).lit → Covered trail.now.steps (marks_on self.now.seen trail.now.steps) place l }
    {
        trail.law_shape();
        trail.law_room();
        let own = trail.lits()[place];
        for lit in reason {
            if !self.is_covered(trail, *lit, own) {
                return false;
            }
        }
        true
    }

    // Whether a literal follows from marked ones by its reason.
    fn is_spare(&self, store: &Store, trail: &Trail, lit: Lit) -> bool
        requires wide { trail.now.declared < length self.now.seen }
        requires reasons { HasReasons store.now trail.now.steps }
        ensures { result ≡ true → Follows (Known store.now everything) trail.now.steps trail.now.level (marks_on self.now.seen trail.now.steps) lit }
    {
        match implied_place(trail, lit) {
            Some(place) => self.covers(trail, reason_at(store, trail, place), place),
            None => false,
        }
    }

    // The next literal of a literal's reason, from a place on, that is neither marked nor at the
    // root, with the place after it.
    fn next_open(&self, store: &Store, trail: &Trail, lit: Lit, start: usize) -> Option<Visit>
        requires wide { trail.now.declared < length self.now.seen }
        requires reasons { HasReasons store.now trail.now.steps }
    {
        let place = implied_place(trail, lit)?;
        self.open_from(trail, reason_at(store, trail, place), place, start)
    }

    // The same, in a reason that is given.
    fn open_from(&self, trail: &Trail, reason: &[Lit], place: usize, start: usize) -> Option<Visit>
        requires wide { trail.now.declared < length self.now.seen }
        requires within { place < length trail.now.steps }
        requires reason { IsReason reason.now trail.now.steps place }
    {
        trail.law_shape();
        trail.law_room();
        let own = trail.lits()[place];
        let mut next = start;
        while next < reason.len() {
            let lit = reason[next];
            next += 1;
            if !self.is_covered(trail, lit, own) {
                return Some(Visit { lit, next });
            }
        }
        None
    }

    // Marks a literal that follows from marked ones.
    fn settle(&mut self, store: &Store, trail: &Trail, uip: usize, lit: Lit) -> Result<(), Memory>
        requires wide { trail.now.declared < length self.old.seen }
        requires follows { Follows (Known store.now everything) trail.now.steps trail.now.level (marks_on self.old.seen trail.now.steps) lit }
        ensures resolved { OnOk result (KeepsResolved store.now trail.now uip self.old self.new) }
        ensures wide { OnOk result (trail.now.declared < length self.new.seen) }
        ensures lits { OnOk result (self.new.lits ≡ self.old.lits) }
    {
        trail.law_shape();
        trail.law_room();
        if self.is_marked(lit) {
            return Ok(());
        }
        self.note_spare(lit)?;
        Ok(())
    }

    // All of the reason was looked at: where the literal follows it is marked, and where it does not
    // all of the path is needed. Says whether the walk goes on.
    fn end_visit(
        &mut self,
        store: &Store,
        trail: &Trail,
        uip: usize,
        lit: Lit,
    ) -> Result<bool, Memory>
        requires reasons { HasReasons store.now trail.now.steps }
        requires wide { trail.now.declared < length self.old.seen }
        ensures resolved { OnOk result (KeepsResolved store.now trail.now uip self.old self.new) }
        ensures wide { OnOk result (trail.now.declared < length self.new.seen) }
        ensures lits { OnOk result (self.new.lits ≡ self.old.lits) }
    {
        if self.is_spare(store, trail, lit) {
            self.settle(store, trail, uip, lit)?;
            return Ok(true);
        }
        self.enter(lit, 0)?;
        self.give_up()?;
        Ok(false)
    }

    // The walk goes on at a literal of the reason of the path's last one.
    fn go_on(&mut self, last: Lit, next: usize, open: Lit) -> Result<bool, Memory>
        ensures { OnOk result (self.new ≡ self.old) }
    {
        self.enter(last, next)?;
        self.enter(open, 0)?;
        if self.is_needed(open) {
            self.give_up()?;
        }
        Ok(true)
    }

    // One step of the walk at the last literal of the path, and whether the walk goes on.
    fn visit(
        &mut self,
        store: &Store,
        trail: &Trail,
        uip: usize,
        lit: Lit,
        start: usize,
    ) -> Result<bool, Memory>
        requires reasons { HasReasons store.now trail.now.steps }
        requires wide { trail.now.declared < length self.old.seen }
        ensures resolved { OnOk result (KeepsResolved store.now trail.now uip self.old self.new) }
        ensures wide { OnOk result (trail.now.declared < length self.new.seen) }
        ensures lits { OnOk result (self.new.lits ≡ self.old.lits) }
    {
        match self.next_open(store, trail, lit, start) {
            Some(open) => self.go_on(lit, open.next, open.lit),
            None => self.end_visit(store, trail, uip, lit),
        }
    }

    // One step of the walk, and whether it goes on.
    fn advance(&mut self, store: &Store, trail: &Trail, uip: usize) -> Result<bool, Memory>
        requires reasons { HasReasons store.now trail.now.steps }
        requires wide { trail.now.declared < length self.old.seen }
        ensures resolved { OnOk result (KeepsResolved store.now trail.now uip self.old self.new) }
        ensures wide { OnOk result (trail.now.declared < length self.new.seen) }
        ensures lits { OnOk result (self.new.lits ≡ self.old.lits) }
    {
        match self.leave() {
            Some(last) => self.visit(store, trail, uip, last.lit, last.next),
            None => Ok(false),
        }
    }

    // Marks what must be marked to see that a literal follows, if it does.
    fn follow(&mut self, store: &Store, trail: &Trail, uip: usize, lit: Lit) -> Result<(), Memory>
        requires reasons { HasReasons store.now trail.now.steps }
        requires wide { trail.now.declared < length self.old.seen }
        ensures resolved { OnOk result (KeepsResolved store.now trail.now uip self.old self.new) }
        ensures wide { OnOk result (trail.now.declared < length self.new.seen) }
        ensures lits { OnOk result (self.new.lits ≡ self.old.lits) }
    {
        self.start_path();
        self.enter(lit, 0)?;
        for _ in 0..MOST_STEPS {
            if !self.advance(store, trail, uip)? {
                return Ok(());
            }
        }
        Ok(())
    }

    // Marks what must be marked to see which literals of the clause follow from others.
    fn mark_spare(&mut self, store: &Store, trail: &Trail, uip: usize) -> Result<(), Memory>
        requires reasons { HasReasons store.now trail.now.steps }
        requires wide { trail.now.declared < length self.old.seen }
        ensures resolved { OnOk result (KeepsResolved store.now trail.now uip self.old self.new) }
        ensures wide { OnOk result (trail.now.declared < length self.new.seen) }
    {
        for index in 0..self.learned().len() {
            let lit = self.learned()[index];
            self.follow(store, trail, uip, lit)?;
        }
        Ok(())
    }

    // Drops a literal of the clause if it follows from marked ones.
    fn drop_spare(&mut self, store: &Store, trail: &Trail, uip: usize, index: usize)
        requires within { index < length self.old.lits }
        requires reasons { HasReasons store.now trail.now.steps }
        requires wide { trail.now.declared < length self.old.seen }
        ensures resolved { KeepsResolved store.now trail.now uip self.old self.new }
        ensures wide { trail.now.declared < length self.new.seen }
        ensures long { index ≤ length self.new.lits }
    {
        trail.law_shape();
        let lit = self.learned()[index];
        if !self.is_spare(store, trail, lit) {
            return;
        }
        self.drop_lit(index);
    }

    // Drops the literals of the clause that follow from others in it.
    pub(crate) fn shorten(&mut self, store: &Store, trail: &Trail, uip: usize) -> Result<(), Memory>
        requires reasons { HasReasons store.now trail.now.steps }
        requires wide { trail.now.declared < length self.old.seen }
        ensures resolved { OnOk result (KeepsResolved store.now trail.now uip self.old self.new) }
        ensures wide { OnOk result (trail.now.declared < length self.new.seen) }
    {
        self.mark_spare(store, trail, uip)?;
        let mut index = self.learned().len();
        'lits: while index > 0 {
            index -= 1;
            self.drop_spare(store, trail, uip, index);
        }
        Ok(())
    }
}
