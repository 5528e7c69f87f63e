//! Turns that begin with nothing left to propagate: an assumption, a decision, or a model.
//!
//! Assumptions are decided before all else, in the order of the query, each on a level of its own
//! (Eén and Sörensson, MiniSat, 2003); one that is true already needs no level. So while an
//! assumption is not true, every decision on the trail is one. Where it is false, the decisions
//! that its falsity stands on are assumptions too: they and it are the core. A cursor remembers how
//! far they are true, so that they are passed once between two conflicts.
//!
//! Behind them the order of decisions picks: in a focused half the variable that was bumped last,
//! in a stable half the one of the greatest score, in its saved phase. Where it has none left,
//! every variable has a value. No clause is false then, so each has a true literal, and the values
//! are a model. Firm clauses are not looked at for that.
ghost use Rattle.std.specs.Prelude.{◌≡◌, ◌<◌, ◌≤◌, ℕ, true, false, List, length, take, Option, None, IsSome, IfOk, IfSome, IfNone};
ghost use Rattle.sat_terms.specs.Literal.{has, pos_lit, var_of};
ghost use Rattle.clause_store.specs.Stored.{Stored};
ghost use Rattle.trail_state.specs.Trail.{true_on, value_on};
ghost use Rattle.rooted_trails.specs.Rooted.{Rooted};
ghost use Rattle.watch_lists.specs.Propagation.{AllQuiet};
ghost use Rattle.theory_bridge.specs.Shown.{facing};
ghost use Rattle.lazy_reasons.specs.Idle.{IsIdle};
ghost use Rattle.search_engine.specs.Searching.{clauses, Keeps, Shows};
ghost use Rattle.search_engine.specs.Turns.{AllOn, IsBetweenTurns, Passed, TurnIs};

use crate::clausal::core_clausal;
use crate::conflict::Turn;
use crate::cursor::Cursor;
use crate::state::{Core, Found};
use assumption_core::cores::CoreStart;
use sat_model::literal::Lit;
use sat_model::memory::Memory;
use std::alloc::Global;
use theory_bridge::bridge::Bridge;
use trail_state::trail::Trail;

// The first assumption that is not true.
fn next_assumption(trail: &Trail, assumptions: &[Lit], cursor: &mut Cursor) -> Option<Lit>
    requires { AllOn trail.now.steps (take cursor.old.assumption assumptions.now) }
    ensures passed { AllOn trail.now.steps (take cursor.new.assumption assumptions.now) }
    ensures found { IfSome result (λ l. (has assumptions.now l ≡ true) × (true_on trail.now.steps l ≡ false)) }
    ensures none { IfNone result (AllOn trail.now.steps assumptions.now) }
{
    while cursor.assumption < assumptions.len() {
        let lit = assumptions[cursor.assumption];
        if trail.value(lit) != Some(true) {
            return Some(lit);
        }
        cursor.assumption += 1;
    }
    None
}

// Writes the values of the trail into the model.
fn show(trail: &Trail, model: &mut [bool])
    requires { trail.now.declared ≤ length model.old }
    ensures size { length model.new ≡ length model.old }
    ensures shown { Shows model.new trail.now.steps }
{
    // Each variable of the trail is declared, so it has its place in the model.
    trail.law_room();
    model.fill(false);
    for lit in trail.lits() {
        if lit.is_positive() {
            model[lit.var().index() as usize - 1] = true;
        }
    }
}

// Decides an assumption that is not true, or finds the core where it is false.
fn assume(
    alloc: Global,
    state: &mut Core,
    bridge: &mut Bridge,
    assumptions: &[Lit],
    lit: Lit,
) -> Result<Turn, Memory>
    requires idle { IsIdle (facing meaning bridge.old) }
    requires stands { IsBetweenTurns assumptions.now state.old }
    requires assumed { has assumptions.now lit ≡ true }
    requires untrue { true_on state.old.trail.steps lit ≡ false }
    ensures idle { IsIdle (facing meaning bridge.new) }
    ensures callbacks { (facing meaning bridge.new).budget ≡ (facing meaning bridge.old).budget }
    ensures turn { IfOk result (TurnIs assumptions.now state.old state.new) }
    ensures keeps { Keeps state.old state.new }
    ensures passed { (cursor : Cursor) → Passed assumptions.now state.old cursor → Passed assumptions.now state.new cursor }
    ensures tally { state.new.tally ≡ state.old.tally }
{
    // The lists follow the trail with the decision too.
    state.watches.law_following();
    if state.trail.value(lit).is_none() {
        state.trail.decide(lit);
        // The measure counts as many places as variables are declared: the trail fits there.
        state.trail.law_room();
        return Ok(Turn::Goes);
    }
    let start = CoreStart::Falsified(lit);
    let failed = core_clausal(
        alloc,
        state.store(),
        &state.trail,
        bridge,
        assumptions,
        start,
    )?;
    Ok(Turn::Ends(Found::Unsat(failed)))
}

// Decides what the order picks. Where every variable has a value, it shows the model.
fn decide(state: &mut Core, assumptions: &[Lit]) -> Turn
    requires stands { IsBetweenTurns assumptions.now state.old }
    requires quiet { AllQuiet state.old.watches.attached (clauses state.old) state.old.trail.steps }
    requires assumed { AllOn state.old.trail.steps assumptions.now }
    ensures turn { TurnIs assumptions.now state.old state.new result }
    ensures keeps { Keeps state.old state.new }
    ensures tally { state.new.tally ≡ state.old.tally }
    ensures passed { (cursor : Cursor) → Passed assumptions.now state.old cursor → Passed assumptions.now state.new cursor }
{
    let _ = assumptions;
    // The lists follow the trail with the decision too.
    state.watches.law_following();
    match state.order.pick(&state.trail) {
        Some(lit) => {
            state.trail.decide(lit);
            // The measure counts as many places as variables are declared: the trail fits there.
            state.trail.law_room();
            Turn::Goes
        }
        None => {
            // No variable stands twice on the trail, so the model shows the value of each.
            state.trail.law_shape();
            show(&state.trail, state.model.as_mut_slice());
            Turn::Ends(Found::Sat)
        }
    }
}

// Decides the first assumption that is not true, or what the order picks. The search ends where an
// assumption is false, or where the assumptions are true and every variable has a value.
pub(crate) fn choose(
    alloc: Global,
    state: &mut Core,
    bridge: &mut Bridge,
    assumptions: &[Lit],
    cursor: &mut Cursor,
) -> Result<Turn, Memory>
    requires idle { IsIdle (facing meaning bridge.old) }
    requires stands { IsBetweenTurns assumptions.now state.old }
    requires quiet { AllQuiet state.old.watches.attached (clauses state.old) state.old.trail.steps }
    requires passed { Passed assumptions.now state.old cursor.old }
    ensures idle { IsIdle (facing meaning bridge.new) }
    ensures callbacks { (facing meaning bridge.new).budget ≡ (facing meaning bridge.old).budget }
    ensures turn { IfOk result (TurnIs assumptions.now state.old state.new) }
    ensures keeps { Keeps state.old state.new }
    ensures tally { state.new.tally ≡ state.old.tally }
    ensures passed { IfOk result (λ turn. Passed assumptions.now state.new cursor.new) }
{
    match next_assumption(&state.trail, assumptions, cursor) {
        Some(lit) => assume(alloc, state, bridge, assumptions, lit),
        None => Ok(decide(state, assumptions)),
    }
}
