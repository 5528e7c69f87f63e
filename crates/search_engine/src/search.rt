//! The search.
//!
//! A turn propagates (Davis, Logemann and Loveland 1962). Where a clause becomes false, the search
//! learns from it and goes back (conflict.rt). Else it decides: the assumptions come first, in
//! their order, and each that is not yet true is decided on a level of its own (Eén and Sörensson,
//! MiniSat, 2003). So where an assumption is false, all decisions are assumptions, and those that
//! made it false are a core. Once all of them are true, the order of decisions picks. Where every
//! variable has a value and no clause is false, the values are a model.
//!
//! The search ends since each turn lowers `measure` (specs/Turns.antt): the rank of the trail rises
//! at a decision, at a propagated literal and where a decision gives way to an implied literal, and
//! the policy allows only so many returns to the root.
ghost use Rattle.std.specs.Prelude.{◌≡◌, ◌≤◌, IfOk};
ghost use Rattle.sat_terms.specs.Limits.{max_number};
ghost use Rattle.theory_bridge.specs.Shown.{facing};
ghost use Rattle.lazy_reasons.specs.Idle.{IsIdle};
ghost use Rattle.search_engine.specs.Searching.{IsReady, Keeps, CountsFrom, FoundIs};
ghost use Rattle.search_engine.specs.Turns.{IsBetweenTurns, Passed, KeepsCount, TurnIs};

use crate::choice::choose;
use crate::conflict::{Turn, learn_from};
use crate::cursor::Cursor;
use crate::state::{Budget, Core, Found};
use sat_model::literal::Lit;
use sat_model::memory::Memory;
use std::alloc::Global;
use theory_bridge::bridge::Bridge;

// Propagates, and then learns from a false clause, or decides.
fn take_turn(
    alloc: Global,
    state: &mut Core,
    bridge: &mut Bridge,
    assumptions: &[Lit],
    cursor: &mut Cursor,
) -> Result<Turn, Memory>
    requires idle { IsIdle (facing meaning bridge.old) }
    requires stands { IsBetweenTurns assumptions.now state.old }
    requires passed { Passed assumptions.now state.old cursor.old }
    ensures idle { IsIdle (facing meaning bridge.new) }
    ensures callbacks { (facing meaning bridge.new).budget ≡ (facing meaning bridge.old).budget }
    ensures turn { IfOk result (TurnIs assumptions.now state.old state.new) }
    ensures keeps { Keeps state.old state.new }
    ensures budget { state.new.tally.budget ≡ state.old.tally.budget }
    ensures counts { KeepsCount state.old.tally state.new.tally }
    ensures passed { IfOk result (λ turn. Passed assumptions.now state.new cursor.new) }
{
    match state.watches.propagate(&state.store, &mut state.trail)? {
        Some(conflict) => {
            *cursor = Cursor::start();
            learn_from(alloc, state, bridge, assumptions, conflict)
        }
        None => choose(alloc, state, bridge, assumptions, cursor),
    }
}

/// Looks for a model of the stored clauses and of the assumptions, by conflict-driven search
/// (Marques Silva, Sakallah 1996; assumptions as in Eén, Sörensson, MiniSat 2003). It propagates,
/// learns from each false clause at the highest level of its literals, decides the assumptions in
/// order, and then decides what the order picks. It ends with a model once every variable has a
/// value.
///
/// The core must be ready for the assumptions, and its trail at the root. The propagator behind the
/// bridge must rule nothing out, and must have been told nothing: it is not called yet, and is so
/// afterwards too. `Sat` says that the core's model makes the firm clauses and the assumptions true;
/// its values are those of the trail, where all declared variables have one. `Unsat` has a core: some
/// of the assumptions, none twice, that no assignment which makes the stored clauses true makes true.
/// `Spent` comes only where as many conflicts were counted in this search as the budget says, below
/// 2^62. Whatever is answered, `Memory` too, the firm clauses stay, what was learned follows from the
/// clauses, the core stands (`pause` lays it to rest), and the tally's count is the rise of its total
/// in this search.
pub fn search(
    alloc: Global,
    state: &mut Core,
    bridge: &mut Bridge,
    assumptions: &[Lit],
    budget: Budget,
) -> Result<Found, Memory>
    requires idle { IsIdle (facing meaning bridge.old) }
    requires ready { IsReady assumptions.now state.old }
    requires root { state.old.trail.level ≡ 0 }
    requires budget { budget.conflicts ≤ max_number }
    ensures idle { IsIdle (facing meaning bridge.new) }
    ensures callbacks { (facing meaning bridge.new).budget ≡ budget.callbacks }
    ensures found { IfOk result (FoundIs assumptions.now state.old state.new) }
    ensures keeps { Keeps state.old state.new }
    ensures budget { state.new.tally.budget ≡ budget.conflicts }
    ensures counted { CountsFrom state.old.tally.total state.new.tally }
{
    // At the root nothing was decided, so no decision stands before an assumption.
    state.trail.law_shape();
    // The total is asked for its range alone: the rise is counted from a number up to 2^62.
    state.tally.total();
    state.tally.start(budget.conflicts);
    bridge.start(budget.callbacks);
    state.policy.start();
    state.order.stable(false);
    let mut cursor = Cursor::start();
    loop {
        match take_turn(alloc, state, bridge, assumptions, &mut cursor)? {
            Turn::Goes => {}
            Turn::Ends(found) => return Ok(found),
        }
    }
}
