//! Turns that begin with a false clause.
//!
//! A false clause may be false already below the current level, so the search first goes back to
//! the highest level of its literals. There it is analysed: what is learned is false too, and of
//! its literals one alone has the current level. The search goes back to the highest level of the
//! others, where the learned clause is unit, and the literal is assigned with that clause as its
//! reason (Marques Silva and Sakallah, GRASP, 1996). So a decision and all behind it give way to
//! one implied literal, which raises the rank of the trail. A clause that is false at the root says
//! that there is no model, whatever is assumed.
//!
//! Between two conflicts the policy asks at most once to go back to the root: for a restart in a
//! focused half, which comes where recent glues are high (Biere and Fröhlich, Evaluating CDCL
//! restart schemes, 2015), and once where a half ends. CaDiCaL alternates such halves: focused ones
//! decide what was bumped last and restart often, stable ones decide by score and do not restart.
//! Each of these returns uses up something that the policy has only so much of, so the search ends.
//! A reduction may follow, at the same place, since no clause is looked at there.
ghost use Rattle.std.specs.Prelude.{◌≡◌, ◌<◌, ◌≤◌, ◌||◌, ◌==◌, ℕ, true, false, IfOk, OnOk, OnErr, IsSome};
ghost use Rattle.sat_terms.specs.Literal.{has};
ghost use Rattle.sat_terms.specs.Normal.{IsNormal};
ghost use Rattle.sat_terms.specs.Answer.{Within};
ghost use Rattle.sat_terms.specs.Truth.{Implies};
ghost use Rattle.clause_store.specs.declared.stored.Keep.TheVariants.{Redundant};
ghost use Rattle.clause_store.specs.Stored.{slot, slot_lits, Fills, SameSlots};
ghost use Rattle.trail_state.specs.Trail.{Trace};
ghost use Rattle.trail_state.specs.Clauses.{FalseOn};
ghost use Rattle.rooted_trails.specs.Known.{everything, Known};
ghost use Rattle.watch_lists.specs.Propagation.{Follows};
ghost use Rattle.conflict_analysis.specs.Learning.{Owes};
ghost use Rattle.decide_order.specs.Ordering.{SameVars, KeepsFollowing};
ghost use Rattle.search_policy.specs.Plan.{restarts_left};
ghost use Rattle.theory_bridge.specs.Shown.{facing};
ghost use Rattle.lazy_reasons.specs.Idle.{IsIdle};
ghost use Rattle.search_engine.specs.Searching.{clauses, AttachesLive, IsReady, Keeps};
ghost use Rattle.search_engine.specs.Turns.{AssumesFirst, IsBetweenTurns, Jumped, KeepsCount, TurnIs};

use crate::clausal::learn_clausal;
use crate::forgetting::reduce;
use crate::state::{Core, Found, Spent};
use clause_store::store::Store;
use clause_store::stored::Keep;
use conflict_analysis::analysis::{AnalyzeStop, Learned};
use conflict_analysis::levels::highest;
use decide_order::order::Order;
use sat_model::lists::{ClauseId, Lits};
use sat_model::literal::Lit;
use sat_model::memory::Memory;
use search_policy::policy::Policy;
use std::alloc::Global;
use theory_bridge::bridge::Bridge;
use trail_state::reason::Reason;
use watch_lists::watches::Watches;

/// How a turn of a search ends.
#[derive(Drop)]
pub(crate) enum Turn {
    /// The search goes on.
    Goes,
    /// It has found this.
    Ends(Found),
}

// Counts a conflict, and bumps the variables that its analysis met. Answers whether the search is
// to go back to the root: for a restart, or since the other half of a phase begins.
fn count(policy: &mut Policy, order: &mut Order, met: &[Lit], glue: u32) -> bool
    ensures same { SameVars order.old order.new }
    ensures follows { KeepsFollowing order.old order.new }
    ensures left { restarts_left policy.new ≤ restarts_left policy.old }
    ensures back { result ≡ true → restarts_left policy.new < restarts_left policy.old }
{
    let was_stable = policy.is_stable();
    policy.on_conflict(glue);
    order.bump_all(met);
    order.next_conflict();
    // The order changes last: the conflict bumps what decides in the half to which it belongs.
    let stable = policy.is_stable();
    order.stable(stable);
    let turned = stable != was_stable;
    policy.wants_restart() || turned
}

// Goes back to the highest level of a false clause, learns from it there, and assigns what that
// asserts. Where the clause is false at the root, no assignment makes the stored clauses true.
pub(crate) fn learn_from(
    alloc: Global,
    state: &mut Core,
    bridge: &mut Bridge,
    assumptions: &[Lit],
    conflict: ClauseId,
) -> Result<Turn, Memory>
    requires idle { IsIdle (facing meaning bridge.old) }
    requires stands { IsBetweenTurns assumptions.now state.old }
    requires live { IsSome (slot (clauses state.old) conflict) }
    requires is_false { FalseOn state.old.trail.steps (slot_lits (slot (clauses state.old) conflict)) }
    ensures idle { IsIdle (facing meaning bridge.new) }
    ensures callbacks { (facing meaning bridge.new).budget ≡ (facing meaning bridge.old).budget }
    ensures turn { IfOk result (TurnIs assumptions.now state.old state.new) }
    ensures keeps { Keeps state.old state.new }
    ensures budget { state.new.tally.budget ≡ state.old.tally.budget }
    ensures counts { KeepsCount state.old.tally state.new.tally }
{
    // Levels rise along the trail, and no variable stands on it twice.
    state.trail.law_shape();
    // A propagated clause may be false already below the current level.
    let top = highest(&state.trail, state.store.get(conflict));
    let at_root = top == 0;
    if at_root {
        return Ok(Turn::Ends(Found::Unsat(Lits::new(alloc))));
    }
    state.order.back_to(&mut state.trail, top);
    // The trail after going back: its variables are declared, and its shape is that of every trail.
    state.trail.law_room();
    state.watches.cut(&state.trail);
    state.trail.law_shape();
    let answer = learn_clausal(
        alloc,
        &state.store,
        &state.trail,
        bridge,
        &mut state.scratch,
        &mut state.tally,
        conflict,
    );
    match answer {
        Ok(learned) => {
            let back = count(
                &mut state.policy,
                &mut state.order,
                state.scratch.met(),
                learned.glue,
            );
            assert_learned(state, assumptions, learned)?;
            // The measure counts as many places as variables are declared: the trail fits there.
            state.trail.law_room();
            restart(state, assumptions, back);
            reduce(state, assumptions)?;
            Ok(Turn::Goes)
        }
        Err(AnalyzeStop::Conflicts(n)) => Ok(Turn::Ends(Found::Spent(Spent::Conflicts(n)))),
        Err(AnalyzeStop::Callbacks(_)) => unreachable!(),
        Err(AnalyzeStop::Memory) => Err(Memory),
    }
}

// Goes back to the root, if the search is to.
fn restart(state: &mut Core, assumptions: &[Lit], wanted: bool)
    requires { IsBetweenTurns assumptions.now state.old }
    ensures stands { IsBetweenTurns assumptions.now state.new }
    ensures keeps { Keeps state.old state.new }
    ensures policy { state.new.policy ≡ state.old.policy }
    ensures tally { state.new.tally ≡ state.old.tally }
    ensures stays { wanted ≡ false → state.new.trail ≡ state.old.trail }
{
    let _ = assumptions;
    if wanted {
        state.order.back_to(&mut state.trail, 0);
        state.watches.cut(&state.trail);
    }
}

// Stores a learned clause and attaches it. After `Memory` the same clauses are stored and attached
// as before.
fn store_attached(
    store: &mut Store,
    watches: &mut Watches,
    lits: &[Lit],
    glue: u32,
) -> Result<ClauseId, Memory>
    requires normal { IsNormal lits.now }
    requires within { Within watches.old.declared lits.now }
    requires attached { AttachesLive watches.old.attached store.old }
    ensures fills { IfOk result (λ id. Fills store.old store.new id (record { lits = lits.now; keep = Redundant; glue = glue })) }
    ensures attached { IfOk result (λ id. (k : ℕ) → has watches.new.attached k ≡ (has watches.old.attached k || id == k)) }
    ensures same { OnErr result (SameSlots store.old store.new) }
    ensures kept { OnErr result (watches.new.attached ≡ watches.old.attached) }
    ensures declared { watches.new.declared ≡ watches.old.declared }
    ensures following { (t : Trace) → Follows watches.old store.old t → Follows watches.new store.new t }
{
    // The new clause is not attached yet, so the lists follow the store with it too.
    watches.law_following();
    let id = store.add(lits, Keep::Redundant, glue)?;
    match watches.attach(store, id) {
        Ok(()) => Ok(id),
        Err(Memory) => {
            // It was not attached, so they follow the store without it.
            watches.law_following();
            store.remove(id);
            Err(Memory)
        }
    }
}

// Stores and attaches a learned clause, goes back to its back level, and assigns the literal that
// the tally owes.
fn assert_learned(state: &mut Core, assumptions: &[Lit], learned: Learned) -> Result<(), Memory>
    requires ready { IsReady assumptions.now state.old }
    requires first { AssumesFirst assumptions.now state.old.trail.steps }
    requires normal { IsNormal state.old.scratch.lits }
    requires is_false { FalseOn state.old.trail.steps state.old.scratch.lits }
    requires implied { Implies (Known (clauses state.old) everything) state.old.scratch.lits }
    requires owes { Owes state.old.tally.owes state.old.trail.steps state.old.trail.level state.old.scratch.lits learned.back_level }
    requires unspent { state.old.tally.is_spent ≡ false }
    ensures stands { OnOk result (IsBetweenTurns assumptions.now state.new) }
    ensures jumped { OnOk result (Jumped state.old.trail.steps state.new.trail.steps) }
    ensures keeps { Keeps state.old state.new }
    ensures budget { state.new.tally.budget ≡ state.old.tally.budget }
    ensures counts { KeepsCount state.old.tally state.new.tally }
    ensures policy { state.new.policy ≡ state.old.policy }
{
    let _ = assumptions;
    // What the trail is before it goes back: no variable twice, each declared. And the lists follow
    // it whatever is stored beside the attached clauses.
    state.trail.law_shape();
    state.trail.law_room();
    state.watches.law_following();
    let id = store_attached(
        &mut state.store,
        &mut state.watches,
        state.scratch.learned(),
        learned.glue,
    )?;
    state.order.back_to(&mut state.trail, learned.back_level);
    state.watches.cut(&state.trail);
    // The lists follow the trail with the asserted literal too, which they have not visited.
    state.watches.law_following();
    let Some(lit) = state.tally.owes() else {
        unreachable!()
    };
    state.trail.assign(lit, Reason::Clause(id));
    state.tally.settle(&state.trail);
    Ok(())
}
