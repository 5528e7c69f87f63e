//! Analysis and cores where no literal is the theory's.
//!
//! The analysis of conflicts and the cores of failed assumptions ask a propagator for the reasons of
//! what it implied. This search lets none imply anything yet: its trail is rooted in the clauses
//! alone, and the box behind the bridge rules nothing out. So no question is due, whatever is left
//! of the budget of callbacks, and what is learned follows from the clauses.
ghost use Rattle.std.specs.Prelude.{◌≡◌, ◌<◌, OnOk, IfOk, IfErr, IsSome, false, None};
ghost use Rattle.sat_terms.specs.Normal.{IsNormal};
ghost use Rattle.sat_terms.specs.Answer.{IsCore};
ghost use Rattle.sat_terms.specs.Truth.{Implies};
ghost use Rattle.clause_store.specs.Stored.{slot, slot_lits};
ghost use Rattle.trail_state.specs.Clauses.{FalseOn};
ghost use Rattle.rooted_trails.specs.Known.{everything, Known, AllStandIn};
ghost use Rattle.rooted_trails.specs.Rooted.{Rooted};
ghost use Rattle.theory_bridge.specs.Shown.{facing};
ghost use Rattle.lazy_reasons.specs.Idle.{IsIdle};
ghost use Rattle.conflict_analysis.specs.Learning.{Reaches, Owes, Rises, Stops, glue_of};
ghost use Rattle.assumption_core.specs.Core.{Starts, DecidesAssumed};
ghost use Rattle.search_engine.specs.Clausal.{is_at_callback};

use assumption_core::cores::{CoreStart, core_of};
use clause_store::store::Store;
use conflict_analysis::analysis::{AnalyzeStop, Learned, analyze};
use conflict_analysis::scratch::Scratch;
use conflict_analysis::tally::Tally;
use sat_model::lists::{ClauseId, Lits};
use sat_model::literal::Lit;
use sat_model::memory::Memory;
use std::alloc::Global;
use theory_bridge::bridge::Bridge;
use theory_bridge::stop::AskStop;
use trail_state::trail::Trail;

// Learns from a false clause, as `analyze` does. It never stops at a callback.
pub(crate) fn learn_clausal(
    alloc: Global,
    store: &Store,
    trail: &Trail,
    bridge: &mut Bridge,
    scratch: &mut Scratch,
    tally: &mut Tally,
    conflict: ClauseId,
) -> Result<Learned, AnalyzeStop>
    requires idle { IsIdle (facing meaning bridge.old) }
    requires fresh { tally.old.is_spent ≡ false }
    requires settled { tally.old.owes ≡ None }
    requires live { IsSome (slot store.now conflict) }
    requires rooted { Rooted store.now trail.now.steps }
    requires is_false { FalseOn trail.now.steps (slot_lits (slot store.now conflict)) }
    requires above { 0 < trail.now.level }
    requires reaches { Reaches trail.now.steps trail.now.level (slot_lits (slot store.now conflict)) }
    ensures idle { IsIdle (facing meaning bridge.new) }
    ensures callbacks { (facing meaning bridge.new).budget ≡ (facing meaning bridge.old).budget }
    ensures normal { OnOk result (IsNormal scratch.new.lits) }
    ensures is_false { OnOk result (FalseOn trail.now.steps scratch.new.lits) }
    ensures implied { OnOk result (Implies (Known store.now everything) scratch.new.lits) }
    ensures from { OnOk result (AllStandIn store.now scratch.new.lits) }
    ensures owes { IfOk result (λ r. Owes tally.new.owes trail.now.steps trail.now.level scratch.new.lits r.back_level) }
    ensures glue { IfOk result (λ r. r.glue ≡ glue_of trail.now.steps trail.now.level scratch.new.lits) }
    ensures met { OnOk result (FalseOn trail.now.steps scratch.new.met) }
    ensures counts { OnOk result (Rises tally.old tally.new) }
    ensures stops { IfErr result (λ e. Stops e tally.old tally.new) }
    ensures never { IfErr result (λ e. is_at_callback e ≡ false) }
{
    let learned = analyze(alloc, store, trail, bridge, scratch, tally, conflict)?;
    Ok(learned)
}

// The core of failed assumptions, as `core_of` finds it. The one refusal is `Memory`.
pub(crate) fn core_clausal(
    alloc: Global,
    store: &Store,
    trail: &Trail,
    bridge: &mut Bridge,
    assumptions: &[Lit],
    start: CoreStart,
) -> Result<Lits, Memory>
    requires idle { IsIdle (facing meaning bridge.old) }
    requires rooted { Rooted store.now trail.now.steps }
    requires decisions { DecidesAssumed trail.now.steps assumptions.now }
    requires start { Starts store.now trail.now.steps assumptions.now start }
    ensures idle { IsIdle (facing meaning bridge.new) }
    ensures callbacks { (facing meaning bridge.new).budget ≡ (facing meaning bridge.old).budget }
    ensures core { IfOk result (λ core. IsCore (Known store.now everything) assumptions.now core) }
{
    match core_of(alloc, store, trail, bridge, assumptions, start) {
        Ok(core) => Ok(core),
        // A question would be due at a literal of the theory alone.
        Err(AskStop::Callbacks(_)) => unreachable!(),
        Err(AskStop::Memory) => Err(Memory),
    }
}
