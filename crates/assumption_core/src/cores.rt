//! Cores: the assumptions that fail together.
//!
//! The assumptions are the first decisions of the trail. Where one of them is false, or a clause is
//! false while nothing else was decided, some of the assumptions have no model with the clauses that
//! the theory admits.
//! Those that take part are found by walking back over the reasons (needs.rt). The core has them in
//! the order of the query and each once, however often it was assumed. It need not be a least one.
ghost use Rattle.std.specs.Prelude.{◌≡◌, IfOk, IfErr, length};
ghost use Rattle.sat_terms.specs.Answer.{IsCore};
ghost use Rattle.rooted_trails.specs.Known.{Known};
ghost use Rattle.theory_bridge.specs.Shown.{facing};
ghost use Rattle.theory_bridge.specs.Going.{Asked, Ended};
ghost use Rattle.lazy_reasons.specs.Facing.{IsReady, IsAskDue};
ghost use Rattle.assumption_core.specs.Core.{Starts, DecidesAssumed};

use crate::needs::Needs;
use clause_store::store::Store;
use sat_model::lists::{ClauseId, Lits};
use sat_model::literal::Lit;
use std::alloc::Global;
use theory_bridge::bridge::Bridge;
use theory_bridge::stop::AskStop;
use trail_state::trail::Trail;

/// What shows that the assumptions fail.
#[derive(Clone, Copy, Debug, PartialEq, Eq)]
pub enum CoreStart {
    /// This assumption is false on the trail.
    Falsified(Lit),
    /// This clause of the store is false on the trail.
    Conflict(ClauseId),
}

/// The assumptions that a conflict comes from, without repeats and in the order of `assumptions`:
/// no assignment that makes the clauses of the store true and that the theory admits afterwards
/// makes all of them true. Every decision must be an assumption, and the assumption or the live
/// clause of `start` must be false on the trail. It walks back over the trail, from what is false to
/// the decisions that imply it (the final analysis of MiniSat), in time linear in the trail, the
/// assumptions and the clauses that it meets.
///
/// The box must be in step, the trail rooted in the store and in what the theory admits, the seen
/// trail must mirror it, and what the theory implied must be explained: all of that is kept. The box
/// is asked for reasons alone, at most as often as the trail has literals. `Callbacks` comes only
/// where a literal stands above the root that the theory implied and no callback is left; the bridge
/// is spent then. `Memory` comes only where there was none.
pub fn core_of(
    alloc: Global,
    store: &Store,
    trail: &Trail,
    bridge: &mut Bridge,
    assumptions: &[Lit],
    start: CoreStart,
) -> Result<Lits, AskStop>
    requires ready { IsReady store.now trail.now.steps (facing meaning bridge.old) }
    requires decisions { DecidesAssumed trail.now.steps assumptions.now }
    requires start { Starts store.now trail.now.steps assumptions.now start }
    ensures core { IfOk result (λ core. IsCore (Known store.now (facing meaning bridge.new).means.admits) assumptions.now core) }
    // The bridge.
    ensures asked { Asked (length trail.now.steps) (facing meaning bridge.old) (facing meaning bridge.new) }
    ensures ended { Ended result (facing meaning bridge.old) (facing meaning bridge.new) }
    ensures due { IfErr result (λ e. IsAskDue e trail.now.steps) }
    ensures ready { IsReady store.now trail.now.steps (facing meaning bridge.new) }
{
    let mut needs = Needs::new(alloc, trail.lits().len())?;
    needs.start(store, trail, assumptions, start);
    needs.trace_back(alloc, store, trail, bridge)?;
    let core = needs.collect(alloc, trail, assumptions)?;
    Ok(core)
}
