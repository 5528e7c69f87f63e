//! Learning from a conflict.
//!
//! A conflict is a stored clause that is false on the trail. Why did it come? Its literals are
//! false since others were implied, and in the end since some were decided. The analysis follows
//! reasons back to a clause that is false here too, follows from the stored clauses, and has one
//! literal alone of the current level (walk.rt). So on the way back to the highest of its other
//! levels it becomes unit, and asserts that literal: the search will not come to this conflict
//! again. Reasons of literals that the theory implied are asked for on the way. The tally owes the asserting literal until it is on the trail. Literals of the clause
//! that follow from its others are dropped (shorten.rt).
//!
//! The clause lies in the scratch, as do the literals that were met: nothing is copied out. Its
//! glue, the number of its levels, says how much it is worth (levels.rt).
ghost use Rattle.std.specs.Prelude.{◌≡◌, ◌<◌, OnOk, IfOk, IfErr, IsSome, false, None, length};
ghost use Rattle.sat_terms.specs.Normal.{IsNormal};
ghost use Rattle.sat_terms.specs.Truth.{Implies};
ghost use Rattle.clause_store.specs.Stored.{slot, slot_lits};
ghost use Rattle.trail_state.specs.Clauses.{FalseOn};
ghost use Rattle.rooted_trails.specs.Known.{Known};
ghost use Rattle.theory_bridge.specs.Shown.{Shown, facing};
ghost use Rattle.theory_bridge.specs.Going.{Asked, Ended};
ghost use Rattle.lazy_reasons.specs.Facing.{IsReady, IsAskDue};
ghost use Rattle.lazy_reasons.specs.Sources.{AreMet};
ghost use Rattle.conflict_analysis.specs.Learning.{Reaches, IsAsserting, Owes, Rises, Stops, glue_of};
ghost use Rattle.conflict_analysis.specs.Learning.{Closed, IsDueOn};
ghost use Rattle.conflict_analysis.specs.Walking.{IsResolving};

use crate::levels::highest;
use crate::scratch::Scratch;
use crate::tally::Tally;
use clause_store::store::Store;
use sat_model::lists::ClauseId;
use sat_model::literal::Lit;
use sat_model::memory::Memory;
use std::alloc::Global;
use theory_bridge::bridge::Bridge;
use theory_bridge::stop::AskStop;
use trail_state::trail::Trail;

/// What is said of a learned clause, which lies in the scratch.
#[derive(Clone, Copy, Debug, PartialEq, Eq)]
pub struct Learned {
    /// The highest level of its literals but for the one of the current level, 0 if there is no
    /// other.
    pub back_level: u32,
    /// The number of levels of its literals.
    pub glue: u32,
}

/// Why an analysis stopped.
#[derive(Clone, Copy, Debug, PartialEq, Eq)]
pub enum AnalyzeStop {
    /// So many conflicts were counted, which is the budget.
    Conflicts(u64),
    /// So many callbacks were counted, which is the budget.
    Callbacks(u64),
    /// There was no memory.
    Memory,
}

// A learned clause, and its literal of the current level.
#[derive(Clone, Copy)]
struct Lesson {
    // What is said of the clause.
    learned: Learned,
    // Its literal of the current level, which it asserts after going back.
    owed: Lit,
}

/// Learns from a clause of the store that is false on the trail, where one of its literals has the
/// current level, and counts the conflict. The clause comes from the first unique implication point
/// (Moskewicz and others 2001), and lies in the scratch. It is normal, false, follows from the
/// clauses of the store and from what the theory admits afterwards, and it has one literal of the
/// current level, which the tally owes then. Each of its literals stands in a clause of the store,
/// or its opposite on the seen trail. The literals that were met on the way are false, and lie in
/// the scratch too.
///
/// The tally must be unspent and owe nothing. The box must be in step, the trail rooted in the store
/// and in what the theory admits, the seen trail must mirror it, and what the theory implied must be
/// explained: all of that is kept. The box is asked for reasons alone, at most as often as the trail
/// has literals.
///
/// `Conflicts` comes exactly where the tally's count is its budget and below 2^62; the tally is
/// spent then, and the box was not called. `Callbacks` comes only where a literal stands above the
/// root that the theory implied and no callback is left; the bridge is spent then. After `Callbacks`
/// and `Memory` the tally is as before, and the scratch has no clause that anything is said of.
pub fn analyze(
    alloc: Global,
    store: &Store,
    trail: &Trail,
    bridge: &mut Bridge,
    scratch: &mut Scratch,
    tally: &mut Tally,
    conflict: ClauseId,
) -> Result<Learned, AnalyzeStop>
    requires fresh { tally.old.is_spent ≡ false }
    requires settled { tally.old.owes ≡ None }
    requires live { IsSome (slot store.now conflict) }
    requires ready { IsReady store.now trail.now.steps (facing meaning bridge.old) }
    requires is_false { FalseOn trail.now.steps (slot_lits (slot store.now conflict)) }
    requires above { 0 < trail.now.level }
    requires reaches { Reaches trail.now.steps trail.now.level (slot_lits (slot store.now conflict)) }
    // The learned clause.
    ensures normal { OnOk result (IsNormal scratch.new.lits) }
    ensures is_false { OnOk result (FalseOn trail.now.steps scratch.new.lits) }
    ensures implied { OnOk result (Implies (Known store.now (facing meaning bridge.new).means.admits) scratch.new.lits) }
    ensures from { OnOk result (AreMet store.now (facing meaning bridge.new).board.seen scratch.new.lits) }
    ensures owes { IfOk result (λ r. Owes tally.new.owes trail.now.steps trail.now.level scratch.new.lits r.back_level) }
    ensures glue { IfOk result (λ r. r.glue ≡ glue_of trail.now.steps trail.now.level scratch.new.lits) }
    // The literals that were met.
    ensures met { OnOk result (FalseOn trail.now.steps scratch.new.met) }
    // The count.
    ensures counts { OnOk result (Rises tally.old tally.new) }
    ensures stops { IfErr result (λ e. Stops e tally.old tally.new) }
    // The bridge.
    ensures asked { Asked (length trail.now.steps) (facing meaning bridge.old) (facing meaning bridge.new) }
    ensures ended { Closed result (facing meaning bridge.old) (facing meaning bridge.new) }
    ensures due { IfErr result (λ e. IsDueOn e trail.now.steps) }
    ensures ready { IsReady store.now trail.now.steps (facing meaning bridge.new) }
{
    if tally.is_due() {
        let count = tally.count();
        tally.spend();
        return Err(AnalyzeStop::Conflicts(count));
    }
    match learn_first_uip(alloc, store, trail, bridge, scratch, conflict) {
        Ok(lesson) => {
            tally.rise(lesson.owed);
            Ok(lesson.learned)
        }
        Err(AskStop::Callbacks(n)) => Err(AnalyzeStop::Callbacks(n)),
        Err(AskStop::Memory) => Err(AnalyzeStop::Memory),
    }
}

// Marks the literals of a false clause in a scratch that was cleared.
fn begin(
    store: &Store,
    trail: &Trail,
    scratch: &mut Scratch,
    conflict: ClauseId,
) -> Result<(), Memory>
    requires live { IsSome (slot store.now conflict) }
    requires is_false { FalseOn trail.now.steps (slot_lits (slot store.now conflict)) }
    requires above { 0 < trail.now.level }
    requires reaches { Reaches trail.now.steps trail.now.level (slot_lits (slot store.now conflict)) }
    ensures { OnOk result ((b : Shown) → IsReady store.now trail.now.steps b → IsResolving store.now b trail.now (length trail.now.steps) scratch.new) }
{
    trail.law_shape();
    scratch.clear();
    scratch.reach(trail.declared() as usize + 1)?;
    let len = trail.lits().len();
    scratch.mark_all(trail, store.get(conflict), len)?;
    Ok(())
}

// The clause that a conflict teaches.
fn learn_first_uip(
    alloc: Global,
    store: &Store,
    trail: &Trail,
    bridge: &mut Bridge,
    scratch: &mut Scratch,
    conflict: ClauseId,
) -> Result<Lesson, AskStop>
    requires live { IsSome (slot store.now conflict) }
    requires ready { IsReady store.now trail.now.steps (facing meaning bridge.old) }
    requires is_false { FalseOn trail.now.steps (slot_lits (slot store.now conflict)) }
    requires above { 0 < trail.now.level }
    requires reaches { Reaches trail.now.steps trail.now.level (slot_lits (slot store.now conflict)) }
    ensures normal { OnOk result (IsNormal scratch.new.lits) }
    ensures is_false { OnOk result (FalseOn trail.now.steps scratch.new.lits) }
    ensures implied { OnOk result (Implies (Known store.now (facing meaning bridge.new).means.admits) scratch.new.lits) }
    ensures from { OnOk result (AreMet store.now (facing meaning bridge.new).board.seen scratch.new.lits) }
    ensures asserting { IfOk result (λ r. IsAsserting trail.now.steps trail.now.level scratch.new.lits r.owed r.learned.back_level) }
    ensures glue { IfOk result (λ r. r.learned.glue ≡ glue_of trail.now.steps trail.now.level scratch.new.lits) }
    ensures met { OnOk result (FalseOn trail.now.steps scratch.new.met) }
    ensures asked { Asked (length trail.now.steps) (facing meaning bridge.old) (facing meaning bridge.new) }
    ensures ended { Ended result (facing meaning bridge.old) (facing meaning bridge.new) }
    ensures due { IfErr result (λ e. IsAskDue e trail.now.steps) }
    ensures ready { IsReady store.now trail.now.steps (facing meaning bridge.new) }
{
    trail.law_shape();
    begin(store, trail, scratch, conflict)?;
    let at = scratch.find_uip(alloc, store, trail, bridge)?;
    scratch.shorten(store, trail, at)?;
    let owed = trail.lits()[at].neg();
    let back_level = highest(trail, scratch.learned());
    scratch.finish(owed)?;
    let glue = scratch.glue(trail);
    let learned = Learned { back_level, glue };
    Ok(Lesson { learned, owed })
}
