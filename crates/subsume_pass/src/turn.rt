//! A clause that is due is tried on all others: it drops those that hold all of it, and shortens those that hold all but one literal
//! of it and the negation of that one.
//!
//! The trial is one-sided, as the backward subsumption of SatELite (Eén and Biere, SAT 2005): the clause is compared with others as the one
//! that acts. That the others act on it in turn is found when they are tried, since they are due or were tried before. What makes this
//! enough is that shortening a clause never makes another one newly fit: what lies within the shorter clause lay within the longer one, and
//! what shortens the shorter one shortened the longer one (or lay within it). So a clause that was tried stays done whatever the pass does
//! later, and of the clauses that come only they themselves must be tried. Likewise none need be tried on a shorter clause that takes the
//! place of one on which all others were tried: it is not fresh, and is taken off at once.
//!
//! The ids of the candidates are copied before the first comparison, since the lists of the store change meanwhile. An id whose turn
//! comes is looked up again: it may name nothing any more, or a clause that came since. That is no harm: whatever firm clause it names is
//! compared, and each clause that comes is free of the one that is tried, since it has lost that one's literal. So after a change the
//! walk goes on where it was, and begins not anew. It holds all the time: every firm clause is free of the one that is tried, or its id
//! is still to come.
//!
//! The clause stays due until it has been tried on all, so that after the limit, and after want of memory, it still waits.
ghost use Rattle.std.specs.Prelude.{◌≡◌, ◌≢◌, ◌≤◌, ◌<◌, ◌+◌, ◌^◌, ◌==◌, [], length, true, not, ◌&&◌, IfOk, if◌then◌else◌};
ghost use Rattle.sat_terms.specs.Literal.{has};
ghost use Rattle.clause_store.specs.Stored.{slot, slot_lits, is_firm};
ghost use Rattle.firm_terms.specs.Firm.{firm, has_empty};
ghost use Rattle.pass_terms.specs.Ruled.{Ruled, always};
ghost use Rattle.subsume_pass.specs.Choosing.{AreCandidates};
ghost use Rattle.subsume_pass.specs.Trying.{Keeps, Effects, Turned, Passed};

use crate::candidates::candidates;
use crate::change::{Change, meet};
use clause_store::store::Store;
use clause_store::stored::Keep;
use rule_kernel::kernel::Kernel;
use sat_model::lists::ClauseId;
use sat_model::memory::Memory;

// How a turn ended.
#[derive(Clone, Copy)]
pub(crate) enum Turn {
    // It is done, and no clause changed.
    Done,
    // It is done, and clauses went or got shorter.
    Changed,
    // An empty clause is firm.
    Refuted,
    // The limit left no step.
    Full,
}

// What the comparison of a clause that is due with another one did.
#[derive(Clone, Copy)]
pub(crate) enum Effect {
    // No clause changed.
    Nothing,
    // One went or got shorter.
    Something,
    // One got empty.
    Empty,
}

// Whether an id names a firm clause.
fn names_firm(store: &Store, id: ClauseId) -> bool
    ensures { result ≡ is_firm (slot store.now id) }
{
    if !store.is_live(id) {
        return false;
    }
    match store.keep(id) {
        Keep::Firm => true,
        Keep::Redundant => false,
    }
}

// Whether an id names a firm clause and is another one.
pub(crate) fn names_other(store: &Store, by: ClauseId, id: ClauseId) -> bool
    ensures { result ≡ (not (by == id) && is_firm (slot store.now id)) }
{
    if by == id {
        return false;
    }
    names_firm(store, id)
}

// Compares a clause with another one, where none is fresh: a step. A shorter clause that comes is due.
fn meet_due(
    kernel: &mut Kernel,
    by: ClauseId,
    id: ClauseId,
    steps: &mut u64,
) -> Result<Effect, Memory>
    requires by { is_firm (slot kernel.old.store by) ≡ true }
    requires id { is_firm (slot kernel.old.store id) ≡ true }
    requires other { by ≢ id }
    requires fresh { kernel.old.waiting.fresh ≡ [] }
    requires room { steps.old + 1 < 2 ^ 64 }
    ensures ruled { Ruled always kernel.old kernel.new }
    ensures keeps { Keeps kernel.old kernel.new by }
    ensures counted { steps.new ≡ steps.old + 1 }
    ensures effects { IfOk result (λ effect. Effects kernel.old kernel.new by id effect) }
{
    kernel.law_promises();
    match meet(kernel, by, id, steps)? {
        Change::Kept => Ok(Effect::Nothing),
        Change::Gone => Ok(Effect::Something),
        Change::Came(next) => {
            kernel.settle_fresh(next);
            let count = kernel.store().get(next).len();
            if count == 0 {
                return Ok(Effect::Empty);
            }
            Ok(Effect::Something)
        }
    }
}

// Compares a clause with those of some ids, one after another. Each is a step.
fn meet_all(
    kernel: &mut Kernel,
    by: ClauseId,
    ids: &[ClauseId],
    steps: &mut u64,
    limit: u64,
) -> Result<Turn, Memory>
    requires by { is_firm (slot kernel.old.store by) ≡ true }
    requires ids { AreCandidates kernel.old.store by ids.now }
    requires fresh { kernel.old.waiting.fresh ≡ [] }
    requires rest { steps.old ≤ limit }
    ensures ruled { Ruled always kernel.old kernel.new }
    ensures keeps { Keeps kernel.old kernel.new by }
    ensures turned { IfOk result (λ turn. Turned kernel.old kernel.new by (length ids.now) steps.old steps.new limit turn) }
{
    let mut changed = false;
    for id in ids {
        if names_other(kernel.store(), by, *id) {
            if *steps >= limit {
                return Ok(Turn::Full);
            }
            match meet_due(kernel, by, *id, steps)? {
                Effect::Nothing => {}
                Effect::Something => changed = true,
                Effect::Empty => return Ok(Turn::Refuted),
            }
        }
    }
    if changed {
        return Ok(Turn::Changed);
    }
    Ok(Turn::Done)
}

// Tries a firm clause on all others.
fn try_on_all(
    kernel: &mut Kernel,
    by: ClauseId,
    steps: &mut u64,
    limit: u64,
) -> Result<Turn, Memory>
    requires by { is_firm (slot kernel.old.store by) ≡ true }
    requires fresh { kernel.old.waiting.fresh ≡ [] }
    requires rest { steps.old ≤ limit }
    ensures ruled { Ruled always kernel.old kernel.new }
    ensures keeps { Keeps kernel.old kernel.new by }
    ensures turned { IfOk result (λ turn. Turned kernel.old kernel.new by (length (firm kernel.old.store)) steps.old steps.new limit turn) }
{
    let count = kernel.store().get(by).len();
    if count == 0 {
        return Ok(Turn::Refuted);
    }
    let ids = candidates(kernel, by)?;
    let turn = meet_all(kernel, by, ids.as_slice(), steps, limit)?;
    Ok(turn)
}

/// Tries the last of the clauses that are due on all others, where none is fresh. Once it was, it is due no longer.
pub(crate) fn turn_due(kernel: &mut Kernel, steps: &mut u64, limit: u64) -> Result<Turn, Memory>
    requires some { 0 < length kernel.old.waiting.due }
    requires fresh { kernel.old.waiting.fresh ≡ [] }
    requires rest { steps.old ≤ limit }
    ensures ruled { Ruled always kernel.old kernel.new }
    ensures passed { IfOk result (λ turn. Passed kernel.old kernel.new steps.old steps.new limit turn) }
{
    kernel.law_promises();
    let due = kernel.due();
    let by = due[due.len() - 1];
    match try_on_all(kernel, by, steps, limit)? {
        Turn::Done => {
            kernel.settle_due(by);
            Ok(Turn::Done)
        }
        Turn::Changed => {
            kernel.settle_due(by);
            kernel.law_promises();
            Ok(Turn::Changed)
        }
        Turn::Refuted => Ok(Turn::Refuted),
        Turn::Full => Ok(Turn::Full),
    }
}
