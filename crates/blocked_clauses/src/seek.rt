//! The search for a clause that is blocked on a literal.
//!
//! Each clause with the literal is tested against the clauses with its negation, one after the other, up to the first resolvent that is no
//! tautology. So a clause that is not blocked is mostly done with after one or two of them. Each test of two clauses is a step; a clause
//! for which there is none to test it against is blocked, and counts as one step.
ghost use Rattle.std.specs.Prelude.{◌≡◌, ◌≤◌, ◌+◌, true, false, length};
ghost use Rattle.sat_terms.specs.Literal.{neg as opposite};
ghost use Rattle.clause_store.specs.Stored.{slot, slot_lits};
ghost use Rattle.clause_store.specs.Listing.{HasEachOnce, holds_at};
ghost use Rattle.firm_terms.specs.Firm.{Holds};
ghost use Rattle.blocked_clauses.specs.Seeking.{Asked, Sought};

use crate::clash::clash;
use clause_store::store::Store;
use sat_model::lists::ClauseId;
use sat_model::literal::Lit;

// Whether a clause is blocked.
#[derive(Clone, Copy)]
pub(crate) enum Answer {
    // Every resolvent is a tautology.
    Blocked,
    // One is none.
    Open,
    // The limit left no step.
    Full,
}

// What was found among the clauses with a literal.
#[derive(Clone, Copy)]
pub(crate) enum Found {
    // The clause of this id is blocked.
    At(ClauseId),
    // None is.
    Nowhere,
    // The limit left no step.
    Full,
}

// Counts a step, if the limit leaves one, and answers whether it does.
fn count(steps: &mut u64, limit: u64) -> bool
    requires { steps.old ≤ limit }
    ensures counted { result ≡ true → (steps.new ≡ steps.old + 1) × (steps.new ≤ limit) }
    ensures full { result ≡ false → (steps.new ≡ steps.old) × (steps.old ≡ limit) }
{
    if *steps >= limit {
        return false;
    }
    *steps += 1;
    true
}

// Whether a firm clause is blocked on a literal that it holds. The others are the firm clauses with the literal's negation.
fn ask(
    store: &Store,
    lit: Lit,
    id: ClauseId,
    others: &[ClauseId],
    steps: &mut u64,
    limit: u64,
) -> Answer
    requires holds { Holds store.now id lit }
    requires others { HasEachOnce (holds_at store.now (opposite lit)) others.now }
    requires rest { steps.old ≤ limit }
    ensures { Asked store.now id lit (length others.now) steps.old steps.new limit result }
{
    if others.len() == 0 {
        if !count(steps, limit) {
            return Answer::Full;
        }
        return Answer::Blocked;
    }
    let clause = store.get(id);
    for other in others {
        if !count(steps, limit) {
            return Answer::Full;
        }
        if !clash(lit, clause, store.get(*other)) {
            return Answer::Open;
        }
    }
    Answer::Blocked
}

/// A firm clause that is blocked on a literal.
pub(crate) fn seek(store: &Store, lit: Lit, steps: &mut u64, limit: u64) -> Found
    requires { steps.old ≤ limit }
    ensures { Sought store.now lit steps.old steps.new limit result }
{
    let others = store.occ(lit.neg());
    for id in store.occ(lit) {
        match ask(store, lit, *id, others, steps, limit) {
            Answer::Blocked => return Found::At(*id),
            Answer::Open => {}
            Answer::Full => return Found::Full,
        }
    }
    Found::Nowhere
}
