//! Forgetting what was learned.
//!
//! Learned clauses make propagation slow, and most are of no use for long (Audemard and Simon
//! 2009). The policy says when to forget some of them and names which: of those that are no reason
//! and have a glue above 2, the half of the greatest glue. Those leave the lists of watches, and
//! then the store. That is sound since they follow from the others, and keeps the trail rooted
//! since none of them is a reason, and none has a single literal. Then the gaps are closed, so that
//! a long search runs in memory proportional to what is alive.
ghost use Rattle.std.specs.Prelude.{◌≡◌, ◌≤◌, ℕ, true, IsSome};
ghost use Rattle.sat_terms.specs.Literal.{has};
ghost use Rattle.clause_store.specs.Stored.{slot};
ghost use Rattle.clause_store.specs.Listing.{times};
ghost use Rattle.search_policy.specs.Plan.{restarts_left};
ghost use Rattle.search_policy.specs.Reduction.{IsForgettable};
ghost use Rattle.search_engine.specs.Searching.{clauses, Keeps};
ghost use Rattle.search_engine.specs.Turns.{FreesAll, IsBetweenTurns};

use crate::state::Core;
use clause_store::store::Store;
use sat_model::lists::Ids;
use sat_model::literal::Lit;
use sat_model::memory::Memory;

// Takes some clauses out of a store.
fn remove_all(store: &mut Store, ids: &Ids)
    requires live { (id : ℕ) → has ids.now id ≡ true → IsSome (slot store.old id) }
    requires once { (id : ℕ) → times ids.now id ≤ 1 }
    ensures { FreesAll store.old store.new ids.now }
{
    for i in 0..ids.len() {
        store.remove(ids.id(i));
    }
}

// Takes some clauses out of the lists, in one sweep, and out of the store.
fn forget_all(state: &mut Core, assumptions: &[Lit], ids: &Ids)
    requires stands { IsBetweenTurns assumptions.now state.old }
    requires each { (id : ℕ) → has ids.now id ≡ true → IsForgettable (clauses state.old) state.old.trail.steps id }
    requires once { (id : ℕ) → times ids.now id ≤ 1 }
    ensures stands { IsBetweenTurns assumptions.now state.new }
    ensures keeps { Keeps state.old state.new }
    ensures trail { state.new.trail ≡ state.old.trail }
    ensures policy { state.new.policy ≡ state.old.policy }
    ensures tally { state.new.tally ≡ state.old.tally }
{
    let _ = assumptions;
    state.watches.detach_all(&state.store, ids);
    // What leaves the store is attached no more, so the lists follow the store without it.
    state.watches.law_following();
    remove_all(&mut state.store, ids);
}

// Closes the gaps that forgotten clauses left.
fn compact(state: &mut Core, assumptions: &[Lit]) -> Result<(), Memory>
    requires { IsBetweenTurns assumptions.now state.old }
    ensures stands { IsBetweenTurns assumptions.now state.new }
    ensures keeps { Keeps state.old state.new }
    ensures trail { state.new.trail ≡ state.old.trail }
    ensures policy { state.new.policy ≡ state.old.policy }
    ensures tally { state.new.tally ≡ state.old.tally }
{
    let _ = assumptions;
    // Each id names what it did, so the lists follow the store after it was compacted.
    state.watches.law_following();
    state.store.compact()?;
    state.watches.compact()
}

// Forgets what the policy names, if it wants a reduction.
pub(crate) fn reduce(state: &mut Core, assumptions: &[Lit]) -> Result<(), Memory>
    requires { IsBetweenTurns assumptions.now state.old }
    ensures stands { IsBetweenTurns assumptions.now state.new }
    ensures keeps { Keeps state.old state.new }
    ensures trail { state.new.trail ≡ state.old.trail }
    ensures left { restarts_left state.new.policy ≡ restarts_left state.old.policy }
    ensures tally { state.new.tally ≡ state.old.tally }
{
    if !state.policy.wants_reduce() {
        return Ok(());
    }
    // What a reduction names, each id once, is redundant, and no reason of the trail.
    state.policy.law_forgets_little();
    let ids = state.policy.reduce(&state.store, &state.trail)?;
    forget_all(state, assumptions, &ids);
    compact(state, assumptions)
}
