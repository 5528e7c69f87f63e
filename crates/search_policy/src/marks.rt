//! The clauses that are reasons.
//!
//! One walk over the trail puts them into a set, so that a reduction asks each clause once.
ghost use Rattle.std.specs.Prelude.{◌≡◌, ◌||◌, ◌==◌, ℕ, true, false, IfOk, OnOk, is_some, IfSome, None};
ghost use Rattle.flag_set.specs.Flags.{holds};
ghost use Rattle.clause_store.specs.Stored.{slot};
ghost use Rattle.search_policy.specs.Reduction.{names, is_reason_on};

use clause_store::store::Store;
use flag_set::set::FlagSet;
use sat_model::lists::ClauseId;
use sat_model::memory::Memory;
use std::alloc::Global;
use trail_state::reason::Reason;
use trail_state::trail::Trail;

// The clause that a reason names.
fn clause_of(reason: Reason) -> Option<ClauseId>
    ensures some { IfSome result (λ id. (k : ℕ) → names reason k ≡ (id == k)) }
    ensures none { result ≡ None → (k : ℕ) → names reason k ≡ false }
{
    match reason {
        Reason::Clause(id) => Some(id),
        Reason::Decision => None,
        Reason::Theory => None,
    }
}

// Marks the clause that a reason names, if it is live.
fn mark_reason(marks: &mut FlagSet<ClauseId>, store: &Store, reason: Reason) -> Result<(), Memory>
    ensures { OnOk result ((k : ℕ) → is_some (slot store.now k) ≡ true → holds marks.new k ≡ (names reason k || holds marks.old k)) }
{
    match clause_of(reason) {
        None => Ok(()),
        Some(id) => {
            if store.is_live(id) {
                marks.put(id)
            } else {
                Ok(())
            }
        }
    }
}

// The live clauses that are reasons on the trail.
pub(crate) fn reasons(
    alloc: Global,
    store: &Store,
    trail: &Trail,
) -> Result<FlagSet<ClauseId>, Memory>
    ensures { IfOk result (λ marks. (k : ℕ) → is_some (slot store.now k) ≡ true → holds marks k ≡ is_reason_on trail.now.steps k) }
{
    let mut marks = FlagSet::new(alloc);
    trail.law_shape();
    for lit in trail.lits() {
        if let Some(reason) = trail.reason_of(lit.var()) {
            mark_reason(&mut marks, store, reason)?;
        }
    }
    Ok(marks)
}
