//! The watch lists and the trail before the first round.
//!
//! Every variable of a firm clause is declared, and every firm clause is attached. No learned
//! clause is: what propagation over learned clauses lets go need not follow from the firm ones.
ghost use Rattle.std.specs.Prelude.{◌≡◌, ◌≤◌, ◌<◌, ℕ, [], length, true, OnOk};
ghost use Rattle.sat_terms.specs.Limits.{max_var};
ghost use Rattle.sat_terms.specs.Literal.{has};
ghost use Rattle.sat_terms.specs.Answer.{Within};
ghost use Rattle.clause_store.specs.Stored.{slot, slot_lits, is_firm};
ghost use Rattle.clause_store.specs.Listing.{HasEachOnce, firm_at};
ghost use Rattle.trail_state.specs.Trail.{Trace};
ghost use Rattle.watch_lists.specs.Propagation.{Follows};

use clause_store::store::Store;
use sat_model::lists::ClauseId;
use sat_model::literal::Lit;
use sat_model::memory::Memory;
use watch_lists::watches::Watches;

// The greatest of a variable and those of some literals.
fn greatest(lits: &[Lit], seen: u32) -> u32
    requires { seen ≤ max_var }
    ensures within { Within result lits.now }
    ensures more { seen ≤ result }
    ensures small { result ≤ max_var }
{
    let mut max = seen;
    for lit in lits {
        let var = lit.var().index();
        if var > max {
            max = var;
        }
    }
    max
}

/// The greatest variable of the firm clauses, 0 if there is none.
pub(crate) fn last_var(store: &Store) -> u32
    ensures within { (k : ℕ) → is_firm (slot store.now k) ≡ true
        → Within result (slot_lits (slot store.now k)) }
    ensures small { result ≤ max_var }
{
    let mut max = 0;
    for id in store.firm_ids() {
        max = greatest(store.get(*id), max);
    }
    max
}

/// Attaches the firm clauses, whose variables are declared.
pub(crate) fn attach_all(
    watches: &mut Watches,
    store: &Store,
    ids: &[ClauseId],
) -> Result<(), Memory>
    requires each { HasEachOnce (firm_at store.now) ids.now }
    requires none { watches.old.attached ≡ [] }
    requires known { (k : ℕ) → is_firm (slot store.now k) ≡ true
        → Within watches.old.declared (slot_lits (slot store.now k)) }
    ensures declared { watches.new.declared ≡ watches.old.declared }
    ensures ok { OnOk result ((k : ℕ) → has watches.new.attached k ≡ has ids.now k) }
    ensures follows { (t : Trace) → Follows watches.old store.now t
        → Follows watches.new store.now t }
{
    for id in ids {
        watches.attach(store, *id)?;
    }
    Ok(())
}
