//! Whether an empty clause is firm.
//!
//! With an empty clause the firm clauses have no model, and whatever a pass would do to the others is of no use: so equivalences,
//! subsumption and vivification ask this first, and end. It also spares their definitions a case, for an empty clause lies within every
//! other one and is shortened by none; what they say of their fixpoint is said where no clause is empty.
//!
//! The walk looks at the length of each firm clause, up to the first that is empty. A list of all ids that has each once shows that none
//! was left out. It costs a look at each clause, which a pass that goes over all of them does not feel; a pass that only looks at what is
//! marked or waits asks where something does.
//!
//! Left out: a flag in the store that would tell it at once. Only the clauses of a contradiction are ever empty, and a flag would have to
//! be kept by each rule.
ghost use Rattle.std.specs.Prelude.{◌≡◌};
ghost use Rattle.firm_terms.specs.Firm.{firm, has_empty};

use clause_store::store::Store;

/// Whether an empty clause is firm. It looks at the length of each firm clause.
pub fn is_refuted(store: &Store) -> bool
    ensures { result ≡ has_empty (firm store.now) }
{
    for id in store.firm_ids() {
        let count = store.get(*id).len();
        if count == 0 {
            return true;
        }
    }
    false
}
