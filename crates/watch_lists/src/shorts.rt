//! Clauses of fewer than two literals.
//!
//! Such a clause has no two literals to watch, so it is looked at in each propagation, until its literal is true at the root:
//! the list is kept so that these stand in front, and they are counted.
ghost use Rattle.std.specs.Prelude.{◌≡◌, ◌<◌, ◌≤◌, ℕ, true, false, length, IfSome, IfNone, slice_index_or};
ghost use Rattle.sat_terms.specs.Literal.{has};
ghost use Rattle.clause_store.specs.Stored.{slot, slot_lits};
ghost use Rattle.trail_state.specs.Clauses.{FalseOn};
ghost use Rattle.watch_lists.specs.Propagation.{ids_of, IsReadyAt, AllReady, Grown, TrueAtRoot, AllFixed};
ghost use Rattle.watch_lists.specs.Watching.{TrueIn};
ghost use Rattle.watch_lists.specs.Visiting.{IsConflict};
ghost use Rattle.watch_lists.specs.Shorts.{AllShort, AllMet};

use crate::marks::Marks;
use clause_store::store::Store;
use sat_model::lists::ClauseId;
use trail_state::reason::Reason;
use trail_state::trail::Trail;

// Looks at a clause of fewer than two literals, and assigns its literal. Answers whether it is false.
fn look_at(id: ClauseId, attached: &Marks, store: &Store, trail: &mut Trail) -> bool
    requires attached { has (ids_of attached.now) id ≡ true }
    requires ready { IsReadyAt id store.now trail.old.declared }
    requires short { length (slot_lits (slot store.now id)) < 2 }
    ensures grown { Grown (ids_of attached.now) store.now trail.old trail.new }
    ensures conflict { result ≡ true → FalseOn trail.new.steps (slot_lits (slot store.now id)) }
    ensures met { result ≡ false → TrueIn (slot_lits (slot store.now id)) trail.new.steps }
{
    let _ = attached;
    trail.law_shape();
    let clause = store.get(id);
    if clause.is_empty() {
        return true;
    }
    let lit = clause[0];
    match trail.value(lit) {
        Some(true) => false,
        Some(false) => true,
        None => {
            trail.assign(lit, Reason::Clause(id));
            false
        }
    }
}

// Whether the first literal of a clause is true at the root.
fn is_fixed(id: ClauseId, store: &Store, trail: &Trail) -> bool
    requires { IsReadyAt id store.now trail.now.declared }
    ensures { result ≡ true → TrueAtRoot (slot_lits (slot store.now id)) trail.now.steps }
{
    trail.law_shape();
    let clause = store.get(id);
    if clause.is_empty() {
        return false;
    }
    let lit = clause[0];
    let Some(level) = trail.level_of(lit.var()) else {
        return false;
    };
    let at_root = level == 0;
    at_root && trail.is_true(lit)
}

// Looks at clauses of fewer than two literals, from those on that are known to be true at the root, and assigns their literals, up
// to the first false clause.
pub(crate) fn pass_short(
    short: &[ClauseId],
    fixed: &mut usize,
    attached: &Marks,
    store: &Store,
    trail: &mut Trail,
) -> Option<ClauseId>
    requires ready { AllReady (ids_of attached.now) store.now trail.old.declared }
    requires short { AllShort (ids_of attached.now) store.now short.now }
    requires fixed { AllFixed store.now short.now fixed.old trail.old.steps }
    ensures grown { Grown (ids_of attached.now) store.now trail.old trail.new }
    ensures fixed { AllFixed store.now short.now fixed.new trail.new.steps }
    ensures conflict { IfSome result (λ id. IsConflict (ids_of attached.now) store.now trail.new.steps id) }
    ensures met { IfNone result (AllMet store.now short.now (length short.now) trail.new.steps) }
{
    let mut k = *fixed;
    'each: while k < short.len() {
        let id = short[k];
        let is_false = look_at(id, attached, store, trail);
        if is_false {
            return Some(id);
        }
        if k == *fixed && is_fixed(id, store, trail) {
            *fixed += 1;
        }
        k += 1;
    }
    None
}
