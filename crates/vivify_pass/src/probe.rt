//! The rule on one clause: its literals are assumed false, one after another.
//!
//! The literals are taken in the order of the clause, and after each that is assumed, unit
//! propagation goes over the other firm clauses until one is false or nothing more follows
//! (Piette, Hamadi, Saïs, "Vivifying propositional clausal formulae", 2008). Three things can let
//! literals go. Where a clause is false, those that were assumed cannot be false together: they
//! are a clause that follows. Where a literal of the clause has become true, it follows from
//! those that were assumed: they and it are a clause that follows. And a literal that has become
//! false already is left out, as it is false wherever the others are.
//!
//! The trail has what the other clauses make true by themselves when the first literal is taken,
//! so that it need not be found anew for each clause. The rule looks at nothing before the first
//! is assumed, and so it is assumed whatever it is then. Where it is true on the trail, the clause
//! that makes it true is false once it is assumed false. Where it is false, nothing follows that is
//! not on the trail already. Which literal is found true where several are is left open.
//!
//! What is on the trail is just what unit propagation makes true from the assumed literals: each
//! step of it has a reason among these clauses, and where propagation ended without a false
//! clause nothing else follows. So what is read off the trail is said of that closure, and not of
//! the order in which propagation went.
ghost use Rattle.std.specs.Prelude.{◌≡◌, ◌≤◌, ◌<◌, ◌+◌, length, ℕ, List, ◌++◌, ◌∷◌, [], None, true, false, IfOk, IfSome, IfNone};
ghost use Rattle.sat_terms.specs.Literal.{has, neg as opposite, var_of};
ghost use Rattle.sat_terms.specs.Normal.{IsNormal};
ghost use Rattle.trail_state.specs.declared.trail.Step.{Step};
ghost use Rattle.trail_state.specs.Trail.{value_on, true_on};
ghost use Rattle.firm_terms.specs.Vivifying.{negs};
ghost use Rattle.vivify_pass.specs.Trailing.{IsOver, IsSettled, Probes, Looked, Leaves, Probed, IsCount};
ghost use Rattle.watch_lists.specs.Propagation.{Follows};

use clause_store::store::Store;
use sat_model::lists::ClauseId;
use sat_model::literal::Lit;
use sat_model::memory::Memory;
use std::alloc::Global;
use trail_state::trail::Trail;
use watch_lists::watches::Watches;

// What propagation found.
#[derive(Clone, Copy)]
pub(crate) enum Look {
    // A clause is false.
    False,
    // No clause is false, and this literal of the clause is true.
    True(Lit),
    // Neither.
    Open,
}

// Whether a literal is true on the trail.
fn is_true(trail: &Trail, lit: Lit) -> bool
    ensures { result ≡ true_on trail.now.steps lit }
{
    trail.law_shape();
    match trail.value(lit) {
        Some(value) => value,
        None => false,
    }
}

// The first of some literals that is true on the trail, if one is.
fn true_one(trail: &Trail, lits: &[Lit]) -> Option<Lit>
    ensures some { IfSome result (λ l. (has lits.now l ≡ true)
        × (true_on trail.now.steps l ≡ true)) }
    ensures none { IfNone result ((l : ℕ) → has lits.now l ≡ true
        → true_on trail.now.steps l ≡ true → ⊥) }
{
    for lit in lits {
        if is_true(trail, *lit) {
            return Some(*lit);
        }
    }
    None
}

// Assumes a literal of a clause false that has no value, and propagates over the attached clauses,
// which are the firm ones but one.
fn assume_open(
    store: &Store,
    watches: &mut Watches,
    trail: &mut Trail,
    id: ClauseId,
    lits: &[Lit],
    kept: &[Lit],
    lit: Lit,
) -> Result<Look, Memory>
    requires probes { Probes store.now id (negs kept.now) watches.old trail.old }
    requires free { value_on trail.old.steps (opposite lit) ≡ None }
    requires declared { var_of (opposite lit) ≤ trail.old.declared }
    ensures kept { watches.new.attached ≡ watches.old.attached }
    ensures declared { trail.new.declared ≡ trail.old.declared }
    ensures follows { Follows watches.new store.now trail.new }
    ensures leaves { IfOk result (λ look.
        Leaves store.now id (negs (kept.now ++ lit ∷ [])) watches.new trail.new look) }
    ensures over { (root : List Step) → IsOver root trail.old.steps
        → IsOver root trail.new.steps }
    ensures lists { watches.new.declared ≡ watches.old.declared }
    ensures longer { (l : ℕ) → true_on trail.old.steps l ≡ true
        → true_on trail.new.steps l ≡ true }
    ensures looked { IfOk result (λ look.
        Looked store.now id (negs (kept.now ++ lit ∷ [])) lits.now trail.new.steps look) }
{
    // The contract alone speaks of these.
    let _ = id;
    let _ = kept;
    trail.decide(lit.neg());
    watches.law_following();
    match watches.propagate(store, trail)? {
        Some(_) => Ok(Look::False),
        None => match true_one(trail, lits) {
            Some(found) => Ok(Look::True(found)),
            None => Ok(Look::Open),
        },
    }
}

/// Assumes a literal of a clause false where some were: one that has no value, or the first of
/// all.
pub(crate) fn assume(
    store: &Store,
    watches: &mut Watches,
    trail: &mut Trail,
    id: ClauseId,
    lits: &[Lit],
    kept: &[Lit],
    lit: Lit,
) -> Result<Look, Memory>
    requires probes { Probes store.now id (negs kept.now) watches.old trail.old }
    requires free { 0 < length kept.now → value_on trail.old.steps lit ≡ None }
    requires settled { length kept.now ≡ 0
        → IsSettled watches.old.attached store.now trail.old.steps }
    requires declared { var_of (opposite lit) ≤ trail.old.declared }
    ensures kept { watches.new.attached ≡ watches.old.attached }
    ensures declared { trail.new.declared ≡ trail.old.declared }
    ensures follows { Follows watches.new store.now trail.new }
    ensures leaves { IfOk result (λ look.
        Leaves store.now id (negs (kept.now ++ lit ∷ [])) watches.new trail.new look) }
    ensures over { (root : List Step) → IsOver root trail.old.steps
        → IsOver root trail.new.steps }
    ensures lists { watches.new.declared ≡ watches.old.declared }
    ensures longer { (l : ℕ) → true_on trail.old.steps l ≡ true
        → true_on trail.new.steps l ≡ true }
    ensures looked { IfOk result (λ look.
        Looked store.now id (negs (kept.now ++ lit ∷ [])) lits.now trail.new.steps look) }
{
    trail.law_shape();
    match trail.value(lit) {
        None => assume_open(store, watches, trail, id, lits, kept, lit),
        Some(value) => {
            // It is the first. The clause that makes it true is false where it is false.
            if value {
                return Ok(Look::False);
            }
            match true_one(trail, lits) {
                Some(found) => Ok(Look::True(found)),
                None => Ok(Look::Open),
            }
        }
    }
}

// Whether a literal is left out where some were assumed: it is false already.
fn is_left_out(trail: &Trail, kept: &[Lit], lit: Lit) -> bool
    ensures yes { result ≡ true → (0 < length kept.now)
        × (true_on trail.now.steps (opposite lit) ≡ true) }
    ensures no { result ≡ false → 0 < length kept.now
        → true_on trail.now.steps (opposite lit) ≡ true → ⊥ }
{
    if kept.len() == 0 {
        return false;
    }
    is_true(trail, lit.neg())
}

/// What the rule makes of the clause of an id, whose literals these are, over the other firm
/// clauses, from what these make true by themselves. Each literal that is assumed is a step. `None`
/// where the limit left no step.
pub(crate) fn probe(
    alloc: Global,
    store: &Store,
    watches: &mut Watches,
    trail: &mut Trail,
    id: ClauseId,
    lits: &[Lit],
    steps: &mut u64,
    limit: u64,
) -> Result<Option<Vec<Lit>>, Memory>
    requires normal { IsNormal lits.now }
    requires probes { Probes store.now id [] watches.old trail.old }
    requires settled { IsSettled watches.old.attached store.now trail.old.steps }
    requires declared { (l : ℕ) → has lits.now l ≡ true
        → var_of (opposite l) ≤ trail.old.declared }
    requires rest { steps.old ≤ limit }
    ensures over { IsOver trail.old.steps trail.new.steps }
    ensures lists { watches.new.declared ≡ watches.old.declared }
    ensures rest { steps.new ≤ limit }
    ensures spent { steps.new ≤ steps.old + length lits.now }
    ensures full { IfOk result (λ found. IfNone found ((steps.new ≡ limit)
        × (steps.new < steps.old + length lits.now))) }
    ensures counted { IfOk result (λ found.
        IfSome found (λ new. IsCount steps.old steps.new (length new.items))) }
    ensures kept { watches.new.attached ≡ watches.old.attached }
    ensures declared { trail.new.declared ≡ trail.old.declared }
    ensures follows { Follows watches.new store.now trail.new }
    ensures probed { IfOk result (λ found.
        IfSome found (λ new. Probed store.now id lits.now new.items)) }
{
    let mut kept = Vec::new(alloc);
    for lit in lits {
        trail.law_shape();
        if is_left_out(trail, kept.as_slice(), *lit) {
            continue;
        }
        if *steps >= limit {
            return Ok(None);
        }
        let look = assume(store, watches, trail, id, lits, kept.as_slice(), *lit)?;
        *steps += 1;
        kept.push(*lit)?;
        match look {
            Look::False => return Ok(Some(kept)),
            Look::True(found) => {
                trail.law_shape();
                kept.push(found)?;
                return Ok(Some(kept));
            }
            Look::Open => {}
        }
    }
    Ok(Some(kept))
}
