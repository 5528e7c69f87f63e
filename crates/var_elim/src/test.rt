//! Whether a variable is a candidate.
//!
//! First is looked at what costs no resolution: whether there are clauses, at most 400 pairs of them, and none of one literal. Then each
//! clause that holds the literal is resolved with each that holds the negation. A resolvent that is no tautology is kept, for if the
//! variable is a candidate these are the clauses that come in the end. The test ends early with the first resolvent that is one too many,
//! or has more than 100 literals: what would follow cannot make up for it. So most variables that are no candidates are found out after
//! few pairs.
//!
//! A pair is a step. The test is told how many steps are left, and ends where one more is needed; then nothing is known of the variable,
//! and nothing was changed.
//!
//! A store lists the clauses of a literal in no stated order, and the definition of a candidate takes them in the order of their ids. The
//! number of resolvents and the length of the longest one are the same in both orders, and so is what an early end says.
ghost use Rattle.std.specs.Prelude.{◌≡◌, ◌<◌, ◌≤◌, ◌*◌, ◌+◌, ℕ, [], ◌∷◌, true, false, IfOk, length, map, nat_le};
ghost use Rattle.std.specs.List.{list_any};
ghost use Rattle.sat_terms.specs.Literal.{neg as opposite};
ghost use Rattle.firm_terms.specs.Firm.{Holds};
ghost use Rattle.firm_terms.specs.Resolving.{is_unit, row, resolvents, could_be};
ghost use Rattle.var_elim.specs.Testing.{lits_at, AllFirm, AllHold, Looked, Tried};

use crate::resolve::resolve;
use clause_store::store::Store;
use sat_model::lists::{ClauseId, Lits};
use sat_model::literal::Lit;
use sat_model::memory::Memory;
use std::alloc::Global;

/// What pairs of clauses tell of a variable. Of all pairs of its clauses, whether it is a candidate.
#[derive(Clone, Copy)]
pub(crate) enum Outcome {
    /// Their resolvents are neither too many nor too long.
    Fits,
    /// They are.
    Fails,
    /// No step was left for a further pair.
    Spent,
}

// The pairs that were resolved, and what came of them.
#[derive(Drop)]
pub(crate) struct Work {
    // How many pairs were resolved.
    pairs: u64,
    // Their resolvents that are no tautology.
    resolvents: Vec<Lits>,
    // The literals of the resolvent that is put together.
    scratch: Vec<Lit>,
}

/// A tested variable.
#[derive(Drop)]
pub(crate) struct Trial {
    /// What the test told.
    pub(crate) outcome: Outcome,
    /// How many pairs of clauses it resolved.
    pub(crate) pairs: u64,
    /// The resolvents, if the variable is a candidate.
    pub(crate) resolvents: Vec<Lits>,
}

// Whether one of some firm clauses has one literal.
fn has_unit(store: &Store, ids: &[ClauseId]) -> bool
    requires { AllFirm store.now ids.now }
    ensures { result ≡ list_any is_unit (map (lits_at store.now) ids.now) }
{
    for id in ids {
        let count = store.get(*id).len();
        if count == 1 {
            return true;
        }
    }
    false
}

// Whether the product of two numbers is at most 400.
fn is_small(p: usize, q: usize) -> bool
    ensures { result ≡ nat_le (p * q) 400 }
{
    if p == 0 || q == 0 {
        return true;
    }
    if p > 400 || q > 400 {
        return false;
    }
    p * q <= 400
}

// Whether the clauses may be those of a candidate, before any is resolved.
fn is_possible(store: &Store, left: &[ClauseId], right: &[ClauseId]) -> bool
    requires left { AllFirm store.now left.now }
    requires right { AllFirm store.now right.now }
    ensures { result ≡ could_be (map (lits_at store.now) left.now) (map (lits_at store.now) right.now) }
{
    (left.len() > 0 || right.len() > 0)
        && !has_unit(store, left)
        && !has_unit(store, right)
        && is_small(left.len(), right.len())
}

// Resolves two clauses, if a step is left.
fn resolve_pair(
    alloc: Global,
    store: &Store,
    lit: Lit,
    left: ClauseId,
    right: ClauseId,
    most: usize,
    rest: u64,
    work: &mut Work,
) -> Result<Outcome, Memory>
    requires left { Holds store.now left lit }
    requires right { Holds store.now right (opposite lit) }
    requires within { work.old.pairs ≤ rest }
    requires few { length work.old.resolvents.items ≤ most }
    ensures { IfOk result (λ outcome. Looked work.old work.new (row lit (lits_at store.now left) (lits_at store.now right ∷ [])) 1 most rest outcome) }
{
    if work.pairs == rest {
        return Ok(Outcome::Spent);
    }
    work.pairs += 1;
    match resolve(
        alloc,
        store.get(left),
        store.get(right),
        lit,
        &mut work.scratch,
    )? {
        None => Ok(Outcome::Fits),
        Some(form) => {
            if work.resolvents.len() >= most {
                return Ok(Outcome::Fails);
            }
            if form.as_slice().len() > 100 {
                return Ok(Outcome::Fails);
            }
            work.resolvents.push(form)?;
            Ok(Outcome::Fits)
        }
    }
}

// Resolves a clause with each of some others, up to the first that ends the test.
fn resolve_row(
    alloc: Global,
    store: &Store,
    lit: Lit,
    left: ClauseId,
    rights: &[ClauseId],
    most: usize,
    rest: u64,
    work: &mut Work,
) -> Result<Outcome, Memory>
    requires left { Holds store.now left lit }
    requires rights { AllHold store.now (opposite lit) rights.now }
    requires within { work.old.pairs ≤ rest }
    requires few { length work.old.resolvents.items ≤ most }
    ensures { IfOk result (λ outcome. Looked work.old work.new (row lit (lits_at store.now left) (map (lits_at store.now) rights.now)) (length rights.now) most rest outcome) }
{
    for right in rights {
        match resolve_pair(alloc, store, lit, left, *right, most, rest, work)? {
            Outcome::Fits => {}
            Outcome::Fails => return Ok(Outcome::Fails),
            Outcome::Spent => return Ok(Outcome::Spent),
        }
    }
    Ok(Outcome::Fits)
}

// Resolves each of some clauses with each of some others, up to the first pair that ends the test.
fn resolve_all(
    alloc: Global,
    store: &Store,
    lit: Lit,
    lefts: &[ClauseId],
    rights: &[ClauseId],
    most: usize,
    rest: u64,
    work: &mut Work,
) -> Result<Outcome, Memory>
    requires lefts { AllHold store.now lit lefts.now }
    requires rights { AllHold store.now (opposite lit) rights.now }
    requires within { work.old.pairs ≤ rest }
    requires few { length work.old.resolvents.items ≤ most }
    ensures { IfOk result (λ outcome. Looked work.old work.new (resolvents lit (map (lits_at store.now) lefts.now) (map (lits_at store.now) rights.now)) (length lefts.now * length rights.now) most rest outcome) }
{
    for left in lefts {
        match resolve_row(alloc, store, lit, *left, rights, most, rest, work)? {
            Outcome::Fits => {}
            Outcome::Fails => return Ok(Outcome::Fails),
            Outcome::Spent => return Ok(Outcome::Spent),
        }
    }
    Ok(Outcome::Fits)
}

/// Tests whether the variable of a literal is a candidate, where so many pairs may be resolved.
pub(crate) fn test_var(alloc: Global, store: &Store, lit: Lit, rest: u64) -> Result<Trial, Memory>
    ensures { IfOk result (λ trial. Tried store.now lit rest trial) }
{
    store.law_normal();
    let mut work = Work {
        pairs: 0,
        resolvents: Vec::new(alloc),
        scratch: Vec::new(alloc),
    };
    let lefts = store.occ(lit);
    let rights = store.occ(lit.neg());
    if !is_possible(store, lefts, rights) {
        return Ok(Trial {
            outcome: Outcome::Fails,
            pairs: 0,
            resolvents: work.resolvents,
        });
    }
    let most = lefts.len() + rights.len();
    let outcome = resolve_all(alloc, store, lit, lefts, rights, most, rest, &mut work)?;
    Ok(Trial {
        outcome,
        pairs: work.pairs,
        resolvents: work.resolvents,
    })
}
