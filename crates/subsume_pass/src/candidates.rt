//! The clauses with which a clause is to be compared.
//!
//! Most pairs of clauses have nothing to do with one another, and a comparison of all pairs would take the square of their number. A clause
//! that lies within another one, or shortens it, has each of its variables there: so it is enough to look at the clauses that hold one
//! variable of it, in either sign, and that one may be chosen: the rarest, whose lists of occurrences are the shortest (Eén and Biere,
//! SAT 2005).
//!
//! The other way round, what lies within a clause or shortens it begins with a variable of that clause. So the sources of a clause are the
//! clauses in the lists of its literals and their negations that begin with that very literal: each clause begins with one literal alone,
//! so none is found twice, though it may share many variables (as the one-watched-literal scheme of Zhang, "On subsumption removal and
//! on-the-fly CNF simplification", SAT 2005).
//!
//! Of these most are told apart without their literals: by their signatures, which the kernel keeps, and by their lengths, since a clause
//! with each variable of another one is no shorter than that.
//!
//! That none comes twice matters for the count of steps: a list of firm clauses without repetition is no longer than there are firm
//! clauses. For the rarest variable it holds since a normal clause has not both signs of it.
//!
//! The ids are copied from the store's lists, which change while the clauses are compared; an id is looked up again when its turn comes.
//!
//! Left out: an order among the candidates, short ones first.
ghost use Rattle.std.specs.Prelude.{◌≡◌, ◌<◌, ◌==◌, length, true, bit_and, IfOk, OnOk};
ghost use Rattle.sat_terms.specs.Literal.{has};
ghost use Rattle.clause_store.specs.Stored.{slot, slot_lits, is_firm};
ghost use Rattle.subsume_pass.specs.Choosing.{AreFree, begins, Collects, AreCandidates, Gathers, AreSources};

use clause_store::store::Store;
use rule_kernel::kernel::Kernel;
use sat_model::lists::ClauseId;
use sat_model::literal::Lit;
use sat_model::memory::Memory;

// How many firm clauses hold a literal or its negation.
fn holders(store: &Store, lit: Lit) -> usize {
    store
        .occ(lit)
        .len()
        .saturating_add(store.occ(lit.neg()).len())
}

// A literal of a clause whose variable stands in the fewest firm clauses.
fn rarest(store: &Store, lits: &[Lit]) -> Lit
    requires { 0 < length lits.now }
    ensures { has lits.now result ≡ true }
{
    let mut best = lits[0];
    let mut least = holders(store, best);
    for lit in lits {
        let count = holders(store, *lit);
        if count < least {
            least = count;
            best = *lit;
        }
    }
    best
}

// Whether a signature has no bit that another one lacks.
fn may_fit(a: u64, b: u64) -> bool
    ensures { result ≡ (bit_and a b == a) }
{
    a & b == a
}

// Whether the signatures or the lengths of two firm clauses tell that the first neither lies within the second nor shortens it.
fn are_apart(kernel: &Kernel, by: ClauseId, id: ClauseId) -> bool
    requires by { is_firm (slot kernel.now.store by) ≡ true }
    requires id { is_firm (slot kernel.now.store id) ≡ true }
    ensures { result ≡ true → AreFree kernel.now.store by id }
{
    if !may_fit(kernel.signature(by), kernel.signature(id)) {
        return true;
    }
    let len = kernel.store().get(id).len();
    len < kernel.store().get(by).len()
}

// Adds the firm clauses that hold a literal, but for those that are told apart from a clause.
fn collect(kernel: &Kernel, by: ClauseId, lit: Lit, ids: &mut Vec<ClauseId>) -> Result<(), Memory>
    requires { is_firm (slot kernel.now.store by) ≡ true }
    ensures { OnOk result (Collects kernel.now.store by lit ids.old.items ids.new.items) }
{
    for id in kernel.store().occ(lit) {
        if are_apart(kernel, by, *id) {
            continue;
        }
        ids.push(*id)?;
    }
    Ok(())
}

/// Firm clauses that hold a variable of a clause, the rarest one: the clause is free of all others.
pub(crate) fn candidates(kernel: &Kernel, by: ClauseId) -> Result<Vec<ClauseId>, Memory>
    requires by { is_firm (slot kernel.now.store by) ≡ true }
    requires some { 0 < length (slot_lits (slot kernel.now.store by)) }
    ensures { IfOk result (λ ids. AreCandidates kernel.now.store by ids.items) }
{
    kernel.store().law_normal();
    let lit = rarest(kernel.store(), kernel.store().get(by));
    let mut ids = Vec::new(kernel.alloc());
    collect(kernel, by, lit, &mut ids)?;
    collect(kernel, by, lit.neg(), &mut ids)?;
    Ok(ids)
}

// Whether a clause begins with a literal.
fn begins_with(lits: &[Lit], lit: Lit) -> bool
    ensures { result ≡ begins lits.now lit }
{
    if lits.len() == 0 {
        return false;
    }
    lits[0] == lit
}

// Adds the firm clauses that begin with a literal, but for those that are told apart from a clause.
fn gather(kernel: &Kernel, id: ClauseId, lit: Lit, ids: &mut Vec<ClauseId>) -> Result<(), Memory>
    requires { is_firm (slot kernel.now.store id) ≡ true }
    ensures { OnOk result (Gathers kernel.now.store id lit ids.old.items ids.new.items) }
{
    for by in kernel.store().occ(lit) {
        if are_apart(kernel, *by, id) {
            continue;
        }
        if begins_with(kernel.store().get(*by), lit) {
            ids.push(*by)?;
        }
    }
    Ok(())
}

/// Firm clauses that begin with a variable of a clause: all others are free of it.
pub(crate) fn sources(kernel: &Kernel, id: ClauseId) -> Result<Vec<ClauseId>, Memory>
    requires { is_firm (slot kernel.now.store id) ≡ true }
    ensures { IfOk result (λ ids. AreSources kernel.now.store id ids.items) }
{
    let mut ids = Vec::new(kernel.alloc());
    for lit in kernel.store().get(id) {
        gather(kernel, id, *lit, &mut ids)?;
        gather(kernel, id, lit.neg(), &mut ids)?;
    }
    Ok(ids)
}
