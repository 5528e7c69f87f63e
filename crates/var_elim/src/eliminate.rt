//! A variable is eliminated: its resolvents come, and its clauses are parked.
//!
//! The resolvents come first, as clauses that the firm ones imply. Then each clause with the literal x is parked with x as witness, and
//! after them each with the negation, with that as witness (Eén and Biere 2005; Järvisalo, Heule and Biere, "Inprocessing rules", IJCAR
//! 2012). What allows the first is that wherever a clause `x or A` is false and the others are true, x may be set true: a clause `-x or B`
//! stays true, since the resolvent `A or B` is true and A is not. If that resolvent is a tautology, B has the negation of a literal of A.
//!
//! The resolvents hold neither x nor its negation, so none of them is parked, and what allows the first clause allows each: it speaks of the
//! pairs that are left and of the clauses about neither literal, and parking changes neither (`Settled`). Once all clauses with x are
//! gone there is no pair left, and the same holds of the negation.
//!
//! Want of memory may stop this after any rule. What is there then is a kernel that its rules allow, with some resolvents more or some
//! clauses fewer.
ghost use Rattle.std.specs.Prelude.{◌≡◌, ◌<◌, ℕ, true, false, length, IfSome, IfNone, OnOk};
ghost use Rattle.sat_terms.specs.Literal.{has, var_of};
ghost use Rattle.firm_terms.specs.Firm.{firm, stands, Holds, NoneCame};
ghost use Rattle.pass_terms.specs.Ruled.{Ruled};
ghost use Rattle.var_elim.specs.Testing.{Resolvents};
ghost use Rattle.var_elim.specs.Eliminating.{always, all_but, Settled, Extends, MayCome, MarksStay};

use clause_store::store::Store;
use rule_kernel::kernel::Kernel;
use sat_model::lists::{ClauseId, Lits};
use sat_model::literal::Lit;
use sat_model::memory::Memory;

// A firm clause that holds a literal.
fn first_with(store: &Store, lit: Lit) -> Option<ClauseId>
    ensures some { IfSome result (λ id. Holds store.now id lit) }
    ensures none { IfNone result ((id : ℕ) → Holds store.now id lit → ⊥) }
{
    let ids = store.occ(lit);
    let count = ids.len();
    if count == 0 {
        return None;
    }
    Some(ids[0])
}

// Adds clauses that are implied.
fn add_all(kernel: &mut Kernel, resolvents: &[Lits]) -> Result<(), Memory>
    requires { MayCome kernel.old resolvents.now }
    ensures ruled { Ruled always kernel.old kernel.new }
    ensures marks { MarksStay kernel.old kernel.new }
    ensures added { OnOk result (Extends kernel.old.store kernel.new.store resolvents.now) }
{
    for resolvent in resolvents {
        kernel.add_implied(resolvent.as_slice())?;
    }
    Ok(())
}

// Parks every firm clause that holds a literal, with that literal as witness.
fn park_all(kernel: &mut Kernel, lit: Lit) -> Result<(), Memory>
    requires { Settled kernel.old.store lit }
    ensures ruled { Ruled (all_but (var_of lit)) kernel.old kernel.new }
    ensures marks { MarksStay kernel.old kernel.new }
    ensures none { NoneCame kernel.old.store kernel.new.store }
    ensures done { OnOk result ((id : ℕ) → Holds kernel.new.store id lit → ⊥) }
{
    while let Some(id) = first_with(kernel.store(), lit) {
        kernel.park(id, &[lit])?;
    }
    Ok(())
}

/// Eliminates the variable of a literal, whose resolvents these are.
pub(crate) fn eliminate(kernel: &mut Kernel, lit: Lit, resolvents: &[Lits]) -> Result<(), Memory>
    requires { Resolvents kernel.old.store lit resolvents.now }
    ensures ruled { Ruled (all_but (var_of lit)) kernel.old kernel.new }
    ensures marks { MarksStay kernel.old kernel.new }
    ensures gone { OnOk result (stands (firm kernel.new.store) (var_of lit) ≡ false) }
{
    // The resolvents come first: the clauses are witnessed by them.
    add_all(kernel, resolvents)?;
    park_all(kernel, lit)?;
    park_all(kernel, lit.neg())
}
