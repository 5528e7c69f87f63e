//! Truth under an assignment, which is a list of truth values.
ghost use Rattle.std.specs.Prelude.{◌≡◌};
ghost use Rattle.sat_terms.specs.Truth.{values, lit_true as lit_truth, clause_true as clause_truth};
ghost use Rattle.sat_terms.specs.Cardinality.{true_count as count_of_true};
ghost use Rattle.sat_model.specs.Constraint.{constraint_true as constraint_truth};

use crate::constraint::Constraint;
use crate::literal::{Lit, Var};

// Whether a variable is true.
#[tactic(auto, using(sat_terms::proofs::Models::reads))]
fn var_true(model: &[bool], var: Var) -> bool
    ensures { result ≡ values model.now var }
{
    let at = var.index() as usize - 1;
    at < model.len() && model[at]
}

/// Whether a literal is true. A variable is true if the list has a value at its place, counted from 1, and that value is
/// true; a negation is true if its variable is not.
#[tactic(auto, using(sat_terms::proofs::Models::signs))]
pub fn lit_true(model: &[bool], lit: Lit) -> bool
    ensures { result ≡ lit_truth (values model.now) lit }
{
    let value = var_true(model, lit.var());
    if lit.is_positive() { value } else { !value }
}

/// Whether a clause is true: one of its literals is.
pub fn clause_true(model: &[bool], lits: &[Lit]) -> bool
    ensures { result ≡ clause_truth (values model.now) lits.now }
{
    lits.iter().any(|l| lit_true(model, *l))
}

// How many positions hold a true literal.
fn true_count(model: &[bool], lits: &[Lit]) -> usize
    ensures { result ≡ count_of_true (values model.now) lits.now }
{
    lits.iter().filter(|l| lit_true(model, **l)).count()
}

/// Whether a constraint is true. Repeated and opposite literals count at each place where they stand.
pub fn constraint_true(model: &[bool], what: &Constraint) -> bool
    ensures { result ≡ constraint_truth (values model.now) what.now }
{
    match what {
        Constraint::AtLeast(bound, lits) => true_count(model, lits.as_slice()) as u64 >= *bound,
        Constraint::Parity(odd, lits) => (true_count(model, lits.as_slice()) % 2 == 1) == *odd,
    }
}
