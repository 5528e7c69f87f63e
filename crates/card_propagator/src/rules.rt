//! What a constraint says as a cardinality: its bound and its list, and how it is copied.
//!
//! The propagator is given a constraint by reference and keeps a copy. It takes cardinalities alone;
//! the functions are nonetheless total, and a constraint of another kind reads as a cardinality of
//! bound 0, from which nothing follows.
ghost use Rattle.std.specs.Prelude.{◌≡◌, IfOk};
ghost use Rattle.user_propagator.specs.Meaning.{counted_lits};
ghost use Rattle.card_propagator.specs.Counting.{bound_of};

use sat_model::constraint::Constraint;
use sat_model::lists::Lits;
use sat_model::literal::Lit;
use sat_model::memory::Memory;
use std::alloc::Global;

// How many positions have to be true; 0 for a constraint that is no cardinality.
pub(crate) fn bound(rule: &Constraint) -> u64
    ensures { result ≡ bound_of rule.now }
{
    match rule {
        Constraint::AtLeast(bound, _) => *bound,
        Constraint::Parity(_, _) => 0,
    }
}

// The literals whose positions count.
pub(crate) fn lits_of(rule: &Constraint) -> &[Lit]
    ensures { result.now ≡ counted_lits rule.now }
{
    match rule {
        Constraint::AtLeast(_, lits) => lits.as_slice(),
        Constraint::Parity(_, lits) => lits.as_slice(),
    }
}

// A copy of a constraint.
pub(crate) fn copy(alloc: Global, what: &Constraint) -> Result<Constraint, Memory>
    ensures { IfOk result (λ c. c ≡ what.now) }
{
    match what {
        Constraint::AtLeast(bound, lits) => Ok(Constraint::AtLeast(
            *bound,
            Lits::from_slice(alloc, lits.as_slice())?,
        )),
        Constraint::Parity(odd, lits) => Ok(Constraint::Parity(
            *odd,
            Lits::from_slice(alloc, lits.as_slice())?,
        )),
    }
}
