//! Whether a resolvent is a tautology.
//!
//! The resolvent of two clauses on a literal x of the first is a tautology where the first has another literal whose negation the second
//! has. Clauses are stored with their literals in rising code, so one walk over both at once finds such a literal: of the two literals at
//! hand the one with the smaller variable has no negation in the other clause, as all that is left there is greater, and what was passed is
//! smaller. Where the variables are the same, the literals are equal or opposite.
//!
//! The resolvent is never built: neither clause is itself a tautology, so an opposite pair has one literal from each.
ghost use Rattle.std.specs.Prelude.{◌≡◌};
ghost use Rattle.sat_terms.specs.Normal.{IsNormal};
ghost use Rattle.firm_terms.specs.Resolving.{resolvent, is_tautology};

use sat_model::literal::Lit;
use std::cmp::Ordering;

/// Whether the resolvent of two normal clauses on a literal, of the first with the second, is a tautology.
pub(crate) fn clash(lit: Lit, first: &[Lit], second: &[Lit]) -> bool
    requires first { IsNormal first.now }
    requires second { IsNormal second.now }
    ensures { result ≡ is_tautology (resolvent lit first.now second.now) }
{
    let mut i = 0;
    let mut j = 0;
    while i < first.len() && j < second.len() {
        let left = first[i];
        let right = second[j];
        match left.var().cmp(&right.var()) {
            Ordering::Less => i += 1,
            Ordering::Greater => j += 1,
            Ordering::Equal => {
                if left != right && left != lit {
                    return true;
                }
                i += 1;
                j += 1;
            }
        }
    }
    false
}
