//! The clauses of the runs.
//!
//! Each has three positive literals. Those that share one have the literal of the variable 1, and two of their own, so that the list of
//! occurrences of that literal has every clause; the others have three of their own. The variables of a clause rise with its number.
use sat_model::literal::{Lit, Var};

// The clause of a number, or `None` where its variables are too great.
pub(crate) fn clause_of(number: u32, shared: bool) -> Option<[Lit; 3]> {
    let last = if shared {
        number.checked_mul(2)?.checked_add(3)?
    } else {
        number.checked_mul(3)?.checked_add(3)?
    };
    let first = if shared { 1 } else { last - 2 };
    Some([
        Var::new(first)?.positive(),
        Var::new(last - 1)?.positive(),
        Var::new(last)?.positive(),
    ])
}
