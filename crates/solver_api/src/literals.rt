//! Lists of literals.
ghost use Rattle.std.specs.Prelude.{◌≡◌, ◌≤◌, ◌||◌, ◌==◌, max, length};
ghost use Rattle.sat_terms.specs.Limits.{max_var};
ghost use Rattle.sat_terms.specs.Answer.{Within, greatest_var};

use sat_model::literal::Lit;

// The greatest variable of the literals, or `most` where that is greater.
pub(crate) fn greatest_of(most: u32, lits: &[Lit]) -> u32
    requires { most ≤ max_var }
    ensures value { result ≡ max most (greatest_var lits.now) }
    ensures few { result ≤ max_var }
    ensures within { Within result lits.now }
{
    let mut greatest = most;
    for lit in lits {
        greatest = greatest.max(lit.var().index());
    }
    greatest
}

// Whether a solver is settled that was settled or not, once these literals are a clause or a core.
pub(crate) fn settles(settled: bool, lits: &[Lit]) -> bool
    ensures { result ≡ (settled || (length lits.now == 0)) }
{
    settled || lits.is_empty()
}
