//! The comparison of two clauses.
//!
//! Of two clauses c and d, two things are asked: whether all of c stands in d, so that d is implied and may go; and whether all but one
//! literal of c does, and that one stands there negated, so that d loses the negated one by resolution with c. Both are answered by one
//! walk (as in SatELite: Eén and Biere, "Effective preprocessing in SAT through variable and clause elimination", SAT 2005), since they
//! differ only in how many literals may be met negated: none, or one.
//!
//! Clauses are stored sorted by variable, and each variable stands once in a clause. So the walk goes through c once and, beside it,
//! through d: for each literal of c the place in d moves on past all lower variables, and there stands the literal, its negation, or
//! neither. Neither ends the walk, since a variable of c that stands not in d lets nothing follow. So does a second negation: resolution
//! takes away one literal alone. The place never goes back, so the walk takes at most as many turns as both clauses have literals.
//!
//! It is right because literals that were passed in d have lower variables than what is left of c: if a literal of c stands in d, it
//! stands from the place on, and the first variable there that is not lower tells. What is answered is said by the definitions of the rule,
//! `IsWithin`, `Resolves` and `IsFree`, on clauses as sets of literals; that they are sorted is only what the walk needs.
//!
//! Left out: marks on the literals of c, by which d could be walked alone. They pay where one clause is compared with very many; the
//! clauses that are compared here were chosen before, by their rarest variable and by their length.
ghost use Rattle.std.specs.Prelude.{◌≡◌, ◌≤◌, ◌<◌, ℕ, length, slice_index_or};
ghost use Rattle.sat_terms.specs.Literal.{var_of};
ghost use Rattle.sat_terms.specs.Normal.{IsNormal};
ghost use Rattle.subsume_pass.specs.Comparing.{Fits, Looks};

use sat_model::literal::Lit;

// How a clause stands to another one.
#[derive(Clone, Copy)]
pub(crate) enum Fit {
    // Nothing follows.
    Apart,
    // The other one holds all of it.
    Subsumes,
    // The other one loses the literal at a place by resolution with it.
    Shortens(usize),
}

// What stands at a place of a clause.
#[derive(Clone, Copy)]
pub(crate) enum Look {
    // A literal.
    Same,
    // Its negation.
    Opposite,
    // Neither of both, or the clause ends before the place.
    Neither,
}

// The first place, from a place on, whose variable is not below that of a literal.
fn seek(d: &[Lit], from: usize, lit: Lit) -> usize
    requires { from ≤ length d.now }
    ensures from { from ≤ result }
    ensures within { result ≤ length d.now }
    ensures passed { (k : ℕ) → from ≤ k → k < result → var_of (slice_index_or d.now k 0) < var_of lit }
    ensures met { result < length d.now → var_of lit ≤ var_of (slice_index_or d.now result 0) }
{
    let last = lit.var().index();
    let mut at = from;
    while at < d.len() {
        let here = d[at].var().index();
        if here >= last {
            return at;
        }
        at += 1;
    }
    at
}

// What stands at a place.
fn at_place(d: &[Lit], at: usize, lit: Lit) -> Look
    ensures { Looks d.now at lit result }
{
    if at >= d.len() {
        return Look::Neither;
    }
    let here = d[at];
    if here == lit {
        return Look::Same;
    }
    if here == lit.neg() {
        return Look::Opposite;
    }
    Look::Neither
}

/// How a clause stands to another one.
pub(crate) fn compare(c: &[Lit], d: &[Lit]) -> Fit
    requires c { IsNormal c.now }
    requires d { IsNormal d.now }
    ensures { Fits c.now d.now result }
{
    let mut at = 0;
    let mut flipped = None;
    for lit in c {
        at = seek(d, at, *lit);
        match at_place(d, at, *lit) {
            Look::Same => {}
            Look::Opposite => {
                if flipped.is_some() {
                    return Fit::Apart;
                }
                flipped = Some(at);
            }
            Look::Neither => return Fit::Apart,
        }
    }
    match flipped {
        None => Fit::Subsumes,
        Some(place) => Fit::Shortens(place),
    }
}
