//! A look at all clauses.
ghost use Rattle.std.specs.Prelude.{◌≡◌, ◌+◌, ◌<◌, ◌≤◌, All, Some, length, slice_get};
ghost use Rattle.sat_terms.specs.Answer.{Within};
ghost use Rattle.plain_search.specs.Rules.{rules};
ghost use Rattle.plain_search.specs.Search.{FindsIn, FindsAmong};

use crate::assignment::Assignment;
use crate::clause_list::ClauseList;
use sat_model::literal::Lit;

/// What is found.
#[derive(Clone, Copy, Debug, PartialEq, Eq)]
pub enum Finding {
    /// A clause is false.
    Conflict,
    /// This literal has to be true: the others of a clause are false.
    Forced(Lit),
    /// Some clause has a literal without a value.
    Undecided,
    /// Each clause has a true literal.
    Met,
}

// What one clause says.
fn look(now: &Assignment, lits: &[Lit]) -> Finding
    requires { Within now.now.vars lits.now }
    ensures { FindsIn now.now.steps lits.now result }
{
    let mut first = None;
    let mut undecided = false;
    for lit in lits {
        match now.value(*lit) {
            Some(true) => return Finding::Met,
            Some(false) => {}
            None => match first {
                None => first = Some(*lit),
                Some(other) => undecided = undecided || other != *lit,
            },
        }
    }
    match first {
        None => Finding::Conflict,
        Some(lit) => {
            if undecided {
                Finding::Undecided
            } else {
                Finding::Forced(lit)
            }
        }
    }
}

// The k-th of the assumptions, as a clause of one literal, and then of the clauses.
fn rule<'a, L: ClauseList>(clauses: &'a L, assumed: &'a [Lit], k: usize) -> &'a [Lit]
    requires { k < length (rules assumed.now (L.clauses clauses.now)) }
    ensures { slice_get (rules assumed.now (L.clauses clauses.now)) k ≡ Some result.now }
{
    if k < assumed.len() {
        &assumed[k..k + 1]
    } else {
        clauses.clause(k - assumed.len())
    }
}

// The place behind this one, and the first behind the last.
fn next_place(at: usize, count: usize) -> usize
    requires { at < count }
    ensures below { result < count }
    ensures next { at + 1 < count → result ≡ at + 1 }
    ensures first { at + 1 ≡ count → result ≡ 0 }
{
    if at + 1 < count { at + 1 } else { 0 }
}

/// What the assumptions and the clauses say. The look begins at a place and goes round all of them once, or to the first that is
/// false or forces a literal; the place is then the one behind.
pub fn scan<L: ClauseList>(
    now: &Assignment,
    clauses: &L,
    assumed: &[Lit],
    place: &mut usize,
) -> Finding
    requires { All (Within now.now.vars) (rules assumed.now (L.clauses clauses.now)) }
    ensures { FindsAmong now.now.steps (rules assumed.now (L.clauses clauses.now)) result }
{
    let count = assumed.len() + clauses.len();
    let mut at = if *place < count { *place } else { 0 };
    let mut met = true;
    for _k in 0..count {
        let finding = look(now, rule(clauses, assumed, at));
        at = next_place(at, count);
        *place = at;
        match finding {
            Finding::Met => {}
            Finding::Undecided => met = false,
            Finding::Conflict => return Finding::Conflict,
            Finding::Forced(lit) => return Finding::Forced(lit),
        }
    }
    if met {
        Finding::Met
    } else {
        Finding::Undecided
    }
}
