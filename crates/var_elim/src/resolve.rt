//! The resolvent of two clauses.
//!
//! Both clauses are normal, so their literals rise by variable, and the resolvent is put together in one walk through both, as two sorted
//! lists are merged. At each step the lesser of the two literals that come next goes to the resolvent; a literal that both hold goes there
//! once. Where the two are opposite, they are either the literals that are resolved on, which are left out, or the resolvent is a
//! tautology, and the walk ends. So a resolvent costs as many steps as its clauses have literals, and it is in normal form from the
//! start. A tautology takes no memory of its own: the literals go into a list that is used for each pair anew.
ghost use Rattle.std.specs.Prelude.{◌≡◌, ◌<◌, ◌≤◌, ◌+◌, ◌⊎◌, true, false, length, IfOk, IfSome, IfNone, MatchBool};
ghost use Rattle.sat_terms.specs.Literal.{has, neg as opposite};
ghost use Rattle.sat_terms.specs.Normal.{IsNormal};
ghost use Rattle.normal_form.specs.Forms.{IsFormOf};
ghost use Rattle.firm_terms.specs.Resolving.{resolvent, is_tautology};
ghost use Rattle.var_elim.specs.Merging.{Leads};

use sat_model::lists::Lits;
use sat_model::literal::Lit;
use sat_model::memory::Memory;
use std::alloc::Global;

// Which literal comes next in a walk through two clauses.
#[derive(Clone, Copy)]
pub(crate) enum Next {
    // That of the first one.
    Left,
    // That of the second one.
    Right,
    // The literal that is next in both.
    Both,
    // None: the next two are those that are resolved on.
    Skip,
    // None: the next two are opposite, so the resolvent is a tautology.
    Clash,
}

// Which literal comes next, where not both walks are at the end.
fn compare(left: &[Lit], right: &[Lit], at: usize, to: usize, lit: Lit) -> Next
    requires left { IsNormal left.now }
    requires right { IsNormal right.now }
    requires at { at ≤ length left.now }
    requires to { to ≤ length right.now }
    requires some { (at < length left.now) ⊎ (to < length right.now) }
    requires negation { has right.now (opposite lit) ≡ true }
    ensures { Leads lit left.now right.now at to result }
{
    if to == right.len() {
        return Next::Left;
    }
    if at == left.len() {
        return Next::Right;
    }
    let first = left[at];
    let second = right[to];
    let low = first.var().index();
    let high = second.var().index();
    if low < high {
        return Next::Left;
    }
    if high < low {
        return Next::Right;
    }
    if first == second {
        return Next::Both;
    }
    if first == lit {
        return Next::Skip;
    }
    Next::Clash
}

// Puts the resolvent together. Answers whether it is no tautology.
fn merge(form: &mut Vec<Lit>, left: &[Lit], right: &[Lit], lit: Lit) -> Result<bool, Memory>
    requires left { IsNormal left.now }
    requires right { IsNormal right.now }
    requires holds { has left.now lit ≡ true }
    requires negation { has right.now (opposite lit) ≡ true }
    ensures { IfOk result (λ clear. MatchBool clear (IsFormOf form.new.items (resolvent lit left.now right.now)) (is_tautology (resolvent lit left.now right.now) ≡ true)) }
{
    form.clear();
    let mut at = 0;
    let mut to = 0;
    while at < left.len() || to < right.len() {
        match compare(left, right, at, to, lit) {
            Next::Left => {
                form.push(left[at])?;
                at += 1;
            }
            Next::Right => {
                form.push(right[to])?;
                to += 1;
            }
            Next::Both => {
                form.push(left[at])?;
                at += 1;
                to += 1;
            }
            Next::Skip => {
                at += 1;
                to += 1;
            }
            Next::Clash => return Ok(false),
        }
    }
    Ok(true)
}

/// The resolvent of two clauses on a literal of the first whose negation the second holds, in normal form; `None` where it is a
/// tautology. The list is for the literals meanwhile: what it has is lost.
pub(crate) fn resolve(
    alloc: Global,
    left: &[Lit],
    right: &[Lit],
    lit: Lit,
    scratch: &mut Vec<Lit>,
) -> Result<Option<Lits>, Memory>
    requires left { IsNormal left.now }
    requires right { IsNormal right.now }
    requires holds { has left.now lit ≡ true }
    requires negation { has right.now (opposite lit) ≡ true }
    ensures some { IfOk result (λ found. IfSome found (λ form. IsFormOf form (resolvent lit left.now right.now))) }
    ensures none { IfOk result (λ found. IfNone found (is_tautology (resolvent lit left.now right.now) ≡ true)) }
{
    if !merge(scratch, left, right, lit)? {
        return Ok(None);
    }
    let form = Lits::from_slice(alloc, scratch.as_slice())?;
    Ok(Some(form))
}
