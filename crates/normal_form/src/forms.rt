//! Clauses in normal form.
ghost use Rattle.std.specs.Prelude.{◌≡◌, ℕ, true, false, IfOk, IfSome, IfNone, IsTrue, ◌↔◌};
ghost use Rattle.std.specs.List.Sorted.{IsStrictlyIncreasing};
ghost use Rattle.sat_terms.specs.Literal.{has};
ghost use Rattle.sat_terms.specs.Normal.{IsNormal};
ghost use Rattle.normal_form.specs.Forms.{IsFormOf, IsTautology};

use sat_model::lists::Lits;
use sat_model::literal::Lit;
use sat_model::memory::Memory;
use std::alloc::Global;

/// Puts literals in rising order and drops repeats, in place. It takes no memory.
pub fn sort_and_dedup(lits: &mut Vec<Lit>)
    ensures rising { IsStrictlyIncreasing lits.new.items }
    ensures same { (l : ℕ) → has lits.new.items l ≡ has lits.old.items l }
{
    lits.sort_unstable();
    lits.dedup();
}

/// Whether a clause is in normal form already: its literals rise, and no variable stands twice. One
/// pass, which takes no memory, so that such a clause can be handed on as it is.
pub fn is_normal(lits: &[Lit]) -> bool
    ensures { IsTrue result ↔ IsNormal lits.now }
{
    // Where the variables rise from each literal to the next, literals and variables rise all
    // along.
    for k in 1..lits.len() {
        if lits[k - 1].var().index() >= lits[k].var().index() {
            return false;
        }
    }
    true
}

/// Whether a literal stands beside its negation. In rising order these are neighbours.
pub fn has_opposites(lits: &[Lit]) -> bool
    requires { IsStrictlyIncreasing lits.now }
    ensures some { result ≡ true → IsTautology lits.now }
    ensures none { result ≡ false → IsNormal lits.now }
{
    for k in 1..lits.len() {
        if lits[k - 1].neg() == lits[k] {
            return true;
        }
    }
    false
}

/// The normal form of a clause: the same literals, sorted and without repeats. `None` exactly where
/// a literal and its negation are among them, so that every assignment makes the clause true. The
/// literals may stand in any order and repeat; n of them take the time of a sort, n log n steps,
/// and one pass where they are in normal form already.
pub fn normal_form(alloc: Global, lits: &[Lit]) -> Result<Option<Lits>, Memory>
    ensures some { IfOk result (λ found. IfSome found (λ form. IsFormOf form lits.now)) }
    ensures none { IfOk result (λ found. IfNone found (IsTautology lits.now)) }
{
    if is_normal(lits) {
        let form = Lits::from_slice(alloc, lits)?;
        return Ok(Some(form));
    }
    let mut sorted = Vec::from_slice(alloc, lits)?;
    sort_and_dedup(&mut sorted);
    if has_opposites(sorted.as_slice()) {
        return Ok(None);
    }
    let form = Lits::from_slice(alloc, sorted.as_slice())?;
    Ok(Some(form))
}
