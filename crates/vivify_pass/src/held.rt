//! A clause on which a literal of the root may rest.
//!
//! The rule tries a clause over the others alone. So nothing may be on the trail that only the
//! clause itself makes true. It can have made just one literal true, one of its own, and all its
//! others are false on the trail then. Any other clause is a reason for no step: what the root has
//! follows without it, and it is tried over that.
//!
//! A clause with one true literal and all others false need not be tried at all, for it is known
//! what comes out. What makes the others false came before the true literal, or rests on other
//! clauses, so all of them are false without the clause too. Its first literal is assumed. Where
//! that is the true one, the others are left out, and it alone is the new clause. Where it is one of
//! the others, nothing more follows than the root has, so no clause is false; and the others are
//! left out but for the true one. If that is true without the clause, the rule stops with the first
//! one and it; if it is not, it is assumed as the last. So the first literal and the true one
//! are the new clause either way. One literal is assumed, and counted.
//!
//! A clause of one literal is assumed whole, whatever follows, and needs no look either.
ghost use Rattle.std.specs.Prelude.{◌≡◌, ◌≤◌, ◌<◌, ◌+◌, ℕ, true, false, length, IfOk, IfSome, IfNone, MatchOption};
ghost use Rattle.sat_terms.specs.Normal.{IsNormal};
ghost use Rattle.vivify_pass.specs.Trailing.{IsHeld, held_form, IsCount};

use sat_model::literal::Lit;
use sat_model::memory::Memory;
use std::alloc::Global;
use trail_state::trail::Trail;

/// The true literal of some, where all others are false; none where one is open, or another is true.
pub(crate) fn held_lit(trail: &Trail, lits: &[Lit]) -> Option<Lit>
    requires { IsNormal lits.now }
    ensures { MatchOption result ((l : ℕ) → IsHeld trail.now.steps lits.now l → ⊥)
        (λ l. IsHeld trail.now.steps lits.now l) }
{
    trail.law_shape();
    let mut found = None;
    for lit in lits {
        match trail.value(*lit) {
            None => return None,
            Some(value) => {
                if value {
                    if found.is_some() {
                        return None;
                    }
                    found = Some(*lit);
                }
            }
        }
    }
    found
}

// Takes a step, if the limit leaves one.
fn take_step(steps: &mut u64, limit: u64) -> bool
    requires { steps.old ≤ limit }
    ensures took { result ≡ true → (steps.new ≡ steps.old + 1) × (steps.new ≤ limit) }
    ensures full { result ≡ false → (steps.new ≡ steps.old) × (steps.old ≡ limit) }
{
    if *steps >= limit {
        return false;
    }
    *steps += 1;
    true
}

/// The first of some literals and another one of them, or the first alone where it is that one. A
/// literal is assumed, which is a step. `None` where the limit left no step.
pub(crate) fn shorten_held(
    alloc: Global,
    lits: &[Lit],
    held: Lit,
    steps: &mut u64,
    limit: u64,
) -> Result<Option<Vec<Lit>>, Memory>
    requires some { 0 < length lits.now }
    requires rest { steps.old ≤ limit }
    ensures rest { steps.new ≤ limit }
    ensures spent { steps.new ≤ steps.old + 1 }
    ensures full { IfOk result (λ found. IfNone found ((steps.new ≡ limit)
        × (steps.new ≡ steps.old))) }
    ensures counted { IfOk result (λ found.
        IfSome found (λ new. IsCount steps.old steps.new (length new.items))) }
    ensures made { IfOk result (λ found.
        IfSome found (λ new. new.items ≡ held_form lits.now held)) }
{
    if !take_step(steps, limit) {
        return Ok(None);
    }
    let first = lits[0];
    let mut new = Vec::new(alloc);
    new.push(first)?;
    if first == held {
        return Ok(Some(new));
    }
    new.push(held)?;
    Ok(Some(new))
}

/// A clause of at most one literal, which is assumed, a step. `None` where the limit left no step.
pub(crate) fn assume_whole(
    alloc: Global,
    lits: &[Lit],
    steps: &mut u64,
    limit: u64,
) -> Result<Option<Vec<Lit>>, Memory>
    requires short { length lits.now < 2 }
    requires rest { steps.old ≤ limit }
    ensures rest { steps.new ≤ limit }
    ensures spent { steps.new ≤ steps.old + length lits.now }
    ensures full { IfOk result (λ found. IfNone found ((steps.new ≡ limit)
        × (steps.new < steps.old + length lits.now))) }
    ensures counted { IfOk result (λ found.
        IfSome found (λ new. IsCount steps.old steps.new (length new.items))) }
    ensures made { IfOk result (λ found. IfSome found (λ new. new.items ≡ lits.now)) }
{
    let mut new = Vec::new(alloc);
    if lits.len() == 0 {
        return Ok(Some(new));
    }
    if !take_step(steps, limit) {
        return Ok(None);
    }
    new.push(lits[0])?;
    Ok(Some(new))
}
