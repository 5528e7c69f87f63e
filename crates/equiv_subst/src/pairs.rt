//! The pairs of equivalent literals of a component.
//!
//! Of each strong component one literal stays, the representative, and each other one is to be
//! replaced by it: a literal of a frozen variable if there is one, since no witness may be on
//! such a variable, and else the literal of the least variable. So a pair is a literal and the
//! representative. Two frozen variables make no pair. A literal and its negation do, whatever is
//! frozen: then the clauses have no model, and the pass says so.
//!
//! The component of the negations gives the mirror image of each pair. Nothing rests on that:
//! each pair is used by itself, where both variables still stand in firm clauses when its turn
//! comes, and then its mirror image finds its variable gone.
ghost use Rattle.std.specs.Prelude.{◌≡◌, ◌≢◌, ◌≤◌, ◌<◌, ℕ, length, true, OnOk, IfSome, IfNone};
ghost use Rattle.sat_terms.specs.Literal.{has, var_of};
ghost use Rattle.rule_kernel.specs.Frozen.{is_frozen};
ghost use Rattle.equiv_subst.specs.Walk.{IsPairFor, AreFrom, AreFrozen};

use rule_kernel::frozen::Frozen;
use sat_model::literal::Lit;
use sat_model::memory::Memory;

/// Two literals that imply one another: the first is to be replaced by the second.
#[derive(Clone, Copy)]
pub(crate) struct Pair {
    // The one that is replaced. Its variable is not frozen, unless `to` is of the same variable.
    pub(crate) lit: Lit,
    // The one that stays.
    pub(crate) to: Lit,
}

// Whether a literal is a better representative than another: a frozen variable's first, then the
// least variable's.
fn is_better(frozen: &Frozen, lit: Lit, other: Lit) -> bool {
    if frozen.has(lit.var()) == frozen.has(other.var()) {
        lit.var() < other.var()
    } else {
        frozen.has(lit.var())
    }
}

// The representative of a component.
fn representative(frozen: &Frozen, members: &[Lit]) -> Lit
    requires { 0 < length members.now }
    ensures { has members.now result ≡ true }
{
    let mut best = members[0];
    for lit in members {
        if is_better(frozen, *lit, best) {
            best = *lit;
        }
    }
    best
}

// The pair of a literal of a component and the representative, if one of them is to be replaced.
fn pair_of(frozen: &Frozen, lit: Lit, to: Lit) -> Option<Pair>
    ensures some { IfSome result (λ p. IsPairFor (is_frozen frozen.now) p lit to) }
    ensures none { IfNone result (lit ≢ to
        → (is_frozen frozen.now (var_of lit) ≡ true)
        × (is_frozen frozen.now (var_of to) ≡ true)) }
{
    if lit == to {
        return None;
    }
    if lit.var() == to.var() || !frozen.has(lit.var()) {
        return Some(Pair { lit, to });
    }
    if frozen.has(to.var()) {
        return None;
    }
    Some(Pair { lit: to, to: lit })
}

/// Adds the pairs of a component.
pub(crate) fn push_pairs(
    frozen: &Frozen,
    members: &[Lit],
    pairs: &mut Vec<Pair>,
) -> Result<(), Memory>
    requires { 0 < length members.now }
    ensures from { OnOk result
        (AreFrom (is_frozen frozen.now) pairs.old.items members.now pairs.new.items) }
    ensures grown { OnOk result (length pairs.old.items ≤ length pairs.new.items) }
    ensures frozen { OnOk result
        (length pairs.new.items ≡ 0 → AreFrozen (is_frozen frozen.now) members.now) }
{
    let to = representative(frozen, members);
    for lit in members {
        if let Some(pair) = pair_of(frozen, *lit, to) {
            pairs.push(pair)?;
        }
    }
    Ok(())
}
