//! The replacement of a variable by a literal that it is equivalent to.
//!
//! Where `x` and `y` imply one another, each clause that holds `x` may hold `y` instead. So first
//! the two clauses that say so are looked for, and added where they are not firm: they follow
//! from the other clauses, by way of the literals between `x` and `y` in the graph. These are the
//! tie. Then in each other clause `x` is renamed to `y`, and `-x` to `-y`: the renamed clause
//! follows from the old one and the tie, so it comes as an implied clause, and then the old one
//! follows from it and the tie, and goes. Where the renamed clause holds a literal and its
//! negation, every assignment makes it true, and the old one goes alone. Each clause that is
//! renamed is a step.
//!
//! At the end the tie alone mentions the variable, and it is parked: `(x or -y)` with witness
//! `x`, and then `(-x or y)` with witness `-x`. When the first is parked, setting `x` true breaks
//! `(-x or y)` only where `y` is false, and there the first clause was true. When the second is
//! parked, no firm clause mentions the variable any more. A model found later gets the value of
//! `y` for `x` when the stack extends it: the newest entry acts first, and the older one mends
//! what it broke.
ghost use Rattle.std.specs.Prelude.{◌≡◌, ◌≢◌, ◌≤◌, ◌<◌, ℕ, [], ◌∷◌, length, true, IfOk, OnOk, IfSome, IfNone, MatchBool, count_by};
ghost use Rattle.sat_terms.specs.Literal.{has, neg as opposite, var_of};
ghost use Rattle.sat_terms.specs.Truth.{Implies};
ghost use Rattle.clause_store.specs.Stored.{FirmTrue, is_firm};
ghost use Rattle.firm_terms.specs.Firm.{firm, stands, Holds};
ghost use Rattle.pass_terms.specs.Ruled.{Ruled};
ghost use Rattle.firm_terms.specs.Implying.{Says};
ghost use Rattle.equiv_subst.specs.Walk.{Halted};
ghost use Rattle.equiv_subst.specs.Replacing.{always, all_but, renamed as renaming, AreTied, Renames, Cleared, Stopped, Ties, TiedBy, IsReady, RanOut, Parked, Replaced};

use clause_store::store::Store;
use normal_form::forms::normal_form;
use rule_kernel::kernel::Kernel;
use sat_model::lists::ClauseId;
use sat_model::literal::Lit;
use sat_model::memory::Memory;
use std::alloc::Global;

// The ids of the two clauses that say that two literals imply one another.
#[derive(Clone, Copy)]
pub(crate) struct Tie {
    // It says that the first implies the second.
    pub(crate) forth: ClauseId,
    // It says that the second implies the first.
    pub(crate) back: ClauseId,
}

// The literals of a clause, with one renamed.
fn renamed(alloc: Global, lits: &[Lit], p: Lit, q: Lit) -> Result<Vec<Lit>, Memory>
    ensures { IfOk result (λ all. all.items ≡ renaming p q lits.now) }
{
    let mut all = Vec::new(alloc);
    for lit in lits {
        let to = if *lit == p { q } else { *lit };
        all.push(to)?;
    }
    Ok(all)
}

// Puts the clause with p renamed to q in the place of a clause that holds p, or drops this one
// where that would be a tautology.
fn rename(
    alloc: Global,
    kernel: &mut Kernel,
    id: ClauseId,
    p: Lit,
    q: Lit,
    tie: &Tie,
) -> Result<(), Memory>
    requires tied { AreTied kernel.old.store p q tie.now.forth tie.now.back }
    requires holds { Holds kernel.old.store id p }
    requires other { tie.now.back ≢ id }
    requires apart { var_of p ≢ var_of q }
    ensures ruled { Ruled always kernel.old kernel.new }
    ensures ok { OnOk result (Renames kernel.old.store kernel.new.store id (var_of p)) }
{
    let lits = renamed(alloc, kernel.store().get(id), p, q)?;
    match normal_form(alloc, lits.as_slice())? {
        Some(form) => {
            // The new clause comes first: the old one is implied by it and the tie.
            kernel.add_implied(form.as_slice())?;
            kernel.drop_implied(id);
            Ok(())
        }
        None => {
            kernel.drop_implied(id);
            Ok(())
        }
    }
}

// A firm clause that holds a literal, but not that of one id.
fn next_other(store: &Store, lit: Lit, not: ClauseId) -> Option<ClauseId>
    ensures some { IfSome result (λ id. Holds store.now id lit × (not ≢ id)) }
    ensures none { IfNone result ((id : ℕ) → Holds store.now id lit → id ≡ not) }
{
    for id in store.occ(lit) {
        if *id != not {
            return Some(*id);
        }
    }
    None
}

// Renames p to q in each clause that holds p, but for that of the tie. Each is a step. Answers
// whether the limit left all of them.
fn rename_all(
    alloc: Global,
    kernel: &mut Kernel,
    p: Lit,
    q: Lit,
    tie: &Tie,
    steps: &mut u64,
    limit: u64,
) -> Result<bool, Memory>
    requires tied { AreTied kernel.old.store p q tie.now.forth tie.now.back }
    requires apart { var_of p ≢ var_of q }
    requires rest { steps.old ≤ limit }
    ensures ruled { Ruled always kernel.old kernel.new }
    ensures done { IfOk result (λ on. MatchBool on
        (Cleared kernel.old.store kernel.new.store p q tie.now.forth tie.now.back steps.old steps.new
        limit)
        (Stopped kernel.old.store kernel.new.store p q tie.now.forth tie.now.back steps.old steps.new
        limit)) }
{
    while let Some(id) = next_other(kernel.store(), p, tie.back) {
        if *steps >= limit {
            return Ok(false);
        }
        rename(alloc, kernel, id, p, q, tie)?;
        *steps += 1;
    }
    Ok(true)
}

// Whether a clause has two literals, one of which is this one.
fn is_pair_with(lits: &[Lit], lit: Lit) -> bool
    ensures { result ≡ true → (length lits.now ≡ 2) × (has lits.now lit ≡ true) }
{
    lits.len() == 2 && (lits[0] == lit || lits[1] == lit)
}

// A firm clause that says that a implies b, if there is one.
fn find_tie(store: &Store, a: Lit, b: Lit) -> Option<ClauseId>
    ensures { IfSome result (λ id. var_of a ≢ var_of b → Says store.now id a b) }
{
    for id in store.occ(a.neg()) {
        if is_pair_with(store.get(*id), b) {
            return Some(*id);
        }
    }
    None
}

// Adds the clause of two literals.
fn add_pair(kernel: &mut Kernel, a: Lit, b: Lit) -> Result<ClauseId, Memory>
    requires implied { Implies (FirmTrue kernel.old.store) (opposite a ∷ b ∷ []) }
    requires apart { var_of a ≢ var_of b }
    requires from { stands (firm kernel.old.store) (var_of a) ≡ true }
    requires to { stands (firm kernel.old.store) (var_of b) ≡ true }
    ensures ruled { Ruled always kernel.old kernel.new }
    ensures ok { IfOk result (λ id. Ties kernel.old.store kernel.new.store a b id) }
{
    let not = a.neg();
    if not < b {
        kernel.add_implied(&[not, b])
    } else {
        kernel.add_implied(&[b, not])
    }
}

// A firm clause that says that a implies b, which is added if there is none.
fn find_or_add(kernel: &mut Kernel, a: Lit, b: Lit) -> Result<ClauseId, Memory>
    requires implied { Implies (FirmTrue kernel.old.store) (opposite a ∷ b ∷ []) }
    requires apart { var_of a ≢ var_of b }
    requires from { stands (firm kernel.old.store) (var_of a) ≡ true }
    requires to { stands (firm kernel.old.store) (var_of b) ≡ true }
    ensures ruled { Ruled always kernel.old kernel.new }
    ensures ok { IfOk result (λ id. Ties kernel.old.store kernel.new.store a b id) }
{
    match find_tie(kernel.store(), a, b) {
        Some(id) => Ok(id),
        None => add_pair(kernel, a, b),
    }
}

// Two firm clauses that say that x and y imply one another; each is added if it is not there.
fn tie_both(kernel: &mut Kernel, x: Lit, y: Lit) -> Result<Tie, Memory>
    requires forth { Implies (FirmTrue kernel.old.store) (opposite x ∷ y ∷ []) }
    requires back { Implies (FirmTrue kernel.old.store) (opposite y ∷ x ∷ []) }
    requires apart { var_of x ≢ var_of y }
    requires from { stands (firm kernel.old.store) (var_of x) ≡ true }
    requires to { stands (firm kernel.old.store) (var_of y) ≡ true }
    ensures ruled { Ruled always kernel.old kernel.new }
    ensures ok { IfOk result (λ tie.
        TiedBy kernel.old.store kernel.new.store x y tie.forth tie.back) }
{
    let forth = find_or_add(kernel, x, y)?;
    let back = find_or_add(kernel, y, x)?;
    Ok(Tie { forth, back })
}

// Renames x to y in the clauses that hold x or its negation, but for the two that tie them.
fn rename_both(
    alloc: Global,
    kernel: &mut Kernel,
    x: Lit,
    y: Lit,
    tie: Tie,
    steps: &mut u64,
    limit: u64,
) -> Result<bool, Memory>
    requires tied { AreTied kernel.old.store x y tie.forth tie.back }
    requires apart { var_of x ≢ var_of y }
    requires rest { steps.old ≤ limit }
    ensures ruled { Ruled always kernel.old kernel.new }
    ensures done { IfOk result (λ on. MatchBool on
        (IsReady kernel.old.store kernel.new.store x y tie.forth tie.back steps.old steps.new
        limit)
        (RanOut kernel.old.store (var_of x) steps.old steps.new limit)) }
{
    if !rename_all(alloc, kernel, x, y, &tie, steps, limit)? {
        return Ok(false);
    }
    // The clause that says that y implies x says too that -x implies -y.
    let turned = Tie {
        forth: tie.back,
        back: tie.forth,
    };
    if !rename_all(alloc, kernel, x.neg(), y.neg(), &turned, steps, limit)? {
        return Ok(false);
    }
    Ok(true)
}

// Parks the two clauses that tie x to y, where no other clause mentions the variable of x.
fn park_both(kernel: &mut Kernel, x: Lit, y: Lit, tie: Tie) -> Result<(), Memory>
    requires tied { AreTied kernel.old.store x y tie.forth tie.back }
    requires apart { var_of x ≢ var_of y }
    requires clear { (id : ℕ) → Holds kernel.old.store id x → id ≡ tie.back }
    requires clear_too { (id : ℕ) → Holds kernel.old.store id (opposite x) → id ≡ tie.forth }
    ensures ruled { Ruled (all_but (var_of x)) kernel.old kernel.new }
    ensures ok { OnOk result (Parked kernel.old.store kernel.new.store (var_of x)) }
{
    // The clause that holds x goes first: the other one stands yet, and is true where y is.
    kernel.park(tie.back, &[x])?;
    kernel.park(tie.forth, &[x.neg()])?;
    Ok(())
}

/// Replaces a literal by another one, where each implies the other: the two clauses that say so
/// are added if they are not there, the other clauses that hold the variable are renamed, which
/// is a step each, and the two are parked. Answers whether the limit left all steps.
pub(crate) fn replace(
    alloc: Global,
    kernel: &mut Kernel,
    x: Lit,
    y: Lit,
    steps: &mut u64,
    limit: u64,
) -> Result<bool, Memory>
    requires forth { Implies (FirmTrue kernel.old.store) (opposite x ∷ y ∷ []) }
    requires back { Implies (FirmTrue kernel.old.store) (opposite y ∷ x ∷ []) }
    requires apart { var_of x ≢ var_of y }
    requires from { stands (firm kernel.old.store) (var_of x) ≡ true }
    requires to { stands (firm kernel.old.store) (var_of y) ≡ true }
    requires rest { steps.old ≤ limit }
    ensures ruled { Ruled (all_but (var_of x)) kernel.old kernel.new }
    ensures done { IfOk result (λ on. MatchBool on
        (Replaced kernel.old.store kernel.new.store (var_of x) steps.old steps.new limit)
        (Halted steps.old steps.new (count_by is_firm kernel.old.store) limit)) }
{
    let tie = tie_both(kernel, x, y)?;
    if !rename_both(alloc, kernel, x, y, tie, steps, limit)? {
        return Ok(false);
    }
    park_both(kernel, x, y, tie)?;
    Ok(true)
}
