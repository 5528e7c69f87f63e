//! The pass: equivalent literals are replaced, in rounds.
//!
//! Clauses of two literals tie variables to one another in long chains and cycles, above all
//! where circuits were encoded. Of variables that are equivalent one is enough: the others go,
//! and their clauses get shorter, or go too. Literals are equivalent where they lead to one
//! another by the implications that the binary firm clauses say (Aspvall, Plass, Tarjan, 1979);
//! learned clauses are not used.
//!
//! A round walks over the implications once and gets pairs of equivalent literals. Where one has
//! a literal and its negation, the clauses have no model: the empty clause is added, and the pass
//! ends. Else the first literal of each pair is replaced by the second. What was implied when the
//! round began is implied yet where no variable of it is gone, so the pairs need not be found
//! anew after each replacement; a pair of which a variable is gone is passed over. Replacing
//! makes new binary clauses, and so maybe new equivalences: the next round finds them. A round
//! that finds no pair is the last.
//!
//! With M firm clauses at the start, a walk is at most 2 M steps and a replacement at most M, and
//! never are there more firm clauses than before. Each round but the last replaces a variable at
//! least. So after each replaced variable at most 3 M steps pass to the next.
ghost use Rattle.std.specs.Prelude.{◌≡◌, ◌≢◌, ◌≤◌, ◌<◌, ◌+◌, ◌*◌, ◌-◌, ℕ, [], ◌∷◌, length, true, false, Ok, IfOk, OnOk, MatchBool, count_by};
ghost use Rattle.sat_terms.specs.Literal.{neg as opposite, var_of};
ghost use Rattle.sat_terms.specs.Truth.{Implies};
ghost use Rattle.clause_store.specs.Stored.{FirmTrue, is_firm};
ghost use Rattle.rule_kernel.specs.Frozen.{is_frozen};
ghost use Rattle.rule_kernel.specs.declared.report.Ended.TheVariants.{Fixpoint};
ghost use Rattle.rule_kernel.specs.Settled.{IsUntied};
ghost use Rattle.firm_terms.specs.Firm.{firm, stands, has_empty, Holds};
ghost use Rattle.firm_terms.specs.Implying.{NoEquivalents};
ghost use Rattle.rule_kernel.specs.Rules.{SameButMarks};
ghost use Rattle.pass_terms.specs.Ruled.{Ruled};
ghost use Rattle.equiv_subst.specs.Walk.{pair, Halted};
ghost use Rattle.equiv_subst.specs.Replacing.{all_but};
ghost use Rattle.equiv_subst.specs.Pass.{Ends, AreEquivalent, Equivalences, ImpliedWhereBothStand, HasClash, HasNoClash, Tried, Advanced, Exhausted, Rounded};

use crate::graph::Graph;
use crate::pairs::Pair;
use crate::replace::replace;
use crate::walk::find_pairs;
use clause_store::store::Store;
use pass_terms::refuted::is_refuted;
use rule_kernel::frozen::Frozen;
use rule_kernel::kernel::Kernel;
use rule_kernel::report::{Ended, PassReport};
use sat_model::literal::Lit;
use sat_model::memory::Memory;
use std::alloc::Global;

// How a round ended.
#[derive(Clone, Copy)]
pub(crate) enum Round {
    // Nothing is left to do.
    Quiet,
    // The limit left no step.
    Full,
    // Variables were replaced.
    Again,
}

// Whether a firm clause holds a literal.
fn occurs(store: &Store, lit: Lit) -> bool
    ensures yes { result ≡ true → (id : ℕ) × Holds store.now id lit }
    ensures no { result ≡ false → (id : ℕ) → Holds store.now id lit → ⊥ }
{
    let count = store.occ(lit).len();
    if count == 0 {
        return false;
    }
    true
}

// Whether the variable of a literal stands in firm clauses.
fn is_there(store: &Store, lit: Lit) -> bool
    ensures { result ≡ stands (firm store.now) (var_of lit) }
{
    if occurs(store, lit) {
        return true;
    }
    occurs(store, lit.neg())
}

// The pairs of equivalent literals, the first of which is to be replaced. Answers whether the
// limit left all steps.
fn equivalences(
    alloc: Global,
    store: &Store,
    frozen: &Frozen,
    pairs: &mut Vec<Pair>,
    steps: &mut u64,
    limit: u64,
) -> Result<bool, Memory>
    requires none { pairs.old.items ≡ [] }
    requires rest { steps.old ≤ limit }
    ensures { IfOk result (λ on. MatchBool on
        (Equivalences (is_frozen frozen.now) store.now pairs.new.items steps.old steps.new
        limit)
        (Halted steps.old steps.new (2 * length (firm store.now)) limit)) }
{
    let graph = Graph::of(alloc, store)?;
    if !find_pairs(alloc, &graph, frozen, pairs, steps, limit)? {
        return Ok(false);
    }
    Ok(true)
}

// Whether a pair has a literal and its negation.
fn has_clash(pairs: &[Pair]) -> bool
    ensures yes { result ≡ true → HasClash pairs.now }
    ensures no { result ≡ false → HasNoClash pairs.now }
{
    for pair in pairs {
        if pair.lit.var() == pair.to.var() {
            return true;
        }
    }
    false
}

// Replaces the first literal of a pair, if both variables still stand in firm clauses. Answers
// whether the limit left all steps.
fn try_replace(
    alloc: Global,
    kernel: &mut Kernel,
    x: Lit,
    y: Lit,
    steps: &mut u64,
    limit: u64,
) -> Result<bool, Memory>
    requires forth { ImpliedWhereBothStand kernel.old.store x y }
    requires back { ImpliedWhereBothStand kernel.old.store y x }
    requires apart { var_of x ≢ var_of y }
    requires rest { steps.old ≤ limit }
    ensures ruled { Ruled (all_but (var_of x)) kernel.old kernel.new }
    ensures done { IfOk result (λ on. MatchBool on
        (Tried kernel.old kernel.new x y steps.old steps.new limit)
        (Halted steps.old steps.new (count_by is_firm kernel.old.store) limit)) }
{
    if !is_there(kernel.store(), x) {
        return Ok(true);
    }
    if !is_there(kernel.store(), y) {
        return Ok(true);
    }
    replace(alloc, kernel, x, y, steps, limit)
}

// Replaces the first literal of each pair. Answers whether the limit left all steps.
fn replace_all(
    alloc: Global,
    kernel: &mut Kernel,
    frozen: &Frozen,
    pairs: &[Pair],
    steps: &mut u64,
    limit: u64,
) -> Result<bool, Memory>
    requires are { AreEquivalent (is_frozen frozen.now) kernel.old.store pairs.now }
    requires apart { HasNoClash pairs.now }
    requires some { 0 < length pairs.now }
    requires rest { steps.old ≤ limit }
    ensures ruled { Ruled (is_frozen frozen.now) kernel.old kernel.new }
    ensures done { IfOk result (λ on. MatchBool on
        (Advanced kernel.old.store kernel.new.store steps.old steps.new limit)
        (Exhausted kernel.old.store kernel.new.store steps.old steps.new limit)) }
{
    for pair in pairs {
        if !try_replace(alloc, kernel, pair.lit, pair.to, steps, limit)? {
            return Ok(false);
        }
    }
    Ok(true)
}

// Finds equivalences and replaces literals by them, or adds the empty clause where a literal is
// equivalent to its negation.
fn one_round(
    alloc: Global,
    kernel: &mut Kernel,
    frozen: &Frozen,
    steps: &mut u64,
    limit: u64,
) -> Result<Round, Memory>
    requires rest { steps.old ≤ limit }
    ensures ruled { Ruled (is_frozen frozen.now) kernel.old kernel.new }
    ensures done { IfOk result (λ round.
        Rounded (is_frozen frozen.now) kernel.old.store kernel.new.store steps.old steps.new limit
        round) }
{
    let mut pairs = Vec::new(alloc);
    if !equivalences(alloc, kernel.store(), frozen, &mut pairs, steps, limit)? {
        return Ok(Round::Full);
    }
    if pairs.is_empty() {
        return Ok(Round::Quiet);
    }
    if has_clash(pairs.as_slice()) {
        kernel.add_implied(&[])?;
        return Ok(Round::Quiet);
    }
    if !replace_all(alloc, kernel, frozen, pairs.as_slice(), steps, limit)? {
        return Ok(Round::Full);
    }
    Ok(Round::Again)
}

// The kernel remembers an end at which there are no equivalences, unless there is an empty clause.
fn remember(kernel: &mut Kernel, frozen: &Frozen) -> Result<(), Memory>
    requires { has_empty (firm kernel.old.store) ≡ false → NoEquivalents (is_frozen frozen.now) kernel.old.store }
    ensures same { SameButMarks kernel.old kernel.new }
    ensures settled { OnOk result (has_empty (firm kernel.new.store) ≡ false
        → IsUntied kernel.new.settled frozen.now) }
{
    if is_refuted(kernel.store()) {
        return Ok(());
    }
    kernel.settle_untied(frozen)?;
    Ok(())
}

/// Replaces each variable that is not frozen and is equivalent, by a strong component of the
/// implications that the binary firm clauses say, to a literal of another variable, until there
/// is none (`Fixpoint`), or until as many steps were counted as `limit` and one more is needed
/// (`Limit`). A step is an implication that is looked at, or a clause that is rewritten. With M
/// firm clauses and n variables in them at the start, a limit of 3 M (n + 1) is always enough,
/// and after `Limit(s)` at least s / (3 M) of these variables stand in no firm clause any more.
///
/// The kernel changes by its rules alone, as passes may use them (`Ruled`), whatever is answered:
/// after `Memory` it is as the last rule left it. `removed` is the rise of the kernel's count of
/// removals. Where an empty clause is firm, nothing changes; where one comes, since a literal is
/// equivalent to its negation, the pass ends with `Fixpoint`.
///
/// After `Fixpoint` the kernel remembers that there are no equivalences beside just these frozen
/// variables, unless there is an empty clause. Where it remembers so still, since no clause came,
/// nothing changes, and the answer is `Fixpoint` with none removed, whatever the limit: it costs
/// as many steps as variables are frozen.
pub fn run(kernel: &mut Kernel, frozen: &Frozen, limit: u64) -> Result<PassReport, Memory>
    ensures ruled { Ruled (is_frozen frozen.now) kernel.old kernel.new }
    ensures removed { IfOk result (λ report.
        report.removed ≡ kernel.new.removals - kernel.old.removals) }
    ensures ended { IfOk result (λ report.
        Ends (is_frozen frozen.now) kernel.old.store kernel.new.store limit report.ended) }
    ensures refuted { has_empty (firm kernel.old.store) ≡ true → kernel.new ≡ kernel.old }
    ensures refuted_ends { IfOk result (λ report.
        has_empty (firm kernel.old.store) ≡ true → report.ended ≡ Fixpoint) }
    ensures settled { IfOk result (λ report. report.ended ≡ Fixpoint
        → has_empty (firm kernel.new.store) ≡ false → IsUntied kernel.new.settled frozen.now) }
    ensures idle { IsUntied kernel.old.settled frozen.now → kernel.new ≡ kernel.old }
    ensures idle_ends { IsUntied kernel.old.settled frozen.now
        → result ≡ Ok (record { removed = 0; ended = Fixpoint }) }
{
    let removals = kernel.removals();
    let untied = kernel.is_untied(frozen);
    if untied {
        return Ok(PassReport {
            removed: 0,
            ended: Ended::Fixpoint,
        });
    }
    if is_refuted(kernel.store()) {
        return Ok(PassReport {
            removed: 0,
            ended: Ended::Fixpoint,
        });
    }
    let alloc = kernel.alloc();
    let mut steps = 0;
    loop {
        match one_round(alloc, kernel, frozen, &mut steps, limit)? {
            Round::Quiet => {
                remember(kernel, frozen)?;
                return Ok(PassReport {
                    removed: kernel.removals().saturating_sub(removals),
                    ended: Ended::Fixpoint,
                });
            }
            Round::Full => {
                return Ok(PassReport {
                    removed: kernel.removals().saturating_sub(removals),
                    ended: Ended::Limit(steps),
                });
            }
            Round::Again => {}
        }
    }
}
