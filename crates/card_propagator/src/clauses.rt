//! Clauses of cardinalities: those that are handed, and reasons.
//!
//! Where fewer than `bound` positions of a list are open, an assignment that makes the cardinality
//! true makes one of the false literals true: so these are a clause that it implies. Where just
//! enough are open but for the positions of one literal, that literal and the false ones are such a
//! clause. The reason of a literal is read off the seen trail before its place, and found among the
//! cardinalities that hold it: some of them had too few open positions without it, since it was
//! implied there or at an earlier place.
ghost use Rattle.std.specs.Prelude.{◌≡◌, ◌≤◌, ◌<◌, ◌+◌, ◌^◌, ◌&&◌, ℕ, Bool, true, false, [], ◌∷◌, ◌++◌, length, Some, None, IfOk, IfSome, IfNone, OnOk, OnErr, filter, take, cond, not, count_by};
ghost use Rattle.sat_terms.specs.Literal.{has, var_of};
ghost use Rattle.sat_terms.specs.Truth.{values};
ghost use Rattle.user_propagator.specs.Board.{trail_value, with_handed};
ghost use Rattle.sat_model.specs.Constraint.{constraint_true as is_kept};
ghost use Rattle.clause_store.specs.Listing.{times};
ghost use Rattle.card_propagator.specs.Values.{value, is_false, open_but};
ghost use Rattle.card_propagator.specs.Counting.{lits_at, bound_at, rule};
ghost use Rattle.card_propagator.specs.Due.{IsBroken};
ghost use Rattle.card_propagator.specs.Cards.{are_kept, is_forced, can_explain, fallen};

use crate::counter::Counter;
use crate::id::CardId;
use crate::rules::{bound, lits_of};
use sat_model::lists::Lits;
use sat_model::literal::Lit;
use sat_model::memory::Memory;
use sat_model::truth::constraint_true;
use std::alloc::Global;
use user_propagator::desk::Desk;

// Appends a literal that is false.
fn add_false(clause: &mut Lits, counter: &Counter, lit: Lit) -> Result<(), Memory>
    ensures { OnOk result (clause.new ≡ clause.old ++ cond (is_false (value counter.now.table lit)) (lit ∷ []) []) }
{
    if let Some(false) = counter.value(lit) {
        clause.push(lit)?;
    }
    Ok(())
}

// The literals of a list that are false.
fn false_literals(alloc: Global, counter: &Counter, lits: &[Lit]) -> Result<Lits, Memory>
    ensures { IfOk result (λ c. c ≡ filter (λ x. is_false (value counter.now.table x)) lits.now) }
{
    let mut clause = Lits::new(alloc);
    for lit in lits {
        add_false(&mut clause, counter, *lit)?;
    }
    Ok(clause)
}

// Hands the literals of a cardinality that are false. After `Memory` nothing was handed.
pub(crate) fn hand_false(
    alloc: Global,
    counter: &Counter,
    k: usize,
    desk: &mut Desk,
) -> Result<(), Memory>
    requires { k < length counter.now.rules }
    ensures ok { OnOk result (desk.new ≡ with_handed desk.old (filter (λ x. is_false (value counter.now.table x)) (lits_at counter.now.rules k)) false) }
    ensures err { OnErr result (desk.new ≡ desk.old) }
{
    let clause = false_literals(alloc, counter, lits_of(counter.rule(k)))?;
    desk.hand(clause.as_slice(), false)
}

// The first cardinality that the model breaks.
pub(crate) fn first_unkept(counter: &Counter, model: &[bool]) -> Option<usize>
    ensures none { IfNone result (are_kept (values model.now) counter.now.rules ≡ true) }
    ensures some { IfSome result (λ k. k < length counter.now.rules) }
    ensures unkept { IfSome result (λ k. is_kept (values model.now) (rule counter.now.rules k) ≡ false) }
{
    for k in 0..counter.len() {
        if !constraint_true(model, counter.rule(k)) {
            return Some(k);
        }
    }
    None
}

// Whether too many positions of a cardinality are false.
pub(crate) fn is_broken(counter: &Counter, k: usize) -> bool
    requires { k < length counter.now.rules }
    ensures { result ≡ true → IsBroken counter.now.table (bound_at counter.now.rules k) (lits_at counter.now.rules k) }
{
    let rule = counter.rule(k);
    lits_of(rule).len() as u64 - counter.false_count(k) < bound(rule)
}

// Whether the literal is false at a place before this one.
fn is_false_before(desk: &Desk, place: u32, lit: Lit) -> bool
    ensures { result ≡ is_false (trail_value (take place desk.now.seen) lit) }
{
    let Some(at) = desk.place_of(lit.var()) else {
        return false;
    };
    if at >= place {
        return false;
    }
    match desk.value(lit) {
        Some(value) => !value,
        None => false,
    }
}

// How many positions are open before a place and hold another literal.
fn open_before(desk: &Desk, place: u32, lits: &[Lit], lit: Lit) -> u64
    ensures { result ≡ open_but (take place desk.now.seen) lit lits.now }
{
    lits.iter()
        .filter(|other| !is_false_before(desk, place, **other) && **other != lit)
        .count() as u64
}

// Whether a cardinality, which holds the literal, could not spare it at its place.
fn holds(counter: &Counter, id: CardId, lit: Lit, place: u32, desk: &Desk) -> bool
    requires within { id < length counter.now.rules }
    requires held { 0 < times (lits_at counter.now.rules id) lit }
    ensures { result ≡ is_forced (take place desk.now.seen) lit (rule counter.now.rules id) }
{
    let rule = counter.rule(id.index());
    open_before(desk, place, lits_of(rule), lit) < bound(rule)
}

// A cardinality that forced the literal at its place.
pub(crate) fn find_reason(counter: &Counter, lit: Lit, place: u32, desk: &Desk) -> Option<usize>
    ensures within { IfSome result (λ k. k < length counter.now.rules) }
    ensures forced { IfSome result (λ k. is_forced (take place desk.now.seen) lit (rule counter.now.rules k) ≡ true) }
    ensures none { IfNone result (can_explain counter.now.rules (take place desk.now.seen) lit ≡ false) }
{
    let ids = counter.holders(lit);
    for i in 0..ids.len() {
        if holds(counter, ids[i], lit, place, desk) {
            return Some(ids[i].index());
        }
    }
    None
}

// Appends a literal that is false before a place.
fn add_before(out: &mut Lits, place: u32, lit: Lit, desk: &Desk) -> Result<(), Memory>
    ensures { OnOk result (out.new ≡ out.old ++ cond (is_false (trail_value (take place desk.now.seen) lit)) (lit ∷ []) []) }
{
    if is_false_before(desk, place, lit) {
        out.push(lit)?;
    }
    Ok(())
}

// Appends the literals of a list that are false at places before this one.
pub(crate) fn add_fallen(
    out: &mut Lits,
    lits: &[Lit],
    place: u32,
    desk: &Desk,
) -> Result<(), Memory>
    ensures { OnOk result (out.new ≡ out.old ++ fallen (take place desk.now.seen) lits.now) }
{
    for lit in lits {
        add_before(out, place, *lit, desk)?;
    }
    Ok(())
}
