//! What follows from a cardinality.
//!
//! A position is open where it is not false. Where fewer than `bound` positions are open the
//! cardinality is broken. Else it can spare as many positions as there are more than that, and a
//! literal without a value that stands in more positions than can be spared is forced: were it false,
//! too few would be left. Where no literal stands oftener than can be spared the list is not read at
//! all. Else it is read for a forced literal, from the place before which all positions were found to
//! have values: that place is kept, goes back only when one of them loses its value, and so a list is
//! read about once between two ways back, and not once for each literal.
//!
//! Those from which something follows go on waiting, so that they are looked at again whatever
//! becomes of the answer.
ghost use Rattle.std.specs.Prelude.{◌≡◌, ◌≤◌, ◌<◌, ◌+◌, ◌^◌, ℕ, Bool, true, false, Option, None, Some, length, slice_index, IfSome, IfNone, count_by, ◌==◌, ◌⊎◌, slice_set};
ghost use Rattle.sat_terms.specs.Literal.{var_of};
ghost use Rattle.clause_store.specs.Listing.{times};
ghost use Rattle.card_propagator.specs.Values.{told, value, falses};
ghost use Rattle.card_propagator.specs.Counting.{lits_at, AreSettled, ArePassed, AreHeavy, is_told};
ghost use Rattle.card_propagator.specs.Due.{IsLook, IsFound};

use crate::id::CardId;
use crate::queue::{pop, put};
use crate::rules::{bound, lits_of};
use crate::told::Told;
use flag_set::work::WorkList;
use sat_model::constraint::Constraint;
use sat_model::literal::Lit;

/// What a look at one cardinality finds.
pub enum Look {
    /// Nothing follows.
    Settled,
    /// Too few positions are open.
    Broken,
    /// This literal, which has no value, can't be spared.
    Forced(Lit),
}

/// What a look at those that wait finds.
pub enum Found {
    /// Nothing follows from any of them.
    Nothing,
    /// This one is broken.
    Broken(usize),
    /// This one forces this literal.
    Forced(usize, Lit),
}

// Truth of a literal by what was told.
pub(crate) fn value_of(table: &[Option<Told>], lit: Lit) -> Option<bool>
    ensures { result ≡ value table.now lit }
{
    let var = lit.var().index() as usize;
    if var >= table.len() {
        return None;
    }
    match table[var] {
        Some(told) => Some(told.lit == lit),
        None => None,
    }
}

// How many positions hold the literal.
pub(crate) fn multiplicity(lits: &[Lit], lit: Lit) -> u64
    ensures { result ≡ times lits.now lit }
{
    lits.iter().filter(|other| **other == lit).count() as u64
}

// Whether more positions than can be spared hold an unassigned literal.
fn is_due(lits: &[Lit], table: &[Option<Told>], lit: Lit, spare: u64) -> bool
    requires { 0 < times lits.now lit }
    ensures yes { result ≡ true → (value table.now lit ≡ None) × (spare < times lits.now lit) }
    ensures not_so { result ≡ false → value table.now lit ≡ None → times lits.now lit ≤ spare }
{
    if value_of(table, lit).is_some() {
        return false;
    }
    spare == 0 || multiplicity(lits, lit) > spare
}

// The first unassigned literal that more positions hold than can be spared, if any, and a place before which all
// have a value.
fn first_due(lits: &[Lit], table: &[Option<Told>], spare: u64, start: usize) -> (Option<Lit>, usize)
    requires { (i : ℕ) → i < start → i < length lits.now → is_told (told table.now (var_of (slice_index lits.now i))) ≡ true }
    ensures none { IfNone result.0 ((l : ℕ) → value table.now l ≡ None → times lits.now l ≤ spare) }
    ensures free { IfSome result.0 (λ l. value table.now l ≡ None) }
    ensures due { IfSome result.0 (λ l. spare < times lits.now l) }
    ensures passed { (i : ℕ) → i < result.1 → i < length lits.now → is_told (told table.now (var_of (slice_index lits.now i))) ≡ true }
{
    let mut passed = start;
    for i in start..lits.len() {
        if is_due(lits, table, lits[i], spare) {
            return (Some(lits[i]), passed);
        }
        passed = pass(table, lits[i], i, passed);
    }
    (None, passed)
}

// One place on, if the literal at that place has a value.
fn pass(table: &[Option<Told>], lit: Lit, place: usize, passed: usize) -> usize
    requires { place < 2 ^ 63 }
    ensures { (result ≡ passed) ⊎ ((passed ≡ place) × (result ≡ place + 1) × (is_told (told table.now (var_of lit)) ≡ true)) }
{
    if passed == place && value_of(table, lit).is_some() {
        place + 1
    } else {
        passed
    }
}

// Looks at one cardinality; says also before which place all positions have a value.
fn examine(
    bound: u64,
    lits: &[Lit],
    down: u64,
    heavy: u64,
    table: &[Option<Told>],
    start: usize,
) -> (Look, usize)
    requires down { down ≡ falses table.now lits.now }
    requires heavy { (l : ℕ) → times lits.now l ≤ heavy }
    requires passed { (i : ℕ) → i < start → i < length lits.now → is_told (told table.now (var_of (slice_index lits.now i))) ≡ true }
    ensures look { IsLook table.now bound lits.now result.0 }
    ensures passed { (i : ℕ) → i < result.1 → i < length lits.now → is_told (told table.now (var_of (slice_index lits.now i))) ≡ true }
{
    let open = lits.len() as u64 - down;
    if open < bound {
        return (Look::Broken, start);
    }
    let spare = open - bound;
    if heavy <= spare {
        return (Look::Settled, start);
    }
    let (found, passed) = first_due(lits, table, spare, start);
    match found {
        Some(lit) => (Look::Forced(lit), passed),
        None => (Look::Settled, passed),
    }
}

// Keeps the place before which all positions of a cardinality have values.
fn keep_place(starts: &mut Vec<usize>, k: usize, place: usize)
    requires { k < length starts.old.items }
    ensures { starts.new.items ≡ slice_set starts.old.items k place }
{
    starts[k] = place;
}

// Looks at those that wait, until one is found from which something follows; that one goes on waiting.
pub(crate) fn find_due(
    queue: &mut WorkList<CardId>,
    starts: &mut Vec<usize>,
    rules: &[Constraint],
    table: &[Option<Told>],
    false_counts: &[u64],
    heavy: &[u64],
) -> Found
    requires settled { AreSettled rules.now table.now queue.old }
    requires passed { ArePassed rules.now table.now starts.old.items }
    requires size { length false_counts.now ≡ length rules.now }
    requires false_counts { (k : ℕ) → slice_index false_counts.now k ≡ falses table.now (lits_at rules.now k) }
    requires heavy { AreHeavy rules.now heavy.now }
    ensures settled { AreSettled rules.now table.now queue.new }
    ensures passed { ArePassed rules.now table.now starts.new.items }
    ensures found { IsFound rules.now table.now result }
{
    while let Some(id) = pop(queue) {
        let k = id.index();
        let rule = &rules[k];
        let (look, place) = examine(
            bound(rule),
            lits_of(rule),
            false_counts[k],
            heavy[k],
            table,
            starts[k],
        );
        keep_place(starts, k, place);
        match look {
            Look::Settled => {}
            Look::Broken => {
                put(queue, id);
                return Found::Broken(k);
            }
            Look::Forced(lit) => {
                put(queue, id);
                return Found::Forced(k, lit);
            }
        }
    }
    Found::Nothing
}
