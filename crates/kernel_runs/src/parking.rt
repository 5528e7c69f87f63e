//! Clauses that are parked and restored by the kernel's rules.
//!
//! Each rule has a condition, and the run looks whether it holds:
//!
//! - a clause comes by `add`, which wants it normal, and clean for the stack: both are tests;
//! - it is parked with its last literal as witness. No firm clause holds the negation of that literal, which its list of occurrences
//!   shows; so setting it true makes no firm clause false (a pure literal);
//! - it is restored where it is clean for the stack, hence for the entries behind it.
//!
//! Each test takes as many steps as the clause has literals, so that the time of a run is that of the rules.
ghost use Rattle.std.specs.Prelude.{◌≡◌, ◌<◌, ◌∷◌, [], true, IfSome};
ghost use Rattle.redundancy.specs.Redundancy.{Witnesses};
ghost use Rattle.clause_store.specs.Stored.{slot, slot_lits, is_firm as firm_slot, OthersTrue};

use crate::clauses::clause_of;
use crate::request::Report;
use clause_store::store::Store;
use clause_store::stored::Keep;
use normal_form::forms::is_normal;
use rule_kernel::kernel::Kernel;
use sat_model::lists::ClauseId;
use sat_model::literal::Lit;
use sat_model::memory::Memory;
use std::alloc::Global;

// Adds the clause of a number, if it is normal and clean.
fn add_one(kernel: &mut Kernel, number: u32, shared: bool) -> Result<Option<ClauseId>, Memory> {
    let Some(lits) = clause_of(number, shared) else {
        return Ok(None);
    };
    if !is_normal(&lits) || !kernel.is_clean(&lits) {
        return Ok(None);
    }
    let id = kernel.add(&lits)?;
    Ok(Some(id))
}

// Adds so many clauses, and gives their ids.
fn add_each(
    alloc: Global,
    kernel: &mut Kernel,
    count: u32,
    shared: bool,
) -> Result<Vec<ClauseId>, Memory> {
    let mut ids = Vec::new(alloc);
    for number in 0..count {
        if let Some(id) = add_one(kernel, number, shared)? {
            ids.push(id)?;
        }
    }
    Ok(ids)
}

// Whether an id names a firm clause.
fn is_firm(store: &Store, id: ClauseId) -> bool
    ensures { result ≡ firm_slot (slot store.now id) }
{
    store.is_live(id) && store.keep(id) == Keep::Firm
}

// The last literal of a firm clause, where no firm clause holds the negation: it witnesses the clause for the others.
fn witness_of(store: &Store, id: ClauseId) -> Option<Lit>
    ensures firm { IfSome result (λ _. firm_slot (slot store.now id) ≡ true) }
    ensures witnessed { IfSome result (λ l. Witnesses (OthersTrue store.now id) (l ∷ []) (slot_lits (slot store.now id))) }
{
    if !is_firm(store, id) {
        return None;
    }
    let lits = store.get(id);
    if lits.is_empty() {
        return None;
    }
    let last = lits[lits.len() - 1];
    if !store.occ(last.neg()).is_empty() {
        return None;
    }
    Some(last)
}

// Parks a firm clause, where it has a witness.
fn park_one(kernel: &mut Kernel, id: ClauseId) -> Result<(), Memory> {
    match witness_of(kernel.store(), id) {
        Some(witness) => kernel.park(id, &[witness]),
        None => Ok(()),
    }
}

// Parks the clauses of these ids, in their order.
fn park_each(kernel: &mut Kernel, ids: &[ClauseId]) -> Result<(), Memory> {
    for id in ids {
        park_one(kernel, *id)?;
    }
    Ok(())
}

// Restores the entry at a place, if it is there and its clause is clean.
fn restore_one(kernel: &mut Kernel, k: usize) -> Result<(), Memory> {
    if k >= kernel.stack().len() || !kernel.is_clean(kernel.stack().clause(k)) {
        return Ok(());
    }
    let _id = kernel.restore(k)?;
    Ok(())
}

// Restores the entries whose places a number divides, from the newest to the oldest.
fn restore_each(kernel: &mut Kernel, every: usize) -> Result<(), Memory>
    requires { 0 < every }
{
    for k in (0..kernel.stack().len()).rev() {
        if k % every == 0 {
            restore_one(kernel, k)?;
        }
    }
    Ok(())
}

// Adds so many clauses to a kernel, parks them, and restores those at the places that a number divides.
pub(crate) fn park_and_restore(
    alloc: Global,
    count: u32,
    shared: bool,
    every: usize,
) -> Result<Report, Memory>
    requires { 0 < every }
{
    let mut kernel = Kernel::new(alloc);
    let ids = add_each(alloc, &mut kernel, count, shared)?;
    park_each(&mut kernel, ids.as_slice())?;
    restore_each(&mut kernel, every)?;
    Ok(Report {
        came: ids.len(),
        went: kernel.removals(),
        came_back: kernel.restores(),
        stored: kernel.store().firm_ids().len(),
        parked: kernel.stack().len(),
    })
}
