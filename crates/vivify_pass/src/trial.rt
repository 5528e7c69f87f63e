//! The trial of one clause: what the rule makes of it, over the other firm clauses.
//!
//! The clause leaves the watch lists, is probed, and comes back. The trail goes back to its root,
//! which is what the firm clauses make true by themselves, and no step of which rests on the
//! clause. Where one may, or the clause has but one literal, it is known without a trial what
//! the rule makes of it (src/held.rt).
ghost use Rattle.std.specs.Prelude.{◌≡◌, ◌≤◌, ◌<◌, ◌+◌, length, true, OnOk, IfOk, IfSome, IfNone};
ghost use Rattle.sat_terms.specs.Normal.{IsNormal};
ghost use Rattle.clause_store.specs.Stored.{slot, slot_lits, is_firm};
ghost use Rattle.vivify_pass.specs.Trailing.{Ready, IsSettled, IsHeld, NoneRests, KeepsRoot, Probed, Found, OnlyMakes, IsCount};

use crate::held::{assume_whole, held_lit, shorten_held};
use crate::probe::probe;
use clause_store::store::Store;
use sat_model::lists::ClauseId;
use sat_model::literal::Lit;
use sat_model::memory::Memory;
use std::alloc::Global;
use trail_state::trail::Trail;
use watch_lists::watches::Watches;

// Takes a clause off the lists, tries the rule on it, and puts it back.
fn probe_alone(
    alloc: Global,
    store: &Store,
    watches: &mut Watches,
    trail: &mut Trail,
    id: ClauseId,
    lits: &[Lit],
    steps: &mut u64,
    limit: u64,
) -> Result<Option<Vec<Lit>>, Memory>
    requires ready { Ready store.now watches.old trail.old }
    requires settled { IsSettled watches.old.attached store.now trail.old.steps }
    requires firm { is_firm (slot store.now id) ≡ true }
    requires lits { lits.now ≡ slot_lits (slot store.now id) }
    requires normal { IsNormal lits.now }
    requires free { NoneRests lits.now trail.old.steps }
    requires rest { steps.old ≤ limit }
    ensures ready { OnOk result (Ready store.now watches.new trail.new) }
    ensures free { OnOk result (NoneRests lits.now trail.new.steps) }
    ensures rest { steps.new ≤ limit }
    ensures spent { steps.new ≤ steps.old + length lits.now }
    ensures full { IfOk result (λ found. IfNone found ((steps.new ≡ limit)
        × (steps.new < steps.old + length lits.now))) }
    ensures counted { IfOk result (λ found.
        IfSome found (λ new. IsCount steps.old steps.new (length new.items))) }
    ensures probed { IfOk result (λ found.
        IfSome found (λ new. Probed store.now id lits.now new.items)) }
{
    // Propagation goes over the other clauses alone.
    watches.detach(store, id);
    let found = probe(alloc, store, watches, trail, id, lits, steps, limit)?;
    trail.back_to(0);
    watches.cut(trail);
    watches.attach(store, id)?;
    Ok(found)
}

// What the rule makes of a clause that the root has all literals false of but one, which is true.
fn find_held(
    alloc: Global,
    store: &Store,
    watches: &Watches,
    trail: &Trail,
    id: ClauseId,
    lits: &[Lit],
    held: Lit,
    steps: &mut u64,
    limit: u64,
) -> Result<Option<Vec<Lit>>, Memory>
    requires ready { Ready store.now watches.now trail.now }
    requires settled { IsSettled watches.now.attached store.now trail.now.steps }
    requires firm { is_firm (slot store.now id) ≡ true }
    requires lits { lits.now ≡ slot_lits (slot store.now id) }
    requires normal { IsNormal lits.now }
    requires long { 2 ≤ length lits.now }
    requires held { IsHeld trail.now.steps lits.now held }
    requires rest { steps.old ≤ limit }
    ensures rest { steps.new ≤ limit }
    ensures spent { steps.new ≤ steps.old + length lits.now }
    ensures full { IfOk result (λ found. IfNone found ((steps.new ≡ limit)
        × (steps.new < steps.old + length lits.now))) }
    ensures counted { IfOk result (λ found.
        IfSome found (λ new. IsCount steps.old steps.new (length new.items))) }
    ensures only { IfOk result (λ found.
        IfSome found (λ new. OnlyMakes store.now id lits.now new.items)) }
    ensures found { IfOk result (λ found.
        IfSome found (λ new. Found store.now id lits.now new.items)) }
    ensures keeps { IfOk result (λ found.
        IfSome found (λ new. KeepsRoot lits.now new.items trail.now.steps)) }
{
    // The contract alone speaks of these.
    let _ = store;
    let _ = watches;
    let _ = id;
    trail.law_shape();
    let found = shorten_held(alloc, lits, held, steps, limit)?;
    Ok(found)
}

// What the rule makes of a clause of at most one literal.
fn find_whole(
    alloc: Global,
    store: &Store,
    trail: &Trail,
    id: ClauseId,
    lits: &[Lit],
    steps: &mut u64,
    limit: u64,
) -> Result<Option<Vec<Lit>>, Memory>
    requires firm { is_firm (slot store.now id) ≡ true }
    requires lits { lits.now ≡ slot_lits (slot store.now id) }
    requires normal { IsNormal lits.now }
    requires short { length lits.now < 2 }
    requires rest { steps.old ≤ limit }
    ensures rest { steps.new ≤ limit }
    ensures spent { steps.new ≤ steps.old + length lits.now }
    ensures full { IfOk result (λ found. IfNone found ((steps.new ≡ limit)
        × (steps.new < steps.old + length lits.now))) }
    ensures counted { IfOk result (λ found.
        IfSome found (λ new. IsCount steps.old steps.new (length new.items))) }
    ensures only { IfOk result (λ found.
        IfSome found (λ new. OnlyMakes store.now id lits.now new.items)) }
    ensures found { IfOk result (λ found.
        IfSome found (λ new. Found store.now id lits.now new.items)) }
    ensures keeps { IfOk result (λ found.
        IfSome found (λ new. KeepsRoot lits.now new.items trail.now.steps)) }
{
    // The contract alone speaks of these.
    let _ = store;
    let _ = trail;
    let _ = id;
    let found = assume_whole(alloc, lits, steps, limit)?;
    Ok(found)
}

/// What the rule makes of the clause of an id, whose literals these are. Each literal that is
/// assumed is a step. `None` where the limit left no step. The lists are as before then, and the
/// trail at its root.
pub(crate) fn find(
    alloc: Global,
    store: &Store,
    watches: &mut Watches,
    trail: &mut Trail,
    id: ClauseId,
    lits: &[Lit],
    steps: &mut u64,
    limit: u64,
) -> Result<Option<Vec<Lit>>, Memory>
    requires ready { Ready store.now watches.old trail.old }
    requires settled { IsSettled watches.old.attached store.now trail.old.steps }
    requires firm { is_firm (slot store.now id) ≡ true }
    requires lits { lits.now ≡ slot_lits (slot store.now id) }
    requires normal { IsNormal lits.now }
    requires rest { steps.old ≤ limit }
    ensures ready { OnOk result (Ready store.now watches.new trail.new) }
    ensures rest { steps.new ≤ limit }
    ensures spent { steps.new ≤ steps.old + length lits.now }
    ensures full { IfOk result (λ found. IfNone found ((steps.new ≡ limit)
        × (steps.new < steps.old + length lits.now))) }
    ensures counted { IfOk result (λ found.
        IfSome found (λ new. IsCount steps.old steps.new (length new.items))) }
    ensures found { IfOk result (λ found.
        IfSome found (λ new. Found store.now id lits.now new.items)) }
    ensures keeps { IfOk result (λ found.
        IfSome found (λ new. KeepsRoot lits.now new.items trail.new.steps)) }
{
    if lits.len() < 2 {
        return find_whole(alloc, store, trail, id, lits, steps, limit);
    }
    match held_lit(trail, lits) {
        Some(held) => find_held(alloc, store, watches, trail, id, lits, held, steps, limit),
        None => probe_alone(alloc, store, watches, trail, id, lits, steps, limit),
    }
}
