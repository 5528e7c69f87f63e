//! What the firm clauses make true by themselves.
//!
//! A pass finds clauses of one literal, and unit propagation makes more literals true by them. The
//! rule begins each trial of a clause without them, so that each trial would find all of them
//! anew. So they stay on the trail from trial to trial, as its root, and what a trial assumes
//! stands above them.
//!
//! Of each step of the root it is known only that one of the firm clauses implies it by the steps
//! before it, and not which: a clause may give its place to a shorter one that implies the same.
//! So a clause that is tried might be the one that some step rests on, and that must be looked at
//! (src/held.rt).
//!
//! Where propagation at the root finds a false clause there is no such state to begin with. Then
//! the trail is empty from there on, and each trial begins with nothing, as the rule says it.
ghost use Rattle.std.specs.Prelude.{◌≡◌, ◌≤◌, ℕ, List, [], Option, OnOk};
ghost use Rattle.sat_terms.specs.Limits.{max_var};
ghost use Rattle.clause_store.specs.Stored.{Stored};
ghost use Rattle.trail_state.specs.Trail.{Trace};
ghost use Rattle.watch_lists.specs.Propagation.{Follows};
ghost use Rattle.vivify_pass.specs.Trailing.{Ready, IsSettled};

use crate::setup::{attach_all, last_var};
use clause_store::store::Store;
use sat_model::literal::Var;
use sat_model::memory::Memory;
use std::alloc::Global;
use trail_state::trail::Trail;
use watch_lists::watches::Watches;

// Declares the variables up to a number.
fn declare_to(last: u32, watches: &mut Watches, trail: &mut Trail) -> Result<(), Memory>
    requires small { last ≤ max_var }
    requires watches { watches.old.declared ≡ 0 }
    requires trail { trail.old.declared ≡ 0 }
    ensures attached { watches.new.attached ≡ watches.old.attached }
    ensures steps { trail.new.steps ≡ trail.old.steps }
    ensures watches { OnOk result (watches.new.declared ≡ last) }
    ensures trail { OnOk result (trail.new.declared ≡ last) }
    ensures follows { (s : List (Option Stored)) (t : Trace) → Follows watches.old s t
        → Follows watches.new s t }
{
    match Var::new(last) {
        None => Ok(()),
        Some(var) => {
            trail.declare(var)?;
            watches.declare(var)?;
            Ok(())
        }
    }
}

// Declares the variables of the firm clauses, and attaches these.
fn fill(store: &Store, watches: &mut Watches, trail: &mut Trail) -> Result<(), Memory>
    requires attached { watches.old.attached ≡ [] }
    requires watches { watches.old.declared ≡ 0 }
    requires follows { (s : List (Option Stored)) (t : Trace) → Follows watches.old s t }
    requires steps { trail.old.steps ≡ [] }
    requires trail { trail.old.declared ≡ 0 }
    ensures ready { OnOk result (Ready store.now watches.new trail.new) }
    ensures empty { trail.new.steps ≡ [] }
{
    let last = last_var(store);
    declare_to(last, watches, trail)?;
    attach_all(watches, store, store.firm_ids())?;
    Ok(())
}

/// Begins anew: lists with all firm clauses, and an empty trail.
pub(crate) fn set_up(
    alloc: Global,
    store: &Store,
    watches: &mut Watches,
    trail: &mut Trail,
) -> Result<(), Memory>
    ensures ready { OnOk result (Ready store.now watches.new trail.new) }
    ensures empty { trail.new.steps ≡ [] }
{
    *watches = Watches::new(alloc);
    *trail = Trail::new(alloc);
    fill(store, watches, trail)
}

/// Propagates at the root, so that nothing more follows there. Where a clause is false, the trail
/// is emptied and stays so.
pub(crate) fn settle(
    alloc: Global,
    store: &Store,
    watches: &mut Watches,
    trail: &mut Trail,
    rooted: &mut bool,
) -> Result<(), Memory>
    requires { Ready store.now watches.old trail.old }
    ensures ready { OnOk result (Ready store.now watches.new trail.new) }
    ensures settled { OnOk result
        (IsSettled watches.new.attached store.now trail.new.steps) }
{
    let count = trail.lits().len();
    if !*rooted && count == 0 {
        return Ok(());
    }
    if watches.propagate(store, trail)?.is_none() {
        return Ok(());
    }
    *rooted = false;
    set_up(alloc, store, watches, trail)?;
    Ok(())
}
