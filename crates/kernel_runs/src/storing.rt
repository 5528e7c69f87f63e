//! Clauses that come to a store and leave it.
//!
//! They leave in another order than they came, so that each stands in the middle of the list of the literal that all share, and not at its
//! end. There are two orders. One walks through memory, twice, and shows the steps of the calls. The other one jumps, so that each access
//! is far from the one before: it shows what the caches make of it, which hold the less the more clauses there are.
ghost use Rattle.std.specs.Prelude.{◌<◌};

use crate::clauses::clause_of;
use crate::request::Report;
use clause_store::store::Store;
use clause_store::stored::Keep;
use normal_form::forms::is_normal;
use sat_model::lists::ClauseId;
use sat_model::memory::Memory;
use std::alloc::Global;

// How far a jump goes: a prime number, so that each clause comes once where it does not divide their number.
const JUMP: usize = 7919;

// Which of so many clauses goes at a turn. Without jumps those at odd places, from the oldest to the newest, and then the others, from the
// newest to the oldest.
fn place_at(turn: usize, count: usize, jumps: bool) -> usize
    requires { turn < count }
    ensures { result < count }
{
    if jumps {
        turn.wrapping_mul(JUMP) % count
    } else if turn < count / 2 {
        2 * turn + 1
    } else {
        2 * (count - 1 - turn)
    }
}

// Adds the clause of a number to the firm ones, if it is normal.
fn add_one(store: &mut Store, number: u32) -> Result<Option<ClauseId>, Memory> {
    let Some(lits) = clause_of(number, true) else {
        return Ok(None);
    };
    if !is_normal(&lits) {
        return Ok(None);
    }
    let id = store.add(&lits, Keep::Firm, 0)?;
    Ok(Some(id))
}

// Adds so many clauses, and gives their ids.
fn add_each(alloc: Global, store: &mut Store, count: u32) -> Result<Vec<ClauseId>, Memory> {
    let mut ids = Vec::new(alloc);
    for number in 0..count {
        if let Some(id) = add_one(store, number)? {
            ids.push(id)?;
        }
    }
    Ok(ids)
}

// Removes the clauses of these ids that are there, in another order, and gives their number.
fn remove_each(store: &mut Store, ids: &[ClauseId], jumps: bool) -> u64 {
    let mut gone = 0u64;
    for turn in 0..ids.len() {
        let id = ids[place_at(turn, ids.len(), jumps)];
        if store.is_live(id) {
            store.remove(id);
            gone = gone.saturating_add(1);
        }
    }
    gone
}

// Adds so many clauses to a store, and removes them.
pub(crate) fn add_and_remove(alloc: Global, count: u32, jumps: bool) -> Result<Report, Memory> {
    let mut store = Store::new(alloc);
    let ids = add_each(alloc, &mut store, count)?;
    let went = remove_each(&mut store, ids.as_slice(), jumps);
    Ok(Report {
        came: ids.len(),
        went,
        came_back: 0,
        stored: store.firm_ids().len(),
        parked: 0,
    })
}
