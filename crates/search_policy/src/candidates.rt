//! The clauses that may be forgotten.
//!
//! They are gathered with their glue and sorted, so that the first half of the list is what a
//! reduction names.
ghost use Rattle.std.specs.Prelude.{◌≡◌, ◌<◌, ◌≤◌, ◌/◌, ◌&&◌, not, false, ℕ, length, map, filter, take, IfOk, slice_index_or};
ghost use Rattle.clause_store.specs.Stored.{slot, slot_glue, slot_lits, is_redundant as redundant_slot};
ghost use Rattle.search_policy.specs.Reduction.{is_spare};
ghost use Rattle.search_policy.specs.Candidates.{is_unmarked, candidate_of, id_of};

use clause_store::store::Store;
use clause_store::stored::Keep;
use flag_set::set::FlagSet;
use sat_model::lists::{ClauseId, Ids};
use sat_model::memory::Memory;
use std::alloc::{AllocError, Global};
use std::cmp::Reverse;

// A clause that may be forgotten, the greatest glue first, and at equal glue the older id first.
#[derive(Clone, Copy, PartialEq, Eq, PartialOrd, Ord)]
pub(crate) struct Candidate {
    // The glue. It stands first, since the order of fields is that of sorting.
    glue: Reverse<u32>,
    // The id of the clause.
    id: ClauseId,
}

// The glue of a clause, 0 where there is none.
fn glue_of(store: &Store, id: ClauseId) -> u32
    ensures { result ≡ slot_glue (slot store.now id) }
{
    if store.is_live(id) { store.glue(id) } else { 0 }
}

// How many literals a clause has, 0 where there is none.
fn length_of(store: &Store, id: ClauseId) -> usize
    ensures { result ≡ length (slot_lits (slot store.now id)) }
{
    if store.is_live(id) {
        store.get(id).len()
    } else {
        0
    }
}

// Whether there is a redundant clause.
fn is_redundant(store: &Store, id: ClauseId) -> bool
    ensures { result ≡ redundant_slot (slot store.now id) }
{
    store.is_live(id) && store.keep(id) == Keep::Redundant
}

// Whether a clause may be forgotten, if it is not marked.
fn is_candidate(store: &Store, marks: &FlagSet<ClauseId>, id: ClauseId) -> bool
    ensures { result ≡ is_unmarked store.now marks.now id }
{
    let spare = is_redundant(store, id) && length_of(store, id) >= 2 && glue_of(store, id) >= 3;
    let marked = marks.has(id);
    spare && !marked
}

// The candidates among some clauses.
pub(crate) fn gather(
    alloc: Global,
    store: &Store,
    marks: &FlagSet<ClauseId>,
    ids: &[ClauseId],
) -> Result<Vec<Candidate>, AllocError>
    ensures { IfOk result (λ v. v.items ≡ map (candidate_of store.now) (filter (is_unmarked store.now marks.now) ids.now)) }
{
    ids.iter()
        .copied()
        .filter(|id| is_candidate(store, marks, *id))
        .map(|id| Candidate {
            glue: Reverse(glue_of(store, id)),
            id,
        })
        .collect(alloc)
}

// The ids of the first half of some candidates.
pub(crate) fn first_half(alloc: Global, sorted: &[Candidate]) -> Result<Ids, Memory>
    ensures { IfOk result (λ ids. ids ≡ take (length sorted.now / 2) (map id_of sorted.now)) }
{
    let mut ids = Ids::new(alloc);
    for candidate in &sorted[..sorted.len() / 2] {
        ids.push(candidate.id)?;
    }
    Ok(ids)
}
