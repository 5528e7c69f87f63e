//! The ids of the firm clauses, and those of the redundant ones.
//!
//! Each list is a vector beside which the place of each member is kept (as in the sparse sets of Briggs and Torczon 1993), so that a
//! member leaves at once, and the last one comes to its place. An id is in one of the lists at most, so one table has the places of both.
ghost use Rattle.std.specs.Prelude.{◌≡◌, ◌≢◌, ◌≤◌, ◌<◌, ◌^◌, ℕ, [], ◌∷◌, ◌++◌, length, OnOk, OnErr, slice_index_or};
ghost use Rattle.clause_store.specs.Listing.{times};
ghost use Rattle.clause_store.specs.Lists.{Gains, firm_share, redundant_share};
ghost use Rattle.clause_store.specs.Kinds.{IsPlaced, ListsMore};

use crate::stored::Keep;
use sat_model::lists::ClauseId;
use sat_model::memory::Memory;
use std::alloc::Global;
use std::marker::Model;

// The most members of a list.
const MOST: usize = 4_294_967_295;

// Two lists of ids, in no order. An id stands in one of them at most, and once.
#[derive(Drop)]
pub(crate) struct Kinds {
    // The ids of the firm clauses.
    firm: Vec<ClauseId>,
    // The ids of the redundant ones.
    redundant: Vec<ClauseId>,
    // At each id that stands in a list the place where it stands there.
    places: Vec<u32>,
}

impl Model for Kinds {
    ghost use Rattle.clause_store.specs.Kinds.{KindLists, ArePlaced};

    ghost Value = { KindLists };

    ghost view = { λ s. record { firm = s.firm.items; redundant = s.redundant.items } };

    ghost invariant = { λ s. ArePlaced s.firm.items s.redundant.items s.places.items };
}

// Makes a table longer than a number; what it has stays.
fn reach(places: &mut Vec<u32>, index: usize) -> Result<(), Memory>
    ensures long { OnOk result (index < length places.new.items) }
    ensures longer { length places.old.items ≤ length places.new.items }
    ensures same { (k : ℕ) → k < length places.old.items → slice_index_or places.new.items k 0 ≡ slice_index_or places.old.items k 0 }
{
    while places.len() <= index {
        places.push(0)?;
    }
    Ok(())
}

// Appends an id to a list that does not hold it. After `Memory` the list is as before.
fn append(list: &mut Vec<ClauseId>, places: &mut Vec<u32>, id: ClauseId) -> Result<(), Memory>
    requires placed { IsPlaced list.old.items places.old.items }
    requires apart { times list.old.items id ≡ 0 }
    ensures ok { OnOk result (list.new.items ≡ list.old.items ++ id ∷ []) }
    ensures err { OnErr result (list.new.items ≡ list.old.items) }
    ensures placed { IsPlaced list.new.items places.new.items }
    ensures longer { length places.old.items ≤ length places.new.items }
    ensures others { (k : ℕ) → k < length places.old.items → k ≢ id → slice_index_or places.new.items k 0 ≡ slice_index_or places.old.items k 0 }
{
    let index = id.index();
    let at = list.len();
    if at > MOST {
        return Err(Memory);
    }
    reach(places, index)?;
    list.push(id)?;
    places[index] = at as u32;
    Ok(())
}

// Takes an id out of a list that holds it; the last id comes to its place.
fn take_out(list: &mut Vec<ClauseId>, places: &mut Vec<u32>, id: ClauseId)
    requires placed { IsPlaced list.old.items places.old.items }
    requires holds { 0 < times list.old.items id }
    ensures gone { Gains list.new.items list.old.items id 1 }
    ensures placed { IsPlaced list.new.items places.new.items }
    ensures long { length places.new.items ≡ length places.old.items }
    ensures others { (k : ℕ) → times list.old.items k ≡ 0 → slice_index_or places.new.items k 0 ≡ slice_index_or places.old.items k 0 }
{
    let at = places[id.index()] as usize;
    list.swap_remove(at);
    if at < list.len() {
        let moved = list[at];
        places[moved.index()] = at as u32;
    }
}

impl Kinds {
    // No id.
    pub(crate) fn new(alloc: Global) -> Kinds
        ensures firm { result.firm ≡ [] }
        ensures redundant { result.redundant ≡ [] }
    {
        Kinds {
            firm: Vec::new(alloc),
            redundant: Vec::new(alloc),
            places: Vec::new(alloc),
        }
    }

    // The firm ids.
    pub(crate) fn firm(&self) -> &[ClauseId]
        ensures { result.now ≡ self.now.firm }
    {
        self.firm.as_slice()
    }

    // The redundant ids.
    pub(crate) fn redundant(&self) -> &[ClauseId]
        ensures { result.now ≡ self.now.redundant }
    {
        self.redundant.as_slice()
    }

    // Names an id, that stands in neither list, in the list of its kind. After `Memory` the lists are as before.
    pub(crate) fn add(&mut self, id: ClauseId, keep: Keep) -> Result<(), Memory>
        requires firm { times self.old.firm id ≡ 0 }
        requires redundant { times self.old.redundant id ≡ 0 }
        ensures ok { OnOk result (ListsMore self.old self.new id keep) }
        ensures err { OnErr result (self.new ≡ self.old) }
    {
        match keep {
            Keep::Firm => append(&mut self.firm, &mut self.places, id),
            Keep::Redundant => append(&mut self.redundant, &mut self.places, id),
        }
    }

    // Takes an id out of the list of its kind.
    pub(crate) fn remove(&mut self, id: ClauseId, keep: Keep)
        requires firm { firm_share keep ≤ times self.old.firm id }
        requires redundant { redundant_share keep ≤ times self.old.redundant id }
        ensures { ListsMore self.new self.old id keep }
    {
        match keep {
            Keep::Firm => take_out(&mut self.firm, &mut self.places, id),
            Keep::Redundant => take_out(&mut self.redundant, &mut self.places, id),
        }
    }

    // Gives back memory that is not needed.
    pub(crate) fn compact(&mut self)
        ensures { self.new ≡ self.old }
    {
        self.firm.shrink_to_fit();
        self.redundant.shrink_to_fit();
        self.places.shrink_to_fit();
    }
}
