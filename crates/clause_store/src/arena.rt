//! Clauses in one array.
//!
//! An arena as in MiniSat's region allocator (Eén and Sörensson 2003): the literals of all clauses lie one clause after the other in one
//! array of words, and a table has for each id the place of its clause, with kind and glue. Reading a clause takes one look at the
//! table and one at the array, adding one appends to both, and removing one marks its place as free: neither looks at another clause.
//!
//! Ids stay as they are while clauses move, so whoever holds an id need not hear of a move. A removed clause leaves a gap of words,
//! which `compact` closes: it copies the live clauses, in the order of their ids, to a new array of as many words as they have
//! literals, and frees the old one. Ids of removed clauses stand in `free`, and come again.
//!
//! Places have 32 bits, so that a place takes four words; an arena never has more than 2^32 - 1 words or 2^32 ids, and answers `Memory`
//! where more would be needed. That a new array has room for all live clauses need not be tested: the old one has a word for each of their
//! literals at least (`IsArranged`).
ghost use Rattle.std.specs.Prelude.{◌≡◌, ◌≤◌, ◌<◌, ◌+◌, ◌^◌, ◌++◌, ◌∷◌, ◌↔◌, ℕ, [], length, None, IsSome, IsTrue, IfOk, OnOk, OnErr};
ghost use Rattle.clause_store.specs.Stored.{slot, slot_lits, slot_keep, slot_glue, Fills, Frees};
ghost use Rattle.clause_store.specs.Placing.{slots, slot_at, IsWithin, AllWithin, literal_count};

use crate::stored::Keep;
use sat_model::lists::ClauseId;
use sat_model::literal::Lit;
use sat_model::memory::Memory;
use std::alloc::Global;
use std::marker::Model;

// The number of ids, and the number below which the number of words stays.
const END: usize = 4_294_967_296;

// Where the literals of a clause lie, its kind and its glue. An id that names no clause has a place that is not live.
#[derive(Clone, Copy)]
pub(crate) struct Place {
    // The place of the first literal in the array.
    start: u32,
    // How many literals there are.
    len: u32,
    // The glue that the clause was stored with.
    glue: u32,
    // Whether it is firm or redundant.
    keep: Keep,
    // Whether the id names a clause. Where it does not, the other fields say nothing.
    live: bool,
}

// The clauses of ids.
#[derive(Drop)]
pub(crate) struct Arena {
    // The allocator for the array and the table that `compact` makes.
    alloc: Global,
    // The literals of the clauses. What was removed leaves a gap until `compact`.
    words: Vec<Lit>,
    // The place of each id.
    places: Vec<Place>,
    // Ids that were removed. The table says which of them are free.
    free: Vec<ClauseId>,
}

// The place of an id that names no clause.
const FREE: Place = Place {
    start: 0,
    len: 0,
    glue: 0,
    keep: Keep::Redundant,
    live: false,
};

impl Model for Arena {
    ghost use Rattle.std.specs.Prelude.{length};
    ghost use Rattle.clause_store.specs.Placing.{Held, slots, IsArranged};

    ghost Value = { Held };

    ghost view = { λ a. record { clauses = slots a.words.items a.places.items; words = length a.words.items } };

    ghost invariant = { λ a. IsArranged a.words.items a.places.items };
}

impl Arena {
    // No clause. It takes no memory.
    pub(crate) fn new(alloc: Global) -> Arena
        ensures { result.clauses ≡ [] }
    {
        Arena {
            alloc,
            words: Vec::new(alloc),
            places: Vec::new(alloc),
            free: Vec::new(alloc),
        }
    }

    // Whether an id names a clause.
    pub(crate) fn is_live(&self, id: usize) -> bool
        ensures { IsTrue result ↔ IsSome (slot self.now.clauses id) }
    {
        if id < self.places.len() {
            self.places[id].live
        } else {
            false
        }
    }

    // A number above every id that names a clause.
    pub(crate) fn id_bound(&self) -> usize
        ensures bound { (id : ℕ) → IsSome (slot self.now.clauses id) → id < result }
        ensures count { result ≡ length self.now.clauses }
    {
        self.places.len()
    }

    // The literals of a clause.
    pub(crate) fn get(&self, id: usize) -> &[Lit]
        requires { IsSome (slot self.now.clauses id) }
        ensures { result.now ≡ slot_lits (slot self.now.clauses id) }
    {
        let place = self.places[id];
        let from = place.start as usize;
        let to = from + place.len as usize;
        &self.words[from..to]
    }

    // The kind of a clause.
    pub(crate) fn keep(&self, id: usize) -> Keep
        requires { IsSome (slot self.now.clauses id) }
        ensures { result ≡ slot_keep (slot self.now.clauses id) }
    {
        let place = self.places[id];
        place.keep
    }

    // The glue of a clause.
    pub(crate) fn glue(&self, id: usize) -> u32
        requires { IsSome (slot self.now.clauses id) }
        ensures { result ≡ slot_glue (slot self.now.clauses id) }
    {
        let place = self.places[id];
        place.glue
    }

    // An id that names no clause, and is in the table or next to it. `Memory` where ids run out.
    pub(crate) fn vacant(&mut self) -> Result<ClauseId, Memory>
        ensures same { self.new ≡ self.old }
        ensures free { IfOk result (λ id. slot self.old.clauses id ≡ None) }
        ensures near { IfOk result (λ id. id ≤ length self.old.clauses) }
    {
        if let Some(id) = self.free.pop() {
            if self.is_free(id.index()) {
                return Ok(id);
            }
        }
        let id = self.places.len();
        if id >= END {
            return Err(Memory);
        }
        Ok(ClauseId::new(id))
    }

    // Whether an id is in the table and names no clause.
    fn is_free(&self, id: usize) -> bool
        ensures { IsTrue result → (slot self.now.clauses id ≡ None) × (id ≤ length self.now.clauses) }
    {
        id < self.places.len() && !self.places[id].live
    }

    // Puts a clause at an id that names none, and is in the table or next to it. After `Memory` each id names what it did.
    pub(crate) fn add(
        &mut self,
        id: usize,
        lits: &[Lit],
        keep: Keep,
        glue: u32,
    ) -> Result<(), Memory>
        requires free { slot self.old.clauses id ≡ None }
        requires near { id ≤ length self.old.clauses }
        ensures ok { OnOk result (Fills self.old.clauses self.new.clauses id (record { lits = lits.now; keep = keep; glue = glue })) }
        ensures err { OnErr result (self.new.clauses ≡ self.old.clauses) }
    {
        let start = self.words.len();
        if lits.len() >= END - start {
            return Err(Memory);
        }
        self.words.extend_from_slice(lits)?;
        let place = Place {
            start: start as u32,
            len: lits.len() as u32,
            glue,
            keep,
            live: true,
        };
        if id < self.places.len() {
            self.places[id] = place;
        } else {
            self.places.push(place)?;
        }
        Ok(())
    }

    // Takes a clause out.
    pub(crate) fn remove(&mut self, id: ClauseId)
        requires { IsSome (slot self.old.clauses id) }
        ensures { Frees self.old.clauses self.new.clauses id }
    {
        self.places[id.index()] = FREE;
        // An id for whose note there is no memory is not given again.
        match self.free.push(id) {
            Ok(()) => {}
            Err(_) => {}
        }
    }

    // Closes the gaps that removed clauses left: no more words are held than the clauses have literals. After `Memory` the gaps stay.
    pub(crate) fn compact(&mut self) -> Result<(), Memory>
        ensures same { self.new.clauses ≡ self.old.clauses }
        ensures close { OnOk result (self.new.words ≡ literal_count self.new.clauses) }
    {
        let mut words: Vec<Lit> = Vec::new(self.alloc);
        let mut places: Vec<Place> = Vec::new(self.alloc);
        let mut id = 0;
        'each: while id < self.places.len() {
            let place = self.places[id];
            copy_clause(&self.words, place, &mut words, &mut places)?;
            id += 1;
        }
        self.words = words;
        self.places = places;
        Ok(())
    }
}

// Copies a clause behind the others.
fn copy_clause(
    from: &[Lit],
    place: Place,
    words: &mut Vec<Lit>,
    places: &mut Vec<Place>,
) -> Result<(), Memory>
    requires place { IsWithin from.now place }
    requires within { AllWithin words.old.items places.old.items }
    requires room { length words.old.items + length (slot_lits (slot_at from.now place)) < 2 ^ 32 }
    ensures within { OnOk result (AllWithin words.new.items places.new.items) }
    ensures slots { OnOk result (slots words.new.items places.new.items ≡ slots words.old.items places.old.items ++ slot_at from.now place ∷ []) }
    ensures close { OnOk result (length words.new.items ≡ length words.old.items + length (slot_lits (slot_at from.now place))) }
{
    if !place.live {
        places.push(FREE)?;
        return Ok(());
    }
    let start = words.len();
    let begin = place.start as usize;
    let end = begin + place.len as usize;
    let clause = &from[begin..end];
    words.extend_from_slice(clause)?;
    places.push(Place {
        start: start as u32,
        len: place.len,
        glue: place.glue,
        keep: place.keep,
        live: true,
    })?;
    Ok(())
}
