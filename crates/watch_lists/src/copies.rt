//! The lists' own copy of the clauses that are watched.
//!
//! A visit wants the two watched literals in front, and moves another one there; the clauses of the store keep their order. So
//! the lists have a copy of each clause, in one array of words beside a table of places by id. What is taken out leaves its words
//! dead until the array is compacted: the live pieces are then copied into a new array, in the order of their ids.
ghost use Rattle.std.specs.Prelude.{◌≡◌, ◌<◌, ◌≤◌, ◌+◌, ◌^◌, ◌++◌, ◌∷◌, ℕ, [], length, OnOk, OnErr, IsTrue, ◌↔◌, slice_set, slice_index};
ghost use Rattle.watch_lists.specs.Watching.{copy, turned, copied};
ghost use Rattle.watch_lists.specs.Copying.{piece, pieces, words_of, Lengthens, IsLaid, IsEmptied};

use sat_model::lists::Ids;
use sat_model::literal::Lit;
use sat_model::memory::Memory;
use std::alloc::Global;
use std::marker::Model;

// The most words that the array holds.
const MAX_WORDS: usize = 4_294_967_295;

// Where the literals of a clause lie.
#[derive(Clone, Copy)]
pub(crate) struct Place {
    // The place of the first literal in the array.
    start: u32,
    // How many literals there are.
    len: u32,
}

// The literals of the clauses that are watched, by id, those that are watched in front.
#[derive(Drop)]
pub(crate) struct Copies {
    // The allocator for the array and the table that `compact` makes.
    alloc: Global,
    // The literals of all clauses, one clause behind the other.
    words: Vec<Lit>,
    // Where each clause lies, by its id.
    places: Vec<Place>,
    // How many words are no clause's.
    dead: usize,
}

impl Model for Copies {
    ghost use Rattle.std.specs.Prelude.{ℕ, List};
    ghost use Rattle.watch_lists.specs.Copying.{pieces, IsLaid, IsCounted};

    ghost Value = { List (List ℕ) };

    ghost view = { λ c. pieces c.words.items c.places.items };

    ghost invariant = { λ c. IsLaid c.words.items c.places.items × IsCounted c.words.items c.places.items c.dead };
}

impl Copies {
    // No copy. It takes no memory.
    pub(crate) fn new(alloc: Global) -> Copies
        ensures { result ≡ [] }
    {
        Copies {
            alloc,
            words: Vec::new(alloc),
            places: Vec::new(alloc),
            dead: 0,
        }
    }

    // Whether there is a copy of a clause, of two or more literals.
    pub(crate) fn holds(&self, id: usize) -> bool
        ensures { IsTrue result ↔ (2 ≤ length (copy self.now id)) }
    {
        if id < self.places.len() {
            self.places[id].len >= 2
        } else {
            false
        }
    }

    // The copy of a clause.
    pub(crate) fn get(&self, id: usize) -> &[Lit]
        requires { id < length self.now }
        ensures { result.now ≡ copy self.now id }
    {
        let place = self.places[id];
        let from = place.start as usize;
        let to = from + place.len as usize;
        &self.words[from..to]
    }

    // Puts these two literals in front of a copy, and another one at a place behind them.
    pub(crate) fn turn(&mut self, id: usize, first: Lit, second: Lit, k: usize, behind: Lit)
        requires known { id < length self.old }
        requires late { 2 ≤ k }
        requires within { k < length (copy self.old id) }
        ensures { self.new ≡ slice_set self.old id (turned (copy self.old id) first second k behind) }
    {
        let start = self.places[id].start as usize;
        let words = self.words.as_mut_slice();
        words[start] = first;
        words[start + 1] = second;
        words[start + k] = behind;
    }

    // Makes room for the copy of a clause; no copy changes.
    pub(crate) fn reach(&mut self, id: usize) -> Result<(), Memory>
        ensures long { OnOk result (id < length self.new) }
        ensures same { (k : ℕ) → copy self.new k ≡ copy self.old k }
    {
        while self.places.len() <= id {
            self.places.push(Place { start: 0, len: 0 })?;
        }
        Ok(())
    }

    // Copies a clause, with these two of its literals in front. After `Memory`, which also comes where the words run out of numbers,
    // the copies are as before.
    pub(crate) fn add(
        &mut self,
        id: usize,
        lits: &[Lit],
        first: Lit,
        second: Lit,
    ) -> Result<(), Memory>
        requires known { id < length self.old }
        ensures ok { OnOk result (self.new ≡ slice_set self.old id (copied first second lits.now)) }
        ensures err { OnErr result (self.new ≡ self.old) }
    {
        let start = self.words.len();
        let appended = append(&mut self.words, lits, first, second);
        if appended.is_err() || self.words.len() > MAX_WORDS {
            self.words.truncate(start);
            return Err(Memory);
        }
        let len = self.words.len() - start;
        self.dead += self.places[id].len as usize;
        self.places[id] = Place {
            start: start as u32,
            len: len as u32,
        };
        Ok(())
    }

    // Takes a copy out, if there is one.
    pub(crate) fn remove(&mut self, id: usize)
        ensures { self.new ≡ slice_set self.old id [] }
    {
        if id < self.places.len() {
            self.dead += self.places[id].len as usize;
            self.places[id] = Place { start: 0, len: 0 };
        }
    }

    // Takes the copies of these ids out.
    pub(crate) fn remove_all(&mut self, ids: &Ids)
        ensures { IsEmptied ids.now self.old self.new }
    {
        let mut k = 0;
        'each: while k < ids.len() {
            self.remove(ids.id(k).index());
            k += 1;
        }
    }

    // Whether it is time to compact: more than half of the words are dead, and more than the table has places, so that compacting
    // costs no more than what was taken out.
    pub(crate) fn is_sparse(&self) -> bool {
        self.dead > self.words.len() / 2 && self.dead > self.places.len()
    }

    // Copies the words that are alive into a new array. After `Memory` the old one stays.
    pub(crate) fn compact(&mut self) -> Result<(), Memory>
        ensures { self.new ≡ self.old }
    {
        let mut words: Vec<Lit> = Vec::new(self.alloc);
        let mut places: Vec<Place> = Vec::new(self.alloc);
        words.reserve(self.words.len() - self.dead)?;
        places.reserve(self.places.len())?;
        let mut id = 0;
        'each: while id < self.places.len() {
            let place = self.places[id];
            copy_piece(&self.words, place, &mut words, &mut places)?;
            id += 1;
        }
        self.words = words;
        self.places = places;
        self.dead = 0;
        Ok(())
    }
}

// Copies what lies at a place behind the other words.
fn copy_piece(
    from: &[Lit],
    place: Place,
    words: &mut Vec<Lit>,
    places: &mut Vec<Place>,
) -> Result<(), Memory>
    requires within { place.start + place.len ≤ length from.now }
    requires few { length words.old.items + place.len < 2 ^ 32 }
    requires laid { IsLaid words.old.items places.old.items }
    ensures laid { OnOk result (IsLaid words.new.items places.new.items) }
    ensures pieces { OnOk result (pieces words.new.items places.new.items ≡ pieces words.old.items places.old.items ++ piece from.now place ∷ []) }
    ensures words { OnOk result (length words.new.items ≡ length words.old.items + place.len) }
    ensures live { OnOk result (words_of places.new.items ≡ words_of places.old.items + place.len) }
{
    let start = words.len();
    let begin = place.start as usize;
    let end = begin + place.len as usize;
    words.extend_from_slice(&from[begin..end])?;
    places.push(Place {
        start: start as u32,
        len: place.len,
    })?;
    Ok(())
}

// Appends a clause, with these two of its literals in front.
fn append(words: &mut Vec<Lit>, lits: &[Lit], first: Lit, second: Lit) -> Result<(), Memory>
    ensures ok { OnOk result (words.new.items ≡ words.old.items ++ copied first second lits.now) }
    ensures err { OnErr result (Lengthens words.old.items words.new.items) }
{
    words.push(first)?;
    words.push(second)?;
    for lit in lits {
        if *lit != first && *lit != second {
            words.push(*lit)?;
        }
    }
    Ok(())
}
