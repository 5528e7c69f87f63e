//! Work lists: what is still to be looked at, each member once.
//!
//! What changed is to be looked at again: a variable, say, whose clauses came or went. A list of these must be gone through while
//! members come and go, and none may stand twice. So the members stand in a vector, and a table has at the number of each member its
//! place in the vector (a sparse set: Briggs and Torczon, "An efficient representation for sparse sets", 1993). A member is found by
//! its place, which counts only where that place holds the member again: so what the table has for other numbers says nothing, and
//! `clear` takes no time.
//!
//! The last member comes to the place of one that is taken out, and a new one comes to the end. So who goes through the list from the
//! front, and takes out or leaves what stands at the place where it is, misses nothing: all before that place was left.
//!
//! `reach` takes all memory that a member will ever need; it alone can fail. There is room for as many members as the table has
//! places, and no number stands twice, so a member that has a place in the table always finds room in the vector.
ghost use Rattle.std.specs.Prelude.{◌≡◌, ◌≤◌, ◌<◌, ◌||◌, ◌&&◌, ◌==◌, ◌^◌, ℕ, [], not, false, length, max, ◌+◌, OnOk, OnErr, slice_index_or};
ghost use Rattle.std.specs.List.{swap_remove};
ghost use Rattle.flag_set.specs.Listed.{lists};
ghost use Rattle.flag_set.specs.Work.{with_member};

use crate::member::Member;
use sat_model::memory::Memory;
use std::alloc::Global;
use std::marker::Model;

/// Members that wait, each once, in a list that can be gone through while members come and go. Contracts see the list, and the number
/// below which there is room.
#[derive(Drop)]
pub struct WorkList<T: Member> {
    // The members, in no stated order.
    members: Vec<T>,
    // For each number the place of its member. What it has for other numbers says nothing.
    places: Vec<u32>,
}

impl<T: Member> Model for WorkList<T> {
    ghost use Rattle.std.specs.Prelude.{length, vec_capacity};
    ghost use Rattle.flag_set.specs.Work.{Work, IsPlaced};

    ghost Value = { Work T };

    ghost view = { λ s. record { members = s.members.items; room = length s.places.items } };

    ghost invariant = { λ s. IsPlaced T.number_of s.members.items s.places.items (vec_capacity s.members) };
}

impl<T: Member> WorkList<T> {
    /// The empty list, with room for nothing. It takes no memory.
    pub fn new(alloc: Global) -> WorkList<T>
        ensures members { result.members ≡ [] }
        ensures room { result.room ≡ 0 }
    {
        WorkList {
            members: Vec::new(alloc),
            places: Vec::new(alloc),
        }
    }

    /// The members.
    pub fn as_slice(&self) -> &[T]
        ensures { result.now ≡ self.now.members }
    {
        self.members.as_slice()
    }

    /// Whether a member is in the list.
    pub fn has(&self, member: T) -> bool
        ensures { result ≡ lists T.number_of self.now.members (T.number_of member) }
    {
        let at = member.number();
        if at >= self.places.len() {
            return false;
        }
        let place = self.places[at] as usize;
        if place >= self.members.len() {
            return false;
        }
        self.members[place].number() == at
    }

    /// Makes room for a member, and for all of a smaller number; the list stays. After `Memory` there is as much room as before.
    pub fn reach(&mut self, member: T) -> Result<(), Memory>
        ensures members { self.new.members ≡ self.old.members }
        ensures room { OnOk result (self.new.room ≡ max self.old.room (T.number_of member + 1)) }
        ensures err { OnErr result (self.new.room ≡ self.old.room) }
    {
        let at = member.number();
        if at >= self.places.len() {
            self.members.reserve(at + 1 - self.members.len())?;
            self.places.resize(at + 1, 0)?;
        }
        Ok(())
    }

    /// Puts a member at the end of the list, if it is not there. There must be room for it.
    pub fn put(&mut self, member: T)
        requires { T.number_of member < self.old.room }
        ensures members { self.new.members ≡ with_member T.number_of self.old.members member }
        ensures room { self.new.room ≡ self.old.room }
    {
        if self.has(member) {
            return;
        }
        let place = self.members.len();
        match self.members.push(member) {
            Ok(()) => {}
            Err(_) => unreachable!(),
        }
        self.places[member.number()] = place as u32;
    }

    /// Takes a member out of the list, if it is there: the last member comes to its place.
    pub fn take_out(&mut self, member: T)
        ensures place { (k : ℕ) → k < length self.old.members → T.number_of (slice_index_or self.old.members k member) ≡ T.number_of member → self.new.members ≡ swap_remove self.old.members k member }
        ensures none { lists T.number_of self.old.members (T.number_of member) ≡ false → self.new.members ≡ self.old.members }
        ensures others { (n : ℕ) → lists T.number_of self.new.members n ≡ (lists T.number_of self.old.members n && not (T.number_of member == n)) }
        ensures room { self.new.room ≡ self.old.room }
    {
        if !self.has(member) {
            return;
        }
        let place = self.places[member.number()];
        let last = self.members[self.members.len() - 1];
        self.places[last.number()] = place;
        self.members.swap_remove(place as usize);
    }

    /// Takes all members out of the list. It takes no time.
    pub fn clear(&mut self)
        ensures members { self.new.members ≡ [] }
        ensures room { self.new.room ≡ self.old.room }
    {
        self.members.clear();
    }
}
