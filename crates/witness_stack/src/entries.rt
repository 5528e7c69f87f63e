//! Lists of entries, each a witness and a clause.
//!
//! Entries come at the end, as the newest. Restoring takes some out of the middle, from the newest to the oldest, and the others keep
//! their order. Closing up behind each would move every later entry once for each that goes: the square of the stack's length. So
//! the entries stand in one vector with a gap of empty slots (a gap buffer, as editors keep their text): taking one out moves the
//! entries between it and the gap, no others, and the gap grows by its slot. From the newest to the oldest the gap only moves towards the
//! front, so that each entry moves once in all, however many go.
//!
//! `close` gives the slots back once they are more than the entries, so that the list never takes more than twice its entries' memory for
//! long, and each entry pays for this once.
ghost use Rattle.std.specs.Prelude.{◌≡◌, ◌<◌, ◌≤◌, ◌+◌, ◌==◌, [], ◌∷◌, ◌++◌, length, OnErr, OnOk, remove, slice_set, if◌then◌else◌, nat_lt};
ghost use Rattle.redundancy.specs.Redundancy.{entry, no_entry};
ghost use Rattle.witness_stack.specs.Gap.{shown};

use sat_model::lists::Lits;
use sat_model::literal::Lit;
use sat_model::memory::Memory;
use std::alloc::Global;
use std::marker::Model;
use std::mem;

/// A witness and a clause.
#[derive(Drop)]
pub struct Entry {
    // The literals that are set true where the clause is false.
    witness: Lits,
    // The clause that was taken out.
    clause: Lits,
}

impl Model for Entry {
    ghost use Rattle.redundancy.specs.Redundancy.{Entry as EntryOf};

    ghost Value = { EntryOf };

    ghost view = { λ e. record { witness = e.witness; clause = e.clause } };
}

impl Entry {
    /// The literals of the witness.
    pub fn witness(&self) -> &[Lit]
        ensures { result.now ≡ self.now.witness }
    {
        self.witness.as_slice()
    }

    /// The literals of the clause.
    pub fn clause(&self) -> &[Lit]
        ensures { result.now ≡ self.now.clause }
    {
        self.clause.as_slice()
    }
}

/// A list of entries. Taking out many of them, from the last to the first, costs one walk in all.
#[derive(Drop)]
pub struct Entries {
    // The allocator for the lists of new entries and for empty slots.
    alloc: Global,
    // The entries, in order, with the gap's empty slots among them.
    slots: Vec<Entry>,
    // How many entries stand before the gap.
    front: usize,
    // How many slots the gap has.
    gap: usize,
}

impl Model for Entries {
    ghost use Rattle.std.specs.Prelude.{List, length, ◌+◌, ◌≤◌};
    ghost use Rattle.redundancy.specs.Redundancy.{Entry as EntryOf};
    ghost use Rattle.witness_stack.specs.Gap.{shown};

    ghost Value = { List EntryOf };

    ghost view = { λ s. shown s.front s.gap s.slots.items };

    ghost invariant = { λ s. s.front + s.gap ≤ length s.slots.items };
}

// Moves the entry of one slot to another, and leaves an empty one.
fn carry(alloc: Global, slots: &mut Vec<Entry>, from: usize, to: usize)
    requires from { from < length slots.old.items }
    requires to { to < length slots.old.items }
    ensures { slots.new.items ≡ slice_set (slice_set slots.old.items from no_entry) to (entry slots.old.items from) }
{
    let empty = Entry {
        witness: Lits::new(alloc),
        clause: Lits::new(alloc),
    };
    let moved = mem::replace(&mut slots[from], empty);
    slots[to] = moved;
}

// Moves a gap towards the front, entry by entry, so that `to` entries stand before it.
fn lower_gap(alloc: Global, slots: &mut Vec<Entry>, front: usize, gap: usize, to: usize)
    requires some { 0 < gap }
    requires within { front + gap ≤ length slots.old.items }
    requires down { to ≤ front }
    ensures same { shown to gap slots.new.items ≡ shown front gap slots.old.items }
    ensures long { length slots.new.items ≡ length slots.old.items }
{
    let mut at = front;
    while at > to {
        at -= 1;
        carry(alloc, slots, at, at + gap);
    }
}

// Moves a gap towards the back, entry by entry, so that `to` entries stand before it.
fn raise_gap(alloc: Global, slots: &mut Vec<Entry>, front: usize, gap: usize, to: usize)
    requires some { 0 < gap }
    requires within { to + gap ≤ length slots.old.items }
    requires up { front ≤ to }
    ensures same { shown to gap slots.new.items ≡ shown front gap slots.old.items }
    ensures long { length slots.new.items ≡ length slots.old.items }
{
    for at in front..to {
        carry(alloc, slots, at + gap, at);
    }
}

// Moves a gap, so that `to` entries stand before it.
fn open_at(alloc: Global, slots: &mut Vec<Entry>, front: usize, gap: usize, to: usize)
    requires from { front + gap ≤ length slots.old.items }
    requires to { to + gap ≤ length slots.old.items }
    ensures same { shown to gap slots.new.items ≡ shown front gap slots.old.items }
    ensures long { length slots.new.items ≡ length slots.old.items }
{
    if gap == 0 {
        return;
    }
    if to < front {
        lower_gap(alloc, slots, front, gap, to);
    } else {
        raise_gap(alloc, slots, front, gap, to);
    }
}

impl Entries {
    /// The empty list. It takes no memory.
    pub fn new(alloc: Global) -> Entries
        ensures { result ≡ [] }
    {
        Entries {
            alloc,
            slots: Vec::new(alloc),
            front: 0,
            gap: 0,
        }
    }

    /// How many entries there are.
    pub fn len(&self) -> usize
        ensures { result ≡ length self.now }
    {
        self.slots.len() - self.gap
    }

    /// Whether there is none.
    pub fn is_empty(&self) -> bool
        ensures { result ≡ (length self.now == 0) }
    {
        self.len() == 0
    }

    /// Appends an entry. After `Memory` the list is as before.
    pub fn push(&mut self, witness: &[Lit], clause: &[Lit]) -> Result<(), Memory>
        ensures ok { OnOk result (self.new ≡ self.old ++ record { witness = witness.now; clause = clause.now } ∷ []) }
        ensures err { OnErr result (self.new ≡ self.old) }
    {
        let entry = Entry {
            witness: Lits::from_slice(self.alloc, witness)?,
            clause: Lits::from_slice(self.alloc, clause)?,
        };
        self.slots.push(entry)?;
        Ok(())
    }

    // The entry at a place below `len()`.
    fn at(&self, k: usize) -> &Entry
        requires { k < length self.now }
        ensures { result.now ≡ entry self.now k }
    {
        if k < self.front {
            &self.slots[k]
        } else {
            &self.slots[k + self.gap]
        }
    }

    /// The witness of the entry at a place below `len()`.
    pub fn witness(&self, k: usize) -> &[Lit]
        requires { k < length self.now }
        ensures { result.now ≡ (entry self.now k).witness }
    {
        self.at(k).witness()
    }

    /// The clause of the entry at a place below `len()`.
    pub fn clause(&self, k: usize) -> &[Lit]
        requires { k < length self.now }
        ensures { result.now ≡ (entry self.now k).clause }
    {
        self.at(k).clause()
    }

    /// Takes out the entry at a place below `len()`. The others keep their order.
    pub fn take_out(&mut self, k: usize)
        requires { k < length self.old }
        ensures { self.new ≡ remove self.old k }
    {
        open_at(self.alloc, &mut self.slots, self.front, self.gap, k + 1);
        self.slots[k] = Entry {
            witness: Lits::new(self.alloc),
            clause: Lits::new(self.alloc),
        };
        self.front = k;
        self.gap += 1;
    }

    /// Gives back the slots of entries that were taken out, where these are more than the entries.
    pub fn close(&mut self)
        ensures { self.new ≡ self.old }
    {
        let len = self.slots.len() - self.gap;
        if self.gap > len {
            open_at(self.alloc, &mut self.slots, self.front, self.gap, len);
            self.slots.truncate(len);
            self.slots.shrink_to_fit();
            self.front = 0;
            self.gap = 0;
        }
    }
}
