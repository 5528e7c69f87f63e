//! Lists of literals, of clauses and of ids of clauses.
ghost use Rattle.std.specs.Prelude.{◌≡◌, ◌==◌, ◌<◌, ◌^◌, [], ◌∷◌, ◌++◌, length, IfOk, OnOk, OnErr, slice_get, slice_index, Some};

use crate::literal::Lit;
use crate::memory::Memory;
use smallvec::SmallVec;
use std::alloc::Global;
use std::marker::Model;

/// A list of literals. Up to four lie in the value itself, and more on the heap.
pub struct Lits {
    // The literals, in order.
    lits: SmallVec<Lit, 4>,
}

impl Drop for Lits {
    fn drop(self) {
        let Lits { lits: _lits } = self;
    }
}

impl Model for Lits {
    ghost use Rattle.std.specs.Prelude.{ℕ, List};

    ghost Value = { List ℕ };

    ghost view = { λ s. s.lits.items };
}

impl Lits {
    /// The empty list. It takes no memory.
    pub fn new(alloc: Global) -> Lits
        ensures { result ≡ [] }
    {
        Lits {
            lits: SmallVec::new(alloc),
        }
    }

    /// A list of these literals.
    pub fn from_slice(alloc: Global, from: &[Lit]) -> Result<Lits, Memory>
        ensures { IfOk result (λ lits. lits ≡ from.now) }
    {
        Ok(Lits {
            lits: SmallVec::from_slice(alloc, from)?,
        })
    }

    /// Appends a literal. After `Memory` the list is as before.
    pub fn push(&mut self, lit: Lit) -> Result<(), Memory>
        ensures ok { OnOk result (self.new ≡ self.old ++ lit ∷ []) }
        ensures err { OnErr result (self.new ≡ self.old) }
    {
        self.lits.push(lit)?;
        Ok(())
    }

    /// The literals, in order.
    pub fn as_slice(&self) -> &[Lit]
        ensures { result.now ≡ self.now }
    {
        self.lits.as_slice()
    }
}

/// A list of clauses.
#[derive(Drop)]
pub struct Clauses {
    // The allocator for clauses that are longer than four literals.
    alloc: Global,
    // The clauses, in order.
    clauses: Vec<Lits>,
}

impl Model for Clauses {
    ghost use Rattle.std.specs.Prelude.{ℕ, List};

    ghost Value = { List (List ℕ) };

    ghost view = { λ s. s.clauses.items };
}

impl Clauses {
    /// The empty list. It takes no memory.
    pub fn new(alloc: Global) -> Clauses
        ensures { result ≡ [] }
    {
        Clauses {
            alloc,
            clauses: Vec::new(alloc),
        }
    }

    /// How many clauses there are.
    pub fn len(&self) -> usize
        ensures { result ≡ length self.now }
    {
        self.clauses.len()
    }

    /// Whether there is none.
    pub fn is_empty(&self) -> bool
        ensures { result ≡ (length self.now == 0) }
    {
        self.clauses.is_empty()
    }

    /// The literals of the clause at a place below `len()`.
    pub fn clause(&self, k: usize) -> &[Lit]
        requires { k < length self.now }
        ensures { slice_get self.now k ≡ Some result.now }
    {
        self.clauses[k].as_slice()
    }

    /// Appends a clause. After `Memory` the list is as before.
    pub fn push(&mut self, clause: &[Lit]) -> Result<(), Memory>
        ensures ok { OnOk result (self.new ≡ self.old ++ clause.now ∷ []) }
        ensures err { OnErr result (self.new ≡ self.old) }
    {
        let lits = Lits::from_slice(self.alloc, clause)?;
        self.clauses.push(lits)?;
        Ok(())
    }
}

/// The number of a stored clause, below 2^32: ids fill lists of occurrences, watches and reasons, where half a word counts.
#[derive(Clone, Copy, Debug, Default, PartialEq, Eq, PartialOrd, Ord, Hash)]
pub struct ClauseId {
    // The number.
    index: u32,
}

impl Model for ClauseId {
    ghost use Rattle.std.specs.Prelude.{ℕ};

    ghost Value = { ℕ };

    ghost view = { λ id. id.index };

    ghost inverse = { λ n. record { index = n } };
}

impl ClauseId {
    /// The id of a number below 2^32.
    pub fn new(index: usize) -> ClauseId
        requires { index < 2 ^ 32 }
        ensures { result ≡ index }
    {
        ClauseId {
            index: index as u32,
        }
    }

    /// Its number.
    pub fn index(self) -> usize
        ensures { result ≡ self }
    {
        self.index as usize
    }
}

/// A list of ids of clauses.
#[derive(Drop)]
pub struct Ids {
    // The ids, in order.
    ids: Vec<ClauseId>,
}

impl Model for Ids {
    ghost use Rattle.std.specs.Prelude.{ℕ, List};

    ghost Value = { List ℕ };

    ghost view = { λ s. s.ids.items };
}

impl Ids {
    /// The empty list. It takes no memory.
    pub fn new(alloc: Global) -> Ids
        ensures { result ≡ [] }
    {
        Ids {
            ids: Vec::new(alloc),
        }
    }

    /// How many ids there are.
    pub fn len(&self) -> usize
        ensures { result ≡ length self.now }
    {
        self.ids.len()
    }

    /// Whether there is none.
    pub fn is_empty(&self) -> bool
        ensures { result ≡ (length self.now == 0) }
    {
        self.ids.is_empty()
    }

    /// The id at a place below `len()`.
    pub fn id(&self, k: usize) -> ClauseId
        requires { k < length self.now }
        ensures { slice_get self.now k ≡ Some result }
    {
        self.ids[k]
    }

    /// Appends an id. After `Memory` the list is as before.
    pub fn push(&mut self, id: ClauseId) -> Result<(), Memory>
        ensures ok { OnOk result (self.new ≡ self.old ++ id ∷ []) }
        ensures err { OnErr result (self.new ≡ self.old) }
    {
        self.ids.push(id)?;
        Ok(())
    }
}
