//! The list of what was given.
ghost use Rattle.std.specs.Prelude.{◌≡◌, ◌==◌, ◌<◌, [], ◌∷◌, ◌++◌, length, take, OnOk, OnErr, slice_get, Some};
ghost use Rattle.solver_api.specs.declared.givens.GivenPart.TheVariants as parts;

use sat_model::constraint::Constraint;
use sat_model::lists::Lits;
use sat_model::memory::Memory;
use std::alloc::Global;
use std::marker::Model;

/// A part of what a solver was given.
#[derive(Drop)]
pub enum GivenPart {
    /// A clause.
    Clause(Lits),
    /// Another constraint. A solver takes none yet.
    Rule(Constraint),
}

/// What a solver was given, in order. A solver alone fills it, and with clauses alone.
#[derive(Drop)]
pub struct Givens {
    // The parts, in order.
    parts: Vec<GivenPart>,
}

impl Model for Givens {
    ghost use Rattle.std.specs.Prelude.{List, All};
    ghost use Rattle.solver_api.specs.declared.givens.GivenPart.{GivenPart};

    ghost Value = { List GivenPart };

    ghost use Rattle.solver_api.specs.Given.{IsClause};

    ghost view = { λ s. s.parts.items };

    ghost invariant = { λ s. All IsClause s.parts.items };
}

impl Givens {
    ghost use Rattle.solver_api.specs.Given.{IsClause};

    // The empty list.
    pub(crate) fn new(alloc: Global) -> Givens
        ensures { result ≡ [] }
    {
        Givens {
            parts: Vec::new(alloc),
        }
    }

    // Appends a clause. After `Memory` the list is as before.
    pub(crate) fn push(&mut self, clause: Lits) -> Result<(), Memory>
        ensures ok { OnOk result (self.new ≡ self.old ++ parts.Clause clause ∷ []) }
        ensures err { OnErr result (self.new ≡ self.old) }
    {
        self.parts.push(GivenPart::Clause(clause))?;
        Ok(())
    }

    // Takes back what was appended after the first `len` parts.
    pub(crate) fn truncate(&mut self, len: usize)
        ensures { self.new ≡ take len self.old }
    {
        self.parts.truncate(len);
    }

    /// How many parts there are.
    pub fn len(&self) -> usize
        ensures { result ≡ length self.now }
    {
        self.parts.len()
    }

    /// Whether there is none.
    pub fn is_empty(&self) -> bool
        ensures { result ≡ (length self.now == 0) }
    {
        self.parts.is_empty()
    }

    /// The part at a place below `len()`.
    pub fn part(&self, k: usize) -> &GivenPart
        requires { k < length self.now }
        ensures part { slice_get self.now k ≡ Some result.now }
        // A solver takes clauses alone.
        ensures clause { IsClause result.now }
    {
        &self.parts[k]
    }

    // The parts, in order.
    pub(crate) fn as_slice(&self) -> &[GivenPart]
        ensures { result.now ≡ self.now }
    {
        &self.parts
    }
}
