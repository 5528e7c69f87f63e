//! What a solver shows: a model, a core, or nothing.
//!
//! A core keeps its literals a second time, sorted, so that `failed` can be asked of each
//! assumption without a walk over the core at each.
ghost use Rattle.std.specs.Prelude.{◌≡◌, [], IfOk};
ghost use Rattle.sat_terms.specs.Literal.{has};

use normal_form::forms::sort_and_dedup;
use sat_model::lists::Lits;
use sat_model::literal::Lit;
use sat_model::memory::Memory;
use std::alloc::Global;
use std::marker::Model;

/// A model. Contracts see the list of its truth values, the first for variable 1.
#[derive(Drop)]
pub struct Values {
    // The value of variable k + 1 at k.
    values: Vec<bool>,
}

impl Model for Values {
    ghost use Rattle.std.specs.Prelude.{List, Bool};

    ghost Value = { List Bool };

    ghost view = { λ m. m.values.items };
}

impl Values {
    // The model that has these truth values.
    pub(crate) fn new(values: Vec<bool>) -> Values
        ensures { result ≡ values.items }
    {
        Values { values }
    }

    // Gives the list back.
    pub(crate) fn into_values(self) -> Vec<bool> {
        let Values { values } = self;
        values
    }

    /// The truth values, in order.
    pub fn as_slice(&self) -> &[bool]
        ensures { result.now ≡ self.now }
    {
        self.values.as_slice()
    }
}

/// A core. Contracts see the list of its literals, in the order of the query.
#[derive(Drop)]
pub struct Failed {
    // The core.
    lits: Lits,
    // The same literals in rising order, so that one is found by halves.
    sorted: Vec<Lit>,
}

impl Model for Failed {
    ghost use Rattle.std.specs.Prelude.{List, ℕ};
    ghost use Rattle.solver_api.specs.Held.{IsSortedCopy};

    ghost Value = { List ℕ };

    ghost view = { λ f. f.lits };

    ghost invariant = { λ f. IsSortedCopy f.lits f.sorted.items };
}

impl Failed {
    // The empty core. It takes no memory.
    pub(crate) fn empty(alloc: Global) -> Failed
        ensures { result ≡ [] }
    {
        Failed {
            lits: Lits::new(alloc),
            sorted: Vec::new(alloc),
        }
    }

    // The core of these literals.
    pub(crate) fn new(alloc: Global, lits: Lits) -> Result<Failed, Memory>
        ensures { IfOk result (λ f. f ≡ lits) }
    {
        let mut sorted = Vec::from_slice(alloc, lits.as_slice())?;
        sort_and_dedup(&mut sorted);
        Ok(Failed { lits, sorted })
    }

    // Whether the literal stands in the core.
    pub(crate) fn holds(&self, lit: Lit) -> bool
        ensures { result ≡ has self.now lit }
    {
        self.sorted.as_slice().binary_search(&lit).is_ok()
    }

    /// The literals, in the order of the query.
    pub fn as_slice(&self) -> &[Lit]
        ensures { result.now ≡ self.now }
    {
        self.lits.as_slice()
    }
}

/// What a solver shows.
#[derive(Drop)]
pub enum Mode {
    /// No answer: nothing was solved yet, the last solve found none, or what is solved was changed
    /// since.
    Input,
    /// The model that the last solve found.
    Sat(Values),
    /// The core that the last solve found.
    Unsat(Failed),
}
