//! Constraints other than clauses.
ghost use Rattle.std.specs.Prelude.{◌≡◌};
ghost use Rattle.sat_model.specs.Constraint.{kind_of};

use crate::lists::Lits;

/// A constraint on the number of positions of a list that hold a true literal.
#[derive(Drop)]
pub enum Constraint {
    /// At least so many positions hold a true literal.
    AtLeast(u64, Lits),
    /// The number of positions that hold a true literal is odd, where the flag is true, or else even.
    Parity(bool, Lits),
}

/// The kinds of constraints.
#[derive(Clone, Copy, Debug, PartialEq, Eq)]
pub enum Kind {
    /// A cardinality.
    Card,
    /// A parity.
    Parity,
}

impl Constraint {
    /// Its kind: `Card` for `AtLeast`, and `Parity` for `Parity`.
    pub fn kind(&self) -> Kind
        ensures { result ≡ kind_of self.now }
    {
        match self {
            Constraint::AtLeast(_, _) => Kind::Card,
            Constraint::Parity(_, _) => Kind::Parity,
        }
    }
}
