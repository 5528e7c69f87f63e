//! What can be in a set: variables, literals and ids of clauses, each told from the others of its kind by a number.
//!
//! A set knows its members by their numbers alone: a variable's own, a literal's code (`2v` for `v`, `2v + 1` for its negation), an
//! id's index.
ghost use Rattle.std.specs.Prelude.{◌≡◌, ◌<◌, ◌^◌, ℕ};

use sat_model::lists::ClauseId;
use sat_model::literal::{Lit, Var};

/// What can be in a set. Its number is below 2^32.
pub trait Member: Copy {
    ghost number_of: { Self → ℕ };

    /// Its number.
    fn number(self) -> usize
        ensures value { result ≡ number_of self }
        ensures range { result < 2 ^ 32 };
}

impl Member for Var {
    ghost number_of = { λ v. v };

    fn number(self) -> usize {
        self.index() as usize
    }
}

impl Member for Lit {
    ghost number_of = { λ l. l };

    fn number(self) -> usize {
        self.code() as usize
    }
}

impl Member for ClauseId {
    ghost number_of = { λ id. id };

    fn number(self) -> usize {
        self.index()
    }
}
