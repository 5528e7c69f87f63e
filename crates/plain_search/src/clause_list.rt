//! Lists of clauses that a search reads.
ghost use Rattle.std.specs.Prelude.{◌≡◌, ◌<◌, ◌^◌, ℕ, List, length, slice_get, Some};

use sat_model::lists::Lits;
use sat_model::literal::Lit;

/// A list of clauses, read by place.
pub trait ClauseList {
    /// The clauses, in order.
    ghost clauses: { Self → List (List ℕ) };

    /// How many clauses there are.
    fn len(&self) -> usize
        ensures count { result ≡ length (clauses self.now) }
        // The clauses lie in memory.
        ensures few { result < 2 ^ 63 };

    /// The literals of the clause at a place below `len()`.
    fn clause(&self, k: usize) -> &[Lit]
        requires { k < length (clauses self.now) }
        ensures { slice_get (clauses self.now) k ≡ Some result.now };
}

impl ClauseList for Vec<Lits> {
    ghost clauses = { λ v. v.items };

    fn len(&self) -> usize {
        self.as_slice().len()
    }

    fn clause(&self, k: usize) -> &[Lit] {
        self[k].as_slice()
    }
}
