//! The number of a cardinality, in the order of admission.
//!
//! Numbers fill the lists of the literals and the queue, where half a word counts, so they are below
//! 2^32. A type of its own tells a number from a place in a list or a count.
ghost use Rattle.std.specs.Prelude.{◌≡◌, ◌<◌, ◌^◌, ℕ};

use flag_set::member::Member;
use std::marker::Model;

/// How many cardinalities there can be: 2^32.
pub(crate) const END: usize = 4_294_967_296;

/// The number of an admitted cardinality, below 2^32: numbers fill the lists of the literals, where half a word counts.
#[derive(Clone, Copy, Default)]
pub(crate) struct CardId {
    // The number.
    index: u32,
}

impl Model for CardId {
    ghost use Rattle.std.specs.Prelude.{ℕ};

    ghost Value = { ℕ };

    ghost view = { λ id. id.index };

    ghost inverse = { λ n. record { index = n } };
}

impl CardId {
    // The id of a number below 2^32.
    pub(crate) fn new(index: usize) -> CardId
        requires { index < 2 ^ 32 }
        ensures { result ≡ index }
    {
        CardId {
            index: index as u32,
        }
    }

    // Its number.
    pub(crate) fn index(self) -> usize
        ensures { result ≡ self }
    {
        self.index as usize
    }
}

impl Member for CardId {
    ghost number_of = { λ id. id };

    fn number(self) -> usize {
        self.index()
    }
}
