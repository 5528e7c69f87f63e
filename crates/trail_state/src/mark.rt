//! The value of a literal in one byte.
//!
//! The table of values is read for every literal that propagation looks at, so it has a byte for each literal and no tag beside it.
ghost use Rattle.std.specs.Prelude.{◌≡◌, Some, None};
ghost use Rattle.trail_state.specs.Mark.{meaning, says_true, says_false};

use std::marker::Model;

// A literal's value.
#[derive(Clone, Copy)]
pub(crate) enum Truth {
    // It has none.
    Open,
    // It is true.
    True,
    // It is false.
    False,
}

// A literal's value, seen as an `Option<bool>`.
#[derive(Clone, Copy)]
pub(crate) struct Mark {
    // The value.
    truth: Truth,
}

impl Model for Mark {
    ghost use Rattle.std.specs.Prelude.{Bool, Option};
    ghost use Rattle.trail_state.specs.Mark.{meaning, mark_of};

    ghost Value = { Option Bool };

    ghost view = { λ m. meaning m.truth };

    ghost inverse = { λ o. record { truth = mark_of o } };

    ghost use Rattle.std.proofs.Common.{ap};
    ghost use Rattle.trail_state.specs.Mark.{mark_of-meaning};
    ghost use Rattle.trail_state.specs.declared.mark.Truth.{Truth};
    ghost use Rattle.trail_state.specs.declared.mark.Mark.TheInside.{Inside};

    ghost inverse_ok = { λ a _. let f : Truth → Inside = λ v. record { truth = v } in ap f (mark_of-meaning a.truth) };
}

impl Mark {
    // No value.
    pub(crate) fn open() -> Mark
        ensures { result ≡ None }
    {
        Mark { truth: Truth::Open }
    }

    // This value.
    pub(crate) fn of(value: bool) -> Mark
        ensures { result ≡ Some value }
    {
        if value {
            Mark { truth: Truth::True }
        } else {
            Mark {
                truth: Truth::False,
            }
        }
    }

    // The value, if there is one.
    pub(crate) fn get(self) -> Option<bool>
        ensures { result ≡ self }
    {
        match self.truth {
            Truth::Open => None,
            Truth::True => Some(true),
            Truth::False => Some(false),
        }
    }

    // Whether the value is true.
    pub(crate) fn is_true(self) -> bool
        ensures { result ≡ says_true self }
    {
        match self.truth {
            Truth::True => true,
            Truth::Open => false,
            Truth::False => false,
        }
    }

    // Whether the value is false.
    pub(crate) fn is_false(self) -> bool
        ensures { result ≡ says_false self }
    {
        match self.truth {
            Truth::False => true,
            Truth::Open => false,
            Truth::True => false,
        }
    }
}
