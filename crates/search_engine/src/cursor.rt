//! How far a search has looked.
//!
//! The assumptions before the cursor are true, and stay so until the trail goes back. So at a
//! conflict the cursor begins anew, and between two conflicts each assumption is passed once.

/// How far a search has looked since it last went back: the assumptions before this place are true.
#[derive(Clone, Copy)]
pub(crate) struct Cursor {
    // The first assumption that is not known to be true.
    pub(crate) assumption: usize,
}

impl Cursor {
    ghost use Rattle.std.specs.Prelude.{ℕ, List};
    ghost use Rattle.search_engine.specs.declared.state.Core.{Core};
    ghost use Rattle.search_engine.specs.Turns.{Passed};

    // Nothing was looked at.
    pub(crate) fn start() -> Cursor
        ensures { (assumptions : List ℕ) (core : Core) → Passed assumptions core result }
    {
        Cursor { assumption: 0 }
    }
}
