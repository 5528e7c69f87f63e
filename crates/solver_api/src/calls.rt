//! The calls of a solver and their answers.
ghost use Rattle.std.specs.Prelude.{◌≡◌};
ghost use Rattle.solver_api.specs.declared.calls.Refusal.TheVariants as refusals;

use sat_model::constraint::Kind;
use sat_model::lists::Lits;
use sat_model::literal::Lit;
use sat_model::memory::Memory;
pub use search_engine::state::{Budget, NO_BUDGET, Spent};
use thiserror::Error;

/// A call that changes a solver.
#[derive(Drop)]
pub enum Call {
    /// The clause of these literals is given.
    Add(Lits),
    /// The literal is assumed for the next solve.
    Assume(Lit),
    /// A model or a core is looked for, within a budget and a step limit.
    Solve(Budget, u64),
}

/// What a call answers that was not refused.
#[derive(Clone, Copy, Debug, PartialEq, Eq)]
pub enum Reply {
    /// It is done.
    Done,
    /// The answer of a solve.
    Solved(Outcome),
}

/// What a solve answers.
#[derive(Clone, Copy, Debug, PartialEq, Eq)]
pub enum Outcome {
    /// There is a model of what was given and of the assumptions.
    Sat,
    /// There is none.
    Unsat,
    /// The budget was used up before one was found, or was shown not to be there.
    Unknown(Spent),
}

/// What a solve counted.
#[derive(Clone, Copy, Debug, PartialEq, Eq)]
pub struct Stats {
    /// The conflicts: the false clauses that were analysed.
    pub conflicts: u64,
    /// The calls of an external propagator. There is none yet.
    pub callbacks: u64,
    /// The clauses that simplification removed. There is no simplification yet.
    pub removed: u64,
    /// The removed clauses that were restored. There is no restoration yet.
    pub restored: u64,
}

impl Stats {
    // So many conflicts, and nothing else.
    pub(crate) fn of_conflicts(conflicts: u64) -> Stats
        ensures { result ≡ record { conflicts = conflicts; callbacks = 0; removed = 0; restored = 0 } }
    {
        Stats {
            conflicts,
            callbacks: 0,
            removed: 0,
            restored: 0,
        }
    }
}

/// Why a call is refused.
#[derive(Clone, Copy, Debug, PartialEq, Eq, Error)]
pub enum Refusal {
    /// A model was asked for, and none is shown.
    #[error("no model")]
    NotSat,
    /// A core was asked for, and none is shown.
    #[error("no core")]
    NotUnsat,
    /// The solver takes no constraints of this kind. No call answers so yet.
    #[error("kind not taken")]
    NotTaken(Kind),
    /// With the literals of this call more than 2^27 would have been handed over: this many.
    #[error("too many literals: {0}")]
    TooManyLiterals(u64),
    /// Want of memory.
    #[error("out of memory")]
    Memory,
}

impl From<Memory> for Refusal {
    ghost from_gives = { λ _ e. e ≡ refusals.Memory };

    fn from(_e: Memory) -> Refusal {
        Refusal::Memory
    }
}
