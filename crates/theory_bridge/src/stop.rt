//! Why a call of the propagator stopped.
ghost use Rattle.std.specs.Prelude.{◌≡◌};
ghost use Rattle.theory_bridge.specs.declared.stop.AskStop.TheVariants as stops;

use sat_model::memory::Memory;
use std::alloc::AllocFailed;

/// Why a question to the propagator has no answer.
#[derive(Clone, Copy, Debug, PartialEq, Eq)]
pub enum AskStop {
    /// So many callbacks were counted, which is the budget.
    Callbacks(u64),
    /// There was no memory.
    Memory,
}

impl From<Memory> for AskStop {
    ghost from_gives = { λ _ e. e ≡ stops.Memory };

    fn from(_e: Memory) -> AskStop {
        AskStop::Memory
    }
}

impl<T: Drop> From<AllocFailed<T>> for AskStop {
    ghost from_gives = { λ _ e. e ≡ stops.Memory };

    fn from(_e: AllocFailed<T>) -> AskStop {
        AskStop::Memory
    }
}
