//! Reasons.
ghost use Rattle.std.specs.Prelude.{◌≡◌};

use sat_model::lists::ClauseId;

/// Why a literal stands on the trail.
#[derive(Clone, Copy, Debug, PartialEq, Eq)]
pub enum Reason {
    /// It was decided.
    Decision,
    /// A stored clause implied it.
    Clause(ClauseId),
    /// An external propagator implied it.
    Theory,
}
