//! What stands on a seen trail.

use sat_model::literal::Lit;

/// A literal of an observed variable that the propagator was told of. Contracts see a seen trail
/// as a list of these, oldest first.
#[derive(Clone, Copy, Debug, PartialEq, Eq)]
pub struct Seen {
    /// The literal.
    pub lit: Lit,
    /// The level at which the propagator was told.
    pub level: u32,
    /// Whether the literal was decided.
    pub decision: bool,
}
