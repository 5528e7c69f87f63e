//! An entry of the table of what was told.
use sat_model::literal::Lit;

/// The literal that was told of a variable, and the level at which it was.
#[derive(Clone, Copy)]
pub struct Told {
    /// The literal.
    pub lit: Lit,
    /// The level.
    pub level: u32,
}
