//! Restoration: stacked clauses come back exactly where some literals need them, so that these
//! literals are clean.
#![tactic(auto)]

pub mod restore;
#[cfg(test)]
mod tests;
