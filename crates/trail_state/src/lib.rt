//! The trail: the literals that have a value, in the order in which they got it.
#![tactic(auto)]

mod mark;
pub mod reason;
#[cfg(test)]
mod tests;
pub mod trail;
