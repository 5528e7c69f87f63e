//! Literals, clauses, constraints and their truth under an assignment.
#![tactic(auto)]

pub mod constraint;
pub mod lists;
pub mod literal;
pub mod memory;
#[cfg(test)]
mod tests;
pub mod truth;
