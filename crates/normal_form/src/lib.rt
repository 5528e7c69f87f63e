//! The normal form of a clause.
#![tactic(auto)]

pub mod forms;
#[cfg(test)]
mod tests;
