//! Backtracking with unit propagation over a plain list of clauses.
#![tactic(auto)]

pub mod assignment;
pub mod clause_list;
pub mod scan;
pub mod search;
#[cfg(test)]
mod tests;
