//! The rules by which clauses come, go, and move between a store and a reconstruction stack, so that every model of the firm
//! clauses can be extended to one of the clauses on the stack.
#![tactic(auto)]

mod changes;
pub mod frozen;
pub mod kernel;
pub mod laws;
pub mod report;
mod settled;
mod signature;
#[cfg(test)]
mod tests;
mod waiting;
