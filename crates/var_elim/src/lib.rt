//! Bounded variable elimination: a variable is replaced by the resolvents of its clauses, where these are no more than the clauses were.
//!
//! The pass is `pass::run`. It asks for the variable that comes next (src/order.rt), tests whether it is a candidate by resolving its
//! clauses pair by pair (src/test.rt, src/resolve.rt), and eliminates it if it is one (src/eliminate.rt).
#![tactic(auto)]

mod eliminate;
mod order;
pub mod pass;
mod resolve;
mod test;
#[cfg(test)]
mod tests;
