//! Vivification: firm clauses are shortened by unit propagation over the other firm clauses.
//!
//! The pass is `pass::run`. It makes a trail and watch lists over the firm clauses
//! (src/setup.rt), and goes round over the clauses (src/turn.rt), each of which is tried
//! (src/trial.rt) by assuming its literals false one after another (src/probe.rt), over what the
//! clauses make true by themselves (src/root.rt). What the rule makes of a clause is stated over
//! the closure of unit propagation, and `laws` says what follows from that.
#![tactic(auto)]

mod held;
pub mod laws;
pub mod pass;
mod probe;
mod root;
mod setup;
#[cfg(test)]
mod tests;
mod trial;
mod turn;
