//! Equivalent literals: each variable that is equivalent to a literal of another variable is
//! replaced by it, and its clauses go.
//!
//! The pass is `pass::run`. It finds strong components of the implications that binary clauses
//! say (src/graph.rt, src/walk.rt), chooses pairs of equivalent literals (src/pairs.rt), and
//! replaces the first literal of each pair by the second (src/replace.rt).
#![tactic(auto)]

mod graph;
mod pairs;
pub mod pass;
mod replace;
#[cfg(test)]
mod tests;
mod walk;
