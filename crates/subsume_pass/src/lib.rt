//! Subsumption and self-subsuming resolution: firm clauses that hold all of another one go, and firm clauses lose literals that a
//! resolution with another one takes away.
//!
//! The pass is `pass::run`. The kernel knows which clauses wait to be compared. Each that is fresh has others tried on it (src/fresh.rt),
//! then each that is due is tried on others (src/turn.rt). Which others these are src/candidates.rt chooses, src/compare.rt compares two
//! clauses, and src/change.rt does what follows.
#![tactic(auto)]

mod candidates;
mod change;
mod compare;
mod fresh;
pub mod pass;
#[cfg(test)]
mod tests;
mod turn;
