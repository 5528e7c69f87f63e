//! Propagation: what clauses imply on a trail, by two watched literals of each clause.
//!
//! `watches` has the lists and tells how they work, `visits` the loop over a literal's list, `waiting` the choice of what a clause
//! watches, `shorts` the clauses of fewer than two literals, `copies` the literals of the clauses that watch.
#![tactic(auto)]

mod copies;
pub mod lists;
mod marks;
mod shorts;
#[cfg(test)]
mod tests;
mod visits;
mod waiting;
pub mod watches;
