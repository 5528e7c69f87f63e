//! The bridge between a search and its boxed propagator: it owns the box and the desk, calls the box
//! only in the states that its laws name, and counts the callbacks.
#![tactic(auto)]

pub mod bridge;
pub mod stop;
mod telling;
#[cfg(test)]
mod tests;
