//! A worked propagator: at most one variable of a group is true.
#![tactic(auto)]

pub mod at_most_one;
mod pairs;
#[cfg(test)]
mod tests;
mod walk;
