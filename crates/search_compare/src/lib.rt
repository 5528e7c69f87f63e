//! Compares the solver with plain backtracking on generated scripts. The crate holds tests alone.
#![tactic(auto)]

#[cfg(test)]
mod draw;
#[cfg(test)]
mod tests;
