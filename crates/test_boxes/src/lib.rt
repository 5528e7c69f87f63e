//! Boxes for tests: propagators with one simple trait each, all proved to keep the laws.
#![tactic(auto)]

pub mod asking;
pub mod counting;
pub mod imply;
mod pair;
pub mod refusing;
pub mod reject;
#[cfg(test)]
mod tests;
