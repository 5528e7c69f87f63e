//! Failed assumptions: which of the assumptions a conflict comes from.
//!
//! `cores` is the call, `needs` the walk back over the trail, and `places` what it reads there.
#![tactic(auto)]

pub mod cores;
mod needs;
mod places;
#[cfg(test)]
mod tests;
