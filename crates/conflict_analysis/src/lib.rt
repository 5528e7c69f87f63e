//! The analysis of a conflict: the clause that it teaches, and the count of the conflicts.
//!
//! `analysis` is the call, `scratch` what it works on from conflict to conflict, `walk` the way
//! down the trail, `shorten` what makes the clause shorter, `levels` the levels of a clause's
//! literals, and `tally` the count.
#![tactic(auto)]

pub mod analysis;
pub mod levels;
pub mod scratch;
mod shorten;
pub mod tally;
#[cfg(test)]
mod tests;
mod walk;
