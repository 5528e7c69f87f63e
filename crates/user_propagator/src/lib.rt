//! The interface of an external propagator: the calls that a propagator answers (`Theory`), what
//! it is lent in them (`Desk`), and the propagator without a constraint (`NoTheory`).
#![tactic(auto)]

pub mod counting;
pub mod desk;
pub mod nothing;
mod notices;
mod phases;
pub mod request;
mod requests;
pub mod seen;
#[cfg(test)]
mod tests;
pub mod theory;
