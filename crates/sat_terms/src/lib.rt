//! The words of the field, for contracts: literals, assignments, truth, models and cores, with their laws.
//!
//! The crate holds definitions and laws alone, and no code.
#![tactic(auto)]
