//! Redundancy by a witness, for contracts: reconstruction stacks, their chains, clean clauses and extension, with their laws.
//!
//! The crate holds definitions and laws alone, and no code.
#![tactic(auto)]
