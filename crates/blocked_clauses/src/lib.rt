//! Blocked clause elimination: clauses of which every resolvent on one of their literals is a tautology go to the reconstruction stack.
//!
//! The pass is `pass::run`. It walks over the literals that the kernel has marked (src/walk.rt), and on each seeks a clause that is blocked
//! (src/seek.rt), by testing it against those with the literal's negation (src/clash.rt). Which clause is blocked is stated over firm
//! clauses in general, in firm_terms, for the kernel promises that unmarked literals have none.
#![tactic(auto)]

mod clash;
pub mod pass;
mod seek;
#[cfg(test)]
mod tests;
mod walk;
