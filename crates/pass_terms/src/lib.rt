//! What the passes of simplification share: what a pass did, as a list of rules, and what follows from it.
//!
//! A pass changes a kernel by three rules alone: a clause that is implied comes, one that the others imply goes, and one goes to the
//! stack with one of its literals as witness. Whatever pass it is, and wherever it stops, what its caller must know is then the same:
//! models are the same up to the stack, the stack grew at its end, no variable is new, and nothing that was learned is gone. So a pass
//! proves only that what it did is a list of such rules, and the law gives the rest, after a limit and after want of memory too.
#![tactic(auto)]

pub mod laws;
pub mod refuted;
