//! Words for the firm clauses of a store, as simplification speaks of them, with their laws: which variables stand in them, which variable
//! may be eliminated, which clause is blocked, which lies within another, which literals are equivalent, and what unit propagation makes
//! of a clause.
//!
//! They stand below the kernel of rules, since the kernel remembers, for each of them, where nothing is to be found any more.
//!
//! The crate holds definitions and laws alone, and no code.
#![tactic(auto)]
