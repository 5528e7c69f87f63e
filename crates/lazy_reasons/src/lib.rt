//! The reason of a literal of the trail: a clause of the store, or the one that the theory gives when it is asked. `source` has
//! the two calls: `source_at` finds the reason of an implied literal, and `lits` reads its literals.
#![tactic(auto)]

pub mod source;
