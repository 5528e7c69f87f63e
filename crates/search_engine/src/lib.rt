//! Conflict-driven search for a model of stored clauses under assumptions.
//!
//! A `Core` keeps what a search needs from one to the next (state.rt). `Core::add` stores a clause,
//! `Core::resume` makes the core ready (ready.rt), `search` finds a model, a core of the
//! assumptions, or that the budget was used up (search.rt, choice.rt, conflict.rt, clausal.rt,
//! forgetting.rt),
//! and `Core::pause` lays the core to rest.
#![tactic(auto)]

mod choice;
mod clausal;
mod conflict;
mod cursor;
mod forgetting;
mod ready;
pub mod search;
pub mod state;
#[cfg(test)]
mod tests;
