//! Cardinalities as an external propagator: at least so many positions of a list are true.
//!
//! `card` has the propagator, whose methods are those that a solver calls. What it keeps is in
//! `counter`: the cardinalities, for each the numbers of its true and false positions, what was told
//! of each variable, and which cardinalities wait to be looked at (`queue`). `holders` lists for each
//! literal the cardinalities that hold it (`id`, `id_list`); `tallies` counts along such a list.
//! `due` looks for what follows, for which `heaviest` finds once how often a list repeats a literal;
//! `clauses` makes clauses and reasons; `rules` reads a constraint, and `told` is an entry of the
//! table.
#![tactic(auto)]

pub mod card;
mod clauses;
pub mod counter;
mod due;
mod heaviest;
mod holders;
mod id;
mod id_list;
mod queue;
mod rules;
mod tallies;
#[cfg(test)]
mod tests;
pub mod told;
