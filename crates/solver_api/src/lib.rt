//! An incremental SAT solver: clauses, assumptions, models and cores.
//!
//! `solver` has the calls, `calls` their answers and refusals, `mode` what is shown, `givens` what was given, `engine` the stored clauses
//! and the search, `literals` the greatest variable and whether a clause settles, `recheck` a model tried anew.
#![tactic(auto)]

pub mod calls;
mod engine;
pub mod givens;
mod literals;
pub mod mode;
mod recheck;
pub mod solver;
#[cfg(test)]
mod tests;
