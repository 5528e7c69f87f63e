//! Sets of variables, of literals and of ids of clauses: flags that are cheap to ask and to clear, and work lists that can be gone
//! through while they change.
//!
//! Both are typed by what they hold, so that a variable's number is never taken for a literal's or an id's.
#![tactic(auto)]

pub mod member;
pub mod set;
#[cfg(test)]
mod tests;
pub mod work;
