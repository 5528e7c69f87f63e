//! The printed text of replies to queries.
//!
//! Each text is written to a sink as it comes, number by number, so a model of any size takes no memory for its text.
#![tactic(auto)]

#[cfg(test)]
mod tests;
pub mod text;
