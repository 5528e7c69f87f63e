//! Reads the clauses, cardinalities and queries of a DIMACS text (`p cnf V C`), a text with cardinalities (`p knf V C`) or an iCNF
//! text (`p inccnf`) from a source, item by item.
//!
//! `words::WordReader` gives the words of any text of lines and comments, and `numbers` tells what a word is as a number: other
//! grammars can be built on these two. `reader::Reader` is the grammar of this crate.
#![tactic(auto)]

pub mod grammar;
pub mod item;
pub mod numbers;
pub mod reader;
#[cfg(test)]
mod tests;
pub mod words;
