//! Sources, sinks and lines: what a program reads from and writes to, and the lines of what it reads.
//!
//! A source may tell the bytes that are still to come, and a sink those that were written. Each counts its faults. Sources
//! and sinks in memory tell all, cut what they give and take into small pieces, and fail at the calls that are named.
#![tactic(auto)]

mod ahead;
pub mod buffer;
pub mod lines;
pub mod memory;
pub mod outside;
#[cfg(test)]
mod tests;
pub mod wrapping;
