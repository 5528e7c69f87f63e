//! What a pass of simplification reports.

/// How a pass ended.
#[derive(Clone, Copy, Debug, PartialEq, Eq)]
pub enum Ended {
    /// Nothing was left to do.
    Fixpoint,
    /// The pass did so many steps, which was its limit.
    Limit(u64),
}

/// How many clauses a pass took out of the store, and how it ended.
#[derive(Clone, Copy, Debug, PartialEq, Eq)]
pub struct PassReport {
    /// How many clauses it took out of the store.
    pub removed: u64,
    /// How it ended.
    pub ended: Ended,
}
