//! What a line asks for, and what is reported.
//!
//! A measurement is repeated by whoever doubts it, so a run is two words that stand in the report
//! too: which run, and over how many clauses. There is no option and no file: bench/restore.py
//! writes such lines to the program and times it from outside.
//!
//! A line is cut at its first space. What stands before it is one of four names, and what stands
//! behind it, but for blanks round it, is a number; any other line is refused whole, and nothing is
//! run for it. The number is at most `MOST`: each clause has three variables of its own, and the
//! 10,000 clauses that a `clean` run adds have theirs too, so that the greatest variable of a run
//! is 3,030,000, which is below `MAX_VAR`. Past that, a clause would have no literals, and a run
//! would leave it out and report fewer clauses than it was asked for.
//!
//! The report has counts and no times: how many entries were restored, how many clauses are firm,
//! and how many entries are left on the stack. They are known beforehand, so that the program's
//! expected output pins them: after `half 1000` 500 entries were restored, 500 clauses are firm,
//! and 500 entries are left. A change that made restoration quick by restoring too little would
//! show there, and so would one that restores too much.
//!
//! Left out: clauses of other lengths, runs over one stack one after another, and times.
use std::fmt;

// The tallest stack of a run, so that all variables are variables.
const MOST: u32 = 1_000_000;

// Which run.
#[derive(Clone, Copy, Debug, PartialEq, Eq)]
pub(crate) enum Run {
    // Clauses are parked, and nothing else.
    Park,
    // Then clauses are added that need nothing restored.
    Clean,
    // Then half of the entries are restored, in one call.
    Half,
    // Then a hundred entries are restored, each by a call of its own.
    Single,
}

// A run over so many clauses.
#[derive(Clone, Copy)]
pub(crate) struct Request {
    // Which run.
    pub(crate) run: Run,
    // How many clauses are parked.
    pub(crate) count: u32,
}

// The run of a name.
fn run_of(name: &str) -> Option<Run> {
    match name {
        "park" => Some(Run::Park),
        "clean" => Some(Run::Clean),
        "half" => Some(Run::Half),
        "single" => Some(Run::Single),
        _ => None,
    }
}

impl Request {
    // What a line asks for: a name and a number with a space between them.
    pub(crate) fn parse(line: &str) -> Option<Request> {
        let (name, number) = line.split_once(' ')?;
        let run = run_of(name)?;
        let count = number.trim().parse::<u32>().ok()?;
        if count > MOST {
            return None;
        }
        Some(Request { run, count })
    }
}

// What a run leaves.
#[derive(Clone, Copy)]
pub(crate) struct Report {
    // How many entries were restored.
    pub(crate) restored: u64,
    // How many clauses are firm in the end.
    pub(crate) firm: usize,
    // How many entries are on the stack in the end.
    pub(crate) stacked: usize,
}

impl fmt::Display for Report {
    fn fmt<W: fmt::Write>(&self, f: &mut fmt::Formatter<W>) -> fmt::Result {
        write!(f, "{} restored; ", self.restored)?;
        write!(f, "{} firm, {} on the stack", self.firm, self.stacked)
    }
}
