//! What a line asks for, and what is reported.
//!
//! The program is measured from outside: a script writes one line for each run, the name of a kind
//! of work and how many clauses it is over, and reads one line for each, the work and what it left.
//! So one build serves all sizes and kinds, the script takes the times, and a run whose counts are
//! not those that were asked for is seen in the report. The number is bounded, since each clause
//! has variables of its own and these must be variables of the store.
use std::fmt;

// The most clauses of a run, so that their variables are variables.
const MOST: u32 = 1_000_000;

// Which run.
#[derive(Clone, Copy, Debug, PartialEq, Eq)]
pub(crate) enum Run {
    Add,
    Jump,
    Shared,
    Apart,
    Spread,
}

// A run over so many clauses.
#[derive(Clone, Copy)]
pub(crate) struct Request {
    pub(crate) run: Run,
    pub(crate) count: u32,
}

// The run of a name.
fn run_of(name: &str) -> Option<Run> {
    match name {
        "add" => Some(Run::Add),
        "jump" => Some(Run::Jump),
        "shared" => Some(Run::Shared),
        "apart" => Some(Run::Apart),
        "spread" => Some(Run::Spread),
        _ => None,
    }
}

impl Request {
    // What a line asks for: a name and a number with a space between them.
    pub(crate) fn parse(line: &str) -> Option<Request> {
        let (name, number) = line.split_once(' ')?;
        let run = run_of(name)?;
        let count = number.trim().parse::<u32>().ok()?;
        if count > MOST {
            return None;
        }
        Some(Request { run, count })
    }
}

// How many clauses were added, removed or parked, and restored; how many are in the store, and how many on the stack.
#[derive(Clone, Copy)]
pub(crate) struct Report {
    pub(crate) came: usize,
    pub(crate) went: u64,
    pub(crate) came_back: u64,
    pub(crate) stored: usize,
    pub(crate) parked: usize,
}

impl fmt::Display for Report {
    fn fmt<W: fmt::Write>(&self, f: &mut fmt::Formatter<W>) -> fmt::Result {
        write!(
            f,
            "{} came, {} went, {} came back; ",
            self.came, self.went, self.came_back
        )?;
        write!(
            f,
            "{} in the store, {} on the stack",
            self.stored, self.parked
        )
    }
}
