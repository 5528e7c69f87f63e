//! Restores entries of tall stacks, as tall as it is told: bench/restore.py shows by it what
//! restoration costs.
//!
//! Each line of standard input is a run, as `half 100000`:
//!
//!     park N      parks N clauses that share no variable
//!     clean N     then adds 10,000 more, each with what it needs restored first: nothing
//!     half N      parks N, and restores what every second witness's negation needs, in one call
//!     single N    parks N, and restores 100 entries, each by a call of its own
//!
//! A line of output says how many entries were restored, how many clauses are firm in the end, and
//! how many entries are left; it says nothing of time. All runs of an input begin with nothing.
#![tactic(auto)]

mod request;
mod runs;

use crate::request::Request;
use crate::runs::answer;
use sat_model::memory::Memory;
use std::io;

fn main(rt: HostRuntime) -> io::Result<()> {
    let alloc = rt.alloc();
    for line in rt.lines(alloc) {
        let line = line?;
        let Some(request) = Request::parse(line.as_str()) else {
            println!(rt; "refused: park, clean, half or single, and a number up to 1000000")?;
            continue;
        };
        match answer(alloc, request) {
            Ok(report) => println!(rt; "{}: {report}", line.as_str())?,
            Err(Memory) => println!(rt; "{}: no memory", line.as_str())?,
        }
    }
    Ok(())
}
