//! Fills and empties a store, and parks and restores clauses with a kernel, as many as it is told: bench/kernel.py shows by it how their
//! time grows.
//!
//! Each line of standard input is a run, as `shared 50000`:
//!
//!     add N       adds N clauses that share a literal to a store, and removes them in another order
//!     jump N      the same, where each clause that is removed is far from the one before
//!     shared N    adds N clauses that share a literal to a kernel, parks all, and restores them from the newest to the oldest
//!     apart N     the same with clauses that share none
//!     spread N    adds and parks N clauses that share none, and restores every second one from the newest to the oldest
//!
//! A line of output says how many clauses came, went and came back, and where they are in the end; it says nothing of time. All runs of an
//! input begin with nothing.
#![tactic(auto)]

mod clauses;
mod parking;
mod request;
mod storing;

use crate::parking::park_and_restore;
use crate::request::{Report, Request, Run};
use crate::storing::add_and_remove;
use sat_model::memory::Memory;
use std::alloc::Global;
use std::io;

// Does what a line asks for.
fn answer(alloc: Global, request: Request) -> Result<Report, Memory> {
    match request.run {
        Run::Add => add_and_remove(alloc, request.count, false),
        Run::Jump => add_and_remove(alloc, request.count, true),
        Run::Shared => park_and_restore(alloc, request.count, true, 1),
        Run::Apart => park_and_restore(alloc, request.count, false, 1),
        Run::Spread => park_and_restore(alloc, request.count, false, 2),
    }
}

fn main(rt: HostRuntime) -> io::Result<()> {
    let alloc = rt.alloc();
    for line in rt.lines(alloc) {
        let line = line?;
        let Some(request) = Request::parse(line.as_str()) else {
            println!(rt;
                "refused: add, jump, shared, apart or spread, and a number up to 1000000"
            )?;
            continue;
        };
        match answer(alloc, request) {
            Ok(report) => println!(rt; "{}: {report}", line.as_str())?,
            Err(Memory) => println!(rt; "{}: no memory", line.as_str())?,
        }
    }
    Ok(())
}
