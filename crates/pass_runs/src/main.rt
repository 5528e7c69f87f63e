//! Runs passes of simplification over clauses that it is told: bench/passes.py shows by it what a pass does to a text, and how its time
//! grows.
//!
//! Standard input is a DIMACS text with lines of commands between and behind its clauses:
//!
//!     p cnf V C          begins anew, without clauses
//!     1 -2 0             a clause; a comment line begins with c
//!     freeze 3           no pass may touch variable 3
//!     run PASS LIMIT     runs a pass, and prints a line on what it did
//!     run none 0         prints the same line, and does nothing
//!
//! A pass is `equivalences`, `subsumption`, `vivification`, `blocked` or `elimination`. The line that is printed says how the pass ended, how
//! many clauses it removed, and what is left: firm clauses, their literals, the variables that stand in them, and entries of the stack. It
//! says nothing of time. A line that is none of these is refused by a line, and the next one is read.
#![tactic(auto)]

mod request;
mod session;

use crate::session::Session;
use std::io;

fn main(rt: HostRuntime) -> io::Result<()> {
    let alloc = rt.alloc();
    let mut session = Session::new(alloc);
    for line in rt.lines(alloc) {
        let line = line?;
        let reply = session.answer(alloc, line.as_str());
        print!(rt; "{reply}")?;
    }
    Ok(())
}
