//! Answers a DIMACS or iCNF text from standard input: each query asks whether the clauses above it have a model under its
//! assumptions.
#![tactic(auto)]

mod options;
mod run;
mod session;
mod standard;
mod status;
#[cfg(test)]
mod tests;

use crate::run::run;
use crate::standard::{StdSink, StdSource, words_of};
use crate::status::NO_MEMORY;
use std::io;
use std::process::ExitCode;

fn main(rt: HostRuntime) -> ExitCode {
    let alloc = rt.alloc();
    let Ok(words) = words_of(&rt) else {
        return ExitCode::from(NO_MEMORY.code);
    };
    let mut source = StdSource::new(rt.reader());
    let mut sink = StdSink::new(io::writer(&rt));
    let status = run(alloc, &words, &mut source, &mut sink);
    ExitCode::from(status.code)
}
