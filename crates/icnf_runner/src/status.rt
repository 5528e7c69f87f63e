//! The exit statuses of the program.
//!
//! A run ends with one number, and each number has one kind of cause: so a script can tell an answer from a
//! refusal, and a fault of the source from one of the sink, without reading the output. 10 and 20
//! are those of the SAT competitions, which all solvers give for their last answer; 0 is given
//! where the last query stayed open, or where there was none. The numbers from 1 to 5 tell what
//! ended the run before the end of its input: what was given is at fault in 1 and 2, the world
//! around the program in 3, 4 and 5. The contract of `run` ties each status but 5 to what happened,
//! in both directions; no clause says when memory is wanting.

/// How a run ended: the exit status of the program.
#[derive(Clone, Copy, Debug, PartialEq, Eq)]
pub struct Status {
    /// The number that the system gets.
    pub code: u8,
}

/// The last reply is UNKNOWN, or there was no query.
pub const NO_ANSWER: Status = Status { code: 0 };

/// The input was refused.
pub const REFUSED: Status = Status { code: 1 };

/// The words of the command line are not accepted.
pub const USAGE: Status = Status { code: 2 };

/// The source failed.
pub const READ_FAULT: Status = Status { code: 3 };

/// The sink failed.
pub const WRITE_FAULT: Status = Status { code: 4 };

/// There was no memory.
pub const NO_MEMORY: Status = Status { code: 5 };

/// The last reply is SATISFIABLE.
pub const SATISFIABLE: Status = Status { code: 10 };

/// The last reply is UNSATISFIABLE.
pub const UNSATISFIABLE: Status = Status { code: 20 };
