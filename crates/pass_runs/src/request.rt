//! What a line asks for.
//!
//! A text of clauses is measured by whoever doubts it, and most texts are DIMACS: so a line that begins with a digit or a sign is a
//! clause, and one that begins with `c` or `p` is what it is there. Only what DIMACS has no word for is new: which variables are frozen,
//! and which pass runs, as often and in whatever order one likes, for a pass that runs twice shows what the kernel remembers.
//!
//! A command is cut at its first space. What stands before it is one of a few words, and what stands behind it is a number, or the name of
//! a pass and a number with a space between them; blanks at the end do no harm. Any other line is refused whole and changes nothing. The
//! counts in a header are not compared with what follows, and a clause is one line.
//!
//! Left out: assumptions and queries, for there is no search here; options; and clauses over several lines.

// A pass.
#[derive(Clone, Copy, Debug, PartialEq, Eq)]
pub(crate) enum Pass {
    // No pass: only the line is printed.
    None,
    // Equivalent literals are replaced.
    Equivalences,
    // Clauses are dropped or shortened by others that hold their literals.
    Subsumption,
    // Clauses are shortened by unit propagation.
    Vivification,
    // Blocked clauses are parked.
    Blocked,
    // Variables are eliminated.
    Elimination,
}

// What a line asks for.
#[derive(Clone, Copy, Debug, PartialEq, Eq)]
pub(crate) enum Request {
    // Nothing: an empty line, or a comment.
    Skip,
    // A header: all begins anew.
    Begin,
    // No pass may touch a variable.
    Freeze(u32),
    // A line of literals.
    Clause,
    // A pass with its limit.
    Run(Pass, u64),
    // None of these.
    Unknown,
}

// The pass of a name.
fn pass_of(name: &str) -> Option<Pass> {
    match name {
        "none" => Some(Pass::None),
        "equivalences" => Some(Pass::Equivalences),
        "subsumption" => Some(Pass::Subsumption),
        "vivification" => Some(Pass::Vivification),
        "blocked" => Some(Pass::Blocked),
        "elimination" => Some(Pass::Elimination),
        _ => None,
    }
}

// A pass and its limit, with a space between them.
fn run_of(text: &str) -> Option<Request> {
    let (name, number) = text.split_once(' ')?;
    let pass = pass_of(name)?;
    let limit = number.trim().parse::<u64>().ok()?;
    Some(Request::Run(pass, limit))
}

// What a line with a command asks for, by its first word and the rest.
fn command_of(word: &str, rest: &str) -> Option<Request> {
    match word {
        "c" => Some(Request::Skip),
        "p" => Some(Request::Begin),
        "run" => run_of(rest),
        "freeze" => {
            let number = rest.trim().parse::<u32>().ok()?;
            Some(Request::Freeze(number))
        }
        _ => None,
    }
}

impl Request {
    // What a line asks for: by its first word, or by the digit or the sign that it begins with.
    pub(crate) fn parse(line: &str) -> Request {
        let bytes = line.as_bytes();
        if bytes.is_empty() || line == "c" {
            return Request::Skip;
        }
        if bytes[0] == b'-' || bytes[0].is_ascii_digit() {
            return Request::Clause;
        }
        let Some((word, rest)) = line.split_once(' ') else {
            return Request::Unknown;
        };
        command_of(word, rest).unwrap_or(Request::Unknown)
    }
}
