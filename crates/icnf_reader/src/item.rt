//! What a reader gives: the items of an input, and the reasons for which an input is refused.
ghost use Rattle.std.specs.Prelude.{◌≡◌, ◌≤◌, length};
ghost use Rattle.icnf_reader.specs.Reasons.{why_text};

use sat_model::lists::Lits;

/// The kinds of headers.
#[derive(Clone, Copy, Debug, PartialEq, Eq)]
pub enum HeadKind {
    /// `p cnf`, the clauses of DIMACS.
    Cnf,
    /// `p knf`, clauses and cardinalities.
    Knf,
    /// `p inccnf`, the clauses and queries of iCNF, and cardinalities.
    Inc,
}

/// The headers that are in the grammar, and with them the statements.
#[derive(Clone, Copy, Debug, PartialEq, Eq)]
pub enum Heads {
    /// `p cnf V C`, `p knf V C` and `p inccnf`, with cardinalities under the last two.
    All,
    /// `p cnf V C` and `p inccnf`, without cardinalities: what a program reads whose solver takes none.
    Clauses,
    /// `p cnf V C` alone.
    CnfOnly,
}

/// The statements that may follow a header, beside clauses.
#[derive(Clone, Copy, Debug, PartialEq, Eq)]
pub struct Allowed {
    /// Queries, which begin with `a`.
    pub queries: bool,
    /// Cardinalities, which begin with `k`.
    pub cards: bool,
}

/// A header: its kind, and the numbers of variables and of clauses that it declares. Under `p inccnf` both numbers are 0. No
/// number is compared with what follows.
#[derive(Clone, Copy, Debug, PartialEq, Eq)]
pub struct Header {
    /// Which statements may follow.
    pub kind: HeadKind,
    /// V, at most `MAX_VAR`.
    pub vars: u32,
    /// C, at most 2^62.
    pub clauses: u64,
}

/// An item of an input.
#[derive(Drop)]
pub enum Item {
    /// The header, which comes first.
    Header(Header),
    /// A clause.
    Clause(Lits),
    /// A cardinality: at least so many places of the list are to hold a true literal. The bound is at most 2^62.
    Card(u64, Lits),
    /// A query under these assumptions.
    Query(Lits),
    /// The end of an input in which nothing is wrong.
    End,
}

/// Why an input is refused.
#[derive(Clone, Copy, Debug, PartialEq, Eq)]
pub enum Why {
    /// No header that is known stands where it should.
    HeaderExpected,
    /// A word stands where no statement allows it.
    UnexpectedWord,
    /// A number word stands in its place but for its size.
    OutOfRange,
    /// The input ends within a statement.
    NotClosed,
    /// A line has more than 2^24 bytes before its LF.
    LineTooLong,
    /// There are more than 2^27 literals.
    TooManyLiterals,
    /// The input has more than 2^40 bytes.
    InputTooLong,
}

impl Why {
    /// The reason as it is printed.
    pub fn text(self) -> &'static str
        ensures text { result.now ≡ why_text self }
        ensures short { length result.now ≤ 30 }
    {
        match self {
            Why::HeaderExpected => "header expected",
            Why::UnexpectedWord => "unexpected word",
            Why::OutOfRange => "number out of range",
            Why::NotClosed => "not closed",
            Why::LineTooLong => "line too long",
            Why::TooManyLiterals => "too many literals",
            Why::InputTooLong => "input too long",
        }
    }
}

/// Why a reader gives no more.
#[derive(Clone, Copy, Debug, PartialEq, Eq)]
pub enum Stop {
    /// The input goes wrong at the line of this number.
    Bad(u64, Why),
    /// The source failed.
    ReadFault,
    /// There was no memory.
    Memory,
}
