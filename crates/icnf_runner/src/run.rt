//! The run of the program.
//!
//! The words of the command line are read first, and where they are not accepted nothing else is. Then the items of the input come
//! one by one: a clause is given to the solver, a query is solved and its reply is written before more is read, and the end of a
//! `p cnf` input is one more query. The solver takes no cardinalities yet, so the headers are those without them (`Heads::Clauses`):
//! `p knf` and `k` are refused like other words that are not in the grammar.
//!
//! A run is broken off at the first fault of its source or sink and where memory is wanted; else it ends at the end of the input, or
//! at its first bad line, which the closing line names. Texts are written as they come, and take no memory.
ghost use Rattle.std.specs.Prelude.{◌≡◌, ◌≢◌, ◌≤◌, ◌<◌, ◌⊎◌, ◌↔◌, true, false, ℕ, List, [], Some, OnOk, OnErr, IfSome, IfOk, map, string_bytes, ◌++◌, codes};
ghost use Rattle.std.specs.Io.KnownBytes.{Appends, IsAtEnd};
ghost use Rattle.sat_terms.specs.Limits.{max_var, max_literals};
ghost use Rattle.io_edge.specs.Causes.{Rose, HasCause};
ghost use Rattle.io_edge.specs.Told.{AppendsFront};
ghost use Rattle.icnf_reader.specs.declared.item.Stop.TheVariants as stops;
ghost use Rattle.solver_api.specs.Steps.{state};
ghost use Rattle.icnf_runner.specs.Options.{Accepts, IsInRange};
ghost use Rattle.icnf_runner.specs.Output.{Answers, Refuses, Begins, IsCutShort, GoesWrong, Prints, PrintsBetween, IsAnswer, IsBreak, closing_line, usage_line};
ghost use Rattle.icnf_runner.specs.Runs.{IsBadStop, is_read_stop, asks_at_end, EndsReply, States, AreAccepted};

use crate::options::{Options, options_of};
use crate::session::{Break, add_clause, give_reply};
use crate::status::{NO_ANSWER, NO_MEMORY, READ_FAULT, REFUSED, Status, USAGE, WRITE_FAULT};
use icnf_reader::item::{HeadKind, Heads, Item, Stop, Why};
use icnf_reader::reader::Reader;
use io_edge::buffer::Buffer;
use io_edge::outside::{Failed, Sink, Source, write_all};
use solver_api::solver::Solver;
use std::alloc::Global;
use std::mem;

// The line for words that are not accepted.
const USAGE_LINE: &str =
    "c usage: icnf_runner [--simplify | --self N] [--conflicts N] [--callbacks N] [--steps N] [--stats] [--check]\n";

// Writes the line that closes the text of a refused input.
fn write_closing<K: Sink>(sink: &mut K, line: u64, why: Why) -> Result<(), Failed>
    ensures ok { OnOk result (Appends (K.written sink.old) (K.written sink.new) (closing_line line why)) }
    ensures err { OnErr result (AppendsFront (K.written sink.old) (K.written sink.new) (closing_line line why)) }
    ensures cause { HasCause (K.faults sink.old) (K.faults sink.new) result }
{
    let mut text = Buffer::new();
    text.push_all(b"c refused at line ");
    text.push_decimal(line);
    text.push_all(b": ");
    text.push_all(why.text().as_bytes());
    text.push_all(b"\n");
    write_all(sink, text.as_slice())
}

// Ends a run where the reader stopped.
fn stop_run<K: Sink>(stop: Stop, sink: &mut K) -> Status
    ensures codes { (result.code ≡ 1) ⊎ IsBreak result.code }
    ensures written { result.code ≡ 1 → IsBadStop stop (λ line why. Appends (K.written sink.old) (K.written sink.new) (closing_line line why)) }
    ensures begun { result.code ≡ 4 → IsBadStop stop (λ line why. AppendsFront (K.written sink.old) (K.written sink.new) (closing_line line why)) }
    ensures read_fault { result.code ≡ 3 → stop ≡ stops.ReadFault }
    ensures no_fault { result.code ≢ 3 → is_read_stop stop ≡ false }
    ensures unwritten { (result.code ≡ 3) ⊎ (result.code ≡ 5) → sink.new ≡ sink.old }
    ensures cause { result.code ≡ 4 → Rose (K.faults sink.old) (K.faults sink.new) }
    ensures kept { result.code ≢ 4 → K.faults sink.new ≡ K.faults sink.old }
{
    match stop {
        Stop::Bad(line, why) => match write_closing(sink, line, why) {
            Ok(()) => REFUSED,
            Err(_) => WRITE_FAULT,
        },
        Stop::ReadFault => READ_FAULT,
        Stop::Memory => NO_MEMORY,
    }
}

// Whether the end of a whole input is one more query. No reader gives a header of the kind `Knf` yet.
fn has_last_query(kind: HeadKind) -> bool
    ensures { result ≡ asks_at_end kind }
{
    match kind {
        HeadKind::Cnf | HeadKind::Knf => true,
        HeadKind::Inc => false,
    }
}

// Replies to the query at the end of an input, and ends the run.
fn last_reply<K: Sink>(solver: &mut Solver, options: Options, vars: u32, sink: &mut K) -> Status
    requires range { IsInRange options }
    requires room { (state solver.old).taken ≤ max_literals }
    requires vars { vars ≤ max_var }
    ensures ends { EndsReply options vars (state solver.old) (K.written sink.old) (K.written sink.new) result.code }
    ensures cause { result.code ≡ 4 → Rose (K.faults sink.old) (K.faults sink.new) }
    ensures kept { result.code ≢ 4 → K.faults sink.new ≡ K.faults sink.old }
{
    match give_reply(solver, &[], options, vars, sink) {
        Ok(status) => status,
        Err(Break::Write) => WRITE_FAULT,
        Err(Break::Memory) => NO_MEMORY,
    }
}

// Answers an input.
fn run_input<S: Source, K: Sink>(
    alloc: Global,
    options: Options,
    source: &mut S,
    sink: &mut K,
) -> Status
    requires { IsInRange options }
    ensures codes { IsAnswer result.code ⊎ ((result.code ≡ 1) ⊎ IsBreak result.code) }
    ensures answers { IsAnswer result.code → Prints (K.written sink.old) (K.written sink.new) (S.left source.old) (Answers options result.code) }
    ensures source_end { IsAnswer result.code → IsAtEnd (S.left source.new) }
    ensures refuses { result.code ≡ 1 → Prints (K.written sink.old) (K.written sink.new) (S.left source.old) (Refuses options) }
    ensures begins { IsBreak result.code → Prints (K.written sink.old) (K.written sink.new) (S.left source.old) (Begins options) }
    ensures cut_short { result.code ≡ 3 → PrintsBetween (K.written sink.old) (K.written sink.new) (S.left source.old) (S.left source.new) (IsCutShort options) }
    ensures read_fault { result.code ≡ 3 → Rose (S.faults source.old) (S.faults source.new) }
    ensures write_fault { result.code ≡ 4 → Rose (K.faults sink.old) (K.faults sink.new) }
    ensures no_read_fault { result.code ≢ 3 → S.faults source.new ≡ S.faults source.old }
    ensures no_write_fault { result.code ≢ 4 → K.faults sink.new ≡ K.faults sink.old }
{
    // The solver takes no cardinalities, and from these headers none comes.
    let Ok(mut reader) = Reader::new(alloc, Heads::Clauses) else {
        return NO_MEMORY;
    };
    let Ok(mut solver) = Solver::new(alloc) else {
        return NO_MEMORY;
    };
    let header = match reader.next(source) {
        Ok(Item::Header(header)) => header,
        Ok(_) => unreachable!(),
        Err(stop) => return stop_run(stop, sink),
    };
    let mut status = NO_ANSWER;
    loop {
        match reader.next(source) {
            Ok(Item::Header(_)) => {}
            Ok(Item::Clause(lits)) => match add_clause(&mut solver, &lits) {
                Ok(()) => {}
                Err(_) => return NO_MEMORY,
            },
            Ok(Item::Card(_, _)) => unreachable!(),
            Ok(Item::Query(lits)) => {
                match give_reply(&mut solver, lits.as_slice(), options, header.vars, sink) {
                    Ok(last) => status = last,
                    Err(Break::Write) => return WRITE_FAULT,
                    Err(Break::Memory) => return NO_MEMORY,
                }
            }
            Ok(Item::End) => {
                // The process ends with the run. Its memory goes back to the system as a whole then, which costs less than to give
                // back each list of the solver before.
                if has_last_query(header.kind) {
                    let last = last_reply(&mut solver, options, header.vars, sink);
                    mem::forget(solver);
                    return last;
                }
                mem::forget(solver);
                return status;
            }
            Err(stop) => return stop_run(stop, sink),
        }
    }
}

// Writes the line for words that are not accepted.
fn refuse_words<K: Sink>(sink: &mut K) -> Status
    ensures codes { (result.code ≡ 2) ⊎ (result.code ≡ 4) }
    ensures written { result.code ≡ 2 → Appends (K.written sink.old) (K.written sink.new) usage_line }
    ensures begun { result.code ≡ 4 → AppendsFront (K.written sink.old) (K.written sink.new) usage_line }
    ensures cause { result.code ≡ 4 → Rose (K.faults sink.old) (K.faults sink.new) }
    ensures kept { result.code ≢ 4 → K.faults sink.new ≡ K.faults sink.old }
{
    match write_all(sink, USAGE_LINE.as_bytes()) {
        Ok(()) => USAGE,
        Err(_) => WRITE_FAULT,
    }
}

/// Runs the program over the words of its command line, a source and a sink, and answers its exit status.
///
/// Words that are accepted state options: the budget of conflicts of each query, and whether each model is checked. It then reads a
/// DIMACS or iCNF text, and writes a reply to each query before it reads further. The status is 10 or 20 where the last reply is
/// SATISFIABLE or UNSATISFIABLE, and 0 where it is UNKNOWN or there was no query; UNKNOWN comes only under a stated budget. The
/// status is 1 where the input goes wrong, which a last line tells with the place; 2 for words that are not accepted, which writes
/// the usage line and reads nothing; 3 where the source failed, 4 where the sink failed, and 5 for want of memory.
pub fn run<S: Source, K: Sink>(
    alloc: Global,
    words: &[String],
    source: &mut S,
    sink: &mut K,
) -> Status
    ensures codes { IsAnswer result.code ⊎ ((result.code ≡ 1) ⊎ ((result.code ≡ 2) ⊎ IsBreak result.code)) }

    // A whole input is answered, and read to its end.
    ensures answers { IsAnswer result.code → States (map string_bytes words.now) (λ o. Prints (K.written sink.old) (K.written sink.new) (S.left source.old) (Answers o result.code)) }
    ensures source_end { IsAnswer result.code → IsAtEnd (S.left source.new) }

    // An input that goes wrong is refused at its first bad line; no other is, and none where the run was not broken off.
    ensures refuses { result.code ≡ 1 → States (map string_bytes words.now) (λ o. Prints (K.written sink.old) (K.written sink.new) (S.left source.old) (Refuses o)) }
    ensures exactly { IfSome (S.left source.old) (λ bytes. (result.code ≡ 1) ↔ (AreAccepted (map string_bytes words.now) × GoesWrong bytes × (IsBreak result.code → ⊥))) }

    // Words that are not accepted are refused, and nothing is read.
    ensures usage { (result.code ≡ 2) ↔ ((AreAccepted (map string_bytes words.now) → ⊥) × (result.code ≢ 4)) }
    ensures usage_written { result.code ≡ 2 → Appends (K.written sink.old) (K.written sink.new) usage_line }
    ensures unread { (AreAccepted (map string_bytes words.now) → ⊥) → source.new ≡ source.old }

    // What stands where the run was broken off.
    ensures begins { IsBreak result.code → AreAccepted (map string_bytes words.now) → States (map string_bytes words.now) (λ o. Prints (K.written sink.old) (K.written sink.new) (S.left source.old) (Begins o)) }
    ensures usage_begins { IsBreak result.code → (AreAccepted (map string_bytes words.now) → ⊥) → AppendsFront (K.written sink.old) (K.written sink.new) usage_line }
    ensures cut_short { result.code ≡ 3 → States (map string_bytes words.now) (λ o. PrintsBetween (K.written sink.old) (K.written sink.new) (S.left source.old) (S.left source.new) (IsCutShort o)) }

    // A fault is the status exactly where one came.
    ensures read_fault { result.code ≡ 3 → Rose (S.faults source.old) (S.faults source.new) }
    ensures write_fault { result.code ≡ 4 → Rose (K.faults sink.old) (K.faults sink.new) }
    ensures no_read_fault { result.code ≢ 3 → S.faults source.new ≡ S.faults source.old }
    ensures no_write_fault { result.code ≢ 4 → K.faults sink.new ≡ K.faults sink.old }
{
    match options_of(alloc, words) {
        Ok(Some(options)) => run_input(alloc, options, source, sink),
        Ok(None) => refuse_words(sink),
        Err(_) => NO_MEMORY,
    }
}
