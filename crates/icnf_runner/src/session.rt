//! Clauses and queries, handed to a solver, and the replies to queries.
//!
//! Between the reader and the solver: each function here is one step of a session, and its contract names the solver's call that it
//! makes (`Step`). The reader has counted the literals, so the solver has room for them. A reply is written as soon as it is
//! there, and read off the solver itself: no text of a model is made.
ghost use Rattle.std.specs.Prelude.{true, false, ◌≡◌, ◌+◌, ◌≤◌, ◌<◌, ℕ, List, [], ◌∷◌, ◌++◌, length, Ok, OnOk, OnErr, IfOk, IsErrOf};
ghost use Rattle.std.specs.Io.KnownBytes.{Appends};
ghost use Rattle.sat_terms.specs.Limits.{max_var, max_literals};
ghost use Rattle.io_edge.specs.Causes.{Rose, HasCause};
ghost use Rattle.io_edge.specs.Told.{AppendsFront};
ghost use Rattle.solver_api.specs.Steps.{state, Step};
ghost use Rattle.solver_api.specs.declared.calls.Call.TheVariants as calls;
ghost use Rattle.solver_api.specs.declared.calls.Reply.TheVariants as replies;
ghost use Rattle.search_engine.specs.declared.state.Spent.TheVariants.{Conflicts};
ghost use Rattle.reply_text.specs.Reply.{Sat};
ghost use Rattle.reply_text.specs.Text.{padded};
ghost use Rattle.icnf_runner.specs.Output.{printed_reply};
ghost use Rattle.icnf_runner.specs.Options.{IsInRange};
ghost use Rattle.icnf_runner.specs.Session.{assumed, Solves, checks, IsModelShown, IsCoreShown, ShowsModel, ShowsCore, status_if, is_write_break, IsAnswered, IsHalfReplied};

use crate::options::Options;
use crate::status::{NO_ANSWER, SATISFIABLE, Status, UNSATISFIABLE};
use io_edge::outside::{Failed, Sink};
use reply_text::text::{write_checked, write_core, write_model, write_unknown};
use sat_model::lists::Lits;
use sat_model::literal::Lit;
use sat_model::memory::Memory;
use solver_api::calls::{Budget, Outcome, Refusal, Spent};
use solver_api::solver::Solver;

/// Why a reply was not given.
#[derive(Clone, Copy, Debug, PartialEq, Eq)]
pub enum Break {
    /// The sink failed.
    Write,
    /// There was no memory.
    Memory,
}

/// Gives a clause to the solver, which has room for its literals.
pub fn add_clause(solver: &mut Solver, clause: &Lits) -> Result<(), Memory>
    requires { (state solver.old).taken + length clause.now ≤ max_literals }
    ensures { OnOk result (Step (state solver.old) (calls.Add clause.now) (Ok replies.Done) (state solver.new)) }
{
    match solver.add(clause.as_slice()) {
        Ok(()) => Ok(()),
        Err(Refusal::Memory) => Err(Memory),
        Err(_) => unreachable!(),
    }
}

// Assumes a literal, for which the solver has room.
fn assume_one(solver: &mut Solver, lit: Lit) -> Result<(), Memory>
    requires { (state solver.old).taken < max_literals }
    ensures { OnOk result (state solver.new ≡ assumed (state solver.old) (lit ∷ [])) }
{
    match solver.assume(lit) {
        Ok(()) => Ok(()),
        Err(Refusal::Memory) => Err(Memory),
        Err(_) => unreachable!(),
    }
}

// Assumes literals, for which the solver has room.
fn assume_all(solver: &mut Solver, lits: &[Lit]) -> Result<(), Memory>
    requires { (state solver.old).taken + length lits.now ≤ max_literals }
    ensures { OnOk result (state solver.new ≡ assumed (state solver.old) lits.now) }
{
    for lit in lits {
        assume_one(solver, *lit)?;
    }
    Ok(())
}

// How many conflicts came before a search stopped.
fn conflicts_of(spent: Spent) -> u64
    ensures { spent ≡ Conflicts result }
{
    match spent {
        Spent::Conflicts(conflicts) => conflicts,
    }
}

// Solves under these assumptions, for which the solver has room.
fn solve(solver: &mut Solver, lits: &[Lit], options: Options) -> Result<Outcome, Memory>
    requires range { IsInRange options }
    requires room { (state solver.old).taken + length lits.now ≤ max_literals }
    ensures { IfOk result (λ outcome. Solves options (assumed (state solver.old) lits.now) outcome (state solver.new)) }
{
    assume_all(solver, lits)?;
    let budget = Budget {
        conflicts: options.conflicts,
        callbacks: options.callbacks,
    };
    match solver.solve(budget, options.steps) {
        Ok(outcome) => Ok(outcome),
        Err(Refusal::Memory) => Err(Memory),
        Err(_) => unreachable!(),
    }
}

// How much of what was given and assumed the shown model makes true, where that is asked for.
fn checked_count(solver: &Solver, check: bool) -> u64
    requires { IsModelShown (state solver.now) }
    ensures { check ≡ true → result ≡ checks (state solver.now) }
{
    if !check {
        return 0;
    }
    match solver.recheck() {
        Ok(count) => count,
        Err(_) => unreachable!(),
    }
}

// Writes a model, and behind it the count of what it was found to make true, where that is asked for.
fn write_checked_model<K: Sink>(
    sink: &mut K,
    model: &[bool],
    vars: u32,
    check: bool,
    count: u64,
) -> Result<(), Failed>
    requires model { length model.now ≤ max_var }
    requires vars { vars ≤ max_var }
    ensures ok { OnOk result (Appends (K.written sink.old) (K.written sink.new) (printed_reply check count (Sat (padded vars model.now)))) }
    ensures err { OnErr result (AppendsFront (K.written sink.old) (K.written sink.new) (printed_reply check count (Sat (padded vars model.now)))) }
    ensures cause { HasCause (K.faults sink.old) (K.faults sink.new) result }
{
    write_model(sink, model, vars)?;
    if check {
        write_checked(sink, count)
    } else {
        Ok(())
    }
}

// Writes the model that the solver shows.
fn show_model<K: Sink>(solver: &Solver, vars: u32, check: bool, sink: &mut K) -> Result<(), Failed>
    requires shown { IsModelShown (state solver.now) }
    requires vars { vars ≤ max_var }
    ensures ok { OnOk result (ShowsModel check vars (state solver.now) (Appends (K.written sink.old) (K.written sink.new))) }
    ensures err { OnErr result (ShowsModel check vars (state solver.now) (AppendsFront (K.written sink.old) (K.written sink.new))) }
    ensures cause { HasCause (K.faults sink.old) (K.faults sink.new) result }
{
    match solver.model() {
        Ok(model) => write_checked_model(sink, model, vars, check, checked_count(solver, check)),
        Err(_) => unreachable!(),
    }
}

// Writes the core that the solver shows.
fn show_core<K: Sink>(solver: &Solver, sink: &mut K) -> Result<(), Failed>
    requires { IsCoreShown (state solver.now) }
    ensures ok { OnOk result (ShowsCore (state solver.now) (Appends (K.written sink.old) (K.written sink.new))) }
    ensures err { OnErr result (ShowsCore (state solver.now) (AppendsFront (K.written sink.old) (K.written sink.new))) }
    ensures cause { HasCause (K.faults sink.old) (K.faults sink.new) result }
{
    match solver.core() {
        Ok(core) => write_core(sink, core),
        Err(_) => unreachable!(),
    }
}

// The status, where all was written.
fn status_of(wrote: Result<(), Failed>, status: Status) -> Result<Status, Break>
    ensures { result ≡ status_if wrote status }
{
    match wrote {
        Ok(()) => Ok(status),
        Err(_) => Err(Break::Write),
    }
}

/// Replies to a query under these assumptions, for which the solver has room: solves within the budgets of the options, writes the
/// reply, and answers its status. So many variables are declared, and have a value in a model. The reply is written as it comes, and
/// takes no memory.
pub fn give_reply<K: Sink>(
    solver: &mut Solver,
    lits: &[Lit],
    options: Options,
    vars: u32,
    sink: &mut K,
) -> Result<Status, Break>
    requires range { IsInRange options }
    requires room { (state solver.old).taken + length lits.now ≤ max_literals }
    requires vars { vars ≤ max_var }
    ensures ok { IfOk result (λ status. IsAnswered options vars (state solver.old) lits.now (state solver.new) (K.written sink.old) (K.written sink.new) status.code) }
    ensures write { IsErrOf result Break.Write → IsHalfReplied options vars (state solver.old) lits.now (K.written sink.old) (K.written sink.new) }
    ensures memory { IsErrOf result Break.Memory → sink.new ≡ sink.old }
    ensures cause { IsErrOf result Break.Write → Rose (K.faults sink.old) (K.faults sink.new) }
    ensures later { K.faults sink.old ≤ K.faults sink.new }
    ensures kept { is_write_break result ≡ false → K.faults sink.new ≡ K.faults sink.old }
{
    match solve(solver, lits, options) {
        Ok(Outcome::Sat) => {
            let wrote = show_model(solver, vars, options.check, sink);
            status_of(wrote, SATISFIABLE)
        }
        Ok(Outcome::Unsat) => {
            let wrote = show_core(solver, sink);
            status_of(wrote, UNSATISFIABLE)
        }
        Ok(Outcome::Unknown(spent)) => {
            let wrote = write_unknown(sink, conflicts_of(spent));
            status_of(wrote, NO_ANSWER)
        }
        Err(_) => Err(Break::Memory),
    }
}
