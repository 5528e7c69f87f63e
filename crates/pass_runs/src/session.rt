//! A kernel with its clauses, and the passes over it.
//!
//! A clause comes in its normal form by the rule that adds clauses. That wants it clean for the stack, which is looked at: where a witness
//! holds the negation of one of its literals, the clause is left out, for this program restores nothing. So clauses that come before the
//! first pass are all there.
ghost use Rattle.std.specs.Prelude.{◌≡◌};

use crate::request::{Pass, Request};
use clause_store::store::Store;
use normal_form::forms::normal_form;
use rule_kernel::frozen::Frozen;
use rule_kernel::kernel::Kernel;
use rule_kernel::report::{Ended, PassReport};
use sat_model::literal::{Lit, Var};
use sat_model::memory::Memory;
use std::alloc::Global;
use std::fmt;

// A kernel, and the variables that passes leave alone.
#[derive(Drop)]
pub(crate) struct Session {
    // The clauses and the stack.
    kernel: Kernel,
    // The variables that no pass may touch.
    frozen: Frozen,
    // The greatest variable of a clause.
    vars: u32,
}

// What a pass did, and what is left.
#[derive(Clone, Copy)]
pub(crate) struct Report {
    // What the pass said.
    pass: PassReport,
    // How many clauses are firm.
    clauses: usize,
    // How many literals they have together.
    literals: usize,
    // How many variables stand in them.
    vars: u32,
    // How many entries the stack has.
    stacked: usize,
}

// What is said of a line.
#[derive(Clone, Copy)]
pub(crate) enum Reply {
    // Nothing.
    Nothing,
    // What a pass did.
    Report(Report),
    // That it asks for nothing that is known.
    Refused,
    // That there was no memory for it.
    NoMemory,
}

impl fmt::Display for Reply {
    fn fmt<W: fmt::Write>(&self, f: &mut fmt::Formatter<W>) -> fmt::Result {
        match self {
            Reply::Nothing => Ok(()),
            Reply::Report(report) => writeln!(f, "{report}"),
            Reply::Refused => writeln!(f, "refused"),
            Reply::NoMemory => writeln!(f, "no memory"),
        }
    }
}

impl fmt::Display for Report {
    fn fmt<W: fmt::Write>(&self, f: &mut fmt::Formatter<W>) -> fmt::Result {
        match self.pass.ended {
            Ended::Fixpoint => write!(f, "fixpoint, ")?,
            Ended::Limit(steps) => write!(f, "limit at {steps}, ")?,
        }
        write!(f, "{} removed; ", self.pass.removed)?;
        write!(f, "{} clauses, {} literals, ", self.clauses, self.literals)?;
        write!(f, "{} variables, {} on the stack", self.vars, self.stacked)
    }
}

impl Session {
    // No clause, and nothing frozen.
    pub(crate) fn new(alloc: Global) -> Session {
        Session {
            kernel: Kernel::new(alloc),
            frozen: Frozen::new(alloc),
            vars: 0,
        }
    }

    // Freezes the variable of a number; where it is none, nothing changes.
    fn freeze(&mut self, number: u32) -> Result<(), Memory> {
        match Var::new(number) {
            Some(var) => self.frozen.freeze(var),
            None => Ok(()),
        }
    }

    // Adds the clause of a line of numbers. The 0 at its end is no literal, and what is no number is passed over.
    fn add(&mut self, alloc: Global, line: &str) -> Result<(), Memory> {
        let mut lits = Vec::new(alloc);
        for word in line.split(' ') {
            match word.parse::<i32>() {
                Ok(number) => match Lit::new(number) {
                    Some(lit) => lits.push(lit)?,
                    None => {}
                },
                Err(_) => {}
            }
        }
        self.add_clause(alloc, lits.as_slice())
    }

    // Adds a clause in its normal form, where it has one, and is clean.
    fn add_clause(&mut self, alloc: Global, lits: &[Lit]) -> Result<(), Memory> {
        match normal_form(alloc, lits)? {
            Some(form) => {
                if self.kernel.is_clean(form.as_slice()) {
                    self.vars = greatest(form.as_slice(), self.vars);
                    self.kernel.add(form.as_slice())?;
                }
                Ok(())
            }
            None => Ok(()),
        }
    }

    // Runs a pass.
    fn work(&mut self, pass: Pass, limit: u64) -> Result<PassReport, Memory> {
        match pass {
            Pass::None => Ok(PassReport {
                removed: 0,
                ended: Ended::Fixpoint,
            }),
            Pass::Equivalences => equiv_subst::pass::run(&mut self.kernel, &self.frozen, limit),
            Pass::Subsumption => subsume_pass::pass::run(&mut self.kernel, &self.frozen, limit),
            Pass::Vivification => vivify_pass::pass::run(&mut self.kernel, &self.frozen, limit),
            Pass::Blocked => blocked_clauses::pass::run(&mut self.kernel, &self.frozen, limit),
            Pass::Elimination => var_elim::pass::run(&mut self.kernel, &self.frozen, limit),
        }
    }

    // Runs a pass, and says what is left.
    fn run(&mut self, pass: Pass, limit: u64) -> Result<Report, Memory> {
        let report = self.work(pass, limit)?;
        Ok(report_of(report, &self.kernel, self.vars))
    }

    // Does what a line asks for, and says so.
    pub(crate) fn answer(&mut self, alloc: Global, line: &str) -> Reply {
        match self.obey(alloc, line) {
            Ok(reply) => reply,
            Err(Memory) => Reply::NoMemory,
        }
    }

    // Does what a line asks for.
    fn obey(&mut self, alloc: Global, line: &str) -> Result<Reply, Memory> {
        match Request::parse(line) {
            Request::Skip => Ok(Reply::Nothing),
            Request::Begin => {
                *self = Session::new(alloc);
                Ok(Reply::Nothing)
            }
            Request::Freeze(number) => {
                self.freeze(number)?;
                Ok(Reply::Nothing)
            }
            Request::Clause => {
                self.add(alloc, line)?;
                Ok(Reply::Nothing)
            }
            Request::Run(pass, limit) => {
                let report = self.run(pass, limit)?;
                Ok(Reply::Report(report))
            }
            Request::Unknown => Ok(Reply::Refused),
        }
    }
}

// How many literals the firm clauses have together.
fn literals(store: &Store) -> usize {
    let mut count = 0usize;
    for id in store.firm_ids() {
        if store.is_live(*id) {
            count = count.saturating_add(store.get(*id).len());
        }
    }
    count
}

// Whether the variable of a number stands in a firm clause.
fn stands(store: &Store, number: u32) -> bool {
    match Var::new(number) {
        Some(var) => {
            !store.occ(var.positive()).is_empty() || !store.occ(var.negative()).is_empty()
        }
        None => false,
    }
}

// How many variables up to a number stand in firm clauses.
fn standing(store: &Store, last: u32) -> u32 {
    let mut count = 0u32;
    for number in 1..=last {
        if stands(store, number) {
            count = count.saturating_add(1);
        }
    }
    count
}

// What is said of a pass, over what it left.
fn report_of(pass: PassReport, kernel: &Kernel, last: u32) -> Report {
    let store = kernel.store();
    Report {
        pass,
        clauses: store.firm_ids().len(),
        literals: literals(store),
        vars: standing(store, last),
        stacked: kernel.stack().len(),
    }
}

// The greatest variable of a clause, or a greater number.
fn greatest(lits: &[Lit], most: u32) -> u32 {
    let mut found = most;
    for lit in lits {
        found = found.max(lit.var().index());
    }
    found
}
