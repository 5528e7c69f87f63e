//! A box round another one that counts its calls where a test can see them.
//!
//! Nothing can be read from a box that is owned as `dyn Theory`. So the counts lie in cells that
//! the test shares with it; no clause speaks of what a cell holds.
ghost use Rattle.std.specs.Prelude.{◌≡◌};

use sat_model::constraint::{Constraint, Kind};
use sat_model::lists::Lits;
use sat_model::literal::Lit;
use sat_model::memory::Memory;
use std::alloc::Global;
use std::cell::Cell;
use std::rc::Rc;
use user_propagator::counting::next;
use user_propagator::desk::Desk;
use user_propagator::theory::Theory;

/// Counts of calls, shared by all its clones.
#[derive(Drop)]
pub struct Calls {
    // Calls of `propagate`.
    propagate: Rc<Cell<u64>>,
    // Calls of `decide`.
    decide: Rc<Cell<u64>>,
    // Calls of `check`.
    check: Rc<Cell<u64>>,
    // All callbacks.
    all: Rc<Cell<u64>>,
}

impl Calls {
    /// Counts that all stand at 0.
    pub fn new(alloc: Global) -> Result<Calls, Memory> {
        Ok(Calls {
            propagate: Rc::new(alloc, Cell::new(0))?,
            decide: Rc::new(alloc, Cell::new(0))?,
            check: Rc::new(alloc, Cell::new(0))?,
            all: Rc::new(alloc, Cell::new(0))?,
        })
    }

    /// The same counts, once more.
    pub fn share(&self) -> Result<Calls, Memory> {
        Ok(Calls {
            propagate: self.propagate.clone()?,
            decide: self.decide.clone()?,
            check: self.check.clone()?,
            all: self.all.clone()?,
        })
    }

    /// How often `propagate` was called.
    pub fn propagate(&self) -> u64 {
        self.propagate.get()
    }

    /// How often `decide` was called.
    pub fn decide(&self) -> u64 {
        self.decide.get()
    }

    /// How often `check` was called.
    pub fn check(&self) -> u64 {
        self.check.get()
    }

    /// How many callbacks there were.
    pub fn all(&self) -> u64 {
        self.all.get()
    }
}

// One more in a cell.
fn raise(count: &Cell<u64>) {
    count.set(next(count.get()));
}

/// A box that passes every call on to another one, and counts it.
#[derive(Drop)]
pub struct Counting<T> {
    // The box that answers.
    inner: T,
    // Its calls.
    calls: Calls,
}

impl<T: Theory> Counting<T> {
    /// A box round this one, which means the same.
    pub fn new(inner: T, calls: Calls) -> Counting<T>
        ensures { T.meaning result.inner ≡ T.meaning inner }
    {
        Counting { inner, calls }
    }
}

impl<T: Theory> Theory for Counting<T> {
    ghost meaning = { λ t. T.meaning t.inner };

    ghost depends = { λ t. T.depends t.inner };

    fn takes(&self, kind: Kind) -> bool {
        self.inner.takes(kind)
    }

    fn admit(&mut self, alloc: Global, what: &Constraint, desk: &Desk) -> Result<(), Memory> {
        self.inner.admit(alloc, what, desk)
    }

    fn notify_assigned(&mut self, lit: Lit, decision: bool) {
        raise(&self.calls.all);
        self.inner.notify_assigned(lit, decision);
    }

    fn notify_level(&mut self) {
        raise(&self.calls.all);
        self.inner.notify_level();
    }

    fn notify_back(&mut self, level: u32) {
        raise(&self.calls.all);
        self.inner.notify_back(level);
    }

    fn decide(&mut self, desk: &mut Desk) -> Result<Option<Lit>, Memory> {
        raise(&self.calls.all);
        raise(&self.calls.decide);
        self.inner.decide(desk)
    }

    fn propagate(&mut self, desk: &mut Desk) -> Result<Option<Lit>, Memory> {
        raise(&self.calls.all);
        raise(&self.calls.propagate);
        self.inner.propagate(desk)
    }

    fn reason(&mut self, lit: Lit, desk: &Desk, out: &mut Lits) -> Result<(), Memory> {
        raise(&self.calls.all);
        self.inner.reason(lit, desk, out)
    }

    fn check(&mut self, model: &[bool], desk: &mut Desk) -> Result<bool, Memory> {
        raise(&self.calls.all);
        raise(&self.calls.check);
        self.inner.check(model, desk)
    }
}
