//! A box that no assignment satisfies, and that says so only when a model is found.
//!
//! A propagator may turn out to admit nothing at all, and whoever drives it must then answer that
//! there is no model, though the clauses alone have one. The shortest way to say so is the empty
//! clause. It is also one at which a driver may go wrong: it has no literal to watch, none whose
//! level to go back to, and none to observe.
//!
//! The box says nothing in the search: it implies no literal, decides none, and is in step with
//! every seen trail. When it is asked about a model, whatever the model is, it hands the empty
//! clause and refuses. Where the desk has no memory for the clause it answers `Memory`, and has
//! refused nothing.
//!
//! Why it is lawful: it admits no assignment, so every clause follows from what it admits, also the
//! empty one. The empty clause has no literal, so nothing in it has to be observed; it is false on
//! every seen trail, so that a steady box may hand it; and it is false in every model, so that it
//! refutes the one that was asked about. That no assignment is admitted depends on no variable: the
//! scope is empty.
//!
//! The tests show that a model is refused where nothing is observed, by a clause of no literals.
ghost use Rattle.std.specs.Prelude.{◌≡◌, ℕ, refl, OnOk, OnErr};
ghost use Rattle.user_propagator.specs.Meaning.{Admitted, Refused, KeptByAdmit, CalledBack};
ghost use Rattle.user_propagator.specs.Meaning.{StandsAt, IsReasonGiven};
ghost use Rattle.test_boxes.specs.Open.{closed_meaning};

use sat_model::constraint::{Constraint, Kind};
use sat_model::lists::Lits;
use sat_model::literal::Lit;
use sat_model::memory::Memory;
use std::alloc::Global;
use user_propagator::counting::next;
use user_propagator::desk::Desk;
use user_propagator::theory::Theory;

/// Admits nothing: it refuses each model by the empty clause, which follows from it as every
/// clause does.
#[derive(Drop)]
pub struct Refusing {
    // How many callbacks there were.
    asked: u64,
}

impl Refusing {
    /// The box, before its first callback.
    pub fn new() -> Refusing
        ensures { ⟦<Refusing as Theory>⟧.meaning result ≡ closed_meaning 0 }
    {
        Refusing { asked: 0 }
    }
}

impl Theory for Refusing {
    ghost meaning = { λ t. closed_meaning t.asked };

    ghost depends = { λ t f g h. refl };

    fn takes(&self, _kind: Kind) -> bool {
        false
    }

    // No kind is taken, so the trait's conditions never hold: this asks for none of them.
    fn admit(&mut self, _alloc: Global, what: &Constraint, desk: &Desk) -> Result<(), Memory>
        ensures ok { OnOk result (Admitted (closed_meaning self.old.asked)
            (closed_meaning self.new.asked) what.now) }
        ensures err { OnErr result (Refused (closed_meaning self.old.asked)
            (closed_meaning self.new.asked)) }
        ensures kept { KeptByAdmit (closed_meaning self.old.asked)
            (closed_meaning self.new.asked) desk.now }
    {
        Err(Memory)
    }

    fn notify_assigned(&mut self, _lit: Lit, _decision: bool) {
        self.asked = next(self.asked);
    }

    fn notify_level(&mut self) {
        self.asked = next(self.asked);
    }

    fn notify_back(&mut self, _level: u32) {
        self.asked = next(self.asked);
    }

    fn decide(&mut self, _desk: &mut Desk) -> Result<Option<Lit>, Memory> {
        self.asked = next(self.asked);
        Ok(None)
    }

    fn propagate(&mut self, _desk: &mut Desk) -> Result<Option<Lit>, Memory> {
        self.asked = next(self.asked);
        Ok(None)
    }

    // No literal is explained, so the trait's conditions never hold: this asks for none of them.
    fn reason(&mut self, lit: Lit, desk: &Desk, out: &mut Lits) -> Result<(), Memory>
        ensures called { CalledBack (closed_meaning self.old.asked)
            (closed_meaning self.new.asked) desk.now desk.now }
        ensures given { OnOk result ((k : ℕ)
            → StandsAt (closed_meaning self.old.asked) desk.now.seen k lit
            → IsReasonGiven (closed_meaning self.new.asked) desk.now.seen k lit out.new) }
    {
        self.asked = next(self.asked);
        Err(Memory)
    }

    fn check(&mut self, _model: &[bool], desk: &mut Desk) -> Result<bool, Memory> {
        self.asked = next(self.asked);
        desk.hand(&[], false)?;
        Ok(false)
    }
}
