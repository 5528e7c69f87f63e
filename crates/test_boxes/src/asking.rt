//! A box that wants to observe a variable in the middle of a search.
//!
//! A propagator may find out late which variables it has to see, and asks for one in a callback.
//! Whoever drives it must then observe the variable, tell the literal of it that is on the trail
//! already, and ask once more about a model that this variable was not yet part of. A box for such
//! a test has to ask once, at a known moment, and to do nothing else that a test would see.
//!
//! The box holds its variable until it has asked for it. At each `propagate` and each `check` it
//! looks whether this is its moment and whether the variable is still there; then it leaves the
//! request on its desk and lets the variable go. Where the desk has no memory for the request, the
//! callback answers `Memory` and the variable stays, so that the next callback of that kind asks.
//! At a model it accepts all the same: what it admits is every assignment, whatever it observes.
//!
//! It is not steady. A steady propagator asks for nothing in a callback, since whoever drives it
//! may rely on the observed variables to stay as they are; so this is the box that shows what the
//! laws leave to propagators that are not. Its scope is empty, and it explains nothing.
//!
//! The tests show that the variable is asked for at the first callback of the named kind, and at
//! no other one before or after.
ghost use Rattle.std.specs.Prelude.{◌≡◌, ℕ, refl, OnOk, OnErr, IfOk, None, true, if◌then◌else◌};
ghost use Rattle.user_propagator.specs.Meaning.{Admitted, Refused, KeptByAdmit, CalledBack};
ghost use Rattle.user_propagator.specs.Meaning.{StandsAt, IsReasonGiven};
ghost use Rattle.test_boxes.specs.Open.{open_meaning, is_same, wishes, HasAsked};

use sat_model::constraint::{Constraint, Kind};
use sat_model::lists::Lits;
use sat_model::literal::{Lit, Var};
use sat_model::memory::Memory;
use std::alloc::Global;
use user_propagator::counting::next;
use user_propagator::desk::Desk;
use user_propagator::theory::Theory;

/// When a box asks for its variable.
#[derive(Clone, Copy, Debug, PartialEq, Eq)]
pub enum Moment {
    /// At its first `propagate`.
    Propagate,
    /// At its first `check`.
    Check,
}

/// Admits everything, and asks once for a variable: in the middle of a search, or at a model that
/// it accepts all the same.
#[derive(Drop)]
pub struct Asking {
    // The variable, until it was asked for.
    wanted: Option<Var>,
    // When it is to be asked for.
    moment: Moment,
    // How many callbacks there were.
    asked: u64,
}

impl Asking {
    /// The box, before its first callback.
    pub fn new(wanted: Var, moment: Moment) -> Asking
        ensures { ⟦<Asking as Theory>⟧.meaning result ≡ open_meaning 0 }
    {
        Asking {
            wanted: Some(wanted),
            moment,
            asked: 0,
        }
    }

    // Asks for the variable, if it is time and was not done. After `Memory` it is still to be
    // done.
    fn ask(&mut self, now: Moment, desk: &mut Desk) -> Result<(), Memory>
        ensures asked { self.new.asked ≡ self.old.asked }
        ensures moment { self.new.moment ≡ self.old.moment }
        ensures ok { OnOk result (HasAsked (wishes (is_same self.old.moment now) self.old.wanted)
            desk.old desk.new) }
        ensures left { OnOk result (self.new.wanted
            ≡ (if is_same self.old.moment now then None else self.old.wanted)) }
        ensures err { OnErr result ((desk.new ≡ desk.old) × (self.new.wanted ≡ self.old.wanted)) }
    {
        if self.moment != now {
            return Ok(());
        }
        let Some(var) = self.wanted else {
            return Ok(());
        };
        desk.observe(var)?;
        self.wanted = None;
        Ok(())
    }
}

impl Theory for Asking {
    ghost meaning = { λ t. open_meaning t.asked };

    ghost depends = { λ t f g h. refl };

    fn takes(&self, _kind: Kind) -> bool {
        false
    }

    // No kind is taken, so the trait's conditions never hold: this asks for none of them.
    fn admit(&mut self, _alloc: Global, what: &Constraint, desk: &Desk) -> Result<(), Memory>
        ensures ok { OnOk result (Admitted (open_meaning self.old.asked)
            (open_meaning self.new.asked) what.now) }
        ensures err { OnErr result (Refused (open_meaning self.old.asked)
            (open_meaning self.new.asked)) }
        ensures kept { KeptByAdmit (open_meaning self.old.asked)
            (open_meaning self.new.asked) desk.now }
    {
        Err(Memory)
    }

    fn notify_assigned(&mut self, _lit: Lit, _decision: bool) {
        self.asked = next(self.asked);
    }

    fn notify_level(&mut self) {
        self.asked = next(self.asked);
    }

    fn notify_back(&mut self, _level: u32) {
        self.asked = next(self.asked);
    }

    fn decide(&mut self, _desk: &mut Desk) -> Result<Option<Lit>, Memory> {
        self.asked = next(self.asked);
        Ok(None)
    }

    fn propagate(&mut self, desk: &mut Desk) -> Result<Option<Lit>, Memory>
        ensures called { CalledBack (open_meaning self.old.asked)
            (open_meaning self.new.asked) desk.old desk.new }
        ensures propagated { IfOk result (λ lit. lit ≡ None) }
        ensures asks { OnOk result (HasAsked
            (wishes (is_same self.old.moment Moment.Propagate) self.old.wanted)
            desk.old desk.new) }
    {
        self.asked = next(self.asked);
        self.ask(Moment::Propagate, desk)?;
        Ok(None)
    }

    // No literal is explained, so the trait's conditions never hold: this asks for none of them.
    fn reason(&mut self, lit: Lit, desk: &Desk, out: &mut Lits) -> Result<(), Memory>
        ensures called { CalledBack (open_meaning self.old.asked)
            (open_meaning self.new.asked) desk.now desk.now }
        ensures given { OnOk result ((k : ℕ)
            → StandsAt (open_meaning self.old.asked) desk.now.seen k lit
            → IsReasonGiven (open_meaning self.new.asked) desk.now.seen k lit out.new) }
    {
        self.asked = next(self.asked);
        Err(Memory)
    }

    fn check(&mut self, _model: &[bool], desk: &mut Desk) -> Result<bool, Memory>
        ensures called { CalledBack (open_meaning self.old.asked)
            (open_meaning self.new.asked) desk.old desk.new }
        ensures accepts { IfOk result (λ yes. yes ≡ true) }
        ensures asks { OnOk result (HasAsked
            (wishes (is_same self.old.moment Moment.Check) self.old.wanted)
            desk.old desk.new) }
    {
        self.asked = next(self.asked);
        self.ask(Moment::Check, desk)?;
        Ok(true)
    }
}
