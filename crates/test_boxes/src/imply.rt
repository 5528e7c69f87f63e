//! A box that implies, explains and hands a clause: each kind of work that a propagator can do.
//!
//! It knows one clause, that `from` implies `to`, and uses it in each way in which a propagator can
//! use what it knows. One clause of two literals is the least with which all of that can be done,
//! so that a mistake in whoever drives the box shows in a test of two variables.
//!
//! At each `propagate` it reads the seen trail on its desk. Where `from` is true and `to` is of an
//! observed variable without a value, it implies `to`. Where both literals of the clause are false,
//! it hands the clause, as an external propagator does at a conflict. `reason` answers with the
//! clause, its own literal first: `from` was true at every place at which `to` is explained, so the
//! other literal is false there. At a model the clause is tested: where it is true the model
//! passes, and else the clause is handed, which refutes the model.
//!
//! It is steady: what it admits is fixed by its two literals, and only the count of its callbacks
//! changes. So it may hand nothing but a clause that is false or unit on the seen trail, and may
//! ask for no variable. Where a model makes the clause false and one of its variables is not
//! observed, the laws leave it no answer but `Memory`; a driver that observes the scope never
//! meets that.
//!
//! The tests show what is implied with nothing observed, behind `from`, and behind `from` and the
//! negation of `to`, and the clause that is handed there.
ghost use Rattle.std.specs.Prelude.{◌≡◌, true, OnOk, OnErr};
ghost use Rattle.sat_terms.specs.Literal.{neg as opposite};
ghost use Rattle.user_propagator.specs.Meaning.{Admitted, Refused, KeptByAdmit};
ghost use Rattle.test_boxes.specs.Pair.{imply_meaning, explains_second, pair_depends, IsDue};

use crate::pair::hand_if_broken;
use sat_model::constraint::{Constraint, Kind};
use sat_model::lists::Lits;
use sat_model::literal::Lit;
use sat_model::memory::Memory;
use sat_model::truth::clause_true;
use std::alloc::Global;
use user_propagator::counting::next;
use user_propagator::desk::Desk;
use user_propagator::theory::Theory;

/// Knows that one literal implies another. It implies the second where the first is true,
/// explains it by the clause of both, and hands that clause where it is false.
#[derive(Drop)]
pub struct Imply {
    // The literal that implies.
    from: Lit,
    // The literal that is implied.
    to: Lit,
    // How many callbacks there were.
    asked: u64,
}

impl Imply {
    /// The box, before its first callback.
    pub fn new(from: Lit, to: Lit) -> Imply
        ensures { ⟦<Imply as Theory>⟧.meaning result ≡ imply_meaning from to 0 }
    {
        Imply { from, to, asked: 0 }
    }

    // Whether the second literal is to be implied now.
    fn is_due(&self, desk: &Desk) -> bool
        ensures { result ≡ true → IsDue desk.now self.now.from self.now.to }
    {
        desk.is_observed(self.to.var())
            && desk.value(self.from.neg()) == Some(false)
            && desk.value(self.to).is_none()
    }
}

impl Theory for Imply {
    ghost meaning = { λ t. imply_meaning t.from t.to t.asked };

    ghost depends = { λ t.
        pair_depends (opposite t.from) t.to t.asked (explains_second (opposite t.from) t.to) };

    fn takes(&self, _kind: Kind) -> bool {
        false
    }

    // No kind is taken, so the trait's conditions never hold: this asks for none of them.
    fn admit(&mut self, _alloc: Global, what: &Constraint, desk: &Desk) -> Result<(), Memory>
        ensures ok { OnOk result (Admitted
            (imply_meaning self.old.from self.old.to self.old.asked)
            (imply_meaning self.new.from self.new.to self.new.asked) what.now) }
        ensures err { OnErr result (Refused
            (imply_meaning self.old.from self.old.to self.old.asked)
            (imply_meaning self.new.from self.new.to self.new.asked)) }
        ensures kept { KeptByAdmit (imply_meaning self.old.from self.old.to self.old.asked)
            (imply_meaning self.new.from self.new.to self.new.asked) desk.now }
    {
        Err(Memory)
    }

    fn notify_assigned(&mut self, _lit: Lit, _decision: bool) {
        self.asked = next(self.asked);
    }

    fn notify_level(&mut self) {
        self.asked = next(self.asked);
    }

    fn notify_back(&mut self, _level: u32) {
        self.asked = next(self.asked);
    }

    fn decide(&mut self, _desk: &mut Desk) -> Result<Option<Lit>, Memory> {
        self.asked = next(self.asked);
        Ok(None)
    }

    fn propagate(&mut self, desk: &mut Desk) -> Result<Option<Lit>, Memory> {
        self.asked = next(self.asked);
        if self.is_due(desk) {
            return Ok(Some(self.to));
        }
        hand_if_broken(self.from.neg(), self.to, desk)?;
        Ok(None)
    }

    fn reason(&mut self, lit: Lit, _desk: &Desk, out: &mut Lits) -> Result<(), Memory> {
        self.asked = next(self.asked);
        out.push(lit)?;
        out.push(self.from.neg())?;
        Ok(())
    }

    fn check(&mut self, model: &[bool], desk: &mut Desk) -> Result<bool, Memory> {
        self.asked = next(self.asked);
        if clause_true(model, &[self.from.neg(), self.to]) {
            return Ok(true);
        }
        // The clause is false on the trail too, unless one of the variables is not observed yet:
        // then a steady box can neither hand the clause nor ask for the variable.
        if hand_if_broken(self.from.neg(), self.to, desk)? {
            return Ok(false);
        }
        Err(Memory)
    }
}
