//! The propagator without a constraint, for a solver that is to have none.
ghost use Rattle.std.specs.Prelude.{◌≡◌, ℕ, Ok, None, true, refl, IfOk, OnOk, OnErr};
ghost use Rattle.sat_terms.specs.Truth.{values};
ghost use Rattle.user_propagator.specs.Meaning.{Admitted, Refused, KeptByAdmit, CalledBack};
ghost use Rattle.user_propagator.specs.Meaning.{StandsAt, IsReasonGiven, InStep};
ghost use Rattle.user_propagator.specs.Nothing.{no_meaning};

use crate::counting::next;
use crate::desk::Desk;
use crate::theory::Theory;
use sat_model::constraint::{Constraint, Kind};
use sat_model::lists::Lits;
use sat_model::literal::Lit;
use sat_model::memory::Memory;
use std::alloc::Global;

/// The propagator that takes no constraint, observes nothing, admits every assignment, decides
/// and implies nothing and accepts every model.
#[derive(Drop)]
pub struct NoTheory {
    // How many of its callbacks there were.
    asked: u64,
}

impl NoTheory {
    /// The propagator, before its first callback.
    pub fn new() -> NoTheory
        ensures { ⟦<NoTheory as Theory>⟧.meaning result ≡ no_meaning 0 }
    {
        NoTheory { asked: 0 }
    }
}

impl Theory for NoTheory {
    ghost meaning = { λ t. no_meaning t.asked };

    ghost depends = { λ t f g h. refl };

    fn takes(&self, _kind: Kind) -> bool {
        false
    }

    // No kind is taken, so the trait's conditions never hold: this asks for none of them.
    fn admit(&mut self, _alloc: Global, what: &Constraint, desk: &Desk) -> Result<(), Memory>
        ensures ok { OnOk result (Admitted (no_meaning self.old.asked)
            (no_meaning self.new.asked) what.now) }
        ensures err { OnErr result (Refused (no_meaning self.old.asked)
            (no_meaning self.new.asked)) }
        ensures kept { KeptByAdmit (no_meaning self.old.asked)
            (no_meaning self.new.asked) desk.now }
    {
        Err(Memory)
    }

    fn notify_assigned(&mut self, _lit: Lit, _decision: bool) {
        self.asked = next(self.asked);
    }

    fn notify_level(&mut self) {
        self.asked = next(self.asked);
    }

    fn notify_back(&mut self, _level: u32) {
        self.asked = next(self.asked);
    }

    fn decide(&mut self, desk: &mut Desk) -> Result<Option<Lit>, Memory>
        ensures called { CalledBack (no_meaning self.old.asked)
            (no_meaning self.new.asked) desk.old desk.new }
        ensures decided { result ≡ Ok None }
    {
        self.asked = next(self.asked);
        Ok(None)
    }

    fn propagate(&mut self, desk: &mut Desk) -> Result<Option<Lit>, Memory>
        ensures called { CalledBack (no_meaning self.old.asked)
            (no_meaning self.new.asked) desk.old desk.new }
        ensures propagated { result ≡ Ok None }
    {
        self.asked = next(self.asked);
        Ok(None)
    }

    // No literal is explained, so the trait's conditions never hold: this asks for none of them.
    fn reason(&mut self, lit: Lit, desk: &Desk, out: &mut Lits) -> Result<(), Memory>
        ensures called { CalledBack (no_meaning self.old.asked)
            (no_meaning self.new.asked) desk.now desk.now }
        ensures given { OnOk result ((k : ℕ)
            → StandsAt (no_meaning self.old.asked) desk.now.seen k lit
            → IsReasonGiven (no_meaning self.new.asked) desk.now.seen k lit out.new) }
    {
        self.asked = next(self.asked);
        Err(Memory)
    }

    fn check(&mut self, _model: &[bool], desk: &mut Desk) -> Result<bool, Memory>
        ensures called { CalledBack (no_meaning self.old.asked)
            (no_meaning self.new.asked) desk.old desk.new }
        ensures accepts { result ≡ Ok true }
    {
        self.asked = next(self.asked);
        Ok(true)
    }
}
