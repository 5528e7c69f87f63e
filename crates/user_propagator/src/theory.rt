//! Propagators: what decides and implies literals, beside the clauses, by constraints of its own.
//!
//! A propagator lets some assignments pass (`admits`). It observes some variables, is told of
//! each of their literals that is assigned or undone, and may in return decide a literal, imply
//! one, hand clauses, ask for variables or refuse a model. The solver takes nothing on trust that
//! it cannot use: an implied literal needs no reason until analysis asks for one, and then
//! `reason` gives it as a clause.
//!
//! What a propagator must keep for the solver's answers to be right is said here by the contracts
//! of its methods. They speak of eight meanings that each propagator names for itself
//! (`Meaning`), and relate the meanings, and the desk, before a call to those after it. So a
//! solver over a boxed propagator is proved right over every lawful one, whatever it computes
//! inside, and a propagator is proved lawful with no solver at hand.
//!
//! A propagator can only come to admit less, never more: what was learned from it stays right.
//! Where it is `steady` it admits what it did until a further constraint is given to it. A
//! literal is explained where `explains` holds for it at the seen literals before it; an
//! explained literal stays so as long as it is on the trail, so its reason may be asked for late.
//!
//! The interface is that of IPASIR-UP (Fazekas, Niemetz, Preiner, Kirchweger, Szeider and Biere,
//! SAT 2023); the laws are this library's own.
ghost use Rattle.std.specs.Prelude.{◌≡◌, ℕ, ◌↔◌, [], true, false, IsTrue, Contains};
ghost use Rattle.std.specs.Prelude.{IfOk, OnOk, OnErr};
ghost use Rattle.sat_terms.specs.Truth.{values};
ghost use Rattle.sat_model.specs.Constraint.{kind_of};
ghost use Rattle.user_propagator.specs.Board.{Board};
ghost use Rattle.user_propagator.specs.Meaning.{Meaning, DependsOnScope, InStep, KeepsExplained};
ghost use Rattle.user_propagator.specs.Meaning.{AreObserved, counted_lits, Admitted, Refused};
ghost use Rattle.user_propagator.specs.Meaning.{KeptByAdmit, Notified, CanPut, CanRaise, CanCut};
ghost use Rattle.user_propagator.specs.Meaning.{put_on, raise_on, cut_to, CalledBack, IsDecided};
ghost use Rattle.user_propagator.specs.Meaning.{IsPropagated, StandsAt, IsReasonGiven, IsWhole};
ghost use Rattle.user_propagator.specs.Meaning.{IsRefuted};

use crate::desk::Desk;
use sat_model::constraint::{Constraint, Kind};
use sat_model::lists::Lits;
use sat_model::literal::Lit;
use sat_model::memory::Memory;
use std::alloc::Global;

/// A lawful propagator. The three notifications, `decide`, `propagate`, `reason` and `check` are
/// its callbacks: each of them counts, whatever is answered. `takes` and `admit` belong to giving it
/// constraints, and are no callbacks.
pub trait Theory: Drop {
    ghost meaning: { Self → Meaning };

    /// Whether it takes constraints of a kind.
    fn takes(&self, kind: Kind) -> bool
        ensures { IsTrue result ↔ Contains (meaning self.now).kinds kind };

    /// Takes a constraint, at the root level, whose variables are observed: from then on it
    /// admits what it admitted before and makes the constraint true. After `Memory` it admits
    /// what it did.
    fn admit(&mut self, alloc: Global, what: &Constraint, desk: &Desk) -> Result<(), Memory>
        requires root { desk.now.level ≡ 0 }
        requires step { InStep (meaning self.old) desk.now }
        requires kind { Contains (meaning self.old).kinds (kind_of what.now) }
        requires observed { AreObserved desk.now (counted_lits what.now) }
        ensures ok { OnOk result (Admitted (meaning self.old) (meaning self.new) what.now) }
        ensures err { OnErr result (Refused (meaning self.old) (meaning self.new)) }
        ensures kept { KeptByAdmit (meaning self.old) (meaning self.new) desk.now };

    /// A literal was assigned, by a decision or not; it now stands at the end of the seen trail.
    fn notify_assigned(&mut self, lit: Lit, decision: bool)
        requires step { (b : Board) × InStep (meaning self.old) b × CanPut b lit }
        ensures notified { Notified (meaning self.old) (meaning self.new) }
        ensures step { (b : Board) → InStep (meaning self.old) b → CanPut b lit
            → InStep (meaning self.new) (put_on b lit decision) }
        ensures explained { (b : Board) → InStep (meaning self.old) b → CanPut b lit
            → KeepsExplained (meaning self.old) (meaning self.new) b.seen }
        ensures told { (b : Board) → InStep (meaning self.old) b → CanPut b lit
            → (meaning self.old).explains b.seen lit ≡ true
            → (meaning self.new).explains b.seen lit ≡ true };

    /// A level was opened.
    fn notify_level(&mut self)
        requires step { (b : Board) × InStep (meaning self.old) b × CanRaise b }
        ensures notified { Notified (meaning self.old) (meaning self.new) }
        ensures step { (b : Board) → InStep (meaning self.old) b → CanRaise b
            → InStep (meaning self.new) (raise_on b) }
        ensures explained { (b : Board) → InStep (meaning self.old) b → CanRaise b
            → KeepsExplained (meaning self.old) (meaning self.new) b.seen };

    /// The seen trail was cut back to a level.
    fn notify_back(&mut self, level: u32)
        requires step { (b : Board) × InStep (meaning self.old) b × CanCut b level }
        ensures notified { Notified (meaning self.old) (meaning self.new) }
        ensures step { (b : Board) → InStep (meaning self.old) b → CanCut b level
            → InStep (meaning self.new) (cut_to b level) }
        ensures explained { (b : Board) → InStep (meaning self.old) b → CanCut b level
            → KeepsExplained (meaning self.old) (meaning self.new) (cut_to b level).seen };

    /// Which literal to decide: one that is observed and unassigned, or `None` at will.
    fn decide(&mut self, desk: &mut Desk) -> Result<Option<Lit>, Memory>
        requires step { InStep (meaning self.old) desk.old }
        ensures called { CalledBack (meaning self.old) (meaning self.new) desk.old desk.new }
        ensures decided { IfOk result (IsDecided desk.old) };

    /// Which literal the seen trail implies: one that is observed and unassigned, that every
    /// admitted assignment which makes the seen trail true makes true, and that it can explain;
    /// or `None` at will.
    fn propagate(&mut self, desk: &mut Desk) -> Result<Option<Lit>, Memory>
        requires step { InStep (meaning self.old) desk.old }
        ensures called { CalledBack (meaning self.old) (meaning self.new) desk.old desk.new }
        ensures propagated { IfOk result (IsPropagated (meaning self.new) desk.old) };

    /// Why an explained literal is true: fills the empty list with the literal, and literals that
    /// were false before it, so that every admitted assignment makes the list true as a clause.
    fn reason(&mut self, lit: Lit, desk: &Desk, out: &mut Lits) -> Result<(), Memory>
        requires step { InStep (meaning self.old) desk.now }
        requires explained { (k : ℕ) × StandsAt (meaning self.old) desk.now.seen k lit }
        requires empty { out.old ≡ [] }
        ensures called { CalledBack (meaning self.old) (meaning self.new) desk.now desk.now }
        ensures given { OnOk result ((k : ℕ) → StandsAt (meaning self.old) desk.now.seen k lit
            → IsReasonGiven (meaning self.new) desk.now.seen k lit out.new) };

    /// Whether a model passes, once every observed variable has a value and the model agrees with
    /// these. True only where it is admitted; false only where a clause that was handed in this
    /// call is false in it.
    fn check(&mut self, model: &[bool], desk: &mut Desk) -> Result<bool, Memory>
        requires step { InStep (meaning self.old) desk.old }
        requires whole { IsWhole desk.old model.now }
        ensures called { CalledBack (meaning self.old) (meaning self.new) desk.old desk.new }
        ensures yes { IfOk result (λ yes. yes ≡ true
            → (meaning self.new).admits (values model.now) ≡ true) }
        ensures no { IfOk result (λ yes. yes ≡ false → IsRefuted model.now desk.old desk.new) };

    // What is admitted depends on the scope alone.
    ghost depends: { (t : Self) → DependsOnScope (meaning t) };
}
