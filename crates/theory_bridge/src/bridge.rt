//! The bridge: the one way from a search to its boxed propagator.
//!
//! A propagator is a box of unknown make. What the search may rely on is what the laws of `Theory`
//! say, and these hold only while the propagator is called in the states that they name: in step
//! with what it was told, about literals that may be told, with clauses and requests taken in
//! order. So nothing but the bridge holds the box. It owns the desk that the box is lent, and each
//! of its calls asks of the search what the law behind it asks.
//!
//! What always holds of a bridge is one record, `Stands`: the propagator is in step with the desk's
//! seen trail, and each clause that lies on the desk has variables that are observed or asked for
//! and is true wherever what is admitted now is. Every call keeps it, whatever is answered. So a
//! clause that is taken off the desk may be added as implied, however long it lay there: what is
//! admitted only shrinks.
//!
//! The calls are counted, so that a search over a propagator that always asks for more still ends.
//! One private method decides whether a callback that is due may be made (`count_one`), and every
//! counted callback begins with it: so `Callbacks` comes exactly where a callback is due and none
//! is left, and the box is not called then. A budget of 2^62 is none, and the count stops there.
//! The closing notice (`close`) is not counted, since it comes after the search has ended.
//!
//! After a row of calls a search needs to know little: that no more is admitted, that what was
//! explained is so still, that the desk only gained requests. `Later` and `Asked` say this; they
//! compose, so no case is told apart by what was answered.
//!
//! The interface is that of IPASIR-UP (Fazekas, Niemetz, Preiner, Kirchweger, Szeider and Biere,
//! "IPASIR-UP: user propagators for CDCL", SAT 2023). What it leaves to the solver, when a literal
//! is told and in which order requests are taken, is fixed here and in `telling`.
ghost use Rattle.std.specs.Prelude.{◌≡◌, ◌≤◌, ◌↔◌, ℕ, Bool, List, [], Some, OnOk, OnErr, IfOk, IfErr};
ghost use Rattle.std.specs.Prelude.{true, false, is_some, IsTrue, Contains};
ghost use Rattle.std.specs.Option.{option_copied};
ghost use Rattle.sat_terms.specs.Literal.{has};
ghost use Rattle.sat_terms.specs.Truth.{values};
ghost use Rattle.sat_model.specs.Constraint.{kind_of};
ghost use Rattle.user_propagator.specs.Board.{empty_board, with_var, phase_on};
ghost use Rattle.user_propagator.specs.Waiting.{requests as requests_of, waiting_of, first, rest};
ghost use Rattle.user_propagator.specs.Waiting.{desk_without, without_first};
ghost use Rattle.user_propagator.specs.declared.request.Request.TheVariants as asks;
ghost use Rattle.user_propagator.specs.Meaning.{InStep, StandsAt, IsReasonGiven, CalledBack};
ghost use Rattle.user_propagator.specs.Meaning.{next_count, AreObserved, counted_lits, Admitted};
ghost use Rattle.user_propagator.specs.Meaning.{Refused, KeptByAdmit, IsDecided, IsPropagated};
ghost use Rattle.user_propagator.specs.Meaning.{IsWhole, IsRefuted};
ghost use Rattle.theory_bridge.specs.Shown.{shown, is_out};
ghost use Rattle.theory_bridge.specs.Going.{Asked, Ended};
ghost use Rattle.theory_bridge.specs.Asking.{OneCall, OneCallback, Consulted};
ghost use Rattle.theory_bridge.specs.Standing.{Stands, IsReadyClause};
ghost use Rattle.theory_bridge.specs.Following.{Follows};
ghost use Rattle.theory_bridge.specs.declared.stop.AskStop.TheVariants as stops;

use crate::stop::AskStop;
use sat_model::constraint::{Constraint, Kind};
use sat_model::lists::Lits;
use sat_model::literal::{Lit, Var};
use sat_model::memory::Memory;
use std::alloc::Global;
use trail_state::trail::Trail;
use user_propagator::counting::next;
use user_propagator::desk::Desk;
use user_propagator::request::Request;
use user_propagator::theory::Theory;

// 2^62, which as a budget is none.
const MOST: u64 = 4_611_686_018_427_387_904;

/// A boxed propagator with its desk, and the count of its callbacks.
#[derive(Drop)]
pub struct Bridge {
    // The propagator. It is in step with the desk's seen trail.
    pub(crate) theory: Box<dyn Theory>,
    // What it is lent.
    pub(crate) desk: Desk,
    // How many callbacks are allowed; 2^62 is as many as are made.
    budget: u64,
    // How many there were since `start`.
    count: u64,
    // Whether one was due since `start` when none was left.
    is_spent: bool,
    // The place on the trail of the literal that was told last. It is looked at before it is used:
    // the trail may have gone back since.
    pub(crate) last: u32,
}

// The box, its count, and what it is given.
impl Bridge {
    /// The bridge to a propagator that is in step with the empty trail. Nothing is observed, and
    /// no callback is left until `start`.
    #[tactic(auto, using(crate::proofs::Standing::stands_new))]
    pub fn new(alloc: Global, theory: Box<dyn Theory>) -> Bridge
        requires { InStep (meaning theory) empty_board }
        ensures shown { shown result (meaning result.theory) ≡ record {
          means = meaning theory;
          board = empty_board;
          budget = 0;
          count = 0;
          spent = false;
        } }
        ensures stands { Stands (meaning result.theory) result.desk }
    {
        Bridge {
            theory,
            desk: Desk::new(alloc),
            budget: 0,
            count: 0,
            is_spent: false,
            last: 0,
        }
    }

    /// Counts from 0 again, and allows so many callbacks; 2^62 is no budget.
    pub fn start(&mut self, budget: u64)
        requires { Unit {0} }
        ensures { shown self.new (meaning self.new.theory)
            ≡ record (shown self.old (meaning self.old.theory)) {
              budget = budget;
              count = 0;
              spent = false;
            } }
    {
        self.budget = budget;
        self.count = 0;
        self.is_spent = false;
    }

    /// How many callbacks there were since `start`.
    pub fn calls(&self) -> u64
        ensures { result ≡ self.now.count }
    {
        self.count
    }

    /// Whether a call since `start` answered `Callbacks`.
    pub fn is_spent(&self) -> bool
        ensures { result ≡ self.now.is_spent }
    {
        self.is_spent
    }

    /// Whether the propagator takes constraints of a kind.
    pub fn theory_takes(&self, kind: Kind) -> bool
        ensures { IsTrue result ↔ Contains (meaning self.now.theory).kinds kind }
    {
        self.theory.takes(kind)
    }

    /// Gives the propagator a constraint of a kind that it takes, at the root, whose variables are
    /// observed: from then on it admits what it did and makes the constraint true. After `Memory`
    /// it admits what it did. This is no callback, and the desk stays as it is.
    #[tactic(auto, using(crate::proofs::Standing::stands_admitted))]
    pub fn admit(&mut self, alloc: Global, what: &Constraint) -> Result<(), Memory>
        requires stands { Stands (meaning self.old.theory) self.old.desk }
        requires root { self.old.desk.level ≡ 0 }
        requires kind { Contains (meaning self.old.theory).kinds (kind_of what.now) }
        requires observed { AreObserved self.old.desk (counted_lits what.now) }
        ensures ok { OnOk result
            (Admitted (meaning self.old.theory) (meaning self.new.theory) what.now) }
        ensures err { OnErr result (Refused (meaning self.old.theory) (meaning self.new.theory)) }
        ensures kept { KeptByAdmit (meaning self.old.theory) (meaning self.new.theory)
            self.old.desk }
        ensures rest { shown self.new (meaning self.new.theory)
            ≡ record (shown self.old (meaning self.old.theory)) {
              means = meaning self.new.theory;
            } }
        ensures stands { Stands (meaning self.new.theory) self.new.desk }
    {
        self.theory.admit(alloc, what, &self.desk)
    }

    /// The propagator itself.
    pub fn into_theory(self) -> Box<dyn Theory>
        requires { Unit {0} }
        ensures { meaning result ≡ meaning self.theory }
    {
        self.theory
    }
}

// What is observed, and what lies on the desk.
impl Bridge {
    /// Observes a variable, while the trail is at the root; its value, if it has one, is told by
    /// the next `tell`. Nothing changes where it is observed already, nor after `Memory`.
    #[tactic(auto, using(crate::proofs::Standing::stands_observed, crate::proofs::Following::follows_observed))]
    pub fn observe(&mut self, var: Var, trail: &Trail) -> Result<(), Memory>
        requires stands { Stands (meaning self.old.theory) self.old.desk }
        requires root { trail.now.level ≡ 0 }
        ensures ok { OnOk result (self.new ≡ record self.old {
          desk
              = record self.old.desk { observed = with_var self.old.desk.observed var };
        }) }
        ensures err { OnErr result (self.new ≡ self.old) }
        ensures follows { Follows self.old.desk trail.now → Follows self.new.desk trail.now }
        ensures stands { Stands (meaning self.new.theory) self.new.desk }
    {
        trail.law_shape();
        self.desk.watch(var)?;
        Ok(())
    }

    /// Whether a variable is observed.
    pub fn is_observed(&self, var: Var) -> bool
        ensures { result ≡ has self.now.desk.observed var }
    {
        self.desk.is_observed(var)
    }

    /// The request that is to be taken first: variables before clauses before going back, each
    /// kind in the order of asking. `None` exactly where none is left. It stays on the desk. The
    /// variables of a clause are observed, and every assignment that is admitted now makes it true.
    #[tactic(auto, using(crate::proofs::Standing::ready_clause))]
    pub fn next_request(&self) -> Option<&Request>
        requires { Stands (meaning self.now.theory) self.now.desk }
        ensures first { option_copied result ≡ first (requests_of (waiting_of self.now.desk)) }
        ensures left { is_some result ≡ is_some (first (requests_of (waiting_of self.now.desk))) }
        ensures clause { (c : List ℕ) (forgettable : Bool)
            → first (requests_of (waiting_of self.now.desk)) ≡ Some (asks.Clause c forgettable)
            → IsReadyClause (meaning self.now.theory) self.now.desk c }
    {
        self.desk.first_request()
    }

    /// Takes that first request off, once its work is done: one is left and, where it asks for a
    /// variable, the variable is observed.
    #[tactic(auto, using(crate::proofs::Standing::stands_dropped))]
    pub fn drop_request(&mut self)
        requires stands { Stands (meaning self.old.theory) self.old.desk }
        requires left { is_some (first (requests_of (waiting_of self.old.desk))) ≡ true }
        requires done { (v : ℕ) → first (requests_of (waiting_of self.old.desk))
            ≡ Some (asks.Observe v) → has self.old.desk.observed v ≡ true }
        ensures first { requests_of (waiting_of self.new.desk)
            ≡ rest (requests_of (waiting_of self.old.desk)) }
        ensures after { self.new ≡ record self.old {
          desk
              = desk_without self.old.desk (without_first (waiting_of self.old.desk));
        } }
        ensures stands { Stands (meaning self.new.theory) self.new.desk }
    {
        self.desk.drop_request();
    }

    /// The literal of a variable in the phase that the propagator set last. `None` exactly where
    /// it set none.
    pub fn phase(&self, var: Var) -> Option<Lit>
        ensures { result ≡ phase_on self.now.desk.phases var }
    {
        self.desk.phase_of(var)
    }
}

// The questions.
impl Bridge {
    // Counts a callback that is due, before it is made: where none is left the bridge is spent, and
    // the callback must not be made. Every counted callback begins with this.
    pub(crate) fn count_one(&mut self) -> Result<(), AskStop>
        requires { Unit {0} }
        ensures out { is_out (shown self.old (meaning self.old.theory)) ≡ true
            → (result ≡ Err (stops.Callbacks self.old.budget))
            × (self.new ≡ record self.old { is_spent = true }) }
        ensures left { is_out (shown self.old (meaning self.old.theory)) ≡ false
            → (result ≡ Ok tt)
            × (self.new ≡ record self.old { count = next_count self.old.count }) }
    {
        if self.count == self.budget && self.budget < MOST {
            self.is_spent = true;
            return Err(AskStop::Callbacks(self.budget));
        }
        self.count = next(self.count);
        Ok(())
    }

    /// Asks which literal the seen trail implies: one callback.
    #[tactic(auto, using(crate::proofs::Asking::consulted_out, crate::proofs::Asking::consulted_once, crate::proofs::Standing::stands_called))]
    pub fn ask_propagate(&mut self) -> Result<Option<Lit>, AskStop>
        requires stands { Stands (meaning self.old.theory) self.old.desk }
        ensures consulted { Consulted (shown self.old (meaning self.old.theory))
            (shown self.new (meaning self.new.theory)) }
        ensures ended { Ended result (shown self.old (meaning self.old.theory))
            (shown self.new (meaning self.new.theory)) }
        ensures out { is_out (shown self.old (meaning self.old.theory)) ≡ true
            → (result ≡ Err (stops.Callbacks self.old.budget))
            × (shown self.new (meaning self.new.theory)
            ≡ record (shown self.old (meaning self.old.theory)) { spent = true }) }
        ensures called { is_out (shown self.old (meaning self.old.theory)) ≡ false
            → OneCallback (shown self.old (meaning self.old.theory))
            (shown self.new (meaning self.new.theory))
            × IfErr result (λ e. e ≡ stops.Memory) }
        ensures propagated { IfOk result (IsPropagated (meaning self.new.theory) self.old.desk) }
        ensures stands { Stands (meaning self.new.theory) self.new.desk }
    {
        self.count_one()?;
        self.call_propagate()
    }

    // Calls the box for an implied literal.
    fn call_propagate(&mut self) -> Result<Option<Lit>, AskStop>
        requires step { InStep (meaning self.old.theory) self.old.desk }
        ensures called { CalledBack (meaning self.old.theory) (meaning self.new.theory)
            self.old.desk self.new.desk }
        ensures count { self.new.count ≡ self.old.count }
        ensures budget { self.new.budget ≡ self.old.budget }
        ensures spent { self.new.is_spent ≡ self.old.is_spent }
        ensures memory { IfErr result (λ e. e ≡ stops.Memory) }
        ensures propagated { IfOk result (IsPropagated (meaning self.new.theory) self.old.desk) }
    {
        let lit = self.theory.propagate(&mut self.desk)?;
        Ok(lit)
    }

    /// Asks which literal to decide: one callback.
    #[tactic(auto, using(crate::proofs::Asking::consulted_out, crate::proofs::Asking::consulted_once, crate::proofs::Standing::stands_called))]
    pub fn ask_decide(&mut self) -> Result<Option<Lit>, AskStop>
        requires stands { Stands (meaning self.old.theory) self.old.desk }
        ensures consulted { Consulted (shown self.old (meaning self.old.theory))
            (shown self.new (meaning self.new.theory)) }
        ensures ended { Ended result (shown self.old (meaning self.old.theory))
            (shown self.new (meaning self.new.theory)) }
        ensures out { is_out (shown self.old (meaning self.old.theory)) ≡ true
            → (result ≡ Err (stops.Callbacks self.old.budget))
            × (shown self.new (meaning self.new.theory)
            ≡ record (shown self.old (meaning self.old.theory)) { spent = true }) }
        ensures called { is_out (shown self.old (meaning self.old.theory)) ≡ false
            → OneCallback (shown self.old (meaning self.old.theory))
            (shown self.new (meaning self.new.theory))
            × IfErr result (λ e. e ≡ stops.Memory) }
        ensures decided { IfOk result (IsDecided self.old.desk) }
        ensures stands { Stands (meaning self.new.theory) self.new.desk }
    {
        self.count_one()?;
        self.call_decide()
    }

    // Calls the box for a decision.
    fn call_decide(&mut self) -> Result<Option<Lit>, AskStop>
        requires step { InStep (meaning self.old.theory) self.old.desk }
        ensures called { CalledBack (meaning self.old.theory) (meaning self.new.theory)
            self.old.desk self.new.desk }
        ensures count { self.new.count ≡ self.old.count }
        ensures budget { self.new.budget ≡ self.old.budget }
        ensures spent { self.new.is_spent ≡ self.old.is_spent }
        ensures memory { IfErr result (λ e. e ≡ stops.Memory) }
        ensures decided { IfOk result (IsDecided self.old.desk) }
    {
        let lit = self.theory.decide(&mut self.desk)?;
        Ok(lit)
    }

    /// Asks for the reason of an explained literal, which is put into the empty list: one callback.
    /// The desk stays as it is.
    #[tactic(auto, using(crate::proofs::Asking::asked_out, crate::proofs::Asking::asked_once))]
    pub fn ask_reason(&mut self, lit: Lit, out: &mut Lits) -> Result<(), AskStop>
        requires step { InStep (meaning self.old.theory) self.old.desk }
        requires explained { (k : ℕ)
            × StandsAt (meaning self.old.theory) self.old.desk.seen k lit }
        requires empty { out.old ≡ [] }
        ensures asked { Asked 1 (shown self.old (meaning self.old.theory))
            (shown self.new (meaning self.new.theory)) }
        ensures ended { Ended result (shown self.old (meaning self.old.theory))
            (shown self.new (meaning self.new.theory)) }
        ensures out { is_out (shown self.old (meaning self.old.theory)) ≡ true
            → (result ≡ Err (stops.Callbacks self.old.budget))
            × (shown self.new (meaning self.new.theory)
            ≡ record (shown self.old (meaning self.old.theory)) { spent = true }) }
        ensures called { is_out (shown self.old (meaning self.old.theory)) ≡ false
            → OneCall (shown self.old (meaning self.old.theory))
            (shown self.new (meaning self.new.theory))
            × IfErr result (λ e. e ≡ stops.Memory) }
        ensures given { OnOk result ((k : ℕ)
            → StandsAt (meaning self.old.theory) self.old.desk.seen k lit
            → IsReasonGiven (meaning self.new.theory) self.old.desk.seen k lit out.new) }
        ensures step { InStep (meaning self.new.theory) self.new.desk }
    {
        self.count_one()?;
        self.call_reason(lit, out)
    }

    // Calls the box for the reason of an explained literal.
    fn call_reason(&mut self, lit: Lit, out: &mut Lits) -> Result<(), AskStop>
        requires step { InStep (meaning self.old.theory) self.old.desk }
        requires explained { (k : ℕ)
            × StandsAt (meaning self.old.theory) self.old.desk.seen k lit }
        requires empty { out.old ≡ [] }
        ensures called { CalledBack (meaning self.old.theory) (meaning self.new.theory)
            self.old.desk self.old.desk }
        ensures desk { self.new.desk ≡ self.old.desk }
        ensures count { self.new.count ≡ self.old.count }
        ensures budget { self.new.budget ≡ self.old.budget }
        ensures spent { self.new.is_spent ≡ self.old.is_spent }
        ensures memory { IfErr result (λ e. e ≡ stops.Memory) }
        ensures given { OnOk result ((k : ℕ)
            → StandsAt (meaning self.old.theory) self.old.desk.seen k lit
            → IsReasonGiven (meaning self.new.theory) self.old.desk.seen k lit out.new) }
    {
        self.theory.reason(lit, &self.desk, out)?;
        Ok(())
    }

    /// Shows a model, once every observed variable was told and the model agrees with the seen
    /// trail: one callback. True only where the model is admitted; false only where a clause that
    /// was handed now is false in it.
    #[tactic(auto, using(crate::proofs::Asking::consulted_out, crate::proofs::Asking::consulted_once, crate::proofs::Standing::stands_called))]
    pub fn ask_check(&mut self, model: &[bool]) -> Result<bool, AskStop>
        requires stands { Stands (meaning self.old.theory) self.old.desk }
        requires whole { IsWhole self.old.desk model.now }
        ensures consulted { Consulted (shown self.old (meaning self.old.theory))
            (shown self.new (meaning self.new.theory)) }
        ensures ended { Ended result (shown self.old (meaning self.old.theory))
            (shown self.new (meaning self.new.theory)) }
        ensures out { is_out (shown self.old (meaning self.old.theory)) ≡ true
            → (result ≡ Err (stops.Callbacks self.old.budget))
            × (shown self.new (meaning self.new.theory)
            ≡ record (shown self.old (meaning self.old.theory)) { spent = true }) }
        ensures called { is_out (shown self.old (meaning self.old.theory)) ≡ false
            → OneCallback (shown self.old (meaning self.old.theory))
            (shown self.new (meaning self.new.theory))
            × IfErr result (λ e. e ≡ stops.Memory) }
        ensures yes { IfOk result (λ yes. yes ≡ true
            → (meaning self.new.theory).admits (values model.now) ≡ true) }
        ensures no { IfOk result (λ yes. yes ≡ false
            → IsRefuted model.now self.old.desk self.new.desk) }
        ensures stands { Stands (meaning self.new.theory) self.new.desk }
    {
        self.count_one()?;
        self.call_check(model)
    }

    // Shows the box a model.
    fn call_check(&mut self, model: &[bool]) -> Result<bool, AskStop>
        requires step { InStep (meaning self.old.theory) self.old.desk }
        requires whole { IsWhole self.old.desk model.now }
        ensures called { CalledBack (meaning self.old.theory) (meaning self.new.theory)
            self.old.desk self.new.desk }
        ensures count { self.new.count ≡ self.old.count }
        ensures budget { self.new.budget ≡ self.old.budget }
        ensures spent { self.new.is_spent ≡ self.old.is_spent }
        ensures memory { IfErr result (λ e. e ≡ stops.Memory) }
        ensures yes { IfOk result (λ yes. yes ≡ true
            → (meaning self.new.theory).admits (values model.now) ≡ true) }
        ensures no { IfOk result (λ yes. yes ≡ false
            → IsRefuted model.now self.old.desk self.new.desk) }
    {
        let passes = self.theory.check(model, &mut self.desk)?;
        Ok(passes)
    }
}
