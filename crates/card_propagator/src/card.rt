//! The propagator of cardinalities.
//!
//! As clauses a cardinality over many literals takes auxiliary variables, and many clauses. This
//! propagator takes it as it is: `AtLeast(b, L)` says that at least `b` positions of the list are
//! true, where a literal that stands twice counts twice, and a literal and its negation count each at
//! its place. It admits the assignments that make every cardinality true.
//!
//! It counts. For each cardinality it keeps how many positions are true and how many are false; a
//! notification of a literal touches the cardinalities that hold it or its negation, and no others.
//! Where too few positions are not false, the cardinality is broken: its false literals are a clause,
//! and it is handed. Where just one literal can't be spared it is implied. Only cardinalities in which
//! something has changed are looked at: they wait in a queue.
//!
//! Reasons are lazy. When a literal is implied nothing is kept; when its reason is asked for, one of
//! the cardinalities that hold it is found that had, at the place of the literal on the seen trail,
//! too few open positions without it. The reason is the literal and those literals of this
//! cardinality that were false before it. So what is explained depends on the cardinalities and the
//! seen trail alone, and stays explained whatever else is told.
//!
//! Memory that the notifications need is taken when a cardinality is admitted. Counters beside a SAT
//! solver are those of MiniSat+ (Eén and Sörensson, Translating pseudo-Boolean constraints into SAT,
//! 2006) and of native cardinality solvers (Liffiton and Maglalang, 2012); lazy reasons are asked for
//! as in IPASIR-UP (Fazekas and others, SAT 2023). Left out: upper bounds, which are lower bounds on
//! the negated literals, and watching fewer literals than all.
ghost use Rattle.std.specs.Prelude.{◌≡◌, ℕ, ◌+◌, ◌<◌, ◌≤◌, ◌^◌, [], IfOk, OnOk, OnErr, length, Some, None, Ok, Contains, true, false, ◌∷◌, ◌++◌};
ghost use Rattle.user_propagator.specs.Board.{Board};
ghost use Rattle.sat_terms.specs.Truth.{values};
ghost use Rattle.sat_model.specs.Constraint.{kind_of};
ghost use Rattle.user_propagator.specs.Meaning.{counted_lits};
ghost use Rattle.user_propagator.specs.Meaning.{InStep, CalledBack, IsPropagated, IsDecided, IsWhole, Admitted, Refused, KeptByAdmit, AreObserved, Notified, CanPut, CanRaise, CanCut, put_on, raise_on, cut_to, KeepsExplained, StandsAt, IsReasonGiven, IsRefuted};
ghost use Rattle.card_propagator.specs.Values.{true_count, false_count};
ghost use Rattle.card_propagator.specs.Counting.{lits_at, rule};
ghost use Rattle.card_propagator.specs.Meant.{meaning_of};
ghost use Rattle.card_propagator.specs.Cards.{card_meaning, card_depends, no_cards, IsFresh, IsQuietIfNone, HandsFalse, HandsBroken, LeftBy, WantsForAClause};

use crate::clauses::{add_fallen, find_reason, first_unkept, hand_false, is_broken};
use crate::counter::Counter;
use crate::due::Found;
use crate::rules::lits_of;
use sat_model::constraint::{Constraint, Kind};
use sat_model::lists::Lits;
use sat_model::literal::Lit;
use sat_model::memory::Memory;
use std::alloc::Global;
use user_propagator::counting::next;
use user_propagator::desk::Desk;
use user_propagator::theory::Theory;

/// Admits the assignments that make its cardinalities true: each has a bound and a list, and at least
/// so many positions of the list are to be true.
#[derive(Drop)]
pub struct CardTheory {
    // The allocator for clauses that are handed.
    alloc: Global,
    // The cardinalities, and what is kept of the seen trail.
    counter: Counter,
    // How many callbacks there were, up to 2^62.
    asked: u64,
    // How many cardinalities were accepted, up to 2^62.
    accepted: u64,
}

impl CardTheory {
    /// The propagator before its first callback: it has no cardinality, so it admits everything; it
    /// takes cardinalities alone, is steady, and in step with the empty seen trail. It takes no
    /// memory.
    pub fn new(alloc: Global) -> CardTheory
        ensures meaning { ⟦<CardTheory as Theory>⟧.meaning result ≡ card_meaning no_cards 0 0 }
        ensures fresh { IsFresh (⟦<CardTheory as Theory>⟧.meaning result) }
    {
        CardTheory {
            alloc,
            counter: Counter::new(alloc),
            asked: 0,
            accepted: 0,
        }
    }

    /// How many cardinalities were admitted.
    pub fn len(&self) -> usize
        ensures { result ≡ length self.now.counter.rules }
    {
        self.counter.len()
    }

    /// The cardinality of a number below `len`, from 0, in the order of admission.
    pub fn rule(&self, k: usize) -> &Constraint
        requires { k < length self.now.counter.rules }
        ensures { result.now ≡ rule self.now.counter.rules k }
    {
        self.counter.rule(k)
    }

    /// How many positions of the cardinality of a number below `len` are true, and how many are false,
    /// on the seen trail with which the propagator is in step.
    pub fn counts(&self, k: usize) -> (u64, u64)
        requires { k < length self.now.counter.rules }
        ensures { (b : Board) → InStep (⟦<CardTheory as Theory>⟧.meaning self.now) b → (result.0 ≡ true_count b.seen (lits_at self.now.counter.rules k)) × (result.1 ≡ false_count b.seen (lits_at self.now.counter.rules k)) }
    {
        self.counter.law_proper();
        (self.counter.true_count(k), self.counter.false_count(k))
    }
}

impl Theory for CardTheory {
    ghost meaning = { meaning_of };

    ghost depends = { λ t. card_depends t.counter t.asked t.accepted };

    /// Cardinalities alone are taken.
    fn takes(&self, kind: Kind) -> bool {
        match kind {
            Kind::Card => true,
            Kind::Parity => false,
        }
    }

    /// The cardinality is appended to the others. After `Memory` the cardinalities are the same.
    fn admit(&mut self, alloc: Global, what: &Constraint, desk: &Desk) -> Result<(), Memory>
        requires root { desk.now.level ≡ 0 }
        requires step { InStep (meaning_of self.old) desk.now }
        requires kind { Contains (meaning_of self.old).kinds (kind_of what.now) }
        requires observed { AreObserved desk.now (counted_lits what.now) }
        ensures ok { OnOk result (Admitted (meaning_of self.old) (meaning_of self.new) what.now) }
        ensures err { OnErr result (Refused (meaning_of self.old) (meaning_of self.new)) }
        ensures kept { KeptByAdmit (meaning_of self.old) (meaning_of self.new) desk.now }
        ensures order { OnOk result (self.new.counter.rules ≡ self.old.counter.rules ++ what.now ∷ []) }
        ensures same { OnErr result (self.new.counter.rules ≡ self.old.counter.rules) }
    {
        self.counter.admit(alloc, what, desk)?;
        self.accepted = next(self.accepted);
        Ok(())
    }

    /// The positions that hold the literal or its negation are counted.
    fn notify_assigned(&mut self, lit: Lit, decision: bool)
        requires step { (b : Board) × InStep (meaning_of self.old) b × CanPut b lit }
        ensures notified { Notified (meaning_of self.old) (meaning_of self.new) }
        ensures step { (b : Board) → InStep (meaning_of self.old) b → CanPut b lit → InStep (meaning_of self.new) (put_on b lit decision) }
        ensures explained { (b : Board) → InStep (meaning_of self.old) b → CanPut b lit → KeepsExplained (meaning_of self.old) (meaning_of self.new) b.seen }
        ensures told { (b : Board) → InStep (meaning_of self.old) b → CanPut b lit → (meaning_of self.old).explains b.seen lit ≡ true → (meaning_of self.new).explains b.seen lit ≡ true }
        ensures rules { self.new.counter.rules ≡ self.old.counter.rules }
    {
        let _ = decision;
        self.counter.put(lit);
        self.asked = next(self.asked);
    }

    /// The level is counted, so that what is told has one.
    fn notify_level(&mut self)
        requires step { (b : Board) × InStep (meaning_of self.old) b × CanRaise b }
        ensures notified { Notified (meaning_of self.old) (meaning_of self.new) }
        ensures step { (b : Board) → InStep (meaning_of self.old) b → CanRaise b → InStep (meaning_of self.new) (raise_on b) }
        ensures explained { (b : Board) → InStep (meaning_of self.old) b → CanRaise b → KeepsExplained (meaning_of self.old) (meaning_of self.new) b.seen }
        ensures rules { self.new.counter.rules ≡ self.old.counter.rules }
    {
        self.counter.raise();
        self.asked = next(self.asked);
    }

    /// What was told above the level is taken back.
    fn notify_back(&mut self, level: u32)
        requires step { (b : Board) × InStep (meaning_of self.old) b × CanCut b level }
        ensures notified { Notified (meaning_of self.old) (meaning_of self.new) }
        ensures step { (b : Board) → InStep (meaning_of self.old) b → CanCut b level → InStep (meaning_of self.new) (cut_to b level) }
        ensures explained { (b : Board) → InStep (meaning_of self.old) b → CanCut b level → KeepsExplained (meaning_of self.old) (meaning_of self.new) (cut_to b level).seen }
        ensures rules { self.new.counter.rules ≡ self.old.counter.rules }
    {
        self.counter.back(level);
        self.asked = next(self.asked);
    }

    /// It decides nothing, and leaves the desk as it was.
    fn decide(&mut self, desk: &mut Desk) -> Result<Option<Lit>, Memory>
        requires step { InStep (meaning_of self.old) desk.old }
        ensures called { CalledBack (meaning_of self.old) (meaning_of self.new) desk.old desk.new }
        ensures decided { IfOk result (IsDecided desk.old) }
        ensures nothing { result ≡ Ok None }
        ensures desk { desk.new ≡ desk.old }
        ensures rules { self.new.counter.rules ≡ self.old.counter.rules }
    {
        self.asked = next(self.asked);
        Ok(None)
    }

    /// Implies a literal, or hands the clause of the false literals of a cardinality that is broken.
    /// Where it answers `None` and hands nothing, nothing follows from any cardinality: enough
    /// positions are open, and are so without any one literal that has no value. It leaves nothing else
    /// on the desk, and nothing after `Memory`, which comes where there is none for a clause. It comes also where the literal that follows is not of an observed
    /// variable: for a steady propagator the laws leave no other answer there, and no driver meets it
    /// that observes what it has admitted.
    fn propagate(&mut self, desk: &mut Desk) -> Result<Option<Lit>, Memory>
        requires step { InStep (meaning_of self.old) desk.old }
        ensures called { CalledBack (meaning_of self.old) (meaning_of self.new) desk.old desk.new }
        ensures propagated { IfOk result (IsPropagated (meaning_of self.new) desk.old) }
        ensures none { IfOk result (IsQuietIfNone self.old.counter.rules desk.old desk.new) }
        ensures handed { HandsFalse desk.old desk.new }
        ensures left { IfOk result (LeftBy self.old.counter.rules desk.old desk.new) }
        ensures kept { OnErr result (desk.new ≡ desk.old) }
        ensures refused { OnErr result (WantsForAClause self.old.counter.rules desk.old) }
        ensures rules { self.new.counter.rules ≡ self.old.counter.rules }
    {
        // Each rule is a cardinality over known variables: what is found speaks of the seen trail,
        // whose variables are observed.
        self.counter.law_proper();
        desk.law_shape();
        let found = self.counter.search();
        self.asked = next(self.asked);
        match found {
            Found::Nothing => Ok(None),
            Found::Broken(k) => {
                hand_false(self.alloc, &self.counter, k, desk)?;
                Ok(None)
            }
            Found::Forced(_, lit) => {
                if !desk.is_observed(lit.var()) {
                    return Err(Memory);
                }
                Ok(Some(lit))
            }
        }
    }

    /// The literal, and the literals that were false before it of a cardinality that could not spare
    /// it. `Memory` comes only where a push was refused.
    fn reason(&mut self, lit: Lit, desk: &Desk, out: &mut Lits) -> Result<(), Memory>
        requires step { InStep (meaning_of self.old) desk.now }
        requires explained { (k : ℕ) × StandsAt (meaning_of self.old) desk.now.seen k lit }
        requires empty { out.old ≡ [] }
        ensures called { CalledBack (meaning_of self.old) (meaning_of self.new) desk.now desk.now }
        ensures given { OnOk result ((k : ℕ) → StandsAt (meaning_of self.old) desk.now.seen k lit → IsReasonGiven (meaning_of self.new) desk.now.seen k lit out.new) }
        ensures rules { self.new.counter.rules ≡ self.old.counter.rules }
    {
        self.counter.law_proper();
        self.asked = next(self.asked);
        // An explained literal stands on the seen trail, and one of the cardinalities that hold it
        // forced it there.
        let Some(place) = desk.place_of(lit.var()) else {
            unreachable!()
        };
        let Some(k) = find_reason(&self.counter, lit, place, desk) else {
            unreachable!()
        };
        out.push(lit)?;
        add_fallen(out, lits_of(self.counter.rule(k)), place, desk)
    }

    /// Whether the model makes every cardinality true. Where it does not, the false literals of the
    /// first one that it breaks are handed. Nothing else is left on the desk, and nothing
    /// after `Memory`, which comes where there is none for that clause, and also where a variable of
    /// that one is not observed.
    fn check(&mut self, model: &[bool], desk: &mut Desk) -> Result<bool, Memory>
        requires step { InStep (meaning_of self.old) desk.old }
        requires whole { IsWhole desk.old model.now }
        ensures called { CalledBack (meaning_of self.old) (meaning_of self.new) desk.old desk.new }
        ensures yes { IfOk result (λ yes. yes ≡ true → (meaning_of self.new).admits (values model.now) ≡ true) }
        ensures no { IfOk result (λ yes. yes ≡ false → IsRefuted model.now desk.old desk.new) }
        ensures handed { HandsFalse desk.old desk.new }
        ensures accepted { IfOk result (λ yes. yes ≡ true → desk.new ≡ desk.old) }
        ensures rejected { IfOk result (λ yes. yes ≡ false → HandsBroken self.old.counter.rules desk.old desk.new) }
        ensures kept { OnErr result (desk.new ≡ desk.old) }
        ensures refused { OnErr result (WantsForAClause self.old.counter.rules desk.old) }
        ensures rules { self.new.counter.rules ≡ self.old.counter.rules }
    {
        self.counter.law_proper();
        desk.law_shape();
        self.asked = next(self.asked);
        let Some(k) = first_unkept(&self.counter, model) else {
            return Ok(true);
        };
        // Where all its variables are observed the model agrees with the seen trail on them, so it is
        // broken there too.
        if !is_broken(&self.counter, k) {
            return Err(Memory);
        }
        hand_false(self.alloc, &self.counter, k, desk)?;
        Ok(false)
    }
}
