//! The desk: the part of the solver that a propagator is lent in a callback.
//!
//! A propagator keeps constraints of its own and is told each literal of the variables that it
//! observes. In a callback it reads on its desk what it was told, and leaves there what it wants
//! of the solver: to observe a further variable, to add a clause, to go back. It cannot reach
//! into the solver itself, so what it asks for is done when it has returned, in a fixed order,
//! and nothing that the solver is in the middle of can change under it. This is the interface of
//! IPASIR-UP (Fazekas, Niemetz, Preiner, Kirchweger, Szeider and Biere, "IPASIR-UP: user
//! propagators for CDCL", SAT 2023) with a mailbox in place of its calls back.
//!
//! The solver owns the desk. It puts each notified literal there (`put`, `raise`, `cut`), and
//! takes the requests one by one (`first_request`, `drop_request`); a propagator uses none of
//! these. So the contracts of a propagator speak of the desk's seen trail, and hold whatever the
//! solver's own trail is.
//!
//! Contracts see a desk as a `Board`: each call is an equation between the board before and
//! after, or between the answer and the board. Only `watch`, `observe` and `hand` take memory,
//! and after `Memory` the board is as before.
ghost use Rattle.std.specs.Prelude.{◌≡◌, ◌==◌, ◌<◌, ◌≤◌, ℕ, true, Some, None, is_some};
ghost use Rattle.std.specs.Prelude.{OnOk, OnErr, IsTrue, ◌↔◌, [], if◌then◌else◌};
ghost use Rattle.std.specs.Option.{option_copied};
ghost use Rattle.sat_terms.specs.Limits.{max_var};
ghost use Rattle.sat_terms.specs.Literal.{has, var_of};
ghost use Rattle.user_propagator.specs.Board.{empty_board, trail_value, trail_place, trail_level};
ghost use Rattle.user_propagator.specs.Board.{trail_decision, phase_on, IsSeenTrail};
ghost use Rattle.user_propagator.specs.Board.{with_var, with_handed, with_wanted, lower};
ghost use Rattle.user_propagator.specs.Waiting.{requests as requests_of, waiting_of, first, rest};
ghost use Rattle.user_propagator.specs.Waiting.{desk_without, without_first};
ghost use Rattle.user_propagator.specs.Meaning.{CanPut, put_on, raise_on, cut_to};

use crate::notices::Notices;
use crate::phases;
use crate::request::Request;
use crate::requests::Requests;
use sat_model::lists::Lits;
use sat_model::literal::{Lit, Var};
use sat_model::memory::Memory;
use std::alloc::Global;
use std::marker::Model;

/// What a callback is lent: the seen trail to read, and a place for requests. Contracts see a
/// `Board`: the observed variables, the seen trail, the requests by kind and the phases.
#[derive(Drop)]
pub struct Desk {
    // The allocator for clauses that are handed.
    alloc: Global,
    // The observed variables and the seen trail.
    notices: Notices,
    // What was asked for and not yet done.
    requests: Requests,
    // At a variable's number its phase, if one was set; there is memory for each observed one.
    phases: Vec<Option<bool>>,
}

impl Model for Desk {
    ghost use Rattle.std.specs.Prelude.{◌≡◌, ◌<◌, ℕ, true, vec_capacity};
    ghost use Rattle.sat_terms.specs.Literal.{has};
    ghost use Rattle.user_propagator.specs.Board.{Board};

    ghost Value = { Board };

    ghost view = { λ d. record {
      observed = d.notices.observed;
      seen = d.notices.seen;
      level = d.notices.level;
      wanted = d.requests.wanted;
      handed = d.requests.handed;
      back = d.requests.back;
      phases = d.phases.items;
    } };

    ghost invariant = { λ d.
        (v : ℕ) → has d.notices.observed v ≡ true → v < vec_capacity d.phases };
}

// What a propagator reads, and what it leaves.
impl Desk {
    /// The truth of a literal on the seen trail. `None` exactly where its variable is not there.
    pub fn value(&self, lit: Lit) -> Option<bool>
        ensures { result ≡ trail_value self.now.seen lit }
    {
        self.notices.value(lit)
    }

    /// The current level.
    pub fn level(&self) -> u32
        ensures { result ≡ self.now.level }
    {
        self.notices.level()
    }

    /// The level at which a variable's literal was told. `None` exactly where it was not.
    pub fn level_of(&self, var: Var) -> Option<u32>
        ensures { result ≡ trail_level self.now.seen var }
    {
        match self.notices.entry_of(var) {
            Some(entry) => Some(entry.level),
            None => None,
        }
    }

    /// The place of a variable's literal on the seen trail, the oldest at 0. `None` exactly where
    /// it is not there.
    pub fn place_of(&self, var: Var) -> Option<u32>
        ensures { result ≡ trail_place self.now.seen var }
    {
        self.notices.place_of(var)
    }

    /// Whether a variable stands on the seen trail as a decision.
    pub fn is_decision(&self, var: Var) -> bool
        ensures { result ≡ trail_decision self.now.seen var }
    {
        match self.notices.entry_of(var) {
            Some(entry) => entry.decision,
            None => false,
        }
    }

    /// Whether a variable is observed.
    pub fn is_observed(&self, var: Var) -> bool
        ensures { result ≡ has self.now.observed var }
    {
        self.notices.is_observed(var)
    }

    /// The shape of every seen trail: its variables are observed, none stands twice, and the
    /// levels rise. The call does nothing.
    pub fn law_shape(&self)
        ensures { IsSeenTrail self.now.observed self.now.seen self.now.level }
    {
        self.notices.law_shape();
    }

    /// Leaves a clause that the solver is to add; the flag says whether it may be forgotten.
    /// After `Memory` nothing was left.
    pub fn hand(&mut self, clause: &[Lit], forgettable: bool) -> Result<(), Memory>
        ensures ok { OnOk result (self.new ≡ with_handed self.old clause.now forgettable) }
        ensures err { OnErr result (self.new ≡ self.old) }
    {
        let clause = Lits::from_slice(self.alloc, clause)?;
        self.requests.hand(clause, forgettable)?;
        Ok(())
    }

    /// Asks the solver to observe a variable. After `Memory` nothing was asked.
    pub fn observe(&mut self, var: Var) -> Result<(), Memory>
        ensures ok { OnOk result (self.new ≡ with_wanted self.old var) }
        ensures err { OnErr result (self.new ≡ self.old) }
    {
        self.requests.observe(var)?;
        Ok(())
    }

    /// Sets the phase of a literal's variable, which must be observed: it is to be decided so
    /// that the literal is true. Nothing else changes.
    pub fn phase(&mut self, lit: Lit)
        requires { has self.old.observed (var_of lit) ≡ true }
        ensures phases { (v : ℕ) → phase_on self.new.phases v
            ≡ (if v == var_of lit then Some lit else phase_on self.old.phases v) }
        ensures others { self.new ≡ record self.old { phases = self.new.phases } }
    {
        phases::set(&mut self.phases, lit);
    }

    /// Asks the solver to go back to a level, at most the current one. The least level that was
    /// asked for counts.
    pub fn back_to(&mut self, level: u32)
        requires { level ≤ self.old.level }
        ensures { self.new ≡ record self.old { back = lower self.old.back level } }
    {
        self.requests.back_to(level);
    }
}

// What the owner of a desk does with it. A propagator uses none of these.
impl Desk {
    /// A desk with nothing observed, an empty seen trail at the root, no request and no phase. It
    /// takes no memory.
    pub fn new(alloc: Global) -> Desk
        ensures { result ≡ empty_board }
    {
        Desk {
            alloc,
            notices: Notices::new(alloc),
            requests: Requests::new(alloc),
            phases: Vec::new(alloc),
        }
    }

    /// Whether no variable is observed, so that nothing has to be told but levels.
    pub fn is_idle(&self) -> bool
        ensures { IsTrue result ↔ (self.now.observed ≡ []) }
    {
        self.notices.is_idle()
    }

    /// Observes a variable, and takes the memory of its place and its phase. Nothing changes
    /// where it is observed already, nor after `Memory`.
    pub fn watch(&mut self, var: Var) -> Result<(), Memory>
        ensures ok { OnOk result (self.new
            ≡ record self.old { observed = with_var self.old.observed var }) }
        ensures err { OnErr result (self.new ≡ self.old) }
    {
        // The phase's memory comes first: `Notices::watch` changes nothing where it finds none.
        phases::reach(&mut self.phases, var)?;
        self.notices.watch(var)?;
        Ok(())
    }

    /// Appends a literal to the seen trail at the current level. Its variable must be observed,
    /// and not stand there already. It takes no memory.
    pub fn put(&mut self, lit: Lit, decision: bool)
        requires { CanPut self.old lit }
        ensures { self.new ≡ put_on self.old lit decision }
    {
        self.notices.put(lit, decision);
    }

    /// Opens a level. The current one must be below `MAX_VAR`.
    pub fn raise(&mut self)
        requires { self.old.level < max_var }
        ensures { self.new ≡ raise_on self.old }
    {
        self.notices.raise();
    }

    /// Cuts the seen trail back to a level, at most the current one. Requests stay.
    pub fn cut(&mut self, level: u32)
        requires { level ≤ self.old.level }
        ensures { self.new ≡ cut_to self.old level }
    {
        self.notices.cut(level);
    }

    /// The request that is to be taken first: variables before clauses before going back, each
    /// kind in the order of asking. `None` exactly where none is left.
    pub fn first_request(&self) -> Option<&Request>
        ensures first { option_copied result ≡ first (requests_of (waiting_of self.now)) }
        ensures left { is_some result ≡ is_some (first (requests_of (waiting_of self.now))) }
    {
        self.requests.first_request()
    }

    /// Takes that first request off. One must be left.
    pub fn drop_request(&mut self)
        requires { is_some (first (requests_of (waiting_of self.old))) ≡ true }
        ensures first { requests_of (waiting_of self.new)
            ≡ rest (requests_of (waiting_of self.old)) }
        ensures after { self.new ≡ desk_without self.old (without_first (waiting_of self.old)) }
    {
        self.requests.drop_first();
    }

    /// Takes the request to go back off, if there is one. The others stay.
    pub fn drop_back(&mut self)
        ensures { self.new ≡ record self.old { back = None } }
    {
        self.requests.drop_back();
    }

    /// The literal of a variable in the phase that was set last. `None` exactly where none was.
    pub fn phase_of(&self, var: Var) -> Option<Lit>
        ensures { result ≡ phase_on self.now.phases var }
    {
        phases::get(&self.phases, var)
    }
}
