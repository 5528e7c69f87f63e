//! The engine of a solver: the clauses that it stores, and the search among them.
//!
//! It puts clauses into normal form, keeps one core from query to query, and lays it to rest after
//! each search, whatever that answered. A model goes out with its memory, and comes back with the
//! next query.
ghost use Rattle.std.specs.Prelude.{◌≡◌, ◌≤◌, [], IfOk, OnOk, OnErr};
ghost use Rattle.sat_terms.specs.Limits.{max_number, max_var};
ghost use Rattle.sat_terms.specs.Answer.{Within};
ghost use Rattle.search_engine.specs.Searching.{clauses, StoreWithin, Learns, IsStanding, IsAtRest, CountsFrom};
ghost use Rattle.solver_api.specs.Held.{Takes};
ghost use Rattle.solver_api.specs.Finds.{Finds, IsCaused};

use crate::mode::{Failed, Values};
use normal_form::forms::{has_opposites, is_normal, sort_and_dedup};
use sat_model::literal::Lit;
use sat_model::memory::Memory;
use search_engine::search::search;
use search_engine::state::{Budget, Core, Found, Spent};
use std::alloc::Global;
use std::marker::Model;
use std::mem;
use theory_bridge::bridge::Bridge;
use user_propagator::nothing::NoTheory;
use user_propagator::theory::Theory;

// What a query finds.
#[derive(Drop)]
pub(crate) enum Answer {
    // A model.
    Model(Values),
    // A core of the assumptions.
    Core(Failed),
    // The budget was used up before an answer was found.
    Spent(Spent),
}

// The clauses that a solver stores, and the state of its search. Contracts see the stored clauses,
// the greatest declared variable, and the count of the conflicts of the last search.
#[derive(Drop)]
pub(crate) struct Engine {
    // The clauses and the search. It is at rest.
    core: Core,
    // Where clauses are sorted.
    scratch: Vec<Lit>,
}

impl Model for Engine {
    ghost use Rattle.search_engine.specs.Searching.{clauses, IsAtRest};
    ghost use Rattle.solver_api.specs.Held.{Held};

    ghost Value = { Held };

    ghost view = { λ e. record { store = clauses e.core; declared = e.core.order.declared; tally = e.core.tally } };

    ghost invariant = { λ e. IsAtRest e.core };
}

// Searches a core at rest, which stands then. The tally begins anew.
fn find(
    alloc: Global,
    core: &mut Core,
    assumptions: &[Lit],
    vars: u32,
    budget: Budget,
) -> Result<Answer, Memory>
    requires few { vars ≤ max_var }
    requires rest { IsAtRest core.old }
    requires within { StoreWithin vars (clauses core.old) }
    requires assumed { Within vars assumptions.now }
    requires declared { core.old.order.declared ≤ vars }
    requires budget { budget.conflicts ≤ max_number }
    ensures finds { IfOk result (Finds (clauses core.old) assumptions.now vars budget.conflicts) }
    ensures caused { IfOk result (λ answer. IsCaused answer core.new.tally) }
    ensures counted { CountsFrom core.old.tally.total core.new.tally }
    ensures learns { Learns (clauses core.old) (clauses core.new) }
    ensures within { StoreWithin vars (clauses core.new) }
    ensures declared { core.new.order.declared ≤ vars }
    ensures standing { IsStanding core.new }
{
    // The total is asked for its range alone: the rise is counted from a number up to 2^62.
    core.tally.total();
    core.tally.start(budget.conflicts);
    core.resume(vars)?;
    // No propagator is connected.
    let theory: Box<dyn Theory> = Box::new(alloc, NoTheory::new())?;
    let mut bridge = Bridge::new(alloc, theory);
    match search(alloc, core, &mut bridge, assumptions, budget)? {
        Found::Sat => {
            let model = mem::replace(&mut core.model, Vec::new(alloc));
            Ok(Answer::Model(Values::new(model)))
        }
        Found::Unsat(core) => {
            let failed = Failed::new(alloc, core)?;
            Ok(Answer::Core(failed))
        }
        Found::Spent(spent) => Ok(Answer::Spent(spent)),
    }
}

impl Engine {
    // An engine with no clause and no variable. It takes no memory.
    pub(crate) fn new(alloc: Global) -> Engine
        ensures store { result.store ≡ [] }
        ensures declared { result.declared ≡ 0 }
    {
        Engine {
            core: Core::new(alloc),
            scratch: Vec::new(alloc),
        }
    }

    // Stores the normal form of a clause, and nothing where the clause is a tautology. After
    // `Memory` the engine is as before.
    pub(crate) fn add(&mut self, lits: &[Lit]) -> Result<(), Memory>
        ensures takes { OnOk result (Takes self.old.store self.new.store lits.now) }
        ensures declared { self.new.declared ≡ self.old.declared }
        ensures tally { self.new.tally ≡ self.old.tally }
        ensures err { OnErr result (self.new ≡ self.old) }
    {
        // A clause that is normal already is not copied.
        if is_normal(lits) {
            self.core.add(lits)?;
            return Ok(());
        }
        self.scratch.clear();
        self.scratch.extend_from_slice(lits)?;
        sort_and_dedup(&mut self.scratch);
        let tautology = has_opposites(self.scratch.as_slice());
        if !tautology {
            self.core.add(self.scratch.as_slice())?;
        }
        Ok(())
    }

    // Takes the memory of a model back, for the next one.
    pub(crate) fn take_back(&mut self, model: Vec<bool>)
        ensures { self.new ≡ self.old }
    {
        self.core.model = model;
    }

    // Totals stop at 2^62. The call does nothing.
    pub(crate) fn law_total(&self)
        ensures { self.now.tally.total ≤ max_number }
    {
        // The total is asked for its range alone.
        self.core.tally.total();
    }

    // How many conflicts the last search counted.
    pub(crate) fn conflicts(&self) -> u64
        ensures { result ≡ self.now.tally.count }
    {
        self.core.tally.count()
    }

    // Looks for a model of the stored clauses and of the assumptions, over the variables 1 to
    // `vars`: those of the clauses and of the assumptions must be among these, and no more may be
    // declared. `Spent` comes only where as many conflicts were counted in this call as the budget
    // says. Whatever is answered, `Memory` too, the firm clauses stay, all others follow from the
    // clauses before, and the count of the conflicts is the rise of the total.
    pub(crate) fn solve(
        &mut self,
        alloc: Global,
        assumptions: &[Lit],
        vars: u32,
        budget: Budget,
    ) -> Result<Answer, Memory>
        requires few { vars ≤ max_var }
        requires within { StoreWithin vars self.old.store }
        requires assumed { Within vars assumptions.now }
        requires declared { self.old.declared ≤ vars }
        requires budget { budget.conflicts ≤ max_number }
        ensures finds { IfOk result (Finds self.old.store assumptions.now vars budget.conflicts) }
        ensures caused { IfOk result (λ answer. IsCaused answer self.new.tally) }
        ensures counted { CountsFrom self.old.tally.total self.new.tally }
        ensures learns { Learns self.old.store self.new.store }
        ensures within { StoreWithin vars self.new.store }
        ensures declared { self.new.declared ≤ vars }
    {
        let found = find(alloc, &mut self.core, assumptions, vars, budget);
        self.core.pause();
        found
    }
}
