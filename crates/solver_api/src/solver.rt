//! The solver.
//!
//! Its calls are those of IPASIR (Balyo, Biere, Iser, Sinz 2016), each with a refusal beside its
//! answers. What they do is one relation, `Step` (specs/Steps.antt), of the state before, the call,
//! its answer and the state after. The engine below stores normal forms and searches; what ties
//! them to what was given is `Stands` (specs/Standing.antt), which holds between any two calls.
ghost use Rattle.std.specs.Prelude.{◌≡◌, ◌≤◌, ◌∷◌, ◌++◌, [], true, IfOk, IfErr, OnOk, OnErr, Some, None, length};
ghost use Rattle.sat_terms.specs.Limits.{max_number, max_var};
ghost use Rattle.sat_terms.specs.Answer.{Within, IsModel, NoModel};
ghost use Rattle.search_engine.specs.Searching.{StoreWithin, Learns, CountsFrom};
ghost use Rattle.solver_api.specs.Finds.{Finds, IsCaused};
ghost use Rattle.solver_api.specs.Given.{GivenTrue};
ghost use Rattle.solver_api.specs.Held.{Takes};
ghost use Rattle.solver_api.specs.declared.givens.GivenPart.TheVariants as parts;
ghost use Rattle.solver_api.specs.declared.mode.Mode.TheVariants.{Input};
ghost use Rattle.solver_api.specs.Standing.{Stands};

use crate::calls::{Budget, Call, Outcome, Refusal, Reply, Stats};
use crate::engine::{Answer, Engine};
use crate::givens::Givens;
use crate::literals::{greatest_of, settles};
use crate::mode::{Failed, Mode};
use sat_model::lists::Lits;
use sat_model::literal::{Lit, MAX_LITERALS};
use sat_model::memory::Memory;
use sat_model::truth::lit_true;
use std::alloc::Global;
use std::mem;

/// A solver. It is given clauses, and answers queries under assumptions.
///
/// The calls and their refusals are those of an IPASIR solver, with these rules. An accepted `add`
/// or `assume` takes the answer of the last solve away. A refusal other than `Memory` changes
/// nothing. After `Memory` no answer is shown, and what was given is as before; a solve that was
/// refused has dropped its assumptions, and another call keeps them.
pub struct Solver {
    // The allocator for lists of assumptions, cores and models.
    alloc: Global,
    // The stored clauses and the search.
    engine: Engine,
    // The parts that were given, in order.
    given: Givens,
    // The assumptions for the next solve.
    pending: Lits,
    // The assumptions of the last solve that was not refused.
    queried: Lits,
    // How many literals accepted calls have handed over.
    taken: u64,
    // Whether the empty clause was given, or a core was empty.
    settled: bool,
    // The greatest variable that an accepted call has named, 0 if none.
    greatest: u32,
    // The answer that is shown.
    mode: Mode,
    // What the last solve counted.
    stats: Stats,
    // What ties the fields above together, between any two calls.
    ghost stands: { Stands engine given pending queried taken greatest settled mode },
}

impl Drop for Solver {
    fn drop(self) {
        let Solver {
            alloc: _alloc,
            engine: _engine,
            given: _given,
            pending: _pending,
            queried: _queried,
            taken: _taken,
            settled: _settled,
            greatest: _greatest,
            mode: _mode,
            stats: _stats,
        } = self;
    }
}

// Takes the answer of the last solve away. The memory of a model goes back to the engine.
fn hide(mode: &mut Mode, engine: &mut Engine)
    ensures mode { mode.new ≡ Input }
    ensures engine { engine.new ≡ engine.old }
{
    if let Mode::Sat(values) = mem::replace(mode, Mode::Input) {
        engine.take_back(values.into_values());
    }
}

// Gives a clause to the list and to the engine. After `Memory` both are as before.
fn give(alloc: Global, given: &mut Givens, engine: &mut Engine, lits: &[Lit]) -> Result<(), Memory>
    ensures given { OnOk result (given.new ≡ given.old ++ parts.Clause lits.now ∷ []) }
    ensures takes { OnOk result (Takes engine.old.store engine.new.store lits.now) }
    ensures declared { engine.new.declared ≡ engine.old.declared }
    ensures tally { engine.new.tally ≡ engine.old.tally }
    ensures kept { OnErr result (given.new ≡ given.old) }
    ensures err { OnErr result (engine.new ≡ engine.old) }
{
    let before = given.len();
    let clause = Lits::from_slice(alloc, lits)?;
    given.push(clause)?;
    match engine.add(lits) {
        Ok(()) => Ok(()),
        Err(Memory) => {
            given.truncate(before);
            Err(Memory)
        }
    }
}

// Searches, and notes what was counted, also where the search is refused.
fn search(
    alloc: Global,
    engine: &mut Engine,
    stats: &mut Stats,
    assumptions: &[Lit],
    vars: u32,
    budget: Budget,
) -> Result<Answer, Memory>
    requires few { vars ≤ max_var }
    requires within { StoreWithin vars engine.old.store }
    requires assumed { Within vars assumptions.now }
    requires declared { engine.old.declared ≤ vars }
    requires budget { budget.conflicts ≤ max_number }
    ensures finds { IfOk result (Finds engine.old.store assumptions.now vars budget.conflicts) }
    ensures caused { IfOk result (λ answer. IsCaused answer engine.new.tally) }
    ensures counted { CountsFrom engine.old.tally.total engine.new.tally }
    ensures stats { stats.new ≡ record { conflicts = engine.new.tally.count; callbacks = 0; removed = 0; restored = 0 } }
    ensures learns { Learns engine.old.store engine.new.store }
    ensures within { StoreWithin vars engine.new.store }
    ensures declared { engine.new.declared ≤ vars }
{
    let found = engine.solve(alloc, assumptions, vars, budget);
    *stats = Stats::of_conflicts(engine.conflicts());
    found
}

impl Solver {
    ghost use Rattle.solver_api.specs.declared.calls.Call.TheVariants as calls;
    ghost use Rattle.solver_api.specs.Steps.{Step, InRange, IsCounted, CountsSolve, Counts, no_stats, state, unused, done, solved, model_of, core_of, val_of, failed_of};

    /// A solver that was given nothing. It keeps the allocator.
    pub fn new(alloc: Global) -> Result<Solver, Memory>
        ensures unused { IfOk result (λ s. state s ≡ unused) }
        ensures stats { IfOk result (λ s. s.stats ≡ no_stats) }
    {
        Ok(Solver {
            alloc,
            engine: Engine::new(alloc),
            given: Givens::new(alloc),
            pending: Lits::new(alloc),
            queried: Lits::new(alloc),
            taken: 0,
            settled: false,
            greatest: 0,
            mode: Mode::Input,
            stats: Stats::of_conflicts(0),
        })
    }

    /// Gives the clause of these literals, which may repeat and be opposite. The empty clause
    /// settles the solver.
    ///
    /// `TooManyLiterals(c)` exactly where `c`, the literals handed over so far and these, is above
    /// 2^27; nothing changes. After `Memory` no answer is shown, and all else is as before.
    pub fn add(&mut self, lits: &[Lit]) -> Result<(), Refusal>
        ensures step { Step (state self.old) (calls.Add lits.now) (done result) (state self.new) }
        ensures stats { self.new.stats ≡ self.old.stats }
    {
        let count = lits.len() as u64;
        if count > MAX_LITERALS - self.taken {
            return Err(Refusal::TooManyLiterals(self.taken + count));
        }
        hide(&mut self.mode, &mut self.engine);
        give(self.alloc, &mut self.given, &mut self.engine, lits)?;
        self.greatest = greatest_of(self.greatest, lits);
        self.taken += count;
        self.settled = settles(self.settled, lits);
        Ok(())
    }

    /// Assumes the literal for the next solve.
    ///
    /// `TooManyLiterals(c)` exactly where `c`, the literals handed over so far and this one, is
    /// above 2^27; nothing changes. After `Memory` no answer is shown, and all else is as before.
    pub fn assume(&mut self, lit: Lit) -> Result<(), Refusal>
        ensures step { Step (state self.old) (calls.Assume lit) (done result) (state self.new) }
        ensures stats { self.new.stats ≡ self.old.stats }
    {
        if self.taken >= MAX_LITERALS {
            return Err(Refusal::TooManyLiterals(self.taken + 1));
        }
        hide(&mut self.mode, &mut self.engine);
        self.pending.push(lit)?;
        self.greatest = self.greatest.max(lit.var().index());
        self.taken += 1;
        Ok(())
    }

    /// Looks for a model of what was given and of the pending assumptions. `Sat` shows the model,
    /// and `Unsat` shows a core: some of the assumptions, none twice, that no model of what was
    /// given makes true. An empty core says that what was given has no model, and it settles the
    /// solver: every later query is `Unsat` with the empty core at once. `Unknown` says that the
    /// budget of conflicts, which is below 2^62, was used up before an answer was found; none is
    /// shown then. Whatever is answered, the pending assumptions are dropped.
    ///
    /// The numbers are at most 2^62. A budget of 2^62 is none. `limit` bounds the steps of each
    /// pass of simplification; no pass runs yet, so it has no effect, and nor has the budget of
    /// callbacks. The one refusal is `Memory`: no answer is shown.
    pub fn solve(&mut self, budget: Budget, limit: u64) -> Result<Outcome, Refusal>
        requires conflicts { budget.conflicts ≤ max_number }
        requires callbacks { budget.callbacks ≤ max_number }
        requires limit { limit ≤ max_number }
        ensures step { Step (state self.old) (calls.Solve budget limit) (solved result) (state self.new) }
        ensures counted { IfOk result (λ outcome. IsCounted outcome self.new) }
        ensures counts { CountsSolve self.old self.new }
    {
        hide(&mut self.mode, &mut self.engine);
        self.stats = Stats::of_conflicts(0);
        let pending = mem::replace(&mut self.pending, Lits::new(self.alloc));
        if self.settled {
            // Nothing is counted here, and the total is in its range.
            self.engine.law_total();
            self.queried = pending;
            self.mode = Mode::Unsat(Failed::empty(self.alloc));
            return Ok(Outcome::Unsat);
        }
        let answer = search(
            self.alloc,
            &mut self.engine,
            &mut self.stats,
            pending.as_slice(),
            self.greatest,
            budget,
        )?;
        match answer {
            Answer::Model(values) => {
                self.queried = pending;
                self.mode = Mode::Sat(values);
                Ok(Outcome::Sat)
            }
            Answer::Core(core) => {
                self.queried = pending;
                self.settled = settles(self.settled, core.as_slice());
                self.mode = Mode::Unsat(core);
                Ok(Outcome::Unsat)
            }
            Answer::Spent(spent) => {
                self.queried = pending;
                Ok(Outcome::Unknown(spent))
            }
        }
    }

    /// Does the named call: `add`, `assume` or `solve`. Its condition and its refusals are those of
    /// that call.
    pub fn step(&mut self, call: &Call) -> Result<Reply, Refusal>
        requires { InRange call.now }
        ensures step { Step (state self.old) call.now result (state self.new) }
        ensures counts { Counts call.now self.old self.new }
    {
        match call {
            Call::Add(lits) => match self.add(lits.as_slice()) {
                Ok(()) => Ok(Reply::Done),
                Err(why) => Err(why),
            },
            Call::Assume(lit) => match self.assume(*lit) {
                Ok(()) => Ok(Reply::Done),
                Err(why) => Err(why),
            },
            Call::Solve(budget, limit) => match self.solve(*budget, *limit) {
                Ok(outcome) => Ok(Reply::Solved(outcome)),
                Err(why) => Err(why),
            },
        }
    }

    /// Whether the literal is true in the model that the last solve found. `NotSat` exactly where
    /// no model is shown.
    pub fn val(&self, lit: Lit) -> Result<bool, Refusal>
        ensures { result ≡ val_of (model_of (state self.now).mode) lit }
    {
        Ok(lit_true(self.model()?, lit))
    }

    /// Whether the literal stands in the core that the last solve found. `NotUnsat` exactly where
    /// no core is shown.
    pub fn failed(&self, lit: Lit) -> Result<bool, Refusal>
        ensures { result ≡ failed_of (core_of (state self.now).mode) lit }
    {
        match &self.mode {
            Mode::Unsat(core) => Ok(core.holds(lit)),
            Mode::Input | Mode::Sat(_) => Err(Refusal::NotUnsat),
        }
    }

    /// The model that the last solve found. `NotSat` exactly where no model is shown.
    pub fn model(&self) -> Result<&[bool], Refusal>
        ensures shown { IfOk result (λ m. model_of (state self.now).mode ≡ Some m.now) }
        ensures good { IfOk result (λ m. IsModel (GivenTrue (state self.now).given) (state self.now).queried (state self.now).greatest m.now) }
        ensures few { IfOk result (λ m. length m.now ≤ max_var) }
        ensures none { IfErr result (λ e. (e ≡ Refusal.NotSat) × (model_of (state self.now).mode ≡ None)) }
    {
        match &self.mode {
            Mode::Sat(values) => Ok(values.as_slice()),
            Mode::Input | Mode::Unsat(_) => Err(Refusal::NotSat),
        }
    }

    /// The core that the last solve found. `NotUnsat` exactly where no core is shown.
    pub fn core(&self) -> Result<&[Lit], Refusal>
        ensures shown { IfOk result (λ c. core_of (state self.now).mode ≡ Some c.now) }
        ensures good { IfOk result (λ c. NoModel (GivenTrue (state self.now).given) c.now) }
        ensures none { IfErr result (λ e. (e ≡ Refusal.NotUnsat) × (core_of (state self.now).mode ≡ None)) }
    {
        match &self.mode {
            Mode::Unsat(core) => Ok(core.as_slice()),
            Mode::Input | Mode::Sat(_) => Err(Refusal::NotUnsat),
        }
    }

    /// What the last solve counted, refused or not; all 0 before the first. No other call changes
    /// it. `callbacks`, `removed` and `restored` are 0 for now, and so is all of it for a query of
    /// a settled solver.
    pub fn stats(&self) -> Stats
        ensures { result ≡ self.now.stats }
    {
        self.stats
    }

    /// What was given, in order.
    pub fn given(&self) -> &Givens
        ensures { result.now ≡ (state self.now).given }
    {
        &self.given
    }

    /// The assumptions for the next solve, in order.
    pub fn assumed(&self) -> &[Lit]
        ensures { result.now ≡ (state self.now).pending }
    {
        self.pending.as_slice()
    }

    /// The assumptions of the last solve that was not refused, in order.
    pub fn queried(&self) -> &[Lit]
        ensures { result.now ≡ (state self.now).queried }
    {
        self.queried.as_slice()
    }

    /// How many literals accepted calls have handed over.
    pub fn taken(&self) -> u64
        ensures count { result ≡ (state self.now).taken }
        ensures few { result ≤ MAX_LITERALS }
    {
        self.taken
    }
}
