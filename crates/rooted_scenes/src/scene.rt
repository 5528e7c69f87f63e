//! A store and a trail that is rooted in it, built step by step.
//!
//! Literals are written as DIMACS writes them. A step that may not be taken fails the test.
ghost use Rattle.std.specs.Prelude.{◌≡◌, ◌≢◌, ◌≤◌, ◌<◌, ℕ, true, [], map, IfOk, OnOk, OnErr, IsSome, None};
ghost use Rattle.sat_terms.specs.Literal.{var_of, code_of};
ghost use Rattle.clause_store.specs.Stored.{slot, slot_lits, Fills};
ghost use Rattle.clause_store.specs.declared.stored.Keep.TheVariants.{Firm};
ghost use Rattle.trail_state.specs.Trail.{value_on};
ghost use Rattle.trail_state.specs.Clauses.{FalseOn, IsUnit};
ghost use Rattle.rooted_trails.specs.Rooted.{Rooted};
ghost use Rattle.rooted_scenes.specs.Staged.{IsNamed, Decides, Assigns};

use clause_store::store::Store;
use clause_store::stored::Keep;
use normal_form::forms::is_normal;
use sat_model::lists::ClauseId;
use sat_model::literal::{Lit, Var};
use std::alloc::Global;
use std::marker::Model;
use std::test::Fail;
use trail_state::reason::Reason;
use trail_state::trail::Trail;

/// A store and a trail on which each implied literal has its reason. Contracts see both.
#[derive(Drop)]
pub struct Scene {
    // The allocator for the literals of clauses.
    alloc: Global,
    // The clauses.
    store: Store,
    // The trail, whose implied literals have their reasons in the store.
    trail: Trail,
}

impl Model for Scene {
    ghost use Rattle.rooted_scenes.specs.Staged.{Staged};
    ghost use Rattle.rooted_trails.specs.Rooted.{Rooted};

    ghost Value = { Staged };

    ghost view = { λ s. record { store = s.store; trail = s.trail } };

    ghost invariant = { λ s. Rooted s.store s.trail.steps };
}

/// The literal of a DIMACS number.
pub fn lit(number: i32) -> Result<Lit, Fail>
    ensures { IfOk result (λ lit. lit ≡ code_of number) }
{
    match Lit::new(number) {
        Some(lit) => Ok(lit),
        None => Err("no literal")?,
    }
}

/// The literals of DIMACS numbers.
pub fn lits(alloc: Global, numbers: &[i32]) -> Result<Vec<Lit>, Fail>
    ensures { IfOk result (λ lits. lits.items ≡ map code_of numbers.now) }
{
    let mut lits = Vec::new(alloc);
    for number in numbers {
        lits.push(lit(*number)?)?;
    }
    Ok(lits)
}

/// The clause of a number: those of the list are numbered from 1 on.
pub fn named(ids: &[ClauseId], number: usize) -> Result<ClauseId, Fail>
    ensures { IfOk result (λ id. IsNamed ids.now number id) }
{
    for (k, id) in ids.iter().enumerate() {
        if k + 1 == number {
            return Ok(*id);
        }
    }
    Err("no such clause")?
}

// Whether the variable of a literal is declared and has no value.
fn is_open(trail: &Trail, lit: Lit) -> bool
    ensures { result ≡ true → (var_of lit ≤ trail.now.declared) × (value_on trail.now.steps lit ≡ None) }
{
    lit.var().index() <= trail.declared() && trail.value(lit).is_none()
}

// Whether a clause is unit on a trail, with this literal left.
fn is_unit(trail: &Trail, clause: &[Lit], left: Lit) -> bool
    ensures { result ≡ true → IsUnit trail.now.steps clause.now left }
{
    if !clause.contains(&left) || trail.value(left).is_some() {
        return false;
    }
    for lit in clause {
        if *lit != left && trail.value(*lit) != Some(false) {
            return false;
        }
    }
    true
}

// Whether a clause implies a literal, whose variable is declared.
fn is_implied(store: &Store, trail: &Trail, lit: Lit, id: ClauseId) -> bool
    ensures live { result ≡ true → IsSome (slot store.now id) }
    ensures unit { result ≡ true → IsUnit trail.now.steps (slot_lits (slot store.now id)) lit }
    ensures declared { result ≡ true → (var_of lit ≤ trail.now.declared) × (value_on trail.now.steps lit ≡ None) }
{
    store.is_live(id) && is_open(trail, lit) && is_unit(trail, store.get(id), lit)
}

/// Whether each literal of a clause is false on a trail.
pub fn is_false(trail: &Trail, clause: &[Lit]) -> bool
    ensures { result ≡ true → FalseOn trail.now.steps clause.now }
{
    for lit in clause {
        if trail.value(*lit) != Some(false) {
            return false;
        }
    }
    true
}

impl Scene {
    /// No clause, and the variables up to this one declared.
    pub fn new(alloc: Global, vars: u32) -> Result<Scene, Fail>
        ensures store { IfOk result (λ scene. scene.store ≡ []) }
        ensures steps { IfOk result (λ scene. scene.trail.steps ≡ []) }
        ensures level { IfOk result (λ scene. scene.trail.level ≡ 0) }
        ensures declared { IfOk result (λ scene. scene.trail.declared ≡ vars) }
    {
        let last = Var::new(vars).ok_or("no variable")?;
        let mut trail = Trail::new(alloc);
        trail.declare(last)?;
        Ok(Scene {
            alloc,
            store: Store::new(alloc),
            trail,
        })
    }

    /// The clauses.
    pub fn store(&self) -> &Store
        ensures { result.now ≡ self.now.store }
    {
        &self.store
    }

    /// The trail.
    pub fn trail(&self) -> &Trail
        ensures { result.now ≡ self.now.trail }
    {
        &self.trail
    }

    /// The trail is rooted in the store. The call does nothing.
    pub fn law_rooted(&self)
        ensures { Rooted self.now.store self.now.trail.steps }
    {
        let _store = &self.store;
    }

    /// Adds a firm clause, which must be in normal form. The trail stays. After an error the clauses
    /// are as before.
    pub fn add(&mut self, numbers: &[i32]) -> Result<ClauseId, Fail>
        ensures ok { IfOk result (λ id. Fills self.old.store self.new.store id
            (record { lits = map code_of numbers.now; keep = Firm; glue = 0 })) }
        ensures err { OnErr result (self.new.store ≡ self.old.store) }
        ensures trail { self.new.trail ≡ self.old.trail }
    {
        let clause = lits(self.alloc, numbers)?;
        if !is_normal(clause.as_slice()) {
            Err("not in normal form")?;
        }
        Ok(self.store.add(clause.as_slice(), Keep::Firm, 0)?)
    }

    /// Decides a literal, which must be declared and have no value. After an error nothing changed.
    pub fn decide(&mut self, number: i32) -> Result<(), Fail>
        ensures ok { OnOk result (Decides self.old.trail self.new.trail (code_of number)) }
        ensures err { OnErr result (self.new.trail ≡ self.old.trail) }
        ensures store { self.new.store ≡ self.old.store }
    {
        let lit = lit(number)?;
        if !is_open(&self.trail, lit) {
            Err("it has a value, or is not declared")?;
        }
        self.trail.decide(lit);
        Ok(())
    }

    /// Assigns a literal that a clause implies, with that clause as its reason. After an error nothing
    /// changed.
    pub fn imply(&mut self, number: i32, reason: ClauseId) -> Result<(), Fail>
        ensures ok { OnOk result (Assigns self.old.trail self.new.trail (code_of number) reason) }
        ensures err { OnErr result (self.new.trail ≡ self.old.trail) }
        ensures store { self.new.store ≡ self.old.store }
    {
        let lit = lit(number)?;
        if is_implied(&self.store, &self.trail, lit, reason) {
            self.trail.assign(lit, Reason::Clause(reason));
            return Ok(());
        }
        Err("the clause does not imply it")?
    }

    /// Puts a literal on the trail: decided where the number of its reason is 0, and else implied by
    /// the clause of that number. After an error nothing changed.
    pub fn put(&mut self, ids: &[ClauseId], number: i32, reason: usize) -> Result<(), Fail>
        ensures decided { reason ≡ 0 → OnOk result (Decides self.old.trail self.new.trail
            (code_of number)) }
        ensures implied { 0 < reason → OnOk result ((id : ℕ) × IsNamed ids.now reason id
            × Assigns self.old.trail self.new.trail (code_of number) id) }
        ensures err { OnErr result (self.new.trail ≡ self.old.trail) }
        ensures store { self.new.store ≡ self.old.store }
    {
        if reason == 0 {
            return self.decide(number);
        }
        let id = named(ids, reason)?;
        self.imply(number, id)
    }
}
