//! The trail: the literals that have a value, in the order in which they got it.
//!
//! A search decides a literal, takes what the clauses imply, decides the next, and goes back when a clause is false. What it
//! needs of the trail on the way is the value of a literal (at every literal that propagation looks at), the level, the place
//! and the reason of a variable (at every literal that analysis resolves), and the literals in their order, since the trail is
//! also the queue of propagation.
//!
//! So there are three tables. The list of literals has four bytes a literal, and is lent as it is. A table by variable has the
//! place, the level and the clause of each variable's literal side by side, so that analysis finds all three at once. And a table
//! by literal has the value in one byte. With the list, the level and the clause a step takes twelve bytes.
//!
//! A decision is told by its place alone: a short table has the place at which each level starts, and the literal at that place
//! was decided. It also tells at once how far going back goes. Literals that an external propagator implied are flagged, up to the
//! last one, so that a search without one keeps no flags.
//!
//! An undone variable keeps its level and clause in the table, where its place says that they are void. `declare` alone takes
//! memory, for all that can come: a variable stands on the trail once. The tables by variable and by literal are those of MiniSat (Eén
//! and Sörensson, 2003), whose trail has the place at which each level starts too.
ghost use Rattle.std.specs.Prelude.{◌≡◌, ◌≢◌, ◌<◌, ◌≤◌, ◌+◌, ◌^◌, ◌-◌, ℕ, true, false, [], ◌∷◌, ◌++◌, length, max, replicate, None, OnOk, OnErr, IsOk, slice_index_or, vec_capacity};
ghost use Rattle.sat_terms.specs.Literal.{neg, var_of};
ghost use Rattle.trail_state.specs.Trail.{step, lits_of, true_on, value_on, level_on, reason_on, place_on, level_after, IsTrail, IsStart, IsBack, HasRoom};
ghost use Rattle.trail_state.specs.Table.{empty_entry, opens, start_by, reason_by, is_decision, is_theory, starts_after, flags_after};
ghost use Rattle.trail_state.specs.Rank.{rank};
ghost use Rattle.trail_state.specs.declared.reason.Reason.TheVariants.{Decision};

use crate::mark::Mark;
use crate::reason::Reason;
use sat_model::lists::ClauseId;
use sat_model::literal::{Lit, Var};
use sat_model::memory::Memory;
use std::alloc::Global;
use std::marker::Model;

/// A literal of the trail, the level at which it stands, and why. Contracts see a trail as the list of its steps.
#[derive(Clone, Copy, Debug, PartialEq, Eq)]
pub struct Step {
    /// The literal.
    pub lit: Lit,
    /// How many decisions stand up to it, itself among them if it was decided.
    pub level: u32,
    /// Why it is there.
    pub reason: Reason,
}

// What the table has for a variable.
#[derive(Clone, Copy)]
pub(crate) struct Entry {
    // One more than the place of its literal, or 0 where it has no value.
    pub(crate) place: u32,
    // The level at which the literal stands.
    pub(crate) level: u32,
    // The clause that implied it, if a clause did.
    pub(crate) clause: ClauseId,
}

/// The literals that have a value, oldest first, each with its level and its reason, over declared variables. Contracts see
/// its steps, its level and the number of declared variables. `declare` alone takes memory.
#[derive(Drop)]
pub struct Trail {
    // The literals, oldest first.
    lits: Vec<Lit>,
    // The place at which each level above the root starts.
    starts: Vec<u32>,
    // Whether the literal at a place was implied by an external propagator; none past the end was.
    from_theory: Vec<bool>,
    // What is known of each variable; the variable `v` stands at `v - 1`.
    entries: Vec<Entry>,
    // The value of each literal, at its code.
    values: Vec<Mark>,
}

impl Model for Trail {
    ghost use Rattle.std.specs.Prelude.{length, vec_capacity};
    ghost use Rattle.trail_state.specs.Trail.{Trace};
    ghost use Rattle.trail_state.specs.Table.{steps_of, IsHeld, IsValued};

    ghost Value = { Trace };

    ghost view = { λ t. record { steps = steps_of t.lits.items t.entries.items t.from_theory.items t.starts.items; level = length t.starts.items; declared = length t.entries.items } };

    ghost invariant = { λ t. IsHeld t.lits.items t.entries.items t.from_theory.items t.starts.items (vec_capacity t.lits) (vec_capacity t.from_theory) (vec_capacity t.starts) × IsValued t.values.items (length t.entries.items) (steps_of t.lits.items t.entries.items t.from_theory.items t.starts.items) };
}

impl Trail {
    /// The empty trail, with nothing declared. It takes no memory.
    pub fn new(alloc: Global) -> Trail
        ensures steps { result.steps ≡ [] }
        ensures level { result.level ≡ 0 }
        ensures declared { result.declared ≡ 0 }
    {
        Trail {
            lits: Vec::new(alloc),
            starts: Vec::new(alloc),
            from_theory: Vec::new(alloc),
            entries: Vec::new(alloc),
            values: Vec::new(alloc),
        }
    }

    /// Declares every variable up to `var`, and takes the memory of all later changes. After `Memory` nothing changed. Where
    /// `var` is declared already it takes none, and does nothing.
    pub fn declare(&mut self, var: Var) -> Result<(), Memory>
        ensures steps { self.new.steps ≡ self.old.steps }
        ensures level { self.new.level ≡ self.old.level }
        ensures ok { OnOk result (self.new.declared ≡ max self.old.declared var) }
        ensures err { OnErr result (self.new.declared ≡ self.old.declared) }
        ensures known { var ≤ self.old.declared → IsOk result }
    {
        let count = var.index() as usize;
        if count <= self.entries.len() {
            return Ok(());
        }
        self.lits.reserve(count - self.lits.len())?;
        self.from_theory.reserve(count - self.from_theory.len())?;
        self.starts.reserve(count - self.starts.len())?;
        self.values.resize(2 * count + 2, Mark::open())?;
        self.entries.resize(count, no_entry())?;
        Ok(())
    }

    /// The greatest declared variable, 0 if none is.
    pub fn declared(&self) -> u32
        ensures { result ≡ self.now.declared }
    {
        self.entries.len() as u32
    }

    /// The shape of every trail. The call does nothing.
    pub fn law_shape(&self)
        ensures { IsTrail self.now.steps self.now.level }
    {
        let _ = &self.lits;
    }

    /// No more literals have a value than variables are declared. The call does nothing.
    pub fn law_room(&self)
        ensures { HasRoom self.now }
    {
        let _ = &self.lits;
    }

    /// The rank is a number of as many digits as variables are declared. The call does nothing.
    pub fn law_rank(&self)
        ensures { rank self.now.declared self.now.steps < 3 ^ self.now.declared }
    {
        let _ = &self.lits;
    }

    /// The literals, oldest first.
    pub fn lits(&self) -> &[Lit]
        ensures { result.now ≡ lits_of self.now.steps }
    {
        self.lits.as_slice()
    }

    /// The current level: the number of decisions.
    pub fn level(&self) -> u32
        ensures { result ≡ self.now.level }
    {
        self.starts.len() as u32
    }

    /// Whether a literal is true. `None` exactly where its variable is unassigned or undeclared.
    pub fn value(&self, lit: Lit) -> Option<bool>
        ensures { result ≡ value_on self.now.steps lit }
    {
        let code = lit.code() as usize;
        if code < self.values.len() {
            self.values[code].get()
        } else {
            None
        }
    }

    /// Whether a literal of a declared variable is true: one read of the table.
    pub fn is_true(&self, lit: Lit) -> bool
        requires { var_of lit ≤ self.now.declared }
        ensures { result ≡ true_on self.now.steps lit }
    {
        self.values[lit.code() as usize].is_true()
    }

    /// Whether a literal of a declared variable is false: one read of the table.
    pub fn is_false(&self, lit: Lit) -> bool
        requires { var_of lit ≤ self.now.declared }
        ensures { result ≡ true_on self.now.steps (neg lit) }
    {
        self.values[lit.code() as usize].is_false()
    }

    /// The level of a variable. `None` exactly where it is unassigned or undeclared.
    pub fn level_of(&self, var: Var) -> Option<u32>
        ensures { result ≡ level_on self.now.steps var }
    {
        let at = var.index() as usize - 1;
        if at >= self.entries.len() {
            return None;
        }
        let entry = self.entries[at];
        if entry.place == 0 {
            return None;
        }
        Some(entry.level)
    }

    /// The place of a variable's literal, the oldest at 0. `None` exactly where it is unassigned or undeclared.
    pub fn place_of(&self, var: Var) -> Option<u32>
        ensures { result ≡ place_on self.now.steps var }
    {
        let at = var.index() as usize - 1;
        if at >= self.entries.len() {
            return None;
        }
        let place = self.entries[at].place;
        if place == 0 {
            return None;
        }
        Some(place - 1)
    }

    /// Why a variable has its value. `None` exactly where it is unassigned or undeclared.
    pub fn reason_of(&self, var: Var) -> Option<Reason>
        ensures { result ≡ reason_on self.now.steps var }
    {
        let place = self.place_of(var)?;
        Some(self.reason_at(place))
    }

    /// What stands at a place.
    pub fn step_at(&self, place: u32) -> Step
        requires { place < length self.now.steps }
        ensures { result ≡ step self.now.steps place }
    {
        let reason = self.reason_at(place);
        let lit = self.lits[place as usize];
        Step {
            lit,
            level: self.entries[lit.var().index() as usize - 1].level,
            reason,
        }
    }

    /// The level of the literal at a place.
    pub fn level_at(&self, place: u32) -> u32
        requires { place < length self.now.steps }
        ensures { result ≡ (step self.now.steps place).level }
    {
        let lit = self.lits[place as usize];
        self.entries[lit.var().index() as usize - 1].level
    }

    /// Why the literal at a place has its value.
    pub fn reason_at(&self, place: u32) -> Reason
        requires { place < length self.now.steps }
        ensures { result ≡ (step self.now.steps place).reason }
    {
        let lit = self.lits[place as usize];
        let entry = self.entries[lit.var().index() as usize - 1];
        if is_start(self.starts.as_slice(), entry.level, place) {
            Reason::Decision
        } else if is_flagged(self.from_theory.as_slice(), place) {
            Reason::Theory
        } else {
            Reason::Clause(entry.clause)
        }
    }

    /// The place at which a level starts: what stands before it is below the level, and the rest is not. The root starts at 0, and a
    /// level above the current one at the end of the trail. So going back to a level takes off what `start_of(level + 1)` and
    /// the places behind it have.
    pub fn start_of(&self, level: u32) -> u32
        ensures { IsStart self.now.steps level result }
    {
        start_in(self.starts.as_slice(), level, self.lits.len() as u32)
    }

    /// Appends an implied literal at the current level. Its variable must be declared and unassigned, and the reason no
    /// `Decision`.
    pub fn assign(&mut self, lit: Lit, reason: Reason)
        requires declared { var_of lit ≤ self.old.declared }
        requires unassigned { value_on self.old.steps lit ≡ None }
        requires implied { reason ≢ Decision }
        ensures steps { self.new.steps ≡ self.old.steps ++ record { lit = lit; level = self.old.level; reason = reason } ∷ [] }
        ensures level { self.new.level ≡ self.old.level }
        ensures declared { self.new.declared ≡ self.old.declared }
        ensures rises { rank self.old.declared self.old.steps < rank self.new.declared self.new.steps }
    {
        self.append(lit, reason);
    }

    /// Opens a level, and appends a literal as its decision. Its variable must be declared and unassigned.
    pub fn decide(&mut self, lit: Lit)
        requires declared { var_of lit ≤ self.old.declared }
        requires unassigned { value_on self.old.steps lit ≡ None }
        ensures steps { self.new.steps ≡ self.old.steps ++ record { lit = lit; level = self.old.level + 1; reason = Decision } ∷ [] }
        ensures level { self.new.level ≡ self.old.level + 1 }
        ensures declared { self.new.declared ≡ self.old.declared }
        ensures rises { rank self.old.declared self.old.steps < rank self.new.declared self.new.steps }
    {
        self.append(lit, Reason::Decision);
    }

    // Appends a literal of a declared variable that has no value; a decision opens a level.
    fn append(&mut self, lit: Lit, reason: Reason)
        requires declared { var_of lit ≤ self.old.declared }
        requires unassigned { value_on self.old.steps lit ≡ None }
        ensures steps { self.new.steps ≡ self.old.steps ++ record { lit = lit; level = level_after self.old.level reason; reason = reason } ∷ [] }
        ensures level { self.new.level ≡ level_after self.old.level reason }
        ensures declared { self.new.declared ≡ self.old.declared }
        ensures rises { rank self.old.declared self.old.steps < rank self.new.declared self.new.steps }
    {
        let at = lit.var().index() as usize - 1;
        let place = self.lits.len() as u32;
        let clause = note(&mut self.starts, &mut self.from_theory, place, reason);
        match self.lits.push(lit) {
            Ok(()) => {}
            Err(_) => unreachable!(),
        }
        self.entries[at] = Entry {
            place: place + 1,
            level: self.starts.len() as u32,
            clause,
        };
        self.values[lit.code() as usize] = Mark::of(true);
        self.values[lit.neg().code() as usize] = Mark::of(false);
    }

    /// Goes back to a level that is at most the current one: what stands above it loses its value, and the rest stays.
    pub fn back_to(&mut self, level: u32)
        requires { level ≤ self.old.level }
        ensures { IsBack self.old self.new level }
    {
        let kept = start_in(self.starts.as_slice(), level + 1, self.lits.len() as u32) as usize;
        let mut end = self.lits.len();
        while end > kept {
            end -= 1;
            let lit = self.lits[end];
            self.entries[lit.var().index() as usize - 1].place = 0;
            self.values[lit.code() as usize] = Mark::open();
            self.values[lit.neg().code() as usize] = Mark::open();
        }
        self.lits.truncate(kept);
        self.from_theory.truncate(kept);
        self.starts.truncate(level as usize);
    }
}

// The entry of a variable that never had a value.
fn no_entry() -> Entry
    ensures { result ≡ empty_entry }
{
    Entry {
        place: 0,
        level: 0,
        clause: ClauseId::new(0),
    }
}

// Whether a level starts at a place.
fn is_start(starts: &[u32], level: u32, place: u32) -> bool
    requires { level ≤ length starts.now }
    ensures { result ≡ opens starts.now level place }
{
    level > 0 && starts[level as usize - 1] == place
}

// Whether the literal at a place was implied by an external propagator.
fn is_flagged(from_theory: &[bool], place: u32) -> bool
    ensures { result ≡ slice_index_or from_theory.now place false }
{
    let at = place as usize;
    at < from_theory.len() && from_theory[at]
}

// The place at which a level starts on a trail of so many literals.
fn start_in(starts: &[u32], level: u32, end: u32) -> u32
    ensures { result ≡ start_by starts.now level end }
{
    let at = level as usize;
    if at == 0 {
        0
    } else if at <= starts.len() {
        starts[at - 1]
    } else {
        end
    }
}

// Notes that a literal comes at the end of the trail, by its reason: a decision opens a level, and what an external propagator
// implied is flagged. Answers the clause for the table.
fn note(starts: &mut Vec<u32>, from_theory: &mut Vec<bool>, place: u32, reason: Reason) -> ClauseId
    requires starts { length starts.old.items < vec_capacity starts.old }
    requires flags { length from_theory.old.items ≤ place }
    requires room { place < vec_capacity from_theory.old }
    ensures starts { starts.new.items ≡ starts_after starts.old.items place reason }
    ensures flags { from_theory.new.items ≡ flags_after from_theory.old.items place reason }
    ensures clause { reason ≡ reason_by (is_decision reason) (is_theory reason) result }
    ensures starts_room { vec_capacity starts.old ≤ vec_capacity starts.new }
    ensures flags_room { vec_capacity from_theory.old ≤ vec_capacity from_theory.new }
{
    match reason {
        Reason::Decision => {
            push_start(starts, place);
            ClauseId::new(0)
        }
        Reason::Clause(id) => id,
        Reason::Theory => {
            flag(from_theory, place);
            ClauseId::new(0)
        }
    }
}

// Opens a level at a place.
fn push_start(starts: &mut Vec<u32>, place: u32)
    requires { length starts.old.items < vec_capacity starts.old }
    ensures items { starts.new.items ≡ starts.old.items ++ place ∷ [] }
    ensures capacity { vec_capacity starts.old ≤ vec_capacity starts.new }
{
    match starts.push(place) {
        Ok(()) => {}
        Err(_) => unreachable!(),
    }
}

// Flags a place that is behind all flags. The flags between are those of steps that have none.
fn flag(from_theory: &mut Vec<bool>, place: u32)
    requires flags { length from_theory.old.items ≤ place }
    requires room { place < vec_capacity from_theory.old }
    ensures items { from_theory.new.items ≡ from_theory.old.items ++ replicate (place - length from_theory.old.items) false ++ true ∷ [] }
    ensures capacity { vec_capacity from_theory.old ≤ vec_capacity from_theory.new }
{
    match from_theory.resize(place as usize, false) {
        Ok(()) => {}
        Err(_) => unreachable!(),
    }
    match from_theory.push(true) {
        Ok(()) => {}
        Err(_) => unreachable!(),
    }
}
