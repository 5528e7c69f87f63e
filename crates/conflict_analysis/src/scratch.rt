//! What an analysis works on, kept from conflict to conflict.
//!
//! A variable is marked at most once in an analysis, and each marked literal is kept in a list. The
//! next analysis clears the marks through that list: so nothing that is as long as the trail is
//! made or cleared at a conflict, which costs what was looked at. The list is also what the order
//! of decisions wants to hear of: all variables that took part in the conflict. Those that are
//! marked only to shorten the clause (shorten.rt) stand in a list of their own.
ghost use Rattle.std.specs.Prelude.{◌≡◌, ◌<◌, ◌≤◌, ◌+◌, ◌-◌, ◌^◌, ◌++◌, ◌∷◌, [], ℕ, true, false, length, max, OnOk, ◌⊎◌, slice_index_or, slice_set};
ghost use Rattle.std.specs.List.Sorted.{IsStrictlyIncreasing};
ghost use Rattle.sat_terms.specs.Literal.{has, var_of};
ghost use Rattle.rooted_trails.specs.Marks.{flag};
ghost use Rattle.conflict_analysis.specs.Learning.{glue_of};
ghost use Rattle.conflict_analysis.specs.Walking.{IsListed, noted};

use crate::levels::glue;
use flag_set::set::FlagSet;
use normal_form::forms::sort_and_dedup;
use sat_model::literal::{Lit, Var};
use sat_model::memory::Memory;
use std::alloc::Global;
use std::marker::Model;
use trail_state::trail::Trail;

// A literal whose reason is being looked at.
#[derive(Clone, Copy)]
pub(crate) struct Visit {
    // The literal, or its negation.
    pub(crate) lit: Lit,
    // From this place of its reason on nothing was looked at.
    pub(crate) next: usize,
}

/// The marks of an analysis, the clause that it learned and the literals that it met, until the
/// next analysis begins. Contracts see a flag for each marked variable, how many marked literals
/// are still to be resolved on, the clause and the met literals: `analyze` says what the last two
/// are.
#[derive(Drop)]
pub struct Scratch {
    // A flag for each variable that is marked.
    seen: Vec<bool>,
    // The marked literals, in the order in which they were met: the marks are cleared through this
    // list.
    met: Vec<Lit>,
    // How many marked literals of the current level are still to be resolved on.
    count: usize,
    // The literals of the learned clause, at first those below the current level.
    lits: Vec<Lit>,
    // The literals that were marked since they follow from marked ones: the marks are cleared
    // through this list too.
    spare: Vec<Lit>,
    // The literals whose reasons are being looked at, each in the reason of the one before it.
    path: Vec<Visit>,
    // The variables of which it is known that they don't follow from marked ones.
    needed: FlagSet<Var>,
    // A flag for each level of the learned clause, while these are counted; all are false between
    // two counts.
    levels: Vec<bool>,
}

impl Model for Scratch {
    ghost use Rattle.conflict_analysis.specs.Walking.{Resolvent, IsScratch};

    ghost Value = { Resolvent };

    ghost view = { λ s. record { seen = s.seen.items; count = s.count; lits = s.lits.items; met = s.met.items } };

    ghost invariant = { λ s. IsScratch s.seen.items s.levels.items s.met.items s.spare.items };
}

// Takes off the marks of the listed literals, and empties the list. What stays marked stands in the
// other list.
fn unmark(seen: &mut Vec<bool>, listed: &mut Vec<Lit>, others: &[Lit])
    requires { IsListed seen.old.items (others.now ++ listed.old.items) }
    ensures marks { IsListed seen.new.items others.now }
    ensures long { length seen.new.items ≡ length seen.old.items }
    ensures empty { listed.new.items ≡ [] }
{
    while let Some(lit) = listed.pop() {
        seen[lit.var().index() as usize] = false;
    }
}

// Puts the variables of a path into a set, and empties the path.
fn note_all(set: &mut FlagSet<Var>, path: &mut Vec<Visit>) -> Result<(), Memory> {
    while let Some(visit) = path.pop() {
        set.put(visit.lit.var())?;
    }
    Ok(())
}

// Lengthens a list of flags to so many. What is read of it stays as it was; past its end it is read
// as false.
fn reach_flags(flags: &mut Vec<bool>, places: usize) -> Result<(), Memory>
    ensures long { OnOk result (places ≤ length flags.new.items) }
    ensures longer { length flags.old.items ≤ length flags.new.items }
    ensures bound { length flags.new.items ≤ max (length flags.old.items) places }
    ensures same { (k : ℕ) → slice_index_or flags.new.items k false ≡ slice_index_or flags.old.items k false }
{
    if flags.len() < places {
        flags.resize(places, false)?;
    }
    Ok(())
}

impl Scratch {
    /// A scratch with no clause and no marks. It takes no memory.
    pub fn new(alloc: Global) -> Scratch
        ensures lits { result.lits ≡ [] }
        ensures met { result.met ≡ [] }
    {
        Scratch {
            seen: Vec::new(alloc),
            met: Vec::new(alloc),
            count: 0,
            lits: Vec::new(alloc),
            spare: Vec::new(alloc),
            path: Vec::new(alloc),
            needed: FlagSet::new(alloc),
            levels: Vec::new(alloc),
        }
    }

    /// The clause that was learned last.
    pub fn learned(&self) -> &[Lit]
        ensures { result.now ≡ self.now.lits }
    {
        self.lits.as_slice()
    }

    /// The literals that the last analysis met on the way, each once: their variables took part in
    /// the conflict.
    pub fn met(&self) -> &[Lit]
        ensures { result.now ≡ self.now.met }
    {
        self.met.as_slice()
    }

    // Clears what the last analysis left.
    pub(crate) fn clear(&mut self)
        ensures none { (v : ℕ) → flag self.new.seen v ≡ false }
        ensures count { self.new.count ≡ 0 }
        ensures lits { self.new.lits ≡ [] }
        ensures met { self.new.met ≡ [] }
    {
        unmark(&mut self.seen, &mut self.met, &self.spare);
        unmark(&mut self.seen, &mut self.spare, &[]);
        self.needed.clear();
        self.count = 0;
        self.lits.clear();
    }

    // Takes the memory for so many variables. Nothing else changes.
    pub(crate) fn reach(&mut self, places: usize) -> Result<(), Memory>
        ensures long { OnOk result (places ≤ length self.new.seen) }
        ensures seen { (v : ℕ) → flag self.new.seen v ≡ flag self.old.seen v }
        ensures count { self.new.count ≡ self.old.count }
        ensures lits { self.new.lits ≡ self.old.lits }
        ensures met { self.new.met ≡ self.old.met }
    {
        reach_flags(&mut self.levels, places)?;
        reach_flags(&mut self.seen, places)
    }

    // Whether the variable of a literal is marked.
    pub(crate) fn is_marked(&self, lit: Lit) -> bool
        requires { var_of lit < length self.now.seen }
        ensures { result ≡ flag self.now.seen (var_of lit) }
    {
        self.seen[lit.var().index() as usize]
    }

    // Marks the variable of a literal that has the current level, or a lower one.
    pub(crate) fn note(&mut self, lit: Lit, current: bool) -> Result<(), Memory>
        requires wide { var_of lit < length self.old.seen }
        requires few { self.old.count < 2 ^ 32 }
        ensures { OnOk result (self.new ≡ noted self.old lit current) }
    {
        // The list comes first: whatever fails, each mark has its literal in it.
        self.met.push(lit)?;
        self.seen[lit.var().index() as usize] = true;
        if current {
            self.count += 1;
        } else {
            self.lits.push(lit)?;
        }
        Ok(())
    }

    // How many marked literals of the current level are still to be resolved on.
    pub(crate) fn count(&self) -> usize
        ensures { result ≡ self.now.count }
    {
        self.count
    }

    // One of them is resolved on.
    pub(crate) fn drop_one(&mut self)
        requires { 0 < self.old.count }
        ensures { self.new ≡ record self.old { count = self.old.count - 1 } }
    {
        self.count -= 1;
    }

    // Marks the variable of a literal that follows from marked ones.
    pub(crate) fn note_spare(&mut self, lit: Lit) -> Result<(), Memory>
        requires { var_of lit < length self.old.seen }
        ensures { OnOk result (self.new ≡ record self.old { seen = slice_set self.old.seen (var_of lit) true }) }
    {
        // Here too the list comes first.
        self.spare.push(lit)?;
        self.seen[lit.var().index() as usize] = true;
        Ok(())
    }

    // Takes a literal off the learned clause. The last one takes its place.
    pub(crate) fn drop_lit(&mut self, index: usize)
        requires { index < length self.old.lits }
        ensures same { self.new ≡ record self.old { lits = self.new.lits } }
        ensures long { length self.new.lits + 1 ≡ length self.old.lits }
        ensures left { (l : ℕ) → has self.new.lits l ≡ true → has self.old.lits l ≡ true }
        ensures gone { (l : ℕ) → has self.old.lits l ≡ true → (has self.new.lits l ≡ true) ⊎ (slice_index_or self.old.lits index l ≡ l) }
    {
        self.lits.swap_remove(index);
    }

    // The path to a literal begins anew.
    pub(crate) fn start_path(&mut self)
        ensures { self.new ≡ self.old }
    {
        self.path.clear();
    }

    // The path goes on to a literal.
    pub(crate) fn enter(&mut self, lit: Lit, next: usize) -> Result<(), Memory>
        ensures { self.new ≡ self.old }
    {
        self.path.push(Visit { lit, next })?;
        Ok(())
    }

    // The last literal leaves the path.
    pub(crate) fn leave(&mut self) -> Option<Visit>
        ensures { self.new ≡ self.old }
    {
        self.path.pop()
    }

    // Whether it is known that a literal doesn't follow from marked ones.
    pub(crate) fn is_needed(&self, lit: Lit) -> bool {
        self.needed.has(lit.var())
    }

    // What is on the path doesn't follow from marked ones. The path is empty then.
    pub(crate) fn give_up(&mut self) -> Result<(), Memory>
        ensures { OnOk result (self.new ≡ self.old) }
    {
        note_all(&mut self.needed, &mut self.path)
    }

    // Puts a literal to those of the learned clause, and brings these into normal order.
    pub(crate) fn finish(&mut self, last: Lit) -> Result<(), Memory>
        ensures rising { OnOk result (IsStrictlyIncreasing self.new.lits) }
        ensures same { OnOk result ((l : ℕ) → has self.new.lits l ≡ has (self.old.lits ++ last ∷ []) l) }
        ensures seen { OnOk result (self.new.seen ≡ self.old.seen) }
        ensures met { OnOk result (self.new.met ≡ self.old.met) }
    {
        self.lits.push(last)?;
        sort_and_dedup(&mut self.lits);
        Ok(())
    }

    // The number of levels of the learned clause.
    pub(crate) fn glue(&mut self, trail: &Trail) -> u32
        requires { trail.now.declared < length self.old.seen }
        ensures value { result ≡ glue_of trail.now.steps trail.now.level self.old.lits }
        ensures same { self.new ≡ self.old }
    {
        trail.law_room();
        glue(&mut self.levels, trail, &self.lits)
    }
}
