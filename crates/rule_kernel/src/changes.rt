//! What changed since the passes last looked.
//!
//! A pass that looks for variables to eliminate, or for blocked clauses, finds after a few new clauses almost what it found before. So what
//! it must look at again is marked, rule by rule, and a solve that adds ten clauses has the variables of ten clauses looked at.
//!
//! Two things are marked. A variable, where a clause that mentions it comes or goes: how often it occurs, and which resolvents it has, may be
//! otherwise now. A literal, where a clause that holds it comes, which may be blocked on it; or where one that holds its negation goes,
//! which may have kept a clause with the literal from being blocked (Järvisalo, Biere, Heule, "Blocked clause elimination", TACAS 2010). Only
//! firm clauses count: learned ones neither stand in a resolvent of these passes nor keep a clause from being blocked.
//!
//! The marks stand in work lists, so that the next marked variable is found at once, and a pass with nothing marked costs nothing. All
//! memory is taken before a rule changes anything, and for all that its clause will ever need: when it goes, marking wants none.
ghost use Rattle.std.specs.Prelude.{◌≡◌, ◌≤◌, ◌<◌, ◌*◌, ◌==◌, ◌||◌, ◌&&◌, not, ℕ, [], length, slice_index_or, OnOk};
ghost use Rattle.std.specs.List.{swap_remove};
ghost use Rattle.sat_terms.specs.Literal.{has, var_of};
ghost use Rattle.rule_kernel.specs.Changes.{marked, HasRoom, MarksCame, MarksWent};

use flag_set::work::WorkList;
use sat_model::literal::{Lit, Var};
use sat_model::memory::Memory;
use std::alloc::Global;
use std::marker::Model;

// The marked variables and literals.
#[derive(Drop)]
pub(crate) struct Changes {
    // The marked variables.
    vars: WorkList<Var>,
    // The marked literals. There is room for both literals of each variable that there is room for.
    lits: WorkList<Lit>,
}

impl Model for Changes {
    ghost use Rattle.std.specs.Prelude.{◌≤◌, ◌*◌};
    ghost use Rattle.rule_kernel.specs.Changes.{Markable};

    ghost Value = { Markable };

    ghost view = { λ c. record { vars = c.vars.members; lits = c.lits.members; room = c.vars.room } };

    ghost invariant = { λ c. 2 * c.vars.room ≤ c.lits.room };
}

impl Changes {
    // Nothing is marked. It takes no memory.
    pub(crate) fn new(alloc: Global) -> Changes
        ensures vars { result.vars ≡ [] }
        ensures lits { result.lits ≡ [] }
    {
        Changes {
            vars: WorkList::new(alloc),
            lits: WorkList::new(alloc),
        }
    }

    // The marked variables.
    pub(crate) fn vars(&self) -> &[Var]
        ensures { result.now ≡ self.now.vars }
    {
        self.vars.as_slice()
    }

    // The marked literals.
    pub(crate) fn lits(&self) -> &[Lit]
        ensures { result.now ≡ self.now.lits }
    {
        self.lits.as_slice()
    }

    // Makes room for one variable and its literals; what is marked stays.
    #[tactic(auto, unfolding(sat_terms::specs::Literal::neg_lit))]
    fn reach_one(&mut self, lit: Lit) -> Result<(), Memory>
        ensures vars { self.new.vars ≡ self.old.vars }
        ensures lits { self.new.lits ≡ self.old.lits }
        ensures more { self.old.room ≤ self.new.room }
        ensures room { OnOk result (var_of lit < self.new.room) }
    {
        let var = lit.var();
        self.lits.reach(var.negative())?;
        self.vars.reach(var)?;
        Ok(())
    }

    // Makes room for the variables of a clause and their literals; what is marked stays.
    pub(crate) fn reach(&mut self, lits: &[Lit]) -> Result<(), Memory>
        ensures vars { self.new.vars ≡ self.old.vars }
        ensures lits { self.new.lits ≡ self.old.lits }
        ensures more { self.old.room ≤ self.new.room }
        ensures room { OnOk result (HasRoom self.new.room lits.now) }
    {
        for lit in lits {
            self.reach_one(*lit)?;
        }
        Ok(())
    }

    // Marks the variables and the literals of a clause that comes.
    pub(crate) fn came(&mut self, lits: &[Lit])
        requires { HasRoom self.old.room lits.now }
        ensures marks { MarksCame (marked self.old) (marked self.new) lits.now }
        ensures room { self.new.room ≡ self.old.room }
    {
        for lit in lits {
            self.mark(lit.var(), *lit);
        }
    }

    // Marks the variables of a clause that goes, and the negations of its literals.
    pub(crate) fn went(&mut self, lits: &[Lit])
        requires { HasRoom self.old.room lits.now }
        ensures marks { MarksWent (marked self.old) (marked self.new) lits.now }
        ensures room { self.new.room ≡ self.old.room }
    {
        for lit in lits {
            self.mark(lit.var(), lit.neg());
        }
    }

    // Marks a variable and one of its literals.
    fn mark(&mut self, var: Var, lit: Lit)
        requires var { var < self.old.room }
        requires lit { lit < 2 * self.old.room }
        ensures vars { (v : ℕ) → has self.new.vars v ≡ (has self.old.vars v || var == v) }
        ensures lits { (l : ℕ) → has self.new.lits l ≡ (has self.old.lits l || lit == l) }
        ensures room { self.new.room ≡ self.old.room }
    {
        self.vars.put(var);
        self.lits.put(lit);
    }

    // Takes a variable's mark off, if it has one.
    pub(crate) fn unmark_var(&mut self, var: Var)
        ensures place { (k : ℕ) → k < length self.old.vars → slice_index_or self.old.vars k var ≡ var → self.new.vars ≡ swap_remove self.old.vars k var }
        ensures vars { (v : ℕ) → has self.new.vars v ≡ (has self.old.vars v && not (var == v)) }
        ensures lits { self.new.lits ≡ self.old.lits }
        ensures room { self.new.room ≡ self.old.room }
    {
        self.vars.take_out(var);
    }

    // Takes a literal's mark off, if it has one.
    pub(crate) fn unmark_lit(&mut self, lit: Lit)
        ensures place { (k : ℕ) → k < length self.old.lits → slice_index_or self.old.lits k lit ≡ lit → self.new.lits ≡ swap_remove self.old.lits k lit }
        ensures lits { (l : ℕ) → has self.new.lits l ≡ (has self.old.lits l && not (lit == l)) }
        ensures vars { self.new.vars ≡ self.old.vars }
        ensures room { self.new.room ≡ self.old.room }
    {
        self.lits.take_out(lit);
    }
}
