//! The assignment of a search.
ghost use Rattle.std.specs.Prelude.{◌≡◌, ◌+◌, ◌<◌, ◌≤◌, ℕ, [], ◌∷◌, length, IfOk, OnOk, OnErr, IfSome, IfNone, Some, None, vec_len, ◌≢◌, true};
ghost use Rattle.sat_terms.specs.Limits.{max_var};
ghost use Rattle.sat_terms.specs.Literal.{var_of, pos_lit};
ghost use Rattle.sat_terms.specs.Truth.{values};
ghost use Rattle.plain_search.specs.Search.{Agrees};

use sat_model::literal::{Lit, Var};
use sat_model::memory::Memory;
use std::alloc::Global;
use std::marker::Model;

/// A literal that was assigned, and whether it was decided.
#[derive(Clone, Copy, Debug, PartialEq, Eq)]
pub struct Step {
    /// The literal.
    pub lit: Lit,
    /// Whether it was decided.
    pub decision: bool,
}

/// An assignment of the variables 1 to some number: the literals that were assigned, one after another.
#[derive(Drop)]
pub struct Assignment {
    // the value of each variable, at its number
    values: Vec<Option<bool>>,
    // the literals that were assigned, oldest first
    trail: Vec<Step>,
    // all variables below this one have values
    low: usize,
}

impl Model for Assignment {
    ghost use Rattle.std.specs.Prelude.{◌-◌, vec_len, reverse};
    ghost use Rattle.plain_search.specs.Marks.{Assigned, Holds};

    ghost Value = { Assigned };

    ghost view = { λ s. record { vars = vec_len s.values - 1; steps = reverse s.trail.items } };

    ghost invariant = { λ s. Holds (vec_len s.values) s.values.items (reverse s.trail.items) s.low };
}

impl Assignment {
    ghost use Rattle.plain_search.specs.Steps.{value_in, flip};

    /// Nothing is assigned.
    pub fn new(alloc: Global, vars: u32) -> Result<Assignment, Memory>
        requires { vars ≤ max_var }
        ensures vars { IfOk result (λ a. a.vars ≡ vars) }
        ensures steps { IfOk result (λ a. a.steps ≡ []) }
    {
        Ok(Assignment {
            values: vec![in alloc; None; vars as usize + 1]?,
            trail: Vec::new(alloc),
            low: 1,
        })
    }

    /// The value of a literal.
    pub fn value(&self, lit: Lit) -> Option<bool>
        requires { var_of lit ≤ self.now.vars }
        ensures { result ≡ value_in self.now.steps lit }
    {
        match self.values[lit.var().index() as usize] {
            None => None,
            Some(value) => Some(value == lit.is_positive()),
        }
    }

    /// Assigns a literal that has no value. After `Memory` nothing has changed.
    pub fn push(&mut self, lit: Lit, decision: bool) -> Result<(), Memory>
        requires within { var_of lit ≤ self.old.vars }
        requires free { value_in self.old.steps lit ≡ None }
        ensures ok { OnOk result (self.new.steps ≡ record { lit = lit; decision = decision } ∷ self.old.steps) }
        ensures err { OnErr result (self.new.steps ≡ self.old.steps) }
        ensures vars { self.new.vars ≡ self.old.vars }
        ensures room { OnOk result (length self.new.steps ≤ self.new.vars + 1) }
    {
        let at = lit.var().index() as usize;
        let positive = lit.is_positive();
        self.trail.push(Step { lit, decision })?;
        self.values[at] = Some(positive);
        Ok(())
    }

    /// Takes the newest literal back.
    pub fn pop(&mut self) -> Option<Step>
        ensures none { IfNone result ((self.old.steps ≡ []) × (self.new.steps ≡ [])) }
        ensures some { IfSome result (λ s. self.old.steps ≡ s ∷ self.new.steps) }
        ensures free { IfSome result (λ s. (var_of s.lit ≤ self.new.vars) × (value_in self.new.steps s.lit ≡ None)) }
        ensures vars { self.new.vars ≡ self.old.vars }
    {
        let step = self.trail.pop()?;
        let at = step.lit.var().index() as usize;
        self.values[at] = None;
        self.low = self.low.min(at);
        Some(step)
    }

    /// A variable that has no value. All below the place where a call begins to look have one. Only the place where the next
    /// call begins to look may change.
    pub fn first_free(&mut self) -> Option<Var>
        ensures same { self.new ≡ self.old }
        ensures some { IfSome result (λ v. (v ≤ self.old.vars) × (value_in self.old.steps (pos_lit v) ≡ None)) }
        ensures none { IfNone result ((l : ℕ) → 1 ≤ var_of l → var_of l ≤ self.old.vars → value_in self.old.steps l ≢ None) }
    {
        while self.low < self.values.len() {
            if self.values[self.low].is_none() {
                return Var::new(self.low as u32);
            }
            self.low += 1;
        }
        None
    }

    /// A list that agrees with the assignment. Any value serves for a variable without one; it gets true.
    pub fn model(&self, alloc: Global) -> Result<Vec<bool>, Memory>
        ensures length { IfOk result (λ m. length m.items ≡ self.now.vars) }
        ensures agrees { IfOk result (λ m. Agrees (values m.items) self.now.vars self.now.steps) }
    {
        let mut model = Vec::new(alloc);
        for at in 1..self.values.len() {
            model.push(self.values[at].unwrap_or(true))?;
        }
        Ok(model)
    }
}
