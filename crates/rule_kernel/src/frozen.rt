//! Sets of variables that passes leave alone.
//!
//! A witness on a variable that the caller may still ask for, by an assumption or in a new clause, would have its entry restored at once:
//! so such a variable is frozen for a pass.
ghost use Rattle.std.specs.Prelude.{◌≡◌, ◌||◌, ◌==◌, ◌↔◌, ℕ, false, IfOk, OnErr, OnOk, IsTrue};
ghost use Rattle.rule_kernel.specs.Frozen.{is_frozen};

use flag_set::set::FlagSet;
use sat_model::literal::Var;
use sat_model::memory::Memory;
use std::alloc::Global;
use std::marker::Model;

/// A set of variables that a pass must leave alone. Contracts see one truth value for each number, and `is_frozen` reads
/// them.
#[derive(Drop)]
pub struct Frozen {
    vars: FlagSet<Var>,
}

impl Model for Frozen {
    ghost use Rattle.std.specs.Prelude.{List, Bool};

    ghost Value = { List Bool };

    ghost view = { λ s. s.vars };
}

impl Frozen {
    /// The empty set. It takes no memory.
    pub fn new(alloc: Global) -> Frozen
        ensures { (v : ℕ) → is_frozen result v ≡ false }
    {
        Frozen {
            vars: FlagSet::new(alloc),
        }
    }

    /// Whether a variable is in the set.
    pub fn has(&self, var: Var) -> bool
        ensures { result ≡ is_frozen self.now var }
    {
        self.vars.has(var)
    }

    /// Puts a variable into the set. After `Memory` the set is as before.
    pub fn freeze(&mut self, var: Var) -> Result<(), Memory>
        ensures ok { OnOk result ((v : ℕ) → is_frozen self.new v ≡ (var == v || is_frozen self.old v)) }
        ensures err { OnErr result (self.new ≡ self.old) }
    {
        self.vars.put(var)
    }

    /// Whether two sets have the same variables. It costs as many steps as variables were frozen in both since these were new or cleared.
    pub fn is_same(&self, other: &Frozen) -> bool
        ensures { IsTrue result ↔ ((v : ℕ) → is_frozen self.now v ≡ is_frozen other.now v) }
    {
        self.vars.is_same(&other.vars)
    }

    // Another set with the same variables. It costs as many steps as variables were frozen since this one was new or cleared.
    pub(crate) fn copy(&self, alloc: Global) -> Result<Frozen, Memory>
        ensures { IfOk result (λ copy. (v : ℕ) → is_frozen copy v ≡ is_frozen self.now v) }
    {
        let mut vars = FlagSet::new(alloc);
        vars.put_all(&self.vars)?;
        Ok(Frozen { vars })
    }

    /// Takes all variables out of the set. It costs as many steps as variables were frozen since it was new or cleared.
    pub fn clear(&mut self)
        ensures { (v : ℕ) → is_frozen self.new v ≡ false }
    {
        self.vars.clear();
    }
}
