//! What passes have found to be at rest.
//!
//! Whether literals are equivalent, and whether vivification shortens a clause, depends on all clauses at once, so no mark can say where to
//! look again. But neither comes about where clauses only go: there are fewer implications then, and less is propagated. So it is remembered
//! that a pass found nothing any more, until a clause comes, and with it, for the equivalences, which variables were frozen then.
ghost use Rattle.std.specs.Prelude.{◌≡◌, ◌↔◌, ℕ, true, false, IsTrue, OnOk, OnErr};
ghost use Rattle.rule_kernel.specs.Frozen.{is_frozen};
ghost use Rattle.rule_kernel.specs.Settled.{unsettled, IsUntied};

use crate::frozen::Frozen;
use sat_model::memory::Memory;
use std::alloc::Global;
use std::marker::Model;

// What is at rest.
#[derive(Drop)]
pub(crate) struct Settled {
    // Whether there are no equivalences beside the frozen variables.
    untied: bool,
    // The variables that were frozen when that was found.
    frozen: Frozen,
    // Whether vivification shortens no clause.
    calm: bool,
}

impl Model for Settled {
    ghost use Rattle.rule_kernel.specs.Settled.{Settled};

    ghost Value = { Settled };

    ghost view = { λ s. record { untied = s.untied; frozen = s.frozen; calm = s.calm } };
}

impl Settled {
    // Nothing is known. It takes no memory.
    pub(crate) fn new(alloc: Global) -> Settled
        ensures untied { result.untied ≡ false }
        ensures calm { result.calm ≡ false }
    {
        Settled {
            untied: false,
            frozen: Frozen::new(alloc),
            calm: false,
        }
    }

    // Whether vivification is known to shorten no clause.
    pub(crate) fn is_calm(&self) -> bool
        ensures { result ≡ self.now.calm }
    {
        self.calm
    }

    // Whether it is known that there are no equivalences beside just these frozen variables.
    pub(crate) fn is_untied(&self, frozen: &Frozen) -> bool
        ensures { IsTrue result ↔ IsUntied self.now frozen.now }
    {
        self.untied && self.frozen.is_same(frozen)
    }

    // A clause came.
    pub(crate) fn came(&mut self)
        ensures { self.new ≡ unsettled self.old }
    {
        self.untied = false;
        self.calm = false;
    }

    // Vivification shortens no clause.
    pub(crate) fn settle_calm(&mut self)
        ensures untied { self.new.untied ≡ self.old.untied }
        ensures frozen { self.new.frozen ≡ self.old.frozen }
        ensures calm { self.new.calm ≡ true }
    {
        self.calm = true;
    }

    // There are no equivalences beside just some frozen variables. After `Memory` nothing changed.
    pub(crate) fn settle_untied(&mut self, alloc: Global, frozen: &Frozen) -> Result<(), Memory>
        ensures ok { OnOk result (IsUntied self.new frozen.now) }
        ensures calm { self.new.calm ≡ self.old.calm }
        ensures err { OnErr result (self.new ≡ self.old) }
    {
        // The copy is made first, so that what was known stays where there is no memory for it.
        self.frozen = frozen.copy(alloc)?;
        self.untied = true;
        Ok(())
    }
}
