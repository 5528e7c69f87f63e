//! Scripts that are drawn from a seed.
ghost use Rattle.std.specs.Prelude.{◌<◌};

use sat_model::lists::Lits;
use sat_model::literal::{Lit, Var};
use std::alloc::Global;
use std::test::Fail;

/// Numbers that are drawn one after another (Knuth's linear congruential generator).
#[derive(Drop)]
pub(crate) struct Draw {
    // What the next number is made of.
    state: u64,
}

impl Draw {
    /// The numbers of a seed.
    pub(crate) fn new(seed: u64) -> Draw {
        Draw { state: seed }
    }

    /// A number below a bound.
    pub(crate) fn below(&mut self, bound: u32) -> u32
        requires { 0 < bound }
        ensures { result < bound }
    {
        self.state = self
            .state
            .wrapping_mul(6_364_136_223_846_793_005)
            .wrapping_add(1_442_695_040_888_963_407);
        let high = (self.state / 8_589_934_592) as u32;
        high % bound
    }

    /// A literal of one of the first variables.
    pub(crate) fn literal(&mut self, vars: u32) -> Result<Lit, Fail>
        requires { 0 < vars }
    {
        let var = Var::new(self.below(vars).saturating_add(1)).ok_or("no variable")?;
        let is_positive = self.below(2) == 0;
        Ok(if is_positive {
            var.positive()
        } else {
            var.negative()
        })
    }

    /// So many literals of the first variables.
    pub(crate) fn literals(&mut self, alloc: Global, vars: u32, count: u32) -> Result<Lits, Fail>
        requires { 0 < vars }
    {
        let mut lits = Lits::new(alloc);
        for _ in 0..count {
            lits.push(self.literal(vars)?)?;
        }
        Ok(lits)
    }
}
