//! One walk over the marked literals, up to the first clause that is parked.
//!
//! A literal is marked where a clause may have become blocked on it: a clause with it came, or one with its negation went. The walk takes
//! the marked literals from a place of their list on. On each it seeks a blocked clause. Where there is none, the mark goes, and the last
//! literal of the list comes to the place; so the walk stays there. Where one is found it is parked, and the literal keeps its mark:
//! another clause may be blocked on it. Parking marks the negations of the clause's literals, for on these alone a clause may be blocked
//! now that was not.
//!
//! A literal whose variable is frozen keeps its mark and is passed over, so that it is tried once the variable is frozen no longer.
ghost use Rattle.std.specs.Prelude.{◌≡◌, ◌≤◌, Ok, IfOk, OnErr};
ghost use Rattle.sat_terms.specs.Literal.{var_of};
ghost use Rattle.rule_kernel.specs.Frozen.{is_frozen};
ghost use Rattle.pass_terms.specs.Ruled.{Ruled};
ghost use Rattle.blocked_clauses.specs.Passing.{AllFrozen};
ghost use Rattle.blocked_clauses.specs.Walking.{Turned, Walked};
ghost use Rattle.blocked_clauses.specs.declared.walk.Walk.TheVariants.{Through};

use crate::seek::{Found, seek};
use rule_kernel::frozen::Frozen;
use rule_kernel::kernel::Kernel;
use sat_model::literal::Lit;
use sat_model::memory::Memory;

// What became of a literal.
#[derive(Clone, Copy)]
pub(crate) enum Turn {
    // No clause is blocked on it: its mark was taken off.
    Settled,
    // A clause that is blocked on it was parked.
    Parked,
    // The limit left no step.
    Full,
}

// How a walk ended.
#[derive(Clone, Copy)]
pub(crate) enum Walk {
    // At the end of the list.
    Through,
    // A clause was parked, on the literal at this place.
    Parked(usize),
    // The limit left no step.
    Full,
}

// Parks a clause that is blocked on a literal; where there is none, the literal's mark goes. After `Memory` nothing changed.
fn try_lit(kernel: &mut Kernel, lit: Lit, steps: &mut u64, limit: u64) -> Result<Turn, Memory>
    requires { steps.old ≤ limit }
    ensures ok { IfOk result (λ turn. Turned kernel.old kernel.new lit steps.old steps.new limit turn) }
    ensures err { OnErr result (kernel.new ≡ kernel.old) }
{
    match seek(kernel.store(), lit, steps, limit) {
        Found::At(id) => {
            kernel.park(id, &[lit])?;
            Ok(Turn::Parked)
        }
        Found::Nowhere => {
            kernel.settle_lit(lit);
            Ok(Turn::Settled)
        }
        Found::Full => Ok(Turn::Full),
    }
}

// Whether the walk leaves a literal as it is: its variable is frozen.
fn is_passed_over(frozen: &Frozen, lit: Lit) -> bool
    ensures { result ≡ is_frozen frozen.now (var_of lit) }
{
    frozen.has(lit.var())
}

/// Takes the marked literals from a place on, up to the first clause that is parked.
pub(crate) fn walk_from(
    kernel: &mut Kernel,
    frozen: &Frozen,
    from: usize,
    steps: &mut u64,
    limit: u64,
) -> Result<Walk, Memory>
    requires { steps.old ≤ limit }
    ensures ruled { Ruled (is_frozen frozen.now) kernel.old kernel.new }
    ensures walked { IfOk result (λ walk. Walked (is_frozen frozen.now) kernel.old kernel.new from steps.old steps.new limit walk) }
    ensures idle { AllFrozen (is_frozen frozen.now) kernel.old.marked.lits → (kernel.new ≡ kernel.old) × (steps.new ≡ steps.old) × (result ≡ Ok Through) }
{
    let mut place = from;
    while place < kernel.marked_lits().len() {
        let lit = kernel.marked_lits()[place];
        if is_passed_over(frozen, lit) {
            place += 1;
            continue;
        }
        match try_lit(kernel, lit, steps, limit)? {
            Turn::Settled => {}
            Turn::Parked => return Ok(Walk::Parked(place)),
            Turn::Full => return Ok(Walk::Full),
        }
    }
    Ok(Walk::Through)
}
