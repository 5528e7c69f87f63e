//! What a firm clause does to another one.
//!
//! Where all of a clause stands in another one, that one is implied, and goes. Where all but one literal does, and that one stands there
//! negated, the resolvent of both on it lies within the other one (self-subsuming resolution: Eén and Biere, SAT 2005). So the
//! resolvent, which is the other clause without the negated literal, takes the other clause's place: it comes as a clause that is implied,
//! and then the longer one is implied by it and goes. Both are rules of the kernel, and nothing is parked: models stay the same.
//!
//! A clause that comes waits to be compared, in both ways, by the kernel itself, and one that goes waits no longer. What is known of
//! the shorter clause beyond that, its callers know: they compare it, or take it off at once.
ghost use Rattle.std.specs.Prelude.{◌≡◌, ◌≢◌, ◌<◌, ◌+◌, ◌^◌, ℕ, length, slice_index_or, true, IfOk, OnErr};
ghost use Rattle.clause_store.specs.Stored.{slot, slot_lits, is_firm};
ghost use Rattle.firm_terms.specs.Subsuming.{Resolves};
ghost use Rattle.pass_terms.specs.Ruled.{Ruled, always};
ghost use Rattle.subsume_pass.specs.Changing.{Cut, Changes};

use crate::compare::{Fit, compare};
use rule_kernel::kernel::Kernel;
use sat_model::lists::ClauseId;
use sat_model::memory::Memory;

// What became of a clause.
#[derive(Clone, Copy)]
pub(crate) enum Change {
    // It is as it was.
    Kept,
    // It went.
    Gone,
    // A shorter one came in its place.
    Came(ClauseId),
}

// Puts a clause without the literal at a place in the place of the clause, where the resolvent with another one says so. After
// `Memory` nothing changed.
fn shorten(kernel: &mut Kernel, by: ClauseId, id: ClauseId, at: usize) -> Result<ClauseId, Memory>
    requires by { is_firm (slot kernel.old.store by) ≡ true }
    requires id { is_firm (slot kernel.old.store id) ≡ true }
    requires other { by ≢ id }
    requires within { at < length (slot_lits (slot kernel.old.store id)) }
    requires resolves { Resolves (slot_lits (slot kernel.old.store by)) (slot_lits (slot kernel.old.store id)) (slice_index_or (slot_lits (slot kernel.old.store id)) at 0) }
    ensures ruled { Ruled always kernel.old kernel.new }
    ensures cut { IfOk result (λ next. Cut kernel.old kernel.new by id next) }
    ensures err { OnErr result (kernel.new ≡ kernel.old) }
{
    let _ = by;
    let mut lits = Vec::from_slice(kernel.alloc(), kernel.store().get(id))?;
    lits.remove(at);
    let next = kernel.add_implied(lits.as_slice())?;
    kernel.drop_implied(id);
    Ok(next)
}

/// Compares a firm clause with another one, and drops or shortens the other one where that follows. It is a step. After `Memory` nothing
/// changed.
pub(crate) fn meet(
    kernel: &mut Kernel,
    by: ClauseId,
    id: ClauseId,
    steps: &mut u64,
) -> Result<Change, Memory>
    requires by { is_firm (slot kernel.old.store by) ≡ true }
    requires id { is_firm (slot kernel.old.store id) ≡ true }
    requires other { by ≢ id }
    requires room { steps.old + 1 < 2 ^ 64 }
    ensures ruled { Ruled always kernel.old kernel.new }
    ensures changes { IfOk result (λ change. Changes kernel.old kernel.new by id change) }
    ensures counted { steps.new ≡ steps.old + 1 }
    ensures err { OnErr result (kernel.new ≡ kernel.old) }
{
    *steps += 1;
    let fit = compare(kernel.store().get(by), kernel.store().get(id));
    match fit {
        Fit::Apart => Ok(Change::Kept),
        Fit::Subsumes => {
            kernel.drop_implied(id);
            Ok(Change::Gone)
        }
        Fit::Shortens(at) => {
            let next = shorten(kernel, by, id, at)?;
            Ok(Change::Came(next))
        }
    }
}
