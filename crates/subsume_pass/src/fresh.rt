//! All others are tried on a clause that is fresh.
//!
//! A clause that came from outside may hold all of a clause that was there before, or be shortened by one, and those that were there were
//! tried already. To try each of them anew would compare all clauses again after each addition. So the other way round is gone here: the
//! sources of the new clause, those that begin with one of its variables, are compared with it (forward subsumption, in the manner of
//! Zhang, SAT 2005), and it goes or gets shorter at once, or they are all free of it, and it is fresh no longer.
//!
//! The first change ends the turn. A shorter clause that comes in its place is fresh too, as the kernel says of all that comes: the
//! sources that were not compared with the longer one yet are to be compared with it. It is due as well.
//!
//! While it only compares, nothing changes, so after the limit and after want of memory the clause is fresh as before. What was compared is
//! compared again in the next run: a turn is no more than a comparison with each firm clause.
ghost use Rattle.std.specs.Prelude.{◌≡◌, ◌≤◌, ◌<◌, length, true, IfOk, OnErr};
ghost use Rattle.clause_store.specs.Stored.{slot, is_firm};
ghost use Rattle.pass_terms.specs.Ruled.{Ruled, always};
ghost use Rattle.subsume_pass.specs.Trying.{waits, Fated, Passed};
ghost use Rattle.firm_terms.specs.Firm.{firm};

use crate::candidates::sources;
use crate::change::{Change, meet};
use crate::turn::{Turn, names_other};
use rule_kernel::kernel::Kernel;
use sat_model::lists::ClauseId;
use sat_model::memory::Memory;

// What became of a clause when others were tried on it.
#[derive(Clone, Copy)]
pub(crate) enum Fate {
    // All are free of it.
    Free,
    // It went.
    Went,
    // A shorter one came in its place.
    Shrank(ClauseId),
    // The limit left no step.
    Halted,
}

// Compares the clauses of some ids with one, until that one changes. Each is a step. After `Memory` nothing changed.
fn seek_change(
    kernel: &mut Kernel,
    id: ClauseId,
    ids: &[ClauseId],
    steps: &mut u64,
    limit: u64,
) -> Result<Fate, Memory>
    requires id { is_firm (slot kernel.old.store id) ≡ true }
    requires rest { steps.old ≤ limit }
    ensures ruled { Ruled always kernel.old kernel.new }
    ensures fated { IfOk result (λ fate. Fated kernel.old kernel.new id ids.now steps.old steps.new limit fate) }
    ensures err { OnErr result (kernel.new ≡ kernel.old) }
{
    for by in ids {
        if names_other(kernel.store(), id, *by) {
            if *steps >= limit {
                return Ok(Fate::Halted);
            }
            match meet(kernel, *by, id, steps)? {
                Change::Kept => {}
                Change::Gone => return Ok(Fate::Went),
                Change::Came(next) => return Ok(Fate::Shrank(next)),
            }
        }
    }
    Ok(Fate::Free)
}

/// Tries others on the last of the clauses that are fresh. Then that clause is fresh no longer; a shorter one that came in its place is
/// fresh, and due.
pub(crate) fn turn_fresh(kernel: &mut Kernel, steps: &mut u64, limit: u64) -> Result<Turn, Memory>
    requires some { 0 < length kernel.old.waiting.fresh }
    requires few { waits kernel.old.waiting ≤ length (firm kernel.old.store) }
    requires rest { steps.old ≤ limit }
    ensures ruled { Ruled always kernel.old kernel.new }
    ensures passed { IfOk result (λ turn. Passed kernel.old kernel.new steps.old steps.new limit turn) }
{
    kernel.law_promises();
    let fresh = kernel.fresh();
    let id = fresh[fresh.len() - 1];
    let ids = sources(kernel, id)?;
    match seek_change(kernel, id, ids.as_slice(), steps, limit)? {
        Fate::Free => {
            kernel.settle_fresh(id);
            Ok(Turn::Done)
        }
        Fate::Went => Ok(Turn::Changed),
        Fate::Shrank(next) => {
            let count = kernel.store().get(next).len();
            if count == 0 {
                return Ok(Turn::Refuted);
            }
            Ok(Turn::Changed)
        }
        Fate::Halted => Ok(Turn::Full),
    }
}
