//! The pass: blocked clauses go to the reconstruction stack.
//!
//! A clause is blocked on one of its literals if every resolvent on it with a firm clause that holds the negation is a tautology
//! (Järvisalo, Biere, Heule, TACAS 2010). Whatever makes the other clauses true can be made to make it true too, by setting that literal: a
//! clause that holds the negation stays true by another literal, for where the blocked clause is false, the negation of one of its literals
//! is true and stands there. So the clause may go, with the literal as witness, and takes with it what only it was for: the clauses that
//! define an output that nobody reads, say, one after the other.
//!
//! Clauses that go only make more clauses blocked, and in whatever order they go, the same are left. The kernel marks the literals on which
//! a clause may have become blocked, and no others are looked at: where nothing changed since the last run, a run takes no step. One walk
//! (src/walk.rt) goes through the marked literals up to the first clause that is parked (src/seek.rt), and the next one goes on from there;
//! literals that were marked meanwhile stand at the end of the list. A walk from the front that finds nothing is the last: then only
//! literals of frozen variables are marked, and the kernel promises of all others that no clause is blocked on them.
//!
//! With M firm clauses at the start, a literal that p clauses hold, and its negation q, is done with in at most p max(1, q) steps, and all
//! that are marked in K (M + 1), where K is how often the marked literals stand in firm clauses. That is at most the sum L of the lengths
//! of all firm clauses, and as much may be marked anew with each clause that is parked: so from one of these to the next no more than
//! L (M + 1) steps pass.
//!
//! Covered clauses and clauses that are blocked by a set of literals are left out: they need literals to be added to a clause first.
ghost use Rattle.std.specs.Prelude.{◌≡◌, ◌-◌, Ok, IfOk};
ghost use Rattle.rule_kernel.specs.Frozen.{is_frozen};
ghost use Rattle.rule_kernel.specs.declared.report.Ended.TheVariants.{Fixpoint};
ghost use Rattle.pass_terms.specs.Ruled.{Ruled};
ghost use Rattle.blocked_clauses.specs.Passing.{Ends, AllFrozen, nothing_done};

use crate::walk::{Walk, walk_from};
use rule_kernel::frozen::Frozen;
use rule_kernel::kernel::Kernel;
use rule_kernel::report::{Ended, PassReport};
use sat_model::memory::Memory;

// Walks over the marked literals, until a walk over all of them parks nothing, or the steps reach the limit.
fn walks(kernel: &mut Kernel, frozen: &Frozen, limit: u64) -> Result<Ended, Memory>
    ensures ruled { Ruled (is_frozen frozen.now) kernel.old kernel.new }
    ensures ended { IfOk result (λ ended. Ends (is_frozen frozen.now) kernel.old kernel.new limit ended) }
    ensures idle { AllFrozen (is_frozen frozen.now) kernel.old.marked.lits → (kernel.new ≡ kernel.old) × (result ≡ Ok Fixpoint) }
{
    let mut steps = 0;
    let mut from = 0;
    'walks: loop {
        match walk_from(kernel, frozen, from, &mut steps, limit)? {
            Walk::Parked(place) => from = place,
            Walk::Full => return Ok(Ended::Limit(steps)),
            Walk::Through => {
                let from_front = from == 0;
                if from_front {
                    kernel.law_promises();
                    return Ok(Ended::Fixpoint);
                }
                from = 0;
            }
        }
    }
}

/// Parks clauses that are blocked on a literal whose variable is not frozen, with that literal as witness, until there is none
/// (`Fixpoint`), or until as many steps were counted as `limit` and one more is needed (`Limit`). A step is a clause tested on a literal
/// against one clause with its negation, and each clause that is tested on a literal counts at least one. With L the sum of the lengths of
/// the firm clauses at the start and M their number, a limit of (L + 1) (M + 1) (M + 1) is always enough, and after `Limit(s)` at least
/// s / ((L + 1) (M + 1)) clauses were parked; s is below (K + L p) (M + 1), where p clauses were parked and the marked literals stood K
/// times in firm clauses at the start.
///
/// Only marked literals are looked at. Where none is marked but of frozen variables, nothing changes, and the answer is `Fixpoint`,
/// whatever the limit.
///
/// The kernel changes by its rules alone, as passes may use them (`Ruled`), whatever is answered: after `Memory` it is as the last rule
/// left it. `removed` is the rise of the kernel's count of removals.
pub fn run(kernel: &mut Kernel, frozen: &Frozen, limit: u64) -> Result<PassReport, Memory>
    ensures ruled { Ruled (is_frozen frozen.now) kernel.old kernel.new }
    ensures removed { IfOk result (λ report. report.removed ≡ kernel.new.removals - kernel.old.removals) }
    ensures ended { IfOk result (λ report. Ends (is_frozen frozen.now) kernel.old kernel.new limit report.ended) }
    ensures idle { AllFrozen (is_frozen frozen.now) kernel.old.marked.lits → (kernel.new ≡ kernel.old) × (result ≡ Ok nothing_done) }
{
    let removals = kernel.removals();
    let ended = walks(kernel, frozen, limit)?;
    Ok(PassReport {
        removed: kernel.removals().saturating_sub(removals),
        ended,
    })
}
