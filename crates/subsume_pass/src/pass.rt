//! The pass: subsumption and self-subsuming resolution, over the clauses that wait.
//!
//! A clause that holds all of another one says nothing more, and a literal that a resolution with another clause takes away is not needed:
//! each costs time in every propagation that meets it. SatELite (Eén and Biere, SAT 2005) removes both, and its way is the one here: a
//! clause is tried on those that hold its rarest variable.
//!
//! What is new is that the clauses need not all be compared each time. The kernel keeps, from run to run, which clauses are due to be
//! tried on all others, and which are fresh, so that all others are to be tried on them; all pairs of others are known to be free of one
//! another. The pass takes the fresh ones first, and then, where none is fresh, the ones that are due, and takes each off the kernel's
//! lists by the fact that was found. Where nothing waits the pass ends at once. Where more waits than there are clauses, all clauses
//! become due, which is less: so in a first run none is fresh, and each pair is compared in the one way and in the other at most once.
//!
//! It goes in rounds, and a round ends with the first turn that changes a clause. With M firm clauses at the start of a round, at most M
//! wait then, a turn that changes nothing takes one off, and each has at most M steps: so a round has at most M M steps. No more than
//! there are firm clauses wait at its end too: what is fresh is due, so the shorter clause that comes takes the place of the one that
//! goes in both lists. And there are no more rounds than there are clauses and literals, for each but the last has fewer after it.
//!
//! An empty clause ends the pass wherever it is met: it lies within every other clause, and there is nothing left to simplify. Nothing is
//! parked, so it does not matter which variables are frozen.
ghost use Rattle.std.specs.Prelude.{◌≡◌, ◌≤◌, ◌<◌, ◌-◌, ◌+◌, length, true, Ok, IfOk};
ghost use Rattle.clause_store.specs.Stored.{slot};
ghost use Rattle.firm_terms.specs.Firm.{firm, has_empty};
ghost use Rattle.rule_kernel.specs.Frozen.{is_frozen};
ghost use Rattle.rule_kernel.specs.Rules.{SameButMarks};
ghost use Rattle.rule_kernel.specs.declared.report.Ended.TheVariants.{Fixpoint};
ghost use Rattle.pass_terms.specs.Ruled.{Ruled, always};
ghost use Rattle.subsume_pass.specs.Trying.{waits, Passed};
ghost use Rattle.subsume_pass.specs.Pass.{IsIdle, Rounded, Ends};

use crate::fresh::turn_fresh;
use crate::turn::{Turn, turn_due};
use pass_terms::refuted::is_refuted;
use rule_kernel::frozen::Frozen;
use rule_kernel::kernel::Kernel;
use rule_kernel::report::{Ended, PassReport};
use sat_model::memory::Memory;

// How a round ended.
#[derive(Clone, Copy)]
pub(crate) enum Round {
    // A turn changed a clause.
    Changed,
    // None waits, or an empty clause is firm.
    Quiet,
    // The limit left no step.
    Full,
}

// Whether no more waits than there are firm clauses.
fn few_wait(kernel: &Kernel) -> bool
    ensures { result ≡ true → waits kernel.now.waiting ≤ length (firm kernel.now.store) }
{
    let firm = kernel.store().firm_ids().len();
    let due = kernel.due().len();
    due <= firm && kernel.fresh().len() <= firm - due
}

// Lets all firm clauses be due where more wait than there are firm clauses.
fn let_few_wait(kernel: &mut Kernel)
    ensures same { SameButMarks kernel.old kernel.new }
    ensures few { waits kernel.new.waiting ≤ length (firm kernel.new.store) }
{
    if few_wait(kernel) {
        return;
    }
    kernel.make_all_due();
}

// Takes the last of the clauses that are fresh, or, where none is, of those that are due.
fn one_turn(kernel: &mut Kernel, steps: &mut u64, limit: u64) -> Result<Turn, Memory>
    requires some { 0 < length kernel.old.waiting.due + length kernel.old.waiting.fresh }
    requires few { waits kernel.old.waiting ≤ length (firm kernel.old.store) }
    requires rest { steps.old ≤ limit }
    ensures ruled { Ruled always kernel.old kernel.new }
    ensures passed { IfOk result (λ turn. Passed kernel.old kernel.new steps.old steps.new limit turn) }
{
    if kernel.fresh().len() > 0 {
        return turn_fresh(kernel, steps, limit);
    }
    turn_due(kernel, steps, limit)
}

// Takes clauses that wait, up to the first turn that changes a clause.
fn one_round(kernel: &mut Kernel, steps: &mut u64, limit: u64) -> Result<Round, Memory>
    requires few { waits kernel.old.waiting ≤ length (firm kernel.old.store) }
    requires rest { steps.old ≤ limit }
    ensures ruled { Ruled always kernel.old kernel.new }
    ensures rounded { IfOk result (λ round. Rounded kernel.old kernel.new steps.old steps.new limit round) }
{
    while kernel.due().len() > 0 || kernel.fresh().len() > 0 {
        match one_turn(kernel, steps, limit)? {
            Turn::Done => {}
            Turn::Changed => return Ok(Round::Changed),
            Turn::Refuted => return Ok(Round::Quiet),
            Turn::Full => return Ok(Round::Full),
        }
    }
    kernel.law_promises();
    Ok(Round::Quiet)
}

// Takes clauses that wait, until none waits or the steps reach the limit.
fn work_off(kernel: &mut Kernel, limit: u64) -> Result<Ended, Memory>
    requires few { waits kernel.old.waiting ≤ length (firm kernel.old.store) }
    ensures ruled { Ruled always kernel.old kernel.new }
    ensures ended { IfOk result (λ ended. Ends kernel.old kernel.new limit ended) }
{
    let mut steps = 0;
    loop {
        match one_round(kernel, &mut steps, limit)? {
            Round::Changed => {}
            Round::Quiet => return Ok(Ended::Fixpoint),
            Round::Full => return Ok(Ended::Limit(steps)),
        }
    }
}

/// Drops each firm clause that another one lies within, and shortens each from which a resolution with another one takes a literal away,
/// until there is none (`Fixpoint`), or until as many steps were counted as `limit` and one more is needed (`Limit`). A step is a
/// comparison of two firm clauses. With M firm clauses of L literals together at the start, a limit of M M (L + M + 1) is always enough,
/// and after `Limit(s)` the number of the firm clauses and of their literals together has fallen by at least s / (M M).
///
/// Only clauses that wait, as the kernel knows, are compared with others. After `Fixpoint` none waits, so that a second run takes no step
/// and no time; after `Limit` and `Memory` whatever was not compared yet still waits. Where an empty clause is firm, nothing changes; where
/// one comes, the pass ends with `Fixpoint`, and what it says is not claimed.
///
/// The kernel changes by its rules alone, as passes may use them (`Ruled`), whatever is answered: after `Memory` it is as the last rule
/// left it. No clause is parked, whatever is frozen. `removed` is the rise of the kernel's count of removals.
pub fn run(kernel: &mut Kernel, frozen: &Frozen, limit: u64) -> Result<PassReport, Memory>
    ensures ruled { Ruled (is_frozen frozen.now) kernel.old kernel.new }
    ensures removed { IfOk result (λ report. report.removed ≡ kernel.new.removals - kernel.old.removals) }
    ensures ended { IfOk result (λ report. Ends kernel.old kernel.new limit report.ended) }
    ensures refuted { has_empty (firm kernel.old.store) ≡ true → kernel.new ≡ kernel.old }
    ensures refuted_ends { IfOk result (λ report. has_empty (firm kernel.old.store) ≡ true → report.ended ≡ Fixpoint) }
    ensures idle { IsIdle kernel.old.waiting → kernel.new ≡ kernel.old }
    ensures idle_ends { IsIdle kernel.old.waiting → result ≡ Ok (record { removed = 0; ended = Fixpoint }) }
{
    // Nothing is parked, so nothing need be asked of it.
    let _ = frozen;
    let removals = kernel.removals();
    if kernel.due().len() == 0 && kernel.fresh().len() == 0 {
        kernel.law_promises();
        return Ok(PassReport {
            removed: 0,
            ended: Ended::Fixpoint,
        });
    }
    if is_refuted(kernel.store()) {
        return Ok(PassReport {
            removed: 0,
            ended: Ended::Fixpoint,
        });
    }
    let_few_wait(kernel);
    let ended = work_off(kernel, limit)?;
    Ok(PassReport {
        removed: kernel.removals().saturating_sub(removals),
        ended,
    })
}
