//! The pass: firm clauses are shortened by unit propagation over the other firm clauses.
//!
//! A clause with a literal that it does not need takes part in fewer conflicts and propagations
//! than it could, for as long as it lives. Such a literal is found by assuming the others false:
//! where the other clauses then have a conflict, or make one of the literals true or false, a
//! shorter clause follows, and takes the place of the longer one. It comes as an implied clause,
//! and then the old one is implied by it and goes. Nothing is parked, so no variable is touched
//! that is frozen.
//!
//! With L the sum of the lengths of the firm clauses at the start, a round is at most L steps,
//! and each but the last takes a literal away. So L (L + 1) steps are enough.
ghost use Rattle.std.specs.Prelude.{◌≡◌, ◌-◌, true, false, Ok, IfOk};
ghost use Rattle.rule_kernel.specs.Frozen.{is_frozen};
ghost use Rattle.rule_kernel.specs.declared.report.Ended.TheVariants.{Fixpoint};
ghost use Rattle.firm_terms.specs.Firm.{firm, has_empty};
ghost use Rattle.firm_terms.specs.Vivifying.{AllCalm};
ghost use Rattle.rule_kernel.specs.Rules.{SameButMarks};
ghost use Rattle.pass_terms.specs.Ruled.{Ruled};
ghost use Rattle.vivify_pass.specs.Turning.{Ends};

use crate::root::set_up;
use crate::turn::rounds;
use pass_terms::refuted::is_refuted;
use rule_kernel::frozen::Frozen;
use rule_kernel::kernel::Kernel;
use rule_kernel::report::{Ended, PassReport};
use sat_model::memory::Memory;
use trail_state::trail::Trail;
use watch_lists::watches::Watches;

// The kernel remembers an end at which vivification shortens no clause.
fn remember(kernel: &mut Kernel, ended: Ended)
    requires { ended ≡ Fixpoint → AllCalm kernel.old.store }
    ensures same { SameButMarks kernel.old kernel.new }
    ensures settled { ended ≡ Fixpoint → kernel.new.settled.calm ≡ true }
{
    match ended {
        Ended::Fixpoint => kernel.settle_calm(),
        Ended::Limit(_) => {}
    }
}

/// Shortens firm clauses by unit propagation over the other firm clauses, until a whole round
/// shortens none (`Fixpoint`), or until as many steps were counted as `limit` and one more is
/// needed (`Limit`). A step is a literal that is assumed. With L the sum of the lengths of the
/// firm clauses at the start, a limit of L (L + 1) is always enough, and after `Limit(s)` this
/// sum has fallen by at least s / L.
///
/// The kernel changes by its rules alone, as passes may use them (`Ruled`), whatever is answered:
/// after `Memory` it is as the last rule left it. No clause is parked, whatever is frozen.
/// `removed` is the rise of the kernel's count of removals. Where an empty clause is firm,
/// nothing changes, and the answer is `Fixpoint`.
///
/// After any other `Fixpoint` the kernel remembers that no clause is shortened. Where it remembers
/// so still, since no clause came, nothing changes, and the answer is `Fixpoint` with none removed,
/// whatever the limit: it costs no step and no time.
pub fn run(kernel: &mut Kernel, frozen: &Frozen, limit: u64) -> Result<PassReport, Memory>
    ensures ruled { Ruled (is_frozen frozen.now) kernel.old kernel.new }
    ensures removed { IfOk result (λ report.
        report.removed ≡ kernel.new.removals - kernel.old.removals) }
    ensures ended { IfOk result (λ report. has_empty (firm kernel.old.store) ≡ false
        → Ends kernel.old.store kernel.new.store limit report.ended) }
    ensures refuted { has_empty (firm kernel.old.store) ≡ true → kernel.new ≡ kernel.old }
    ensures refuted_ends { IfOk result (λ report.
        has_empty (firm kernel.old.store) ≡ true → report.ended ≡ Fixpoint) }
    ensures settled { IfOk result (λ report. has_empty (firm kernel.old.store) ≡ false
        → report.ended ≡ Fixpoint → kernel.new.settled.calm ≡ true) }
    ensures idle { kernel.old.settled.calm ≡ true → kernel.new ≡ kernel.old }
    ensures idle_ends { kernel.old.settled.calm ≡ true
        → result ≡ Ok (record { removed = 0; ended = Fixpoint }) }
{
    // Nothing is parked, so nothing need be asked of it.
    let _ = frozen;
    let removals = kernel.removals();
    let calm = kernel.is_calm();
    if calm {
        return Ok(PassReport {
            removed: 0,
            ended: Ended::Fixpoint,
        });
    }
    if is_refuted(kernel.store()) {
        return Ok(PassReport {
            removed: 0,
            ended: Ended::Fixpoint,
        });
    }
    let alloc = kernel.alloc();
    let mut trail = Trail::new(alloc);
    let mut watches = Watches::new(alloc);
    set_up(alloc, kernel.store(), &mut watches, &mut trail)?;
    let ended = rounds(alloc, kernel, &mut watches, &mut trail, limit)?;
    remember(kernel, ended);
    Ok(PassReport {
        removed: kernel.removals().saturating_sub(removals),
        ended,
    })
}
