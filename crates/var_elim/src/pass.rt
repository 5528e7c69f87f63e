//! The pass: variables whose resolvents are no more than their clauses are eliminated.
//!
//! What the clauses of a variable say of all others is just what their resolvents on it say (Davis and Putnam, "A computing procedure for
//! quantification theory", 1960). So the resolvents may take their place, and the search need not decide and propagate the variable any
//! more. In general there are too many of them; but a variable that stands in few clauses often has no more resolvents than clauses, and
//! then nothing is paid for its going (Eén and Biere, "Effective preprocessing in SAT through variable and clause elimination", SAT 2005).
//! Such a variable is a candidate. Its clauses go to the reconstruction stack, from which a model gets a value for it.
//!
//! The pass takes turns. A turn tests one variable, and eliminates it if it is a candidate. Which ones are to be tested the kernel's marks
//! say: whether a variable is a candidate depends on the clauses that hold it alone, and where one of these comes or goes the variable is
//! marked. A test takes the mark off, and an elimination marks the variables of all clauses that come and go; so the pass need not reason
//! about what an elimination does to other variables. Where every mark is gone no candidate is left, by what every kernel promises. A
//! frozen variable is passed over and keeps its mark, to be tested once it is frozen no longer. So a run after ten new clauses tests the
//! variables of ten clauses, and one with nothing marked tests none.
//!
//! How many steps are enough: a test resolves at most 400 pairs, and takes a mark off or a variable away. Marks come only where a variable
//! goes, and of the n variables that stood in firm clauses at the start at most n are marked at any time. So from one elimination to the
//! next, and to the end, there are at most 400 n steps, and at most n variables go.
//!
//! Left out: a definition of the variable by a gate, of whose clauses fewer resolvents are needed; and subsumption of the resolvents, which
//! is another pass.
ghost use Rattle.std.specs.Prelude.{◌≡◌, ◌≤◌, ◌-◌, IfOk, MatchBool};
ghost use Rattle.rule_kernel.specs.Frozen.{is_frozen};
ghost use Rattle.rule_kernel.specs.declared.report.Ended.TheVariants.{Fixpoint};
ghost use Rattle.pass_terms.specs.Ruled.{Ruled};
ghost use Rattle.var_elim.specs.Eliminating.{all_but};
ghost use Rattle.var_elim.specs.Pass.{Ends, AllFrozen, WentOn, Stopped};

use crate::eliminate::eliminate;
use crate::order::next_var;
use crate::test::{Outcome, test_var};
use flag_set::work::WorkList;
use rule_kernel::frozen::Frozen;
use rule_kernel::kernel::Kernel;
use rule_kernel::report::{Ended, PassReport};
use sat_model::literal::Var;
use sat_model::memory::Memory;

// Tests a variable, and eliminates it if it is a candidate. Answers whether the limit left all steps.
fn turn(kernel: &mut Kernel, var: Var, steps: &mut u64, limit: u64) -> Result<bool, Memory>
    requires { steps.old ≤ limit }
    ensures ruled { Ruled (all_but var) kernel.old kernel.new }
    ensures turned { IfOk result (λ on. MatchBool on
        (WentOn kernel.old kernel.new var steps.old steps.new limit)
        (Stopped kernel.old kernel.new steps.old steps.new limit)) }
{
    if *steps == limit {
        return Ok(false);
    }
    let lit = var.positive();
    let trial = test_var(kernel.alloc(), kernel.store(), lit, limit - *steps)?;
    // A test is a step at least.
    *steps += trial.pairs.max(1);
    match trial.outcome {
        Outcome::Spent => Ok(false),
        Outcome::Fails => {
            kernel.settle_var(var);
            Ok(true)
        }
        Outcome::Fits => {
            eliminate(kernel, lit, trial.resolvents.as_slice())?;
            kernel.settle_var(var);
            Ok(true)
        }
    }
}

// Takes turns until no candidate is left, or the steps reach the limit.
fn take_turns(kernel: &mut Kernel, frozen: &Frozen, limit: u64) -> Result<Ended, Memory>
    ensures ruled { Ruled (is_frozen frozen.now) kernel.old kernel.new }
    ensures ended { IfOk result (λ ended. Ends (is_frozen frozen.now) kernel.old.store kernel.new.store limit ended) }
    ensures idle { AllFrozen (is_frozen frozen.now) kernel.old → kernel.new ≡ kernel.old }
    ensures idle_ends { IfOk result (λ ended. AllFrozen (is_frozen frozen.now) kernel.old → ended ≡ Fixpoint) }
{
    let mut queue = WorkList::new(kernel.alloc());
    let mut steps = 0;
    loop {
        match next_var(kernel, frozen, &mut queue)? {
            None => {
                kernel.law_promises();
                return Ok(Ended::Fixpoint);
            }
            Some(var) => {
                if !turn(kernel, var, &mut steps, limit)? {
                    return Ok(Ended::Limit(steps));
                }
            }
        }
    }
}

/// Eliminates variables that are candidates and not frozen, until none is left (`Fixpoint`), or until as many steps were counted as
/// `limit` and one more is needed (`Limit`). A step is a pair of clauses that is resolved for a test, and a test is one at least. With n
/// the number of variables in firm clauses at the start, a limit of 400 n (n + 1) is always enough, and after `Limit(s)` at least s
/// divided by 400 n of these that are not frozen stand in no firm clause.
///
/// The kernel changes by its rules alone, as passes may use them (`Ruled`), whatever is answered: after `Memory` it is as the last rule left
/// it. `removed` is the rise of the kernel's count of removals. An empty clause that is firm hinders nothing. Variables without a
/// mark are not tested: these are no candidates. Where every marked variable is frozen, nothing changes, and the answer is `Fixpoint`.
pub fn run(kernel: &mut Kernel, frozen: &Frozen, limit: u64) -> Result<PassReport, Memory>
    ensures ruled { Ruled (is_frozen frozen.now) kernel.old kernel.new }
    ensures removed { IfOk result (λ report. report.removed ≡ kernel.new.removals - kernel.old.removals) }
    ensures ended { IfOk result (λ report. Ends (is_frozen frozen.now) kernel.old.store kernel.new.store limit report.ended) }
    ensures idle { AllFrozen (is_frozen frozen.now) kernel.old → kernel.new ≡ kernel.old }
    ensures idle_ends { IfOk result (λ report. AllFrozen (is_frozen frozen.now) kernel.old → report.ended ≡ Fixpoint) }
{
    let removals = kernel.removals();
    let ended = take_turns(kernel, frozen, limit)?;
    Ok(PassReport {
        removed: kernel.removals().saturating_sub(removals),
        ended,
    })
}
