//! Which variable is tested next.
//!
//! The variables that are marked and not frozen wait in a queue. It is filled where it has run empty, and what is marked meanwhile waits
//! for the next time; so all that the frozen variables cost is one look at each whenever the queue is filled. Where it stays empty no
//! marked variable is left but frozen ones, and the pass is done.
//!
//! The variable with the fewest pairs of clauses comes first. It is tested at the least cost and is the likeliest candidate, and after its
//! elimination others may have fewer clauses (Eén and Biere 2005). The ranks are found when the queue is filled, and a sort brings the
//! variables into order; they are not kept up to date while the queue empties, since what an elimination changes is marked and ranked
//! again soon. The last of a queue is taken out first, which costs nothing there.
//!
//! By the time that its turn comes a variable may stand in no clause any more. It is no candidate then, and neither tested nor counted.
//!
//! A queue is a work list, in which no variable stands twice: each is tested once, and is marked yet when it is.
ghost use Rattle.std.specs.Prelude.{◌≡◌, ◌||◌, ◌==◌, ℕ, [], true, false, IfOk, IfSome, IfNone, OnOk};
ghost use Rattle.sat_terms.specs.Literal.{has};
ghost use Rattle.firm_terms.specs.Firm.{firm, stands};
ghost use Rattle.rule_kernel.specs.Frozen.{is_frozen};
ghost use Rattle.var_elim.specs.Pass.{Queued, AllQueued, TakenOut, Unmarks, Picked, NoneStands, Chosen, AllFrozen, NoneLeft, Ranks};

use clause_store::store::Store;
use flag_set::work::WorkList;
use rule_kernel::frozen::Frozen;
use rule_kernel::kernel::Kernel;
use sat_model::literal::Var;
use sat_model::memory::Memory;

// A variable, and what ranks it.
#[derive(Clone, Copy, PartialEq, Eq, PartialOrd, Ord)]
pub(crate) struct Ranked {
    // How far the product of its occurrences lies below the greatest that a candidate may have.
    spare: usize,
    // The variable, which tells two of one rank apart.
    var: Var,
}

// Whether a variable stands in a firm clause.
fn is_there(store: &Store, var: Var) -> bool
    ensures { result ≡ stands (firm store.now) var }
{
    let positive = store.occ(var.positive()).len();
    if positive > 0 {
        return true;
    }
    let negative = store.occ(var.negative()).len();
    negative > 0
}

// Takes a variable out of a queue.
fn pop(queue: &mut WorkList<Var>) -> Option<Var>
    ensures some { IfSome result (λ var. TakenOut queue.old.members queue.new.members var) }
    ensures none { IfNone result (queue.old.members ≡ []) }
    ensures left { IfNone result (queue.new ≡ queue.old) }
{
    let count = queue.as_slice().len();
    if count == 0 {
        return None;
    }
    let var = queue.as_slice()[count - 1];
    queue.take_out(var);
    Some(var)
}

// Takes variables out of a queue, up to the first that stands in a firm clause. The others need no mark.
fn pop_standing(kernel: &mut Kernel, queue: &mut WorkList<Var>) -> Option<Var>
    ensures unmarks { Unmarks kernel.old kernel.new }
    ensures some { IfSome result (λ var. Picked kernel.old kernel.new queue.old.members queue.new.members var) }
    ensures none { IfNone result (NoneStands kernel.old queue.old.members) }
    ensures left { IfNone result (queue.new.members ≡ []) }
    ensures idle { queue.old.members ≡ [] → kernel.new ≡ kernel.old }
{
    while let Some(var) = pop(queue) {
        if is_there(kernel.store(), var) {
            return Some(var);
        }
        kernel.settle_var(var);
    }
    None
}

// Puts a variable into a queue, if it is not there.
fn enqueue(queue: &mut WorkList<Var>, var: Var) -> Result<(), Memory>
    ensures { OnOk result ((v : ℕ) → has queue.new.members v ≡ (has queue.old.members v || var == v)) }
{
    queue.reach(var)?;
    queue.put(var);
    Ok(())
}

// How much of the 400 pairs that a candidate may have is left over by a variable's pairs of clauses.
fn spare_of(store: &Store, var: Var) -> usize {
    let positive = store.occ(var.positive()).len();
    let negative = store.occ(var.negative()).len();
    400usize.saturating_sub(positive.saturating_mul(negative))
}

// The marked variables that are not frozen, with their ranks.
fn rank_all(kernel: &Kernel, frozen: &Frozen) -> Result<Vec<Ranked>, Memory>
    ensures { IfOk result (λ all. Ranks (is_frozen frozen.now) kernel.now.marked.vars all.items) }
{
    let mut all = Vec::new(kernel.alloc());
    for var in kernel.marked_vars() {
        if !frozen.has(*var) {
            let spare = spare_of(kernel.store(), *var);
            all.push(Ranked { spare, var: *var })?;
        }
    }
    Ok(all)
}

// Puts every marked variable that is not frozen into a queue, the one with the fewest pairs of clauses last.
fn collect(kernel: &Kernel, frozen: &Frozen, queue: &mut WorkList<Var>) -> Result<(), Memory>
    requires { queue.old.members ≡ [] }
    ensures queued { OnOk result (Queued (is_frozen frozen.now) kernel.now queue.new.members) }
    ensures all { OnOk result (AllQueued (is_frozen frozen.now) kernel.now queue.new.members) }
{
    let mut all = rank_all(kernel, frozen)?;
    all.sort_unstable();
    for ranked in all.as_slice() {
        enqueue(queue, ranked.var)?;
    }
    Ok(())
}

/// The variable to be tested next: one of a queue, which is filled again where it has none. It is marked, not frozen, and stands in a
/// firm clause.
pub(crate) fn next_var(
    kernel: &mut Kernel,
    frozen: &Frozen,
    queue: &mut WorkList<Var>,
) -> Result<Option<Var>, Memory>
    requires { Queued (is_frozen frozen.now) kernel.old queue.old.members }
    ensures unmarks { Unmarks kernel.old kernel.new }
    ensures idle { AllFrozen (is_frozen frozen.now) kernel.old → queue.old.members ≡ [] → kernel.new ≡ kernel.old }
    ensures some { IfOk result (λ found. IfSome found (λ var. Chosen (is_frozen frozen.now) kernel.new queue.new.members var)) }
    ensures none { IfOk result (λ found. IfNone found (NoneLeft (is_frozen frozen.now) kernel.new)) }
{
    if let Some(var) = pop_standing(kernel, queue) {
        return Ok(Some(var));
    }
    collect(kernel, frozen, queue)?;
    Ok(pop_standing(kernel, queue))
}
