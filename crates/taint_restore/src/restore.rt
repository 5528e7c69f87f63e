//! Restoration of what some literals need.
//!
//! A clause that was parked is mended by its witness in each model found later, and that goes
//! well as long as no firm clause holds the negation of a witness's literal. Between queries a
//! new clause comes, or a literal is assumed, or a variable is observed from outside, so that its
//! value may no more be changed: then the entries whose witnesses hold the negation of one of
//! these literals must become clauses again. And these clauses come with literals of their own,
//! whose negations may stand in further witnesses. To restore everything would be right too, and
//! would undo what simplification gained (Fazekas, Biere, Scholl, "Incremental inprocessing in
//! SAT solving", SAT 2019, whose algorithm this is).
//!
//! The walk goes once from the oldest entry to the newest, with the negations of the literals
//! marked. An entry whose witness holds a marked literal is chosen, and the negations of its
//! clause are marked before the walk goes on. It need not go back: an older entry has the newer
//! ones' clauses among those that its witness leaves true already (the chain), so a clause that
//! comes back can only disturb witnesses that came later. A walk from the newest to the oldest
//! would miss just those.
//!
//! The chosen entries are restored from the newest to the oldest. The rule wants a clause to be
//! clean for the entries behind it, and then it is: those that its literals touch were chosen
//! too, and have left. From the newest on, taking entries out also moves each other entry once in
//! all.
//!
//! The common case is that nothing is needed. It costs as many steps as there are literals, and
//! takes no memory. Else the walk reads each witness once, with a byte for each entry and for
//! each literal up to the greatest that is marked.
ghost use Rattle.std.specs.Prelude.{◌≡◌, ◌+◌, true, false, length, count_by, vec_len};
ghost use Rattle.std.specs.Prelude.{IsOk, IfOk, OnOk, OnErr};
ghost use Rattle.redundancy.specs.Redundancy.{Clean};
ghost use Rattle.clause_store.specs.Listing.{HasEachOnce};
ghost use Rattle.witness_stack.specs.MarkSet.{tainted};
ghost use Rattle.rule_kernel.specs.State.{IsChained};
ghost use Rattle.taint_restore.specs.Needed.{SayNeeded, NeededLeft, OnlyNeededLeft};
ghost use Rattle.taint_restore.specs.Marking.{MarksMore};
ghost use Rattle.taint_restore.specs.Restored.{Restored, IsRestored, SameClauses, KeepsLive};
ghost use Rattle.taint_restore.specs.Restored.{came_at};
ghost use Rattle.taint_restore.specs.Standing.{KeepsStanding};

use rule_kernel::kernel::Kernel;
use sat_model::lists::ClauseId;
use sat_model::literal::Lit;
use sat_model::memory::Memory;
use std::alloc::Global;
use witness_stack::marks::Marks;
use witness_stack::stack::Stack;

// Marks the negations of the literals.
fn mark_negations(marks: &mut Marks, lits: &[Lit]) -> Result<(), Memory>
    ensures { OnOk result (MarksMore lits.now marks.old marks.new) }
{
    for lit in lits {
        marks.mark(lit.neg())?;
    }
    Ok(())
}

// Whether an entry's witness holds a marked literal. Then the negations of its clause's literals
// are marked too.
fn look_at(marks: &mut Marks, witness: &[Lit], clause: &[Lit]) -> Result<bool, Memory>
    ensures chosen { IfOk result (λ b. b ≡ tainted marks.old witness.now) }
    ensures yes { IfOk result (λ b. b ≡ true → MarksMore clause.now marks.old marks.new) }
    ensures no { IfOk result (λ b. b ≡ false → marks.new ≡ marks.old) }
{
    if !marks.has_any(witness) {
        return Ok(false);
    }
    mark_negations(marks, clause)?;
    Ok(true)
}

// Walks from the oldest entry to the newest, and says of each whether the literals need it.
fn choose(alloc: Global, stack: &Stack, lits: &[Lit]) -> Result<Vec<bool>, Memory>
    ensures len { IfOk result (λ v. vec_len v ≡ length stack.now) }
    ensures needed { IfOk result (λ v. SayNeeded v.items lits.now stack.now) }
{
    let mut chosen = vec![in alloc; false; stack.len()]?;
    let mut marks = Marks::new(alloc);
    mark_negations(&mut marks, lits)?;
    for k in 0..stack.len() {
        chosen[k] = look_at(&mut marks, stack.witness(k), stack.clause(k))?;
    }
    Ok(chosen)
}

// How many are chosen.
fn count_chosen(chosen: &[bool]) -> usize
    ensures { result ≡ count_by (λ b. b) chosen.now }
{
    chosen.iter().filter(|c| **c).count()
}

/// Restores the entries of the stack that the literals need, and lists the ids of the clauses
/// that came, in place of what the list had. The others keep their order, and the literals are
/// clean afterwards. Where they are clean before, nothing changes and no memory is taken. After
/// `Memory` some of the needed entries may be restored, and the list has the ids of just those:
/// its own memory is taken before the first is restored.
pub fn restore_listed(
    alloc: Global,
    kernel: &mut Kernel,
    lits: &[Lit],
    ids: &mut Vec<ClauseId>,
) -> Result<(), Memory>
    ensures needed { OnOk result (NeededLeft lits.now kernel.old.stack kernel.new.stack) }
    ensures clean { OnOk result (Clean lits.now kernel.new.stack) }
    ensures partial { OnErr result (OnlyNeededLeft lits.now kernel.old.stack kernel.new.stack) }
    ensures count { length ids.new.items + length kernel.new.stack ≡ length kernel.old.stack }
    ensures same { SameClauses kernel.old kernel.new }
    ensures chained { IsChained kernel.new }
    ensures standing { KeepsStanding kernel.old kernel.new }
    ensures restored { Restored kernel.old ids.new.items kernel.new }
    ensures listed { HasEachOnce (came_at kernel.old.store kernel.new.store) ids.new.items }
    ensures live { KeepsLive kernel.old.store kernel.new.store }
    ensures untouched { Clean lits.now kernel.old.stack → kernel.new ≡ kernel.old }
    ensures spared { Clean lits.now kernel.old.stack → IsOk result }
{
    ids.clear();
    kernel.law_chain();
    if kernel.is_clean(lits) {
        return Ok(());
    }
    let chosen = choose(alloc, kernel.stack(), lits)?;
    // Nothing after this may fail between a restoration and its listing.
    ids.reserve(count_chosen(&chosen))?;
    let mut k = kernel.stack().len();
    while k > 0 {
        k -= 1;
        if chosen[k] {
            let id = kernel.restore(k)?;
            ids.push(id)?;
        }
    }
    Ok(())
}

/// Restores the entries of the stack that the literals need, and answers their number. The others
/// keep their order, and the literals are clean afterwards. Where they are clean before, nothing
/// changes and no memory is taken. After `Memory` some of the needed entries may be restored, and
/// no others.
pub fn restore_for(alloc: Global, kernel: &mut Kernel, lits: &[Lit]) -> Result<u64, Memory>
    ensures needed { OnOk result (NeededLeft lits.now kernel.old.stack kernel.new.stack) }
    ensures clean { OnOk result (Clean lits.now kernel.new.stack) }
    ensures partial { OnErr result (OnlyNeededLeft lits.now kernel.old.stack kernel.new.stack) }
    ensures count { IfOk result (λ n. n + length kernel.new.stack ≡ length kernel.old.stack) }
    ensures same { SameClauses kernel.old kernel.new }
    ensures chained { IsChained kernel.new }
    ensures standing { KeepsStanding kernel.old kernel.new }
    ensures restored { IsRestored kernel.old kernel.new }
    ensures untouched { Clean lits.now kernel.old.stack → kernel.new ≡ kernel.old }
    ensures spared { Clean lits.now kernel.old.stack → IsOk result }
{
    let mut ids = Vec::new(alloc);
    restore_listed(alloc, kernel, lits, &mut ids)?;
    Ok(ids.len() as u64)
}
