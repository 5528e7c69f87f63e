//! Clauses that come, go, are parked and restored, and models that are extended; tall stacks of clauses of six literals, which is more
//! than lie in an entry itself; and what is marked.
ghost use Rattle.std.specs.Prelude.{◌≡◌, ℕ, [], None, OnOk, IfOk};
ghost use Rattle.sat_terms.specs.Normal.{IsNormal};
ghost use Rattle.redundancy.specs.Redundancy.{StackWithin};
ghost use Rattle.clause_store.specs.Stored.{slot};

use crate::frozen::Frozen;
use crate::kernel::Kernel;
use sat_model::lists::ClauseId;
use sat_model::literal::{Lit, Var};
use std::alloc::Global;
use std::test::Fail;

// Adds the clause of two literals whose variables rise, where it is clean, and parks it with the first of them.
fn park_pair(kernel: &mut Kernel, low: Lit, high: Lit) -> Result<(), Fail>
    requires empty { (id : ℕ) → slot kernel.old.store id ≡ None }
    requires within { StackWithin 4 kernel.old.stack }
    ensures empty { OnOk result ((id : ℕ) → slot kernel.new.store id ≡ None) }
    ensures within { OnOk result (StackWithin 4 kernel.new.stack) }
{
    let lits = [low, high];
    if low.var().index() >= high.var().index() || low.var().index() > 4 || !kernel.is_clean(&lits) {
        return Err("the clause may not be added")?;
    }
    let id = kernel.add(&lits)?;
    kernel.park(id, &[low])?;
    Ok(())
}

// Restores the newest entry, if there is one.
fn restore_newest(kernel: &mut Kernel) -> Result<ClauseId, Fail> {
    let len = kernel.stack().len();
    if len == 0 {
        return Err("no entry")?;
    }
    Ok(kernel.restore(len - 1)?)
}

// Adds the clause of the first literal; adds and drops that of the first two, which it implies; learns and forgets that of
// the third.
fn come_and_go(kernel: &mut Kernel, low: Lit, high: Lit, other: Lit) -> Result<ClauseId, Fail>
    requires { kernel.old.stack ≡ [] }
{
    let lits = [low, high];
    if low.var().index() >= high.var().index() {
        return Err("the variables do not rise")?;
    }
    let first = kernel.add(&[low])?;
    let second = kernel.add_implied(&lits)?;
    kernel.drop_implied(second);
    let third = kernel.learn(&[other], 1)?;
    kernel.forget(third);
    Ok(first)
}

// The clause of the positive literals of variables in a row.
fn row(alloc: Global, first: u32, end: u32) -> Result<Vec<Lit>, Fail>
    ensures { IfOk result (λ lits. IsNormal lits.items) }
{
    let mut lits = Vec::new(alloc);
    for n in first..end {
        match Var::new(n) {
            Some(var) => lits.push(var.positive())?,
            None => return Err("no variable")?,
        }
    }
    Ok(lits)
}

// Adds the clause of six variables in a row, where it is clean, and parks it with the first of them.
fn park_row(kernel: &mut Kernel, alloc: Global, first: u32) -> Result<(), Fail>
    requires { (id : ℕ) → slot kernel.old.store id ≡ None }
    ensures { OnOk result ((id : ℕ) → slot kernel.new.store id ≡ None) }
{
    let lits = row(alloc, first, first.saturating_add(6))?;
    if lits.len() == 0 || !kernel.is_clean(lits.as_slice()) {
        return Err("the clause may not be added")?;
    }
    let witness = lits[0];
    let id = kernel.add(lits.as_slice())?;
    kernel.park(id, &[witness])?;
    Ok(())
}

// Parks 300 such clauses, each two variables further.
fn park_rows(kernel: &mut Kernel, alloc: Global) -> Result<(), Fail>
    requires { kernel.old.store ≡ [] }
{
    for n in 0..300u32 {
        park_row(kernel, alloc, 2 * n + 1)?;
    }
    Ok(())
}

// Restores the entry at a place, where its clause is clean for the whole stack.
fn restore_at(kernel: &mut Kernel, k: usize) -> Result<ClauseId, Fail> {
    if k >= kernel.stack().len() || !kernel.is_clean(kernel.stack().clause(k)) {
        return Err("the entry may not be restored")?;
    }
    Ok(kernel.restore(k)?)
}

// Restores every second entry, from the newest to the oldest.
fn restore_every_second(kernel: &mut Kernel) -> Result<(), Fail> {
    for k in (0..kernel.stack().len()).rev() {
        if k % 2 == 1 {
            restore_at(kernel, k)?;
        }
    }
    Ok(())
}

// Takes a variable's mark off, where it stands in no firm clause.
fn settle_absent_var(kernel: &mut Kernel, var: Var) {
    let positive = kernel.store().occ(var.positive()).len();
    let negative = kernel.store().occ(var.negative()).len();
    if positive == 0 {
        if negative == 0 {
            kernel.settle_var(var);
        }
    }
}

// Takes a literal's mark off, where it stands in no firm clause.
fn settle_absent_lit(kernel: &mut Kernel, lit: Lit) {
    let count = kernel.store().occ(lit).len();
    if count == 0 {
        kernel.settle_lit(lit);
    }
}

// Takes all marks off, where the clauses of all variables are gone.
fn settle_all(kernel: &mut Kernel) {
    for _turn in 0..kernel.marked_vars().len() {
        if kernel.marked_vars().len() > 0 {
            settle_absent_var(kernel, kernel.marked_vars()[0]);
        }
    }
    for _turn in 0..kernel.marked_lits().len() {
        if kernel.marked_lits().len() > 0 {
            settle_absent_lit(kernel, kernel.marked_lits()[0]);
        }
    }
}

// How many clauses are firm, and how many stand on the stack; how many variables are marked, and how many literals.
fn figures(kernel: &Kernel) -> [usize; 4] {
    [
        kernel.store().firm_ids().len(),
        kernel.stack().len(),
        kernel.marked_vars().len(),
        kernel.marked_lits().len(),
    ]
}

// How many clauses are due, and how many fresh.
fn waiting(kernel: &Kernel) -> [usize; 2] {
    [kernel.due().len(), kernel.fresh().len()]
}

// Whether the store has one firm clause, of this id and these literals.
fn has_only(kernel: &Kernel, id: ClauseId, lits: &[Lit]) -> bool {
    let ids = kernel.store().firm_ids();
    ids.len() == 1 && ids[0] == id && kernel.store().is_live(id) && kernel.store().get(id) == lits
}

// Parks three clauses that each follow from the one before.
fn park_three(kernel: &mut Kernel) -> Result<(), Fail>
    requires empty { (id : ℕ) → slot kernel.old.store id ≡ None }
    requires within { StackWithin 4 kernel.old.stack }
    ensures empty { OnOk result ((id : ℕ) → slot kernel.new.store id ≡ None) }
    ensures within { OnOk result (StackWithin 4 kernel.new.stack) }
{
    let one = Lit::new(1).ok_or("no literal")?;
    let two = Lit::new(2).ok_or("no literal")?;
    let three = Lit::new(3).ok_or("no literal")?;
    let four = Lit::new(4).ok_or("no literal")?;
    park_pair(kernel, one, two)?;
    park_pair(kernel, two.neg(), three)?;
    park_pair(kernel, three.neg(), four)?;
    Ok(())
}

// What the stack makes of the model in which nothing is true.
fn extended(kernel: &Kernel) -> [bool; 4]
    requires empty { (id : ℕ) → slot kernel.now.store id ≡ None }
    requires within { StackWithin 4 kernel.now.stack }
{
    let mut model = [false; 4];
    kernel.extend(&mut model);
    model
}

// How often clauses were removed, and how often restored.
fn counts(kernel: &Kernel) -> [u64; 2] {
    [kernel.removals(), kernel.restores()]
}

// Restores the newest entry, and looks whether it is the clause of two literals and the only firm one.
fn restores_pair(kernel: &mut Kernel) -> Result<bool, Fail> {
    let three = Lit::new(3).ok_or("no literal")?;
    let four = Lit::new(4).ok_or("no literal")?;
    let id = restore_newest(kernel)?;
    Ok(has_only(kernel, id, &[three.neg(), four]))
}

#[test]
fn parked_clauses_extend_models(rt: HostRuntime) -> Result<(), Fail> {
    let mut kernel = Kernel::new(rt.alloc());
    park_three(&mut kernel)?;
    assert_eq!(rt; extended(&kernel), [true, false, false, false]);
    assert_eq!(rt; counts(&kernel), [3, 0]);
    let restored = restores_pair(&mut kernel)?;
    assert!(rt; restored && kernel.stack().len() == 2);
    assert_eq!(rt; counts(&kernel), [3, 1]);
    Ok(())
}

#[test]
fn clauses_come_and_go(rt: HostRuntime) -> Result<(), Fail> {
    let one = Lit::new(1).ok_or("no literal")?;
    let two = Lit::new(2).ok_or("no literal")?;
    let five = Lit::new(5).ok_or("no literal")?;
    let mut kernel = Kernel::new(rt.alloc());
    let first = come_and_go(&mut kernel, one, two, five)?;
    assert!(rt; has_only(&kernel, first, &[one]));
    assert!(rt; kernel.store().redundant_ids().is_empty());
    // The learned clause marks nothing, and the one that was dropped its variables and the negations of its literals.
    assert_eq!(rt; figures(&kernel), [1, 0, 2, 4]);
    Ok(())
}

// Parks many long clauses, takes all marks off, and restores every second clause; gives the figures after each.
fn tall_figures(kernel: &mut Kernel, alloc: Global) -> Result<[[usize; 4]; 3], Fail>
    requires { kernel.old.store ≡ [] }
{
    park_rows(kernel, alloc)?;
    let parked = figures(kernel);
    settle_all(kernel);
    let settled = figures(kernel);
    restore_every_second(kernel)?;
    kernel.compact()?;
    Ok([parked, settled, figures(kernel)])
}

#[test]
fn tall_stacks_of_long_clauses(rt: HostRuntime) -> Result<(), Fail> {
    // Each clause came and went, so both literals of each variable are marked.
    let mut kernel = Kernel::new(rt.alloc());
    let rows = tall_figures(&mut kernel, rt.alloc())?;
    assert_eq!(rt; rows[0], [0, 300, 604, 1208]);
    assert_eq!(rt; rows[1], [0, 300, 0, 0]);
    assert_eq!(rt; rows[2], [150, 150, 602, 602]);
    assert_eq!(rt; counts(&kernel), [300, 150]);
    Ok(())
}

#[test]
fn variables_are_frozen(rt: HostRuntime) -> Result<(), Fail> {
    let three = Var::new(3).ok_or("no variable")?;
    let four = Var::new(4).ok_or("no variable")?;
    let mut frozen = Frozen::new(rt.alloc());
    frozen.freeze(three)?;
    assert!(rt; frozen.has(three) && !frozen.has(four));
    Ok(())
}

#[test]
fn what_came_waits(rt: HostRuntime) -> Result<(), Fail> {
    // Of many rows that come and are parked, those that are restored wait, in both ways, until all are due.
    let mut kernel = Kernel::new(rt.alloc());
    park_rows(&mut kernel, rt.alloc())?;
    restore_every_second(&mut kernel)?;
    assert_eq!(rt; waiting(&kernel), [150, 150]);
    kernel.make_all_due();
    assert_eq!(rt; waiting(&kernel), [150, 0]);
    Ok(())
}
