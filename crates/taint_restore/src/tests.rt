//! What literals need of stacks made by the rules: the stack `(1: 1 2)`, `(-2: -2 3)`, `(-3: -3
//! 4)`; some hundred small random ones, beside the definition as it reads; and stacks of four
//! thousand long clauses, above every buffer, of which half are restored.
ghost use Rattle.std.specs.Prelude.{◌≡◌, ◌<◌, ℕ, None, length, OnOk};
ghost use Rattle.clause_store.specs.Stored.{slot};

use crate::restore::{restore_for, restore_listed};
use normal_form::forms::is_normal;
use rule_kernel::kernel::Kernel;
use sat_model::lists::ClauseId;
use sat_model::literal::{Lit, Var};
use std::alloc::Global;
use std::test::Fail;
use witness_stack::entries::Entries;
use witness_stack::stack::Stack;

// How many small kernels are made.
const KERNELS: u32 = 400;
// How many variables they have, and how many clauses are tried.
const VARS: u32 = 10;

const TRIES: u32 = 20;
// How many entries a tall stack has.
const TALL: u32 = 4000;

// Adds a clause to a kernel without clauses and parks it with its first `count` literals, where
// it is normal and clean. Otherwise the kernel stays.
fn park(kernel: &mut Kernel, lits: &[Lit], count: usize) -> Result<(), Fail>
    requires { (id : ℕ) → slot kernel.old.store id ≡ None }
    ensures { OnOk result ((id : ℕ) → slot kernel.new.store id ≡ None) }
{
    if count == 0 || count > lits.len() || !is_normal(lits) || !kernel.is_clean(lits) {
        return Ok(());
    }
    let id = kernel.add(lits)?;
    kernel.park(id, &lits[..count])?;
    Ok(())
}

// The literal of a number.
fn lit(number: i32) -> Result<Lit, Fail> {
    Ok(Lit::new(number).ok_or("no literal")?)
}

// Parks the clause of two literals with the first of them.
fn park_pair(kernel: &mut Kernel, low: i32, high: i32) -> Result<(), Fail>
    requires { (id : ℕ) → slot kernel.old.store id ≡ None }
    ensures { OnOk result ((id : ℕ) → slot kernel.new.store id ≡ None) }
{
    let lits = [lit(low)?, lit(high)?];
    park(kernel, &lits, 1)
}

// The stack `(1: 1 2)`, `(-2: -2 3)`, `(-3: -3 4)`.
fn three_parked(alloc: Global) -> Result<Kernel, Fail> {
    let mut kernel = Kernel::new(alloc);
    for (low, high) in [(1, 2), (-2, 3), (-3, 4)] {
        park_pair(&mut kernel, low, high)?;
    }
    Ok(kernel)
}

// How many entries a literal needs, how many stay, and how many clauses are firm then.
fn restore_one(alloc: Global, kernel: &mut Kernel, number: i32) -> Result<[usize; 3], Fail> {
    let count = restore_for(alloc, kernel, &[lit(number)?])?;
    Ok([
        count as usize,
        kernel.stack().len(),
        kernel.store().firm_ids().len(),
    ])
}

// The same of that stack.
fn needed_of_three(alloc: Global, number: i32) -> Result<[usize; 3], Fail> {
    let mut kernel = three_parked(alloc)?;
    restore_one(alloc, &mut kernel, number)
}

#[test]
fn exactly_the_needed_entries_leave(rt: HostRuntime) -> Result<(), Fail> {
    for (number, found) in [
        (-1, [3usize, 0, 3]),
        (2, [2, 1, 2]),
        (3, [1, 2, 1]),
        (1, [0, 3, 0]),
        (-2, [0, 3, 0]),
        (4, [0, 3, 0]),
    ] {
        assert_eq!(rt; needed_of_three(rt.alloc(), number)?, found, "for {number}");
    }
    Ok(())
}

// A number below a bound, from a state that goes on (Knuth's linear congruential generator).
fn draw(state: &mut u64, bound: u32) -> u32
    requires { 0 < bound }
    ensures { result < bound }
{
    *state = state
        .wrapping_mul(6_364_136_223_846_793_005)
        .wrapping_add(1_442_695_040_888_963_407);
    let high = (*state / 8_589_934_592) as u32;
    high % bound
}

// Draws a literal of a variable, or none: one time in three.
fn draw_lit(state: &mut u64, var: Var) -> Option<Lit> {
    match draw(state, 6) {
        0 => Some(var.positive()),
        1 => Some(var.negative()),
        _ => None,
    }
}

// Draws a clause of some of the variables.
fn draw_clause(alloc: Global, state: &mut u64) -> Result<Vec<Lit>, Fail> {
    let mut lits = Vec::new(alloc);
    for n in 0..VARS {
        let var = Var::new(n + 1).ok_or("no variable")?;
        if let Some(lit) = draw_lit(state, var) {
            lits.push(lit)?;
        }
    }
    Ok(lits)
}

// Draws a kernel with a stack: clauses that are clean when they come, with one or two literals as
// witness.
fn draw_kernel(alloc: Global, state: &mut u64) -> Result<Kernel, Fail> {
    let mut kernel = Kernel::new(alloc);
    for _try in 0..TRIES {
        let lits = draw_clause(alloc, state)?;
        let count = draw(state, 2) as usize + 1;
        park(&mut kernel, lits.as_slice(), count)?;
    }
    Ok(kernel)
}

// A copy of a stack's entries.
fn copy_of(alloc: Global, stack: &Stack) -> Result<Entries, Fail> {
    let mut entries = Entries::new(alloc);
    for k in 0..stack.len() {
        entries.push(stack.witness(k), stack.clause(k))?;
    }
    Ok(entries)
}

// Whether a witness holds the negation of one of the literals.
fn is_touched(witness: &[Lit], lits: &[Lit]) -> bool {
    lits.iter().any(|l| witness.contains(&l.neg()))
}

// Whether an older entry is marked that has in its clause the negation of a literal of this
// witness.
fn needs_older(stack: &Entries, needed: &[bool], k: usize) -> bool
    requires { k < length stack.now }
{
    for j in 0..k {
        if j < needed.len() && needed[j] && is_touched(stack.witness(k), stack.clause(j)) {
            return true;
        }
    }
    false
}

// Marks what is needed by what is marked so far, and says how many are marked then.
fn mark_round(stack: &Entries, lits: &[Lit], needed: &mut Vec<bool>) {
    for k in (0..stack.len()).rev() {
        if k < needed.len() {
            needed[k] = is_touched(stack.witness(k), lits)
                || needs_older(stack, needed.as_slice(), k);
        }
    }
}

// Which entries the literals need, by the definition: rounds over all entries, as many as there
// are, from the newest on.
fn needed_of(alloc: Global, stack: &Entries, lits: &[Lit]) -> Result<Vec<bool>, Fail> {
    let mut needed = vec![in alloc; false; stack.len()]?;
    for _round in 0..stack.len() {
        mark_round(stack, lits, &mut needed);
    }
    Ok(needed)
}

// Whether the entries that are not marked are a stack, in their order.
fn are_left(old: &Entries, needed: &[bool], new: &Stack) -> bool {
    let mut at = 0usize;
    for k in 0..old.len() {
        if k < needed.len() && !needed[k] {
            if at >= new.len()
                || new.witness(at) != old.witness(k)
                || new.clause(at) != old.clause(k)
            {
                return false;
            }
            at += 1;
        }
    }
    at == new.len()
}

// Whether the ids name the clauses of the marked entries, from the newest to the oldest, and the
// firm clauses are no others.
fn are_listed(old: &Entries, needed: &[bool], kernel: &Kernel, ids: &[ClauseId]) -> bool {
    let mut at = 0usize;
    for k in (0..old.len()).rev() {
        if k < needed.len() && needed[k] {
            if at >= ids.len()
                || !kernel.store().is_live(ids[at])
                || kernel.store().get(ids[at]) != old.clause(k)
            {
                return false;
            }
            at += 1;
        }
    }
    at == ids.len() && at == kernel.store().firm_ids().len()
}

// How many entries are touched by the literals themselves, and how many are needed.
fn counts(old: &Entries, needed: &[bool], lits: &[Lit]) -> [usize; 2] {
    let mut touched = 0usize;
    for k in 0..old.len() {
        if is_touched(old.witness(k), lits) {
            touched = touched.saturating_add(1);
        }
    }
    [touched, needed.iter().filter(|n| **n).count()]
}

// Restores what the literals need, and compares. Answers whether entries stay, and some are
// needed by others alone.
fn compare_with(
    alloc: Global,
    kernel: &mut Kernel,
    lits: &[Lit],
    old: &Entries,
    needed: &[bool],
) -> Result<bool, Fail> {
    let mut ids = Vec::new(alloc);
    restore_listed(alloc, kernel, lits, &mut ids)?;
    if !are_left(old, needed, kernel.stack()) {
        return Err("other entries are left")?;
    }
    if !are_listed(old, needed, kernel, ids.as_slice()) {
        return Err("other clauses came")?;
    }
    let [touched, all] = counts(old, needed, lits);
    Ok(touched < all && all < old.len())
}

// The same, with what the definition says of the stack.
fn compare_for(alloc: Global, kernel: &mut Kernel, lits: &[Lit]) -> Result<bool, Fail> {
    let old = copy_of(alloc, kernel.stack())?;
    let needed = needed_of(alloc, &old, lits)?;
    compare_with(alloc, kernel, lits, &old, needed.as_slice())
}

// The same of a kernel and up to two literals that are drawn.
fn compare(alloc: Global, state: &mut u64) -> Result<bool, Fail> {
    let mut kernel = draw_kernel(alloc, state)?;
    let mut lits = draw_clause(alloc, state)?;
    lits.truncate(2);
    compare_for(alloc, &mut kernel, lits.as_slice())
}

#[test]
fn small_stacks_agree_with_the_definition(rt: HostRuntime) -> Result<(), Fail> {
    let mut state = 2019u64;
    let mut telling = 0usize;
    for _kernel in 0..KERNELS {
        if compare(rt.alloc(), &mut state)? {
            telling = telling.saturating_add(1);
        }
    }
    assert!(rt; telling >= 60, "{telling} were telling");
    Ok(())
}

// The clause of six variables in a row, the first of them negated.
fn row(alloc: Global, first: u32) -> Result<Vec<Lit>, Fail> {
    let mut lits = Vec::new(alloc);
    lits.push(Var::new(first).ok_or("no variable")?.negative())?;
    for n in 1..6u32 {
        lits.push(
            Var::new(first.saturating_add(n))
                .ok_or("no variable")?
                .positive(),
        )?;
    }
    Ok(lits)
}

// The first variable of the clause of a number, where each clause lies so many variables further.
fn first_of(number: u32, step: u32) -> u32 {
    number.saturating_mul(step).saturating_add(1)
}

// Parks such clauses, each with its first literal.
fn tall(alloc: Global, step: u32) -> Result<Kernel, Fail> {
    let mut kernel = Kernel::new(alloc);
    for n in 0..TALL {
        let lits = row(alloc, first_of(n, step))?;
        park(&mut kernel, lits.as_slice(), 1)?;
    }
    Ok(kernel)
}

// The first variables of every second clause, as literals that its witness denies or holds.
fn every_second(alloc: Global, step: u32, positive: bool) -> Result<Vec<Lit>, Fail> {
    let mut lits = Vec::new(alloc);
    for n in 0..TALL / 2 {
        let var = Var::new(first_of(2 * n + 1, step)).ok_or("no variable")?;
        lits.push(if positive {
            var.positive()
        } else {
            var.negative()
        })?;
    }
    Ok(lits)
}

// How many entries are rows of six whose first variables lie so far apart, from 1 on.
fn count_rows(stack: &Stack, apart: u32) -> usize {
    let mut found = 0usize;
    let mut first = 1u32;
    for k in 0..stack.len() {
        if let Some(var) = Var::new(first) {
            if stack.witness(k) == [var.negative()].as_slice() && stack.clause(k).len() == 6 {
                found = found.saturating_add(1);
            }
        }
        first = first.saturating_add(apart);
    }
    found
}

// Restores what these literals need. Answers how many entries left, how many are left, how many
// of these are rows so far apart, and how many clauses are firm.
fn restore_second(
    alloc: Global,
    kernel: &mut Kernel,
    positive: bool,
    apart: u32,
) -> Result<[u64; 4], Fail> {
    let lits = every_second(alloc, 6, positive)?;
    let count = restore_for(alloc, kernel, lits.as_slice())?;
    let left = kernel.stack().len() as u64;
    let rows = count_rows(kernel.stack(), apart) as u64;
    Ok([count, left, rows, kernel.store().firm_ids().len() as u64])
}

#[test]
fn half_of_a_tall_stack_comes_back(rt: HostRuntime) -> Result<(), Fail> {
    let mut kernel = tall(rt.alloc(), 6)?;
    for (positive, apart, found) in [
        (false, 6, [0u64, 4000, 4000, 0]),
        (true, 12, [2000, 2000, 2000, 2000]),
    ] {
        assert_eq!(rt;
            restore_second(rt.alloc(), &mut kernel, positive, apart)?,
            found
        );
    }
    Ok(())
}

// Restores what a literal needs, and answers how many ids are listed, and how many entries are
// left.
fn restore_chain(alloc: Global, kernel: &mut Kernel, number: i32) -> Result<[usize; 2], Fail> {
    let mut ids = Vec::new(alloc);
    restore_listed(alloc, kernel, &[lit(number)?], &mut ids)?;
    Ok([ids.len(), kernel.stack().len()])
}

#[test]
fn one_literal_brings_half_of_a_chain(rt: HostRuntime) -> Result<(), Fail> {
    let mut kernel = tall(rt.alloc(), 1)?;
    for (number, found) in [
        (-1, [0usize, 4000]),
        (2001, [2000, 2000]),
        (2001, [0, 2000]),
    ] {
        assert_eq!(rt; restore_chain(rt.alloc(), &mut kernel, number)?, found);
    }
    Ok(())
}
