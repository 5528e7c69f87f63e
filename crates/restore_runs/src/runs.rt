//! Stacks made by the kernel's rules, and what is restored from them.
//!
//! Each clause has three positive literals of its own variables. It is added to a kernel without
//! clauses and parked with its first literal, which witnesses it, since there is no other firm
//! clause. So a stack of any height stands before an empty store, and the time of a run is that
//! of the rules and of restoration.
ghost use Rattle.std.specs.Prelude.{◌≡◌, ℕ, None, OnOk, IfOk};
ghost use Rattle.clause_store.specs.Stored.{slot};

use crate::request::{Report, Request, Run};
use normal_form::forms::is_normal;
use rule_kernel::kernel::Kernel;
use sat_model::literal::{Lit, Var};
use sat_model::memory::Memory;
use std::alloc::Global;
use taint_restore::restore::restore_for;

// How many clauses are added.
const ADDED: u32 = 10_000;

// How many entries are restored by calls of their own.
const SINGLE: u32 = 100;

// The clause of a number, or `None` where its variables are too great.
fn clause_of(number: u32) -> Option<[Lit; 3]> {
    let first = number.checked_mul(3)?.checked_add(1)?;
    Some([
        Var::new(first)?.positive(),
        Var::new(first.checked_add(1)?)?.positive(),
        Var::new(first.checked_add(2)?)?.positive(),
    ])
}

// Adds the clause of a number to a kernel without clauses, and parks it with its first literal.
fn park_one(kernel: &mut Kernel, number: u32) -> Result<(), Memory>
    requires { (id : ℕ) → slot kernel.old.store id ≡ None }
    ensures { OnOk result ((id : ℕ) → slot kernel.new.store id ≡ None) }
{
    let Some(lits) = clause_of(number) else {
        return Ok(());
    };
    if !is_normal(&lits) || !kernel.is_clean(&lits) {
        return Ok(());
    }
    let id = kernel.add(&lits)?;
    kernel.park(id, &lits[..1])?;
    Ok(())
}

// A kernel with so many parked clauses.
fn parked(alloc: Global, count: u32) -> Result<Kernel, Memory> {
    let mut kernel = Kernel::new(alloc);
    for number in 0..count {
        park_one(&mut kernel, number)?;
    }
    Ok(kernel)
}

// Adds the clause of a number, with what it needs restored first.
fn add_one(alloc: Global, kernel: &mut Kernel, number: u32) -> Result<u64, Memory> {
    let Some(lits) = clause_of(number) else {
        return Ok(0);
    };
    if !is_normal(&lits) {
        return Ok(0);
    }
    let restored = restore_for(alloc, kernel, &lits)?;
    let _id = kernel.add(&lits)?;
    Ok(restored)
}

// Adds clauses of numbers from one on, and gives how many entries were restored.
fn add_each(alloc: Global, kernel: &mut Kernel, from: u32) -> Result<u64, Memory> {
    let mut restored = 0u64;
    for n in 0..ADDED {
        restored = restored.saturating_add(add_one(alloc, kernel, from.saturating_add(n))?);
    }
    Ok(restored)
}

// The negation of the witness that parked the clause of a number.
fn disturbs(number: u32) -> Option<Lit> {
    Some(Var::new(number.checked_mul(3)?.checked_add(1)?)?.negative())
}

// The negations of the witnesses of every second clause.
fn every_second(alloc: Global, count: u32) -> Result<Vec<Lit>, Memory> {
    let mut lits = Vec::new(alloc);
    for n in 0..count / 2 {
        if let Some(lit) = disturbs(n.saturating_mul(2)) {
            lits.push(lit)?;
        }
    }
    Ok(lits)
}

// Restores what the negation of one clause's witness needs.
fn restore_one(alloc: Global, kernel: &mut Kernel, number: u32) -> Result<u64, Memory> {
    match disturbs(number) {
        Some(lit) => restore_for(alloc, kernel, &[lit]),
        None => Ok(0),
    }
}

// Restores so many entries, each by a call of its own.
fn restore_each(alloc: Global, kernel: &mut Kernel) -> Result<u64, Memory> {
    let mut restored = 0u64;
    for n in 0..SINGLE {
        restored = restored.saturating_add(restore_one(alloc, kernel, n)?);
    }
    Ok(restored)
}

// Does what a line asks for over a kernel with parked clauses, and gives how many entries were restored.
fn restored_by(alloc: Global, kernel: &mut Kernel, request: Request) -> Result<u64, Memory> {
    match request.run {
        Run::Park => Ok(0),
        Run::Clean => add_each(alloc, kernel, request.count),
        Run::Half => {
            let lits = every_second(alloc, request.count)?;
            restore_for(alloc, kernel, lits.as_slice())
        }
        Run::Single => restore_each(alloc, kernel),
    }
}

// Does what a line asks for.
pub(crate) fn answer(alloc: Global, request: Request) -> Result<Report, Memory> {
    let mut kernel = parked(alloc, request.count)?;
    let restored = restored_by(alloc, &mut kernel, request)?;
    Ok(Report {
        restored,
        firm: kernel.store().firm_ids().len(),
        stacked: kernel.stack().len(),
    })
}
