//! How often a list repeats a literal, at most.
//!
//! A cardinality whose open positions are more than its bound needs no look at its list, as long as
//! no literal stands oftener than can be spared. So it is found once, when it is admitted, how often a
//! literal stands in the list at most: the longest run in the sorted codes. For the usual list, which
//! repeats none, that is 1, and a look costs two comparisons until just `bound` positions are open.
ghost use Rattle.std.specs.Prelude.{◌≡◌, ◌≤◌, ◌<◌, ◌+◌, ◌^◌, ◌==◌, ℕ, [], length, IfOk, slice_index, cond};
ghost use Rattle.clause_store.specs.Listing.{times};

use sat_model::literal::Lit;
use sat_model::memory::Memory;
use std::alloc::Global;

// The greater of two numbers.
fn larger(a: u64, b: u64) -> u64
    ensures first { a ≤ result }
    ensures second { b ≤ result }
{
    if a < b { b } else { a }
}

// The length of a run, one element on.
fn next_run(run: u64, last: u32, code: u32) -> u64
    requires { run + 1 < 2 ^ 64 }
    ensures { result ≡ cond (last == code) (run + 1) 1 }
{
    if last == code { run + 1 } else { 1 }
}

// A bound on how often a number stands in a sorted list: the longest run.
fn longest_run(sorted: &[u32]) -> u64
    requires { (i j : ℕ) → i ≤ j → j < length sorted.now → slice_index sorted.now i ≤ slice_index sorted.now j }
    ensures { (l : ℕ) → times sorted.now l ≤ result }
{
    let mut most = 0;
    let mut run = 0;
    let mut last = 0;
    for code in sorted {
        run = next_run(run, last, *code);
        last = *code;
        most = larger(most, run);
    }
    most
}

// The codes of the literals.
fn codes_of(alloc: Global, lits: &[Lit]) -> Result<Vec<u32>, Memory>
    ensures { IfOk result (λ v. v.items ≡ lits.now) }
{
    let mut codes = Vec::new(alloc);
    for lit in lits {
        codes.push(lit.code())?;
    }
    Ok(codes)
}

// A bound on how often a list holds a literal.
pub(crate) fn heaviest(alloc: Global, lits: &[Lit]) -> Result<u64, Memory>
    ensures { IfOk result (λ most. (l : ℕ) → times lits.now l ≤ most) }
{
    let mut codes = codes_of(alloc, lits)?;
    codes.sort()?;
    Ok(longest_run(&codes))
}
