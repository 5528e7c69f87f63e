//! How often the witnesses of a stack hold each literal.
//!
//! A clause is clean for a stack where no witness holds the negation of one of its literals. Read off the stack, that costs the whole
//! stack for each clause that comes. So a count is kept for each literal, which rises and falls with the entries: a test then costs as
//! many steps as the clause has literals.
ghost use Rattle.std.specs.Prelude.{◌≡◌, ◌+◌, ◌<◌, ◌≤◌, ◌==◌, ◌^◌, ℕ, true, length, OnErr, OnOk};
ghost use Rattle.sat_terms.specs.Literal.{has};
ghost use Rattle.witness_stack.specs.Counts.{count_at, count_sum, times};

use sat_model::literal::Lit;
use sat_model::memory::Memory;
use std::alloc::Global;
use std::marker::Model;

// The most literals that are counted at once.
const MOST: usize = 4_294_967_295;

// A count for each literal. Contracts see one number for each code, and `count_at` reads them.
#[derive(Drop)]
pub(crate) struct WitnessCounts {
    // The count of each literal, at its code; none past the end.
    counts: Vec<u32>,
    // The sum of the counts, so that none of them passes its type's end.
    sum: usize,
}

impl Model for WitnessCounts {
    ghost use Rattle.std.specs.Prelude.{List, ℕ, ◌≡◌};
    ghost use Rattle.witness_stack.specs.Counts.{count_sum};

    ghost Value = { List ℕ };

    ghost view = { λ s. s.counts.items };

    ghost invariant = { λ s. count_sum s.counts.items ≡ s.sum };
}

// Makes room for one literal; no count changes.
fn reach_one(counts: &mut Vec<u32>, lit: Lit) -> Result<(), Memory>
    ensures same { (l : ℕ) → count_at counts.new.items l ≡ count_at counts.old.items l }
    ensures sum { count_sum counts.new.items ≡ count_sum counts.old.items }
    ensures grows { length counts.old.items ≤ length counts.new.items }
    ensures long { OnOk result (lit < length counts.new.items) }
{
    let at = lit.code() as usize;
    if at >= counts.len() {
        counts.resize(at + 1, 0)?;
    }
    Ok(())
}

// Makes room for the literals; no count changes.
fn reach(counts: &mut Vec<u32>, lits: &[Lit]) -> Result<(), Memory>
    ensures same { (l : ℕ) → count_at counts.new.items l ≡ count_at counts.old.items l }
    ensures sum { count_sum counts.new.items ≡ count_sum counts.old.items }
    ensures long { OnOk result ((l : ℕ) → has lits.now l ≡ true → l < length counts.new.items) }
{
    for lit in lits {
        reach_one(counts, *lit)?;
    }
    Ok(())
}

// Counts the literals.
fn raise(counts: &mut Vec<u32>, lits: &[Lit])
    requires room { (l : ℕ) → has lits.now l ≡ true → l < length counts.old.items }
    requires fits { count_sum counts.old.items + length lits.now < 2 ^ 32 }
    ensures counts { (l : ℕ) → count_at counts.new.items l ≡ count_at counts.old.items l + times lits.now l }
    ensures sum { count_sum counts.new.items ≡ count_sum counts.old.items + length lits.now }
{
    for lit in lits {
        counts[lit.code() as usize] += 1;
    }
}

// Takes the literals off the counts.
fn lower(counts: &mut Vec<u32>, lits: &[Lit])
    requires { (l : ℕ) → times lits.now l ≤ count_at counts.old.items l }
    ensures counts { (l : ℕ) → count_at counts.new.items l + times lits.now l ≡ count_at counts.old.items l }
    ensures sum { count_sum counts.new.items + length lits.now ≡ count_sum counts.old.items }
{
    for lit in lits {
        counts[lit.code() as usize] -= 1;
    }
}

impl WitnessCounts {
    // All counts 0. It takes no memory.
    pub(crate) fn new(alloc: Global) -> WitnessCounts
        ensures { (l : ℕ) → count_at result l ≡ 0 }
    {
        WitnessCounts {
            counts: Vec::new(alloc),
            sum: 0,
        }
    }

    // Whether a literal's count is 0.
    pub(crate) fn is_free(&self, lit: Lit) -> bool
        ensures { result ≡ (count_at self.now lit == 0) }
    {
        let at = lit.code() as usize;
        at >= self.counts.len() || self.counts[at] == 0
    }

    // Counts the literals. After `Memory` each count is as before.
    pub(crate) fn add(&mut self, lits: &[Lit]) -> Result<(), Memory>
        ensures ok { OnOk result ((l : ℕ) → count_at self.new l ≡ count_at self.old l + times lits.now l) }
        ensures err { OnErr result ((l : ℕ) → count_at self.new l ≡ count_at self.old l) }
    {
        let count = lits.len();
        if count > MOST || self.sum > MOST - count {
            return Err(Memory);
        }
        reach(&mut self.counts, lits)?;
        raise(&mut self.counts, lits);
        self.sum += count;
        Ok(())
    }

    // Takes the literals off the counts, which must be as high.
    pub(crate) fn remove(&mut self, lits: &[Lit])
        requires { (l : ℕ) → times lits.now l ≤ count_at self.old l }
        ensures { (l : ℕ) → count_at self.new l + times lits.now l ≡ count_at self.old l }
    {
        lower(&mut self.counts, lits);
        self.sum -= lits.len();
    }
}
