//! Reconstruction stacks.
//!
//! A pass may take out a clause that a model of the rest need not make true. The clause then stands on a stack, with a witness: literals
//! that are set true where a model makes the clause false (Järvisalo, Heule and Biere, "Inprocessing rules", IJCAR 2012). A model is
//! extended by going through the stack from the newest entry to the oldest: an older witness breaks no firm clause and no newer entry's.
//!
//! Between queries new clauses come, and a witness may break them. A clause is clean where no witness holds the negation of one of its
//! literals; where it is not, the entries that stand in its way are taken out, from the newest to the oldest, and their clauses are firm
//! again (Fazekas, Biere and Scholl, "Incremental inprocessing in SAT solving", SAT 2019). `next_tainted` finds them one by one.
//!
//! The stack keeps of each entry what makes extending right in itself (`IsStack`): the witness holds no opposite literals, and one
//! literal of the clause, so that setting it makes the clause true. That no other clause is broken is the rules' business
//! (rule_kernel).
ghost use Rattle.std.specs.Prelude.{◌≡◌, ◌<◌, ◌==◌, ◌↔◌, ◌++◌, [], ◌∷◌, length, OnErr, OnOk, IsTrue, remove, IfSome, IfNone};
ghost use Rattle.std.specs.List.{list_all};
ghost use Rattle.sat_terms.specs.Literal.{neg as opposite};
ghost use Rattle.sat_terms.specs.Truth.{values};
ghost use Rattle.sat_terms.specs.Answer.{Within};
ghost use Rattle.redundancy.specs.Setting.{IsApart, set_true};
ghost use Rattle.redundancy.specs.Redundancy.{Clean, IsEntry, IsStack, StackWithin, entry, extend as extension};
ghost use Rattle.witness_stack.specs.Counts.{count_at};
ghost use Rattle.witness_stack.specs.MarkSet.{NoneTainted, IsFirstTainted};

use crate::counts::WitnessCounts;
use crate::entries::Entries;
use crate::marks::Marks;
use sat_model::literal::Lit;
use sat_model::memory::Memory;
use sat_model::truth::clause_true;
use std::alloc::Global;
use std::marker::Model;

/// A reconstruction stack (Fazekas, Biere, Scholl, SAT 2019). Contracts see the list of its entries, oldest first. Of each
/// entry it keeps that the witness holds no opposite literals, that the clause is normal, and that they share a literal.
#[derive(Drop)]
pub struct Stack {
    // The entries, oldest first.
    entries: Entries,
    // For each literal how many places of witnesses hold it.
    counts: WitnessCounts,
}

impl Model for Stack {
    ghost use Rattle.std.specs.Prelude.{List};
    ghost use Rattle.redundancy.specs.Redundancy.{Entry as EntryOf};
    ghost use Rattle.witness_stack.specs.Counts.{IsCountedStack};

    ghost Value = { List EntryOf };

    ghost view = { λ s. s.entries };

    ghost invariant = { λ s. IsCountedStack s.entries s.counts };
}

// Whether no negation of one of the literals is counted.
fn all_free(counts: &WitnessCounts, lits: &[Lit]) -> bool
    ensures { result ≡ list_all (λ l. count_at counts.now (opposite l) == 0) lits.now }
{
    lits.iter().all(|l| counts.is_free(l.neg()))
}

// Sets the literals true.
fn set_all(model: &mut [bool], witness: &[Lit])
    requires apart { IsApart witness.now }
    requires within { Within (length model.old) witness.now }
    ensures { values model.new ≡ set_true (values model.old) witness.now }
{
    for lit in witness {
        model[lit.var().index() as usize - 1] = lit.is_positive();
    }
}

impl Stack {
    /// The empty stack. It takes no memory.
    pub fn new(alloc: Global) -> Stack
        ensures { result ≡ [] }
    {
        Stack {
            entries: Entries::new(alloc),
            counts: WitnessCounts::new(alloc),
        }
    }

    /// How many entries there are.
    pub fn len(&self) -> usize
        ensures { result ≡ length self.now }
    {
        self.entries.len()
    }

    /// Whether there is none.
    pub fn is_empty(&self) -> bool
        ensures { result ≡ (length self.now == 0) }
    {
        self.entries.is_empty()
    }

    /// What holds of every stack. The call does nothing.
    pub fn law_witnesses(&self)
        ensures { IsStack self.now }
    {
        let _ = &self.entries;
    }

    /// Appends an entry as the newest: its witness holds no opposite literals, its clause is normal, and they share a literal.
    /// After `Memory` the stack is as before.
    pub fn push(&mut self, witness: &[Lit], clause: &[Lit]) -> Result<(), Memory>
        requires { IsEntry (record { witness = witness.now; clause = clause.now }) }
        ensures ok { OnOk result (self.new ≡ self.old ++ record { witness = witness.now; clause = clause.now } ∷ []) }
        ensures err { OnErr result (self.new ≡ self.old) }
    {
        self.counts.add(witness)?;
        match self.entries.push(witness, clause) {
            Ok(()) => Ok(()),
            Err(memory) => {
                self.counts.remove(witness);
                Err(memory)
            }
        }
    }

    /// The witness of the entry at a place below `len()`.
    pub fn witness(&self, k: usize) -> &[Lit]
        requires { k < length self.now }
        ensures { result.now ≡ (entry self.now k).witness }
    {
        self.entries.witness(k)
    }

    /// The clause of the entry at a place below `len()`.
    pub fn clause(&self, k: usize) -> &[Lit]
        requires { k < length self.now }
        ensures { result.now ≡ (entry self.now k).clause }
    {
        self.entries.clause(k)
    }

    /// Takes out the entry at a place below `len()`. The others keep their order.
    pub fn take_out(&mut self, k: usize)
        requires { k < length self.old }
        ensures { self.new ≡ remove self.old k }
    {
        self.counts.remove(self.entries.witness(k));
        self.entries.take_out(k);
        self.entries.close();
    }

    /// Whether the literals are clean: no witness holds the negation of one of them.
    pub fn is_clean(&self, lits: &[Lit]) -> bool
        ensures { IsTrue result ↔ Clean lits.now self.now }
    {
        all_free(&self.counts, lits)
    }

    /// The first entry, at the place `from` or after it, whose witness holds a marked literal. `None` exactly where there is
    /// no such entry.
    pub fn next_tainted(&self, from: usize, marks: &Marks) -> Option<usize>
        ensures none { IfNone result (NoneTainted marks.now self.now from (length self.now)) }
        ensures some { IfSome result (λ k. IsFirstTainted marks.now self.now from k) }
    {
        for k in from..self.entries.len() {
            if marks.has_any(self.entries.witness(k)) {
                return Some(k);
            }
        }
        None
    }

    /// Makes of a model its extension by the stack: from the newest entry to the oldest, where the model makes the clause
    /// false, the literals of the witness are set true. The model must have the variables of the witnesses.
    pub fn extend(&self, model: &mut [bool])
        requires { StackWithin (length model.old) self.now }
        ensures { values model.new ≡ extension (values model.old) self.now }
    {
        let mut k = self.entries.len();
        while k > 0 {
            k -= 1;
            if !clause_true(model, self.entries.clause(k)) {
                set_all(model, self.entries.witness(k));
            }
        }
    }
}
