//! For each literal, the cardinalities that hold it.
//!
//! The lists stand at the codes of the literals, so that a notification finds its cardinalities at
//! once, and touches none of the others. They are occurrence lists as clauses have them, but a
//! cardinality stands in the list of a literal as often as it holds it: so what counts along a list
//! counts positions, without a word on it in the code.
//!
//! A cardinality enters all lists of its literals at their ends, when it is admitted, and never
//! leaves them. Where there is no memory for one of the lists, what was appended to the others so far
//! is taken off their ends again, so that a refusal leaves each list as it was.
ghost use Rattle.std.specs.Prelude.{◌≡◌, ◌≢◌, ◌<◌, ◌-◌, ◌++◌, ◌∷◌, ℕ, [], length, take, replicate, OnOk, OnErr};
ghost use Rattle.clause_store.specs.Listing.{times};
ghost use Rattle.clause_store.specs.Lists.{occ_at};

use crate::id::CardId;
use crate::id_list::IdList;
use sat_model::literal::Lit;
use sat_model::memory::Memory;
use std::alloc::Global;
use std::marker::Model;

// The cardinalities that hold each literal. Contracts see a list of ids for each literal's code.
#[derive(Drop)]
pub(crate) struct Holders {
    // The allocator for lists of further literals.
    alloc: Global,
    // A list of ids for each literal, at the literal's code.
    lists: Vec<IdList>,
}

impl Model for Holders {
    ghost use Rattle.std.specs.Prelude.{ℕ, List};

    ghost Value = { List (List ℕ) };

    ghost view = { λ s. s.lists.items };
}

impl Holders {
    // No id stands at any literal. It takes no memory.
    pub(crate) fn new(alloc: Global) -> Holders
        ensures { result ≡ [] }
    {
        Holders {
            alloc,
            lists: Vec::new(alloc),
        }
    }

    // The ids of the cardinalities that hold a literal, each once for each of its positions there.
    pub(crate) fn at(&self, lit: Lit) -> &[CardId]
        ensures { result.now ≡ occ_at self.now lit }
    {
        let code = lit.code() as usize;
        if code < self.lists.len() {
            self.lists[code].as_slice()
        } else {
            &[]
        }
    }

    // Makes room for the list of a literal; no list changes.
    fn reach(&mut self, code: usize) -> Result<(), Memory>
        ensures long { OnOk result (code < length self.new) }
        ensures same { (lit : ℕ) → occ_at self.new lit ≡ occ_at self.old lit }
    {
        while self.lists.len() <= code {
            self.lists.push(IdList::new(self.alloc))?;
        }
        Ok(())
    }

    // Appends an id to the list of a literal. After `Memory` each list is as before.
    fn add_at(&mut self, lit: Lit, id: CardId) -> Result<(), Memory>
        ensures here { OnOk result (occ_at self.new lit ≡ occ_at self.old lit ++ id ∷ []) }
        ensures others { (other : ℕ) → other ≢ lit → occ_at self.new other ≡ occ_at self.old other }
        ensures err { OnErr result (occ_at self.new lit ≡ occ_at self.old lit) }
    {
        let code = lit.code() as usize;
        self.reach(code)?;
        let list = &mut self.lists[code];
        list.push(id)
    }

    // Takes the last id out of the list of a literal.
    fn pop_at(&mut self, lit: Lit)
        ensures here { occ_at self.new lit ≡ take (length (occ_at self.old lit) - 1) (occ_at self.old lit) }
        ensures others { (other : ℕ) → other ≢ lit → occ_at self.new other ≡ occ_at self.old other }
    {
        let code = lit.code() as usize;
        if code < self.lists.len() {
            let list = &mut self.lists[code];
            list.pop();
        }
    }

    // Appends an id to the list of the literal at each position. After `Memory` each list is as before.
    pub(crate) fn add(&mut self, lits: &[Lit], id: CardId) -> Result<(), Memory>
        ensures ok { OnOk result ((lit : ℕ) → occ_at self.new lit ≡ occ_at self.old lit ++ replicate (times lits.now lit) id) }
        ensures err { OnErr result ((lit : ℕ) → occ_at self.new lit ≡ occ_at self.old lit) }
    {
        for i in 0..lits.len() {
            if let Err(memory) = self.add_at(lits[i], id) {
                self.take_back(&lits[..i]);
                return Err(memory);
            }
        }
        Ok(())
    }

    // Takes the last id out of the list of the literal at each position.
    fn take_back(&mut self, lits: &[Lit])
        ensures { (lit : ℕ) → occ_at self.new lit ≡ take (length (occ_at self.old lit) - times lits.now lit) (occ_at self.old lit) }
    {
        for i in 0..lits.len() {
            self.pop_at(lits[i]);
        }
    }
}
