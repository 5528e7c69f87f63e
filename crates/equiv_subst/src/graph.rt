//! The implications that the binary firm clauses say.
//!
//! A clause of two literals, `-a or b`, says that `a` implies `b`, and that `-b` implies `-a`. So
//! the binary clauses are a directed graph over the literals, with two arcs for each clause, and
//! literals that lead to one another in it are equivalent (Aspvall, Plass, Tarjan, "A linear-time
//! algorithm for testing the truth of certain quantified Boolean formulas", 1979).
//!
//! The table has at the code of each literal those that it implies, and is as long as the
//! greatest code that stands in a binary clause needs. It is made anew in each round, in one pass
//! over the firm clauses: a replacement changes arcs all over the graph, and the walk that
//! follows takes as long as the making.
ghost use Rattle.std.specs.Prelude.{◌≡◌, ◌<◌, ◌≤◌, ℕ, [], length, OnOk, IfOk};
ghost use Rattle.sat_terms.specs.Normal.{IsNormal};
ghost use Rattle.equiv_subst.specs.Implications.{arcs, size, Gains, Adds, IsGraph, IsGraphOf};

use clause_store::store::Store;
use sat_model::lists::Lits;
use sat_model::literal::Lit;
use sat_model::memory::Memory;
use std::alloc::Global;
use std::marker::Model;

/// For each literal the literals that it implies by a binary clause, at its code.
#[derive(Drop)]
pub(crate) struct Graph {
    // Gives the memory of the lists.
    alloc: Global,
    // At the code of a literal those that it implies by one clause. Each of these has a place in
    // the table too.
    lists: Vec<Lits>,
}

impl Model for Graph {
    ghost use Rattle.std.specs.Prelude.{ℕ, List};
    ghost use Rattle.equiv_subst.specs.Implications.{IsGraph};

    ghost Value = { List (List ℕ) };

    ghost view = { λ g. g.lists.items };

    ghost invariant = { λ g. IsGraph g.lists.items };
}

impl Graph {
    // No implication.
    fn new(alloc: Global) -> Graph
        ensures { result ≡ [] }
    {
        Graph {
            alloc,
            lists: Vec::new(alloc),
        }
    }

    /// How many places there are.
    pub(crate) fn len(&self) -> usize
        ensures { result ≡ length self.now }
    {
        self.lists.len()
    }

    /// A law: the literals that are implied have places in the table. The call does nothing.
    pub(crate) fn law_places(&self)
        ensures { IsGraph self.now }
    {
        let _ = &self.lists;
    }

    /// The literals that a literal implies.
    pub(crate) fn arcs(&self, lit: Lit) -> &[Lit]
        ensures { result.now ≡ arcs self.now lit }
    {
        let code = lit.code() as usize;
        if code < self.lists.len() {
            self.lists[code].as_slice()
        } else {
            &[]
        }
    }

    // Makes room for the list of a literal; no list changes.
    fn reach(&mut self, code: usize) -> Result<(), Memory>
        ensures long { OnOk result (code < length self.new) }
        ensures longer { length self.old ≤ length self.new }
        ensures same { (a : ℕ) → arcs self.new a ≡ arcs self.old a }
        ensures size { size self.new ≡ size self.old }
    {
        while self.lists.len() <= code {
            self.lists.push(Lits::new(self.alloc))?;
        }
        Ok(())
    }

    // Adds an implication. The target gets a place too, so that the walk can mark it.
    fn add(&mut self, from: Lit, to: Lit) -> Result<(), Memory>
        ensures { OnOk result (Gains self.old self.new from to) }
    {
        let code = from.code() as usize;
        self.reach(to.code() as usize)?;
        self.reach(code)?;
        let list = &mut self.lists[code];
        list.push(to)
    }

    // Adds what a normal clause says, if it is binary.
    fn add_clause(&mut self, lits: &[Lit]) -> Result<(), Memory>
        requires { IsNormal lits.now }
        ensures { OnOk result (Adds self.old self.new lits.now) }
    {
        if lits.len() != 2 {
            return Ok(());
        }
        self.add(lits[0].neg(), lits[1])?;
        self.add(lits[1].neg(), lits[0])
    }

    /// What the binary firm clauses of a store say.
    pub(crate) fn of(alloc: Global, store: &Store) -> Result<Graph, Memory>
        ensures { IfOk result (λ graph. IsGraphOf store.now graph) }
    {
        let mut graph = Graph::new(alloc);
        for id in store.firm_ids() {
            graph.add_clause(store.get(*id))?;
        }
        Ok(graph)
    }
}
