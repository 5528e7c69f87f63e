//! The walk that finds the strong components of the implications.
//!
//! It is a depth-first search without recursion, in the path-based form (Purdom and Munro, 1970;
//! Gabow, 2000). Three stacks hold all that it knows. `path` has the literals that are open, in
//! the order in which they were met: each leads to the later ones. `roots` cuts the path into the
//! components that are known so far: within one, the later literals lead to the earlier ones too.
//! `work` has the targets of the arcs of open literals that were not looked at yet; when a
//! literal is met, all its targets are put there at once, so that no pointer into a list of arcs
//! is kept.
//!
//! A turn does one of two things. Where work is left above the last root, its last literal is
//! looked at: one that is fresh is met; one that is open closes a cycle, so all components above
//! its own become one with it, and their roots go; one that is done needs nothing. Else every arc
//! of the last component was looked at, and it is closed: it is a strong component, gets the next
//! number, and its literals leave the path.
//!
//! Two facts make this right. Above each root every arc leads to a literal that is done, or open
//! above the root, or waits in the work above it. And numbers are given as components close, so
//! no arc leads to a component of a higher number: literals that lead to one another have the
//! same number. Each implication is looked at once, which is a step.
ghost use Rattle.std.specs.Prelude.{◌≡◌, ◌≤◌, ◌<◌, ◌^◌, ◌↔◌, ℕ, [], length, true, IsTrue, OnOk, IfOk, IfSome, IfNone, MatchBool};
ghost use Rattle.sat_terms.specs.Literal.{has, IsLiteral};
ghost use Rattle.rule_kernel.specs.Frozen.{is_frozen};
ghost use Rattle.equiv_subst.specs.Implications.{size};
ghost use Rattle.equiv_subst.specs.declared.walk.Mark.TheVariants.{Fresh};
ghost use Rattle.equiv_subst.specs.Walk.{meeting, Merges, Marks, OnPath, Closes, Looks, Walks, Turned, Halted, Explored, Found, mark, unseen, start};

use crate::graph::Graph;
use crate::pairs::{Pair, push_pairs};
use rule_kernel::frozen::Frozen;
use sat_model::literal::{Lit, Var};
use sat_model::memory::Memory;
use std::alloc::Global;
use std::marker::Model;

// Where a literal is: not met, on the path at a place, or in the component of a number.
#[derive(Clone, Copy)]
pub(crate) enum Mark {
    Fresh,
    Open(usize),
    Done(usize),
}

// Where a component begins on the path, and how much work there was before.
#[derive(Clone, Copy)]
pub(crate) struct Root {
    // The place of its first literal on the path.
    pub(crate) place: usize,
    // How much work there was when that literal was met.
    pub(crate) work: usize,
}

// The state of a walk.
#[derive(Drop)]
pub(crate) struct Walk {
    // Where each literal is, at its code.
    marks: Vec<Mark>,
    // The open literals, in the order in which they were met.
    path: Vec<Lit>,
    // The targets of arcs of open literals that were not looked at yet.
    work: Vec<Lit>,
    // Where each component begins, lowest first.
    roots: Vec<Root>,
    // How many components were closed, and the number of the next one.
    count: usize,
}

impl Model for Walk {
    ghost use Rattle.equiv_subst.specs.Walk.{Way};

    ghost Value = { Way };

    ghost view = { λ w. record {
      marks = w.marks.items;
      path = w.path.items;
      work = w.work.items;
      roots = w.roots.items;
      count = w.count;
    } };
}

// Takes off the roots whose place is above another: their components become one with the one
// below.
fn merge(roots: &mut Vec<Root>, place: usize)
    ensures { Merges roots.old.items roots.new.items place (length roots.new.items) }
{
    let mut kept = roots.len();
    while kept > 0 && roots[kept - 1].place > place {
        kept -= 1;
    }
    roots.truncate(kept);
}

// Marks literals as done, with the number of their component.
fn number(marks: &mut Vec<Mark>, members: &[Lit], count: usize)
    requires { (l : ℕ) → has members.now l ≡ true → l < length marks.old.items }
    ensures { Marks marks.old.items marks.new.items members.now count }
{
    for lit in members {
        marks[lit.code() as usize] = Mark::Done(count);
    }
}

impl Walk {
    // A fresh literal is met, and becomes a component of its own. The work from a place on was
    // looked at.
    fn meet(&mut self, graph: &Graph, lit: Lit, waiting: usize) -> Result<(), Memory>
        requires { lit < length self.old.marks }
        ensures { OnOk result (self.new ≡ meeting graph.now self.old lit waiting) }
    {
        let place = self.path.len();
        self.path.push(lit)?;
        self.roots.push(Root {
            place,
            work: waiting,
        })?;
        self.work.truncate(waiting);
        self.work.extend_from_slice(graph.arcs(lit))?;
        self.marks[lit.code() as usize] = Mark::Open(place);
        Ok(())
    }

    // The last component, which begins at a place of the path, is closed, and its pairs are
    // added.
    fn close(&mut self, frozen: &Frozen, place: usize, pairs: &mut Vec<Pair>) -> Result<(), Memory>
        requires path { OnPath self.old.marks self.old.path }
        requires within { place < length self.old.path }
        requires room { self.old.count < 2 ^ 63 }
        requires rooted { 0 < length self.old.roots }
        ensures { OnOk result (Closes (is_frozen frozen.now) self.old self.new pairs.old.items
            pairs.new.items place) }
    {
        push_pairs(frozen, &self.path[place..], pairs)?;
        number(&mut self.marks, &self.path[place..], self.count);
        self.path.truncate(place);
        self.roots.truncate(self.roots.len() - 1);
        self.count += 1;
        Ok(())
    }

    // Looks at a literal, which waits last after some others.
    fn look(&mut self, graph: &Graph, lit: Lit, waiting: usize) -> Result<(), Memory>
        requires { lit < length self.old.marks }
        ensures { OnOk result (Looks graph.now self.old self.new lit waiting) }
    {
        let mark = self.marks[lit.code() as usize];
        match mark {
            Mark::Fresh => self.meet(graph, lit, waiting),
            Mark::Open(place) => {
                self.work.truncate(waiting);
                merge(&mut self.roots, place);
                Ok(())
            }
            Mark::Done(_) => {
                self.work.truncate(waiting);
                Ok(())
            }
        }
    }

    // Closes the last component, or looks at a literal that waits, which is a step. Answers
    // whether the limit left the step.
    fn turn(
        &mut self,
        graph: &Graph,
        frozen: &Frozen,
        pairs: &mut Vec<Pair>,
        steps: &mut u64,
        limit: u64,
    ) -> Result<bool, Memory>
        requires walks { Walks graph.now (is_frozen frozen.now) self.old pairs.old.items }
        requires rooted { 0 < length self.old.roots }
        requires rest { steps.old ≤ limit }
        ensures { IfOk result (λ on. MatchBool on
            (Turned graph.now (is_frozen frozen.now) self.old self.new pairs.new.items
            steps.old steps.new limit)
            (Halted steps.old steps.new (unseen graph.now self.old) limit)) }
    {
        graph.law_places();
        let top = self.roots[self.roots.len() - 1];
        let waiting = self.work.len();
        if waiting <= top.work {
            self.close(frozen, top.place, pairs)?;
            return Ok(true);
        }
        if *steps >= limit {
            return Ok(false);
        }
        let lit = self.work[waiting - 1];
        self.look(graph, lit, waiting - 1)?;
        *steps += 1;
        Ok(true)
    }

    // Walks from a literal, unless it was met, until nothing is open. Answers whether the limit
    // left all steps.
    fn explore(
        &mut self,
        graph: &Graph,
        frozen: &Frozen,
        lit: Lit,
        pairs: &mut Vec<Pair>,
        steps: &mut u64,
        limit: u64,
    ) -> Result<bool, Memory>
        requires walks { Walks graph.now (is_frozen frozen.now) self.old pairs.old.items }
        requires over { length self.old.roots ≡ 0 }
        requires within { lit < length graph.now }
        requires rest { steps.old ≤ limit }
        ensures { IfOk result (λ on. MatchBool on
            (Explored graph.now (is_frozen frozen.now) self.old self.new pairs.new.items lit
            steps.old steps.new limit)
            (Halted steps.old steps.new (unseen graph.now self.old) limit)) }
    {
        graph.law_places();
        if !self.is_fresh(lit) {
            return Ok(true);
        }
        self.meet(graph, lit, 0)?;
        while self.is_open() {
            if !self.turn(graph, frozen, pairs, steps, limit)? {
                return Ok(false);
            }
        }
        Ok(true)
    }

    // Whether a literal was not met.
    fn is_fresh(&self, lit: Lit) -> bool
        requires { lit < length self.now.marks }
        ensures { IsTrue result ↔ (mark self.now.marks lit ≡ Fresh) }
    {
        let mark = self.marks[lit.code() as usize];
        match mark {
            Mark::Fresh => true,
            Mark::Open(_) => false,
            Mark::Done(_) => false,
        }
    }

    // Whether a component is open.
    fn is_open(&self) -> bool
        ensures { IsTrue result ↔ (0 < length self.now.roots) }
    {
        self.roots.len() > 0
    }

    // Nothing was met.
    fn new(alloc: Global, len: usize) -> Result<Walk, Memory>
        ensures { IfOk result (λ walk. walk ≡ start len) }
    {
        let mut marks = Vec::new(alloc);
        marks.resize(len, Mark::Fresh)?;
        Ok(Walk {
            marks,
            path: Vec::new(alloc),
            work: Vec::new(alloc),
            roots: Vec::new(alloc),
            count: 0,
        })
    }
}

// The literal of a code, if the code is one of a literal.
#[tactic(auto, unfolding(sat_terms::specs::Literal::pos_lit, sat_terms::specs::Literal::neg_lit))]
fn lit_of(code: usize) -> Option<Lit>
    ensures some { IfSome result (λ lit. lit ≡ code) }
    ensures none { IfNone result (IsLiteral code → ⊥) }
{
    if code >= 1 << 23 {
        return None;
    }
    let var = Var::new((code / 2) as u32)?;
    if code % 2 == 0 {
        Some(var.positive())
    } else {
        Some(var.negative())
    }
}

/// The pairs of literals of one strong component, of which the first is to be replaced by the
/// second: none exactly where literals of different variables that imply one another have frozen
/// variables. Each implication that is looked at is a step. Answers whether the limit left all of
/// them.
pub(crate) fn find_pairs(
    alloc: Global,
    graph: &Graph,
    frozen: &Frozen,
    pairs: &mut Vec<Pair>,
    steps: &mut u64,
    limit: u64,
) -> Result<bool, Memory>
    requires none { pairs.old.items ≡ [] }
    requires rest { steps.old ≤ limit }
    ensures { IfOk result (λ on. MatchBool on
        (Found graph.now (is_frozen frozen.now) pairs.new.items steps.old steps.new limit)
        (Halted steps.old steps.new (size graph.now) limit)) }
{
    graph.law_places();
    let mut walk = Walk::new(alloc, graph.len())?;
    for code in 0..graph.len() {
        if let Some(lit) = lit_of(code) {
            if !walk.explore(graph, frozen, lit, pairs, steps, limit)? {
                return Ok(false);
            }
        }
    }
    Ok(true)
}
