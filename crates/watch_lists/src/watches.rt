//! Propagation by two watched literals.
//!
//! A clause can become false or unit only when its last literal but one becomes false. So each clause of two or more literals
//! watches two of them, and is looked at only when one of these becomes false (Moskewicz and others, Chaff, 2001). Then it is
//! true already, or another literal of it that is not false is watched instead, or it is unit, or false. Nothing is done for it
//! when the trail goes back: two watched literals that were good enough on a trail are so on each of its fronts.
//!
//! `propagate` goes over the trail from its head on, and visits for each literal the list of the clauses that watch its negation. What they
//! imply is appended to the trail, so that the trail is the queue. It ends at the first false clause, or where the
//! trail does. A list has for each clause a blocker, another literal of the clause: where that is true, the clause itself is
//! not read (Sörensson and Eén, 2009). Of a clause of two literals the blocker is the other one, so that one is never read.
//!
//! What makes this right is `Follows`: each clause that watches a literal which became false before the head has a true
//! literal, and one at a level that is no higher than that at which the literal became false, so that going back undoes the true one no
//! sooner. Without the levels, `cut` would have to set the head to the start.
//!
//! A clause that was attached waits, and gets its watches at the next propagation, when its literals have values: those that are
//! true, open, or were the last to become false. So attaching costs the same whatever the length. A clause that was
//! learned, and whose asserting literal is on the trail, leaves the head where it is; another one may set it back.
//!
//! Clauses of fewer than two literals stand in a list of their own, and those in its front that are true at the root are not looked
//! at again.
ghost use Rattle.std.specs.Prelude.{◌≡◌, ◌<◌, ◌||◌, ◌&&◌, ◌==◌, ◌++◌, ◌∷◌, ℕ, List, [], length, true, false, not, max, Option, IsSome, OnOk, OnErr, IfOk, IfSome, IfNone};
ghost use Rattle.sat_terms.specs.Literal.{has};
ghost use Rattle.sat_terms.specs.Answer.{Within};
ghost use Rattle.clause_store.specs.Stored.{Stored, slot, slot_lits};
ghost use Rattle.trail_state.specs.Trail.{Trace, IsBack};
ghost use Rattle.trail_state.specs.Clauses.{FalseOn};
ghost use Rattle.trail_state.specs.declared.trail.Step.{Step};
ghost use Rattle.watch_lists.specs.Watching.{at};
ghost use Rattle.watch_lists.specs.Propagation.{ids_of, marked, Stands, Follows, CanFollow, IsListed, AllReady, Grown, AllQuiet};
ghost use Rattle.watch_lists.specs.Placing.{IsTakenOut, IsSwept};

use crate::copies::Copies;
use crate::lists::{Watch, WatchList};
use crate::marks::Marks;
use crate::shorts::pass_short;
use crate::visits::{lower, run};
use crate::waiting::{best_at, low_head, push_both, reach};
use clause_store::store::Store;
use sat_model::lists::{ClauseId, Ids};
use sat_model::literal::{Lit, Var};
use sat_model::memory::Memory;
use std::alloc::Global;
use std::marker::Model;
use trail_state::trail::Trail;

/// The clauses that are attached. Contracts see the list of their ids, the number of declared variables, the clauses that were
/// attached since the last propagation, the watches of each literal, and what tells whether the lists follow a trail.
#[derive(Drop)]
pub struct Watches {
    // Gives the memory of all that follows.
    alloc: Global,
    // The ids of the attached clauses.
    attached: Marks,
    // The greatest declared variable.
    declared: u32,
    // The attached clauses that have no watches yet.
    waiting: Vec<ClauseId>,
    // The attached clauses of fewer than two literals.
    short: Vec<ClauseId>,
    // So many in front of these are true at the root.
    fixed: usize,
    // The watches of each literal, at its code.
    lists: Vec<WatchList>,
    // The literals of the clauses that watch, the two that are watched in front.
    copies: Copies,
    // The first place of the trail whose literal has not been looked at.
    head: usize,
    // Holds a list while it is visited, so that others may be pushed to.
    scratch: Vec<Watch>,
}

impl Model for Watches {
    ghost use Rattle.watch_lists.specs.Propagation.{Watching, ids_of};

    ghost Value = { Watching };

    ghost view = { λ w. record { attached = ids_of w.attached; declared = w.declared; waiting = w.waiting.items; lists = w.lists.items; copies = w.copies; short = w.short.items; fixed = w.fixed; head = w.head } };
}

// Takes the watches of a clause out of the list of a literal.
fn take_out(lists: &mut Vec<WatchList>, id: ClauseId, lit: Lit)
    ensures { IsTakenOut id lit lists.old.items lists.new.items }
{
    let code = lit.code() as usize;
    if code < lists.len() {
        lists[code].remove(id);
    }
}

// Attaches a clause, which waits. After `Memory` nothing changed.
fn let_wait(attached: &mut Marks, waiting: &mut Vec<ClauseId>, id: ClauseId) -> Result<(), Memory>
    ensures marked { OnOk result ((k : ℕ) → marked attached.new k ≡ (marked attached.old k || id == k)) }
    ensures waits { OnOk result (waiting.new.items ≡ waiting.old.items ++ id ∷ []) }
    ensures err_marked { OnErr result (attached.new ≡ attached.old) }
    ensures err_waits { OnErr result (waiting.new.items ≡ waiting.old.items) }
{
    let count = waiting.len();
    waiting.push(id)?;
    if let Err(memory) = attached.add(id) {
        waiting.truncate(count);
        return Err(memory);
    }
    Ok(())
}

// Keeps the attached of these ids.
fn keep_attached(ids: &mut Vec<ClauseId>, attached: &Marks)
    ensures { (k : ℕ) → has ids.new.items k ≡ (has ids.old.items k && marked attached.now k) }
{
    ids.retain(|id| attached.holds(*id));
}

// Keeps the watches of the attached clauses in each list.
fn sweep(lists: &mut Vec<WatchList>, attached: &Marks)
    ensures { IsSwept attached.now lists.old.items lists.new.items }
{
    let mut l = 0;
    'each: while l < lists.len() {
        lists[l].keep(attached);
        l += 1;
    }
}

impl Watches {
    /// Nothing attached and nothing declared. It takes no memory.
    pub fn new(alloc: Global) -> Watches
        ensures attached { result.attached ≡ [] }
        ensures declared { result.declared ≡ 0 }
        ensures follows { (s : List (Option Stored)) (t : Trace) → Follows result s t }
    {
        Watches {
            alloc,
            attached: Marks::new(alloc),
            declared: 0,
            waiting: Vec::new(alloc),
            short: Vec::new(alloc),
            fixed: 0,
            lists: Vec::new(alloc),
            copies: Copies::new(alloc),
            head: 0,
            scratch: Vec::new(alloc),
        }
    }

    /// The watches of a literal, in no stated order. After a propagation that found no false clause each attached clause of two or
    /// more literals stands once in the lists of two of its literals, and in no other.
    pub fn watched(&self, lit: Lit) -> &[Watch]
        ensures { result.now ≡ at self.now.lists lit }
    {
        let code = lit.code() as usize;
        if code < self.lists.len() {
            self.lists[code].as_slice()
        } else {
            &[]
        }
    }

    /// The clauses that were attached since the last propagation that found no false clause. They stand in no list of watches.
    pub fn waiting(&self) -> &[ClauseId]
        ensures { result.now ≡ self.now.waiting }
    {
        self.waiting.as_slice()
    }

    /// Whether a clause is attached.
    pub fn is_attached(&self, id: ClauseId) -> bool
        ensures { result ≡ has self.now.attached id }
    {
        self.attached.holds(id)
    }

    /// Declares every variable up to `var`. After `Memory` nothing changed.
    pub fn declare(&mut self, var: Var) -> Result<(), Memory>
        ensures attached { self.new.attached ≡ self.old.attached }
        ensures ok { OnOk result (self.new.declared ≡ max self.old.declared var) }
        ensures err { OnErr result (self.new.declared ≡ self.old.declared) }
        ensures follows { (s : List (Option Stored)) (t : Trace) → Follows self.old s t → Follows self.new s t }
    {
        self.declared = self.declared.max(var.index());
        Ok(())
    }

    /// Attaches a clause that is live in the store and not attached, and whose variables are declared. After `Memory` nothing
    /// changed.
    pub fn attach(&mut self, store: &Store, id: ClauseId) -> Result<(), Memory>
        requires live { IsSome (slot store.now id) }
        requires fresh { has self.old.attached id ≡ false }
        requires declared { Within self.old.declared (slot_lits (slot store.now id)) }
        ensures declared { self.new.declared ≡ self.old.declared }
        ensures ok { OnOk result ((k : ℕ) → has self.new.attached k ≡ (has self.old.attached k || id == k)) }
        ensures err { OnErr result (self.new.attached ≡ self.old.attached) }
        ensures waits { OnOk result (self.new.waiting ≡ self.old.waiting ++ id ∷ []) }
        ensures lists { self.new.lists ≡ self.old.lists }
        ensures follows { (t : Trace) → Follows self.old store.now t → Follows self.new store.now t }
    {
        let _ = store;
        let_wait(&mut self.attached, &mut self.waiting, id)?;
        Ok(())
    }

    /// Detaches a clause that is attached, and live in the store as it was when it was attached.
    pub fn detach(&mut self, store: &Store, id: ClauseId)
        requires attached { has self.old.attached id ≡ true }
        requires live { IsSome (slot store.now id) }
        ensures declared { self.new.declared ≡ self.old.declared }
        ensures attached { (k : ℕ) → has self.new.attached k ≡ (has self.old.attached k && not (k == id)) }
        ensures follows { (t : Trace) → Follows self.old store.now t → Follows self.new store.now t }
    {
        let _ = store;
        let at = id.index();
        self.waiting.retain(|other| *other != id);
        self.attached.remove(id);
        if self.copies.holds(at) {
            let clause = self.copies.get(at);
            let first = clause[0];
            let second = clause[1];
            take_out(&mut self.lists, id, first);
            take_out(&mut self.lists, id, second);
            self.copies.remove(at);
            return;
        }
        self.short.retain(|other| *other != id);
        self.fixed = 0;
    }

    /// Detaches the clauses of these ids, which are attached, and live in the store as they were when they were attached. However many
    /// they are, each list is gone over once, so thousands cost no more than one sweep.
    pub fn detach_all(&mut self, store: &Store, ids: &Ids)
        requires all { (id : ℕ) → has ids.now id ≡ true → (has self.old.attached id ≡ true) × IsSome (slot store.now id) }
        ensures declared { self.new.declared ≡ self.old.declared }
        ensures attached { (k : ℕ) → has self.new.attached k ≡ (has self.old.attached k && not (has ids.now k)) }
        ensures follows { (t : Trace) → Follows self.old store.now t → Follows self.new store.now t }
    {
        let _ = store;
        self.attached.remove_all(ids);
        self.copies.remove_all(ids);
        keep_attached(&mut self.waiting, &self.attached);
        keep_attached(&mut self.short, &self.attached);
        sweep(&mut self.lists, &self.attached);
        self.fixed = 0;
    }

    /// Gives back the memory of clauses that were detached: the literals of the others are copied into a new array. Nothing that contracts
    /// see changes, after `Memory` too. `propagate` does so by itself once more than half is unused.
    pub fn compact(&mut self) -> Result<(), Memory>
        ensures { self.new ≡ self.old }
    {
        self.copies.compact()
    }

    // Compacts where it is time to.
    fn compact_if_sparse(&mut self) -> Result<(), Memory>
        ensures { self.new ≡ self.old }
    {
        if self.copies.is_sparse() {
            self.copies.compact()?;
        }
        Ok(())
    }

    /// Tells the lists that the trail went back: they follow it again if they followed it before.
    pub fn cut(&mut self, trail: &Trail)
        requires { CanFollow self.old trail.now }
        ensures attached { self.new.attached ≡ self.old.attached }
        ensures declared { self.new.declared ≡ self.old.declared }
        ensures follows { (s : List (Option Stored)) (before : Trace) (level : ℕ) → Follows self.old s before → IsBack before trail.now level → Follows self.new s trail.now }
    {
        self.head = lower(self.head, trail.lits().len());
    }

    /// What keeps the lists following a trail: literals that are appended to it, and changes of the store that leave the
    /// attached clauses. The call does nothing.
    pub fn law_following(&self)
        ensures appended { (s : List (Option Stored)) (t t' : Trace) (more : List Step) → t'.steps ≡ t.steps ++ more → Follows self.now s t → Follows self.now s t' }
        ensures stored { (s s' : List (Option Stored)) (t : Trace) → ((id : ℕ) → has self.now.attached id ≡ true → slot s' id ≡ slot s id) → Follows self.now s t → Follows self.now s' t }
    {
        let _ = &self.declared;
    }

    // Finds watches for a clause that waits, or keeps it as one of fewer than two literals. The clause goes on waiting.
    fn place(&mut self, id: ClauseId, store: &Store, trail: &Trail) -> Result<(), Memory>
        requires attached { has self.old.attached id ≡ true }
        requires live { IsSome (slot store.now id) }
        requires follows { Follows self.old store.now trail.now }
        ensures attached { self.new.attached ≡ self.old.attached }
        ensures declared { self.new.declared ≡ self.old.declared }
        ensures waiting { self.new.waiting ≡ self.old.waiting }
        ensures follows { Follows self.new store.now trail.now }
        ensures placed { OnOk result (Stands self.new.copies [] self.new.short id) }
    {
        trail.law_shape();
        let at = id.index();
        if self.copies.holds(at) {
            return Ok(());
        }
        let lits = store.get(id);
        if lits.len() < 2 {
            self.short.push(id)?;
            return Ok(());
        }
        let one = best_at(trail, lits, lits.len());
        let other = best_at(trail, lits, one);
        let first = lits[one];
        let second = lits[other];
        reach(self.alloc, &mut self.lists, lits)?;
        self.copies.reach(at)?;
        self.copies.add(at, lits, first, second)?;
        let binary = lits.len() == 2;
        if let Err(memory) = push_both(&mut self.lists, id, first, second, binary) {
            self.copies.remove(at);
            return Err(memory);
        }
        self.head = low_head(trail, self.head, first, second);
        self.head = low_head(trail, self.head, second, first);
        Ok(())
    }

    // Finds watches for the clauses that wait.
    fn place_all(&mut self, store: &Store, trail: &Trail) -> Result<(), Memory>
        requires ready { AllReady self.old.attached store.now trail.now.declared }
        requires follows { Follows self.old store.now trail.now }
        ensures attached { self.new.attached ≡ self.old.attached }
        ensures declared { self.new.declared ≡ self.old.declared }
        ensures follows { Follows self.new store.now trail.now }
        ensures none { OnOk result (self.new.waiting ≡ []) }
    {
        while self.waiting.len() > 0 {
            let last = self.waiting.len() - 1;
            let id = self.waiting[last];
            self.place(id, store, trail)?;
            self.waiting.truncate(last);
        }
        Ok(())
    }

    /// Assigns what the attached clauses imply, until nothing more follows or one of them is false, and answers that one. Each
    /// attached clause must be live, as it was when it was attached, with its variables declared on the trail, and the lists
    /// must follow the trail. Each literal that is appended has its clause as its reason, after `Memory` too.
    ///
    /// A clause of two or more literals is looked at only when one of the two literals that it watches became false (Moskewicz and
    /// others, Chaff, 2001), and not where its blocker is true (Sörensson and Eén, 2009).
    pub fn propagate(
        &mut self,
        store: &Store,
        trail: &mut Trail,
    ) -> Result<Option<ClauseId>, Memory>
        requires ready { AllReady self.old.attached store.now trail.old.declared }
        requires following { Follows self.old store.now trail.old }
        ensures attached { self.new.attached ≡ self.old.attached }
        ensures declared { self.new.declared ≡ self.old.declared }
        ensures follows { Follows self.new store.now trail.new }
        ensures grown { Grown self.old.attached store.now trail.old trail.new }
        ensures conflict { IfOk result (λ found. IfSome found (λ id. (has self.old.attached id ≡ true) × FalseOn trail.new.steps (slot_lits (slot store.now id)))) }
        ensures quiet { IfOk result (λ found. IfNone found (AllQuiet self.old.attached store.now trail.new.steps)) }
        ensures listed { IfOk result (λ found. IfNone found (IsListed self.new store.now)) }
    {
        self.compact_if_sparse()?;
        self.place_all(store, trail)?;
        let conflict = pass_short(
            self.short.as_slice(),
            &mut self.fixed,
            &self.attached,
            store,
            trail,
        );
        if conflict.is_some() {
            return Ok(conflict);
        }
        let answer = run(
            &mut self.head,
            &self.attached,
            &mut self.lists,
            &mut self.scratch,
            &mut self.copies,
            store,
            trail,
        );
        trail.law_shape();
        answer
    }
}
