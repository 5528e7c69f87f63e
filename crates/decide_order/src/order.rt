//! The order of decisions: which variable, and to which value.
//!
//! Variables that took part in late conflicts are decided first, since the clauses learned there
//! speak of them. Two structures give them: in the focused halves of a search a queue by the last
//! bump (queue.rt), in the stable ones a heap of scores (heap.rt), as in CaDiCaL. Only the one in
//! use is bumped, but both follow the trail all the time: a variable that loses its value comes
//! back into the heap, and the cursor of the queue goes to it if it was bumped later. So both go on
//! from solve to solve, and nothing is ever filled anew: declaring more variables costs the new
//! ones.
//!
//! A variable that gets a value is not told to the order: it is passed over when it comes up. What
//! is found so far stays valid as the trail grows, and `back_to` tells what lost its value. `pick`
//! asks for nothing: if the order was not told, it still gives an open variable where there is one,
//! by a look at all of them before it says that there is none. It is paid once for each model, as
//! is writing it.
//!
//! The value is the saved phase, the last value that the variable had: so a search that restarts
//! comes back to what it had found out about other parts of the clauses (Pipatsrisawat and Darwiche
//! 2007). All variables that an analysis met are bumped, the one bumped longest ago first: against
//! the learned clause's variables alone, in its order, this saved about a third of the conflicts
//! where it was measured.
ghost use Rattle.std.specs.Prelude.{◌≡◌, ◌≢◌, ◌<◌, ◌≤◌, ◌+◌, ◌%◌, ◌==◌, ◌^◌, nat_lt, ℕ, true, false, if◌then◌else◌, None, max, OnOk, OnErr, IfSome, IfNone, IsTrue, ◌↔◌, length, slice_set};
ghost use Rattle.sat_terms.specs.Limits.{max_var};
ghost use Rattle.sat_terms.specs.Literal.{var_of};
ghost use Rattle.trail_state.specs.Trail.{Trace, step, IsBack};
ghost use Rattle.decide_order.specs.Line.{IsNewest};
ghost use Rattle.decide_order.specs.Ordering.{is_active, saved_phase, in_phase, IsFree, IsOpen, IsPick, IsLatest, NoneOpen, Follows, KeepsFollowing, KeepsListed, IsListed, SameActive, SameVars, Declares};

use crate::heap::Heap;
use crate::queue::Queue;
use crate::room::reach_flags;
use sat_model::literal::{Lit, Var};
use sat_model::memory::Memory;
use std::alloc::Global;
use std::marker::Model;
use std::mem::replace;
use trail_state::trail::Trail;

/// The variables that may be decided, and to which value. In a focused half of the search the last
/// bumped one comes first, by a queue; in a stable half the one of the greatest score, by a heap.
/// Contracts see how many variables are declared, which of them are active, their saved phases, and
/// what tells whether the order follows a trail. `declare` alone takes memory.
#[derive(Drop)]
pub struct Order {
    // The allocator for the list of variables to bump.
    alloc: Global,
    // At each variable whether it is active.
    active: Vec<bool>,
    // At each variable whether its saved phase is true.
    phases: Vec<bool>,
    // The order of the focused halves. Queue and heap both follow the trail all the time, so that a
    // change of halves costs nothing.
    queue: Queue,
    // The order of the stable halves.
    heap: Heap,
    // Whether the heap decides, and is bumped.
    stable: bool,
    // The list that `bump_all` sorts, kept for its memory; empty between two calls.
    aged: Vec<Aged>,
}

impl Model for Order {
    ghost use Rattle.decide_order.specs.Ordering.{Ordered, IsOrdered};

    ghost Value = { Ordered };

    ghost view = { λ o. record { declared = o.queue.count; active = o.active.items; phases = o.phases.items; queue = o.queue; heap = o.heap; stable = o.stable } };

    ghost invariant = { λ o. IsOrdered o.active.items o.phases.items o.queue o.heap };
}

// A variable, and when it was bumped last.
#[derive(Clone, Copy, PartialEq, Eq, PartialOrd, Ord)]
struct Aged {
    // The time of its last bump. It stands first, since the order of fields is that of sorting.
    stamp: u64,
    // The variable.
    var: u32,
}

// Whether the literal at a place stands above a level.
fn stands_above(trail: &Trail, at: usize, lit: Lit, level: u32) -> bool
    requires within { at < length trail.now.steps }
    requires here { lit ≡ (step trail.now.steps at).lit }
    ensures { result ≡ nat_lt level (step trail.now.steps at).level }
{
    let _ = at;
    trail.law_shape();
    match trail.level_of(lit.var()) {
        Some(own) => own > level,
        None => false,
    }
}

impl Order {
    /// The order of no variables. It takes no memory.
    pub fn new(alloc: Global) -> Order
        ensures declared { result.declared ≡ 0 }
        ensures active { (v : ℕ) → is_active result v ≡ false }
        ensures follows { (t : Trace) → Follows result t }
    {
        Order {
            alloc,
            active: Vec::new(alloc),
            phases: Vec::new(alloc),
            queue: Queue::new(alloc),
            heap: Heap::new(alloc),
            stable: false,
            aged: Vec::new(alloc),
        }
    }

    /// How many variables are declared: those from 1 on.
    pub fn declared(&self) -> u32
        ensures { result ≡ self.now.declared }
    {
        self.queue.count()
    }

    // Takes the memory for so many places. Nothing else changes.
    fn reach(&mut self, places: usize) -> Result<(), Memory>
        ensures active_room { OnOk result (places ≤ length self.new.active) }
        ensures phases_room { OnOk result (places ≤ length self.new.phases) }
        ensures queue_room { OnOk result (places ≤ self.new.queue.room) }
        ensures heap_room { OnOk result (places ≤ self.new.heap.room) }
        ensures same { SameVars self.old self.new }
        ensures follows { KeepsFollowing self.old self.new }
    {
        reach_flags(&mut self.active, places)?;
        reach_flags(&mut self.phases, places)?;
        self.queue.reach(places)?;
        self.heap.reach(places)
    }

    // Declares the next variable.
    fn append(&mut self)
        requires few { self.old.declared < max_var }
        requires active_room { self.old.declared + 1 < length self.old.active }
        requires phases_room { self.old.declared + 1 < length self.old.phases }
        requires queue_room { self.old.declared + 1 < self.old.queue.room }
        requires heap_room { self.old.declared + 1 < self.old.heap.room }
        ensures active_room { length self.new.active ≡ length self.old.active }
        ensures phases_room { length self.new.phases ≡ length self.old.phases }
        ensures queue_room { self.new.queue.room ≡ self.old.queue.room }
        ensures heap_room { self.new.heap.room ≡ self.old.heap.room }
        ensures declares { Declares self.old self.new (self.old.declared + 1) }
        ensures follows { KeepsFollowing self.old self.new }
    {
        let var = self.queue.count() as usize + 1;
        self.active[var] = true;
        self.phases[var] = true;
        self.queue.append();
        self.heap.append();
    }

    /// Declares every variable up to `var`; those that were not declared before are active, with
    /// phase true. After `Memory` nothing changed.
    pub fn declare(&mut self, var: Var) -> Result<(), Memory>
        ensures ok { OnOk result (Declares self.old self.new var) }
        ensures err { OnErr result (SameVars self.old self.new) }
        ensures follows { KeepsFollowing self.old self.new }
    {
        let last = var.index();
        self.reach(last as usize + 1)?;
        while self.declared() < last {
            self.append();
        }
        Ok(())
    }

    /// Whether a variable is active.
    pub fn is_active(&self, var: Var) -> bool
        ensures { result ≡ is_active self.now var }
    {
        let at = var.index() as usize;
        if at < self.active.len() {
            self.active[at]
        } else {
            false
        }
    }

    /// Makes a variable active, or no longer.
    pub fn set_active(&mut self, var: Var, on: bool)
        requires { var ≤ self.old.declared }
        ensures declared { self.new.declared ≡ self.old.declared }
        ensures active { (v : ℕ) → is_active self.new v ≡ (if v == var then on else is_active self.old v) }
        ensures phase { (v : ℕ) → saved_phase self.new v ≡ saved_phase self.old v }
        ensures here { IsListed self.new var }
        ensures listed { KeepsListed self.old self.new }
        ensures follows { KeepsFollowing self.old self.new }
    {
        self.active[var.index() as usize] = on;
        self.queue.put_ahead(var);
        self.heap.put_in(var);
    }

    // The active variables are declared ones. The call does nothing.
    fn law_range(&self)
        ensures few { self.now.declared ≤ max_var }
        ensures range { (v : ℕ) → is_active self.now v ≡ true → (0 < v) × (v ≤ self.now.declared) }
    {
        let _stable = self.stable;
    }

    /// Saves a phase: the variable of a literal is to be decided so that the literal is true.
    pub fn set_phase(&mut self, lit: Lit)
        requires { var_of lit ≤ self.old.declared }
        ensures declared { self.new.declared ≡ self.old.declared }
        ensures active { (v : ℕ) → is_active self.new v ≡ is_active self.old v }
        ensures phase { (v : ℕ) → saved_phase self.new v ≡ (if v == var_of lit then lit % 2 == 0 else saved_phase self.old v) }
        ensures listed { KeepsListed self.old self.new }
        ensures follows { KeepsFollowing self.old self.new }
    {
        self.phases[lit.var().index() as usize] = lit.is_positive();
    }

    /// A variable was of use in a conflict. In a focused half it becomes the newest, until 2^63
    /// bumps.
    pub fn bump(&mut self, var: Var)
        requires { var ≤ self.old.declared }
        ensures newest { self.old.stable ≡ false → self.old.queue.last < 2 ^ 63 → IsNewest self.old.queue self.new.queue var }
        ensures same { SameVars self.old self.new }
        ensures follows { KeepsFollowing self.old self.new }
    {
        if self.stable {
            self.heap.bump(var);
        } else {
            self.queue.bump(var);
        }
    }

    /// The variables of some literals were of use in a conflict. In a focused half the one bumped
    /// longest ago is bumped first, so that their order among themselves stays as it was, if memory
    /// allows. Those that are not declared are passed over. The call costs the list, and a sort of
    /// it.
    pub fn bump_all(&mut self, lits: &[Lit])
        ensures same { SameVars self.old self.new }
        ensures follows { KeepsFollowing self.old self.new }
    {
        if self.stable {
            for lit in lits {
                self.bump_number(lit.var().index());
            }
            return;
        }
        let mut aged = replace(&mut self.aged, Vec::new(self.alloc));
        self.gather(&mut aged, lits);
        aged.sort_unstable();
        for one in aged.as_slice() {
            self.bump_number(one.var);
        }
        aged.clear();
        self.aged = aged;
    }

    // Bumps a variable, if it is declared.
    fn bump_number(&mut self, number: u32)
        ensures same { SameVars self.old self.new }
        ensures follows { KeepsFollowing self.old self.new }
    {
        if let Some(var) = Var::new(number) {
            if number <= self.declared() {
                self.bump(var);
            }
        }
    }

    // Puts the declared variables of some literals to a list, each with the time of its last bump.
    // One for which there is no memory is bumped at once.
    fn gather(&mut self, aged: &mut Vec<Aged>, lits: &[Lit])
        ensures same { SameVars self.old self.new }
        ensures follows { KeepsFollowing self.old self.new }
    {
        for lit in lits {
            let number = lit.var().index();
            let stamp = self.stamp(lit.var());
            if aged.push(Aged { stamp, var: number }).is_err() {
                self.bump_number(number);
            }
        }
    }

    // When a variable was bumped last, 0 where it is not declared.
    fn stamp(&self, var: Var) -> u64 {
        if var.index() <= self.declared() {
            self.queue.stamp(var)
        } else {
            0
        }
    }

    /// A conflict is over: later bumps count for more.
    pub fn next_conflict(&mut self)
        ensures same { SameVars self.old self.new }
        ensures follows { KeepsFollowing self.old self.new }
    {
        self.heap.next_conflict();
    }

    /// Tells the order that a variable has lost its value, or is about to. The order follows each
    /// trail on which no other variable is free that was not free on one that it followed.
    pub fn unassigned(&mut self, var: Var)
        requires { var ≤ self.old.declared }
        ensures same { SameVars self.old self.new }
        ensures here { IsListed self.new var }
        ensures listed { KeepsListed self.old self.new }
        ensures follows { (t t' : Trace) → ((v : ℕ) → v ≢ var → IsFree t' v → IsFree t v) → Follows self.old t → Follows self.new t' }
    {
        self.queue.put_ahead(var);
        self.heap.put_in(var);
    }

    /// Takes the trail back to a level that is at most the current one. What loses its value is
    /// saved as its variable's phase, and may be picked again. Every variable of the trail must be
    /// declared.
    pub fn back_to(&mut self, trail: &mut Trail, level: u32)
        requires level { level ≤ trail.old.level }
        requires declared { trail.old.declared ≤ self.old.declared }
        ensures back { IsBack trail.old trail.new level }
        ensures same { SameActive self.old self.new }
        ensures follows { Follows self.old trail.old → Follows self.new trail.new }
    {
        trail.law_room();
        trail.law_shape();
        let mut kept = trail.lits().len();
        while kept > 0 {
            if !self.leaves(trail, kept - 1, level) {
                break;
            }
            kept -= 1;
        }
        trail.back_to(level);
    }

    /// What keeps the order following a trail: variables that get values. The call does nothing.
    pub fn law_following(&self)
        ensures { (t t' : Trace) → ((v : ℕ) → IsFree t' v → IsFree t v) → Follows self.now t → Follows self.now t' }
    {
        let _stable = self.stable;
    }

    /// In a stable half, where `on` is true, the heap decides, else the queue.
    pub fn stable(&mut self, on: bool)
        ensures on { self.new.stable ≡ on }
        ensures same { SameVars self.old self.new }
        ensures follows { KeepsFollowing self.old self.new }
    {
        self.stable = on;
    }

    // Whether the literal at a place stands above a level. If so, its variable is about to lose its
    // value.
    fn leaves(&mut self, trail: &Trail, at: usize, level: u32) -> bool
        requires within { at < length trail.now.steps }
        requires declared { trail.now.declared ≤ self.old.declared }
        ensures same { SameActive self.old self.new }
        ensures answer { result ≡ nat_lt level (step trail.now.steps at).level }
        ensures keeps { KeepsListed self.old self.new }
        ensures here { result ≡ true → IsListed self.new (var_of (step trail.now.steps at).lit) }
    {
        trail.law_room();
        let lit = trail.lits()[at];
        let above = stands_above(trail, at, lit, level);
        if above {
            self.set_phase(lit);
            self.unassigned(lit.var());
        }
        above
    }

    // Whether a variable is active and has no value.
    fn is_open(&self, var: Var, trail: &Trail) -> bool
        ensures { IsTrue result ↔ IsOpen self.now trail.now var }
    {
        self.is_active(var) && trail.value(var.positive()).is_none()
    }

    // The last bumped of the open variables that the queue comes to.
    fn newest(&mut self, trail: &Trail) -> Option<Var>
        ensures same { SameVars self.old self.new }
        ensures follows { Follows self.old trail.now → Follows self.new trail.now }
        ensures some { IfSome result (λ v. IsOpen self.old trail.now v × (v ≤ self.old.declared)) }
        ensures none { IfNone result (Follows self.old trail.now → NoneOpen self.old trail.now) }
        ensures latest { IfSome result (λ v. Follows self.old trail.now → IsLatest self.old trail.now v) }
    {
        while let Some(var) = self.queue.top() {
            if self.is_open(var, trail) {
                return Some(var);
            }
            self.queue.pass();
        }
        self.queue.law_end();
        None
    }

    // The open variable of the greatest score, of those that the heap has.
    fn greatest(&mut self, trail: &Trail) -> Option<Var>
        ensures same { SameVars self.old self.new }
        ensures follows { Follows self.old trail.now → Follows self.new trail.now }
        ensures some { IfSome result (λ v. IsOpen self.old trail.now v × (v ≤ self.old.declared)) }
    {
        while let Some(var) = self.heap.top() {
            if self.is_open(var, trail) {
                return Some(var);
            }
            self.heap.pass();
        }
        None
    }

    // The open variable that is to be decided, if the order comes to it.
    fn next_open(&mut self, trail: &Trail) -> Option<Var>
        ensures same { SameVars self.old self.new }
        ensures follows { Follows self.old trail.now → Follows self.new trail.now }
        ensures some { IfSome result (λ v. IsOpen self.old trail.now v × (v ≤ self.old.declared)) }
        ensures none { self.old.stable ≡ false → IfNone result (Follows self.old trail.now → NoneOpen self.old trail.now) }
        ensures latest { self.old.stable ≡ false → IfSome result (λ v. Follows self.old trail.now → IsLatest self.old trail.now v) }
    {
        if self.stable {
            self.greatest(trail)
        } else {
            self.newest(trail)
        }
    }

    // The literal of a variable in its saved phase.
    fn in_phase(&self, var: Var) -> Lit
        requires { var ≤ self.now.declared }
        ensures { result ≡ in_phase self.now var }
    {
        if self.phases[var.index() as usize] {
            var.positive()
        } else {
            var.negative()
        }
    }

    // The least open variable. It looks at every variable.
    fn first_open(&self, trail: &Trail) -> Option<Var>
        ensures some { IfSome result (IsOpen self.now trail.now) }
        ensures none { IfNone result (NoneOpen self.now trail.now) }
    {
        self.law_range();
        for number in 1..self.declared() + 1 {
            if let Some(var) = self.open_at(number, trail) {
                return Some(var);
            }
        }
        None
    }

    // The variable of a number, if it is open.
    fn open_at(&self, number: u32, trail: &Trail) -> Option<Var>
        ensures some { IfSome result (λ v. IsOpen self.now trail.now v × (v ≡ number)) }
        ensures none { IfNone result (IsOpen self.now trail.now number → ⊥) }
    {
        self.law_range();
        match Var::new(number) {
            Some(var) if self.is_open(var, trail) => Some(var),
            _ => None,
        }
    }

    // An open variable that the order does not come to, since it did not hear that the variable
    // lost its value.
    fn missed(&mut self, trail: &Trail) -> Option<Var>
        ensures same { SameVars self.old self.new }
        ensures follows { Follows self.old trail.now → Follows self.new trail.now }
        ensures some { IfSome result (λ v. IsOpen self.old trail.now v × (v ≤ self.old.declared)) }
        ensures none { IfNone result (NoneOpen self.old trail.now) }
    {
        self.law_range();
        let var = self.first_open(trail)?;
        self.unassigned(var);
        Some(var)
    }

    // The open variable that is to be decided.
    fn any_open(&mut self, trail: &Trail) -> Option<Var>
        ensures same { SameVars self.old self.new }
        ensures follows { Follows self.old trail.now → Follows self.new trail.now }
        ensures some { IfSome result (λ v. IsOpen self.old trail.now v × (v ≤ self.old.declared)) }
        ensures none { IfNone result (NoneOpen self.old trail.now) }
        ensures latest { self.old.stable ≡ false → IfSome result (λ v. Follows self.old trail.now → IsLatest self.old trail.now v) }
    {
        match self.next_open(trail) {
            Some(var) => Some(var),
            None => self.missed(trail),
        }
    }

    /// An active variable that has no value on the trail, in its saved phase. `None` exactly where
    /// every active variable has a value. In a focused half it is the one that was bumped last,
    /// where the order follows the trail. Variables with a value that were passed are not looked at
    /// again until they are unassigned. Before `None` each variable is looked at.
    pub fn pick(&mut self, trail: &Trail) -> Option<Lit>
        ensures same { SameVars self.old self.new }
        ensures follows { Follows self.old trail.now → Follows self.new trail.now }
        ensures some { IfSome result (IsPick self.old trail.now) }
        ensures none { IfNone result (NoneOpen self.old trail.now) }
        ensures latest { self.old.stable ≡ false → IfSome result (λ l. Follows self.old trail.now → IsLatest self.old trail.now (var_of l)) }
    {
        let var = self.any_open(trail)?;
        Some(self.in_phase(var))
    }
}
