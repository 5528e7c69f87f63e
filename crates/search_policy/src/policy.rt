//! The policy of a search: when to restart, and when to forget learned clauses.
//!
//! **Halves.** A solve goes through phases of two halves. In the focused half the search restarts
//! often and decides what conflicts touched last, which is good at proving that there is no model;
//! in the stable half it does not restart and decides by scores, which is good at finding one.
//! Which of the two an instance wants is not known beforehand, so they take turns (as in CaDiCaL);
//! the halves of a phase are twice as long as those of the one before, so that each kind gets half
//! of the conflicts in the long run. The stable half of phase 50 has no end.
//!
//! **Restarts.** A clause of low glue is a good one. So the search restarts where the glue of late
//! is above its average: two averages move at each conflict, a fast one by one 32nd and a slow one
//! by one 4096th of the difference (Biere and Fröhlich 2015). Until as many glues came as these
//! divisors say, an average is the mean of all that came: from a first guess the slow one would lag
//! for thousands of conflicts. Numbers are whole, with 16 binary places.
//!
//! **Reductions.** Learned clauses pile up, and each costs propagation. The i-th reduction of a
//! solve comes 2000 + 300 i conflicts after the one before and forgets the half of greater glue
//! (Audemard and Simon 2009); reduction.rt says which. The conflicts since the last reduction are
//! counted from solve to solve: over a thousand solves of few conflicts each nothing would be
//! forgotten otherwise.
ghost use Rattle.std.specs.Prelude.{◌≡◌, ◌≢◌, ◌<◌, ◌≤◌, ◌+◌, ◌-◌, ◌*◌, ◌^◌, ◌==◌, ◌&&◌, nat_le, min, true, false, if◌then◌else◌, IfOk, OnOk, OnErr, IsTrue, not, ℕ, List, Option};
ghost use Rattle.sat_terms.specs.Limits.{max_number};
ghost use Rattle.search_policy.specs.Reduction.{IsReduction, IsForgettable};
ghost use Rattle.clause_store.specs.Stored.{Stored};
ghost use Rattle.clause_store.specs.Listing.{times};
ghost use Rattle.trail_state.specs.declared.trail.Step.{Step};
ghost use Rattle.search_policy.specs.Plan.{up, half_on, half_length, moved, average_on, plan_start, plan_again, plan_on, restarts, restarted, reduces, reduced, conflicts_left, restarts_left, is_endless};

use crate::reduction::reduction;
use clause_store::store::Store;
use sat_model::lists::Ids;
use sat_model::memory::Memory;
use std::alloc::Global;
use std::marker::Model;
use trail_state::trail::Trail;

// Where all counters stop.
const LAST_COUNT: u64 = 0x4000_0000_0000_0000;

// The phase whose stable half has no end, and the length of the first halves.
const LAST_PHASE: u32 = 50;

const FIRST_LENGTH: u64 = 1000;

/// When to restart and what to forget, in one solve after another. Phases of a focused and a stable
/// half follow on one another, of 1000 conflicts each at first, and each phase has twice as many.
/// Contracts see all of it as numbers.
#[derive(Drop)]
pub struct Policy {
    // The allocator for the lists of clauses to forget.
    alloc: Global,
    // The phase of the solve, from 0.
    phase: u32,
    // Whether its stable half has begun.
    stable: bool,
    // How many conflicts the half has had.
    gone: u64,
    // How many conflicts it has in all.
    length: u64,
    // How many conflicts there ever were.
    conflicts: u64,
    // The fast average of their glues, with 16 binary places.
    fast: u64,
    // The slow one.
    slow: u64,
    // The conflicts since the last restart of the solve.
    unrestarted: u64,
    // The reductions of the solve.
    reductions: u64,
    // The conflicts since the last reduction of any solve.
    unreduced: u64,
}

impl Model for Policy {
    ghost use Rattle.search_policy.specs.Plan.{Half, Plan, IsPlan};

    ghost Value = { Plan };

    ghost view = { λ p. record { half = record { phase = p.phase; stable = p.stable; gone = p.gone }; conflicts = p.conflicts; fast = p.fast; slow = p.slow; unrestarted = p.unrestarted; reductions = p.reductions; unreduced = p.unreduced } };

    ghost invariant = { λ p. IsPlan p.stable p.phase p.gone p.length p.conflicts p.fast p.slow p.unrestarted p.reductions p.unreduced };
}

// One more, up to the last count.
fn count_up(n: u64) -> u64
    requires { n ≤ max_number }
    ensures value { result ≡ up n }
    ensures within { result ≤ max_number }
{
    if n < LAST_COUNT { n + 1 } else { LAST_COUNT }
}

// An average that moves by one of so many parts of the difference.
fn move_average(average: u64, value: u64, parts: u64) -> u64
    requires average { average < 2 ^ 48 }
    requires value { value < 2 ^ 48 }
    requires parts { 0 < parts }
    ensures value { result ≡ moved average value parts }
    ensures within { result < 2 ^ 48 }
{
    if average <= value {
        average + (value - average) / parts
    } else {
        average - (average - value) / parts
    }
}

impl Policy {
    /// The policy at the start of a solve. It takes no memory.
    pub fn new(alloc: Global) -> Policy
        ensures { result ≡ plan_start }
    {
        Policy {
            alloc,
            phase: 0,
            stable: false,
            gone: 0,
            length: FIRST_LENGTH,
            conflicts: 0,
            fast: 0,
            slow: 0,
            unrestarted: 0,
            reductions: 0,
            unreduced: 0,
        }
    }

    /// Begins a new solve: its halves, its restarts and the number of its reductions begin anew.
    /// The averages and the conflicts since the last reduction go on, so that clauses are forgotten
    /// over many short solves too.
    pub fn start(&mut self)
        ensures { self.new ≡ plan_again self.old }
    {
        self.phase = 0;
        self.stable = false;
        self.gone = 0;
        self.length = FIRST_LENGTH;
        self.unrestarted = 0;
        self.reductions = 0;
    }

    // Where no conflicts are left before the last half, it has begun. The call does nothing.
    fn law_end(&self)
        ensures { conflicts_left self.now.half ≡ 0 → is_endless self.now.half ≡ true }
    {
        let _gone = self.gone;
    }

    // The half goes on by a conflict.
    fn pass_conflict(&mut self)
        ensures value { self.new ≡ record self.old { half = half_on self.old.half } }
        ensures left { conflicts_left self.new.half ≤ conflicts_left self.old.half - 1 }
        ensures endless { is_endless self.old.half ≡ true → self.new.half.stable ≡ self.old.half.stable }
    {
        let endless = self.stable && self.phase >= LAST_PHASE;
        if !endless && self.gone + 1 == self.length {
            if self.stable {
                self.phase += 1;
                self.length *= 2;
            }
            self.stable = !self.stable;
            self.gone = 0;
        } else {
            self.gone = count_up(self.gone);
        }
    }

    /// A conflict was met, whose learned clause has this glue.
    pub fn on_conflict(&mut self, glue: u32)
        ensures value { self.new ≡ plan_on self.old glue }
        ensures left { restarts_left self.new ≤ restarts_left self.old }
        ensures turned { self.new.half.stable ≢ self.old.half.stable → restarts_left self.new < restarts_left self.old }
    {
        let value = glue as u64 * 65536;
        let next = self.conflicts + 1;
        self.fast = move_average(self.fast, value, next.min(32));
        self.slow = move_average(self.slow, value, next.min(4096));
        self.conflicts = count_up(self.conflicts);
        self.unrestarted = count_up(self.unrestarted);
        self.unreduced = count_up(self.unreduced);
        self.law_end();
        self.pass_conflict();
    }

    /// Whether the half is a stable one.
    pub fn is_stable(&self) -> bool
        ensures { result ≡ self.now.half.stable }
    {
        self.stable
    }

    /// Whether the search is to restart now. Never in a stable half, and at most once between two
    /// conflicts.
    pub fn wants_restart(&mut self) -> bool
        ensures answer { result ≡ restarts self.old }
        ensures after { self.new ≡ (if result then restarted self.old else self.old) }
        ensures focused { result ≡ true → self.old.half.stable ≡ false }
        ensures spaced { result ≡ true → 2 ≤ self.old.unrestarted }
        ensures left { result ≡ true → restarts_left self.new < restarts_left self.old }
    {
        if !self.stable && self.unrestarted >= 2 && 110 * self.slow < 100 * self.fast {
            self.unrestarted = 0;
            true
        } else {
            false
        }
    }

    /// Whether clauses are to be forgotten now.
    pub fn wants_reduce(&self) -> bool
        ensures { result ≡ reduces self.now }
    {
        self.unreduced >= 2000 && (self.unreduced - 2000) / 300 >= self.reductions
    }

    /// Names the clauses that are to be forgotten: the first half of those that may be, by glue and
    /// age. A clause may be forgotten if it is redundant, has two or more literals and a glue above
    /// 2, and is no reason on the trail. After `Memory` nothing changed.
    pub fn reduce(&mut self, store: &Store, trail: &Trail) -> Result<Ids, Memory>
        ensures named { IfOk result (IsReduction store.now trail.now.steps) }
        ensures ok { OnOk result (self.new ≡ reduced self.old) }
        ensures err { OnErr result (self.new ≡ self.old) }
    {
        let ids = reduction(self.alloc, store, trail)?;
        self.reductions = count_up(self.reductions);
        self.unreduced = 0;
        Ok(ids)
    }

    /// What every reduction names: each clause once, none but redundant ones of two or more
    /// literals and of glue above 2, and no reason on the trail. The call does nothing.
    pub fn law_forgets_little(&self)
        ensures each { (s : List (Option Stored)) (t : List Step) (ids : List ℕ) (id : ℕ) → IsReduction s t ids → 0 < times ids id → IsForgettable s t id }
        ensures once { (s : List (Option Stored)) (t : List Step) (ids : List ℕ) (id : ℕ) → IsReduction s t ids → times ids id ≤ 1 }
    {
        let _alloc = self.alloc;
    }
}
