//! Clauses that were attached and have no watches yet.
//!
//! The best literals to watch are those that are true or have no value, and then those that became false at the highest level, since
//! they are the first to lose their value again. Where a watched literal is false before the head, and the other one is not true at a
//! level that is no higher, the head goes back to it, so that the clause is visited.
ghost use Rattle.std.specs.Prelude.{◌≡◌, ◌≢◌, ◌<◌, ◌≤◌, ◌++◌, ◌∷◌, ℕ, [], true, false, length, slice_index_or, slice_set, IfSome, IsSome, OnOk, OnErr};
ghost use Rattle.sat_terms.specs.Literal.{has};
ghost use Rattle.trail_state.specs.Trail.{true_on};
ghost use Rattle.watch_lists.specs.Watching.{at};
ghost use Rattle.watch_lists.specs.Placing.{IsLow, IsNoHigher, IsPushed};

use crate::lists::{Watch, WatchList};
use crate::visits::lower;
use sat_model::lists::ClauseId;
use sat_model::literal::Lit;
use sat_model::memory::Memory;
use std::alloc::Global;
use trail_state::trail::Trail;

// Whether the literal is true.
fn is_true(trail: &Trail, lit: Lit) -> bool
    ensures { result ≡ true_on trail.now.steps lit }
{
    match trail.value(lit) {
        Some(value) => value,
        None => false,
    }
}

// How well a literal is watched: the later it would become false, or became false, the better.
fn rank(trail: &Trail, lit: Lit) -> u32 {
    match trail.value(lit) {
        Some(true) => u32::MAX,
        None => u32::MAX - 1,
        Some(false) => match trail.level_of(lit.var()) {
            Some(level) => level,
            None => 0,
        },
    }
}

// The best literal of a clause to watch, but for one place.
pub(crate) fn best_at(trail: &Trail, clause: &[Lit], skip: usize) -> usize
    requires two { 2 ≤ length clause.now }
    ensures within { result < length clause.now }
    ensures apart { result ≢ skip }
{
    let mut best = if skip == 0 { 1 } else { 0 };
    let mut rank_of_best = rank(trail, clause[best]);
    let mut k = best + 1;
    while k < clause.len() {
        if k != skip {
            let rank_here = rank(trail, clause[k]);
            if rank_here > rank_of_best {
                best = k;
                rank_of_best = rank_here;
            }
        }
        k += 1;
    }
    best
}

// The head up to which a literal that is to be watched is not false, or the other one is true at a level that is no higher.
pub(crate) fn low_head(trail: &Trail, head: usize, lit: Lit, other: Lit) -> usize
    ensures least { result ≤ head }
    ensures low { IsLow trail.now.steps lit other result }
{
    trail.law_shape();
    let Some(place) = trail.place_of(lit.var()) else {
        return head;
    };
    if is_true(trail, lit) {
        return head;
    }
    let level = trail.level_of(lit.var());
    let level_of_other = trail.level_of(other.var());
    if is_true(trail, other) && is_no_higher(level_of_other, level) {
        return head;
    }
    lower(head, place as usize)
}

// Whether a level is known and no higher than another.
fn is_no_higher(a: Option<u32>, b: Option<u32>) -> bool
    ensures { result ≡ true → IsNoHigher a b }
{
    match a {
        Some(a) => match b {
            Some(b) => a <= b,
            None => false,
        },
        None => false,
    }
}

// Makes room for the lists of these literals; no list changes.
pub(crate) fn reach(alloc: Global, lists: &mut Vec<WatchList>, lits: &[Lit]) -> Result<(), Memory>
    ensures long { OnOk result ((l : ℕ) → has lits.now l ≡ true → l < length lists.new.items) }
    ensures longer { length lists.old.items ≤ length lists.new.items }
    ensures same { (l : ℕ) → at lists.new.items l ≡ at lists.old.items l }
{
    for lit in lits {
        reach_one(alloc, lists, lit.code() as usize)?;
    }
    Ok(())
}

// Makes room for one list.
fn reach_one(alloc: Global, lists: &mut Vec<WatchList>, code: usize) -> Result<(), Memory>
    ensures long { OnOk result (code < length lists.new.items) }
    ensures longer { length lists.old.items ≤ length lists.new.items }
    ensures same { (l : ℕ) → at lists.new.items l ≡ at lists.old.items l }
{
    while lists.len() <= code {
        lists.push(WatchList::new(alloc))?;
    }
    Ok(())
}

// Appends the two watches of a clause. After `Memory` the lists are as before.
pub(crate) fn push_both(
    lists: &mut Vec<WatchList>,
    id: ClauseId,
    first: Lit,
    second: Lit,
    binary: bool,
) -> Result<(), Memory>
    requires one { first < length lists.old.items }
    requires other { second < length lists.old.items }
    requires apart { first ≢ second }
    ensures ok { OnOk result (IsPushed id first second binary lists.old.items lists.new.items) }
    ensures err { OnErr result (lists.new.items ≡ lists.old.items) }
{
    let at_first = first.code() as usize;
    let at_second = second.code() as usize;
    lists[at_first].push(Watch {
        id,
        blocker: second,
        binary,
    })?;
    let pushed = lists[at_second].push(Watch {
        id,
        blocker: first,
        binary,
    });
    if pushed.is_err() {
        lists[at_first].pop();
    }
    pushed
}
