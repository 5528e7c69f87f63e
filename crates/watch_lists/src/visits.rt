//! Visits to the clauses that watch a literal which became false.
//!
//! The list is taken out, read once and closed up from the front: a watch whose blocker is true stays as it is; of a binary clause
//! the blocker says all; else the clause's copy is read. Its first two literals are those that it watches. Where the other one is true it
//! becomes the blocker. Else the first literal from the third on that is not false is looked for. Where it is true it becomes the
//! blocker, and the watch stays, which costs less than a move. Where it has no value it is put second, and the watch moves to its
//! list, which is not the one being read, since that literal is false. Where there is none the other watched literal is implied, or
//! the clause is false; then what was not read yet stays behind what was.
//!
//! This is the innermost loop of a search: the value of the blocker is looked at in the loop itself and is the only thing that is
//! read for most watches, and a watch is written back whether it changed or not. The literals of an attached clause are declared, so
//! that a look at a value is one read of the table. No literal stands in a copy twice, so what stands behind the first two is none
//! of them. The order of visits is MiniSat's (Eén and Sörensson, 2003); that binary clauses need no look at the clause, and that a watch
//! stays where it finds a true literal, is in Biere's solvers (PicoSAT, 2008; CaDiCaL, 2017).
ghost use Rattle.std.specs.Prelude.{◌≡◌, ◌≢◌, ◌<◌, ◌≤◌, ◌++◌, ◌&&◌, ◌==◌, ℕ, not, true, false, length, take, drop, slice_index_or, slice_set, OnOk, OnErr, IfOk, MatchOption};
ghost use Rattle.sat_terms.specs.Literal.{has, neg, var_of};
ghost use Rattle.clause_store.specs.Stored.{slot, slot_lits};
ghost use Rattle.trail_state.specs.Trail.{true_on};
ghost use Rattle.watch_lists.specs.declared.lists.Watch.{Watch};
ghost use Rattle.watch_lists.specs.Propagation.{ids_of, IsReadyAt, AllReady, Grown};
ghost use Rattle.watch_lists.specs.Watching.{copy, front, pairs, at, put_at, WatchesIt, Blocks, HoldsPair, IsCopy, AllCopied, CopiesKeep, Kept, CoverStays, FollowsOn};
ghost use Rattle.watch_lists.specs.Visiting.{AllDeclared, OtherOf, IsNextAt, NoneFrom, NoNext, InReach, MovesTo, ConcludedIs, SettledIs, AllTrueIn, IsConflict, IsLeveled, IsPassed, WatchedQuiet};

use crate::copies::Copies;
use crate::lists::{Watch, WatchList};
use crate::marks::Marks;
use clause_store::store::Store;
use sat_model::lists::ClauseId;
use sat_model::literal::Lit;
use sat_model::memory::Memory;
use trail_state::reason::Reason;
use trail_state::trail::Trail;

// Whether a literal may be watched in place of a false one.
fn may_watch(trail: &Trail, lit: Lit) -> bool
    requires { var_of lit ≤ trail.now.declared }
    ensures { result ≡ not (true_on trail.now.steps (neg lit)) }
{
    !trail.is_false(lit)
}

// The place, behind the two in front, of a literal of the clause that may be watched.
fn next_at(trail: &Trail, clause: &[Lit]) -> Option<usize>
    requires { AllDeclared trail.now.declared clause.now }
    ensures { MatchOption result (NoneFrom trail.now.steps clause.now (length clause.now)) (λ k. IsNextAt trail.now.steps clause.now k) }
{
    let mut k = 2;
    while k < clause.len() {
        let found = may_watch(trail, clause[k]);
        if found {
            return Some(k);
        }
        k += 1;
    }
    None
}

// The literal that a clause watches beside f.
fn other_of(first: Lit, second: Lit, f: Lit) -> Lit
    requires { WatchesIt (record { first = first; second = second }) f }
    ensures { OtherOf (record { first = first; second = second }) f result }
{
    if first == f { second } else { first }
}

// What became of a watch.
#[derive(Drop)]
pub(crate) enum Settled {
    // The watch stays, with this blocker.
    Stays(Lit),
    // The clause watches another literal.
    Moves,
    // Every literal of the clause is false.
    False,
}

// Moves a watch of f to the list of the literal at a place of the clause. After `Memory` nothing changed.
fn move_watch(
    id: ClauseId,
    f: Lit,
    other: Lit,
    next: Lit,
    k: usize,
    lists: &mut [WatchList],
    copies: &mut Copies,
) -> Result<(), Memory>
    requires known { id < length copies.old }
    requires one { OtherOf (front (copy copies.old id)) f other }
    requires within { InReach (copy copies.old id) k (length lists.old) }
    requires next { next ≡ slice_index_or (copy copies.old id) k 0 }
    ensures ok { OnOk result (MovesTo id f other k lists.old lists.new copies.old copies.new) }
    ensures err_lists { OnErr result (lists.new ≡ lists.old) }
    ensures err_copies { OnErr result (copies.new ≡ copies.old) }
{
    lists[next.code() as usize].push(Watch {
        id,
        blocker: other,
        binary: false,
    })?;
    copies.turn(id.index(), other, next, k, f);
    Ok(())
}

// Looks at a clause whose literals but one are false, where that one is not true: assigns it, or finds that it is false too.
fn conclude(id: ClauseId, other: Lit, attached: &Marks, store: &Store, trail: &mut Trail) -> Settled
    requires attached { has (ids_of attached.now) id ≡ true }
    requires ready { IsReadyAt id store.now trail.old.declared }
    requires holds { has (slot_lits (slot store.now id)) other ≡ true }
    requires untrue { true_on trail.old.steps other ≡ false }
    requires none { NoNext trail.old.steps (slot_lits (slot store.now id)) other }
    ensures grown { Grown (ids_of attached.now) store.now trail.old trail.new }
    ensures concluded { ConcludedIs result other (slot_lits (slot store.now id)) trail.new.steps }
{
    let _ = attached;
    let _ = store;
    if trail.is_false(other) {
        return Settled::False;
    }
    trail.assign(other, Reason::Clause(id));
    Settled::Stays(other)
}

// Looks at a watch of a literal that is false, where its blocker is not true.
fn settle(
    id: ClauseId,
    blocker: Lit,
    binary: bool,
    f: Lit,
    attached: &Marks,
    lists: &mut [WatchList],
    copies: &mut Copies,
    store: &Store,
    trail: &mut Trail,
) -> Result<Settled, Memory>
    requires known { id < length copies.old }
    requires watched { WatchesIt (front (copy copies.old id)) f }
    requires held { HoldsPair (ids_of attached.now) id (slot store.now id) (length lists.old) (front (copy copies.old id)) }
    requires copied { IsCopy (copy copies.old id) (slot_lits (slot store.now id)) }
    requires ready { AllReady (ids_of attached.now) store.now trail.old.declared }
    requires blocks { Blocks (slot_lits (slot store.now id)) f (record { id = id; blocker = blocker; binary = binary }) }
    requires fallen { true_on trail.old.steps (neg f) ≡ true }
    requires untrue { true_on trail.old.steps blocker ≡ false }
    ensures grown { Grown (ids_of attached.now) store.now trail.old trail.new }
    ensures settled { IfOk result (λ r. SettledIs r id binary f store.now lists.old lists.new copies.old copies.new trail.old trail.new) }
    ensures err_lists { OnErr result (lists.new ≡ lists.old) }
    ensures err_copies { OnErr result (copies.new ≡ copies.old) }
{
    if binary {
        let settled = conclude(id, blocker, attached, store, trail);
        return Ok(settled);
    }
    let clause = copies.get(id.index());
    let other = other_of(clause[0], clause[1], f);
    if trail.is_true(other) {
        return Ok(Settled::Stays(other));
    }
    match next_at(trail, clause) {
        Some(k) => {
            let next = clause[k];
            if trail.is_true(next) {
                return Ok(Settled::Stays(next));
            }
            move_watch(id, f, other, next, k, lists, copies)?;
            Ok(Settled::Moves)
        }
        None => {
            let settled = conclude(id, other, attached, store, trail);
            Ok(settled)
        }
    }
}

// Closes the gap between the watches before `to` and those from `from` on.
fn close_gap(ws: &mut Vec<Watch>, mut to: usize, mut from: usize)
    requires { to ≤ from }
    ensures { ws.new.items ≡ take to ws.old.items ++ drop from ws.old.items }
{
    while from < ws.len() {
        let id = ws[from].id;
        let blocker = ws[from].blocker;
        let binary = ws[from].binary;
        ws[to] = Watch {
            id,
            blocker,
            binary,
        };
        to += 1;
        from += 1;
    }
    ws.truncate(to);
}

// Copies a watch to a place that is no later.
fn copy_down(ws: &mut Vec<Watch>, to: usize, from: usize)
    requires closed { to ≤ from }
    requires within { from < length ws.old.items }
    ensures { (w : Watch) → w ≡ slice_index_or ws.old.items from w → ws.new.items ≡ slice_set ws.old.items to w }
{
    let watch = ws[from];
    ws[to] = watch;
}

// Puts a watch at a place, whatever is there.
fn put(ws: &mut Vec<Watch>, at: usize, id: ClauseId, blocker: Lit, binary: bool)
    requires { at < length ws.old.items }
    ensures { ws.new.items ≡ slice_set ws.old.items at (record { id = id; blocker = blocker; binary = binary }) }
{
    ws[at] = Watch {
        id,
        blocker,
        binary,
    };
}

// Visits the watches of a literal that is false, up to the first false clause.
fn visit(
    f: Lit,
    ws: &mut Vec<Watch>,
    attached: &Marks,
    lists: &mut [WatchList],
    copies: &mut Copies,
    store: &Store,
    trail: &mut Trail,
) -> Result<Option<ClauseId>, Memory>
    requires within { f < length lists.old }
    requires fallen { true_on trail.old.steps (neg f) ≡ true }
    requires ready { AllReady (ids_of attached.now) store.now trail.old.declared }
    requires kept { Kept (ids_of attached.now) store.now (length lists.old) (put_at (at lists.old) f ws.old.items) (pairs copies.old) }
    requires copied { AllCopied store.now copies.old }
    ensures sized { length lists.new ≡ length lists.old }
    ensures kept { Kept (ids_of attached.now) store.now (length lists.old) (put_at (at lists.new) f ws.new.items) (pairs copies.new) }
    ensures copied { AllCopied store.now copies.new }
    ensures keeps { CopiesKeep copies.old copies.new }
    ensures grown { Grown (ids_of attached.now) store.now trail.old trail.new }
    ensures covers { CoverStays store.now (pairs copies.old) (pairs copies.new) trail.old.steps trail.new.steps }
    ensures answer { IfOk result (λ r. MatchOption r (AllTrueIn store.now ws.new.items trail.new.steps) (λ id. IsConflict (ids_of attached.now) store.now trail.new.steps id)) }
{
    let mut i = 0;
    let mut j = 0;
    'each: while i < ws.len() {
        let Watch {
            id,
            blocker,
            binary,
        } = ws[i];
        if trail.is_true(blocker) {
            copy_down(ws, j, i);
            j += 1;
            i += 1;
            continue;
        }
        let settled = match settle(
            id, blocker, binary, f, attached, lists, copies, store, trail,
        ) {
            Ok(settled) => settled,
            Err(memory) => {
                close_gap(ws, j, i);
                return Err(memory);
            }
        };
        match settled {
            Settled::Stays(blocker) => {
                put(ws, j, id, blocker, binary);
                j += 1;
                i += 1;
            }
            Settled::Moves => i += 1,
            Settled::False => {
                close_gap(ws, j, i);
                return Ok(Some(id));
            }
        }
    }
    ws.truncate(j);
    Ok(None)
}

// The place up to which the levels of true literals are sure to be low enough: a place from which on all literals stand at the
// current level is sure for all.
fn sure_from(trail: &Trail, start: usize) -> usize
    ensures above { start ≤ result }
    ensures level { IsLeveled trail.now start result }
{
    trail.law_shape();
    if start >= trail.lits().len() {
        return usize::MAX;
    }
    let var = trail.lits()[start].var();
    if let Some(level) = trail.level_of(var) {
        if level >= trail.level() {
            return usize::MAX;
        }
    }
    start
}

// The lesser of two places.
pub(crate) fn lower(a: usize, b: usize) -> usize
    ensures left { result ≤ a }
    ensures right { result ≤ b }
{
    if a < b { a } else { b }
}

// Visits the list of the literal that is false by that at a place of the trail.
fn pass(
    place: usize,
    attached: &Marks,
    lists: &mut [WatchList],
    scratch: &mut Vec<Watch>,
    copies: &mut Copies,
    store: &Store,
    trail: &mut Trail,
) -> Result<Option<ClauseId>, Memory>
    requires within { place < length trail.old.steps }
    requires ready { AllReady (ids_of attached.now) store.now trail.old.declared }
    requires kept { Kept (ids_of attached.now) store.now (length lists.old) (at lists.old) (pairs copies.old) }
    requires copied { AllCopied store.now copies.old }
    ensures sized { length lists.new ≡ length lists.old }
    ensures kept { Kept (ids_of attached.now) store.now (length lists.old) (at lists.new) (pairs copies.new) }
    ensures copied { AllCopied store.now copies.new }
    ensures keeps { CopiesKeep copies.old copies.new }
    ensures grown { Grown (ids_of attached.now) store.now trail.old trail.new }
    ensures covers { CoverStays store.now (pairs copies.old) (pairs copies.new) trail.old.steps trail.new.steps }
    ensures answer { IfOk result (λ r. MatchOption r (IsPassed store.now (pairs copies.new) trail.new.steps place) (λ id. IsConflict (ids_of attached.now) store.now trail.new.steps id)) }
{
    let f = trail.lits()[place].neg();
    let index = f.code() as usize;
    if index >= lists.len() {
        return Ok(None);
    }
    lists[index].exchange(scratch);
    trail.law_shape();
    let answer = visit(f, scratch, attached, lists, copies, store, trail);
    lists[index].exchange(scratch);
    answer
}

// Assigns what the watched clauses imply, from the head on, up to the first false clause.
pub(crate) fn run(
    head: &mut usize,
    attached: &Marks,
    lists: &mut [WatchList],
    scratch: &mut Vec<Watch>,
    copies: &mut Copies,
    store: &Store,
    trail: &mut Trail,
) -> Result<Option<ClauseId>, Memory>
    requires ready { AllReady (ids_of attached.now) store.now trail.old.declared }
    requires kept { Kept (ids_of attached.now) store.now (length lists.old) (at lists.old) (pairs copies.old) }
    requires copied { AllCopied store.now copies.old }
    requires follows { FollowsOn store.now (pairs copies.old) trail.old.steps head.old }
    ensures sized { length lists.new ≡ length lists.old }
    ensures kept { Kept (ids_of attached.now) store.now (length lists.old) (at lists.new) (pairs copies.new) }
    ensures copied { AllCopied store.now copies.new }
    ensures keeps { CopiesKeep copies.old copies.new }
    ensures grown { Grown (ids_of attached.now) store.now trail.old trail.new }
    ensures follows { FollowsOn store.now (pairs copies.new) trail.new.steps head.new }
    ensures answer { IfOk result (λ r. MatchOption r (WatchedQuiet store.now (pairs copies.new) trail.new.steps) (λ id. IsConflict (ids_of attached.now) store.now trail.new.steps id)) }
{
    let start = *head;
    let sure = sure_from(trail, start);
    let mut place = start;
    'each: while place < trail.lits().len() {
        trail.law_room();
        let answer = pass(place, attached, lists, scratch, copies, store, trail);
        trail.law_shape();
        trail.law_room();
        let conflict = match answer {
            Ok(conflict) => conflict,
            Err(memory) => {
                *head = lower(place, sure);
                return Err(memory);
            }
        };
        match conflict {
            Some(id) => {
                *head = lower(place, sure);
                return Ok(Some(id));
            }
            None => place += 1,
        }
    }
    trail.law_shape();
    *head = lower(place, sure);
    Ok(None)
}
