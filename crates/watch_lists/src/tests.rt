//! Rows of clauses and decisions with what follows from them, lists before and after a propagation, and hundreds of clauses that
//! are attached, detached at once and compacted.
ghost use Rattle.std.specs.Prelude.{◌≡◌, ◌≤◌, ℕ, true, IsTrue, IfOk, OnOk};
ghost use Rattle.sat_terms.specs.Literal.{has};
ghost use Rattle.sat_terms.specs.Normal.{IsNormal};
ghost use Rattle.sat_terms.specs.Answer.{Within};
ghost use Rattle.watch_lists.specs.Propagation.{Follows, AllReady};
ghost use Rattle.watch_lists.specs.Worlds.{IsSound};

use crate::watches::Watches;
use clause_store::store::Store;
use clause_store::stored::Keep;
use sat_model::lists::{ClauseId, Ids};
use sat_model::literal::{Lit, Var};
use std::alloc::Global;
use std::test::Fail;
use trail_state::trail::Trail;

// A store, the lists over it and the trail that they follow.
#[derive(Drop)]
struct World {
    alloc: Global,
    store: Store,
    watches: Watches,
    trail: Trail,
}

// A world of 600 variables and no clause.
fn new_world(alloc: Global) -> Result<World, Fail>
    ensures ready { IfOk result (λ w. AllReady w.watches.attached w.store 600) }
    ensures declared { IfOk result (λ w. w.trail.declared ≡ 600) }
    ensures known { IfOk result (λ w. 600 ≤ w.watches.declared) }
    ensures following { IfOk result (λ w. Follows w.watches w.store w.trail) }
{
    let last = Var::new(600).ok_or("no variable")?;
    let store = Store::new(alloc);
    let mut watches = Watches::new(alloc);
    let mut trail = Trail::new(alloc);
    watches.declare(last)?;
    trail.declare(last)?;
    Ok(World {
        alloc,
        store,
        watches,
        trail,
    })
}

// Whether the variables of the literals rise, up to 600.
fn are_rising(lits: &[Lit]) -> bool
    ensures normal { IsTrue result → IsNormal lits.now }
    ensures within { IsTrue result → Within 600 lits.now }
{
    let mut last = 0;
    let mut k = 0;
    'each: while k < lits.len() {
        let var = lits[k].var().index();
        if var <= last || var > 600 {
            return false;
        }
        last = var;
        k += 1;
    }
    true
}

// The literals of these numbers.
fn lits_of(alloc: Global, numbers: &[i32]) -> Result<Vec<Lit>, Fail> {
    let mut lits: Vec<Lit> = Vec::new(alloc);
    for number in numbers {
        lits.push(Lit::new(*number).ok_or("no literal")?)?;
    }
    Ok(lits)
}

// Adds and attaches a clause, whose variables rise.
fn attach(world: &mut World, lits: &[Lit]) -> Result<ClauseId, Fail>
    requires { IsSound world.old.watches world.old.store world.old.trail }
    ensures { OnOk result (IsSound world.new.watches world.new.store world.new.trail) }
{
    if !are_rising(lits) {
        return Err("the variables do not rise up to 600")?;
    }
    let id = world.store.add(lits, Keep::Firm, 0)?;
    world.watches.law_following();
    world.watches.attach(&world.store, id)?;
    Ok(id)
}

// Adds and attaches the clause of the literals of these numbers.
fn give(world: &mut World, numbers: &[i32]) -> Result<ClauseId, Fail>
    requires { IsSound world.old.watches world.old.store world.old.trail }
    ensures { OnOk result (IsSound world.new.watches world.new.store world.new.trail) }
{
    let lits = lits_of(world.alloc, numbers)?;
    attach(world, lits.as_slice())
}

// Adds and attaches these clauses.
fn give_all(world: &mut World, clauses: &[&[i32]]) -> Result<(), Fail>
    requires { IsSound world.old.watches world.old.store world.old.trail }
    ensures { OnOk result (IsSound world.new.watches world.new.store world.new.trail) }
{
    let mut k = 0;
    'each: while k < clauses.len() {
        give(world, clauses[k])?;
        k += 1;
    }
    Ok(())
}

// Goes back to the root, and propagates.
fn restart(world: &mut World) -> Result<Option<ClauseId>, Fail>
    requires { IsSound world.old.watches world.old.store world.old.trail }
    ensures { OnOk result (IsSound world.new.watches world.new.store world.new.trail) }
{
    world.trail.back_to(0);
    world.watches.cut(&world.trail);
    Ok(world.watches.propagate(&world.store, &mut world.trail)?)
}

// Goes back to the root, decides the literals of these numbers as far as they are open, and propagates at each.
fn propagate(world: &mut World, numbers: &[i32]) -> Result<Option<ClauseId>, Fail>
    requires { IsSound world.old.watches world.old.store world.old.trail }
    ensures { OnOk result (IsSound world.new.watches world.new.store world.new.trail) }
{
    let mut found = restart(world)?;
    let mut k = 0;
    'each: while k < numbers.len() {
        if found.is_none() {
            found = decide(world, numbers[k])?;
        }
        k += 1;
    }
    Ok(found)
}

// Decides the literal of this number, if it is open, and propagates.
fn decide(world: &mut World, number: i32) -> Result<Option<ClauseId>, Fail>
    requires { IsSound world.old.watches world.old.store world.old.trail }
    ensures { OnOk result (IsSound world.new.watches world.new.store world.new.trail) }
{
    let lit = Lit::new(number).ok_or("no literal")?;
    if lit.var().index() > world.trail.declared() || world.trail.value(lit).is_some() {
        return Ok(None);
    }
    world.trail.decide(lit);
    world.watches.law_following();
    Ok(world.watches.propagate(&world.store, &mut world.trail)?)
}

// Detaches every second of these clauses at once, and compacts.
fn detach_half(world: &mut World, ids: &[ClauseId]) -> Result<(), Fail>
    requires { IsSound world.old.watches world.old.store world.old.trail }
    ensures { OnOk result (IsSound world.new.watches world.new.store world.new.trail) }
{
    let gone = every_second(&world.watches, ids, world.alloc)?;
    world.watches.detach_all(&world.store, &gone);
    world.watches.compact()?;
    Ok(())
}

// Every second of these clauses that is attached.
fn every_second(watches: &Watches, ids: &[ClauseId], alloc: Global) -> Result<Ids, Fail>
    ensures { IfOk result (λ r. (k : ℕ) → has r k ≡ true → has watches.now.attached k ≡ true) }
{
    let mut gone = Ids::new(alloc);
    let mut odd = false;
    for id in ids {
        if odd && watches.is_attached(*id) {
            gone.push(*id)?;
        }
        odd = !odd;
    }
    Ok(gone)
}

// Whether the trail has the literals of these numbers.
fn has_trail(trail: &Trail, numbers: &[i32]) -> bool {
    if trail.lits().len() != numbers.len() {
        return false;
    }
    for k in 0..numbers.len() {
        if trail.lits()[k].number() != numbers[k] {
            return false;
        }
    }
    true
}

// How many watches of a clause there are in the lists of the literals of these numbers.
fn times_watched(watches: &Watches, id: ClauseId, numbers: &[i32]) -> u64 {
    let mut times: u64 = 0;
    for number in numbers {
        if let Some(lit) = Lit::new(*number) {
            for watch in watches.watched(lit) {
                if watch.id == id {
                    times = times.saturating_add(1);
                }
            }
        }
    }
    times
}

// Whether the clauses imply this trail under the decisions, or one of them is false, as they are attached in turn.
fn answers(
    world: &mut World,
    clauses: &[&[i32]],
    decisions: &[i32],
    trail: &[i32],
    is_false: bool,
) -> Result<bool, Fail>
    requires { IsSound world.old.watches world.old.store world.old.trail }
{
    give_all(world, clauses)?;
    let found = propagate(world, decisions)?;
    let holds = is_false || has_trail(&world.trail, trail);
    Ok(found.is_some() == is_false && holds)
}

// Whether a clause waits once it is attached, and stands in two lists once it was propagated.
fn waits_then_watches(world: &mut World) -> Result<bool, Fail>
    requires { IsSound world.old.watches world.old.store world.old.trail }
{
    let id = give(world, &[1, 2, 3])?;
    let waits = is_only(world.watches.waiting(), id);
    let none = times_watched(&world.watches, id, &[1, 2, 3, -1, -2, -3]) == 0;
    let found = restart(world)?;
    let two = times_watched(&world.watches, id, &[1, 2, 3]) == 2;
    let no_other = times_watched(&world.watches, id, &[-1, -2, -3]) == 0;
    let empty = world.watches.waiting().is_empty();
    Ok(waits && none && found.is_none() && empty && two && no_other)
}

// Whether a list holds this id alone.
fn is_only(ids: &[ClauseId], id: ClauseId) -> bool {
    ids.len() == 1 && ids[0] == id
}

// Adds and attaches the clauses by which 1 implies each of 2 to 400 where 600 is false, and a clause of 400 literals by which these
// imply 500. Answers the ids of the former.
fn give_many(world: &mut World) -> Result<Vec<ClauseId>, Fail>
    requires { IsSound world.old.watches world.old.store world.old.trail }
    ensures { OnOk result (IsSound world.new.watches world.new.store world.new.trail) }
{
    let mut ids: Vec<ClauseId> = Vec::new(world.alloc);
    let mut long: Vec<Lit> = Vec::new(world.alloc);
    let mut number: u16 = 2;
    'each: while number <= 400 {
        let id = give(world, &[-1, number as i32, 600])?;
        ids.push(id)?;
        let lit = Lit::new(number as i32).ok_or("no literal")?;
        long.push(lit.neg())?;
        number += 1;
    }
    let last = Lit::new(500).ok_or("no literal")?;
    long.push(last)?;
    attach(world, long.as_slice())?;
    Ok(ids)
}

// How many literals are true under these decisions, if no clause is false.
fn count_true(world: &mut World, decisions: &[i32]) -> Result<usize, Fail>
    requires { IsSound world.old.watches world.old.store world.old.trail }
    ensures { OnOk result (IsSound world.new.watches world.new.store world.new.trail) }
{
    let found = propagate(world, decisions)?;
    if found.is_some() {
        return Ok(0);
    }
    Ok(world.trail.lits().len())
}

// Whether hundreds of clauses, one of hundreds of literals among them, imply as many literals, before and after half of them were
// detached, the trail went back and the copies were compacted.
fn many_come_and_go(world: &mut World) -> Result<bool, Fail>
    requires { IsSound world.old.watches world.old.store world.old.trail }
{
    let ids = give_many(world)?;
    let all = count_true(world, &[-600, 1])?;
    detach_half(world, ids.as_slice())?;
    let half = count_true(world, &[-600, 1])?;
    detach_half(world, ids.as_slice())?;
    let other_way = count_true(world, &[1, -600])?;
    Ok(all == 402 && half == 202 && other_way == 202)
}

#[test]
fn propagation_finds_what_follows(rt: HostRuntime) -> Result<(), Fail> {
    let rows: [(&[&[i32]], &[i32], &[i32], bool); 6] = [
        // In turn: the first implies 1, and so the second 3.
        (&[&[1, 2], &[-1, 3]], &[-2], &[-2, 1, 3], false),
        // One of two is false.
        (&[&[1, 2], &[1, -2]], &[-1], &[], true),
        // A unit, and what it leaves of another clause.
        (&[&[5], &[-5, 6, 7]], &[-6], &[5, -6, 7], false),
        // Two units are opposite, and the empty clause is false.
        (&[&[5], &[-5]], &[], &[], true),
        (&[&[]], &[], &[], true),
        // A watch moves twice before the clause implies its last literal.
        (&[&[1, 2, 3, 4]], &[-1, -2, -4], &[-1, -2, -4, 3], false),
    ];
    for (clauses, decisions, trail, is_false) in rows {
        let mut world = new_world(rt.alloc())?;
        assert!(rt; answers(&mut world, clauses, decisions, trail, is_false)?);
    }
    let mut world = new_world(rt.alloc())?;
    assert!(rt; waits_then_watches(&mut world)?);
    let mut world = new_world(rt.alloc())?;
    assert!(rt; many_come_and_go(&mut world)?);
    Ok(())
}
