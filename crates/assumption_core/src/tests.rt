//! Cores of small scenes and a wide one: which assumptions are in them, and which are left out.
ghost use Rattle.std.specs.Prelude.{◌≡◌, ◌<◌, ℕ, true, length, IsSome};
ghost use Rattle.sat_terms.specs.Literal.{has, neg};
ghost use Rattle.clause_store.specs.Stored.{slot, slot_lits};
ghost use Rattle.trail_state.specs.Trail.{step, true_on};
ghost use Rattle.trail_state.specs.Clauses.{FalseOn};
ghost use Rattle.trail_state.specs.declared.reason.Reason.TheVariants.{Decision};
ghost use Rattle.rooted_trails.specs.Rooted.{Rooted};
ghost use Rattle.theory_bridge.specs.Shown.{facing};
ghost use Rattle.lazy_reasons.specs.Idle.{IsIdle};
ghost use Rattle.assumption_core.specs.Core.{DecidesAssumed, Starts};

use crate::cores::{CoreStart, core_of};
use clause_store::store::Store;
use rooted_scenes::scene::{Scene, is_false, lit, lits, named};
use rooted_trails::reading::is_decision;
use sat_model::lists::{ClauseId, Lits};
use sat_model::literal::Lit;
use std::alloc::Global;
use std::test::Fail;
use theory_bridge::bridge::Bridge;
use trail_state::trail::Trail;
use user_propagator::nothing::NoTheory;
use user_propagator::theory::Theory;

// What a scene is made of, and its core. The clauses; the literals of the trail, each with the
// number of its reason, or 0 where it was decided; the assumptions; the one that is false, or 0;
// the number of the false clause, where there is no such assumption; the core. Clauses are numbered
// from 1 on.
#[derive(Drop)]
struct Row<'a> {
    clauses: &'a [&'a [i32]],
    trail: &'a [(i32, usize)],
    assumptions: &'a [i32],
    falsified: i32,
    conflict: usize,
    core: &'a [i32],
}

// Whether a literal, if it was decided, is an assumption.
fn is_assumed_at(trail: &Trail, place: usize, assumptions: &[Lit]) -> bool
    requires { place < length trail.now.steps }
    ensures { result ≡ true → (step trail.now.steps place).reason ≡ Decision → has assumptions.now (step trail.now.steps place).lit ≡ true }
{
    !is_decision(trail, place) || assumptions.contains(&trail.lits()[place])
}

// Whether every decision is an assumption.
fn decides_assumed(trail: &Trail, assumptions: &[Lit]) -> bool
    ensures { result ≡ true → DecidesAssumed trail.now.steps assumptions.now }
{
    for place in 0..trail.lits().len() {
        if !is_assumed_at(trail, place, assumptions) {
            return false;
        }
    }
    true
}

// Whether an assumption is false.
fn is_falsified(trail: &Trail, assumptions: &[Lit], lit: Lit) -> bool
    ensures assumed { result ≡ true → has assumptions.now lit ≡ true }
    ensures is_false { result ≡ true → true_on trail.now.steps (neg lit) ≡ true }
{
    assumptions.contains(&lit) && trail.value(lit) == Some(false)
}

// Whether a live clause is false.
fn is_conflict(store: &Store, trail: &Trail, id: ClauseId) -> bool
    ensures live { result ≡ true → IsSome (slot store.now id) }
    ensures is_false { result ≡ true → FalseOn trail.now.steps (slot_lits (slot store.now id)) }
{
    store.is_live(id) && is_false(trail, store.get(id))
}

// The core, where the propagator rules nothing out.
fn core_beside(
    alloc: Global,
    store: &Store,
    trail: &Trail,
    bridge: &mut Bridge,
    assumptions: &[Lit],
    start: CoreStart,
) -> Result<Lits, Fail>
    requires idle { IsIdle (facing meaning bridge.old) }
    requires rooted { Rooted store.now trail.now.steps }
    requires decisions { DecidesAssumed trail.now.steps assumptions.now }
    requires start { Starts store.now trail.now.steps assumptions.now start }
{
    Ok(core_of(alloc, store, trail, bridge, assumptions, start)?)
}

// The core, where no propagator is connected.
fn core_beside_none(
    alloc: Global,
    store: &Store,
    trail: &Trail,
    assumptions: &[Lit],
    start: CoreStart,
) -> Result<Lits, Fail>
    requires rooted { Rooted store.now trail.now.steps }
    requires decisions { DecidesAssumed trail.now.steps assumptions.now }
    requires start { Starts store.now trail.now.steps assumptions.now start }
{
    let theory: Box<dyn Theory> = Box::new(alloc, NoTheory::new())?;
    let mut bridge = Bridge::new(alloc, theory);
    core_beside(alloc, store, trail, &mut bridge, assumptions, start)
}

// The core of a falsified assumption.
fn falsified_core(
    alloc: Global,
    scene: &Scene,
    assumptions: &[Lit],
    lit: Lit,
) -> Result<Lits, Fail> {
    scene.law_rooted();
    let store = scene.store();
    let trail = scene.trail();
    if decides_assumed(trail, assumptions) && is_falsified(trail, assumptions, lit) {
        return core_beside_none(alloc, store, trail, assumptions, CoreStart::Falsified(lit));
    }
    Err("not a false assumption")?
}

// The core of a false clause.
fn conflict_core(
    alloc: Global,
    scene: &Scene,
    assumptions: &[Lit],
    id: ClauseId,
) -> Result<Lits, Fail> {
    scene.law_rooted();
    let store = scene.store();
    let trail = scene.trail();
    if decides_assumed(trail, assumptions) && is_conflict(store, trail, id) {
        return core_beside_none(alloc, store, trail, assumptions, CoreStart::Conflict(id));
    }
    Err("not a false clause")?
}

// The core of a row.
fn core_from(alloc: Global, row: &Row) -> Result<Lits, Fail> {
    let mut scene = Scene::new(alloc, 50)?;
    let mut ids = Vec::new(alloc);
    for clause in row.clauses {
        ids.push(scene.add(clause)?)?;
    }
    for (number, reason) in row.trail {
        scene.put(ids.as_slice(), *number, *reason)?;
    }
    let assumptions = lits(alloc, row.assumptions)?;
    if row.falsified != 0 {
        let falsified = lit(row.falsified)?;
        return falsified_core(alloc, &scene, assumptions.as_slice(), falsified);
    }
    let id = named(ids.as_slice(), row.conflict)?;
    conflict_core(alloc, &scene, assumptions.as_slice(), id)
}

// Whether a row has its core.
fn is_core_of(alloc: Global, row: &Row) -> Result<bool, Fail> {
    let found = core_from(alloc, row)?;
    let expected = lits(alloc, row.core)?;
    Ok(found.as_slice() == expected.as_slice())
}

#[test]
fn cores(rt: HostRuntime) -> Result<(), Fail> {
    let decided = [
        (8, 0),
        (1, 0),
        (2, 0),
        (3, 0),
        (4, 0),
        (5, 0),
        (6, 0),
        (7, 0),
    ];
    let rows = [
        // A chain from the first assumption to the opposite of the last.
        Row {
            clauses: &[&[1, 2], &[-1, 3]],
            trail: &[(-2, 0), (1, 1), (3, 2)],
            assumptions: &[-2, -3],
            falsified: -3,
            conflict: 0,
            core: &[-2, -3],
        },
        // The first assumption has no part in it.
        Row {
            clauses: &[&[-1, -2]],
            trail: &[(3, 0), (1, 0), (2, 0)],
            assumptions: &[3, 1, 2],
            falsified: 0,
            conflict: 1,
            core: &[1, 2],
        },
        // Nor has one whose consequences the clause does not hold, or what stands at the root; a
        // repeated assumption stands once.
        Row {
            clauses: &[&[9], &[-1, 4], &[-2, 5], &[-3, -5, -9]],
            trail: &[(9, 1), (1, 0), (4, 2), (2, 0), (5, 3), (3, 0)],
            assumptions: &[3, 2, 1, 2],
            falsified: 0,
            conflict: 4,
            core: &[3, 2],
        },
        // An assumption and its opposite.
        Row {
            clauses: &[&[1]],
            trail: &[(6, 0), (2, 0)],
            assumptions: &[6, 2, -2],
            falsified: -2,
            conflict: 0,
            core: &[2, -2],
        },
        // A core above every inline size, in query order.
        Row {
            clauses: &[&[-1, -2, -3, -4, -5, -6, -7]],
            trail: &decided,
            assumptions: &[7, 6, 5, 8, 4, 3, 2, 1],
            falsified: 0,
            conflict: 1,
            core: &[7, 6, 5, 4, 3, 2, 1],
        },
    ];
    for row in &rows {
        assert!(rt; is_core_of(rt.alloc(), row)?);
    }
    Ok(())
}
