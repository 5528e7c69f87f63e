//! What conflicts teach, over small scenes and a wide one, with one scratch for all.
ghost use Rattle.std.specs.Prelude.{◌≡◌, ◌<◌, ◌≤◌, true, false, None, IsSome};
ghost use Rattle.clause_store.specs.Stored.{slot, slot_lits};
ghost use Rattle.trail_state.specs.Clauses.{FalseOn};
ghost use Rattle.rooted_trails.specs.Rooted.{Rooted};
ghost use Rattle.theory_bridge.specs.Shown.{facing};
ghost use Rattle.lazy_reasons.specs.Idle.{IsIdle};
ghost use Rattle.conflict_analysis.specs.Learning.{Reaches};

use crate::analysis::{AnalyzeStop, Learned, analyze};
use crate::levels::highest;
use crate::scratch::Scratch;
use crate::tally::Tally;
use clause_store::store::Store;
use rooted_scenes::scene::{Scene, is_false, lit, lits, named};
use sat_model::lists::ClauseId;
use sat_model::literal::Lit;
use std::alloc::Global;
use std::test::Fail;
use theory_bridge::bridge::Bridge;
use trail_state::trail::Trail;
use user_propagator::nothing::NoTheory;
use user_propagator::theory::Theory;

// A scene, and the clause that is false on its trail.
#[derive(Drop)]
struct Conflict {
    // The scene.
    scene: Scene,
    // The clause that is false.
    clause: ClauseId,
}

// What a scene is made of and what its conflict teaches. Clauses are numbered from 1 on.
#[derive(Drop)]
struct Row<'a> {
    // The clauses.
    clauses: &'a [&'a [i32]],
    // The literals of the trail, each with the number of its reason, or 0 where it was decided.
    trail: &'a [(i32, usize)],
    // The number of the false clause.
    conflict: usize,
    // The learned clause.
    learned: &'a [i32],
    // Its back level.
    back_level: u32,
    // Its glue.
    glue: u32,
    // Its asserting literal.
    owed: i32,
}

// Makes the scene of a row.
fn set_up(alloc: Global, row: &Row) -> Result<Conflict, Fail> {
    let mut scene = Scene::new(alloc, 50)?;
    let mut ids = Vec::new(alloc);
    for clause in row.clauses {
        ids.push(scene.add(clause)?)?;
    }
    for (number, reason) in row.trail {
        scene.put(ids.as_slice(), *number, *reason)?;
    }
    let clause = named(ids.as_slice(), row.conflict)?;
    Ok(Conflict { scene, clause })
}

// Whether one of the literals has the current level, and that is above the root.
fn reaches(trail: &Trail, clause: &[Lit]) -> bool
    ensures above { result ≡ true → 0 < trail.now.level }
    ensures reaches { result ≡ true → Reaches trail.now.steps trail.now.level clause.now }
{
    let top = trail.level();
    top > 0 && highest(trail, clause) == top
}

// Whether a clause is false, and reaches the current level.
fn is_conflict(store: &Store, trail: &Trail, id: ClauseId) -> bool
    ensures live { result ≡ true → IsSome (slot store.now id) }
    ensures is_false { result ≡ true → FalseOn trail.now.steps (slot_lits (slot store.now id)) }
    ensures above { result ≡ true → 0 < trail.now.level }
    ensures reaches { result ≡ true → Reaches trail.now.steps trail.now.level (slot_lits (slot store.now id)) }
{
    store.is_live(id) && is_false(trail, store.get(id)) && reaches(trail, store.get(id))
}

// Whether a tally can count a conflict.
fn is_ready(tally: &Tally) -> bool
    ensures fresh { result ≡ true → tally.now.is_spent ≡ false }
    ensures settled { result ≡ true → tally.now.owes ≡ None }
{
    !tally.is_spent() && tally.owes().is_none()
}

// What a conflict teaches, where the propagator rules nothing out.
fn learned_beside(
    alloc: Global,
    store: &Store,
    trail: &Trail,
    bridge: &mut Bridge,
    scratch: &mut Scratch,
    tally: &mut Tally,
    conflict: ClauseId,
) -> Result<Learned, AnalyzeStop>
    requires idle { IsIdle (facing meaning bridge.old) }
    requires rooted { Rooted store.now trail.now.steps }
    requires fresh { tally.old.is_spent ≡ false }
    requires settled { tally.old.owes ≡ None }
    requires live { IsSome (slot store.now conflict) }
    requires is_false { FalseOn trail.now.steps (slot_lits (slot store.now conflict)) }
    requires above { 0 < trail.now.level }
    requires reaches { Reaches trail.now.steps trail.now.level (slot_lits (slot store.now conflict)) }
{
    analyze(alloc, store, trail, bridge, scratch, tally, conflict)
}

// What a conflict teaches, where no propagator is connected.
fn learned_beside_none(
    alloc: Global,
    store: &Store,
    trail: &Trail,
    scratch: &mut Scratch,
    tally: &mut Tally,
    conflict: ClauseId,
) -> Result<Result<Learned, AnalyzeStop>, Fail>
    requires rooted { Rooted store.now trail.now.steps }
    requires fresh { tally.old.is_spent ≡ false }
    requires settled { tally.old.owes ≡ None }
    requires live { IsSome (slot store.now conflict) }
    requires is_false { FalseOn trail.now.steps (slot_lits (slot store.now conflict)) }
    requires above { 0 < trail.now.level }
    requires reaches { Reaches trail.now.steps trail.now.level (slot_lits (slot store.now conflict)) }
{
    let theory: Box<dyn Theory> = Box::new(alloc, NoTheory::new())?;
    let mut bridge = Bridge::new(alloc, theory);
    Ok(learned_beside(alloc, store, trail, &mut bridge, scratch, tally, conflict))
}

// What a conflict teaches.
fn learned_from(
    alloc: Global,
    made: &Conflict,
    scratch: &mut Scratch,
    tally: &mut Tally,
) -> Result<Result<Learned, AnalyzeStop>, Fail> {
    made.scene.law_rooted();
    let store = made.scene.store();
    let trail = made.scene.trail();
    if is_ready(tally) && is_conflict(store, trail, made.clause) {
        return learned_beside_none(alloc, store, trail, scratch, tally, made.clause);
    }
    Err("no conflict")?
}

// Whether a row's conflict teaches what the row says, and the tally counts it.
fn teaches(
    alloc: Global,
    row: &Row,
    scratch: &mut Scratch,
    tally: &mut Tally,
) -> Result<bool, Fail> {
    let made = set_up(alloc, row)?;
    tally.start(1);
    let before = tally.total();
    let learned = learned_from(alloc, &made, scratch, tally)??;
    let clause = lits(alloc, row.learned)?;
    let owed = lit(row.owed)?;
    let taught = scratch.learned() == clause.as_slice()
        && is_false(made.scene.trail(), scratch.met());
    let valued = learned.back_level == row.back_level && learned.glue == row.glue;
    let counted = tally.count() == 1 && tally.total() == before + 1 && tally.owes() == Some(owed);
    Ok(taught && valued && counted)
}

// The decisions 1 to 45.
const DECIDED: [(i32, usize); 45] = [
    (1, 0),
    (2, 0),
    (3, 0),
    (4, 0),
    (5, 0),
    (6, 0),
    (7, 0),
    (8, 0),
    (9, 0),
    (10, 0),
    (11, 0),
    (12, 0),
    (13, 0),
    (14, 0),
    (15, 0),
    (16, 0),
    (17, 0),
    (18, 0),
    (19, 0),
    (20, 0),
    (21, 0),
    (22, 0),
    (23, 0),
    (24, 0),
    (25, 0),
    (26, 0),
    (27, 0),
    (28, 0),
    (29, 0),
    (30, 0),
    (31, 0),
    (32, 0),
    (33, 0),
    (34, 0),
    (35, 0),
    (36, 0),
    (37, 0),
    (38, 0),
    (39, 0),
    (40, 0),
    (41, 0),
    (42, 0),
    (43, 0),
    (44, 0),
    (45, 0),
];

// The clause of their negations.
const WIDE: [i32; 45] = [
    -1, -2, -3, -4, -5, -6, -7, -8, -9, -10, -11, -12, -13, -14, -15, -16, -17, -18, -19, -20, -21,
    -22, -23, -24, -25, -26, -27, -28, -29, -30, -31, -32, -33, -34, -35, -36, -37, -38, -39, -40,
    -41, -42, -43, -44, -45,
];

#[test]
fn conflicts_teach(rt: HostRuntime) -> Result<(), Fail> {
    let mut scratch = Scratch::new(rt.alloc());
    let mut tally = Tally::new();
    let rows = [
        Row {
            clauses: &[&[-1, 2], &[-1, -2]],
            trail: &[(1, 0), (2, 1)],
            conflict: 2,
            learned: &[-1],
            back_level: 0,
            glue: 1,
            owed: -1,
        },
        // Three levels: 4 is resolved on, and 3 is decided at the current level.
        Row {
            clauses: &[&[-1, -3, 4], &[-2, -3, -4]],
            trail: &[(1, 0), (2, 0), (3, 0), (4, 1)],
            conflict: 2,
            learned: &[-1, -2, -3],
            back_level: 2,
            glue: 3,
            owed: -3,
        },
        // The first point is 4, before the decision: 5 and 6 follow from it. A literal of the root is left out.
        Row {
            clauses: &[&[7], &[-3, 4], &[-4, 5], &[-1, -4, 6, -7], &[-5, -6]],
            trail: &[(7, 1), (1, 0), (2, 0), (3, 0), (4, 2), (5, 3), (6, 4)],
            conflict: 5,
            learned: &[-1, -4],
            back_level: 1,
            glue: 2,
            owed: -4,
        },
        // 2 follows from 1, so it goes.
        Row {
            clauses: &[&[-1, 2], &[-3, 4], &[-1, -2, -3, -4]],
            trail: &[(1, 0), (2, 1), (3, 0), (4, 2)],
            conflict: 3,
            learned: &[-1, -3],
            back_level: 1,
            glue: 2,
            owed: -3,
        },
        // 8 follows from 1 by a path over 2, 5 and 6, which are in no clause that is resolved on.
        Row {
            clauses: &[
                &[-1, 2],
                &[-2, 5],
                &[-1, -5, 6],
                &[-2, -6, 8],
                &[-3, 4],
                &[-1, -3, -4, -8],
            ],
            trail: &[(1, 0), (2, 1), (5, 2), (6, 3), (8, 4), (3, 0), (4, 5)],
            conflict: 6,
            learned: &[-1, -3],
            back_level: 1,
            glue: 2,
            owed: -3,
        },
        // 5 and 6 follow from the decision 2, which is not in the clause, so they stay.
        Row {
            clauses: &[&[-2, 5], &[-2, -5, 6], &[-3, 4], &[-3, -4, -5, -6]],
            trail: &[(2, 0), (5, 1), (6, 2), (3, 0), (4, 3)],
            conflict: 4,
            learned: &[-3, -5, -6],
            back_level: 1,
            glue: 2,
            owed: -3,
        },
        Row {
            clauses: &[&WIDE],
            trail: &DECIDED,
            conflict: 1,
            learned: &WIDE,
            back_level: 44,
            glue: 45,
            owed: -45,
        },
        Row {
            clauses: &[&[-1, 2], &[-1, -2]],
            trail: &[(1, 0), (2, 1)],
            conflict: 2,
            learned: &[-1],
            back_level: 0,
            glue: 1,
            owed: -1,
        },
    ];
    for row in &rows {
        assert!(rt; teaches(rt.alloc(), row, &mut scratch, &mut tally)?);
    }
    assert_eq!(rt; tally.total(), 8);
    Ok(())
}

#[test]
fn budgets_end(rt: HostRuntime) -> Result<(), Fail> {
    let row = Row {
        clauses: &[&[-1, 2], &[-1, -2]],
        trail: &[(1, 0), (2, 1)],
        conflict: 2,
        learned: &[-1],
        back_level: 0,
        glue: 1,
        owed: -1,
    };
    let made = set_up(rt.alloc(), &row)?;
    let mut scratch = Scratch::new(rt.alloc());
    let mut tally = Tally::new();
    tally.start(0);
    let answer = learned_from(rt.alloc(), &made, &mut scratch, &mut tally)?;
    assert!(rt; answer.err() == Some(AnalyzeStop::Conflicts(0)));
    assert!(rt; tally.is_spent() && tally.owes().is_none() && tally.total() == 0);
    Ok(())
}
