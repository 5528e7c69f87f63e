//! The solver against plain backtracking.
//!
//! One test answers a few thousand small scripts both ways. The other one asks a single solver,
//! first a query that takes more than two thousand conflicts, so that restarts, the stable half and a
//! reduction are reached, and then some more over what is left of that.
ghost use Rattle.std.specs.Prelude.{◌≤◌, All, IsTrue};
ghost use Rattle.sat_terms.specs.Limits.{max_number};
ghost use Rattle.sat_terms.specs.Answer.{Within};

use crate::draw::Draw;
use plain_search::search::search;
use sat_model::lists::Lits;
use sat_model::literal::{Lit, Var};
use sat_model::truth::{clause_true, lit_true};
use solver_api::calls::{Budget, NO_BUDGET, Outcome};
use solver_api::solver::Solver;
use std::alloc::Global;
use std::test::Fail;

// The greatest variable of all tests.
const MOST_VARS: u32 = 57;

// The greatest variable of a script, how many scripts there are, and how many statements each has.
const SCRIPT_VARS: u32 = 9;

const SCRIPTS: u64 = 3000;

const STATEMENTS: u32 = 30;

// A budget of no conflicts.
const NO_CONFLICTS: Budget = Budget {
    conflicts: 0,
    callbacks: 0,
};

// How many answers there were of each kind, and how many did not fit.
#[derive(Drop)]
struct Counts {
    models: u64,
    cores: u64,
    unknown: u64,
    unfit: u64,
}

fn are_within(lits: &[Lit]) -> bool
    ensures { IsTrue result → Within 57 lits.now }
{
    lits.iter().all(|lit| lit.var().index() <= MOST_VARS)
}

fn all_within(clauses: &[Lits]) -> bool
    ensures { IsTrue result → All (Within 57) clauses.now }
{
    clauses.iter().all(|clause| are_within(clause.as_slice()))
}

// Whether plain backtracking finds a model.
fn has_model(alloc: Global, clauses: &Vec<Lits>, assumed: &[Lit]) -> Result<bool, Fail> {
    if !all_within(clauses.as_slice()) || !are_within(assumed) {
        return Err("a literal out of range")?;
    }
    Ok(search(alloc, clauses, assumed, MOST_VARS)?.is_some())
}

// Whether a model makes the clauses and the assumptions true.
fn makes_true(model: &[bool], clauses: &[Lits], assumed: &[Lit]) -> bool {
    let clauses_hold = clauses
        .iter()
        .all(|clause| clause_true(model, clause.as_slice()));
    clauses_hold && assumed.iter().all(|lit| lit_true(model, *lit))
}

// Whether a literal stands in a list before a place.
fn stands_before(lits: &[Lit], place: usize, lit: Lit) -> bool {
    lits.iter().take(place).any(|other| *other == lit)
}

// Whether the core has some of the assumptions, in their order and none twice.
fn is_part(core: &[Lit], assumed: &[Lit]) -> bool {
    let mut at = 0;
    for lit in assumed {
        if at < core.len() && core[at] == *lit {
            if stands_before(core, at, *lit) {
                return false;
            }
            at += 1;
        }
    }
    at == core.len()
}

// Assumes literals, and solves within a budget.
fn solve(solver: &mut Solver, assumed: &[Lit], budget: Budget) -> Result<Outcome, Fail>
    requires conflicts { budget.conflicts ≤ max_number }
    requires callbacks { budget.callbacks ≤ max_number }
{
    for lit in assumed {
        solver.assume(*lit)?;
    }
    Ok(solver.solve(budget, 1000)?)
}

// Whether the solver's last answer is that of plain backtracking, with a model or a core that fits.
// Unknown fits always.
fn fits(
    alloc: Global,
    solver: &Solver,
    outcome: Outcome,
    clauses: &Vec<Lits>,
    assumed: &[Lit],
) -> Result<bool, Fail> {
    let expected = has_model(alloc, clauses, assumed)?;
    match outcome {
        Outcome::Sat => Ok(expected && makes_true(solver.model()?, clauses.as_slice(), assumed)),
        Outcome::Unsat => {
            let core = solver.core()?;
            Ok(!expected && is_part(core, assumed) && !has_model(alloc, clauses, core)?)
        }
        Outcome::Unknown(_) => Ok(true),
    }
}

// Counts an answer.
fn count(counts: &mut Counts, outcome: Outcome, fits: bool) {
    match outcome {
        Outcome::Sat => counts.models = counts.models.saturating_add(1),
        Outcome::Unsat => counts.cores = counts.cores.saturating_add(1),
        Outcome::Unknown(_) => counts.unknown = counts.unknown.saturating_add(1),
    }
    if !fits {
        counts.unfit = counts.unfit.saturating_add(1);
    }
}

// Asks the solver with no conflict to spend, and where that is too little without a budget.
fn ask(
    alloc: Global,
    solver: &mut Solver,
    clauses: &Vec<Lits>,
    assumed: &[Lit],
    counts: &mut Counts,
) -> Result<(), Fail> {
    let first = solve(solver, assumed, NO_CONFLICTS)?;
    let first_fits = fits(alloc, solver, first, clauses, assumed)?;
    count(counts, first, first_fits);
    if matches!(first, Outcome::Unknown(_)) {
        let second = solve(solver, assumed, NO_BUDGET)?;
        let second_fits = fits(alloc, solver, second, clauses, assumed)?;
        count(
            counts,
            second,
            second_fits && !matches!(second, Outcome::Unknown(_)),
        );
    }
    Ok(())
}

// Clauses and queries in turn, as drawn from a seed. Few clauses are empty.
fn compare(alloc: Global, seed: u64, counts: &mut Counts) -> Result<(), Fail> {
    let mut draw = Draw::new(seed);
    let vars = draw.below(SCRIPT_VARS - 2).saturating_add(3);
    let mut solver = Solver::new(alloc)?;
    let mut clauses = Vec::new(alloc);
    for _ in 0..STATEMENTS {
        if draw.below(3) > 0 {
            let size = if draw.below(100) == 0 {
                0
            } else {
                draw.below(5).saturating_add(1)
            };
            let clause = draw.literals(alloc, vars, size)?;
            solver.add(clause.as_slice())?;
            clauses.push(clause)?;
        } else {
            let size = draw.below(5);
            let assumed = draw.literals(alloc, vars, size)?;
            ask(alloc, &mut solver, &clauses, assumed.as_slice(), counts)?;
        }
    }
    Ok(())
}

// So many holes, and one pigeon more.
const HOLES: u32 = 7;

// How many queries follow.
const QUERIES: u32 = 40;

// The literal that a pigeon sits in a hole.
fn sits(pigeon: u32, hole: u32) -> Result<Lit, Fail> {
    let number = pigeon
        .saturating_mul(HOLES)
        .saturating_add(hole)
        .saturating_add(1);
    let var = Var::new(number).ok_or("no variable")?;
    Ok(var.positive())
}

// The literal under which the last pigeon has a hole.
fn guard() -> Result<Lit, Fail> {
    sits(HOLES, HOLES)
}

// Gives a clause to the solver and to the list.
fn give(solver: &mut Solver, clauses: &mut Vec<Lits>, clause: Lits) -> Result<(), Fail> {
    solver.add(clause.as_slice())?;
    clauses.push(clause)?;
    Ok(())
}

// The clause that a pigeon has a hole; the last one has, if the guard is true.
fn has_hole(alloc: Global, pigeon: u32) -> Result<Lits, Fail> {
    let mut clause = Lits::new(alloc);
    for hole in 0..HOLES {
        clause.push(sits(pigeon, hole)?)?;
    }
    if pigeon == HOLES {
        clause.push(guard()?.neg())?;
    }
    Ok(clause)
}

// Gives the clause that two things do not hold at once.
fn give_pair(
    alloc: Global,
    solver: &mut Solver,
    clauses: &mut Vec<Lits>,
    first: Lit,
    second: Lit,
) -> Result<(), Fail> {
    let pair = Lits::from_slice(alloc, &[first.neg(), second.neg()])?;
    give(solver, clauses, pair)
}

// Gives the clauses that a pigeon has a hole, that it has no two, and that it shares its hole with
// no pigeon before it.
fn give_pigeon(
    alloc: Global,
    solver: &mut Solver,
    clauses: &mut Vec<Lits>,
    pigeon: u32,
) -> Result<(), Fail> {
    give(solver, clauses, has_hole(alloc, pigeon)?)?;
    for hole in 0..HOLES {
        let here = sits(pigeon, hole)?;
        for other in 0..hole {
            give_pair(alloc, solver, clauses, here, sits(pigeon, other)?)?;
        }
        for other in 0..pigeon {
            give_pair(alloc, solver, clauses, here, sits(other, hole)?)?;
        }
    }
    Ok(())
}

// Asks what is left of the pigeons, under assumptions that are drawn. The guard is none of them.
fn ask_more(
    alloc: Global,
    solver: &mut Solver,
    clauses: &Vec<Lits>,
    counts: &mut Counts,
) -> Result<(), Fail> {
    let mut draw = Draw::new(1);
    for _ in 0..QUERIES {
        let size = draw.below(9);
        let assumed = draw.literals(alloc, MOST_VARS - 1, size)?;
        ask(alloc, solver, clauses, assumed.as_slice(), counts)?;
    }
    Ok(())
}

#[test]
fn goes_on_after_many_conflicts(rt: HostRuntime) -> Result<(), Fail> {
    let alloc = rt.alloc();
    let mut solver = Solver::new(alloc)?;
    let mut clauses = Vec::new(alloc);
    for pigeon in 0..HOLES + 1 {
        give_pigeon(alloc, &mut solver, &mut clauses, pigeon)?;
    }
    // Without the guard the pigeons have holes, so the guard is the core.
    let last = guard()?;
    let found = solve(&mut solver, &[last], NO_BUDGET)?;
    let core = solver.core()?;
    let fit = core.len() == 1 && core.iter().all(|lit| *lit == last);
    // The focused half of the first phase has 1000 conflicts, so the stable one has begun; the first reduction comes after 2000.
    let conflicts = solver.stats().conflicts;
    assert!(rt; fit && matches!(found, Outcome::Unsat) && conflicts > 2000);
    let mut counts = Counts {
        models: 0,
        cores: 0,
        unknown: 0,
        unfit: 0,
    };
    ask_more(alloc, &mut solver, &clauses, &mut counts)?;
    assert_eq!(rt; counts.unfit, 0);
    assert!(rt; counts.models > 5 && counts.cores > 5 && counts.unknown > 5);
    Ok(())
}

#[test]
fn answers_as_plain_backtracking_does(rt: HostRuntime) -> Result<(), Fail> {
    let mut counts = Counts {
        models: 0,
        cores: 0,
        unknown: 0,
        unfit: 0,
    };
    for seed in 0..SCRIPTS {
        compare(rt.alloc(), seed, &mut counts)?;
    }
    assert_eq!(rt; counts.unfit, 0);
    assert!(rt; counts.models > 5000 && counts.cores > 5000 && counts.unknown > 200);
    Ok(())
}
