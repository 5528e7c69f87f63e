//! Tests of a solver.
//!
//! Most are scripts: each row gives a clause, asks a query, or looks at what is shown. The long
//! clause is above every size that is kept in place.

use crate::calls::{Budget, Call, Outcome, Refusal, Spent};
use crate::givens::GivenPart;
use crate::solver::Solver;
use sat_model::constraint::Kind;
use sat_model::lists::Lits;
use sat_model::literal::Lit;
use std::alloc::Global;
use std::process::Abort;
use std::test::Fail;

// More than these tests use.
const AMPLE: Budget = Budget {
    conflicts: 1_000_000,
    callbacks: 1_000_000,
};

// The literal that is written as this number.
fn lit(rt: &impl Abort, number: i32) -> Lit {
    Lit::new(number).expect(rt, "a literal")
}

// Gives the clause of these numbers.
fn give(rt: &impl Abort, alloc: Global, solver: &mut Solver, numbers: &[i32]) -> Result<(), Fail> {
    let mut clause = Lits::new(alloc);
    for number in numbers {
        clause.push(lit(rt, *number))?;
    }
    solver.add(clause.as_slice())?;
    Ok(())
}

// Assumes these numbers and solves within so many conflicts: the word `sat` and the model's values,
// the word `unsat` and the core's numbers, or the word `unknown` and the conflicts that were
// counted.
fn ask(
    rt: &impl Abort,
    alloc: Global,
    solver: &mut Solver,
    numbers: &[i32],
    conflicts: u32,
) -> Result<String, Fail> {
    for number in numbers {
        solver.assume(lit(rt, *number))?;
    }
    let budget = Budget {
        conflicts: u64::from(conflicts),
        callbacks: 0,
    };
    match solver.solve(budget, 1000)? {
        Outcome::Sat => model_text(alloc, solver.model()?),
        Outcome::Unsat => core_text(alloc, solver.core()?),
        Outcome::Unknown(Spent::Conflicts(n)) => Ok(format!(in alloc; "unknown {n}")?),
    }
}

fn model_text(alloc: Global, model: &[bool]) -> Result<String, Fail> {
    let mut text = String::from_str(alloc, "sat")?;
    for value in model {
        text.push_str(if *value { " 1" } else { " 0" })?;
    }
    Ok(text)
}

fn core_text(alloc: Global, core: &[Lit]) -> Result<String, Fail> {
    let mut text = String::from_str(alloc, "unsat")?;
    for lit in core {
        let word = format!(in alloc; " {}", lit.number())?;
        text.push_str(word.as_str())?;
    }
    Ok(text)
}

// A step of a script.
#[derive(Drop)]
enum Row<'a> {
    // A clause is given.
    Give(&'a [i32]),
    // A query under these assumptions finds this.
    Ask(&'a [i32], &'a str),
    // A query under these assumptions, within so many conflicts, finds this.
    AskWithin(&'a [i32], u32, &'a str),
    // So many conflicts were counted in the last solve, and nothing else.
    Conflicts(u64),
    // `val` and `failed` of this literal answer so.
    Look(i32, &'a str),
    // So many assumptions are pending, and so many were queried.
    Count(usize, usize),
    // `recheck` answers so.
    Recheck(&'a str),
}

fn run(rt: &impl Abort, alloc: Global, rows: &[Row]) -> Result<(), Fail> {
    let mut solver = Solver::new(alloc)?;
    for row in rows {
        match row {
            Row::Give(numbers) => give(rt, alloc, &mut solver, numbers)?,
            Row::Ask(numbers, text) => {
                let found = ask(rt, alloc, &mut solver, numbers, 1_000_000)?;
                assert_eq!(rt; found.as_str(), *text);
            }
            Row::AskWithin(numbers, conflicts, text) => {
                let found = ask(rt, alloc, &mut solver, numbers, *conflicts)?;
                assert_eq!(rt; found.as_str(), *text);
            }
            Row::Conflicts(conflicts) => {
                let stats = solver.stats();
                let others = (stats.callbacks, stats.removed, stats.restored);
                assert_eq!(rt; (stats.conflicts, others), (*conflicts, (0, 0, 0)));
            }
            Row::Count(pending, queried) => {
                let counts = (solver.assumed().len(), solver.queried().len());
                assert_eq!(rt; counts, (*pending, *queried));
            }
            Row::Recheck(text) => {
                let found = format!(in alloc; "{:?}", solver.recheck())?;
                assert_eq!(rt; found.as_str(), *text);
            }
            Row::Look(number, text) => {
                let at = lit(rt, *number);
                let found = format!(in alloc; "{:?} {:?}", solver.val(at), solver.failed(at))?;
                assert_eq!(rt; found.as_str(), *text);
            }
        }
    }
    Ok(())
}

#[test]
fn answers_queries(rt: HostRuntime) -> Result<(), Fail> {
    let rows = [
        Row::Look(1, "Err(NotSat) Err(NotUnsat)"),
        Row::Ask(&[], "sat"),
        Row::Ask(&[1, -1, 1], "unsat 1 -1"),
        Row::Give(&[1, 2]),
        Row::Ask(&[-1], "sat 0 1"),
        Row::Look(2, "Ok(true) Err(NotUnsat)"),
        Row::Look(-1, "Ok(true) Err(NotUnsat)"),
        Row::Ask(&[-1, -2, -1], "unsat -1 -2"),
        Row::Look(-1, "Err(NotSat) Ok(true)"),
        Row::Look(3, "Err(NotSat) Ok(false)"),
        Row::Give(&[-1, 3, 3]),
        Row::Ask(&[1, 2], "sat 1 1 1"),
        Row::Ask(&[3, -1, 3, -2], "unsat -1 -2"),
        Row::Give(&[-1]),
        Row::Give(&[-2]),
        Row::Ask(&[4], "unsat"),
        Row::Ask(&[5], "unsat"),
    ];
    run(&rt, rt.alloc(), &rows)
}

#[test]
fn stops_at_its_budget(rt: HostRuntime) -> Result<(), Fail> {
    let rows = [
        Row::Give(&[1, 2]),
        Row::Give(&[3, 4]),
        Row::Give(&[5, 6]),
        Row::Give(&[-1, -3]),
        Row::Give(&[-1, -5]),
        Row::Give(&[-3, -5]),
        Row::Give(&[-2, -4]),
        Row::Give(&[-2, -6]),
        Row::Give(&[-4, -6]),
        Row::Conflicts(0),
        Row::AskWithin(&[7], 0, "unknown 0"),
        Row::Conflicts(0),
        Row::Look(7, "Err(NotSat) Err(NotUnsat)"),
        Row::Count(0, 1),
        Row::AskWithin(&[7, 8], 9832, "unsat"),
        Row::Conflicts(1),
        Row::Look(7, "Err(NotSat) Ok(false)"),
        Row::Count(0, 2),
        // A settled solver counts nothing.
        Row::Ask(&[], "unsat"),
        Row::Conflicts(0),
    ];
    run(&rt, rt.alloc(), &rows)?;
    // Every clause of three variables: three conflicts show that they have no model. What was
    // learned stays.
    let rows = [
        Row::Give(&[1, 2, 3]),
        Row::Give(&[1, 2, -3]),
        Row::Give(&[1, -2, 3]),
        Row::Give(&[1, -2, -3]),
        Row::Give(&[-1, 2, 3]),
        Row::Give(&[-1, 2, -3]),
        Row::Give(&[-1, -2, 3]),
        Row::Give(&[-1, -2, -3]),
        Row::AskWithin(&[], 2, "unknown 2"),
        Row::Conflicts(2),
        Row::AskWithin(&[], 0, "unknown 0"),
        Row::Conflicts(0),
        Row::AskWithin(&[], 1, "unsat"),
        Row::Conflicts(1),
    ];
    run(&rt, rt.alloc(), &rows)?;
    // Whichever variable is decided first, its first phase, true, is a conflict; the unit that is
    // learned from it stays.
    let rows = [
        Row::Give(&[-1, 2]),
        Row::Give(&[-1, -2]),
        Row::Give(&[1, -2]),
        Row::AskWithin(&[], 0, "unknown 0"),
        Row::Ask(&[], "sat 0 0"),
        Row::AskWithin(&[], 0, "sat 0 0"),
    ];
    run(&rt, rt.alloc(), &rows)
}

#[test]
fn looks_at_a_model_again(rt: HostRuntime) -> Result<(), Fail> {
    let rows = [
        Row::Recheck("Err(NotSat)"),
        Row::Ask(&[], "sat"),
        Row::Recheck("Ok(0)"),
        Row::Give(&[1, 2]),
        Row::Recheck("Err(NotSat)"),
        Row::Give(&[-2, 3, 3]),
        Row::Give(&[4, -4]),
        Row::Ask(&[-1, 4, -1], "sat 0 1 1 1"),
        // Three clauses, and each assumption as often as it was made.
        Row::Recheck("Ok(6)"),
        Row::Recheck("Ok(6)"),
        Row::Ask(&[-1, -2], "unsat -1 -2"),
        Row::Recheck("Err(NotSat)"),
        Row::Ask(&[-1, -4], "sat 0 1 1 0"),
        Row::Recheck("Ok(5)"),
        Row::Give(&[]),
        Row::Ask(&[5], "unsat"),
        Row::Recheck("Err(NotSat)"),
    ];
    run(&rt, rt.alloc(), &rows)?;
    let rows = [
        Row::Give(&[1, 2]),
        Row::Give(&[1, -2]),
        Row::Give(&[-1, 2]),
        Row::Give(&[-1, -2]),
        Row::AskWithin(&[], 0, "unknown 0"),
        Row::Recheck("Err(NotSat)"),
    ];
    run(&rt, rt.alloc(), &rows)
}

// The clause of the variables from 1 on, and the query that all but the last of them are false;
// then that the last one is, too.
fn ask_long(rt: &impl Abort, alloc: Global, vars: i32) -> Result<(), Fail> {
    let mut solver = Solver::new(alloc)?;
    let mut numbers = Vec::new(alloc);
    for number in 1..vars {
        numbers.push(number)?;
    }
    numbers.push(vars)?;
    give(rt, alloc, &mut solver, numbers.as_slice())?;
    for number in 1..vars {
        solver.assume(lit(rt, number.saturating_neg()))?;
    }
    let first = solver.solve(AMPLE, 1000)?;
    let last = solver.val(lit(rt, vars));
    for number in 1..vars {
        solver.assume(lit(rt, number.saturating_neg()))?;
    }
    solver.assume(lit(rt, vars.saturating_neg()))?;
    let second = solver.solve(AMPLE, 1000)?;
    let core = solver.core()?.len();
    let failed = solver.failed(lit(rt, -1));
    let found = format!(in alloc; "{first:?} {last:?} {second:?} {core} {failed:?}")?;
    assert_eq!(rt; found.as_str(), "Sat Ok(true) Unsat 300 Ok(true)");
    Ok(())
}

#[test]
fn clauses_may_be_long(rt: HostRuntime) -> Result<(), Fail> {
    ask_long(&rt, rt.alloc(), 300)
}

#[test]
fn keeps_its_lists(rt: HostRuntime) -> Result<(), Fail> {
    let alloc = rt.alloc();
    run(&rt, alloc, &[Row::Give(&[]), Row::Ask(&[5], "unsat")])?;
    let mut solver = Solver::new(alloc)?;
    give(&rt, alloc, &mut solver, &[1, 2])?;
    let given = solver.step(&Call::Add(Lits::from_slice(alloc, &[lit(&rt, 3)])?));
    let parts = solver.given();
    assert_eq!(rt; parts.len(), 2);
    let size = match parts.part(1) {
        GivenPart::Clause(clause) => clause.as_slice().len(),
        GivenPart::Rule(_) => 0,
    };
    assert!(rt; size == 1 && !parts.is_empty());
    let assumed = solver.step(&Call::Assume(lit(&rt, 1)));
    let solved = solver.step(&Call::Solve(AMPLE, 1000));
    let lists = (
        solver.given().len(),
        solver.queried().len(),
        solver.assumed().len(),
    );
    let found = format!(in alloc;
        "{given:?} {assumed:?} {solved:?} {lists:?} {}",
        solver.taken()
    )?;
    assert_eq!(rt;
        found.as_str(),
        "Ok(Done) Ok(Done) Ok(Solved(Sat)) (2, 1, 0) 4"
    );
    Ok(())
}

#[test]
fn refusals_have_texts(rt: HostRuntime) -> Result<(), Fail> {
    let alloc = rt.alloc();
    let rows = [
        (Refusal::NotSat, "no model"),
        (Refusal::NotUnsat, "no core"),
        (Refusal::NotTaken(Kind::Card), "kind not taken"),
        (
            Refusal::TooManyLiterals(134_217_729),
            "too many literals: 134217729",
        ),
        (Refusal::Memory, "out of memory"),
    ];
    for (refusal, text) in rows {
        assert_eq!(rt; format!(in alloc; "{refusal}")?.as_str(), text);
    }
    Ok(())
}
