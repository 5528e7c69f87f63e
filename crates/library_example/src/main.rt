//! How the library is used: clauses, two questions under assumptions, and what the answers show.
//!
//! A drink is tea (1) or coffee (2), and not both; milk (3) goes into coffee alone. May there be milk? May there be milk and tea? The first
//! question has a model, in which there is coffee; the second has none, and both assumptions fail together.
#![tactic(auto)]

use sat_model::literal::Lit;
use solver_api::calls::{NO_BUDGET, Outcome, Refusal};
use solver_api::solver::Solver;
use std::alloc::Global;
use std::io;

// The steps that each pass of simplification may take in a solve.
const STEPS: u64 = 1_000_000;

// What the two answers show.
#[derive(Clone, Copy)]
struct Seen {
    // The answer to the first question.
    first: Outcome,
    // Whether its model has coffee.
    has_coffee: bool,
    // The answer to the second one.
    second: Outcome,
    // Whether tea is among what fails together.
    blames_tea: bool,
}

// Gives the clauses, and asks both questions of one solver.
fn ask(alloc: Global, tea: Lit, coffee: Lit, milk: Lit) -> Result<Seen, Refusal> {
    let mut solver = Solver::new(alloc)?;
    solver.add(&[tea, coffee])?;
    solver.add(&[tea.neg(), coffee.neg()])?;
    solver.add(&[milk.neg(), coffee])?;

    solver.assume(milk)?;
    let first = solver.solve(NO_BUDGET, STEPS)?;
    let has_coffee = first == Outcome::Sat && solver.val(coffee)?;

    // Assumptions hold for one solve: the next one begins with none.
    solver.assume(milk)?;
    solver.assume(tea)?;
    let second = solver.solve(NO_BUDGET, STEPS)?;
    let blames_tea = second == Outcome::Unsat && solver.failed(tea)?;
    Ok(Seen {
        first,
        has_coffee,
        second,
        blames_tea,
    })
}

fn main(rt: HostRuntime) -> io::Result<()> {
    let (Some(tea), Some(coffee), Some(milk)) = (Lit::new(1), Lit::new(2), Lit::new(3)) else {
        return Ok(());
    };
    match ask(rt.alloc(), tea, coffee, milk) {
        Ok(seen) => {
            println!(rt; "{:?}, with coffee: {}", seen.first, seen.has_coffee)?;
            println!(rt; "{:?}, tea is to blame: {}", seen.second, seen.blames_tea)
        }
        Err(refusal) => println!(rt; "refused: {refusal}"),
    }
}
