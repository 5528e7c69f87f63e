//! Each box on desks driven by hand, as a solver would drive them: what it implies, hands, asks
//! for and refuses.
ghost use Rattle.std.specs.Prelude.{◌≡◌, IsTrue, IfOk};
ghost use Rattle.user_propagator.specs.Board.{empty_board};
ghost use Rattle.user_propagator.specs.Meaning.{CanPut, InStep};
ghost use Rattle.test_boxes.specs.Pair.{both_false};

use crate::asking::{Asking, Moment};
use crate::counting::{Calls, Counting};
use crate::imply::Imply;
use crate::refusing::Refusing;
use crate::reject::Reject;
use sat_model::literal::{Lit, Var};
use sat_model::memory::Memory;
use std::alloc::Global;
use std::test::Fail;
use user_propagator::desk::Desk;
use user_propagator::request::Request;
use user_propagator::theory::Theory;

// Whether a literal may be put.
fn is_free(desk: &Desk, lit: Lit) -> bool
    ensures { IsTrue result → CanPut desk.now lit }
{
    desk.is_observed(lit.var()) && desk.value(lit).is_none()
}

// Puts a literal, if it may be put.
fn put(desk: &mut Desk, lit: Lit) {
    if is_free(desk, lit) {
        desk.put(lit, false);
    }
}

// How many literals the clause has that lies first on a desk.
fn clause_len(desk: &Desk) -> Option<usize> {
    match desk.first_request() {
        Some(Request::Clause(lits, _)) => Some(lits.as_slice().len()),
        Some(Request::Observe(_)) => None,
        Some(Request::Back(_)) => None,
        None => None,
    }
}

// The number of the variable that was asked for first.
fn wanted(desk: &Desk) -> u32 {
    match desk.first_request() {
        Some(Request::Observe(var)) => var.index(),
        Some(Request::Clause(_, _)) => 0,
        Some(Request::Back(_)) => 0,
        None => 0,
    }
}

// The number of the literal that is implied now, or 0.
fn implied(theory: &mut Counting<Imply>, desk: &mut Desk) -> Result<i32, Memory> {
    match theory.propagate(desk)? {
        Some(lit) => Ok(lit.number()),
        None => Ok(0),
    }
}

// What is implied where nothing is observed, behind the first literal, and behind the negation
// of the second one.
fn implied_in_turn(
    theory: &mut Counting<Imply>,
    desk: &mut Desk,
    one: Lit,
    two: Lit,
) -> Result<[i32; 3], Memory> {
    let at_first = implied(theory, desk)?;
    desk.watch(one.var())?;
    desk.watch(two.var())?;
    put(desk, one);
    let behind_one = implied(theory, desk)?;
    put(desk, two.neg());
    let behind_two = implied(theory, desk)?;
    theory.decide(desk)?;
    Ok([at_first, behind_one, behind_two])
}

// Calls of `propagate`, `decide` and `check`, and all callbacks.
fn figures(calls: &Calls) -> [u64; 4] {
    [
        calls.propagate(),
        calls.decide(),
        calls.check(),
        calls.all(),
    ]
}

#[test]
fn imply_implies_and_hands(rt: HostRuntime) -> Result<(), Fail> {
    let alloc = rt.alloc();
    let one = Lit::new(1).ok_or("no literal")?;
    let two = Lit::new(2).ok_or("no literal")?;
    let calls = Calls::new(alloc)?;
    let mut theory = Counting::new(Imply::new(one, two), calls.share()?);
    let mut desk = Desk::new(alloc);
    let found = implied_in_turn(&mut theory, &mut desk, one, two)?;
    assert!(rt; found == [0, 2, 0] && clause_len(&desk) == Some(2));
    assert_eq!(rt; figures(&calls), [3, 1, 0, 4]);
    Ok(())
}

// Whether a model passes where nothing is observed, and what the box leaves on the desk: the
// length of a clause, and the number of a variable.
fn judged<T: Theory>(theory: &mut T, alloc: Global) -> Result<(bool, Option<usize>, u32), Memory>
    requires { InStep (T.meaning theory.old) empty_board }
{
    let mut desk = Desk::new(alloc);
    let passes = theory.check(&[true, false], &mut desk)?;
    Ok((passes, clause_len(&desk), wanted(&desk)))
}

// A desk on which the variables 1 and 2 are observed, and false.
fn desk_of_false(alloc: Global) -> Result<Desk, Fail>
    ensures { IfOk result (λ desk. desk ≡ both_false) }
{
    let one = Var::new(1).ok_or("no variable")?;
    let two = Var::new(2).ok_or("no variable")?;
    let mut desk = Desk::new(alloc);
    desk.watch(one)?;
    desk.watch(two)?;
    desk.put(one.negative(), false);
    desk.put(two.negative(), false);
    Ok(desk)
}

// The same as `judged`, of the model that has both variables false, as the desk has them.
fn judged_false(reject: &mut Reject, alloc: Global) -> Result<(bool, Option<usize>, u32), Fail> {
    let mut desk = desk_of_false(alloc)?;
    let passes = reject.check(&[false, false], &mut desk)?;
    Ok((passes, clause_len(&desk), wanted(&desk)))
}

#[test]
fn models_are_refused_by_clauses(rt: HostRuntime) -> Result<(), Fail> {
    let alloc = rt.alloc();
    let one = Lit::new(1).ok_or("no literal")?;
    let two = Lit::new(2).ok_or("no literal")?;
    let mut reject = Reject::new(one, two);
    assert!(rt; judged(&mut reject, alloc)? == (true, None, 0));
    assert!(rt; judged_false(&mut reject, alloc)? == (false, Some(2), 0));
    let mut refusing = Refusing::new();
    assert!(rt; judged(&mut refusing, alloc)? == (false, Some(0), 0));
    Ok(())
}

// The number of the variable that a box asks for when it is to imply a literal, or 0.
fn asked(theory: &mut Asking, alloc: Global) -> Result<u32, Memory> {
    let mut desk = Desk::new(alloc);
    theory.propagate(&mut desk)?;
    Ok(wanted(&desk))
}

#[test]
fn a_variable_is_asked_for_once(rt: HostRuntime) -> Result<(), Fail> {
    let alloc = rt.alloc();
    let seven = Var::new(7).ok_or("no variable")?;
    for (moment, first, second) in [(Moment::Propagate, 7, 0), (Moment::Check, 0, 7)] {
        let mut theory = Asking::new(seven, moment);
        assert_eq!(rt; asked(&mut theory, alloc)?, first);
        assert!(rt; judged(&mut theory, alloc)? == (true, None, second));
        assert!(rt; judged(&mut theory, alloc)? == (true, None, 0));
    }
    Ok(())
}
