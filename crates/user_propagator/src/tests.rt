//! Desks that are filled and emptied in the order that is promised, tables and queues of
//! hundreds, and the propagator without a constraint.
ghost use Rattle.std.specs.Prelude.{◌≡◌, IsTrue};
ghost use Rattle.user_propagator.specs.Meaning.{CanPut};

use crate::desk::Desk;
use crate::nothing::NoTheory;
use crate::request::Request;
use crate::theory::Theory;
use sat_model::constraint::Kind;
use sat_model::literal::{Lit, MAX_VAR, Var};
use std::test::Fail;

// A request as its kind and two numbers.
#[derive(Clone, Copy, Debug, PartialEq, Eq)]
enum Shown {
    Nothing,
    Observe(u32),
    Clause(usize, bool),
    Back(u32),
}

fn kind_of(request: Option<&Request>) -> Shown {
    match request {
        None => Shown::Nothing,
        Some(Request::Observe(var)) => Shown::Observe(var.index()),
        Some(Request::Clause(lits, forgettable)) => {
            Shown::Clause(lits.as_slice().len(), *forgettable)
        }
        Some(Request::Back(level)) => Shown::Back(*level),
    }
}

// Takes the first request off, if there is one.
fn take(desk: &mut Desk) -> Shown {
    let taken = kind_of(desk.first_request());
    if desk.first_request().is_some() {
        desk.drop_request();
    }
    taken
}

// Whether a literal may be put.
fn is_free(desk: &Desk, lit: Lit) -> bool
    ensures { IsTrue result → CanPut desk.now lit }
{
    desk.is_observed(lit.var()) && desk.value(lit).is_none()
}

// Puts a literal, if it may be put.
fn put_lit(desk: &mut Desk, lit: Lit, decision: bool) {
    if is_free(desk, lit) {
        desk.put(lit, decision);
    }
}

// Puts the literal of this number, if it may be put.
fn put(desk: &mut Desk, number: i32, decision: bool) {
    if let Some(lit) = Lit::new(number) {
        put_lit(desk, lit, decision);
    }
}

fn raise(desk: &mut Desk) {
    if desk.level() < MAX_VAR {
        desk.raise();
    }
}

fn cut(desk: &mut Desk, level: u32) {
    if level <= desk.level() {
        desk.cut(level);
    }
}

fn ask_back(desk: &mut Desk, level: u32) {
    if level <= desk.level() {
        desk.back_to(level);
    }
}

fn set_phase(desk: &mut Desk, number: i32) {
    if let Some(lit) = Lit::new(number) {
        if desk.is_observed(lit.var()) {
            desk.phase(lit);
        }
    }
}

// What a desk says of the literal of this number: value, level, place, and whether it was
// decided.
fn facts(desk: &Desk, number: i32) -> (Option<bool>, Option<u32>, Option<u32>, bool) {
    match Lit::new(number) {
        None => (None, None, None, false),
        Some(lit) => {
            let var = lit.var();
            (
                desk.value(lit),
                desk.level_of(var),
                desk.place_of(var),
                desk.is_decision(var),
            )
        }
    }
}

fn phase(desk: &Desk, number: u32) -> i32 {
    match Var::new(number) {
        None => 0,
        Some(var) => match desk.phase_of(var) {
            None => 0,
            Some(lit) => lit.number(),
        },
    }
}

// Observes each variable up to this one.
fn watch_each(desk: &mut Desk, last: u32) -> Result<(), Fail> {
    for number in 1..=last {
        desk.watch(Var::new(number).ok_or("no variable")?)?;
    }
    Ok(())
}

#[test]
fn requests_are_taken_in_their_order(rt: HostRuntime) -> Result<(), Fail> {
    let one = Lit::new(1).ok_or("no literal")?;
    let three = Lit::new(3).ok_or("no literal")?;
    let mut desk = Desk::new(rt.alloc());
    desk.watch(one.var())?;
    ask_back(&mut desk, 0);
    desk.hand(&[one, three], false)?;
    desk.observe(three.var())?;
    raise(&mut desk);
    ask_back(&mut desk, 1);
    desk.hand(&[three], true)?;
    desk.observe(one.var())?;
    for want in [
        Shown::Observe(3),
        Shown::Observe(1),
        Shown::Clause(2, false),
        Shown::Clause(1, true),
        Shown::Back(0),
        Shown::Nothing,
    ] {
        assert_eq!(rt; take(&mut desk), want);
    }
    ask_back(&mut desk, 1);
    desk.observe(one.var())?;
    desk.drop_back();
    assert_eq!(rt;
        [take(&mut desk), take(&mut desk)],
        [Shown::Observe(1), Shown::Nothing]
    );
    Ok(())
}

#[test]
fn the_seen_trail_grows_and_is_cut(rt: HostRuntime) -> Result<(), Fail> {
    let mut desk = Desk::new(rt.alloc());
    watch_each(&mut desk, 5)?;
    watch_each(&mut desk, 5)?;
    put(&mut desk, 4, false);
    raise(&mut desk);
    put(&mut desk, -2, true);
    put(&mut desk, 2, false);
    put(&mut desk, 9, false);
    raise(&mut desk);
    put(&mut desk, 1, false);
    for (number, want) in [
        (4, (Some(true), Some(0), Some(0), false)),
        (2, (Some(false), Some(1), Some(1), true)),
        (-2, (Some(true), Some(1), Some(1), true)),
        (1, (Some(true), Some(2), Some(2), false)),
        (3, (None, None, None, false)),
        (9, (None, None, None, false)),
    ] {
        assert!(rt; facts(&desk, number) == want);
    }
    cut(&mut desk, 1);
    put(&mut desk, -3, false);
    for (number, want) in [
        (1, (None, None, None, false)),
        (-2, (Some(true), Some(1), Some(1), true)),
        (3, (Some(false), Some(1), Some(2), false)),
    ] {
        assert!(rt; facts(&desk, number) == want);
    }
    set_phase(&mut desk, -5);
    set_phase(&mut desk, 3);
    set_phase(&mut desk, -3);
    set_phase(&mut desk, 9);
    let phases = [
        phase(&desk, 1),
        phase(&desk, 3),
        phase(&desk, 5),
        phase(&desk, 9),
    ];
    assert_eq!(rt; phases, [0, -3, -5, 0]);
    Ok(())
}

#[test]
fn hundreds_fit(rt: HostRuntime) -> Result<(), Fail> {
    let mut desk = Desk::new(rt.alloc());
    watch_each(&mut desk, 600)?;
    let mut lits = [Lit::new(1).ok_or("no literal")?; 300];
    for at in 0..300usize {
        raise(&mut desk);
        let lit = Var::new(at as u32 + 1).ok_or("no variable")?.positive();
        put_lit(&mut desk, lit.neg(), true);
        lits[at] = lit;
        desk.hand(&lits, true)?;
        desk.observe(lit.var())?;
    }
    assert!(rt; facts(&desk, 300) == (Some(false), Some(300), Some(299), true));
    for number in 1..=300 {
        assert_eq!(rt; take(&mut desk), Shown::Observe(number));
    }
    for _ in 0..300 {
        assert_eq!(rt; take(&mut desk), Shown::Clause(300, true));
    }
    assert_eq!(rt; take(&mut desk), Shown::Nothing);
    cut(&mut desk, 0);
    assert!(rt; desk.level() == 0 && facts(&desk, 1) == (None, None, None, false));
    Ok(())
}

#[test]
fn nothing_is_decided_implied_or_refused(rt: HostRuntime) -> Result<(), Fail> {
    let mut theory = NoTheory::new();
    let mut desk = Desk::new(rt.alloc());
    assert!(rt; !theory.takes(Kind::Card) && !theory.takes(Kind::Parity));
    theory.notify_level();
    assert_eq!(rt; theory.decide(&mut desk)?, None);
    assert_eq!(rt; theory.propagate(&mut desk)?, None);
    assert!(rt; theory.check(&[], &mut desk)?);
    assert_eq!(rt; take(&mut desk), Shown::Nothing);
    Ok(())
}
