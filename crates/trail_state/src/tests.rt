//! Each call on a trail that grows and goes back, with each kind of reason, and a trail of hundreds of literals.
ghost use Rattle.std.specs.Prelude.{◌≡◌, ◌≢◌, ◌≤◌, None, IsTrue};
ghost use Rattle.sat_terms.specs.Literal.{var_of};
ghost use Rattle.trail_state.specs.Trail.{value_on};
ghost use Rattle.trail_state.specs.declared.reason.Reason.TheVariants.{Decision};

use crate::reason::Reason;
use crate::trail::Trail;
use sat_model::lists::ClauseId;
use sat_model::literal::{Lit, Var};
use std::test::Fail;

// Whether the variable of a literal is declared and has no value.
fn is_open(trail: &Trail, lit: Lit) -> bool
    ensures { IsTrue result → (var_of lit ≤ trail.now.declared) × (value_on trail.now.steps lit ≡ None) }
{
    lit.var().index() <= trail.declared() && trail.value(lit).is_none()
}

// Decides the literal of this number, if it is open.
fn decide(trail: &mut Trail, number: i32) {
    if let Some(lit) = Lit::new(number) {
        if is_open(trail, lit) {
            trail.decide(lit);
        }
    }
}

// Assigns the literal of this number, if it is open.
fn imply(trail: &mut Trail, number: i32, reason: Reason)
    requires { reason ≢ Decision }
{
    if let Some(lit) = Lit::new(number) {
        if is_open(trail, lit) {
            trail.assign(lit, reason);
        }
    }
}

// What a trail says of the literal of this number and of its variable: value, level, place and reason.
fn facts(trail: &Trail, number: i32) -> (Option<bool>, Option<u32>, Option<u32>, Option<Reason>) {
    match Lit::new(number) {
        None => (None, None, None, None),
        Some(lit) => {
            let var = lit.var();
            (
                trail.value(lit),
                trail.level_of(var),
                trail.place_of(var),
                trail.reason_of(var),
            )
        }
    }
}

// Level and reason of a place, if the trail has it.
fn facts_at(trail: &Trail, place: u32) -> Option<(u32, Reason)> {
    if place as usize >= trail.lits().len() {
        return None;
    }
    Some((trail.level_at(place), trail.reason_at(place)))
}

// Goes back, if the trail is above the level.
fn back_to(trail: &mut Trail, level: u32) {
    if level <= trail.level() {
        trail.back_to(level);
    }
}

#[test]
fn literals_come_and_go(rt: HostRuntime) -> Result<(), Fail> {
    let mut trail = Trail::new(rt.alloc());
    trail.declare(Var::new(500).ok_or("no variable")?)?;
    let because = Reason::Clause(ClauseId::new(4_294_967_295));
    imply(&mut trail, 9, because);
    decide(&mut trail, 1);
    imply(&mut trail, -2, because);
    imply(&mut trail, 3, Reason::Theory);
    decide(&mut trail, -4);
    imply(&mut trail, 5, Reason::Theory);
    assert!(rt; trail.declared() == 500 && trail.level() == 2 && trail.lits().len() == 6);
    assert!(rt; facts(&trail, 2) == (Some(false), Some(1), Some(2), Some(because)));
    assert!(rt; facts(&trail, -4) == (Some(true), Some(2), Some(4), Some(Reason::Decision)));
    assert!(rt;
        facts(&trail, 6) == (None, None, None, None)
            && facts(&trail, 501) == (None, None, None, None)
    );
    let rows = [
        (0, Some((0, because)), 0),
        (1, Some((1, Reason::Decision)), 1),
        (2, Some((1, because)), 4),
        (3, Some((1, Reason::Theory)), 6),
        (4, Some((2, Reason::Decision)), 6),
        (5, Some((2, Reason::Theory)), 6),
        (6, None, 6),
    ];
    for (number, at, start) in rows {
        assert!(rt; facts_at(&trail, number) == at && trail.start_of(number) == start);
    }
    back_to(&mut trail, 1);
    // The place of a theory's literal is taken by one that a clause implied.
    imply(&mut trail, -3, because);
    imply(&mut trail, 5, because);
    assert!(rt; facts(&trail, 5) == (Some(true), Some(1), Some(4), Some(because)));
    back_to(&mut trail, 0);
    assert!(rt;
        trail.level() == 0
            && trail.lits().len() == 1
            && facts(&trail, 1) == (None, None, None, None)
    );
    for number in 1..=500 {
        decide(&mut trail, number);
    }
    assert!(rt;
        trail.level() == 499
            && facts(&trail, 500) == (Some(true), Some(499), Some(499), Some(Reason::Decision))
    );
    Ok(())
}
