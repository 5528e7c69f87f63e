//! The order beside a plain one over some thousand steps, and the happy path of each call.
ghost use Rattle.std.specs.Prelude.{◌≡◌, ◌≤◌, true, None};
ghost use Rattle.sat_terms.specs.Literal.{var_of};
ghost use Rattle.trail_state.specs.Trail.{value_on};

use crate::order::Order;
use sat_model::literal::{Lit, Var};
use std::test::Fail;
use trail_state::trail::Trail;

// A plain order: the time of each variable's last bump and its score, at the variable's number.
#[derive(Drop)]
struct Plain {
    stamps: Vec<u64>,
    scores: Vec<u64>,
    clock: u64,
    step: u64,
}

// Makes all scores smaller where one is above 2^60.
fn rescale(plain: &mut Plain, highest: u64) {
    if highest > 0x1000_0000_0000_0000 {
        for score in plain.scores.iter_mut() {
            *score >>= 30;
        }
        plain.step = (plain.step >> 30).max(1);
    }
}

// The number at a variable.
fn read(values: &[u64], var: u32) -> u64 {
    for (k, value) in values.iter().enumerate() {
        if k == var as usize {
            return *value;
        }
    }
    0
}

// Writes the number at a variable.
fn write(values: &mut Vec<u64>, var: u32, new: u64) {
    for (k, value) in values.iter_mut().enumerate() {
        if k == var as usize {
            *value = new;
        }
    }
}

// Bumps a variable.
fn bump(plain: &mut Plain, var: u32, stable: bool) {
    if stable {
        let score = read(plain.scores.as_slice(), var).saturating_add(plain.step);
        write(&mut plain.scores, var, score);
        rescale(plain, score);
    } else {
        plain.clock = plain.clock.saturating_add(1);
        let clock = plain.clock;
        write(&mut plain.stamps, var, clock);
    }
}

// Bumps two variables, the one bumped longest ago first.
fn bump_two(plain: &mut Plain, one: u32, two: u32, stable: bool) {
    if read(plain.stamps.as_slice(), one) <= read(plain.stamps.as_slice(), two) {
        bump(plain, one, stable);
        bump(plain, two, stable);
    } else {
        bump(plain, two, stable);
        bump(plain, one, stable);
    }
}

// A conflict is over.
fn next_conflict(plain: &mut Plain) {
    let step = plain.step.saturating_add((plain.step / 8).max(1));
    plain.step = step;
    rescale(plain, step);
}

// One more than the number at a variable, if that is open, and 0 if not.
fn open_value(values: &[u64], trail: &Trail, number: u32) -> u64 {
    let Some(var) = Var::new(number) else {
        return 0;
    };
    if trail.value(var.positive()).is_some() {
        return 0;
    }
    read(values, number).saturating_add(1)
}

// The greatest number at an open variable, counted from 1 on; 0 where none is open.
fn greatest(values: &[u64], trail: &Trail) -> u64 {
    let mut best = 0;
    for number in 1..61 {
        best = best.max(open_value(values, trail, number));
    }
    best
}

// Whether what is picked has the greatest number, and None comes where nothing is open.
fn is_best(picked: Option<Lit>, values: &[u64], trail: &Trail) -> bool {
    let best = greatest(values, trail);
    match picked {
        None => best == 0,
        Some(lit) => read(values, lit.var().index()).saturating_add(1) == best,
    }
}

// Whether the variable of a literal is declared and has no value.
fn is_open(trail: &Trail, lit: Lit) -> bool
    ensures declared { result ≡ true → var_of lit ≤ trail.now.declared }
    ensures free { result ≡ true → value_on trail.now.steps lit ≡ None }
{
    lit.var().index() <= trail.declared() && trail.value(lit).is_none()
}

// Decides a literal, if there is one.
fn decide(trail: &mut Trail, picked: Option<Lit>) {
    if let Some(lit) = picked {
        if is_open(trail, lit) {
            trail.decide(lit);
        }
    }
}

// Goes back to a level, if it is below.
fn go_back(order: &mut Order, trail: &mut Trail, level: u32) {
    if level <= trail.level() && trail.declared() <= order.declared() {
        order.back_to(trail, level);
    }
}

// Saves a phase, if the variable is declared.
fn save_phase(order: &mut Order, lit: Lit)
    ensures { order.new.declared ≡ order.old.declared }
{
    if lit.var().index() <= order.declared() {
        order.set_phase(lit);
    }
}

// A conflict over two variables, and the way back.
fn meet_conflict(
    order: &mut Order,
    plain: &mut Plain,
    trail: &mut Trail,
    one: Var,
    two: Var,
    stable: bool,
) {
    order.bump_all(&[one.positive(), two.negative()]);
    bump_two(plain, one.index(), two.index(), stable);
    order.next_conflict();
    next_conflict(plain);
    let level = trail.level() / 2 + one.index() % 2;
    go_back(order, trail, level);
}

// One of the variables 1 to 60, by a number that is drawn.
fn drawn(draw: u64) -> Result<Var, Fail> {
    Ok(Var::new((draw % 60) as u32 + 1).ok_or("no variable")?)
}

// Picks and decides, or meets a conflict; whether what is picked is right.
fn go_on(
    order: &mut Order,
    plain: &mut Plain,
    trail: &mut Trail,
    draw: u64,
    stable: bool,
) -> Result<bool, Fail> {
    let picked = order.pick(trail);
    let right = if stable {
        is_best(picked, plain.scores.as_slice(), trail)
    } else {
        is_best(picked, plain.stamps.as_slice(), trail)
    };
    decide(trail, picked);
    if draw % 3 == 0 || picked.is_none() {
        let one = drawn(draw / 4)?;
        let two = drawn(draw / 1024)?;
        meet_conflict(order, plain, trail, one, two, stable);
    }
    Ok(right)
}

#[test]
fn a_plain_order_agrees(rt: HostRuntime) -> Result<(), Fail> {
    let last = Var::new(60).ok_or("no variable")?;
    let mut trail = Trail::new(rt.alloc());
    trail.declare(last)?;
    let mut order = Order::new(rt.alloc());
    order.declare(last)?;
    let mut plain = Plain {
        stamps: Vec::new(rt.alloc()),
        scores: vec![in rt.alloc(); 0; 61]?,
        clock: 60,
        step: 0x10_0000,
    };
    for stamp in 0..61 {
        plain.stamps.push(stamp)?;
    }
    let mut seed: u64 = 20261201;
    let mut right = true;
    for turn in 0..6000 {
        let stable = turn / 500 % 2 == 1;
        order.stable(stable);
        seed = seed
            .wrapping_mul(6364136223846793005)
            .wrapping_add(1442695040888963407);
        let found = go_on(&mut order, &mut plain, &mut trail, seed >> 33, stable)?;
        right = right && found;
    }
    assert!(rt; right);
    Ok(())
}

#[test]
fn calls_do_what_they_say(rt: HostRuntime) -> Result<(), Fail> {
    let one = Var::new(1).ok_or("no variable")?;
    let two = Var::new(2).ok_or("no variable")?;
    let mut trail = Trail::new(rt.alloc());
    let mut order = Order::new(rt.alloc());
    assert!(rt; order.pick(&trail).is_none());
    order.declare(two)?;
    trail.declare(two)?;
    assert_eq!(rt; order.pick(&trail), Some(two.positive()));
    order.bump(one);
    save_phase(&mut order, one.negative());
    assert_eq!(rt; order.pick(&trail), Some(one.negative()));
    order.set_active(one, false);
    assert_eq!(rt; order.pick(&trail), Some(two.positive()));
    assert!(rt; !order.is_active(one) && order.is_active(two) && order.declared() == 2);
    // The order is not told that a variable lost its value, and finds it before it says None.
    decide(&mut trail, Some(two.positive()));
    assert!(rt; order.pick(&trail).is_none());
    trail.back_to(0);
    assert_eq!(rt; order.pick(&trail), Some(two.positive()));
    order.stable(true);
    order.unassigned(two);
    assert_eq!(rt; order.pick(&trail), Some(two.positive()));
    Ok(())
}
