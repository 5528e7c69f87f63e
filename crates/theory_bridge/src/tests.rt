//! The bridge over boxes from outside: how many callbacks are made, where they stop, and what waits
//! on the desk.
ghost use Rattle.std.specs.Prelude.{◌≡◌, ◌≤◌, OnOk};
ghost use Rattle.theory_bridge.specs.Standing.{Stands, IsFresh};
ghost use Rattle.theory_bridge.specs.Following.{Follows};

use crate::bridge::Bridge;
use crate::stop::AskStop;
use sat_model::lists::ClauseId;
use sat_model::literal::{Lit, Var};
use sat_model::memory::Memory;
use std::test::Fail;
use test_boxes::asking::{Asking, Moment};
use test_boxes::counting::{Calls, Counting};
use trail_state::reason::Reason;
use trail_state::trail::Trail;
use user_propagator::nothing::NoTheory;
use user_propagator::request::Request;
use user_propagator::theory::Theory;

// Puts a literal on a trail, as a decision or implied by a clause, if its variable is declared and
// has no value.
fn put(trail: &mut Trail, lit: Lit, decided: bool) {
    if lit.var().index() > trail.declared() || trail.value(lit).is_some() {
        return;
    }
    if decided {
        trail.decide(lit);
        return;
    }
    trail.assign(lit, Reason::Clause(ClauseId::new(0)));
}

// Puts the variables up to a number on a trail, every tenth as a decision.
fn fill(trail: &mut Trail, count: u32) -> Result<(), Memory>
    requires { count ≤ 1000 }
{
    for number in 1..count + 1 {
        let Some(var) = Var::new(number) else {
            return Ok(());
        };
        trail.declare(var)?;
        put(trail, var.positive(), number % 10 == 0);
    }
    Ok(())
}

// Observes every second variable up to a number.
fn watch(bridge: &mut Bridge, root: &Trail, count: u32) -> Result<(), Memory>
    requires count { count ≤ 1000 }
    requires root { root.now.level ≡ 0 }
    requires fresh { IsFresh (meaning bridge.old.theory) bridge.old.desk }
    ensures fresh { OnOk result (IsFresh (meaning bridge.new.theory) bridge.new.desk) }
{
    'vars: for number in 1..count + 1 {
        watch_even(bridge, root, number)?;
    }
    Ok(())
}

// Observes a variable of even number.
fn watch_even(bridge: &mut Bridge, root: &Trail, number: u32) -> Result<(), Memory>
    requires root { root.now.level ≡ 0 }
    requires fresh { IsFresh (meaning bridge.old.theory) bridge.old.desk }
    ensures fresh { OnOk result (IsFresh (meaning bridge.new.theory) bridge.new.desk) }
{
    if number % 2 == 1 {
        return Ok(());
    }
    let Some(var) = Var::new(number) else {
        return Ok(());
    };
    bridge.observe(var, root)?;
    Ok(())
}

// Tells a trail with three callbacks, and what is left with a thousand: whether the first stopped,
// and the callbacks of each.
fn told(bridge: &mut Bridge, trail: &Trail) -> [u64; 3]
    requires stands { Stands (meaning bridge.old.theory) bridge.old.desk }
    requires follows { Follows bridge.old.desk trail.now }
{
    bridge.start(3);
    let stopped = bridge.tell(trail).is_err();
    let few = bridge.calls();
    bridge.start(1000);
    let _ = bridge.tell(trail);
    [u64::from(stopped), few, bridge.calls()]
}

// The same where nothing was told before.
#[tactic(auto, using(crate::proofs::Following::follows_fresh))]
fn told_first(bridge: &mut Bridge, trail: &Trail) -> [u64; 3]
    requires { IsFresh (meaning bridge.old.theory) bridge.old.desk }
{
    told(bridge, trail)
}

// The number of the variable that is asked for first, or 0.
fn wanted(bridge: &Bridge) -> u32
    requires { Stands (meaning bridge.now.theory) bridge.now.desk }
{
    match bridge.next_request() {
        Some(Request::Observe(var)) => var.index(),
        Some(Request::Clause(_, _)) => 0,
        Some(Request::Back(_)) => 0,
        None => 0,
    }
}

// Two questions where one callback is allowed.
#[test]
fn one_callback(rt: HostRuntime) -> Result<(), Fail> {
    let theory: Box<dyn Theory> = Box::new(rt.alloc(), NoTheory::new())?;
    let mut bridge = Bridge::new(rt.alloc(), theory);
    bridge.start(1);
    let first = bridge.ask_propagate();
    assert!(rt; first == Ok(None));
    let second = bridge.ask_propagate();
    assert!(rt; second == Err(AskStop::Callbacks(1)));
    assert!(rt; bridge.is_spent());
    Ok(())
}

// Of 200 variables, with a decision at every tenth, 100 are observed: 120 callbacks, in two parts.
#[test]
fn tells_levels_and_literals(rt: HostRuntime) -> Result<(), Fail> {
    let theory: Box<dyn Theory> = Box::new(rt.alloc(), NoTheory::new())?;
    let mut bridge = Bridge::new(rt.alloc(), theory);
    let root = Trail::new(rt.alloc());
    watch(&mut bridge, &root, 200).ok().ok_or("memory")?;
    let mut trail = Trail::new(rt.alloc());
    fill(&mut trail, 200).ok().ok_or("memory")?;
    assert!(rt; told_first(&mut bridge, &trail) == [1, 3, 117]);
    Ok(())
}

// A variable is asked for, and the closing notice is a callback that is not counted.
#[test]
fn asks_and_closes(rt: HostRuntime) -> Result<(), Fail> {
    let calls = Calls::new(rt.alloc()).ok().ok_or("memory")?;
    let shared = calls.share().ok().ok_or("memory")?;
    let var = Var::new(7).ok_or("no variable")?;
    let asking = Asking::new(var, Moment::Propagate);
    let theory: Box<dyn Theory> = Box::new(rt.alloc(), Counting::new(asking, shared))?;
    let mut bridge = Bridge::new(rt.alloc(), theory);
    bridge.start(5);
    let _ = bridge.ask_propagate();
    assert!(rt; wanted(&bridge) == 7);
    bridge.close();
    assert!(rt; bridge.calls() == 1);
    assert!(rt; calls.all() == 2);
    Ok(())
}
