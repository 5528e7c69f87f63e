//! Halves, restarts and reductions as they come, and that a clause of one literal is kept.
use crate::policy::Policy;
use clause_store::store::Store;
use clause_store::stored::Keep;
use sat_model::literal::Var;
use std::test::Fail;
use trail_state::trail::Trail;

// Meets so many conflicts of this glue.
fn meet(policy: &mut Policy, count: u32, glue: u32) {
    for _ in 0..count {
        policy.on_conflict(glue);
    }
}

#[test]
fn halves_follow_on_one_another(rt: HostRuntime) -> Result<(), Fail> {
    let mut policy = Policy::new(rt.alloc());
    for (count, stable) in [
        (0, false),
        (999, false),
        (1, true),
        (999, true),
        (1, false),
        (1999, false),
        (1, true),
        (2000, false),
    ] {
        meet(&mut policy, count, 5);
        assert_eq!(rt; policy.is_stable(), stable);
    }
    policy.start();
    assert!(rt; !policy.is_stable());
    Ok(())
}

#[test]
fn restarts_and_reductions(rt: HostRuntime) -> Result<(), Fail> {
    let mut policy = Policy::new(rt.alloc());
    assert!(rt; !policy.wants_restart());
    meet(&mut policy, 100, 2);
    assert!(rt; !policy.wants_restart());
    meet(&mut policy, 10, 50);
    assert!(rt; policy.wants_restart());
    assert!(rt; !policy.wants_restart());
    meet(&mut policy, 1889, 2);
    assert!(rt; !policy.wants_reduce());
    meet(&mut policy, 1, 2);
    assert!(rt; policy.wants_reduce());
    Ok(())
}

#[test]
fn units_are_kept(rt: HostRuntime) -> Result<(), Fail> {
    let mut policy = Policy::new(rt.alloc());
    let mut store = Store::new(rt.alloc());
    let trail = Trail::new(rt.alloc());
    let none = policy.reduce(&store, &trail)?;
    assert!(rt; none.is_empty());
    let one = Var::new(1).ok_or("no variable")?;
    store.add(&[one.positive()], Keep::Redundant, 10)?;
    let ids = policy.reduce(&store, &trail)?;
    assert!(rt; ids.is_empty());
    Ok(())
}
