//! The calls on sets of each kind, with numbers far apart, members that go and come back, and lists of hundreds.
use crate::set::FlagSet;
use crate::work::WorkList;
use sat_model::lists::ClauseId;
use sat_model::literal::{Lit, Var};
use std::test::Fail;

// How many of the first 600 variables are in a set.
fn count(set: &FlagSet<Var>) -> usize {
    let mut found = 0usize;
    for n in 1..601u32 {
        if let Some(var) = Var::new(n) {
            if set.has(var) {
                found = found.saturating_add(1);
            }
        }
    }
    found
}

// Puts the variables from one number up to another into a set.
fn put_each(set: &mut FlagSet<Var>, first: u32, last: u32) -> Result<(), Fail> {
    for n in first..last {
        if let Some(var) = Var::new(n) {
            set.put(var)?;
        }
    }
    Ok(())
}

#[test]
fn members_come_go_and_come_back(rt: HostRuntime) -> Result<(), Fail> {
    let mut set: FlagSet<Var> = FlagSet::new(rt.alloc());
    let two = Var::new(2).ok_or("no variable")?;
    let last = Var::new(4_194_303).ok_or("no variable")?;
    put_each(&mut set, 1, 501)?;
    set.put(last)?;
    assert_eq!(rt; [count(&set), set.bound()], [500, 4_194_304]);
    set.take_out(two);
    set.put(two)?;
    set.take_out(two);
    assert_eq!(rt; count(&set), 499);
    set.put(two)?;
    assert_eq!(rt; count(&set), 500);
    set.clear();
    set.put(two)?;
    assert_eq!(rt; count(&set), 1);
    Ok(())
}

#[test]
fn literals_and_ids_have_sets_too(rt: HostRuntime) -> Result<(), Fail> {
    let one = Lit::new(1).ok_or("no literal")?;
    let mut lits: FlagSet<Lit> = FlagSet::new(rt.alloc());
    lits.put(one.neg())?;
    assert!(rt; lits.has(one.neg()) && !lits.has(one));
    let mut ids: FlagSet<ClauseId> = FlagSet::new(rt.alloc());
    ids.put(ClauseId::new(70_000))?;
    assert!(rt; ids.has(ClauseId::new(70_000)) && !ids.has(ClauseId::new(7)));
    Ok(())
}

// Puts the variables up to a bound on a list.
fn list_each(list: &mut WorkList<Var>, last: u32) -> Result<(), Fail> {
    for n in 1..last {
        if let Some(var) = Var::new(n) {
            list.reach(var)?;
            list.put(var);
            list.put(var);
        }
    }
    Ok(())
}

// Goes through a list once: even variables stay, and odd ones go.
fn drop_odd(list: &mut WorkList<Var>) {
    let mut at = 0usize;
    for _turn in 0..list.as_slice().len() {
        if at < list.as_slice().len() {
            let var = list.as_slice()[at];
            if var.index() % 2 == 0 {
                at += 1;
            } else {
                list.take_out(var);
            }
        }
    }
}

#[test]
fn a_list_is_gone_through_while_it_changes(rt: HostRuntime) -> Result<(), Fail> {
    let mut list: WorkList<Var> = WorkList::new(rt.alloc());
    list_each(&mut list, 501)?;
    assert_eq!(rt; list.as_slice().len(), 500);
    drop_odd(&mut list);
    drop_odd(&mut list);
    assert_eq!(rt; list.as_slice().len(), 250);
    list_each(&mut list, 6)?;
    assert_eq!(rt; list.as_slice().len(), 253);
    list.clear();
    list_each(&mut list, 3)?;
    assert_eq!(rt; list.as_slice().len(), 2);
    Ok(())
}
