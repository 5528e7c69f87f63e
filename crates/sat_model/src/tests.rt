//! What no clause says of literals, lists and truth: the numbers that DIMACS writes, what is no literal, and that answers come with
//! lists that do not lie in place.

use crate::constraint::{Constraint, Kind};
use crate::lists::{ClauseId, Clauses, Ids, Lits};
use crate::literal::{Lit, MAX_VAR, Var};
use crate::truth::{clause_true, constraint_true, lit_true};
use std::test::Fail;

#[test]
fn literals_have_variables_and_codes(rt: HostRuntime) -> Result<(), Fail> {
    for (number, variable, code) in [
        (1, 1, 2),
        (-1, 1, 3),
        (4_194_303, 4_194_303, 8_388_606),
        (-4_194_303, 4_194_303, 8_388_607),
    ] {
        let lit = Lit::new(number).ok_or("no literal")?;
        assert_eq!(rt; lit.number(), number);
        assert_eq!(rt; lit.var().index(), variable);
        assert_eq!(rt; lit.code(), code);
        assert_eq!(rt; lit.neg().number(), -number);
    }
    for number in [0, 4_194_304, -4_194_304, i32::MIN, i32::MAX] {
        assert_eq!(rt; Lit::new(number), None);
    }
    assert_eq!(rt; Var::new(0), None);
    assert_eq!(rt; Var::new(MAX_VAR + 1), None);
    let last = Var::new(MAX_VAR).ok_or("no variable")?;
    assert_eq!(rt; last.positive().number(), 4_194_303);
    assert_eq!(rt; last.negative().number(), -4_194_303);
    Ok(())
}

#[test]
fn truth_counts_positions(rt: HostRuntime) -> Result<(), Fail> {
    let alloc = rt.alloc();
    let model = [true, false];
    let one = Lit::new(1).ok_or("no literal")?;
    let two = Lit::new(2).ok_or("no literal")?;
    let past = Lit::new(3).ok_or("no literal")?;
    assert!(rt;
        lit_true(&model, one) && lit_true(&model, two.neg()) && lit_true(&model, past.neg())
    );
    assert!(rt; !lit_true(&model, two) && !lit_true(&model, past));
    assert!(rt;
        clause_true(&model, &[two, one])
            && !clause_true(&model, &[two, past])
            && !clause_true(&model, &[])
    );
    let lits = [one, one, two, two.neg()];
    for (bound, holds) in [(0, true), (3, true), (4, false)] {
        let what = Constraint::AtLeast(bound, Lits::from_slice(alloc, &lits)?);
        assert_eq!(rt; constraint_true(&model, &what), holds);
        assert_eq!(rt; what.kind(), Kind::Card);
    }
    let odd = Constraint::Parity(true, Lits::from_slice(alloc, &lits)?);
    let even = Constraint::Parity(false, Lits::from_slice(alloc, &lits)?);
    assert!(rt; constraint_true(&model, &odd) && !constraint_true(&model, &even));
    assert_eq!(rt; odd.kind(), Kind::Parity);
    Ok(())
}

#[test]
fn lists_grow(rt: HostRuntime) -> Result<(), Fail> {
    let alloc = rt.alloc();
    let one = Lit::new(1).ok_or("no literal")?;
    let mut lits = Lits::new(alloc);
    for _ in 0..6 {
        lits.push(one)?;
    }
    assert_eq!(rt; lits.as_slice().len(), 6);
    let mut clauses = Clauses::new(alloc);
    assert!(rt; clauses.is_empty());
    clauses.push(lits.as_slice())?;
    assert_eq!(rt; clauses.len(), 1);
    assert_eq!(rt; clauses.clause(0).len(), 6);
    let mut ids = Ids::new(alloc);
    assert!(rt; ids.is_empty());
    ids.push(ClauseId::new(7))?;
    assert_eq!(rt; ids.len(), 1);
    assert_eq!(rt; ids.id(0).index(), 7);
    Ok(())
}
