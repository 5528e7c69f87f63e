//! Tests of the search.

use crate::search::search;
use sat_model::lists::Lits;
use sat_model::literal::Lit;
use std::alloc::Global;
use std::process::Abort;
use std::test::Fail;

// How many variables the model has of one clause of one literal and one assumption, and how many of them are true, or none if there
// is no model.
fn counts(
    rt: &impl Abort,
    alloc: Global,
    clause: i32,
    assumed: i32,
) -> Result<Option<(usize, usize)>, Fail> {
    let lit = Lit::new(clause).expect(rt, "a literal");
    let other = Lit::new(assumed).expect(rt, "a literal");
    let vars = lit.var().index().max(other.var().index());
    let mut unit = Lits::new(alloc);
    unit.push(lit)?;
    let mut clauses = Vec::new(alloc);
    clauses.push(unit)?;
    match search(alloc, &clauses, &[other], vars)? {
        Some(model) => Ok(Some((model.len(), model.iter().filter(|value| **value).count()))),
        None => Ok(None),
    }
}

#[test]
fn finds_models(rt: HostRuntime) -> Result<(), Fail> {
    let rows = [
        (4_194_303, 1, Some((4_194_303, 4_194_303))),
        (-4, 2, Some((4, 3))),
        (-3, -1, Some((3, 1))),
        (7, -7, None),
        (-7, 7, None),
    ];
    for (clause, assumed, expected) in rows {
        assert_eq!(rt; counts(&rt, rt.alloc(), clause, assumed)?, expected);
    }
    Ok(())
}
