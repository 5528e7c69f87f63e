//! Normal forms of short clauses.

use crate::forms::normal_form;
use sat_model::literal::Lit;
use std::alloc::Global;
use std::process::Abort;
use std::test::Fail;

// The literals that are written as these numbers.
fn lits(rt: &impl Abort, alloc: Global, numbers: &[i32]) -> Result<Vec<Lit>, Fail> {
    let mut lits = Vec::new(alloc);
    for number in numbers {
        lits.push(Lit::new(*number).expect(rt, "a literal"))?;
    }
    Ok(lits)
}

// The numbers of the normal form, each after a space, or the word `none`.
fn form_text(rt: &impl Abort, alloc: Global, numbers: &[i32]) -> Result<String, Fail> {
    let clause = lits(rt, alloc, numbers)?;
    let mut text = String::new(alloc);
    match normal_form(alloc, clause.as_slice())? {
        Some(form) => {
            for lit in form.as_slice() {
                let word = format!(in alloc; " {}", lit.number())?;
                text.push_str(word.as_str())?;
            }
        }
        None => text.push_str("none")?,
    }
    Ok(text)
}

#[test]
fn forms_of_short_clauses(rt: HostRuntime) -> Result<(), Fail> {
    let alloc = rt.alloc();
    let rows: [(&[i32], &str); 7] = [
        (&[], ""),
        (&[3], " 3"),
        (&[3, -2, 1], " 1 -2 3"),
        (&[2, 1, 2, 1, 2], " 1 2"),
        (&[1, 4194303, -1], "none"),
        (&[-4194303, 2, 4194303], "none"),
        (&[-1, -1, 2], " -1 2"),
    ];
    for (numbers, expected) in rows {
        let found = form_text(&rt, alloc, numbers)?;
        assert_eq!(rt; found.as_str(), expected);
    }
    Ok(())
}
