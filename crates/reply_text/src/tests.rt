//! The printed texts, from outside: models that end at a line's end and behind it, cores, counts, and a model of thousands of values.
use crate::text::{write_checked, write_core, write_model, write_unknown};
use io_edge::memory::MemSink;
use sat_model::lists::Lits;
use sat_model::literal::Lit;
use std::test::Fail;

#[test]
fn models_are_wrapped_at_twenty(rt: HostRuntime) -> Result<(), Fail> {
    let model = [true; 20];
    for (size, vars, want) in [
        (0usize, 0u32, "s SATISFIABLE\nv 0\n"),
        (2, 0, "s SATISFIABLE\nv 1 2 0\n"),
        (2, 4, "s SATISFIABLE\nv 1 2 -3 -4 0\n"),
        (
            19,
            5,
            "s SATISFIABLE\nv 1 2 3 4 5 6 7 8 9 10 11 12 13 14 15 16 17 18 19 0\n",
        ),
        (
            20,
            20,
            "s SATISFIABLE\nv 1 2 3 4 5 6 7 8 9 10 11 12 13 14 15 16 17 18 19 20\nv 0\n",
        ),
    ] {
        let mut sink = MemSink::new(rt.alloc(), 1000, 100, &[])?;
        let wrote = write_model(&mut sink, &model[..size], vars);
        assert!(rt; wrote.is_ok());
        assert_eq!(rt; sink.written(), want.as_bytes());
    }
    Ok(())
}

#[test]
fn other_replies_have_texts(rt: HostRuntime) -> Result<(), Fail> {
    let alloc = rt.alloc();
    let mut core = Lits::new(alloc);
    core.push(Lit::new(-4_194_303).ok_or("no literal")?)?;
    core.push(Lit::new(7).ok_or("no literal")?)?;
    let mut sink = MemSink::new(alloc, 1000, 100, &[])?;
    assert!(rt; write_core(&mut sink, core.as_slice()).is_ok());
    assert!(rt; write_unknown(&mut sink, 10_000).is_ok());
    assert!(rt; write_checked(&mut sink, 0).is_ok());
    assert_eq!(rt;
        sink.written(),
        b"s UNSATISFIABLE\nf -4194303 7 0\ns UNKNOWN\nc conflicts 10000\nc checked 0\n".as_slice()
    );
    Ok(())
}

#[test]
fn a_model_of_thousands_of_values_is_written(rt: HostRuntime) -> Result<(), Fail> {
    let mut sink = MemSink::new(rt.alloc(), 1_000_000, 10_000, &[])?;
    assert!(rt; write_model(&mut sink, &[], 20_000).is_ok());
    assert_eq!(rt; sink.written().len(), 130_912);
    Ok(())
}
