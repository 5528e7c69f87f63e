//! Whole runs: inputs at several cuts, texts cut off anywhere, each read and each write failing in turn, refused words, options, and
//! inputs above every inline size and buffer, since want of memory is the one free answer.
use super::options::Options;
use super::run::run;
use super::session::give_reply;
use super::status::{NO_ANSWER, Status};
use io_edge::memory::{MemSink, MemSource};
use sat_model::literal::Lit;
use solver_api::solver::Solver;
use std::alloc::Global;
use std::test::Fail;

// Two clauses and two queries, 43 bytes.
const SCRIPT: &str = "p inccnf\n1 2 0\n-1 3 0\na 1 -2 3 0\na -2 -3 0\n";

// The replies to them.
const REPLIES: &str = "s SATISFIABLE\nv 1 -2 3 0\ns UNSATISFIABLE\nf -2 -3 0\n";

// The first of these replies.
const FIRST: &str = "s SATISFIABLE\nv 1 -2 3 0\n";

#[test]
fn inputs_are_answered_however_they_are_cut(rt: HostRuntime) -> Result<(), Fail> {
    let alloc = rt.alloc();
    for (input, want, code) in [
        ("p inccnf\n1 0\na 0\n", "s SATISFIABLE\nv 1 0\n", 10u8),
        ("p inccnf\n", "", 0),
        ("", "c refused at line 1: header expected\n", 1),
        (
            "p inccnf\n1 2 0\n-1 0\na -2 0\n",
            "s UNSATISFIABLE\nf -2 0\n",
            20,
        ),
        (
            "p inccnf\n0\na 5 0\na 0\n",
            "s UNSATISFIABLE\nf 0\ns UNSATISFIABLE\nf 0\n",
            20,
        ),
        (SCRIPT, REPLIES, 20),
        (
            "p inccnf\n1 2 0\n-1 3 0\na 1 -2 3 0\na -2 -3 0\n-2 0\na -3 0\n",
            "s SATISFIABLE\nv 1 -2 3 0\ns UNSATISFIABLE\nf -2 -3 0\ns UNSATISFIABLE\nf -3 0\n",
            20,
        ),
        (
            "p inccnf\n1 -2 0\n-1 2 0\na 1 0\n-1 0\na 2 0\n",
            "s SATISFIABLE\nv 1 2 0\ns UNSATISFIABLE\nf 2 0\n",
            20,
        ),
        (
            "p inccnf\na 1 -1 0\na -1 2 2 0\n",
            "s UNSATISFIABLE\nf 1 -1 0\ns SATISFIABLE\nv -1 2 0\n",
            10,
        ),
        (
            "p inccnf\r\n1\r\nc 7 0\r\n-2\r\n3 0\r\na -1 2 3 0",
            "s SATISFIABLE\nv -1 2 3 0\n",
            10,
        ),
        ("p inccnf\n1 0\n-1 0\na 2 0\n", "s UNSATISFIABLE\nf 0\n", 20),
        ("p inccnf\na 0\n", "s SATISFIABLE\nv 0\n", 10),
        (
            "p inccnf\nk 1 1 0\n",
            "c refused at line 2: unexpected word\n",
            1,
        ),
        ("p knf 1 0\n", "c refused at line 1: header expected\n", 1),
        (
            "p inccnf\n1 0\na 0\n4194304 0\n",
            "s SATISFIABLE\nv 1 0\nc refused at line 4: number out of range\n",
            1,
        ),
        (
            "p inccnf\n1 2\n3\nx 0\n",
            "c refused at line 4: unexpected word\n",
            1,
        ),
        ("p cnf 2 1\n1 2\n", "c refused at line 2: not closed\n", 1),
        ("p cnf 0 0\n", "s SATISFIABLE\nv 0\n", 10),
        ("p cnf 1 2\n1 0\n-1 0\n", "s UNSATISFIABLE\nf 0\n", 20),
        ("p cnf 3 1\n-1 0", "s SATISFIABLE\nv -1 -2 -3 0\n", 10),
        (
            "p cnf 20 20\n1 0 2 0 3 0 4 0 5 0 6 0 7 0 8 0 9 0 10 0\n11 0 12 0 13 0 14 0 15 0 16 0 17 0 18 0 19 0 20 0\n",
            "s SATISFIABLE\nv 1 2 3 4 5 6 7 8 9 10 11 12 13 14 15 16 17 18 19 20\nv 0\n",
            10,
        ),
        (
            "p cnf 1 1\na 1 0\n",
            "c refused at line 2: unexpected word\n",
            1,
        ),
    ] {
        for cut in [1usize, 7, 100000] {
            let mut source = MemSource::new(alloc, input.as_bytes(), cut, &[])?;
            let mut sink = MemSink::new(alloc, 1000, cut, &[])?;
            let status = run(alloc, &[], &mut source, &mut sink);
            assert_eq!(rt; status, Status { code }, "{input}");
            assert!(rt; sink.written() == want.as_bytes(), "{input}");
            assert!(rt; code == 1 || source.rest().is_empty(), "{input}");
        }
    }
    Ok(())
}

#[test]
fn the_greatest_variable_alone_is_answered(rt: HostRuntime) -> Result<(), Fail> {
    let alloc = rt.alloc();
    let input = "p inccnf\n4194303 0\na -4194303 0\n";
    let mut source = MemSource::new(alloc, input.as_bytes(), 1000, &[])?;
    let mut sink = MemSink::new(alloc, 1000, 1000, &[])?;
    let status = run(alloc, &[], &mut source, &mut sink);
    assert_eq!(rt; status, Status { code: 20 });
    assert!(rt; sink.written() == b"s UNSATISFIABLE\nf -4194303 0\n".as_slice());
    Ok(())
}

#[test]
fn a_script_that_is_cut_off_says_where(rt: HostRuntime) -> Result<(), Fail> {
    let alloc = rt.alloc();
    let script = SCRIPT.as_bytes();
    for (first, last, want, code) in [
        (
            0usize,
            0usize,
            "c refused at line 1: header expected\n",
            1u8,
        ),
        (1, 2, "c refused at line 1: not closed\n", 1),
        (3, 7, "c refused at line 1: header expected\n", 1),
        (8, 9, "", 0),
        (10, 13, "c refused at line 2: not closed\n", 1),
        (14, 15, "", 0),
        (16, 16, "c refused at line 3: unexpected word\n", 1),
        (17, 20, "c refused at line 3: not closed\n", 1),
        (21, 22, "", 0),
        (23, 26, "c refused at line 4: not closed\n", 1),
        (27, 27, "c refused at line 4: unexpected word\n", 1),
        (28, 31, "c refused at line 4: not closed\n", 1),
        (32, 33, FIRST, 10),
        (
            34,
            35,
            "s SATISFIABLE\nv 1 -2 3 0\nc refused at line 5: not closed\n",
            1,
        ),
        (
            36,
            36,
            "s SATISFIABLE\nv 1 -2 3 0\nc refused at line 5: unexpected word\n",
            1,
        ),
        (
            37,
            38,
            "s SATISFIABLE\nv 1 -2 3 0\nc refused at line 5: not closed\n",
            1,
        ),
        (
            39,
            39,
            "s SATISFIABLE\nv 1 -2 3 0\nc refused at line 5: unexpected word\n",
            1,
        ),
        (
            40,
            41,
            "s SATISFIABLE\nv 1 -2 3 0\nc refused at line 5: not closed\n",
            1,
        ),
        (42, 43, REPLIES, 20),
    ] {
        for size in first..last + 1 {
            assert!(rt; size <= script.len());
            let mut source = MemSource::new(alloc, &script[..size], 5, &[])?;
            let mut sink = MemSink::new(alloc, 1000, 1000, &[])?;
            let status = run(alloc, &[], &mut source, &mut sink);
            assert_eq!(rt; status, Status { code }, "{size} bytes");
            assert!(rt; sink.written() == want.as_bytes(), "{size} bytes");
        }
    }
    Ok(())
}

#[test]
fn reads_and_writes_fail_in_turn(rt: HostRuntime) -> Result<(), Fail> {
    let alloc = rt.alloc();
    for failing in 0..44u64 {
        let want = if failing < 33 {
            ""
        } else if failing < 43 {
            FIRST
        } else {
            REPLIES
        };
        let mut source = MemSource::new(alloc, SCRIPT.as_bytes(), 1, &[failing])?;
        let mut sink = MemSink::new(alloc, 1000, 1000, &[])?;
        let status = run(alloc, &[], &mut source, &mut sink);
        assert_eq!(rt; status, Status { code: 3 }, "read {failing}");
        assert!(rt; sink.written() == want.as_bytes(), "read {failing}");
    }
    let replies = REPLIES.as_bytes();
    for failing in 0..replies.len() {
        let mut source = MemSource::new(alloc, SCRIPT.as_bytes(), 1000, &[])?;
        let mut sink = MemSink::new(alloc, 1000, 1, &[failing as u64])?;
        let status = run(alloc, &[], &mut source, &mut sink);
        assert_eq!(rt; status, Status { code: 4 }, "write {failing}");
        assert!(rt; sink.written() == &replies[..failing], "write {failing}");
    }
    // A reply is written before more is read: the first is, where the last line is still to come.
    for failing in 0..replies.len() {
        let mut source = MemSource::new(alloc, SCRIPT.as_bytes(), 1, &[])?;
        let mut sink = MemSink::new(alloc, 1000, 1, &[failing as u64])?;
        let status = run(alloc, &[], &mut source, &mut sink);
        assert_eq!(rt; status, Status { code: 4 }, "write {failing}");
        let rest = if failing < FIRST.len() { 10 } else { 0 };
        assert_eq!(rt; source.rest().len(), rest, "write {failing}");
    }
    Ok(())
}

// The words of a text, cut at its bars.
fn words_of(alloc: Global, text: &str) -> Result<Vec<String>, Fail> {
    let mut words = Vec::new(alloc);
    for word in text.split('|') {
        words.push(String::from_str(alloc, word)?)?;
    }
    Ok(words)
}

// Nine clauses that say of three pigeons that they are in two holes, each alone.
const PIGEONS: &str =
    "p cnf 6 9\n1 2 0 3 4 0 5 6 0\n-1 -3 0 -1 -5 0 -3 -5 0\n-2 -4 0 -2 -6 0 -4 -6 0\n";

#[test]
fn words_state_options(rt: HostRuntime) -> Result<(), Fail> {
    let alloc = rt.alloc();
    let unit = "p inccnf\n1 0\na 0\n";
    let model = "s SATISFIABLE\nv 1 0\n";
    let unknown = "s UNKNOWN\nc conflicts 0\n";
    let unsat = "s UNSATISFIABLE\nf 0\n";
    for (words, input, want, code) in [
        ("--steps|0|--conflicts|0", PIGEONS, unknown, 0u8),
        ("--conflicts=000", PIGEONS, unknown, 0),
        ("--steps|0|--conflicts=9832", PIGEONS, unsat, 20),
        ("--conflicts|4611686018427387904", PIGEONS, unsat, 20),
        ("--conflicts|0", unit, model, 10),
        (
            "--check|--callbacks=5",
            SCRIPT,
            "s SATISFIABLE\nv 1 -2 3 0\nc checked 5\ns UNSATISFIABLE\nf -2 -3 0\n",
            20,
        ),
    ] {
        let words = words_of(alloc, words)?;
        let mut source = MemSource::new(alloc, input.as_bytes(), 1000, &[])?;
        let mut sink = MemSink::new(alloc, 1000, 1000, &[])?;
        let status = run(alloc, &words, &mut source, &mut sink);
        assert_eq!(rt; status, Status { code });
        assert!(rt; sink.written() == want.as_bytes());
    }
    Ok(())
}

#[test]
fn words_are_refused_and_nothing_is_read(rt: HostRuntime) -> Result<(), Fail> {
    let alloc = rt.alloc();
    let usage =
        "c usage: icnf_runner [--simplify | --self N] [--conflicts N] [--callbacks N] [--steps N] [--stats] [--check]\n";
    for words in [
        "",
        "--",
        "--help",
        "-h",
        "--stats",
        "--conflicts",
        "--conflicts|x",
        "--conflicts|+5",
        "--conflicts|-1",
        "--conflicts=",
        "--conflicts|4611686018427387905",
        "--conflicts|1|--conflicts|2",
        "--conflicts=1|--conflicts|1",
        "--conf|1",
        "--steps|1|2",
        "--check|--check",
        "--check=true",
        "--check|",
        "--self|0",
        "--conflicts|--check",
        "--|--check",
    ] {
        let words = words_of(alloc, words)?;
        let mut source = MemSource::new(alloc, SCRIPT.as_bytes(), 1000, &[0])?;
        let mut sink = MemSink::new(alloc, 1000, 1000, &[])?;
        let status = run(alloc, &words, &mut source, &mut sink);
        assert_eq!(rt; status, Status { code: 2 });
        assert!(rt; sink.written() == usage.as_bytes());
        assert!(rt; source.rest() == SCRIPT.as_bytes());
    }
    Ok(())
}

#[test]
fn a_budget_of_no_conflicts_gives_unknown(rt: HostRuntime) -> Result<(), Fail> {
    let alloc = rt.alloc();
    let mut solver = Solver::new(alloc)?;
    for (one, other) in [(1, 2), (-1, 2), (1, -2), (-1, -2)] {
        let one = Lit::new(one).ok_or("no literal")?;
        let other = Lit::new(other).ok_or("no literal")?;
        solver.add(&[one, other])?;
    }
    if solver.taken() > 8 {
        return Err("too many literals")?;
    }
    let mut sink = MemSink::new(alloc, 1000, 1000, &[])?;
    let options = Options {
        conflicts: 0,
        callbacks: 0,
        steps: 0,
        check: false,
    };
    let status = give_reply(&mut solver, &[], options, 0, &mut sink);
    assert!(rt; status.is_ok_and(|status| status == NO_ANSWER));
    assert!(rt; sink.written() == b"s UNKNOWN\nc conflicts 0\n".as_slice());
    Ok(())
}

#[test]
fn a_long_clause_and_a_long_model_are_taken(rt: HostRuntime) -> Result<(), Fail> {
    let alloc = rt.alloc();
    let mut input = String::new(alloc);
    input.push_str("p cnf 20000 1\n")?;
    for _ in 0..20_000u32 {
        input.push_str("12345 ")?;
    }
    input.push_str("0\n")?;
    let mut source = MemSource::new(alloc, input.as_bytes(), 100_000, &[])?;
    let mut sink = MemSink::new(alloc, 1_000_000, 100_000, &[])?;
    let status = run(alloc, &[], &mut source, &mut sink);
    assert_eq!(rt; status, Status { code: 10 });
    assert!(rt; sink.written().starts_with(b"s SATISFIABLE\nv "));
    assert!(rt; sink.written().len() > 110_000);
    Ok(())
}
