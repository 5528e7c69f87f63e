//! What is read of texts, cut anywhere: items with their bounds and literals, each reason at its line, and statements and lines that
//! are longer than what lies in place or in the buffer.
ghost use Rattle.std.specs.Prelude.{◌<◌};

use crate::item::{Heads, Item, Stop, Why};
use crate::numbers::{LitWord, PlainWord, literal_word, plain_word};
use crate::reader::Reader;
use crate::words::{WordGot, WordReader};
use io_edge::memory::MemSource;
use sat_model::lists::Lits;
use std::alloc::Global;
use std::fmt::Write;
use std::test::Fail;

// Appends a letter and the numbers of literals.
fn push_lits(text: &mut String, letter: &str, lits: &Lits) -> Result<(), Fail> {
    text.push_str(letter)?;
    for lit in lits.as_slice() {
        let number = lit.number();
        write!(text, " {number}")?;
    }
    text.push_str("; ")?;
    Ok(())
}

// What a reader gives of an input, up to its last answer.
fn items(
    alloc: Global,
    heads: Heads,
    input: &str,
    cut: usize,
    fails: &[u64],
) -> Result<String, Fail>
    requires { 0 < cut }
{
    let mut source = MemSource::new(alloc, input.as_bytes(), cut, fails)?;
    let mut reader = Reader::new(alloc, heads)?;
    let mut text = String::new(alloc);
    for _ in 0..20u32 {
        if reader.is_done() {
            break;
        }
        match reader.next(&mut source) {
            Ok(Item::Header(header)) => {
                let kind = header.kind;
                let vars = header.vars;
                let clauses = header.clauses;
                write!(text, "{kind:?} {vars} {clauses}; ")?;
            }
            Ok(Item::Clause(lits)) => push_lits(&mut text, "clause", &lits)?,
            Ok(Item::Card(bound, lits)) => {
                write!(text, "at least {bound} of")?;
                push_lits(&mut text, "", &lits)?;
            }
            Ok(Item::Query(lits)) => push_lits(&mut text, "query", &lits)?,
            Ok(Item::End) => text.push_str("end")?,
            Err(Stop::Bad(line, why)) => {
                let reason = why.text();
                write!(text, "line {line}: {reason}")?;
            }
            Err(Stop::ReadFault) => text.push_str("read fault")?,
            Err(Stop::Memory) => text.push_str("no memory")?,
        }
    }
    Ok(text)
}

#[test]
fn inputs_have_items_and_faults(rt: HostRuntime) -> Result<(), Fail> {
    for (input, want) in [
        (
            "p inccnf\n1 -2 0\na 3 0\n0\n",
            "Inc 0 0; clause 1 -2; query 3; clause; end",
        ),
        (
            "p\tinccnf\r\n1\r\nc 7 0\r\n  c\r\n-2 0 a\r\n0\r\n3 0",
            "Inc 0 0; clause 1 -2; query; clause 3; end",
        ),
        ("", "line 1: header expected"),
        ("\nc p inccnf\n", "line 2: header expected"),
        ("p cnf 2 1\n1 -2 0\n", "Cnf 2 1; clause 1 -2; end"),
        (
            "p cnf 4194303\nc 1\n04611686018427387904 0",
            "Cnf 4194303 4611686018427387904; clause; end",
        ),
        ("p cnf 1 1\na 1 0\n", "Cnf 1 1; line 2: unexpected word"),
        ("p cnf\n4194304 1\n", "line 2: number out of range"),
        ("p cnf -1 1\n", "line 1: unexpected word"),
        (
            "p cnf 1\n4611686018427387905\n",
            "line 2: number out of range",
        ),
        ("p cnf 1 x\n", "line 1: unexpected word"),
        ("p\ncnf 1 1\n", "line 2: not closed"),
        ("p cnf 2 1\n1 2\n", "Cnf 2 1; line 2: not closed"),
        ("p cnf 3\n", "line 1: not closed"),
        ("p\n\nxnf\n", "line 3: header expected"),
        ("p\n", "line 1: not closed"),
        (
            "p inccnf\n1 2\n3\nx 0\n",
            "Inc 0 0; line 4: unexpected word",
        ),
        ("p inccnf\n1 +5 0\n", "Inc 0 0; line 2: unexpected word"),
        ("p inccnf\n1 -0\n", "Inc 0 0; line 2: unexpected word"),
        ("p inccnf\n1\x0b2 0\n", "Inc 0 0; line 2: unexpected word"),
        (
            "p inccnf\n1 0\na\n-4194304 0\n",
            "Inc 0 0; clause 1; line 4: number out of range",
        ),
        (
            "p inccnf\n1 0 2\n-3\n",
            "Inc 0 0; clause 1; line 3: not closed",
        ),
        ("p inccnf\na 1", "Inc 0 0; line 2: not closed"),
    ] {
        for cut in [1usize, 7, 100000] {
            let got = items(rt.alloc(), Heads::All, input, cut, &[])?;
            assert_eq!(rt; got.as_str(), want, "{input}");
        }
    }
    Ok(())
}

#[test]
fn cardinalities_have_bounds_and_literals(rt: HostRuntime) -> Result<(), Fail> {
    for (input, want) in [
        ("p knf 2 1\nk 1 1 2 0\n", "Knf 2 1; at least 1 of 1 2; end"),
        (
            "p inccnf\nk 0002\nc 7\n1 -1\n1 0 k 0 0 a 0",
            "Inc 0 0; at least 2 of 1 -1 1; at least 0 of; query; end",
        ),
        (
            "p knf 3 1\nk\nc 5\n4611686018427387904 3 0\n1 0\n",
            "Knf 3 1; at least 4611686018427387904 of 3; clause 1; end",
        ),
        ("p knf 3 1\n", "Knf 3 1; end"),
        ("p knf\n4194304 1\n", "line 2: number out of range"),
        ("p knf -3 1\n", "line 1: unexpected word"),
        ("p knf 3\n", "line 1: not closed"),
        ("p cnf 1 1\nk 1 1 0\n", "Cnf 1 1; line 2: unexpected word"),
        ("p knf 1 1\na 1 0\n", "Knf 1 1; line 2: unexpected word"),
        ("p inccnf\nk\n-1 1 0\n", "Inc 0 0; line 3: unexpected word"),
        ("p inccnf\nk x 1 0\n", "Inc 0 0; line 2: unexpected word"),
        ("p inccnf\nk k 1 0\n", "Inc 0 0; line 2: unexpected word"),
        ("p inccnf\nk 1\nk 0\n", "Inc 0 0; line 3: unexpected word"),
        (
            "p inccnf\nk\n4611686018427387905 1 0\n",
            "Inc 0 0; line 3: number out of range",
        ),
        (
            "p inccnf\nk 4194304 1\n4194304 0\n",
            "Inc 0 0; line 3: number out of range",
        ),
        ("p inccnf\nk", "Inc 0 0; line 2: not closed"),
        ("p inccnf\nk 2\n", "Inc 0 0; line 2: not closed"),
        ("p inccnf\nk 2 1\n\n", "Inc 0 0; line 3: not closed"),
    ] {
        for cut in [1usize, 7, 100000] {
            let got = items(rt.alloc(), Heads::All, input, cut, &[])?;
            assert_eq!(rt; got.as_str(), want, "{input}");
        }
    }
    Ok(())
}

#[test]
fn headers_allow_cardinalities_or_not(rt: HostRuntime) -> Result<(), Fail> {
    for (input, want) in [
        ("p inccnf\nk 1 1 0\n", "Inc 0 0; line 2: unexpected word"),
        ("p\nknf 1 0\n", "line 2: header expected"),
        ("p cnf 1 0\n1 0\n", "Cnf 1 0; clause 1; end"),
    ] {
        let got = items(rt.alloc(), Heads::Clauses, input, 7, &[])?;
        assert_eq!(rt; got.as_str(), want, "{input}");
    }
    Ok(())
}

#[test]
fn what_was_read_before_a_fault_is_given(rt: HostRuntime) -> Result<(), Fail> {
    for (heads, want) in [
        (Heads::All, "Inc 0 0; query; read fault"),
        (Heads::Clauses, "Inc 0 0; query; read fault"),
        (Heads::CnfOnly, "line 1: header expected"),
    ] {
        let got = items(rt.alloc(), heads, "p inccnf\na 0\n1 0\n2 0", 4, &[4])?;
        assert_eq!(rt; got.as_str(), want);
    }
    Ok(())
}

#[test]
fn long_reasons_have_texts(rt: HostRuntime) -> Result<(), Fail> {
    assert_eq!(rt; Why::LineTooLong.text(), "line too long");
    assert_eq!(rt; Why::TooManyLiterals.text(), "too many literals");
    assert_eq!(rt; Why::InputTooLong.text(), "input too long");
    Ok(())
}

#[test]
fn words_are_literals_or_not(rt: HostRuntime) -> Result<(), Fail> {
    for (word, number) in [("-5", -5), ("4194303", 4194303), ("0007", 7), ("-01", -1)] {
        match literal_word(word.as_bytes()) {
            LitWord::Literal(lit) => assert_eq!(rt; lit.number(), number, "{word}"),
            _ => return Err(Fail::from("no literal")),
        }
    }
    for (word, want) in [
        ("00", LitWord::Zero),
        ("4194304", LitWord::Large),
        ("-99999999999999999999", LitWord::Large),
        ("-0", LitWord::Other),
        ("+5", LitWord::Other),
        ("", LitWord::Other),
        ("-", LitWord::Other),
        ("5x", LitWord::Other),
    ] {
        assert_eq!(rt; literal_word(word.as_bytes()), want, "{word}");
    }
    for (word, want) in [
        ("007", PlainWord::Value(7)),
        ("10", PlainWord::Value(10)),
        ("11", PlainWord::Large),
        ("99999999999999999999999", PlainWord::Large),
        ("-3", PlainWord::Other),
        ("", PlainWord::Other),
    ] {
        assert_eq!(rt; plain_word(word.as_bytes(), 10), want, "{word}");
    }
    Ok(())
}

// The words of an input, each with its line.
fn words(alloc: Global, input: &str) -> Result<String, Fail> {
    let mut source = MemSource::new(alloc, input.as_bytes(), 3, &[])?;
    let mut reader = WordReader::new(alloc)?;
    let mut text = String::new(alloc);
    for _ in 0..20u32 {
        if reader.is_done() {
            break;
        }
        match reader.next(&mut source) {
            Ok(WordGot::Word(line)) => {
                let size = reader.text().len();
                write!(text, "{line}:{size} ")?;
            }
            Ok(WordGot::End(line)) => write!(text, "end {line}")?,
            Err(_) => text.push_str("stop")?,
        }
    }
    Ok(text)
}

#[test]
fn words_of_comments_are_left_out(rt: HostRuntime) -> Result<(), Fail> {
    let got = words(rt.alloc(), "a\nc x\n-5 0\n")?;
    assert_eq!(rt; got.as_str(), "1:1 3:2 3:1 end 3");
    Ok(())
}

#[test]
fn a_clause_longer_than_the_buffer_is_given(rt: HostRuntime) -> Result<(), Fail> {
    let alloc = rt.alloc();
    let mut input = String::new(alloc);
    input.push_str("p inccnf\n")?;
    for _ in 0..20_000u32 {
        input.push_str("-12345 ")?;
    }
    input.push_str("0\n")?;
    // Each literal is written with a blank before it.
    let got = items(alloc, Heads::All, input.as_str(), 100_000, &[])?;
    assert!(rt; got.len() >= 140_000);
    Ok(())
}
