//! Standard input and output over a reader and a writer that give or take a part, fail once, or give or take nothing.

use super::{StdSink, StdSource};
use crate::run::run;
use crate::status::Status;
use io_edge::outside::{Failed, Sink, Source, write_all};
use std::alloc::Global;
use std::io::{self, ErrorKind, Read, Write};
use std::test::Fail;

// Gives at most three bytes at a call, and fails at one.
#[derive(Drop)]
struct Choppy {
    rest: &'static [u8],
    calls: u32,
    failing: u32,
}

impl Read for Choppy {
    fn read(&mut self, buf: &mut [u8]) -> io::Result<usize> {
        let call = self.calls;
        self.calls = self.calls.saturating_add(1);
        if call == self.failing {
            return Err(io::Error::from(ErrorKind::ConnectionReset));
        }
        let count = self.rest.len().min(buf.len()).min(3);
        buf[..count].copy_from_slice(&self.rest[..count]);
        self.rest = &self.rest[count..];
        Ok(count)
    }
}

fn reader_of(text: &'static str, failing: u32) -> Choppy {
    Choppy {
        rest: text.as_bytes(),
        calls: 0,
        failing,
    }
}

// What a writer does wrong.
#[derive(Clone, Copy, Debug, PartialEq, Eq)]
enum Trouble {
    // It fails.
    Fails,
    // It takes no byte.
    TakesNone,
    // It takes bytes, and then fails to hand them on.
    HoldsBack,
}

// Takes at most three bytes at a call, and is in trouble at one.
#[derive(Drop)]
struct Narrow {
    taken: Vec<u8>,
    calls: u32,
    failing: u32,
    trouble: Trouble,
}

impl Narrow {
    fn new(alloc: Global, failing: u32, trouble: Trouble) -> Narrow {
        Narrow {
            taken: Vec::new(alloc),
            calls: 0,
            failing,
            trouble,
        }
    }
}

impl Write for Narrow {
    fn write(&mut self, buf: &[u8]) -> io::Result<usize> {
        self.calls = self.calls.saturating_add(1);
        if self.calls == self.failing && self.trouble == Trouble::Fails {
            return Err(io::Error::from(ErrorKind::BrokenPipe));
        }
        if self.calls == self.failing && self.trouble == Trouble::TakesNone {
            return Ok(0);
        }
        let count = buf.len().min(3);
        self.taken.extend_from_slice(&buf[..count])?;
        Ok(count)
    }

    fn flush(&mut self) -> io::Result<()> {
        if self.calls == self.failing && self.trouble == Trouble::HoldsBack {
            return Err(io::Error::from(ErrorKind::BrokenPipe));
        }
        Ok(())
    }
}

#[test]
fn a_failed_read_is_not_the_end(rt: HostRuntime) -> Result<(), Fail> {
    let mut source = StdSource::new(reader_of("text", 1));
    let mut buf = [0u8; 8];
    assert_eq!(rt; source.read(&mut buf), Ok(3));
    assert_eq!(rt; &buf[..3], b"tex".as_slice());
    assert_eq!(rt; source.read(&mut buf), Err(Failed));
    assert_eq!(rt; source.read(&mut buf), Ok(1));
    assert_eq!(rt; &buf[..1], b"t".as_slice());
    assert_eq!(rt; source.read(&mut buf), Ok(0));
    Ok(())
}

#[test]
fn a_short_write_is_not_the_whole(rt: HostRuntime) -> Result<(), Fail> {
    let mut sink = StdSink::new(Narrow::new(rt.alloc(), 0, Trouble::Fails));
    assert_eq!(rt; sink.write(b"a text"), Ok(3));
    assert_eq!(rt; write_all(&mut sink, b"ext of many bytes"), Ok(()));
    assert_eq!(rt;
        sink.writer.taken.as_slice(),
        b"a text of many bytes".as_slice()
    );
    Ok(())
}

#[test]
fn a_failed_write_is_told(rt: HostRuntime) -> Result<(), Fail> {
    for (trouble, written) in [
        (Trouble::Fails, "a t"),
        (Trouble::TakesNone, "a t"),
        (Trouble::HoldsBack, "a text"),
    ] {
        let mut sink = StdSink::new(Narrow::new(rt.alloc(), 2, trouble));
        assert_eq!(rt; write_all(&mut sink, b"a text of many bytes"), Err(Failed));
        assert_eq!(rt; sink.writer.taken.as_slice(), written.as_bytes());
    }
    Ok(())
}

#[test]
fn faults_of_standard_streams_end_a_run(rt: HostRuntime) -> Result<(), Fail> {
    let alloc = rt.alloc();
    let reply = "s SATISFIABLE\nv 1 0\n";
    // The input of 17 bytes takes six reads, and its end one more; the reply takes seven writes.
    for (read, write, trouble, want, code) in [
        (9u32, 9u32, Trouble::Fails, reply, 10u8),
        (0, 9, Trouble::Fails, "", 3),
        (5, 9, Trouble::Fails, "", 3),
        (6, 9, Trouble::Fails, reply, 3),
        (9, 7, Trouble::Fails, "s SATISFIABLE\nv 1 ", 4),
        (9, 7, Trouble::TakesNone, "s SATISFIABLE\nv 1 ", 4),
        (9, 7, Trouble::HoldsBack, reply, 4),
    ] {
        let mut source = StdSource::new(reader_of("p inccnf\n1 0\na 0\n", read));
        let mut sink = StdSink::new(Narrow::new(alloc, write, trouble));
        let status = run(alloc, &[], &mut source, &mut sink);
        assert_eq!(rt; status, Status { code });
        assert_eq!(rt; sink.writer.taken.as_slice(), want.as_bytes());
    }
    Ok(())
}
