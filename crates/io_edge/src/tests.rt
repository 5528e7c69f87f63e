//! Sources and sinks that cut and fail, lines however they come, one that is longer than the buffer, and numbers joined by blanks.
use crate::lines::{LineGot, LineReader, LineStop};
use crate::memory::{MemSink, MemSource};
use crate::outside::{Failed, Sink, Source, write_all};
use crate::wrapping::write_wrapped;
use std::test::Fail;

#[test]
fn sources_cut_and_fail(rt: HostRuntime) -> Result<(), Fail> {
    let mut source = MemSource::new(rt.alloc(), b"ab", 1, &[1])?;
    let mut buf = [0u8; 4];
    assert_eq!(rt; source.read(&mut buf), Ok(1));
    assert_eq!(rt; source.read(&mut buf), Err(Failed));
    assert_eq!(rt; source.rest(), b"b".as_slice());
    assert_eq!(rt; source.read(&mut buf), Ok(1));
    assert_eq!(rt; source.read(&mut buf), Ok(0));
    Ok(())
}

#[test]
fn sinks_cut_and_fail(rt: HostRuntime) -> Result<(), Fail> {
    for (room, cut, fail, answer, written) in [
        (10usize, 1usize, 9u64, Ok(()), "text"),
        (10, 3, 1, Err(Failed), "tex"),
        (2, 3, 9, Err(Failed), "te"),
    ] {
        let mut sink = MemSink::new(rt.alloc(), room, cut, &[fail])?;
        assert_eq!(rt; write_all(&mut sink, b"text"), answer);
        assert_eq!(rt; sink.written(), written.as_bytes());
    }
    let mut full = MemSink::new(rt.alloc(), 0, 1, &[])?;
    assert_eq!(rt; full.write(b"x"), Err(Failed));
    Ok(())
}

#[test]
fn lines_come_with_their_numbers(rt: HostRuntime) -> Result<(), Fail> {
    for cut in [1usize, 100] {
        let mut source = MemSource::new(rt.alloc(), b"a\nb", cut, &[])?;
        let mut reader = LineReader::new(rt.alloc())?;
        let first = reader.next(&mut source);
        assert_eq!(rt; first, Ok(LineGot::Line(1)));
        assert_eq!(rt; reader.line(), b"a".as_slice());
        let second = reader.next(&mut source);
        assert_eq!(rt; second, Ok(LineGot::Line(2)));
        assert_eq!(rt; reader.line(), b"b".as_slice());
        assert!(rt; !reader.is_done());
        let last = reader.next(&mut source);
        assert_eq!(rt; last, Ok(LineGot::End(2)));
        assert_eq!(rt; reader.number(), 2);
        assert!(rt; reader.is_done());
    }
    Ok(())
}

#[test]
fn an_input_may_be_empty_or_broken(rt: HostRuntime) -> Result<(), Fail> {
    let mut source = MemSource::new(rt.alloc(), b"", 1, &[])?;
    let mut reader = LineReader::new(rt.alloc())?;
    assert_eq!(rt; reader.next(&mut source), Ok(LineGot::End(1)));
    let mut broken = MemSource::new(rt.alloc(), b"ab\n", 1, &[1])?;
    let mut of_broken = LineReader::new(rt.alloc())?;
    assert_eq!(rt; of_broken.next(&mut broken), Err(LineStop::ReadFault));
    Ok(())
}

#[test]
fn numbers_are_joined_by_blanks(rt: HostRuntime) -> Result<(), Fail> {
    let mut sink = MemSink::new(rt.alloc(), 1000, 1000, &[])?;
    assert_eq!(rt;
        write_wrapped(&mut sink, b"", &[10, -1_000_000_007]),
        Ok(())
    );
    assert_eq!(rt; sink.written(), b"10 -1000000007 0\n".as_slice());
    Ok(())
}

#[test]
fn a_line_longer_than_the_buffer_is_given(rt: HostRuntime) -> Result<(), Fail> {
    let bytes = vec![in rt.alloc(); b'x'; 200_000]?;
    let mut source = MemSource::new(rt.alloc(), &bytes, 100_000, &[])?;
    let mut reader = LineReader::new(rt.alloc())?;
    assert_eq!(rt; reader.next(&mut source), Ok(LineGot::Line(1)));
    assert_eq!(rt; reader.line().len(), 200_000);
    Ok(())
}
