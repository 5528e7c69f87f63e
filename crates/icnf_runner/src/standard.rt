//! Standard input, standard output and the words of the command line.
//!
//! The run is proved over any source and any sink that count their faults and tell what they gave and took. Here std's readers and
//! writers become such: each fault is counted, none is taken for the end of the input, and what was written is what the writer took.
//! The operating system tells nothing of its bytes, so what these two say is said over what the reader or the writer under them tells.
ghost use Rattle.std.specs.Prelude.{◌≡◌, ◌<◌, ◌≤◌, None, length, take, IfOk, OnOk, OnErr};
ghost use Rattle.std.specs.Io.{ReadsAtMost};
ghost use Rattle.std.specs.Io.KnownBytes.{ReadConsumes, WriteAppends, Appends};
ghost use Rattle.io_edge.specs.Causes.{HasCause, next_count};

use io_edge::outside::{Failed, Sink, Source};
use sat_model::memory::Memory;
use std::env;
use std::io::{self, ErrorKind, Read, Write};

#[cfg(test)]
mod tests;

/// A source over a reader, as standard input. It tells no bytes, and counts the reads that failed.
#[derive(Drop)]
pub struct StdSource<R: Read + Drop> {
    // What is read.
    reader: R,
    // How many reads failed.
    faults: u64,
}

impl<R: Read + Drop> StdSource<R> {
    /// A source that has not failed yet.
    pub fn new(reader: R) -> StdSource<R>
        ensures { result.faults ≡ 0 }
    {
        StdSource { reader, faults: 0 }
    }
}

impl<R: Read + Drop> Source for StdSource<R> {
    ghost left = { λ _. None };

    ghost faults = { λ s. s.faults };

    fn read(&mut self, buf: &mut [u8]) -> Result<usize, Failed>
        requires { 0 < length buf.old }
        ensures bound { ReadsAtMost result buf.new }
        ensures bytes { ReadConsumes None None result buf.new }
        ensures cause { HasCause self.old.faults self.new.faults result }

        // The count is raised at each fault alone.
        ensures counted { OnErr result (self.new.faults ≡ next_count self.old.faults) }
        ensures kept { OnOk result (self.new.faults ≡ self.old.faults) }

        // What the reader under it tells was given.
        ensures gave { ReadConsumes (R.remaining self.old.reader) (R.remaining self.new.reader) result buf.new }
    {
        match self.reader.read(buf) {
            Ok(count) => Ok(count),
            Err(_) => {
                self.faults = self.faults.saturating_add(1);
                Err(Failed)
            }
        }
    }
}

/// A sink over a writer, as standard output, that is flushed after each write. It tells no bytes, and counts the writes that
/// failed. A write that takes no byte has failed.
#[derive(Drop)]
pub struct StdSink<W: Write + Drop> {
    // What is written to.
    writer: W,
    // How many writes failed.
    faults: u64,
}

impl<W: Write + Drop> StdSink<W> {
    /// A sink that has not failed yet.
    pub fn new(writer: W) -> StdSink<W>
        ensures { result.faults ≡ 0 }
    {
        StdSink { writer, faults: 0 }
    }
}

// Writes once, and flushes.
fn put<W: Write>(writer: &mut W, piece: &[u8]) -> io::Result<usize>
    ensures bound { IfOk result (λ count. count ≤ length piece.now) }
    ensures took { IfOk result (λ count. Appends (W.contents writer.old) (W.contents writer.new) (take count piece.now)) }
{
    let count = writer.write(piece)?;
    writer.flush()?;
    Ok(count)
}

impl<W: Write + Drop> Sink for StdSink<W> {
    ghost written = { λ _. None };

    ghost faults = { λ s. s.faults };

    fn write(&mut self, piece: &[u8]) -> Result<usize, Failed>
        requires { 0 < length piece.now }
        ensures some { IfOk result (λ count. 0 < count) }
        ensures bound { IfOk result (λ count. count ≤ length piece.now) }
        ensures bytes { WriteAppends None None result piece.now }
        ensures cause { HasCause self.old.faults self.new.faults result }

        // The count is raised at each fault alone.
        ensures counted { OnErr result (self.new.faults ≡ next_count self.old.faults) }
        ensures kept { OnOk result (self.new.faults ≡ self.old.faults) }

        // What the writer under it tells was written.
        ensures took { IfOk result (λ count. Appends (W.contents self.old.writer) (W.contents self.new.writer) (take count piece.now)) }
    {
        match put(&mut self.writer, piece) {
            Ok(count) if count > 0 => Ok(count),
            _ => {
                self.faults = self.faults.saturating_add(1);
                Err(Failed)
            }
        }
    }
}

/// The words of the command line without the program's name. Where they are not all text they are one empty word, which is
/// accepted nowhere. No clause can say what the system passes.
pub fn words_of(rt: &HostRuntime) -> Result<Vec<String>, Memory> {
    let mut words = Vec::new(rt.alloc());
    match env::args(rt) {
        Ok(args) => {
            for word in args.skip(1) {
                words.push(word)?;
            }
        }
        Err(e) if e.kind() == ErrorKind::OutOfMemory => return Err(Memory),
        Err(_) => words.push(String::new(rt.alloc()))?,
    }
    Ok(words)
}
