//! Lists of numbers, written in lines of twenty.
//!
//! The numbers come one by one, and stand on an open line until it has twenty; then the next one is begun behind it. Some three
//! thousand bytes are written at once, since a call of the system costs more than a line. So a list of any length is written
//! without a text of its size, and no memory is taken. A 0 ends the list, and stands on a line of its own where the numbers fill
//! their lines.
//!
//! What makes it right is one equation: what waits with an open line, and then the list from that place on, is what was still to come
//! before. The list as it comes from number to number (`flow`) is the list cut into runs of twenty (`wrap`), by one lemma.
ghost use Rattle.std.specs.Prelude.{◌≡◌, ◌+◌, ◌≤◌, ◌<◌, List, [], ◌∷◌, ◌++◌, length, All, ◌≢◌, pos, OnOk, OnErr};
ghost use Rattle.std.specs.Io.KnownBytes.{Appends};
ghost use Rattle.io_edge.specs.Causes.{HasCause};
ghost use Rattle.io_edge.specs.Told.{AppendsFront};
ghost use Rattle.io_edge.specs.Wrapped.{wrap, lead, TakesNumber, FailsAt, still_to_come};

use crate::buffer::Buffer;
use crate::outside::{Failed, Sink, write_all};
use std::marker::Model;

/// How many numbers stand on a line.
pub const RUN: usize = 20;

// The most bytes of whole lines that wait: behind them there is room for one more line.
const WAITING: usize = 3200;

/// The line that is not full yet, behind whole lines that are not written yet.
#[derive(Drop)]
pub struct OpenLine {
    // the bytes of all these so far
    bytes: Buffer,
    // how many numbers stand on the open line, fewer than `RUN`
    count: usize,
}

impl Model for OpenLine {
    ghost use Rattle.std.specs.Prelude.{◌≤◌, ◌<◌, ◌+◌, ◌*◌, length};
    ghost use Rattle.io_edge.specs.Wrapped.{LineSoFar};

    ghost Value = { LineSoFar };

    ghost view = { λ s. record { bytes = s.bytes; count = s.count } };

    ghost invariant = { λ s. (s.count < 20) × (length s.bytes ≤ 3200 + 40 * s.count) };
}

// Pushes what stands before a number where so many stand on the line.
fn push_lead(line: &mut Buffer, prefix: &[u8], count: usize)
    requires prefix { length prefix.now ≤ 16 }
    requires room { length line.old ≤ 4000 }
    ensures text { line.new ≡ line.old ++ lead prefix.now count }
    ensures size { length line.new ≤ length line.old + 16 }
{
    if count == 0 {
        line.push_all(prefix);
    } else {
        line.push(b' ');
    }
}

impl OpenLine {
    /// A line with nothing on it.
    pub fn new() -> OpenLine
        ensures { result ≡ record { bytes = []; count = 0 } }
    {
        OpenLine {
            bytes: Buffer::new(),
            count: 0,
        }
    }

    /// A line behind a text of at most 64 bytes, which is written with it.
    pub fn after(text: &[u8]) -> OpenLine
        requires { length text.now ≤ 64 }
        ensures { result ≡ record { bytes = text.now; count = 0 } }
    {
        let mut bytes = Buffer::new();
        bytes.push_all(text);
        OpenLine { bytes, count: 0 }
    }

    /// Takes the next number, behind a prefix of at most 16 bytes where it is the first of its line. Where it is the last, and many
    /// lines wait, they are written. After `Failed` a front of what was still to come was written.
    pub fn push<K: Sink>(&mut self, sink: &mut K, prefix: &[u8], number: i32) -> Result<(), Failed>
        requires { length prefix.now ≤ 16 }
        ensures ok { OnOk result (TakesNumber prefix.now number self.old self.new (K.written sink.old) (K.written sink.new)) }
        ensures err { OnErr result (FailsAt prefix.now number self.old (K.written sink.old) (K.written sink.new)) }
        ensures cause { HasCause (K.faults sink.old) (K.faults sink.new) result }
    {
        push_lead(&mut self.bytes, prefix, self.count);
        self.bytes.push_number(number);
        if self.count < RUN - 1 {
            self.count += 1;
            return Ok(());
        }
        self.bytes.push(b'\n');
        self.count = 0;
        if self.bytes.len() <= WAITING {
            return Ok(());
        }
        let wrote = write_all(sink, self.bytes.as_slice());
        self.bytes.clear();
        wrote
    }

    /// Writes what waits, and the 0 that ends the list.
    pub fn finish<K: Sink>(&mut self, sink: &mut K, prefix: &[u8]) -> Result<(), Failed>
        requires { length prefix.now ≤ 16 }
        ensures ok { OnOk result (Appends (K.written sink.old) (K.written sink.new) (still_to_come prefix.now self.old [])) }
        ensures err { OnErr result (AppendsFront (K.written sink.old) (K.written sink.new) (still_to_come prefix.now self.old [])) }
        ensures cause { HasCause (K.faults sink.old) (K.faults sink.new) result }
    {
        push_lead(&mut self.bytes, prefix, self.count);
        self.bytes.push(b'0');
        self.bytes.push(b'\n');
        let wrote = write_all(sink, self.bytes.as_slice());
        self.bytes.clear();
        self.count = 0;
        wrote
    }
}

/// Writes numbers and then a 0, twenty on a line, each line behind a prefix of at most 16 bytes; no number is 0. It takes no
/// memory. `Failed` comes only where the sink's count of faults rose; then a prefix of the text was written.
pub fn write_wrapped<K: Sink>(sink: &mut K, prefix: &[u8], numbers: &[i32]) -> Result<(), Failed>
    requires prefix { length prefix.now ≤ 16 }
    requires numbers { All (λ number. number ≢ pos 0) numbers.now }
    ensures ok { OnOk result (Appends (K.written sink.old) (K.written sink.new) (wrap prefix.now numbers.now)) }
    ensures err { OnErr result (AppendsFront (K.written sink.old) (K.written sink.new) (wrap prefix.now numbers.now)) }
    ensures cause { HasCause (K.faults sink.old) (K.faults sink.new) result }
{
    let mut line = OpenLine::new();
    for number in numbers {
        line.push(sink, prefix, *number)?;
    }
    line.finish(sink, prefix)
}
