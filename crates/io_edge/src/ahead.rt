//! Bytes that were read from a source and not yet used.
ghost use Rattle.std.specs.Prelude.{◌≡◌, ◌+◌, ◌<◌, ◌≤◌, ◌↔◌, ℕ, List, [], ◌∷◌, ◌++◌, length, take, false, OnOk, OnErr, IfOk, IfSome, IfNone, IsTrue, slice_index};
ghost use Rattle.std.specs.Io.KnownBytes.{Consumes, IsAtEnd, Keeps};
ghost use Rattle.io_edge.specs.Causes.{HasCause};
ghost use Rattle.io_edge.specs.Lines.{NoLf};

use crate::outside::{Failed, Source};
use memchr::memchr;
use sat_model::memory::Memory;
use std::alloc::Global;
use std::marker::Model;

/// How many bytes are read at once, at most.
pub const AHEAD: usize = 65_536;

/// Bytes that were read and not yet used. Contracts see the list of them.
#[derive(Drop)]
pub struct Ahead {
    // The buffer, `AHEAD` bytes long.
    buf: Vec<u8>,
    // Where in it the bytes begin that were not yet used.
    start: usize,
    // Where they end.
    end: usize,
}

impl Model for Ahead {
    ghost use Rattle.std.specs.Prelude.{ℕ, List, slice_range, vec_len, ◌≡◌, ◌≤◌};

    ghost Value = { List ℕ };

    ghost view = { λ s. slice_range s.buf.items s.start s.end };

    ghost invariant = { λ s. (s.start ≤ s.end) × (s.end ≤ vec_len s.buf) × (vec_len s.buf ≡ 65536) };
}

// The place of the first LF.
fn find_lf(bytes: &[u8]) -> Option<usize>
    ensures within { IfSome result (λ i. i < length bytes.now) }
    ensures found { IfSome result (λ i. slice_index bytes.now i ≡ 10) }
    ensures first { IfSome result (λ i. NoLf (take i bytes.now)) }
    ensures none { IfNone result (NoLf bytes.now) }
{
    memchr(b'\n', bytes)
}

impl Ahead {
    /// An empty buffer of `AHEAD` bytes.
    pub fn new(alloc: Global) -> Result<Ahead, Memory>
        ensures { IfOk result (λ ahead. ahead ≡ []) }
    {
        Ok(Ahead {
            buf: vec![in alloc; 0u8; AHEAD]?,
            start: 0,
            end: 0,
        })
    }

    /// Whether nothing is left.
    pub fn is_empty(&self) -> bool
        ensures { IsTrue result ↔ (self.now ≡ []) }
    {
        self.start == self.end
    }

    /// Moves the bytes before the first LF to the end of the line, and takes that LF: the answer is true. Where there is no
    /// LF, all bytes are moved: the answer is false. After `Memory` nothing was moved.
    pub fn take_line(&mut self, line: &mut Vec<u8>) -> Result<bool, Memory>
        ensures found { IfOk result (λ found. IsTrue found → (part : List ℕ) × NoLf part × (self.old ≡ part ++ 10 ∷ self.new) × (line.new.items ≡ line.old.items ++ part)) }
        ensures none { IfOk result (λ found. found ≡ false → NoLf self.old × (self.new ≡ []) × (line.new.items ≡ line.old.items ++ self.old)) }
        ensures size { length line.new.items ≤ length line.old.items + 65536 }
        ensures err { OnErr result ((self.new ≡ self.old) × (line.new.items ≡ line.old.items)) }
    {
        let bytes = &self.buf[self.start..self.end];
        match find_lf(bytes) {
            Some(n) => {
                line.extend_from_slice(&bytes[..n])?;
                self.start += n + 1;
                Ok(true)
            }
            None => {
                line.extend_from_slice(bytes)?;
                self.start = self.end;
                Ok(false)
            }
        }
    }

    /// Reads once. Nothing may be left from before. At the end of the input nothing is there afterwards, nor after `Failed`.
    pub fn fill<S: Source>(&mut self, source: &mut S) -> Result<(), Failed>
        requires { self.old ≡ [] }
        ensures ok { OnOk result (Consumes (S.left source.old) (S.left source.new) self.new) }
        ensures end { OnOk result (self.new ≡ [] → IsAtEnd (S.left source.new)) }
        ensures err { OnErr result (Keeps (S.left source.old) (S.left source.new)) }
        ensures empty { OnErr result (self.new ≡ []) }
        ensures size { length self.new ≤ 65536 }
        ensures cause { HasCause (S.faults source.old) (S.faults source.new) result }
    {
        self.start = 0;
        self.end = 0;
        self.end = source.read(&mut self.buf)?;
        Ok(())
    }
}
