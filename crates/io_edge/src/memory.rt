//! Sources and sinks in memory.
ghost use Rattle.std.specs.Prelude.{◌≡◌, ◌<◌, ◌≤◌, ◌↔◌, ◌⊎◌, min, length, take, OnErr, IfOk, IsErr, Some, Contains};
ghost use Rattle.std.specs.Io.{ReadsAtMost};
ghost use Rattle.std.specs.Io.KnownBytes.{ReadConsumes, WriteAppends};
ghost use Rattle.io_edge.specs.Causes.{HasCause};
ghost use Rattle.io_edge.specs.Memory.{source_of, source_gave, source_failed, sink_of, sink_took, sink_failed};

use crate::outside::{Failed, Sink, Source};
use sat_model::memory::Memory;
use std::alloc::Global;
use std::marker::Model;

/// A source in memory. It tells its bytes, and fails at the calls that are named.
#[derive(Drop)]
pub struct MemSource {
    // All its bytes.
    bytes: Vec<u8>,
    // How many of them were given.
    at: usize,
    // The most bytes that a read gives.
    cut: usize,
    // The numbers of the reads that fail, counted from 0.
    fails: Vec<u64>,
    // How many reads there were.
    calls: u64,
    // How many of them failed.
    faults: u64,
}

impl Model for MemSource {
    ghost use Rattle.std.specs.Prelude.{◌≤◌, ◌<◌, drop, vec_len};
    ghost use Rattle.io_edge.specs.Memory.{MemorySource};

    ghost Value = { MemorySource };

    ghost view = { λ s. record { rest = drop s.at s.bytes.items; cut = s.cut; fails = s.fails.items; calls = s.calls; faults = s.faults } };

    ghost invariant = { λ s. (s.at ≤ vec_len s.bytes) × (0 < s.cut) };
}

impl MemSource {
    /// A source of these bytes. Each read gives as many as `cut`, the buffer and the rest allow, and `cut` is at least 1. The
    /// reads whose numbers stand in `fails`, counted from 0, fail.
    pub fn new(alloc: Global, bytes: &[u8], cut: usize, fails: &[u64]) -> Result<MemSource, Memory>
        requires { 0 < cut }
        ensures { IfOk result (λ s. s ≡ source_of bytes.now cut fails.now) }
    {
        Ok(MemSource {
            bytes: bytes.to_vec(alloc)?,
            at: 0,
            cut,
            fails: fails.to_vec(alloc)?,
            calls: 0,
            faults: 0,
        })
    }

    /// The bytes still to come.
    pub fn rest(&self) -> &[u8]
        ensures { result.now ≡ self.now.rest }
    {
        &self.bytes[self.at..]
    }
}

// Copies to the front of the buffer.
fn copy_front(buf: &mut [u8], from: &[u8])
    requires { length from.now ≤ length buf.old }
    ensures { take (length from.now) buf.new ≡ from.now }
{
    buf[..from.len()].copy_from_slice(from);
}

impl Source for MemSource {
    ghost left = { λ s. Some s.rest };

    ghost faults = { λ s. s.faults };

    /// Gives as many bytes as may be, or fails at a call whose number was named.
    fn read(&mut self, buf: &mut [u8]) -> Result<usize, Failed>
        ensures bound { ReadsAtMost result buf.new }
        ensures bytes { ReadConsumes (Some self.old.rest) (Some self.new.rest) result buf.new }
        ensures cause { HasCause self.old.faults self.new.faults result }

        ensures fails { IsErr result ↔ Contains self.old.fails self.old.calls }
        ensures count { IfOk result (λ n. n ≡ min self.old.cut (min (length buf.old) (length self.old.rest))) }
        ensures gave { IfOk result (λ n. self.new ≡ source_gave self.old n) }
        ensures failed { OnErr result (self.new ≡ source_failed self.old) }
    {
        let call = self.calls;
        self.calls = self.calls.saturating_add(1);
        if self.fails.contains(&call) {
            self.faults = self.faults.saturating_add(1);
            return Err(Failed);
        }
        let count = self.cut.min(buf.len().min(self.bytes.len() - self.at));
        copy_front(buf, &self.bytes[self.at..self.at + count]);
        self.at += count;
        Ok(count)
    }
}

/// A sink in memory. It tells what was written, and fails at the calls that are named and where no room is left.
#[derive(Drop)]
pub struct MemSink {
    // The bytes that it took.
    bytes: Vec<u8>,
    // How many more it takes.
    room: usize,
    // The most bytes that a write takes.
    cut: usize,
    // The numbers of the writes that fail, counted from 0.
    fails: Vec<u64>,
    // How many writes there were.
    calls: u64,
    // How many of them failed.
    faults: u64,
}

impl Model for MemSink {
    ghost use Rattle.std.specs.Prelude.{◌+◌, ◌≤◌, ◌<◌, vec_len, vec_capacity};
    ghost use Rattle.io_edge.specs.Memory.{MemorySink};

    ghost Value = { MemorySink };

    ghost view = { λ s. record { written = s.bytes.items; room = s.room; cut = s.cut; fails = s.fails.items; calls = s.calls; faults = s.faults } };

    ghost invariant = { λ s. (vec_len s.bytes + s.room ≤ vec_capacity s.bytes) × (0 < s.cut) };
}

impl MemSink {
    /// A sink with room for so many bytes, whose memory is taken at once. Each write takes as many bytes as `cut`, the piece
    /// and the room left allow, and `cut` is at least 1. The writes whose numbers stand in `fails`, counted from 0, fail.
    pub fn new(alloc: Global, room: usize, cut: usize, fails: &[u64]) -> Result<MemSink, Memory>
        requires { 0 < cut }
        ensures { IfOk result (λ s. s ≡ sink_of room cut fails.now) }
    {
        Ok(MemSink {
            bytes: Vec::with_capacity(alloc, room)?,
            room,
            cut,
            fails: fails.to_vec(alloc)?,
            calls: 0,
            faults: 0,
        })
    }

    /// The bytes taken so far.
    pub fn written(&self) -> &[u8]
        ensures { result.now ≡ self.now.written }
    {
        &self.bytes
    }
}

impl Sink for MemSink {
    ghost written = { λ s. Some s.written };

    ghost faults = { λ s. s.faults };

    /// Takes as many bytes as may be, or fails at a call whose number was named and where no room is left.
    fn write(&mut self, piece: &[u8]) -> Result<usize, Failed>
        requires { 0 < length piece.now }
        ensures some { IfOk result (λ n. 0 < n) }
        ensures bound { IfOk result (λ n. n ≤ length piece.now) }
        ensures bytes { WriteAppends (Some self.old.written) (Some self.new.written) result piece.now }
        ensures cause { HasCause self.old.faults self.new.faults result }

        ensures fails { IsErr result ↔ (Contains self.old.fails self.old.calls ⊎ (self.old.room ≡ 0)) }
        ensures count { IfOk result (λ n. n ≡ min self.old.cut (min (length piece.now) self.old.room)) }
        ensures took { IfOk result (λ n. self.new ≡ sink_took self.old piece.now n) }
        ensures failed { OnErr result (self.new ≡ sink_failed self.old) }
    {
        let call = self.calls;
        self.calls = self.calls.saturating_add(1);
        if self.room == 0 || self.fails.contains(&call) {
            self.faults = self.faults.saturating_add(1);
            return Err(Failed);
        }
        let count = self.cut.min(piece.len().min(self.room));
        if let Err(_) = self.bytes.extend_from_slice(&piece[..count]) {
            unreachable!();
        }
        self.room -= count;
        Ok(count)
    }
}
