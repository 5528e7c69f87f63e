//! A buffer of a fixed size, in which lines of text are put together without taking memory.
//!
//! Contracts see it as the list of its bytes. What is pushed has to fit: each call says how much room it needs, and nothing is
//! tested when it runs.
ghost use Rattle.std.specs.Prelude.{◌≡◌, ◌+◌, ◌≤◌, ◌<◌, List, [], ◌∷◌, ◌++◌, length, take, drop, if◌then◌else◌, ◌==◌};
ghost use Rattle.std.specs.Fmt.{decimal, signed_decimal};

use std::marker::Model;

/// The most bytes of a buffer.
pub const ROOM: usize = 4096;

/// A list of at most `ROOM` bytes.
#[derive(Drop)]
pub struct Buffer {
    // the list is the first `len` of these
    bytes: [u8; ROOM],
    // how many bytes the list has
    len: usize,
}

impl Model for Buffer {
    ghost use Rattle.std.specs.Prelude.{ℕ, List, take, ◌≤◌};

    ghost Value = { List ℕ };

    ghost view = { λ s. take s.len s.bytes };

    ghost invariant = { λ s. s.len ≤ 4096 };
}

// The digits of a number stand at the end of a field of twenty bytes, from the answered place on.
fn digits_of(field: &mut [u8; 20], number: u64) -> usize
    ensures within { result ≤ 20 }
    ensures digits { drop result field.new ≡ decimal number }
{
    let mut at = 19usize;
    field[at] = b'0' + (number % 10) as u8;
    let mut rest = number / 10;
    while rest > 0 {
        at -= 1;
        field[at] = b'0' + (rest % 10) as u8;
        rest /= 10;
    }
    at
}

impl Buffer {
    /// An empty buffer.
    pub fn new() -> Buffer
        ensures { result ≡ [] }
    {
        Buffer {
            bytes: [0u8; ROOM],
            len: 0,
        }
    }

    /// The bytes.
    pub fn as_slice(&self) -> &[u8]
        ensures { result.now ≡ self.now }
    {
        &self.bytes[..self.len]
    }

    /// How many bytes there are.
    pub fn len(&self) -> usize
        ensures { result ≡ length self.now }
    {
        self.len
    }

    /// Takes all bytes out.
    pub fn clear(&mut self)
        ensures { self.new ≡ [] }
    {
        self.len = 0;
    }

    /// Appends a byte, for which there is room.
    pub fn push(&mut self, byte: u8)
        requires { length self.old < ROOM }
        ensures { self.new ≡ self.old ++ byte ∷ [] }
    {
        self.bytes[self.len] = byte;
        self.len += 1;
    }

    /// Appends bytes, for which there is room.
    pub fn push_all(&mut self, bytes: &[u8])
        requires { length self.old + length bytes.now ≤ ROOM }
        ensures { self.new ≡ self.old ++ bytes.now }
    {
        for byte in bytes {
            self.push(*byte);
        }
    }

    /// Appends a number of at most twenty digits as decimal, for which there is room.
    pub fn push_decimal(&mut self, number: u64)
        requires { length self.old + 20 ≤ ROOM }
        ensures text { self.new ≡ self.old ++ decimal number }
        ensures size { length self.new ≤ length self.old + 20 }
    {
        let mut field = [b'0'; 20];
        let at = digits_of(&mut field, number);
        self.push_all(&field[at..]);
    }

    /// Appends a number with its sign as decimal, for which there is room.
    pub fn push_number(&mut self, number: i32)
        requires { length self.old + 21 ≤ ROOM }
        ensures text { self.new ≡ self.old ++ signed_decimal number }
        ensures size { length self.new ≤ length self.old + 21 }
    {
        if number < 0 {
            self.push(b'-');
            self.push_decimal(number.unsigned_abs() as u64);
        } else {
            self.push_decimal(number as u64);
        }
    }
}
