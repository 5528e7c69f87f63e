//! The lines of a source. Each line ends at an LF, which is not part of it; the last line may lack its LF.
//!
//! A source gives bytes in pieces of any length. What was read and not used lies ahead (`Ahead`, one buffer); a line is gathered from it
//! piece by piece up to the next LF, so that each byte is looked at once and copied once, whatever the pieces are. The line before is
//! forgotten then: memory grows with the longest line alone.
//!
//! A limit is met at the very byte that is one too many: what was gathered is counted before more is read, so a line or an input without
//! end is refused, and never read to its end. After a stop the reader is done. What the bytes mean, comments among
//! them, is not known here.
ghost use Rattle.std.specs.Prelude.{◌≡◌, ◌≢◌, ◌+◌, ◌<◌, ◌≤◌, ◌↔◌, ◌⊎◌, ◌^◌, length, if◌then◌else◌, ◌∷◌, Some, IfNone, ℕ, max, List, [], OnOk, OnErr, IfOk, IfErr, IsTrue, IsErrOf, Bool, true, false, Contains};
ghost use Rattle.std.specs.Io.KnownBytes.{prepend_known, IsAtEnd, Keeps};
ghost use Rattle.sat_terms.specs.Limits.{max_line, max_input};
ghost use Rattle.io_edge.specs.Causes.{HasCause, Rose};
ghost use Rattle.io_edge.specs.Told.{WhereTold};
ghost use Rattle.io_edge.specs.Lines.{IsTooLong, IsTooMuch};
ghost use Rattle.io_edge.specs.Reading.{Takes, Finishes, fresh, end_of, rest_of, Answers, is_last, is_read_fault, is_broken_by_fault, IsEnd, stop_for};

use crate::ahead::Ahead;
use crate::outside::Source;
use sat_model::memory::Memory;
use std::alloc::Global;
use std::marker::Model;

/// The most bytes of a line, its LF not counted.
pub const MAX_LINE: usize = 16_777_216;

/// The most bytes of the input.
pub const MAX_INPUT: u64 = 1_099_511_627_776;

/// A line, or the end of the input.
#[derive(Clone, Copy, Debug, PartialEq, Eq)]
pub enum LineGot {
    /// The number of the line, from 1.
    Line(u64),
    /// The number of the last line, 1 for an empty input.
    End(u64),
}

/// Why no line is given.
#[derive(Clone, Copy, Debug, PartialEq, Eq)]
pub enum LineStop {
    /// The source failed.
    ReadFault,
    /// The line of this number has more than `MAX_LINE` bytes before its LF.
    TooLong(u64),
    /// The byte that is one too many for the input stands on the line of this number.
    TooMuch(u64),
    /// There was no memory.
    Memory,
}

/// Reads the lines of a source.
#[derive(Drop)]
pub struct LineReader {
    // What was read from the source and not yet used.
    ahead: Ahead,
    // The bytes of the line that the last call gave, without its LF.
    line: Vec<u8>,
    // How many lines were given.
    number: u64,
    // How many bytes these lines have, with their LFs.
    used: u64,
    // Whether the source answered that its end was reached.
    ended: bool,
    // Whether an end or a stop was answered.
    done: bool,
}

impl Model for LineReader {
    ghost use Rattle.std.specs.Prelude.{◌≤◌, ◌≡◌, true, []};
    ghost use Rattle.io_edge.specs.Reading.{LineState};

    ghost Value = { LineState };

    ghost view = { λ s. record { ahead = s.ahead; line = s.line.items; number = s.number; used = s.used; ended = s.ended; done = s.done } };

    ghost invariant = { λ s. (s.number ≤ s.used) × (s.used ≤ 1099511627776) × (s.ended ≡ true → s.ahead ≡ []) };
}

impl LineReader {
    /// A reader that has read nothing. It takes the memory of its buffer, 65,536 bytes.
    pub fn new(alloc: Global) -> Result<LineReader, Memory>
        ensures { IfOk result (λ reader. reader ≡ fresh) }
    {
        Ok(LineReader {
            ahead: Ahead::new(alloc)?,
            line: Vec::new(alloc),
            number: 0,
            used: 0,
            ended: false,
            done: false,
        })
    }

    /// Reads the next line of a source, whose bytes `line()` then gives. An answer other than a line is the last one: the
    /// reader is done, and is not to be asked again. Each call is to be made with the same source.
    ///
    /// A source is read only where no LF was read ahead, and never again once it answered that its end was reached.
    ///
    /// `ReadFault` comes only where the source's count of faults rose. `TooLong` and `TooMuch` come exactly where the line
    /// passes that limit, and nothing else stopped the reader before. Where it passes both, the earlier byte decides.
    pub fn next<S: Source>(&mut self, source: &mut S) -> Result<LineGot, LineStop>
        requires { self.old.done ≡ false }
        ensures answer { Answers self.old self.new (rest_of self.old (S.left source.old)) (rest_of self.new (S.left source.new)) result }
        ensures done { self.new.done ≡ is_last result }
        ensures last { is_last result ≡ true → Finishes self.old self.new }

        // A source is read only where it is needed, and not after its end.
        ensures unread { self.old.ended ≡ true ⊎ Contains self.old.ahead 10 → source.new ≡ source.old }
        ensures at_end { self.new.ended ≡ true → (self.old.ended ≡ true) ⊎ IsAtEnd (S.left source.new) }
        ensures end { IfOk result (λ got. IsEnd got → self.new.ended ≡ true) }
        ensures stays { self.old.ended ≡ true → self.new.ended ≡ true }

        // Each line takes a byte, and there are not too many.
        ensures progress { is_last result ≡ false → (self.old.used < self.new.used) × (self.old.used + length self.new.line ≤ self.new.used) }
        ensures few { self.new.used ≤ max_input }

        ensures later { S.faults source.old ≤ S.faults source.new }
        ensures cause { IsErrOf result LineStop.ReadFault → Rose (S.faults source.old) (S.faults source.new) }
        ensures no_fault { is_read_fault result ≡ false → S.faults source.new ≡ S.faults source.old }

        // All that was taken from a source before a fault was used.
        ensures dry { IsErrOf result LineStop.ReadFault → (self.new.ahead ≡ []) × (self.new.ended ≡ false) }
    {
        self.line.clear();
        if self.ended {
            self.done = true;
            return Ok(LineGot::End(self.number.max(1)));
        }
        let lf = match gather(&mut self.ahead, &mut self.line, self.used, source) {
            Ok(lf) => lf,
            Err(broken) => {
                self.line.clear();
                self.done = true;
                return Err(stop_at(broken, self.number + 1));
            }
        };
        self.ended = !lf;
        if !lf && self.line.is_empty() {
            self.done = true;
            return Ok(LineGot::End(self.number.max(1)));
        }
        self.number += 1;
        self.used += size_of_line(self.line.len(), lf);
        Ok(LineGot::Line(self.number))
    }

    /// The bytes of the line that the last `next` gave, without its LF. There are none where it gave no line.
    pub fn line(&self) -> &[u8]
        ensures { result.now ≡ self.now.line }
    {
        &self.line
    }

    /// How many lines were given.
    pub fn number(&self) -> u64
        ensures { result ≡ self.now.number }
    {
        self.number
    }

    /// Whether an end or a stop was answered.
    pub fn is_done(&self) -> bool
        ensures { result ≡ self.now.done }
    {
        self.done
    }
}

// How many bytes a line takes, with its LF if it has one.
fn size_of_line(len: usize, lf: bool) -> u64
    requires { len ≤ 2 ^ 25 }
    ensures { result ≡ len + length (end_of lf) }
{
    if lf { len as u64 + 1 } else { len as u64 }
}

// Why a line is not gathered.
#[derive(Clone, Copy, Debug, PartialEq, Eq)]
enum Broken {
    // The source failed.
    ReadFault,
    // The line has too many bytes.
    TooLong,
    // The input has too many.
    TooMuch,
    // There was no memory.
    Memory,
}

// The stop for a line of this number.
fn stop_at(broken: Broken, number: u64) -> LineStop
    ensures { result ≡ stop_for broken number }
{
    match broken {
        Broken::ReadFault => LineStop::ReadFault,
        Broken::TooLong => LineStop::TooLong(number),
        Broken::TooMuch => LineStop::TooMuch(number),
        Broken::Memory => LineStop::Memory,
    }
}

// Whether a line of so many bytes before its end passes a limit; `used` bytes stand before it.
fn limit(used: u64, len: usize, lf: bool) -> Option<Broken>
    requires before { used ≤ max_input }
    requires room { len ≤ 2 ^ 25 }
    ensures long { result ≡ Some Broken.TooLong → (max_line < len) × (used + max_line ≤ max_input) }
    ensures much { result ≡ Some Broken.TooMuch → (max_input < used + len + length (end_of lf)) × (max_line < len → max_input < used + max_line) }
    ensures none { IfNone result ((len ≤ max_line) × (used + len + length (end_of lf) ≤ max_input)) }
    ensures no_fault { (result ≡ Some Broken.ReadFault → ⊥) × (result ≡ Some Broken.Memory → ⊥) }
{
    if len > MAX_LINE && used + (MAX_LINE as u64) <= MAX_INPUT {
        Some(Broken::TooLong)
    } else if used + size_of_line(len, lf) > MAX_INPUT {
        Some(Broken::TooMuch)
    } else {
        None
    }
}

// Gathers the next line, before which `used` bytes stand, and answers whether an LF ended it; else the input ended.
fn gather<S: Source>(
    ahead: &mut Ahead,
    line: &mut Vec<u8>,
    used: u64,
    source: &mut S,
) -> Result<bool, Broken>
    requires before { used ≤ max_input }
    requires start { line.old.items ≡ [] }

    // A source is read only where it is needed.
    ensures unread { Contains ahead.old 10 → source.new ≡ source.old }

    ensures lf { IfOk result (λ lf. lf ≡ true → Takes (S.left source.old) (S.left source.new) ahead.old ahead.new line.new.items (10 ∷ [])) }
    ensures end { IfOk result (λ lf. lf ≡ false → Takes (S.left source.old) (S.left source.new) ahead.old ahead.new line.new.items []
        × (ahead.new ≡ []) × IsAtEnd (S.left source.new)) }
    ensures fits { IfOk result (λ lf. (length line.new.items ≤ max_line) × (used + length line.new.items + length (end_of lf) ≤ max_input)) }

    ensures later { S.faults source.old ≤ S.faults source.new }
    ensures cause { IsErrOf result Broken.ReadFault → Rose (S.faults source.old) (S.faults source.new) }
    ensures no_fault { is_broken_by_fault result ≡ false → S.faults source.new ≡ S.faults source.old }
    ensures dry { IsErrOf result Broken.ReadFault → ahead.new ≡ [] }
    ensures memory { IsErrOf result Broken.Memory → Takes (S.left source.old) (S.left source.new) ahead.old ahead.new line.new.items [] }
    ensures fault { IsErrOf result Broken.ReadFault → Takes (S.left source.old) (S.left source.new) ahead.old ahead.new line.new.items [] }
    ensures long { IsErrOf result Broken.TooLong → (lf : Bool) × Takes (S.left source.old) (S.left source.new) ahead.old ahead.new line.new.items (end_of lf)
        × (max_line < length line.new.items) × (used + max_line ≤ max_input) }
    ensures much { IsErrOf result Broken.TooMuch → (lf : Bool) × Takes (S.left source.old) (S.left source.new) ahead.old ahead.new line.new.items (end_of lf)
        × (max_input < used + length line.new.items + length (end_of lf)) × (max_line < length line.new.items → max_input < used + max_line) }
{
    loop {
        let found = match ahead.take_line(line) {
            Ok(found) => found,
            Err(_) => return Err(Broken::Memory),
        };
        match limit(used, line.len(), found) {
            Some(broken) => return Err(broken),
            None => {}
        }
        if found {
            return Ok(true);
        }
        match ahead.fill(source) {
            Err(_) => return Err(Broken::ReadFault),
            Ok(()) => {}
        }
        if ahead.is_empty() {
            return Ok(false);
        }
    }
}
