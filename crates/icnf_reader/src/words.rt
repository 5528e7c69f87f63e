//! The words of the lines of a source.
//!
//! A line whose first byte that is no blank is `c` is a comment, and has no words; the words of another line are what stands
//! between its blanks (CR, tab and space). Only one line is held at a time, in the reader of lines: a word is two places on it.
ghost use Rattle.std.specs.Prelude.{◌≡◌, ◌+◌, ◌<◌, ◌≤◌, ◌^◌, ◌⊎◌, ℕ, List, Bool, true, false, [], ◌∷◌, length, drop, slice_range, slice_index, IfOk, IfSome, IfNone, IsErrOf};
ghost use Rattle.std.specs.Io.KnownBytes.{IsAtEnd};
ghost use Rattle.io_edge.specs.Causes.{Rose};
ghost use Rattle.icnf_reader.specs.Words.{is_blank, is_comment as is_comment_line, words as words_in};
ghost use Rattle.io_edge.specs.Reading.{Answers, is_last, is_read_fault, rest_of, IsEnd};
ghost use Rattle.icnf_reader.specs.Words.{line_words};
ghost use Rattle.icnf_reader.specs.WordState.{words_at_start, WordAnswers, word_is_last, is_word_fault, InLine, word_fuel, IsWordEnd};

use crate::item::{Stop, Why};
use io_edge::lines::{LineGot, LineReader, LineStop};
use io_edge::outside::Source;
use sat_model::memory::Memory;
use std::alloc::Global;
use std::marker::Model;

/// A word, or the end.
#[derive(Clone, Copy, Debug, PartialEq, Eq)]
pub enum WordGot {
    /// A word on the line of this number; `text` has its bytes.
    Word(u64),
    /// The number of the last line, 1 for an empty input.
    End(u64),
}

/// Reads the words of a source, but for those of comments. Contracts see the lines, the words of the last line that are still
/// to be given, and the word that was given last.
#[derive(Drop)]
pub struct WordReader {
    // the lines, of which the last one's words are being given
    lines: LineReader,
    // where on that line the word begins that was given last
    start: usize,
    // where it ends, and the other words are looked for
    at: usize,
}

impl Model for WordReader {
    ghost use Rattle.std.specs.Prelude.{◌≤◌, length, drop, slice_range};
    ghost use Rattle.icnf_reader.specs.Words.{words};
    ghost use Rattle.icnf_reader.specs.WordState.{WordState};

    ghost Value = { WordState };

    ghost view = { λ s. record { lines = s.lines; pending = words (drop s.at s.lines.line); text = slice_range s.lines.line s.start s.at } };

    ghost invariant = { λ s. (s.start ≤ s.at) × (s.at ≤ length s.lines.line) };
}

// Whether a byte is a blank.
fn blank(b: u8) -> bool
    ensures { result ≡ is_blank b }
{
    b == b'\r' || b == b'\t' || b == b' '
}

// Whether a line is a comment.
fn comment(line: &[u8]) -> bool
    ensures { result ≡ is_comment_line line.now }
{
    for b in line {
        if !blank(*b) {
            return *b == b'c';
        }
    }
    false
}

// Where to look for the words of a line.
fn beginning(line: &[u8]) -> usize
    ensures within { result ≤ length line.now }
    ensures words { words_in (drop result line.now) ≡ line_words line.now }
{
    if comment(line) { line.len() } else { 0 }
}

// Where the word that begins at a place ends.
fn word_end(line: &[u8], start: usize) -> usize
    requires within { start < length line.now }
    requires word { is_blank (slice_index line.now start) ≡ false }
    ensures within { (start ≤ result) × (result ≤ length line.now) }
    ensures word { words_in (drop start line.now) ≡ slice_range line.now start result ∷ words_in (drop result line.now) }
{
    let mut end = start;
    while end < line.len() && !blank(line[end]) {
        end += 1;
    }
    end
}

// Where the first word from a place on begins and ends.
fn word_at(line: &[u8], at: usize) -> Option<(usize, usize)>
    requires { at ≤ length line.now }
    ensures within { IfSome result (λ w. (w.0 ≤ w.1) × (w.1 ≤ length line.now)) }
    ensures some { IfSome result (λ w. words_in (drop at line.now) ≡ slice_range line.now w.0 w.1 ∷ words_in (drop w.1 line.now)) }
    ensures none { IfNone result (words_in (drop at line.now) ≡ []) }
{
    let mut start = at;
    while start < line.len() && blank(line[start]) {
        start += 1;
    }
    if start == line.len() {
        return None;
    }
    Some((start, word_end(line, start)))
}

impl WordReader {
    /// A reader of which nothing was asked yet.
    pub fn new(alloc: Global) -> Result<WordReader, Memory>
        ensures { IfOk result (λ r. r ≡ words_at_start) }
    {
        let lines = LineReader::new(alloc)?;
        Ok(WordReader {
            lines,
            start: 0,
            at: 0,
        })
    }

    /// The next word of the lines that are no comments; `text()` then gives its bytes. An answer other than a word is the last
    /// one: the reader is done, and is not to be asked again. Each call is to be made with the same source.
    ///
    /// `End` comes exactly where no word is left. `Bad` comes at the first line that passes a limit, and names it. `ReadFault` comes
    /// only where the source's count of faults rose; then the words that were given are those of the lines whose LF was taken.
    pub fn next<S: Source>(&mut self, source: &mut S) -> Result<WordGot, Stop>
        requires { self.old.lines.done ≡ false }
        ensures answer { WordAnswers self.old self.new (S.left source.old) (S.left source.new) result }
        ensures done { self.new.lines.done ≡ word_is_last result }
        ensures no_word { word_is_last result ≡ true → self.new.text ≡ [] }
        ensures later { S.faults source.old ≤ S.faults source.new }
        ensures dry { IsErrOf result Stop.ReadFault → (self.new.lines.ahead ≡ []) × (self.new.lines.ended ≡ false) }
        ensures cause { IsErrOf result Stop.ReadFault → Rose (S.faults source.old) (S.faults source.new) }
        ensures no_fault { is_word_fault result ≡ false → S.faults source.new ≡ S.faults source.old }
        ensures at_end { self.new.lines.ended ≡ true → (self.old.lines.ended ≡ true) ⊎ IsAtEnd (S.left source.new) }
        ensures unread { self.old.lines.ended ≡ true → source.new ≡ source.old }
        ensures stays { self.old.lines.ended ≡ true → self.new.lines.ended ≡ true }
        ensures end { IfOk result (λ got. IsWordEnd got → self.new.lines.ended ≡ true) }

        // Each word takes a byte, and there are not too many.
        ensures progress { word_is_last result ≡ false → word_fuel self.new < word_fuel self.old }
    {
        loop {
            if self.next_in_line() {
                return Ok(WordGot::Word(self.lines.number()));
            }
            match self.next_line(source) {
                Ok(LineGot::Line(_)) => {}
                Ok(LineGot::End(number)) => return Ok(WordGot::End(number)),
                Err(LineStop::ReadFault) => return Err(Stop::ReadFault),
                Err(LineStop::TooLong(number)) => return Err(Stop::Bad(number, Why::LineTooLong)),
                Err(LineStop::TooMuch(number)) => return Err(Stop::Bad(number, Why::InputTooLong)),
                Err(LineStop::Memory) => return Err(Stop::Memory),
            }
        }
    }

    // Goes to the next word of the line, and answers whether there is one.
    fn next_in_line(&mut self) -> bool
        ensures lines { self.new.lines ≡ self.old.lines }
        ensures word { InLine result self.old self.new }
    {
        match word_at(self.lines.line(), self.at) {
            Some((start, end)) => {
                self.start = start;
                self.at = end;
                true
            }
            None => {
                self.at = self.lines.line().len();
                false
            }
        }
    }

    // Goes to the next line.
    fn next_line<S: Source>(&mut self, source: &mut S) -> Result<LineGot, LineStop>
        requires { self.old.lines.done ≡ false }
        ensures answer { Answers self.old.lines self.new.lines (rest_of self.old.lines (S.left source.old)) (rest_of self.new.lines (S.left source.new)) result }
        ensures words { self.new.pending ≡ line_words self.new.lines.line }
        ensures no_word { self.new.text ≡ [] }
        ensures unread { self.old.lines.ended ≡ true → source.new ≡ source.old }
        ensures done { self.new.lines.done ≡ is_last result }
        ensures later { S.faults source.old ≤ S.faults source.new }
        ensures dry { IsErrOf result LineStop.ReadFault → (self.new.lines.ahead ≡ []) × (self.new.lines.ended ≡ false) }
        ensures cause { IsErrOf result LineStop.ReadFault → Rose (S.faults source.old) (S.faults source.new) }
        ensures no_fault { is_read_fault result ≡ false → S.faults source.new ≡ S.faults source.old }
        ensures at_end { self.new.lines.ended ≡ true → (self.old.lines.ended ≡ true) ⊎ IsAtEnd (S.left source.new) }
        ensures progress { is_last result ≡ false → (self.old.lines.used < self.new.lines.used) × (self.old.lines.used + length self.new.pending ≤ self.new.lines.used) }
        ensures few { self.new.lines.used ≤ 2 ^ 40 }
        ensures stays { self.old.lines.ended ≡ true → self.new.lines.ended ≡ true }
        ensures end { IfOk result (λ got. IsEnd got → self.new.lines.ended ≡ true) }
    {
        let got = self.lines.next(source);
        let at = beginning(self.lines.line());
        self.start = at;
        self.at = at;
        got
    }

    /// Whether an end or a stop was answered.
    pub fn is_done(&self) -> bool
        ensures { result ≡ self.now.lines.done }
    {
        self.lines.is_done()
    }

    /// The bytes of the word that was given last. There are none where the last answer was no word.
    pub fn text(&self) -> &[u8]
        ensures { result.now ≡ self.now.text }
    {
        &self.lines.line()[self.start..self.at]
    }
}
