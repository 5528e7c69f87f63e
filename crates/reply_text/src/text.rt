//! The text of replies: a line that says what was found, and behind it the model, the core or the budget.
//!
//! A model is written as the literals that it makes true, from variable 1 on, and a core as its literals, each behind a prefix and
//! twenty on a line (`io_edge::wrapping`). After `Failed` a front of the text was written, and the sink's count of faults rose.
ghost use Rattle.std.specs.Prelude.{◌≡◌, ◌+◌, ◌≤◌, ◌<◌, false, length, get_or, OnOk, OnErr, max};
ghost use Rattle.std.specs.Io.KnownBytes.{Appends};
ghost use Rattle.sat_terms.specs.Limits.{max_var};
ghost use Rattle.io_edge.specs.Causes.{HasCause};
ghost use Rattle.io_edge.specs.Told.{AppendsFront};
ghost use Rattle.reply_text.specs.Reply.{Sat, Unsat, Unknown};
ghost use Rattle.reply_text.specs.Text.{padded, value_number, reply_text, checked_text};

use io_edge::buffer::Buffer;
use io_edge::outside::{Failed, Sink, write_all};
use io_edge::wrapping::OpenLine;
use sat_model::literal::Lit;

// The value at a place, false past the end.
fn value_at(model: &[bool], place: usize) -> bool
    ensures { result ≡ get_or model.now place false }
{
    place < model.len() && model[place]
}

// The number of the literal of a variable that a value makes true; the variable stands at this place.
fn number_at(place: usize, value: bool) -> i32
    requires { place ≤ max_var }
    ensures { result ≡ value_number (place + 1) value }
{
    let variable = place as i32 + 1;
    if value { variable } else { -variable }
}

/// Writes the reply of a model of at most 4,194,303 values, for at least so many variables: `s SATISFIABLE`, and then `v` lines with
/// the literals of the variables from 1 on that the model makes true, and a 0. Variables past the model's end are false.
pub fn write_model<K: Sink>(sink: &mut K, model: &[bool], vars: u32) -> Result<(), Failed>
    requires model { length model.now ≤ max_var }
    requires vars { vars ≤ max_var }
    ensures ok { OnOk result (Appends (K.written sink.old) (K.written sink.new) (reply_text (Sat (padded vars model.now)))) }
    ensures err { OnErr result (AppendsFront (K.written sink.old) (K.written sink.new) (reply_text (Sat (padded vars model.now)))) }
    ensures cause { HasCause (K.faults sink.old) (K.faults sink.new) result }
{
    let size = model.len().max(vars as usize);
    let mut line = OpenLine::after(b"s SATISFIABLE\n");
    for place in 0..size {
        line.push(sink, b"v ", number_at(place, value_at(model, place)))?;
    }
    line.finish(sink, b"v ")
}

/// Writes the reply of a core: `s UNSATISFIABLE`, and then `f` lines with the literals of the core and a 0.
pub fn write_core<K: Sink>(sink: &mut K, core: &[Lit]) -> Result<(), Failed>
    ensures ok { OnOk result (Appends (K.written sink.old) (K.written sink.new) (reply_text (Unsat core.now))) }
    ensures err { OnErr result (AppendsFront (K.written sink.old) (K.written sink.new) (reply_text (Unsat core.now))) }
    ensures cause { HasCause (K.faults sink.old) (K.faults sink.new) result }
{
    let mut line = OpenLine::after(b"s UNSATISFIABLE\n");
    for lit in core {
        line.push(sink, b"f ", lit.number())?;
    }
    line.finish(sink, b"f ")
}

/// Writes the reply that is neither: `s UNKNOWN`, and then a line with the number of conflicts that came.
pub fn write_unknown<K: Sink>(sink: &mut K, conflicts: u64) -> Result<(), Failed>
    ensures ok { OnOk result (Appends (K.written sink.old) (K.written sink.new) (reply_text (Unknown conflicts))) }
    ensures err { OnErr result (AppendsFront (K.written sink.old) (K.written sink.new) (reply_text (Unknown conflicts))) }
    ensures cause { HasCause (K.faults sink.old) (K.faults sink.new) result }
{
    let mut text = Buffer::new();
    text.push_all(b"s UNKNOWN\nc conflicts ");
    text.push_decimal(conflicts);
    text.push_all(b"\n");
    write_all(sink, text.as_slice())
}

/// Writes the line that may follow a model: how many clauses and assumptions it was found to make true.
pub fn write_checked<K: Sink>(sink: &mut K, count: u64) -> Result<(), Failed>
    ensures ok { OnOk result (Appends (K.written sink.old) (K.written sink.new) (checked_text count)) }
    ensures err { OnErr result (AppendsFront (K.written sink.old) (K.written sink.new) (checked_text count)) }
    ensures cause { HasCause (K.faults sink.old) (K.faults sink.new) result }
{
    let mut text = Buffer::new();
    text.push_all(b"c checked ");
    text.push_decimal(count);
    text.push_all(b"\n");
    write_all(sink, text.as_slice())
}
