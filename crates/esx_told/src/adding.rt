//! A line, added to a text in memory.

ghost use Rattle.std.specs.Prelude.{◌≡◌, ◌≤◌, ◌++◌, [], OnOk, OnErr};
ghost use Rattle.esx_writing.specs.Writing.{Writes};
ghost use Rattle.esx_session.specs.Printing.{line_text};

use esx_events::Line;
use esx_session::put_line;
use esx_types::{MemorySink, Sink, SinkFailed};
use esx_writing::{AnswerBuffer, write_held};
use std::alloc::AllocError;
use std::marker::Brand;
use std::mem::replace;
use std::sync::ledger::{Blank, Ledger};

/// Writes what is held, and then a line.
fn write_line<W: Sink>(sink: &mut W, held: &mut AnswerBuffer, line: &Line) -> Result<(), SinkFailed>
    ensures bytes { Writes (W.contents sink.old) (W.contents sink.new) (held.old ++ line_text line.now) result }
    ensures empty { held.new ≡ [] }
{
    put_line(sink, held, line)?;
    write_held(sink, held)
}

/// A text with what is held and a line behind it, or where memory runs out the text, by a count of the writes.
fn text_with<L: Ledger>(
    text: Vec<u8>,
    held: &mut AnswerBuffer,
    line: &Line,
    blank: Blank,
) -> (Vec<u8>, Result<(), SinkFailed>)
    requires name { blank.name ≡ L.name }
    requires parts { blank.parts ≡ L.parts }
    requires four { 4 ≤ blank.parts }
    ensures ok { OnOk result.1 (result.0.items ≡ text.items ++ (held.old ++ line_text line.now)) }
    ensures err { OnErr result.1 (result.0.items ≡ text.items) }
    ensures empty { held.new ≡ [] }
{
    let start = text.len();
    let mut sink = MemorySink::<L>::new(text, blank);
    let written = write_line(&mut sink, held, line);
    let mut text = sink.into_bytes();
    if written.is_err() {
        text.truncate(start);
    }
    (text, written)
}

/// Adds what is held and a line to a text. Where memory runs out the text stays. Nothing is held after it, whatever came.
pub fn add_line(text: &mut Vec<u8>, held: &mut AnswerBuffer, line: &Line) -> Result<(), AllocError>
    ensures ok { OnOk result (text.new.items ≡ text.old.items ++ (held.old ++ line_text line.now)) }
    ensures err { OnErr result (text.new.items ≡ text.old.items) }
    ensures empty { held.new ≡ [] }
{
    let alloc = *text.allocator();
    let before = replace(text, Vec::new(alloc));
    let (after, written) = text_with::<Brand>(before, held, line, Blank::new(4));
    *text = after;
    match written {
        Ok(()) => Ok(()),
        Err(SinkFailed) => Err(AllocError),
    }
}
