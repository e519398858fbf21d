//! Sessions as they are printed, with no memory taken on the way.

ghost use Rattle.std.specs.Prelude.{◌≡◌, ◌+◌, ◌++◌, ◌≤◌, [], IfOk, OnOk, IsUtf8, codes, decimal, flat_map, length, map, string_bytes};
ghost use Rattle.esx_words.specs.Commands.{spelling};
ghost use Rattle.esx_writing.specs.Writing.{Writes, Puts, sink_faults};
ghost use Rattle.esx_session.specs.Sessions.{call_text, head_text, site_text, end_text, logged, session_text};
ghost use Rattle.esx_session.specs.Printing.{line_text};
ghost use Rattle.esx_types.specs.declared.version.Version.TheVariants.{Two};

use esx_events::{Call, Line};
use esx_replies::{Sign, put_reply};
use esx_types::{Config, MemorySink, Sink, SinkFailed};
use esx_words::put_command;
use esx_writing::{AnswerBuffer, Piece, put, put_pieces, write_held};
use std::alloc::{AllocError, Global};
use std::marker::Brand;
use std::sync::ledger::{Blank, Ledger};

/// Room for the number of a caller and a space.
const CALLER_ROOM: usize = 40;

/// Before each line of a reply: an equals sign and a space.
pub struct ReplySign;

impl Sign for ReplySign {
    ghost text = { codes "= " };

    fn put<W: Sink>(sink: &mut W, held: &mut AnswerBuffer) -> Result<(), SinkFailed> {
        put(sink, held, "= ".as_bytes())
    }
}

/// The first line, which says version 2, and that of the site.
pub fn put_opening<W: Sink>(
    sink: &mut W,
    held: &mut AnswerBuffer,
    site: &Config,
) -> Result<(), SinkFailed>
    ensures bytes { Puts (W.contents sink.old) held.old (W.contents sink.new) held.new (head_text Two ++ site_text site.now) result }
    ensures utf8 { OnOk result (IsUtf8 (head_text Two ++ site_text site.now)) }
    ensures failures { W.failures sink.new ≡ W.failures sink.old + sink_faults result }
    ensures flushes { W.flushes sink.new ≡ W.flushes sink.old }
{
    put_pieces(
        sink,
        held,
        &[
            Piece::Text("esx session 2\nframes "),
            Piece::Number(u64::from(site.frames)),
            Piece::Text(" page "),
            Piece::Number(u64::from(site.page)),
            Piece::Text(" slots "),
            Piece::Number(u64::from(site.slots)),
            Piece::Text(" tau "),
            Piece::Number(u64::from(site.tau)),
            Piece::Text(" levels "),
            Piece::Number(u64::from(site.high)),
            Piece::Text(" "),
            Piece::Number(u64::from(site.soft)),
            Piece::Text(" "),
            Piece::Number(u64::from(site.hard)),
            Piece::Text(" "),
            Piece::Number(u64::from(site.low)),
            Piece::Text(" nodes "),
            Piece::Number(u64::from(site.nodes)),
            Piece::Text("\n"),
        ],
    )
}

/// Who called.
fn put_caller<W: Sink>(sink: &mut W, held: &mut AnswerBuffer, caller: u16) -> Result<(), SinkFailed>
    ensures bytes { Puts (W.contents sink.old) held.old (W.contents sink.new) held.new (decimal caller ++ codes " ") result }
    ensures utf8 { OnOk result (IsUtf8 (decimal caller ++ codes " ")) }
    ensures failures { W.failures sink.new ≡ W.failures sink.old + sink_faults result }
    ensures flushes { W.flushes sink.new ≡ W.flushes sink.old }
{
    if held.room() >= CALLER_ROOM {
        held.push_number(u64::from(caller));
        held.push(" ".as_bytes());
        return Ok(());
    }
    put_pieces(
        sink,
        held,
        &[Piece::Number(u64::from(caller)), Piece::Text(" ")],
    )
}

/// The end of a line.
fn put_feed<W: Sink>(sink: &mut W, held: &mut AnswerBuffer) -> Result<(), SinkFailed>
    ensures bytes { Puts (W.contents sink.old) held.old (W.contents sink.new) held.new (codes "\n") result }
    ensures utf8 { OnOk result (IsUtf8 (codes "\n")) }
    ensures failures { W.failures sink.new ≡ W.failures sink.old + sink_faults result }
    ensures flushes { W.flushes sink.new ≡ W.flushes sink.old }
{
    put(sink, held, "\n".as_bytes())
}

/// The spelling of a call, to the end of its line.
fn put_spelling<W: Sink>(
    sink: &mut W,
    held: &mut AnswerBuffer,
    call: &Call,
) -> Result<(), SinkFailed>
    ensures bytes { Puts (W.contents sink.old) held.old (W.contents sink.new) held.new (spelling call.now ++ codes "\n") result }
    ensures utf8 { OnOk result (IsUtf8 (spelling call.now ++ codes "\n")) }
    ensures failures { W.failures sink.new ≡ W.failures sink.old + sink_faults result }
    ensures flushes { W.flushes sink.new ≡ W.flushes sink.old }
{
    put_command(sink, held, call)?;
    put_feed(sink, held)
}

/// Who called, and the call.
fn put_call<W: Sink>(sink: &mut W, held: &mut AnswerBuffer, line: &Line) -> Result<(), SinkFailed>
    ensures bytes { Puts (W.contents sink.old) held.old (W.contents sink.new) held.new (call_text (logged line.now)) result }
    ensures utf8 { OnOk result (IsUtf8 (call_text (logged line.now))) }
    ensures failures { W.failures sink.new ≡ W.failures sink.old + sink_faults result }
    ensures flushes { W.flushes sink.new ≡ W.flushes sink.old }
{
    put_caller(sink, held, line.caller)?;
    put_spelling(sink, held, &line.call)
}

/// A call and its reply.
pub fn put_line<W: Sink>(
    sink: &mut W,
    held: &mut AnswerBuffer,
    line: &Line,
) -> Result<(), SinkFailed>
    ensures bytes { Puts (W.contents sink.old) held.old (W.contents sink.new) held.new (line_text line.now) result }
    ensures utf8 { OnOk result (IsUtf8 (line_text line.now)) }
    ensures failures { W.failures sink.new ≡ W.failures sink.old + sink_faults result }
    ensures flushes { W.flushes sink.new ≡ W.flushes sink.old }
{
    put_call(sink, held, line)?;
    put_reply::<ReplySign, W>(sink, held, &line.reply)
}

/// The calls and their replies.
fn put_log<W: Sink>(sink: &mut W, held: &mut AnswerBuffer, log: &[Line]) -> Result<(), SinkFailed>
    ensures bytes { Puts (W.contents sink.old) held.old (W.contents sink.new) held.new (flat_map line_text log.now) result }
    ensures utf8 { OnOk result (IsUtf8 (flat_map line_text log.now)) }
    ensures failures { W.failures sink.new ≡ W.failures sink.old + sink_faults result }
    ensures flushes { W.flushes sink.new ≡ W.flushes sink.old }
{
    for line in log {
        put_line(sink, held, line)?;
    }
    Ok(())
}

/// The last line.
pub fn put_end<W: Sink>(
    sink: &mut W,
    held: &mut AnswerBuffer,
    count: usize,
) -> Result<(), SinkFailed>
    ensures bytes { Puts (W.contents sink.old) held.old (W.contents sink.new) held.new (end_text count) result }
    ensures utf8 { OnOk result (IsUtf8 (end_text count)) }
    ensures failures { W.failures sink.new ≡ W.failures sink.old + sink_faults result }
    ensures flushes { W.flushes sink.new ≡ W.flushes sink.old }
{
    put_pieces(
        sink,
        held,
        &[
            Piece::Text("end "),
            Piece::Number(count as u64),
            Piece::Text("\n"),
        ],
    )
}

/// The lines behind that of the site.
fn put_calls<W: Sink>(sink: &mut W, held: &mut AnswerBuffer, log: &[Line]) -> Result<(), SinkFailed>
    ensures bytes { Puts (W.contents sink.old) held.old (W.contents sink.new) held.new (flat_map line_text log.now ++ end_text (length log.now)) result }
    ensures utf8 { OnOk result (IsUtf8 (flat_map line_text log.now ++ end_text (length log.now))) }
    ensures failures { W.failures sink.new ≡ W.failures sink.old + sink_faults result }
    ensures flushes { W.flushes sink.new ≡ W.flushes sink.old }
{
    put_log(sink, held, log)?;
    put_end(sink, held, log.len())
}

/// Puts the session of a site and a log.
pub fn put_session<W: Sink>(
    sink: &mut W,
    held: &mut AnswerBuffer,
    site: &Config,
    log: &[Line],
) -> Result<(), SinkFailed>
    ensures bytes { Puts (W.contents sink.old) held.old (W.contents sink.new) held.new (session_text site.now (map logged log.now)) result }
    ensures utf8 { OnOk result (IsUtf8 (session_text site.now (map logged log.now))) }
    ensures failures { W.failures sink.new ≡ W.failures sink.old + sink_faults result }
    ensures flushes { W.flushes sink.new ≡ W.flushes sink.old }
{
    put_opening(sink, held, site)?;
    put_calls(sink, held, log)
}

/// Writes the session of a site and a log, over an empty buffer.
pub fn write_session<W: Sink>(
    sink: &mut W,
    held: &mut AnswerBuffer,
    site: &Config,
    log: &[Line],
) -> Result<(), SinkFailed>
    requires { held.old ≡ [] }
    ensures bytes { Writes (W.contents sink.old) (W.contents sink.new) (session_text site.now (map logged log.now)) result }
    ensures utf8 { OnOk result (IsUtf8 (session_text site.now (map logged log.now))) }
    ensures empty { held.new ≡ [] }
    ensures failures { W.failures sink.new ≡ W.failures sink.old + sink_faults result }
    ensures flushes { W.flushes sink.new ≡ W.flushes sink.old }
{
    put_session(sink, held, site, log)?;
    write_held(sink, held)
}

/// Room for a call and its reply in a text, which most of them fill.
const CALL_BYTES: usize = 32;

/// No bytes, with room for so many calls and their replies where that is not refused.
fn with_room(alloc: Global, calls: usize) -> Vec<u8>
    ensures { result.items ≡ [] }
{
    let mut bytes = Vec::new(alloc);
    let _ = bytes.reserve(calls.saturating_mul(CALL_BYTES));
    bytes
}

/// The session of a site and a log, by a count of the writes.
fn session_bytes<L: Ledger>(
    alloc: Global,
    site: &Config,
    log: &[Line],
    blank: Blank,
) -> Result<Vec<u8>, AllocError>
    requires name { blank.name ≡ L.name }
    requires parts { blank.parts ≡ L.parts }
    requires four { 4 ≤ blank.parts }
    ensures bytes { IfOk result (λ bytes. bytes.items ≡ session_text site.now (map logged log.now)) }
    ensures utf8 { IfOk result (λ bytes. IsUtf8 bytes.items) }
{
    let mut held = AnswerBuffer::new(alloc)?;
    let mut sink = MemorySink::<L>::new(with_room(alloc, log.len()), blank);
    match write_session(&mut sink, &mut held, site, log) {
        Ok(()) => Ok(sink.into_bytes()),
        Err(SinkFailed) => Err(AllocError),
    }
}

/// The session of a site as it was opened and of a log, in version 2. It can be read again where the site, the callers
/// and the calls are in their ranges.
pub fn print_session(alloc: Global, site: &Config, log: &[Line]) -> Result<String, AllocError>
    ensures { IfOk result (λ text. string_bytes text ≡ session_text site.now (map logged log.now)) }
{
    let bytes = session_bytes::<Brand>(alloc, site, log, Blank::new(4))?;
    // Its bytes are proved to be UTF-8, and are not tested.
    Ok(unsafe { String::from_utf8_unchecked(bytes) })
}
