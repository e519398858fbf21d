//! The first call of a session with another reply, and how it is told.

ghost use Rattle.std.specs.Prelude.{◌≡◌, ◌+◌, ◌++◌, ◌∷◌, [], codes, OnOk, IsUtf8};
ghost use Rattle.esx_replies.specs.Signs.{behind, signed_from};
ghost use Rattle.esx_writing.specs.Writing.{Writes, Puts, sink_faults};
ghost use Rattle.esx_check.specs.Checks.{checked_text};
ghost use Rattle.esx_check.specs.Differences.{asked_text, both_replies, checked_of, compared_text, difference_text};

use crate::check::{Checked, put_checked};
use esx_events::Reply;
use esx_replies::{Sign, put_reply};
use esx_session::Entry;
use esx_types::{Sink, SinkFailed};
use esx_words::put_command;
use esx_writing::{AnswerBuffer, Piece, put, put_pieces, write_held};

/// The first call with another reply than the one that stands with it.
#[derive(Debug, Drop)]
pub struct Difference {
    /// Which call it is, from 1 on.
    pub number: u64,
    /// The call, with the reply that stands there.
    pub entry: Entry,
    /// The reply that it has when it is made again.
    pub reply: Reply,
}

/// What a session comes to where its calls are made again.
#[derive(Debug, Drop)]
pub enum Compared {
    /// So many calls, each with its reply.
    Same(u64),
    /// The first call that has another reply.
    Differs(Difference),
}

impl Compared {
    ghost use Rattle.std.specs.Prelude.{◌≡◌, ℕ, List};
    ghost use Rattle.esx_check.specs.Checks.{ChecksText};
    ghost use Rattle.esx_check.specs.Differences.{ComparesText, checked_of};

    /// What a check tells of it.
    pub fn checked(&self) -> Checked
        ensures value { result ≡ checked_of self.now }
        ensures checks { (text : List ℕ) → ComparesText text self.now → ChecksText text result }
    {
        match self {
            Compared::Same(count) => Checked::Same(*count),
            Compared::Differs(difference) => Checked::Differs(difference.number),
        }
    }
}

/// Before each line of the reply that stands in a session.
struct ToldSign;

impl Sign for ToldSign {
    ghost text = { codes "told: " };

    fn put<W: Sink>(sink: &mut W, held: &mut AnswerBuffer) -> Result<(), SinkFailed> {
        put(sink, held, "told: ".as_bytes())
    }
}

/// Before each line of the reply that a call has when it is made again.
struct MadeSign;

impl Sign for MadeSign {
    ghost text = { codes "made: " };

    fn put<W: Sink>(sink: &mut W, held: &mut AnswerBuffer) -> Result<(), SinkFailed> {
        put(sink, held, "made: ".as_bytes())
    }
}

/// Puts a byte, behind a sign where a line begins with it.
fn put_byte<S: Sign, W: Sink>(
    sink: &mut W,
    held: &mut AnswerBuffer,
    fresh: bool,
    byte: u8,
) -> Result<(), SinkFailed>
    ensures bytes { Puts (W.contents sink.old) held.old (W.contents sink.new) held.new (signed_from S.text fresh (byte ∷ [])) result }
    ensures failures { W.failures sink.new ≡ W.failures sink.old + sink_faults result }
    ensures flushes { W.flushes sink.new ≡ W.flushes sink.old }
{
    if fresh {
        S::put(sink, held)?;
    }
    put(sink, held, &[byte])
}

/// Puts a text, each of its lines behind a sign.
fn put_behind<S: Sign, W: Sink>(
    sink: &mut W,
    held: &mut AnswerBuffer,
    text: &[u8],
) -> Result<(), SinkFailed>
    ensures bytes { Puts (W.contents sink.old) held.old (W.contents sink.new) held.new (behind S.text text.now) result }
    ensures failures { W.failures sink.new ≡ W.failures sink.old + sink_faults result }
    ensures flushes { W.flushes sink.new ≡ W.flushes sink.old }
{
    let mut fresh = true;
    for byte in text {
        put_byte::<S, W>(sink, held, fresh, *byte)?;
        fresh = *byte == b'\n';
    }
    Ok(())
}

/// Puts a call, as a session prints it.
fn put_asked<W: Sink>(
    sink: &mut W,
    held: &mut AnswerBuffer,
    entry: &Entry,
) -> Result<(), SinkFailed>
    ensures bytes { Puts (W.contents sink.old) held.old (W.contents sink.new) held.new (asked_text entry.now) result }
    ensures failures { W.failures sink.new ≡ W.failures sink.old + sink_faults result }
    ensures flushes { W.flushes sink.new ≡ W.flushes sink.old }
{
    put_pieces(
        sink,
        held,
        &[
            Piece::Text("call: "),
            Piece::Number(u64::from(entry.caller)),
            Piece::Text(" "),
        ],
    )?;
    put_command(sink, held, &entry.call)?;
    put(sink, held, "\n".as_bytes())
}

/// Puts the lines of both replies.
fn put_both<W: Sink>(
    sink: &mut W,
    held: &mut AnswerBuffer,
    difference: &Difference,
) -> Result<(), SinkFailed>
    ensures bytes { Puts (W.contents sink.old) held.old (W.contents sink.new) held.new (both_replies difference.now) result }
    ensures failures { W.failures sink.new ≡ W.failures sink.old + sink_faults result }
    ensures flushes { W.flushes sink.new ≡ W.flushes sink.old }
{
    put_behind::<ToldSign, W>(sink, held, difference.entry.reply.as_slice())?;
    put_reply::<MadeSign, W>(sink, held, &difference.reply)
}

/// Puts the call and both replies.
fn put_difference<W: Sink>(
    sink: &mut W,
    held: &mut AnswerBuffer,
    difference: &Difference,
) -> Result<(), SinkFailed>
    ensures bytes { Puts (W.contents sink.old) held.old (W.contents sink.new) held.new (difference_text difference.now) result }
    ensures failures { W.failures sink.new ≡ W.failures sink.old + sink_faults result }
    ensures flushes { W.flushes sink.new ≡ W.flushes sink.old }
{
    put_asked(sink, held, &difference.entry)?;
    put_both(sink, held, difference)
}

/// Puts the line of a check, and behind it the difference.
fn put_differs<W: Sink>(
    sink: &mut W,
    held: &mut AnswerBuffer,
    difference: &Difference,
) -> Result<(), SinkFailed>
    ensures bytes { Puts (W.contents sink.old) held.old (W.contents sink.new) held.new (checked_text (Checked.Differs difference.now.number) ++ difference_text difference.now) result }
    ensures failures { W.failures sink.new ≡ W.failures sink.old + sink_faults result }
    ensures flushes { W.flushes sink.new ≡ W.flushes sink.old }
{
    put_checked(sink, held, Checked::Differs(difference.number))?;
    put_difference(sink, held, difference)
}

fn put_compared<W: Sink>(
    sink: &mut W,
    held: &mut AnswerBuffer,
    compared: &Compared,
) -> Result<(), SinkFailed>
    ensures bytes { Puts (W.contents sink.old) held.old (W.contents sink.new) held.new (compared_text compared.now) result }
    ensures failures { W.failures sink.new ≡ W.failures sink.old + sink_faults result }
    ensures flushes { W.flushes sink.new ≡ W.flushes sink.old }
{
    match compared {
        Compared::Same(count) => put_checked(sink, held, Checked::Same(*count)),
        Compared::Differs(difference) => put_differs(sink, held, difference),
    }
}

/// Writes the line that a check has, over an empty buffer. Behind that of a difference come the line of the call, the
/// lines of the reply that stands with it, and those of the reply that it has when it is made again. Nothing is held
/// after it, whatever came, and no memory is taken.
pub fn write_compared<W: Sink>(
    sink: &mut W,
    held: &mut AnswerBuffer,
    compared: &Compared,
) -> Result<(), SinkFailed>
    requires { held.old ≡ [] }
    ensures bytes { Writes (W.contents sink.old) (W.contents sink.new) (compared_text compared.now) result }
    ensures empty { held.new ≡ [] }
    ensures failures { W.failures sink.new ≡ W.failures sink.old + sink_faults result }
    ensures flushes { W.flushes sink.new ≡ W.flushes sink.old }
{
    put_compared(sink, held, compared)?;
    write_held(sink, held)
}
