//! Whether the calls of a session have the replies that stand with them.

ghost use Rattle.std.specs.Prelude.{◌≡◌, ◌+◌, [], OnOk, OnErr, IfOk};
ghost use Rattle.esx_types.specs.Ranges.{IsConfig};
ghost use Rattle.esx_writing.specs.Writing.{Puts, Writes, sink_faults};
ghost use Rattle.esx_check.specs.Checks.{Checks, checked_text};
ghost use Rattle.esx_check.specs.Gates.{calls_made, PassedFor, PassedForSome};
ghost use Rattle.esx_check.specs.Wants.{RunsOut};

use crate::again::Again;
use esx_door::{Gate, Open};
use esx_session::{Entry, Session};
use esx_types::{Config, Sink, SinkFailed};
use esx_writing::{AnswerBuffer, Piece, put_pieces, write_held};
use std::alloc::{AllocError, Global};

/// What a check comes to.
#[derive(Clone, Copy, Debug, PartialEq, Eq)]
pub enum Checked {
    /// So many calls, each with its reply.
    Same(u64),
    /// The first call, from 1 on, that has another reply.
    Differs(u64),
}

/// Makes the calls of entries again at a site that is opened for them, and passes the gate before each. Where
/// memory runs out it was passed for a front of the calls, and each but the last of them has its reply.
fn check_calls<G: Gate>(
    alloc: Global,
    site: Config,
    entries: Vec<Entry>,
    gate: &mut G,
) -> Result<Checked, AllocError>
    requires { IsConfig site }
    ensures ok { IfOk result (Checks site entries.items) }
    ensures gate { IfOk result (λ checked. PassedFor G.passes (calls_made checked) gate.old gate.new) }
    ensures some { OnErr result (PassedForSome G.passes (RunsOut site entries.items) gate.old gate.new) }
{
    let mut again = Again::open(alloc, site)?;
    let mut count: u64 = 0;
    for entry in entries {
        count += 1;
        if !again.has_same_reply(gate, count, &entry)? {
            return Ok(Checked::Differs(count));
        }
    }
    Ok(Checked::Same(count))
}

/// Makes the calls of a session again, in their order and each by its caller, up to the first that has
/// another reply than the one that stands with it.
///
/// No log is kept of the calls, and replies are compared as they are told, so that no second session is made.
/// Each entry is dropped once its reply was compared.
pub fn check_session(alloc: Global, session: Session) -> Result<Checked, AllocError>
    ensures { IfOk result (Checks session.site session.entries) }
{
    check_session_through(alloc, session, &mut Open)
}

/// As `check_session`, and passes the gate before each call, with the number of the call as its turn (past
/// 2^32 - 1 with that number). What the check comes to is the same whatever the gate answers, where memory does not run out.
///
/// Where memory runs out the gate was passed for the first calls of the session, for none that it does not have,
/// and for none behind the first that has another reply.
pub fn check_session_through<G: Gate>(
    alloc: Global,
    session: Session,
    gate: &mut G,
) -> Result<Checked, AllocError>
    ensures ok { IfOk result (Checks session.site session.entries) }
    ensures gate { IfOk result (λ checked. PassedFor G.passes (calls_made checked) gate.old gate.new) }
    ensures some { OnErr result (PassedForSome G.passes (RunsOut session.site session.entries) gate.old gate.new) }
{
    let (site, entries) = session.into_parts();
    check_calls(alloc, site, entries.into_vec(), gate)
}

/// Puts what a check came to as a line.
pub(crate) fn put_checked<W: Sink>(
    sink: &mut W,
    held: &mut AnswerBuffer,
    checked: Checked,
) -> Result<(), SinkFailed>
    ensures bytes { Puts (W.contents sink.old) held.old (W.contents sink.new) held.new (checked_text checked) result }
    ensures failures { W.failures sink.new ≡ W.failures sink.old + sink_faults result }
    ensures flushes { W.flushes sink.new ≡ W.flushes sink.old }
{
    match checked {
        Checked::Same(count) => put_pieces(
            sink,
            held,
            &[
                Piece::Text("same "),
                Piece::Number(count),
                Piece::Text("\n"),
            ],
        ),
        Checked::Differs(number) => put_pieces(
            sink,
            held,
            &[
                Piece::Text("differs "),
                Piece::Number(number),
                Piece::Text("\n"),
            ],
        ),
    }
}

/// Writes what a check came to as a line, over an empty buffer. Nothing is held after it, whatever came.
pub fn write_checked<W: Sink>(
    sink: &mut W,
    held: &mut AnswerBuffer,
    checked: Checked,
) -> Result<(), SinkFailed>
    requires { held.old ≡ [] }
    ensures bytes { Writes (W.contents sink.old) (W.contents sink.new) (checked_text checked) result }
    ensures empty { held.new ≡ [] }
    ensures failures { W.failures sink.new ≡ W.failures sink.old + sink_faults result }
    ensures flushes { W.flushes sink.new ≡ W.flushes sink.old }
{
    put_checked(sink, held, checked)?;
    write_held(sink, held)
}
