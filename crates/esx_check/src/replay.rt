//! The replies of a session's calls, written anew.

ghost use Rattle.std.specs.Prelude.{◌≡◌, ◌+◌, ◌<◌, ◌≤◌, ◌^◌, [], ℕ, List, map, OnOk, IfErr, IsErrOf};
ghost use Rattle.std.specs.Io.KnownBytes.{Appends};
ghost use Rattle.esx_types.specs.declared.config.Config.{Config};
ghost use Rattle.esx_model.specs.Console.{history, next_reply, lined};
ghost use Rattle.esx_model.specs.Console as consoles;
ghost use Rattle.esx_console.specs.Calls.{opened_session};
ghost use Rattle.esx_console.specs.Unlogged.{AnswersAs};
ghost use Rattle.esx_console.specs.Hearing.{MayLackMemory, ComesToMemory};
ghost use Rattle.esx_replies.specs.Replies.{reply_text};
ghost use Rattle.esx_session.specs.declared.session.Entry.{Entry};
ghost use Rattle.esx_session.specs.Sessions.{request};
ghost use Rattle.esx_check.specs.Replays.{ReplayStops, ReplyStops, replay_text, write_faults};

use crate::again::Again;
use crate::fault::OutputFault;
use esx_events::Call;
use esx_replies::write_reply;
use esx_session::Request;
use esx_types::{Rows, Sink, SinkFailed};

/// Makes a call and writes its reply. Between the two no memory is taken.
fn write_reply_to<W: Sink>(
    again: &mut Again,
    writer: &mut W,
    call: &Call,
) -> Result<(), OutputFault>
    requires few { again.old.console.jumps < 2 ^ 63 }
    requires empty { again.old.held ≡ [] }
    ensures made { OnOk result ((s : consoles.Session) (caller : ℕ) → AnswersAs again.old.console s → AnswersAs again.new.console (lined s caller call.now)) }
    ensures few { OnOk result (again.new.console.jumps ≤ again.old.console.jumps + 1) }
    ensures written { (s : consoles.Session) → AnswersAs again.old.console s
        → OnOk result (Appends (W.contents writer.old) (W.contents writer.new) (reply_text (next_reply s call.now))) }
    ensures fault { (s : consoles.Session) → AnswersAs again.old.console s
        → IfErr result (λ e. ReplyStops e (reply_text (next_reply s call.now)) (W.contents writer.old) (W.contents writer.new)) }
    ensures room { IsErrOf result OutputFault.OutOfMemory → MayLackMemory call.now }
    ensures there { (s : consoles.Session) → AnswersAs again.old.console s → IsErrOf result OutputFault.OutOfMemory → ComesToMemory (history s) call.now }
    ensures empty { OnOk result (again.new.held ≡ []) }
    ensures failures { W.failures writer.new ≡ W.failures writer.old + write_faults result }
    ensures flushes { W.flushes writer.new ≡ W.flushes writer.old }
{
    let Ok(reply) = again.console.call(call) else {
        return Err(OutputFault::OutOfMemory);
    };
    match write_reply(writer, &mut again.held, &reply) {
        Ok(()) => Ok(()),
        Err(SinkFailed) => Err(OutputFault::Write),
    }
}

/// Makes calls at a console that was opened for them, in their order, and writes their replies and then the table.
/// Each call is dropped once its reply was written.
fn write_replies<W: Sink>(
    again: &mut Again,
    requests: Vec<Request>,
    writer: &mut W,
) -> Result<(), OutputFault>
    requires none { again.old.console.jumps ≡ 0 }
    requires empty { again.old.held ≡ [] }
    ensures ok { (site : Config) (entries : List Entry) → AnswersAs again.old.console (opened_session site) → requests.items ≡ map request entries
        → OnOk result (Appends (W.contents writer.old) (W.contents writer.new) (replay_text site entries)) }
    ensures fault { (site : Config) (entries : List Entry) → AnswersAs again.old.console (opened_session site) → requests.items ≡ map request entries
        → IfErr result (λ e. ReplayStops e site entries (W.contents writer.old) (W.contents writer.new)) }
    ensures failures { W.failures writer.new ≡ W.failures writer.old + write_faults result }
    ensures flushes { W.flushes writer.new ≡ W.flushes writer.old }
{
    for request in requests {
        let written = write_reply_to(again, writer, &request.call);
        drop(request);
        written?;
    }
    write_reply_to(again, writer, &Call::Table)
}

/// Makes the calls of a session again, in their order, at a console that was opened at the site of the session, and
/// writes the reply to each, and then the table. It compares nothing. Who made a call changes no reply.
///
/// What was written is handed on at the end, also where memory ran out. The console is done with then, and left to
/// the caller.
pub fn replay_calls<W: Sink>(
    again: &mut Again,
    requests: Rows<Request>,
    writer: &mut W,
) -> Result<(), OutputFault>
    requires none { again.old.console.jumps ≡ 0 }
    requires empty { again.old.held ≡ [] }
    ensures ok { (site : Config) (entries : List Entry) → AnswersAs again.old.console (opened_session site) → requests ≡ map request entries
        → OnOk result (Appends (W.contents writer.old) (W.contents writer.new) (replay_text site entries)) }
    ensures fault { (site : Config) (entries : List Entry) → AnswersAs again.old.console (opened_session site) → requests ≡ map request entries
        → IfErr result (λ e. ReplayStops e site entries (W.contents writer.old) (W.contents writer.new)) }

    // The sink fails once where writing is at fault, and never elsewhere; it is flushed once where it does not fail.
    ensures failures { W.failures writer.new ≡ W.failures writer.old + write_faults result }
    ensures flushes { W.flushes writer.new + write_faults result ≡ W.flushes writer.old + 1 }
    ensures sent { (IsErrOf result OutputFault.Write → ⊥) → W.waiting writer.new ≡ [] }
{
    let written = write_replies(again, requests.into_vec(), writer);
    if written == Err(OutputFault::Write) {
        return written;
    }
    match writer.flush() {
        Ok(()) => written,
        Err(SinkFailed) => Err(OutputFault::Write),
    }
}
