//! A call that is made for a line.

ghost use Rattle.std.specs.Prelude.{◌≡◌, ◌+◌, [], OnOk, IsErrOf};
ghost use Rattle.esx_text.specs.Answers.{IsMade, write_faults};
ghost use Rattle.esx_text.specs.Echo.{echo_of};

use crate::echo::{Echo, write_echo};
use crate::fault::ServeFault;
use esx_console::Console;
use esx_events::Call;
use esx_told::Tells;
use esx_types::Sink;
use esx_writing::AnswerBuffer;

/// Makes a call, and writes the echo of its line and its reply from the log. Behind the call no memory is taken. The text
/// may be the call's, for a log that would else have to make it.
pub fn make_call<L: Tells, W: Sink>(
    console: &mut Console<L>,
    caller: u16,
    writer: &mut W,
    held: &mut AnswerBuffer,
    call: Call,
    spelled: &[u8],
    echo: &Echo,
) -> Result<(), ServeFault>
    requires empty { held.old ≡ [] }
    requires spelled { L.spells spelled.now call }
    ensures made { IsMade (echo_of echo.now) caller call console.old console.new (W.contents writer.old) (W.contents writer.new) result }
    ensures empty { OnOk result (held.new ≡ []) }
    ensures failures { W.failures writer.new ≡ W.failures writer.old + write_faults result }
    ensures flushes { W.flushes writer.new ≡ W.flushes writer.old }
    ensures reads { IsErrOf result ServeFault.Read → ⊥ }
{
    let Ok(()) = console.call_spelled(caller, call, spelled) else {
        return Err(ServeFault::OutOfMemory);
    };
    let Ok(()) = write_echo(writer, echo) else {
        return Err(ServeFault::Write);
    };
    match console.kept().tell_reply(writer, held) {
        Ok(()) => Ok(()),
        Err(_) => Err(ServeFault::Write),
    }
}
