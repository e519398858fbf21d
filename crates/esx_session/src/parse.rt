//! Sessions as they are read.

ghost use Rattle.std.specs.Prelude.{IfOk, IfErr, IsErrOf};
ghost use Rattle.esx_session.specs.Sessions.{Reads, ReadsScript, HasOpening, IsRefused};
ghost use Rattle.esx_session.specs.Reading.{GoesPastOpening};

use crate::calls::open_calls;
use crate::session::{Request, Script, Session};
use esx_reading::TextFault;
use esx_types::Rows;
use std::alloc::Global;

/// The session of a text. `BadLine` has the first line at which the text is none, from 1 on: one past its
/// last line where it ends too early. `OutOfMemory` where there is none, and only where the first two lines are those
/// of a session and the third has a command that may take memory, or is that of a call with a line of a reply behind it.
pub fn parse_session(alloc: Global, text: &str) -> Result<Session, TextFault>
    ensures ok { IfOk result (λ session. Reads text.now session.site session.entries) }
    ensures only { IfErr result (λ e. IsRefused e text.now) }
    ensures memory { IsErrOf result TextFault.OutOfMemory → HasOpening text.now }
    ensures third { IsErrOf result TextFault.OutOfMemory → GoesPastOpening text.now }
{
    let (site, mut calls) = open_calls(text)?;
    let mut entries = Rows::new(alloc);
    while let Some(entry) = calls.next(alloc)? {
        let Ok(()) = entries.push(entry) else {
            return Err(TextFault::OutOfMemory);
        };
    }
    Ok(Session::new(site, entries))
}

/// The site and the calls of the session of a text, without their replies. Each reply is read in place of the last.
/// It is refused, and finds no memory, as `parse_session`.
pub fn parse_script(alloc: Global, text: &str) -> Result<Script, TextFault>
    ensures ok { IfOk result (λ script. ReadsScript text.now script.site script.requests) }
    ensures only { IfErr result (λ e. IsRefused e text.now) }
    ensures memory { IsErrOf result TextFault.OutOfMemory → HasOpening text.now }
    ensures third { IsErrOf result TextFault.OutOfMemory → GoesPastOpening text.now }
{
    let (site, mut entries) = open_calls(text)?;
    let mut requests = Rows::new(alloc);
    while let Some(entry) = entries.next(alloc)? {
        entries.give_back(entry.reply);
        let request = Request {
            caller: entry.caller,
            call: entry.call,
        };
        let Ok(()) = requests.push(request) else {
            return Err(TextFault::OutOfMemory);
        };
    }
    Ok(Script { site, requests })
}
