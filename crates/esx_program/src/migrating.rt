//! A session, printed in version 2.

ghost use Rattle.std.specs.Prelude.{◌≡◌, ◌≤◌, [], List, IfOk, IfErr};
ghost use Rattle.esx_types.specs.declared.config.Config.{Config};
ghost use Rattle.esx_session.specs.declared.session.Entry.{Entry};
ghost use Rattle.esx_check.specs.Migrations.{Migrates, NotMigrated};
ghost use Rattle.esx_check.specs.Checks.{Checks};
ghost use Rattle.esx_text.specs.States.{sink_state};
ghost use Rattle.esx_program.specs.Sessions.{IsMigrated, IsNotMigrated, migrated_as};

use crate::gates::Counting;
use crate::outgoing::Waiting;
use crate::progress::Progress;
use crate::running::session_buffered;
use crate::session::{give_up, write_told};
use esx_check::{Checked, MigrateFault, OutputFault, migrate_through};
use esx_console::Console;
use esx_session::Session;
use esx_types::{Sink, SinkFailed};
use esx_writing::AnswerBuffer;
use std::alloc::{AllocError, Global};
use std::marker::Brand;
use std::mem;
use std::sync::ledger::Blank;

/// How a migration ended, and the writer as it is then.
#[derive(Drop)]
pub struct Migrated<W: Drop> {
    pub ended: Result<Checked, OutputFault>,
    pub writer: W,
}

/// Room for what is written.
fn room_to_tell(alloc: Global) -> Result<(AnswerBuffer, Waiting), AllocError>
    ensures { IfOk result (λ p. (p.0 ≡ []) × (p.1 ≡ [])) }
{
    let held = AnswerBuffer::new(alloc)?;
    let waiting = Waiting::new(alloc)?;
    Ok((held, waiting))
}

/// Makes the calls of a session again at a console that keeps them, and tells how many were made to `to`, where there
/// is one.
pub fn migrate_watched<P: Print>(
    alloc: Global,
    session: &Session,
    to: Option<&P>,
) -> Result<Console, MigrateFault>
    ensures ok { IfOk result (Migrates session.now.site session.now.entries) }
    ensures fault { IfErr result (NotMigrated session.now.site session.now.entries) }
{
    let progress = Progress::new(to, None, "calls");
    let mut gate = Counting {
        progress: &progress,
    };
    let migrated = migrate_through(alloc, session, &mut gate);
    progress.end();
    migrated
}

/// How a migration ended whose session was checked, by how writing ended.
fn ended_as(written: Result<(), SinkFailed>, checked: Checked) -> Result<Checked, OutputFault>
    ensures { result ≡ migrated_as written checked }
{
    match written {
        Ok(()) => Ok(checked),
        Err(SinkFailed) => Err(OutputFault::Write),
    }
}

/// Writes the session of a console. The program ends with it, so the system takes the memory of the console back as a
/// whole.
fn tell_console<W: Sink + Drop>(
    console: Console,
    mut held: AnswerBuffer,
    waiting: Waiting,
    writer: W,
) -> Migrated<W>
    requires { (held ≡ []) × (waiting ≡ []) }
    ensures ok { (site : Config) (entries : List Entry) → Migrates site entries console → IfOk result.ended (λ checked. IsMigrated site entries checked
        (sink_state W.contents W.waiting W.failures W.flushes writer) (sink_state W.contents W.waiting W.failures W.flushes result.writer)) }
    ensures fault { (site : Config) (entries : List Entry) → Migrates site entries console → IfErr result.ended (λ e. IsNotMigrated e site entries
        (sink_state W.contents W.waiting W.failures W.flushes writer) (sink_state W.contents W.waiting W.failures W.flushes result.writer)) }
{
    let checked = Checked::Same(console.log().len() as u64);
    let (written, writer) = session_buffered::<_, Brand>(
        &console,
        &mut held,
        waiting,
        writer,
        Blank::new(4),
    );
    mem::forget(console);
    Migrated {
        ended: ended_as(written, checked),
        writer,
    }
}

/// Writes the line of the first call with another reply.
fn tell_difference<W: Sink + Drop>(
    number: u64,
    mut held: AnswerBuffer,
    mut writer: W,
) -> Migrated<W>
    requires { held ≡ [] }
    ensures ok { (site : Config) (entries : List Entry) → Checks site entries (Checked.Differs number) → IfOk result.ended (λ checked. IsMigrated site entries checked
        (sink_state W.contents W.waiting W.failures W.flushes writer) (sink_state W.contents W.waiting W.failures W.flushes result.writer)) }
    ensures fault { (site : Config) (entries : List Entry) → Checks site entries (Checked.Differs number) → IfErr result.ended (λ e. IsNotMigrated e site entries
        (sink_state W.contents W.waiting W.failures W.flushes writer) (sink_state W.contents W.waiting W.failures W.flushes result.writer)) }
{
    let checked = Checked::Differs(number);
    let written = write_told(&mut writer, &mut held, &checked);
    Migrated {
        ended: ended_as(written, checked),
        writer,
    }
}

/// Makes the calls of a session again and writes the session in version 2, or the line of the first call with another
/// reply. How many calls were made is told to `to`, where there is one.
pub fn migrate_to<P: Print, W: Sink + Drop>(
    alloc: Global,
    session: Session,
    to: Option<&P>,
    mut writer: W,
) -> Migrated<W>
    ensures ok { IfOk result.ended (λ checked. IsMigrated session.site session.entries checked
        (sink_state W.contents W.waiting W.failures W.flushes writer) (sink_state W.contents W.waiting W.failures W.flushes result.writer)) }
    ensures fault { IfErr result.ended (λ e. IsNotMigrated e session.site session.entries
        (sink_state W.contents W.waiting W.failures W.flushes writer) (sink_state W.contents W.waiting W.failures W.flushes result.writer)) }
{
    let Ok((held, waiting)) = room_to_tell(alloc) else {
        let ended = Err(give_up(&mut writer));
        return Migrated { ended, writer };
    };
    match migrate_watched(alloc, &session, to) {
        Ok(console) => tell_console(console, held, waiting, writer),
        Err(MigrateFault::Differs(number)) => tell_difference(number, held, writer),
        Err(MigrateFault::OutOfMemory) => {
            let ended = Err(give_up(&mut writer));
            Migrated { ended, writer }
        }
    }
}
