//! A session's calls, made again at a console that keeps them.

ghost use Rattle.std.specs.Prelude.{◌≡◌, ℕ, length, IfOk, IfErr, IsErrOf, OnOk};
ghost use Rattle.esx_types.specs.Ranges.{IsConfig};
ghost use Rattle.esx_check.specs.Gates.{GoesTo, PassedFor, PassedForSome};
ghost use Rattle.esx_check.specs.Migrations.{Migrates, NotMigrated};

use crate::again::Again;
use esx_console::Console;
use esx_door::{Gate, Open};
use esx_session::{Entry, Session};
use esx_types::Config;
use std::alloc::Global;
use thiserror::Error;

/// Why a session is not migrated.
#[derive(Debug, Drop, Error, PartialEq, Eq)]
pub enum MigrateFault {
    /// The first call, from 1 on, that has another reply.
    #[error("differs {0}")]
    Differs(u64),
    #[error("no memory")]
    OutOfMemory,
}

/// Makes the calls of entries again at a site that is opened for them, and passes the gate before each.
fn migrate_calls<G: Gate>(
    alloc: Global,
    site: Config,
    entries: &[Entry],
    gate: &mut G,
) -> Result<Console, MigrateFault>
    requires { IsConfig site }
    ensures ok { IfOk result (Migrates site entries.now) }
    ensures fault { IfErr result (NotMigrated site entries.now) }
    ensures gate { OnOk result (PassedFor G.passes (length entries.now) gate.old gate.new) }
    ensures differs { (number : ℕ) → IsErrOf result (MigrateFault.Differs number) → PassedFor G.passes number gate.old gate.new }
    ensures some { IsErrOf result MigrateFault.OutOfMemory → PassedForSome G.passes (GoesTo site entries.now) gate.old gate.new }
{
    let Ok(mut again) = Again::open_logged(alloc, site) else {
        return Err(MigrateFault::OutOfMemory);
    };
    let mut count: u64 = 0;
    for entry in entries {
        count += 1;
        let Ok(same) = again.has_same_reply(gate, count, entry) else {
            return Err(MigrateFault::OutOfMemory);
        };
        if !same {
            return Err(MigrateFault::Differs(count));
        }
    }
    let _ = again.console.log();
    Ok(again.console)
}

/// Makes the calls of a session again, in their order and each by its caller, up to the first that has another reply
/// than the one that stands with it. It is a check whose console keeps its calls.
///
/// Where each call has its reply, the log has the callers and the calls of the session, and its replies have the texts
/// that stand there. So what is printed of it is the session, in version 2.
pub fn migrate(alloc: Global, session: &Session) -> Result<Console, MigrateFault>
    ensures ok { IfOk result (Migrates session.now.site session.now.entries) }
    ensures fault { IfErr result (NotMigrated session.now.site session.now.entries) }
{
    migrate_through(alloc, session, &mut Open)
}

/// As `migrate`, and passes the gate before each call, with the number of the call as its turn (past 2^32 - 1 with
/// that number). What the migration comes to is the same whatever the gate answers, where memory does not run out.
///
/// Where memory runs out the gate was passed for the first calls of the session, for none that it does not have,
/// and for none behind the first that has another reply.
pub fn migrate_through<G: Gate>(
    alloc: Global,
    session: &Session,
    gate: &mut G,
) -> Result<Console, MigrateFault>
    ensures ok { IfOk result (Migrates session.now.site session.now.entries) }
    ensures fault { IfErr result (NotMigrated session.now.site session.now.entries) }
    ensures gate { OnOk result (PassedFor G.passes (length session.now.entries) gate.old gate.new) }
    ensures differs { (number : ℕ) → IsErrOf result (MigrateFault.Differs number) → PassedFor G.passes number gate.old gate.new }
    ensures some { IsErrOf result MigrateFault.OutOfMemory → PassedForSome G.passes (GoesTo session.now.site session.now.entries) gate.old gate.new }
{
    migrate_calls(alloc, session.site(), session.entries(), gate)
}
