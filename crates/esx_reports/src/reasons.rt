//! Why pages of a guest were lost, with the calls as they are spelled.

ghost use Rattle.std.specs.Prelude.{◌≡◌, ◌+◌, Some, IsSome, IfOk};
ghost use Rattle.esx_account.specs.Asking.{call_asked};
ghost use Rattle.esx_account.specs.Lines.{AreAsked};
ghost use Rattle.esx_report.specs.Losses.{AreGoodLines};
ghost use Rattle.esx_report.specs.Why.{AreGoodWhys};
ghost use Rattle.esx_reports.specs.Reasons.{why_told, why_wanted, AreWhysOf};

use esx_account::loss_command;
use esx_report::{LossLine, Opened, Why};
use esx_session::Script;
use std::alloc::{AllocError, Global};

/// How many frames are free when level high returns.
fn returns_at(opened: &Opened) -> u64
    ensures { result ≡ opened.now.high + opened.now.margin }
{
    u64::from(opened.high) + u64::from(opened.margin)
}

/// What tells the reason of a loss.
fn why_of(
    alloc: Global,
    opened: &Opened,
    script: &Script,
    line: &LossLine,
) -> Result<Why, AllocError>
    requires { IsSome (call_asked script.now.requests line.now.call) }
    ensures { IfOk result (λ why. Some (why_told why) ≡ why_wanted opened.now script.now.requests line.now) }
{
    let command = loss_command(alloc, script, line)?;
    Ok(Why {
        line: *line,
        command,
        frames: opened.frames,
        returns_at: returns_at(opened),
    })
}

/// The same of each of some losses.
pub(crate) fn whys_of(
    alloc: Global,
    opened: &Opened,
    script: &Script,
    lines: &[LossLine],
) -> Result<Vec<Why>, AllocError>
    requires asked { AreAsked script.now.requests lines.now }
    requires good { AreGoodLines lines.now }
    ensures whys { IfOk result (λ whys. AreWhysOf opened.now script.now.requests lines.now whys.items) }
    ensures good { IfOk result (λ whys. AreGoodWhys whys.items) }
{
    let mut whys = Vec::with_capacity(alloc, lines.len())?;
    for line in lines {
        whys.push(why_of(alloc, opened, script, line)?)?;
    }
    Ok(whys)
}
