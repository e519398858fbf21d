//! The path that a question is about.

ghost use Rattle.std.specs.Prelude.{◌≡◌, IfOk, IfErr};
ghost use Rattle.esx_model.specs.Console.{Session};
ghost use Rattle.esx_paths.specs.Ats.{IsPathAt};
ghost use Rattle.esx_paths.specs.Pasts.{IsPastOf};
ghost use Rattle.esx_reports.specs.Paths.{IsFaultOf, HasNoNode, IsPathMeant, HasNoPath};

use crate::fault::ReportFault;
use esx_check::OutputFault;
use esx_door::Gate;
use esx_events::Refusal;
use esx_paths::{At, Gone, Past, Path, past_of_text};
use std::alloc::Global;

/// What is told where there is no path.
fn fault_of(refusal: Refusal) -> ReportFault
    ensures { IsFaultOf refusal result }
{
    match refusal {
        Refusal::OutOfMemory => ReportFault::Output(OutputFault::OutOfMemory),
        _ => ReportFault::Refused(refusal),
    }
}

/// The path to a node of what is kept of a session.
fn path_in(past: Past, at: At) -> Result<Path, ReportFault>
    ensures path { (s : Session) → IsPastOf past s → IfOk result (IsPathAt s at) }
    ensures none { (s : Session) → IsPastOf past s → IfErr result (HasNoNode s at) }
{
    match past.path_to(at) {
        Ok(path) => Ok(path),
        Err(refusal) => Err(fault_of(refusal)),
    }
}

/// The path to the node that is meant of the session of a text. The session is checked first: each call is made again, and
/// before each the gate is passed.
pub(crate) fn path_meant<G: Gate>(
    alloc: Global,
    text: &str,
    at: At,
    gate: &mut G,
) -> Result<Path, ReportFault>
    ensures path { IfOk result (IsPathMeant text.now at) }
    ensures none { IfErr result (HasNoPath text.now at) }
{
    match past_of_text(alloc, text, gate) {
        Ok(Gone::Through { past }) => path_in(past, at),
        Ok(Gone::Differs { call }) => Err(ReportFault::Differs(call)),
        Err(fault) => Err(ReportFault::Text(fault)),
    }
}
