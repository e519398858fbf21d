//! The losses of a path, each with its call.

ghost use Rattle.std.specs.Prelude.{◌≡◌, ℕ, List, Some, option_map, IsSome, IfOk, string_bytes};
ghost use Rattle.esx_types.specs.declared.config.Config.{Config};
ghost use Rattle.esx_events.specs.declared.event.Event.{Event};
ghost use Rattle.esx_words.specs.Commands.{spelling};
ghost use Rattle.esx_session.specs.declared.session.Entry.{Entry};
ghost use Rattle.esx_session.specs.declared.session.Request.{Request};
ghost use Rattle.esx_story.specs.Moments.{moments};
ghost use Rattle.esx_story.specs.Waits.{Met};
ghost use Rattle.esx_story.specs.Story.{told};
ghost use Rattle.esx_walk.specs.Walks.{IsWalk};
ghost use Rattle.esx_account.specs.Asking.{call_asked};
ghost use Rattle.esx_report.specs.Losses.{AreGoodLines};
ghost use Rattle.esx_account.specs.Lines.{waypoint_numbered, told_line, AreLinesOf, AreAsked};
ghost use Rattle.esx_account.specs.Surveying.{IsPathOf, IsAlong};

use crate::asking::call_asked;
use esx_paths::{Path, Waypoint};
use esx_report::LossLine;
use esx_session::Script;
use esx_story::Loss;
use esx_walk::Walk;
use esx_words::print_command;
use std::alloc::{AllocError, Global};

/// A loss with the waypoint of its event.
fn loss_line(waypoints: &[Waypoint], loss: &Loss) -> LossLine
    requires { IsSome (waypoint_numbered waypoints.now loss.now.at) }
    ensures { told_line waypoints.now loss.now ≡ Some result }
{
    let waypoint = &waypoints[loss.at as usize - 1];
    LossLine {
        node: waypoint.node,
        call: waypoint.call,
        by: waypoint.caller,
        loss: *loss,
    }
}

/// The losses of a path that was walked, the oldest first, each with the node and the call of its event, and who made the call.
///
/// condition: the walk is of a path that has as many events, as that of a survey of `survey_script` is
pub fn loss_lines(alloc: Global, walk: &Walk, path: &Path) -> Result<Vec<LossLine>, AllocError>
    requires along { IsAlong path.now.waypoints walk.now }
    ensures told { (site : Config) (es : List Event) (mets : List Met) → IsWalk site es mets walk.now → IfOk result (λ lines. AreLinesOf path.now.waypoints (told site (moments site es) mets) lines.items) }
    ensures good { IfOk result (λ lines. AreGoodLines lines.items) }
    ensures asked { (site : Config) (entries : List Entry) (requests : List Request) → IsPathOf site entries requests path.now → IfOk result (λ lines. AreAsked requests lines.items) }
{
    let waypoints = path.waypoints.as_slice();
    let losses = walk.losses();
    let mut lines = Vec::with_capacity(alloc, losses.len())?;
    for loss in losses {
        lines.push(loss_line(waypoints, loss))?;
    }
    Ok(lines)
}

/// The call of a loss, as it is spelled in a session.
///
/// condition: the session has a call with its number, as it has for each of `loss_lines`
pub fn loss_command(alloc: Global, script: &Script, line: &LossLine) -> Result<String, AllocError>
    requires { IsSome (call_asked script.now.requests line.now.call) }
    ensures { IfOk result (λ text. option_map spelling (call_asked script.now.requests line.now.call) ≡ Some (string_bytes text)) }
{
    print_command(alloc, call_asked(script.requests.as_slice(), line.call))
}
