//! The walk of a whole path.

ghost use Rattle.std.specs.Prelude.{◌≢◌, ◌≤◌, [], length, IfOk, IfErr};
ghost use Rattle.esx_types.specs.declared.config.TheConstants.{MAX_NODES};
ghost use Rattle.esx_walk.specs.Walks.{IsWalk, IsStopped};

use crate::walk::Walk;
use esx_events::{Event, Refusal};
use esx_types::Config;
use std::alloc::Global;

/// The walk of a whole path. It stops at the first event that is refused, or where memory runs out.
///
/// condition: the path has no more events than a journal may have nodes
pub fn walk_path(alloc: Global, site: Config, events: &[Event]) -> Result<Walk, Refusal>
    requires short { length events.now ≤ MAX_NODES }
    ensures goes { IfOk result (λ walk. IsWalk site events.now [] walk) }
    ensures stops { IfErr result (λ e. e ≢ Refusal.OutOfMemory → IsStopped site events.now e) }
{
    let mut walk = Walk::open(alloc, site)?;
    for (_at, event) in events.iter().enumerate() {
        match walk.go(event) {
            Ok(_answer) => {}
            Err(refusal) => return Err(refusal),
        }
    }
    Ok(walk)
}
