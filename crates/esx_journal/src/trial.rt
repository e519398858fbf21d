//! Events that are tried and taken back.

ghost use Rattle.std.specs.Prelude.{◌≡◌, ◌≤◌, ◌+◌, drop, length};
ghost use Rattle.esx_events.specs.declared.events.TheConstants.{MAX_EVENTS};
ghost use Rattle.esx_types.specs.declared.config.TheConstants.{MAX_NODES};
ghost use Rattle.esx_model.specs.declared.scene.Scene.{Scene};
ghost use Rattle.esx_model.specs.Epochs.{AreEpochsWithin};
ghost use Rattle.esx_machine.specs.Machine.{Shows};
ghost use Rattle.esx_journal.specs.Trial.{Tells};

use crate::row::revert;
use esx_events::{Answer, Event, Refusal, Sum};
use esx_machine::Machine;
use std::alloc::AllocError;

/// Tries the events from a place on, up to the first that is refused, and takes them back. Adds what each
/// answered to the replies, and answers the frames after them.
pub fn try_events(
    machine: &mut Machine,
    events: &[Event],
    at: usize,
    replies: &mut Vec<Result<Answer, Refusal>>,
) -> Result<Sum, AllocError>
    requires within { at ≤ length events.now }
    requires few { length events.now ≤ MAX_EVENTS }
    requires shows { (scene : Scene) × Shows machine.old scene × AreEpochsWithin (MAX_NODES + at) scene.site }
    ensures same { machine.new ≡ machine.old }
    ensures tells { (scene : Scene) → Shows machine.old scene
        → Tells result machine.old.config scene (drop at events.now) replies.old.items replies.new.items }
{
    if at == events.len() {
        return Ok(machine.sum());
    }
    replies.reserve(1)?;
    match machine.apply(&events[at]) {
        Ok((answer, back)) => {
            replies.push(Ok(answer)).unwrap();
            let after = try_events(machine, events, at + 1, replies);
            revert(machine, back);
            after
        }
        Err(refusal) => match refusal {
            Refusal::OutOfMemory => Err(AllocError),
            _ => {
                replies.push(Err(refusal)).unwrap();
                Ok(machine.sum())
            }
        },
    }
}
