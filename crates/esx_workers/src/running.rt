//! The run of a worker.

ghost use Rattle.std.specs.Prelude.{◌≡◌, IfOk, OnOk, OnErr};
ghost use Rattle.esx_door.specs.Own.{lines_of};
ghost use Rattle.esx_workers.specs.Runs.{Ended, Broken, Gated, Stopped, Called, Short};

use crate::end::{End, How};
use crate::passed::{Tally, is_access};
use crate::worker::Worker;
use esx_door::{Door, Gate};
use std::alloc::{AllocError, Global};

/// Makes a worker's calls until it ends, and passes the gate before each, with the number of its turn. Where the
/// gate gives up it makes no more calls.
pub fn run<D: Door, G: Gate>(
    door: &mut D,
    gate: &mut G,
    alloc: Global,
    mut worker: Worker,
    turns: u32,
) -> Result<End, AllocError>
    requires { D.can_submit door.old }
    ensures again { D.can_submit door.new }
    ensures leads { D.leads door.old door.new }
    ensures caller { D.caller door.new ≡ D.caller door.old }
    ensures ok { IfOk result (λ end. Ended (G.is_open gate.old) (D.caller door.old) worker.entry turns end (lines_of (D.caller door.old) (D.seen door.old)) (lines_of (D.caller door.old) (D.seen door.new))) }
    ensures gate { IfOk result (λ end. Gated G.passes gate.old gate.new worker.entry turns end (lines_of (D.caller door.old) (D.seen door.old)) (lines_of (D.caller door.old) (D.seen door.new))) }
    ensures err { OnErr result (Broken (D.caller door.old) worker.entry turns (lines_of (D.caller door.old) (D.seen door.old)) (lines_of (D.caller door.old) (D.seen door.new))) }
    ensures stopped { OnErr result (Stopped G.passes gate.old gate.new worker.entry (lines_of (D.caller door.old) (D.seen door.old)) (lines_of (D.caller door.old) (D.seen door.new))) }
    ensures made { OnOk result (Called D.made door.old door.new (lines_of (D.caller door.old) (D.seen door.old)) (lines_of (D.caller door.old) (D.seen door.new))) }
    ensures wanted { OnErr result (Short G.passes D.made D.wanted gate.old gate.new door.old door.new worker.entry (lines_of (D.caller door.old) (D.seen door.old)) (lines_of (D.caller door.old) (D.seen door.new))) }
{
    let mut tally = Tally {
        first: None,
        passed: 0,
    };
    for turn in 0..turns {
        let Some(call) = worker.ask(alloc)? else {
            return Ok(tally.end(worker.rest()));
        };
        if !gate.pass_through(turn + 1) {
            return Ok(tally.end(worker.rest()));
        }
        let access = is_access(&call);
        let reply = door.submit(call)?;
        worker.hear(&reply);
        if tally.hear(access, &reply) {
            return Ok(tally.end(How::Rewound));
        }
    }
    Ok(tally.end(worker.rest()))
}
