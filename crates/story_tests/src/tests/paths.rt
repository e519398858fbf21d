//! A small site, and paths of it.

ghost use Rattle.std.specs.Prelude.{◌+◌, ◌<◌, ◌≤◌, length, IfOk};
ghost use Rattle.esx_walk.specs.Complete.{AreGood};
ghost use Rattle.esx_walk.specs.Walks.{MayGoOn};
ghost use Rattle.story_tests.specs.Within.{IsWithin};

use esx_events::{Call, Event};
use esx_story::Loss;
use esx_types::{Config, VmId};
use esx_walk::Walk;
use esx_words::parse_command;
use std::alloc::Global;
use std::test::Fail;

/// A small site, where frames are soon scarce.
const SITE: Config = Config {
    frames: 8,
    page: 16,
    slots: 8,
    tau: 75,
    high: 6,
    soft: 4,
    hard: 2,
    low: 1,
    nodes: 16777216,
};

/// The page that an event is to read or write, if it is an access.
fn access_of(event: &Event) -> Option<(VmId, u32)> {
    match event {
        Event::Read { vm, page, .. } => Some((*vm, *page)),
        Event::Write { vm, page, .. } => Some((*vm, *page)),
        _ => None,
    }
}

/// The event that a command spells.
fn event_of(alloc: Global, command: &str) -> Result<Event, Fail> {
    match parse_command(alloc, command)? {
        Some(Call::Do { event }) => Ok(event),
        _ => Err(Fail::new("an event")),
    }
}

/// Makes one more event, or counts it as refused, behind so many.
fn make_one(walk: &mut Walk, event: &Event, before: usize)
    requires few { before < 100 }
    requires walk { IsWithin before walk.old }
    ensures { IsWithin (before + 1) walk.new }
{
    let _before = before;
    match walk.go(event) {
        Ok(_answer) => {}
        Err(refusal) => walk.refuse(access_of(event), refusal),
    }
}

/// A walk along some events, as commands spell them, of which those that are refused are counted as refused.
pub fn walk_along(alloc: Global, commands: &[&str]) -> Result<Walk, Fail>
    requires { length commands.now ≤ 100 }
    ensures { IfOk result MayGoOn }
{
    let Ok(mut walk) = Walk::open(alloc, SITE) else {
        return Err(Fail::new("an opening"));
    };
    for (at, command) in commands.iter().enumerate() {
        let event = event_of(alloc, command)?;
        make_one(&mut walk, &event, at);
    }
    Ok(walk)
}

/// The losses of a walk.
pub fn losses_of(walk: &Walk) -> &[Loss]
    requires { MayGoOn walk.now }
    ensures { AreGood result.now }
{
    walk.losses()
}

/// Pages make room for others of their machine, and another machine stops.
pub const PAGING: [&str; 20] = [
    "admit 0 3 6 1 1000 0",
    "admit 1 3 6 1 1000 0",
    "start 0",
    "start 1",
    "write 0 0 0 aa",
    "read 0 1 0 1",
    "read 0 2 0 1",
    "read 1 0 0 1",
    "read 1 1 0 1",
    "read 1 2 0 1",
    "read 0 3 0 1",
    "replace 0 3 1",
    "read 0 3 0 1",
    "replace 0 1 0",
    "replace 0 0 1",
    "read 0 0 0 1",
    "stop 1",
    "drop 1 0",
    "drop 1 1",
    "drop 1 2",
];

/// Two pages are lent, and one is written again.
pub const BALLOON: [&str; 13] = [
    "admit 0 2 8 1 1000 4",
    "start 0",
    "read 0 0 0 1",
    "read 0 1 0 1",
    "read 0 2 0 1",
    "read 0 3 0 1",
    "write 0 4 2 7f",
    "rebalance",
    "ask 0",
    "lend 0 3",
    "lend 0 2",
    "write 0 3 2 7f",
    "read 0 3 0 4",
];

/// A page is lent though another machine comes first, pages go out and are waited for, and a machine comes anew.
pub const TWO_LIVES: [&str; 33] = [
    "admit 0 2 6 1 1000 4",
    "admit 1 1 4 1 500 0",
    "start 0",
    "start 1",
    "read 0 0 0 1",
    "read 0 1 0 1",
    "read 0 2 0 1",
    "read 1 0 0 1",
    "read 1 1 0 1",
    "read 1 2 0 1",
    "rebalance",
    "vmtax 0 75",
    "lend 0 2",
    "swapout 1 0",
    "read 1 0 0 1",
    "write 1 0 0 ab",
    "read 1 1 0 1",
    "swapout 1 0",
    "read 1 0 0 1",
    "stop 1",
    "drop 1 0",
    "drop 1 1",
    "drop 1 2",
    "gone 1",
    "admit 1 1 4 1 500 0 20",
    "start 1",
    "read 1 0 0 1",
    "read 1 1 0 1",
    "read 1 2 0 1",
    "read 1 3 0 1",
    "rebalance",
    "swapout 1 3",
    "read 0 2 0 1",
];
