//! Two callers at one desk, where memory may be wanting.

ghost use Rattle.esx_desk.specs.Told.{IsOf};

use crate::calls::{guest, read, write};
use crate::plays::{closed, started};
use crate::signs::first_byte;
use esx_desk::{Desk, Pass};
use esx_events::{Call, Line, Refusal, Said};
use std::alloc::Global;
use std::sync::Wait;

/// How many calls come before these two.
pub const STARTED: usize = 2;

const WRITTEN: u8 = 0x2a;

/// Which of two calls were answered.
#[derive(Clone, Copy)]
pub struct Answered {
    pub wrote: bool,
    pub read: bool,
}

/// Whether a line is the second caller's read of a byte.
fn is_read(line: &Line, byte: u8) -> bool {
    match &line.reply.said {
        Said::Done { answer } => line.caller == 1 && first_byte(answer) == Some(byte),
        _ => false,
    }
}

/// Whether the log has, behind the opening, the calls that were answered and no other: the first caller's write, and the
/// second caller's read of what is there then.
fn is_log(log: &[Line], answered: Answered) -> bool {
    match log.get(STARTED..).unwrap_or(&[]) {
        [write, read] => {
            answered.wrote && answered.read && write.caller == 0 && is_read(read, WRITTEN)
        }
        [line] if answered.wrote => !answered.read && line.caller == 0,
        [line] => answered.read && is_read(line, 0),
        _ => false,
    }
}

/// The first caller writes, and then the second reads. None where the console is held after a call, or its gauge is
/// another after a call that was not answered, or the same after an answered write.
fn called<R: Wait>(
    rt: &R,
    desk: &Desk,
    first: &mut Pass,
    second: &mut Pass,
    write: Call,
) -> Option<Answered>
    requires { IsOf desk.now first.old × IsOf desk.now second.old }
    ensures { IsOf desk.now first.new × IsOf desk.now second.new }
{
    let before = desk.peek(second);
    let wrote = desk.submit(rt, first, write).is_ok();
    let between = desk.peek(second);
    let read = desk.submit(rt, second, read(guest(0), 0, 1)).is_ok();
    let after = desk.peek(first);
    let is_held = before.held || between.held || after.held;
    let is_told = (between == before) != wrote && (read || after == between);
    if is_held || !is_told {
        return None;
    }
    Some(Answered { wrote, read })
}

/// A write and a read, of which one may find no memory: that leaves the console free, its gauge as it was and no line, and
/// the other is answered. None where it is otherwise.
pub fn write_and_read<R: Wait>(rt: &R, alloc: Global) -> Result<Option<Answered>, Refusal> {
    let write = write(alloc, guest(0), 0, WRITTEN)?;
    let (desk, mut first, mut second) = started(rt, alloc)?;
    let called = called(rt, &desk, &mut first, &mut second, write);
    let (Some(answered), Some(console)) = (called, closed(desk, first, second)) else {
        return Ok(None);
    };
    Ok(if is_log(console.log(), answered) {
        Some(answered)
    } else {
        None
    })
}
