//! What a console of one thread says of a log.

use crate::calls::{SITE, nth_call};
use crate::signs::{signs_of_call, signs_of_reply};
use esx_console::Console;
use esx_desk::Gauge;
use esx_events::{Call, Line, Refusal};
use esx_types::Level;
use std::alloc::{AllocError, Global};

/// The callers 0 to 7 alone are known here.
const CALLERS: usize = 8;

// Does a line say what the console answers to this call?
fn is_line(console: &mut Console, line: &Line, call: Call) -> Result<bool, AllocError> {
    let same = signs_of_call(&line.call) == signs_of_call(&call);
    let reply = console.call(line.caller, call)?;
    let jumps = line.reply.jumps == reply.jumps;
    Ok(same && jumps && signs_of_reply(&line.reply) == signs_of_reply(&reply))
}

/// The gauges after each line, where each caller's lines are its calls in order, with the replies of a console
/// of one thread.
pub fn gauges_along(alloc: Global, log: &[Line]) -> Result<Option<Vec<(u32, Level)>>, Refusal> {
    let mut console = Console::open(alloc, SITE)?;
    let mut gauges = Vec::with_capacity(alloc, log.len())?;
    let mut next = [0u64; CALLERS];
    for line in log {
        let Some(number) = next.get_mut(usize::from(line.caller)) else {
            return Ok(None);
        };
        let call = nth_call(alloc, line.caller, *number)?;
        *number = number.saturating_add(1);
        if !is_line(&mut console, line, call)? {
            return Ok(None);
        }
        gauges.push(console.gauge())?;
    }
    Ok(Some(gauges))
}

/// Do the gauges that were seen stand among all in this order?
pub fn in_order(seen: &[Gauge], all: &[(u32, Level)]) -> bool {
    let mut left = all;
    for gauge in seen {
        match left
            .iter()
            .position(|next| *next == (gauge.free, gauge.level))
        {
            Some(at) => left = &left[at..],
            None => return false,
        }
    }
    true
}

/// How many lines are a caller's.
pub fn count_of(log: &[Line], caller: u16) -> usize {
    log.iter().filter(|line| line.caller == caller).count()
}

/// The callers of the lines.
pub fn callers_of(alloc: Global, log: &[Line]) -> Result<Vec<u16>, AllocError> {
    let mut callers = Vec::with_capacity(alloc, log.len())?;
    for line in log {
        callers.push(line.caller)?;
    }
    Ok(callers)
}
