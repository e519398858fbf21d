//! What on a path is otherwise than it should be.

use esx_events::Call;
use std::alloc::AllocError;
use thiserror::Error;

/// What on a path is otherwise than it should be.
#[derive(Clone, Copy, Debug, Error)]
pub enum Fault {
    #[error("no memory")]
    OutOfMemory,
    #[error("the site is refused")]
    Site,
    #[error("the plain program refuses an event of the path")]
    Path,
    #[error("an event has another answer")]
    Event,
    #[error("a move has another answer")]
    Move,
    #[error("a prune has another answer")]
    Prune,
    #[error("a name has another answer")]
    Name,
    #[error("a try has another answer")]
    Try,
    #[error("a question has another answer")]
    Question,
    #[error("the free frames or the level are other ones")]
    Gauge,
    #[error("the log has more or fewer lines")]
    Log,
    #[error("the plain program comes to another book")]
    Book,
}

impl Fault {
    /// What it is where a call has another answer.
    pub fn of(call: &Call) -> Fault {
        match call {
            Call::Do { .. } => Fault::Event,
            Call::Undo { .. } | Call::Redo { .. } | Call::Goto { .. } => Fault::Move,
            Call::Visit { .. } | Call::Mark { .. } | Call::Marks => Fault::Name,
            Call::Prune { .. } => Fault::Prune,
            Call::WhatIf { .. } => Fault::Try,
            _ => Fault::Question,
        }
    }
}

impl From<AllocError> for Fault {
    fn from(_error: AllocError) -> Fault {
        Fault::OutOfMemory
    }
}

/// Goes on if something holds.
pub fn expect(holds: bool, fault: Fault) -> Result<(), Fault> {
    if holds { Ok(()) } else { Err(fault) }
}
