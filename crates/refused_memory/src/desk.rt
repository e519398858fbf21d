//! Two callers at a desk.

use crate::outcomes::Outcome;
use desk_tests::wanting::{Answered, STARTED, write_and_read};
use esx_events::Refusal;
use std::alloc::Global;
use std::sync::Wait;

fn of_calls(answered: Answered) -> Outcome {
    if answered.wrote && answered.read {
        Outcome::Right
    } else {
        Outcome::OutOfMemory(STARTED + usize::from(answered.wrote))
    }
}

/// A step is a call that is answered.
pub fn of_desk<R: Wait>(rt: &R, alloc: Global) -> Outcome {
    match write_and_read(rt, alloc) {
        Ok(Some(answered)) => of_calls(answered),
        Err(Refusal::OutOfMemory) => Outcome::OutOfMemory(0),
        Ok(None) | Err(_) => Outcome::Otherwise,
    }
}
