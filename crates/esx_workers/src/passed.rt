//! What a worker notes of the replies to its calls.

ghost use Rattle.std.specs.Prelude.{◌≡◌, ◌≢◌, ◌↔◌, ◌+◌, ◌-◌, ◌<◌, ◌^◌, if◌then◌else◌, Some, IsTrue};
ghost use Rattle.esx_model.specs.Guests.{is_wait};
ghost use Rattle.esx_workers.specs.Passed.{is_access_call, is_refused, is_passed, first_of};

use crate::end::{End, How};
use esx_events::{Call, Event, Refusal, Reply, Said};

/// Is it a read or a write?
pub fn is_access(call: &Call) -> bool
    ensures { result ≡ is_access_call call.now }
{
    matches!(
        call,
        Call::Do {
            event: Event::Read { .. } | Event::Write { .. }
        }
    )
}

/// Was an access refused since its machine is held back, or since frames are short?
pub fn is_wait(said: &Said) -> bool
    ensures { result ≡ is_wait said.now }
{
    matches!(
        said,
        Said::Refused {
            refusal: Refusal::Held | Refusal::Short
        }
    )
}

fn is_refused(said: &Said) -> bool
    ensures { result ≡ is_refused said.now }
{
    matches!(said, Said::Refused { .. })
}

/// The jumps of the first reply, once there was one, and how many refusals were passed over.
#[derive(Clone, Copy, Debug)]
pub struct Tally {
    pub first: Option<u64>,
    pub passed: u32,
}

impl Tally {
    /// Notes a reply, to an access or to another call. Has the cursor jumped since the first reply?
    pub fn hear(&mut self, access: bool, reply: &Reply) -> bool
        requires { self.old.passed < 2 ^ 32 - 1 }
        ensures jumped { IsTrue result ↔ (reply.now.jumps ≢ first_of self.old.first reply.now.jumps) }
        ensures first { self.new.first ≡ Some (first_of self.old.first reply.now.jumps) }
        ensures passed { self.new.passed ≡ self.old.passed + (if is_passed access reply.now.said then 1 else 0) }
    {
        if is_refused(&reply.said) && !(access && is_wait(&reply.said)) {
            self.passed += 1;
        }
        let first = self.first.unwrap_or(reply.jumps);
        self.first = Some(first);
        reply.jumps != first
    }

    /// The end of a worker.
    pub fn end(&self, how: How) -> End
        ensures { result ≡ record { how = how; passed = self.now.passed } }
    {
        End {
            how,
            passed: self.passed,
        }
    }
}
