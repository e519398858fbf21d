//! The calls of a session, by their numbers.

ghost use Rattle.std.specs.Prelude.{◌≡◌, Some, IsSome};
ghost use Rattle.esx_account.specs.Asking.{call_asked, event_asked};

use esx_events::{Call, Event};
use esx_session::Request;

/// The call that has this number, from 1 on.
pub(crate) fn call_asked(requests: &[Request], number: u32) -> &Call
    requires { IsSome (call_asked requests.now number) }
    ensures { call_asked requests.now number ≡ Some result.now }
{
    &requests[number as usize - 1].call
}

/// The event that it is to make.
pub(crate) fn event_asked(requests: &[Request], number: u32) -> &Event
    requires { IsSome (event_asked requests.now number) }
    ensures { event_asked requests.now number ≡ Some result.now }
{
    match call_asked(requests, number) {
        Call::Do { event } => event,
        _ => unreachable!(),
    }
}
