//! How many pages a machine may have on a path.

ghost use Rattle.std.specs.Prelude.{◌≡◌, List};
ghost use Rattle.esx_events.specs.declared.event.Event.{Event};
ghost use Rattle.esx_session.specs.declared.session.Entry.{Entry};
ghost use Rattle.esx_account.specs.Pages.{admitted_with, greater, most_pages};
ghost use Rattle.esx_account.specs.Surveying.{IsPathOf, AreEvents, events_to};

use crate::asking::event_asked;
use esx_events::Event;
use esx_paths::{Path, Waypoint};
use esx_session::{Request, Script};

/// The greatest memory with which an event admits a machine, where it does.
fn admitted_with(vm: u32, event: &Event) -> Option<u32>
    ensures { result ≡ admitted_with vm event.now }
{
    let Event::Admit { vm: admitted, spec } = event else {
        return None;
    };
    if u32::from(admitted.number()) == vm {
        Some(spec.max)
    } else {
        None
    }
}

fn greater(most: Option<u32>, next: Option<u32>) -> Option<u32>
    ensures { result ≡ greater most next }
{
    match (most, next) {
        (None, next) => next,
        (Some(most), None) => Some(most),
        (Some(most), Some(next)) => Some(most.max(next)),
    }
}

/// The greatest memory with which any of some calls admits a machine.
fn most_asked(requests: &[Request], waypoints: &[Waypoint], vm: u32) -> Option<u32>
    requires { (es : List Event) × AreEvents requests.now waypoints.now es }
    ensures { (es : List Event) → AreEvents requests.now waypoints.now es → result ≡ most_pages vm es }
{
    let mut most = None;
    for (_at, waypoint) in waypoints.iter().enumerate() {
        let event = event_asked(requests, waypoint.call);
        most = greater(most, admitted_with(vm, event));
    }
    most
}

/// How many pages a machine may ever have had on a path: the greatest memory with which it was admitted, in any of its lives.
/// None where it never was, and where no machine has that number.
///
/// condition: the path is one of the session of those calls
pub fn most_pages(script: &Script, path: &Path, vm: u32) -> Option<u32>
    requires { (entries : List Entry) × IsPathOf script.now.site entries script.now.requests path.now }
    ensures { (entries : List Entry) → IsPathOf script.now.site entries script.now.requests path.now → result ≡ most_pages vm (events_to script.now.site entries path.now) }
{
    most_asked(script.requests.as_slice(), path.waypoints.as_slice(), vm)
}
