//! How the page that an event is about moved.

ghost use Rattle.std.specs.Prelude.{◌≡◌};
ghost use Rattle.esx_sums.specs.Telling.{written_from, moved_by};

use esx_events::{Answer, Event, PageState, Refusal, Scanned};
use esx_story::{Change, How};
use esx_types::VmId;

fn written_from(vm: VmId, page: u32, before: Result<PageState, Refusal>) -> Option<Change>
    ensures { result ≡ written_from vm page before }
{
    match before {
        Ok(PageState::Shared { count, .. }) => {
            let how = if 1 < count { How::Cow } else { How::Own };
            Some(Change { vm, page, how })
        }
        _ => None,
    }
}

/// How the page that an accepted event is about moved, if it stayed in frames: one that is scanned, one that is shared in
/// place of being paged out, or one that is written. `before` is where the page that the event names was before it.
pub fn moved(event: &Event, answer: &Answer, before: Result<PageState, Refusal>) -> Option<Change>
    ensures { result ≡ moved_by event.now answer.now before }
{
    match (event, answer) {
        (
            Event::Scan { vm, page },
            Answer::Looked {
                scanned: Scanned::Shared { .. },
            },
        ) => {
            Some(Change {
                vm: *vm,
                page: *page,
                how: How::Share,
            })
        }
        (Event::SwapOut { vm, .. }, Answer::SharedOut { page, .. }) => Some(Change {
            vm: *vm,
            page: *page,
            how: How::Share,
        }),
        (Event::Write { vm, page, .. }, _) => written_from(*vm, *page, before),
        _ => None,
    }
}
