//! What an event changed of the pages in shared frames, by its answer.

ghost use Rattle.std.specs.Prelude.{◌≡◌};
ghost use Rattle.esx_figures.specs.Sharing.{parting, joining, is_told_shared};

use esx_events::{Answer, Event, PageState, Refusal, Scanned};
use esx_types::VmId;

/// The page that an accepted event left by itself, or out of frames: if it was in a shared frame, it is in none now.
pub fn parting(event: &Event, answer: &Answer) -> Option<(VmId, u32)>
    ensures { result ≡ parting event.now answer.now }
{
    match (event, answer) {
        (Event::Write { vm, page, .. }, _) => Some((*vm, *page)),
        (Event::Lend { vm, page }, Answer::Lent { .. }) => Some((*vm, *page)),
        (Event::SwapOut { vm, .. }, Answer::PagedOut { page, .. }) => Some((*vm, *page)),
        (Event::Replace { vm, .. }, Answer::Replaced { page, .. }) => Some((*vm, *page)),
        (Event::DropPage { vm, page }, _) => Some((*vm, *page)),
        _ => None,
    }
}

/// The machine of the page that an accepted event brought into a shared frame.
pub fn joining(event: &Event, answer: &Answer) -> Option<VmId>
    ensures { result ≡ joining event.now answer.now }
{
    match (event, answer) {
        (
            Event::Scan { vm, .. },
            Answer::Looked {
                scanned: Scanned::Shared { .. },
            },
        ) => Some(*vm),
        (Event::SwapOut { vm, .. }, Answer::SharedOut { .. }) => Some(*vm),
        _ => None,
    }
}

/// Is a page told to be in a shared frame?
pub fn is_told_shared(page: Result<PageState, Refusal>) -> bool
    ensures { result ≡ is_told_shared page }
{
    matches!(page, Ok(PageState::Shared { .. }))
}
