//! What an event moved, by its answer and by where the pages that it may move were before it and are after it.

ghost use Rattle.std.specs.Prelude.{◌≡◌};
ghost use Rattle.esx_story.specs.Spots.{how_here, how_out, how_of, asks, ends_loans};
ghost use Rattle.esx_passages.specs.Passages.{one_page, no_pages, movers, how_between, passage_by};
ghost use Rattle.esx_passages.specs.Readings.{told_spot, new_epoch};

use crate::passage::{Pages, Passage};
use esx_events::{Answer, Event, PageState, Refusal};
use esx_story::{How, Spot};
use esx_types::VmId;

fn one_page(vm: VmId, page: u32) -> Pages
    ensures { result ≡ one_page vm page }
{
    Pages {
        first: None,
        second: Some((vm, page)),
    }
}

fn no_pages() -> Pages
    ensures { result ≡ no_pages }
{
    Pages {
        first: None,
        second: None,
    }
}

/// The pages that an accepted event may move: the one that makes room before the one that comes, and the one in whose frame
/// another comes before that other. `found` is the page that the event found to be equal to its own, alone in its frame.
pub fn movers(event: &Event, answer: &Answer, found: Option<(VmId, u32)>) -> Pages
    ensures { result ≡ movers event.now answer.now found }
{
    match (event, answer) {
        (Event::Read { vm, page, .. }, _) => one_page(*vm, *page),
        (Event::Write { vm, page, .. }, _) => one_page(*vm, *page),
        (Event::Lend { vm, page }, _) => one_page(*vm, *page),
        (Event::TakeBack { vm, page }, _) => one_page(*vm, *page),
        (Event::DropPage { vm, page }, _) => one_page(*vm, *page),
        (Event::Scan { vm, page }, _) => Pages {
            first: found,
            second: Some((*vm, *page)),
        },
        (Event::SwapOut { vm, .. }, Answer::SharedOut { page, .. }) => Pages {
            first: found,
            second: Some((*vm, *page)),
        },
        (Event::SwapOut { vm, .. }, Answer::PagedOut { page, .. }) => one_page(*vm, *page),
        (Event::Replace { vm, page, .. }, Answer::Replaced { page: victim, .. }) => Pages {
            first: Some((*vm, *victim)),
            second: Some((*vm, *page)),
        },
        _ => no_pages(),
    }
}

/// Where a page is, by what the tables say of it in an epoch of its machine. A page that is none is nowhere.
pub fn told_spot(epoch: u32, state: Result<PageState, Refusal>) -> Spot
    ensures { result ≡ told_spot epoch state }
{
    match state {
        Ok(PageState::Private { frame } | PageState::Hinted { frame }) => Spot::Here {
            frame,
            shared: false,
        },
        Ok(PageState::Shared { frame, .. }) => Spot::Here {
            frame,
            shared: true,
        },
        Ok(PageState::Out { slot }) => Spot::Out { slot },
        Ok(PageState::Lent) => Spot::Lent { epoch },
        Ok(PageState::Untouched) => Spot::Untouched,
        Err(_) => Spot::Untouched,
    }
}

fn how_here(same: bool, shared: bool, also: bool) -> Option<How>
    ensures { result ≡ how_here same shared also }
{
    match (same, shared, also) {
        (true, false, true) => Some(How::Host),
        (true, true, false) => Some(How::Own),
        (true, _, _) => None,
        (false, _, true) => Some(How::Share),
        (false, _, false) => Some(How::Cow),
    }
}

fn how_out(event: &Event) -> How
    ensures { result ≡ how_out event.now }
{
    match event {
        Event::Replace { .. } => How::Replaced,
        _ => How::Swap,
    }
}

fn how_of(event: &Event, from: Spot, to: Spot) -> Option<How>
    ensures { result ≡ how_of event.now from to }
{
    match (from, to) {
        (Spot::Untouched, Spot::Here { .. }) => Some(How::First),
        (Spot::Lent { .. }, Spot::Here { .. }) => Some(How::Pop),
        (Spot::Out { .. }, Spot::Here { .. }) => Some(How::SwapIn),
        (
            Spot::Here { frame, shared },
            Spot::Here {
                frame: other,
                shared: also,
            },
        ) => how_here(frame == other, shared, also),
        (Spot::Here { .. }, Spot::Lent { .. }) => Some(How::Balloon),
        (Spot::Here { .. }, Spot::Out { .. }) => Some(how_out(event)),
        (Spot::Here { .. }, Spot::Untouched) => Some(How::Dropped),
        (Spot::Untouched | Spot::Out { .. }, Spot::Lent { .. }) => Some(How::LentAway),
        (Spot::Lent { .. }, Spot::Untouched) => Some(How::TakenBack),
        (Spot::Out { .. }, Spot::Untouched) => Some(How::DroppedOut),
        _ => None,
    }
}

fn asks(vm: VmId, event: &Event) -> bool
    ensures { result ≡ asks vm event.now }
{
    match event {
        Event::Ask { vm: asked } => *asked == vm,
        Event::Lend { vm: asked, .. } => *asked == vm,
        Event::TakeBack { vm: asked, .. } => *asked == vm,
        _ => false,
    }
}

fn ends_loans(vm: VmId, event: &Event, answer: &Answer) -> bool
    ensures { result ≡ ends_loans vm event.now answer.now }
{
    match (event, answer) {
        (_, Answer::Reset { .. }) => asks(vm, event),
        (Event::Gone { vm: gone }, Answer::Gone) => *gone == vm,
        _ => false,
    }
}

/// How a page passed from where it was before an accepted event to where it is after it, if its place changed.
pub fn passage(
    event: &Event,
    answer: &Answer,
    page: Option<(VmId, u32)>,
    from: Spot,
    to: Spot,
) -> Option<Passage>
    ensures { result ≡ passage_by event.now answer.now page from to }
{
    let (vm, page) = page?;
    if ends_loans(vm, event, answer) {
        return None;
    }
    let how = how_of(event, from, to)?;
    Some(Passage {
        vm,
        page,
        how,
        from,
        to,
    })
}

/// The machine whose epoch is another after an accepted event, and that epoch: one more where a reset ended its loans,
/// none where it is gone.
pub fn new_epoch(event: &Event, answer: &Answer) -> Option<(VmId, u32)>
    ensures { result ≡ new_epoch event.now answer.now }
{
    match (event, answer) {
        (Event::Ask { vm }, Answer::Reset { epoch }) => Some((*vm, *epoch)),
        (Event::Lend { vm, .. }, Answer::Reset { epoch }) => Some((*vm, *epoch)),
        (Event::TakeBack { vm, .. }, Answer::Reset { epoch }) => Some((*vm, *epoch)),
        (Event::Gone { vm }, Answer::Gone) => Some((*vm, 0)),
        _ => None,
    }
}
