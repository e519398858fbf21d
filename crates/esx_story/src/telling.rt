//! What an event lost and gained, by its answer and by where the page that it names was before.

ghost use Rattle.std.specs.Prelude.{◌≡◌};
ghost use Rattle.esx_story.specs.Changes.{change};
ghost use Rattle.esx_story.specs.Readings.{named_page, lost_by, coming_from, gained_from};
ghost use Rattle.esx_story.specs.Losses.{slot_by, loan_by};

use crate::change::{Change, How, Loan};
use esx_events::{Answer, Event, PageState, Refusal};
use esx_types::VmId;

/// The page that is to be looked at before an event.
pub fn named_page(event: &Event) -> Option<(VmId, u32)>
    ensures { result ≡ named_page event.now }
{
    match event {
        Event::Read { vm, page, .. } => Some((*vm, *page)),
        Event::Write { vm, page, .. } => Some((*vm, *page)),
        Event::Lend { vm, page } => Some((*vm, *page)),
        Event::Replace { vm, page, .. } => Some((*vm, *page)),
        Event::DropPage { vm, page } => Some((*vm, *page)),
        _ => None,
    }
}

fn change(vm: VmId, page: u32, how: How) -> Change
    ensures { result ≡ change vm page how }
{
    Change { vm, page, how }
}

/// The page that an accepted event took out of its frame, where that page was before it.
pub fn lost(event: &Event, answer: &Answer, before: Result<PageState, Refusal>) -> Option<Change>
    ensures { result ≡ lost_by event.now answer.now before }
{
    let here = matches!(
        before,
        Ok(PageState::Private { .. } | PageState::Hinted { .. } | PageState::Shared { .. })
    );
    match (event, answer) {
        (Event::Lend { vm, page }, Answer::Lent { .. }) => {
            if here {
                Some(change(*vm, *page, How::Balloon))
            } else {
                None
            }
        }
        (Event::SwapOut { vm, .. }, Answer::PagedOut { page, .. }) => Some(change(
            *vm,
            *page,
            How::Swap,
        )),
        (Event::Replace { vm, .. }, Answer::Replaced { page, .. }) => Some(change(
            *vm,
            *page,
            How::Replaced,
        )),
        (Event::DropPage { vm, page }, Answer::Done) => {
            if here {
                Some(change(*vm, *page, How::Dropped))
            } else {
                None
            }
        }
        _ => None,
    }
}

/// The slot that the page went to that an accepted event paged out.
pub fn slot_of(answer: &Answer) -> Option<u32>
    ensures { result ≡ slot_by answer.now }
{
    match answer {
        Answer::PagedOut { slot, .. } => Some(*slot),
        Answer::Replaced { slot, .. } => Some(*slot),
        _ => None,
    }
}

/// What the balloon held before an accepted event lent a page, and is to hold.
pub fn loan_of(answer: &Answer) -> Option<Loan>
    ensures { result ≡ loan_by answer.now }
{
    match answer {
        Answer::Lent { lent, goal } => Some(Loan {
            held: lent.saturating_sub(1),
            goal: *goal,
        }),
        _ => None,
    }
}

fn coming(before: Result<PageState, Refusal>) -> Option<How>
    ensures { result ≡ coming_from before }
{
    match before {
        Ok(PageState::Untouched) => Some(How::First),
        Ok(PageState::Lent) => Some(How::Pop),
        Ok(PageState::Out { .. }) => Some(How::SwapIn),
        _ => None,
    }
}

/// The page that an accepted event brought into a frame.
pub fn gained(event: &Event, before: Result<PageState, Refusal>) -> Option<Change>
    ensures { result ≡ gained_from event.now before }
{
    let how = coming(before)?;
    match event {
        Event::Read { vm, page, .. } => Some(change(*vm, *page, how)),
        Event::Write { vm, page, .. } => Some(change(*vm, *page, how)),
        Event::Replace { vm, page, .. } => Some(change(*vm, *page, how)),
        _ => None,
    }
}
