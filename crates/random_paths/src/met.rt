//! What an answer tells of the way that it was come to.

use esx_events::{Answer, Help, PageState, Refusal, Said, Scanned, Sides};

/// A turn of an answer, in the order in which they are printed.
#[derive(Clone, Copy)]
pub enum Met {
    Reset,
    Hinted,
    Shared,
    Stale,
    Already,
    Clash,
    Out,
    SharedOut,
    Copied,
    ManyRevoked,
    LongKey,
    NotedKey,
    PageUntouched,
    PagePrivate,
    PageHinted,
    PageShared,
    PageOut,
    PageLent,
    Go,
    SwapOutAdvised,
    RebalanceAdvised,
    ReplaceAdvised,
    TriedWhole,
    TriedToRefusal,
    Freed,
}

/// From so many revoked pages on of many machines, most are revoked at once.
const MANY: u32 = 57;

fn met_in_answer(answer: &Answer) -> Option<Met> {
    match answer {
        Answer::Reset { .. } => Some(Met::Reset),
        Answer::Looked { scanned } => match scanned {
            Scanned::Hinted => Some(Met::Hinted),
            Scanned::Shared { .. } => Some(Met::Shared),
            Scanned::Stale => Some(Met::Stale),
            Scanned::Already => Some(Met::Already),
            Scanned::Clash => Some(Met::Clash),
        },
        Answer::PagedOut { .. } => Some(Met::Out),
        Answer::SharedOut { .. } => Some(Met::SharedOut),
        Answer::Rebalanced { revoked, .. } if MANY <= *revoked => Some(Met::ManyRevoked),
        Answer::GivenBack { .. } | Answer::Gone => Some(Met::Freed),
        _ => None,
    }
}

fn met_in_page(state: PageState) -> Met {
    match state {
        PageState::Untouched => Met::PageUntouched,
        PageState::Private { .. } => Met::PagePrivate,
        PageState::Hinted { .. } => Met::PageHinted,
        PageState::Shared { .. } => Met::PageShared,
        PageState::Out { .. } => Met::PageOut,
        PageState::Lent => Met::PageLent,
    }
}

fn met_in_help(help: Help) -> Met {
    match help {
        Help::Go => Met::Go,
        Help::SwapOut { .. } => Met::SwapOutAdvised,
        Help::Rebalance => Met::RebalanceAdvised,
        Help::Replace => Met::ReplaceAdvised,
    }
}

fn is_refused(reply: &Result<Answer, Refusal>) -> bool {
    reply.is_err()
}

fn met_in_try(sides: &Sides) -> Met {
    if sides.replies.as_slice().iter().any(is_refused) {
        Met::TriedToRefusal
    } else {
        Met::TriedWhole
    }
}

pub fn met_in(said: &Said) -> Option<Met> {
    match said {
        Said::Done { answer } => met_in_answer(answer),
        Said::Page { state } => Some(met_in_page(*state)),
        Said::Help { help } => Some(met_in_help(*help)),
        Said::Sides { sides } => Some(met_in_try(sides.get())),
        _ => None,
    }
}
