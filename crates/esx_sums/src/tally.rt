//! What is counted of a life of a virtual machine.

ghost use Rattle.std.specs.Prelude.{◌≡◌, ◌+◌, ◌<◌, ◌≤◌};
ghost use Rattle.esx_story.specs.Counts.{came_in, lost_in, with_change};
ghost use Rattle.esx_sums.specs.Few.{AreFewAccesses, AreFewMoves, IsShortStay, AreFewWaits};
ghost use Rattle.esx_sums.specs.Mets.{is_held, is_short};
ghost use Rattle.esx_sums.specs.Sums.{blank, one_if, with_access, with_move, with_present, refused_access};

use crate::present::Present;
use esx_events::{Event, Refusal};
use esx_story::{Counts, How};
use esx_types::VmId;

/// How many accesses of a machine were accepted, and how many were refused because the machine was held, or because
/// frames were short.
#[derive(Clone, Copy, Debug, PartialEq, Eq)]
pub struct Accesses {
    pub reads: u32,
    pub writes: u32,
    pub held: u32,
    pub short: u32,
}

/// How often pages of a machine that stayed in frames changed what their frame is to them, each way by itself.
#[derive(Clone, Copy, Debug, PartialEq, Eq)]
pub struct Moves {
    pub share: u32,
    pub host: u32,
    pub cow: u32,
    pub own: u32,
}

/// After how many events a machine stood, and had more or fewer pages in frames than its target; the pages that it
/// had in frames after each of them, added up; and the most of them.
#[derive(Clone, Copy, Debug, PartialEq, Eq)]
pub struct Stay {
    pub events: u32,
    pub above: u32,
    pub below: u32,
    pub sum_here: u64,
    pub most: u32,
}

/// What is counted of a life of a machine. Its lives are numbered from 1; 0 is the time before the first.
#[derive(Clone, Copy, Debug, PartialEq, Eq)]
pub struct Tally {
    pub life: u32,
    pub accesses: Accesses,
    pub counts: Counts,
    pub moves: Moves,
    pub stay: Stay,
}

/// A life that another life of its machine followed.
#[derive(Clone, Copy, Debug, PartialEq, Eq)]
pub struct Over {
    pub vm: VmId,
    pub tally: Tally,
}

const NO_ACCESSES: Accesses = Accesses {
    reads: 0,
    writes: 0,
    held: 0,
    short: 0,
};

const NO_COUNTS: Counts = Counts {
    first: 0,
    popped: 0,
    swapped_in: 0,
    balloon: 0,
    swapped_out: 0,
    replaced: 0,
    dropped: 0,
};

const NO_MOVES: Moves = Moves {
    share: 0,
    host: 0,
    cow: 0,
    own: 0,
};

const NO_STAY: Stay = Stay {
    events: 0,
    above: 0,
    below: 0,
    sum_here: 0,
    most: 0,
};

/// Of a life that begins.
pub(crate) fn blank(life: u32) -> Tally
    ensures { result ≡ blank life }
{
    Tally {
        life,
        accesses: NO_ACCESSES,
        counts: NO_COUNTS,
        moves: NO_MOVES,
        stay: NO_STAY,
    }
}

/// One where it is so.
pub(crate) fn one_if(is: bool) -> u32
    ensures value { result ≡ one_if is }
    ensures small { result ≤ 1 }
{
    if is { 1 } else { 0 }
}

/// Accesses with one more that was accepted.
pub(crate) fn with_access(accesses: Accesses, event: &Event) -> Accesses
    requires { AreFewAccesses 4294967294 accesses }
    ensures { result ≡ with_access accesses event.now }
{
    match event {
        Event::Read { .. } => Accesses {
            reads: accesses.reads + 1,
            ..accesses
        },
        Event::Write { .. } => Accesses {
            writes: accesses.writes + 1,
            ..accesses
        },
        _ => accesses,
    }
}

/// Accesses with one more that was refused.
pub(crate) fn refused_access(accesses: Accesses, refusal: Refusal) -> Accesses
    requires { AreFewWaits 4294967294 accesses }
    ensures { result ≡ refused_access accesses refusal }
{
    Accesses {
        held: accesses.held + one_if(matches!(refusal, Refusal::Held)),
        short: accesses.short + one_if(matches!(refusal, Refusal::Short)),
        ..accesses
    }
}

/// Counts with one more page that came or left.
pub(crate) fn with_change(counts: Counts, how: How) -> Counts
    requires { came_in counts + lost_in counts ≤ 4294967294 }
    ensures { result ≡ with_change counts how }
{
    match how {
        How::First => Counts {
            first: counts.first + 1,
            ..counts
        },
        How::Pop => Counts {
            popped: counts.popped + 1,
            ..counts
        },
        How::SwapIn => Counts {
            swapped_in: counts.swapped_in + 1,
            ..counts
        },
        How::Balloon => Counts {
            balloon: counts.balloon + 1,
            ..counts
        },
        How::Swap => Counts {
            swapped_out: counts.swapped_out + 1,
            ..counts
        },
        How::Replaced => Counts {
            replaced: counts.replaced + 1,
            ..counts
        },
        How::Dropped => Counts {
            dropped: counts.dropped + 1,
            ..counts
        },
        _ => counts,
    }
}

/// Moves with one more.
pub(crate) fn with_move(moves: Moves, how: How) -> Moves
    requires { AreFewMoves 4294967294 moves }
    ensures { result ≡ with_move moves how }
{
    match how {
        How::Share => Moves {
            share: moves.share + 1,
            ..moves
        },
        How::Cow => Moves {
            cow: moves.cow + 1,
            ..moves
        },
        How::Own => Moves {
            own: moves.own + 1,
            ..moves
        },
        _ => moves,
    }
}

/// A stay that is one event longer.
pub(crate) fn with_present(stay: Stay, present: Present) -> Stay
    requires { IsShortStay 4294967294 stay }
    ensures { result ≡ with_present stay present }
{
    Stay {
        events: stay.events + 1,
        above: stay.above + one_if(present.target < present.here),
        below: stay.below + one_if(present.here < present.target),
        sum_here: stay.sum_here + present.here as u64,
        most: stay.most.max(present.here),
    }
}
