//! The lines that tell of a site and its guests.

ghost use Rattle.std.specs.Prelude.{◌≡◌, ◌≤◌};

use esx_report::{
    Opened, PathSums, put_end_values, put_entered_value, put_events_value, put_extreme_values,
    put_first_level, put_free, put_guest, put_guest_head, put_guest_heading, put_guest_line,
    put_guests_note, put_guests_title, put_level, put_level_losses, put_level_losses_heading,
    put_losses_heading, put_opened, put_pages, put_path, put_path_values, put_refused_value,
    put_report_end, put_report_head, put_saved, put_site_head, put_site_heading, put_slots,
};
use esx_story::Counts;
use esx_sums::{Extreme, Guest, LevelLosses, LevelSums, SiteSums};
use esx_types::{Level, MemorySink, Sink, SinkFailed, VmId};
use esx_writing::{AnswerBuffer, write_held};
use std::alloc::Global;
use std::marker::Brand;
use std::sync::ledger::{Blank, Ledger};
use std::test::Fail;

const OPENED: Opened = Opened {
    frames: 8,
    page: 16,
    slots: 8,
    high: 4,
    soft: 3,
    hard: 2,
    low: 1,
    margin: 1,
};

const PATH: PathSums = PathSums {
    events: 19,
    made: 19,
    node: 19,
    calls: 26,
    refused: 1,
    elsewhere: 0,
};

const HIGH: LevelSums = LevelSums {
    level: Level::High,
    events: 7,
    entered: 0,
};

const OTHERS: [LevelSums; 3] = [
    LevelSums {
        level: Level::Soft,
        events: 1,
        entered: 1,
    },
    LevelSums {
        level: Level::Hard,
        events: 2,
        entered: 2,
    },
    LevelSums {
        level: Level::Low,
        events: 9,
        entered: 1,
    },
];

const SITE: SiteSums = SiteSums {
    events: 19,
    least_free: Extreme {
        number: 0,
        event: 10,
    },
    most_pages: Extreme {
        number: 6,
        event: 10,
    },
    most_saved: Extreme {
        number: 0,
        event: 0,
    },
    most_slots: Extreme {
        number: 1,
        event: 11,
    },
    saved_sum: 0,
    rebalances: 0,
    revoked: 0,
    free: 3,
    pages: 3,
    private: 3,
    shared: 0,
    out: 1,
};

const LOSSES: [LevelLosses; 4] = [
    LevelLosses {
        level: Level::High,
        balloon: 0,
        swap: 0,
        replace: 0,
        drop: 0,
    },
    LevelLosses {
        level: Level::Soft,
        balloon: 0,
        swap: 0,
        replace: 0,
        drop: 0,
    },
    LevelLosses {
        level: Level::Hard,
        balloon: 0,
        swap: 0,
        replace: 0,
        drop: 0,
    },
    LevelLosses {
        level: Level::Low,
        balloon: 0,
        swap: 0,
        replace: 3,
        drop: 3,
    },
];

const NO_COUNTS: Counts = Counts {
    first: 0,
    popped: 0,
    swapped_in: 0,
    balloon: 0,
    swapped_out: 0,
    replaced: 0,
    dropped: 0,
};

fn guests() -> [Guest; 2] {
    let one = Guest {
        vm: VmId::new(0),
        life: 1,
        reads: 4,
        writes: 1,
        counts: Counts {
            first: 4,
            swapped_in: 2,
            replaced: 3,
            ..NO_COUNTS
        },
        share: 0,
        host: 0,
        cow: 0,
        own: 0,
        back: 2,
        soon: 2,
        waits: 0,
        held: 0,
        short: 1,
        above: 0,
        below: 19,
        events: 19,
        sum_here: 42,
        most: 3,
        here: 3,
        target: Some(6),
    };
    let other = Guest {
        vm: VmId::new(1),
        reads: 3,
        writes: 0,
        counts: Counts {
            first: 3,
            dropped: 3,
            ..NO_COUNTS
        },
        back: 0,
        soon: 0,
        short: 0,
        below: 18,
        events: 18,
        sum_here: 27,
        here: 0,
        ..one
    };
    [one, other]
}

fn put_site<W: Sink>(sink: &mut W, held: &mut AnswerBuffer) -> Result<(), SinkFailed> {
    put_report_head(sink, held)?;
    put_opened(sink, held, &OPENED)?;
    put_path(sink, held, &PATH)?;
    put_site_heading(sink, held)?;
    put_first_level(sink, held, &HIGH, SITE.events)?;
    for sums in &OTHERS {
        put_level(sink, held, sums, SITE.events)?;
    }
    put_free(sink, held, &SITE)?;
    put_pages(sink, held, &SITE)?;
    put_saved(sink, held, &SITE)?;
    put_slots(sink, held, &SITE)
}

fn put_guests<W: Sink>(sink: &mut W, held: &mut AnswerBuffer) -> Result<(), SinkFailed> {
    put_guests_title(sink, held)?;
    put_guest_heading(sink, held)?;
    for guest in &guests() {
        put_guest_line(sink, held, guest)?;
    }
    put_guests_note(sink, held)
}

fn put_losses<W: Sink>(sink: &mut W, held: &mut AnswerBuffer) -> Result<(), SinkFailed> {
    put_level_losses_heading(sink, held)?;
    for losses in &LOSSES {
        put_level_losses(sink, held, losses)?;
    }
    put_losses_heading(sink, held, 6)?;
    put_report_end(sink, held)
}

fn put_values<W: Sink>(sink: &mut W, held: &mut AnswerBuffer) -> Result<(), SinkFailed> {
    put_site_head(sink, held)?;
    put_path_values(sink, held, &PATH)?;
    put_events_value(sink, held, &HIGH)?;
    for sums in &OTHERS {
        put_events_value(sink, held, sums)?;
    }
    for sums in &OTHERS {
        put_entered_value(sink, held, sums)?;
    }
    put_extreme_values(sink, held, &SITE)?;
    put_refused_value(sink, held, 9, 1)?;
    put_end_values(sink, held, &SITE)
}

fn put_guest_values<W: Sink>(sink: &mut W, held: &mut AnswerBuffer) -> Result<(), SinkFailed> {
    put_guest_head(sink, held)?;
    for guest in &guests() {
        put_guest(sink, held, guest)?;
    }
    Ok(())
}

fn put_all<W: Sink>(sink: &mut W, held: &mut AnswerBuffer) -> Result<(), SinkFailed> {
    put_site(sink, held)?;
    put_guests(sink, held)?;
    put_losses(sink, held)?;
    put_values(sink, held)?;
    put_guest_values(sink, held)?;
    write_held(sink, held)
}

fn told_counted<L: Ledger>(alloc: Global, blank: Blank) -> Result<Vec<u8>, Fail>
    requires name { blank.name ≡ L.name }
    requires parts { blank.parts ≡ L.parts }
    requires four { 4 ≤ blank.parts }
{
    let mut held = AnswerBuffer::new(alloc)?;
    let mut sink = MemorySink::<L>::new(Vec::new(alloc), blank);
    match put_all(&mut sink, &mut held) {
        Ok(()) => Ok(sink.into_bytes()),
        Err(_) => Err(Fail::new("a text")),
    }
}

const TOLD: &str = concat!(
    "esx report 1\n",
    "frames 8 page 16 slots 8 levels 4 3 2 1 margin 1\n",
    "path events 19 of 19 made, to node 19; calls 26, refused on the path 1, elsewhere 0\n",
    "\n",
    "site\n",
    "  level       events   part  entered\n",
    "  high             7  36.8%\n",
    "  soft             1   5.2%        1\n",
    "  hard             2  10.5%        2\n",
    "  low              9  47.3%        1\n",
    "  free least 0 at 10, now 3\n",
    "  pages in frames most 6 at 10, now 3 in 3 frames\n",
    "  saved by sharing most 0 at 0, mean 0.000, now 0\n",
    "  slots most 1 at 11, now 1; rebalanced 0 times, 0 pages revoked\n",
    "\n",
    "guests\n",
    " vm life  accesses   first  popped  swapin    lost balloon    swap replace    drop    back   soon  waits  shared    cow   held  short  above   most   here target\n",
    "  0    1         5       4       0       2       3       0       0       3       0       2      2      0       0      0      0      1   0.0%      3      3      6\n",
    "  1    1         3       3       0       0       3       0       0       0       3       0      0      0       0      0      0      0   0.0%      3      0      6\n",
    "  each row: first + popped + swapin - lost = here\n",
    "\n",
    "losses by level and mechanism\n",
    "  level  balloon    swap replace    drop\n",
    "  high        0       0       0       0\n",
    "  soft        0       0       0       0\n",
    "  hard        0       0       0       0\n",
    "  low         0       0       3       3\n",
    "\n",
    "losses 6\n",
    "end\n",
    "name,value\n",
    "events,19\n",
    "events_made,19\n",
    "node,19\n",
    "calls,26\n",
    "refused_on_path,1\n",
    "refused_elsewhere,0\n",
    "high_events,7\n",
    "soft_events,1\n",
    "hard_events,2\n",
    "low_events,9\n",
    "soft_entered,1\n",
    "hard_entered,2\n",
    "low_entered,1\n",
    "least_free,0\n",
    "least_free_event,10\n",
    "most_pages_here,6\n",
    "most_pages_here_event,10\n",
    "most_saved,0\n",
    "most_saved_event,0\n",
    "mean_saved,0.000\n",
    "most_slots,1\n",
    "most_slots_event,11\n",
    "rebalances,0\n",
    "revoked,0\n",
    "refused_9,1\n",
    "pages_here,3\n",
    "pages_shared,0\n",
    "pages_sharing,0\n",
    "vm,life,reads,writes,first,pop,swapin,balloon,swap,replace,drop,share,host,cow,own,back,soon,waits,held,short,above,below,events,sum_here,most,here,target\n",
    "0,1,4,1,4,0,2,0,0,3,0,0,0,0,0,2,2,0,0,1,0,19,19,42,3,3,6\n",
    "1,1,3,0,3,0,0,0,0,0,3,0,0,0,0,0,0,0,0,0,0,18,18,27,3,0,6\n",
);

/// The site of the path on which pages make room for others, and its guests.
#[test]
fn a_site(rt: HostRuntime) -> Result<(), Fail> {
    let told = told_counted::<Brand>(rt.alloc(), Blank::new(4))?;
    assert!(rt; told.as_slice() == TOLD.as_bytes());
    Ok(())
}
