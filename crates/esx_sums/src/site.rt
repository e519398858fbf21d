//! What stood at the ends of a path and in between.

ghost use Rattle.std.specs.Prelude.{◌≡◌, ◌≤◌, ◌*◌, sum_by};
ghost use Rattle.esx_types.specs.declared.config.TheConstants.{MAX_PAGES, VM_NUMBERS};
ghost use Rattle.esx_story.specs.Spans.{is_rebalance};
ghost use Rattle.esx_sums.specs.Extremes.{lower, higher};
ghost use Rattle.esx_sums.specs.Few.{IsSmall, AreSmall, IsShortSite};
ghost use Rattle.esx_sums.specs.Site.{revoked_by};
ghost use Rattle.esx_sums.specs.Sums.{here_of, out_of, saved_of, site_after, no_site};

use crate::present::Present;
use crate::tally::one_if;
use esx_events::{Answer, Event, Sum};

/// The least or the most of something, and the first event after which it was so, 0 at the opening.
#[derive(Clone, Copy, Debug, PartialEq, Eq)]
pub struct Extreme {
    pub number: u32,
    pub event: u32,
}

/// What stood at the ends of a path and in between.
///
/// `pages` is how many pages are in frames, `private`, `shared` and `free` how many frames are so, and `out` how
/// many slots are in use, all at the end. `saved_sum` adds up what sharing saved after each of so many `events`.
/// Targets were set so many times by `rebalances`, with so many pages `revoked`.
#[derive(Clone, Copy, Debug, PartialEq, Eq)]
pub struct SiteSums {
    pub events: u32,
    pub least_free: Extreme,
    pub most_pages: Extreme,
    pub most_saved: Extreme,
    pub most_slots: Extreme,
    pub saved_sum: u64,
    pub rebalances: u32,
    pub revoked: u64,
    pub free: u32,
    pub pages: u32,
    pub private: u32,
    pub shared: u32,
    pub out: u32,
}

const NONE: Extreme = Extreme {
    number: 0,
    event: 0,
};

/// Of no event, in a site of so many frames.
pub(crate) fn no_site(frames: u32) -> SiteSums
    ensures { result ≡ no_site frames }
{
    SiteSums {
        events: 0,
        least_free: Extreme {
            number: frames,
            event: 0,
        },
        most_pages: NONE,
        most_saved: NONE,
        most_slots: NONE,
        saved_sum: 0,
        rebalances: 0,
        revoked: 0,
        free: frames,
        pages: 0,
        private: 0,
        shared: 0,
        out: 0,
    }
}

/// The less of the least so far and one more number.
fn lower(best: Extreme, event: u32, number: u32) -> Extreme
    ensures { result ≡ lower best event number }
{
    if number < best.number {
        Extreme { number, event }
    } else {
        best
    }
}

/// The greater of the most so far and one more number.
fn higher(best: Extreme, event: u32, number: u32) -> Extreme
    ensures { result ≡ higher best event number }
{
    if best.number < number {
        Extreme { number, event }
    } else {
        best
    }
}

fn here_of(one: Option<Present>) -> u32
    requires { IsSmall one }
    ensures value { result ≡ here_of one }
    ensures small { result ≤ MAX_PAGES }
{
    match one {
        Some(present) => present.here,
        None => 0,
    }
}

fn out_of(one: Option<Present>) -> u32
    requires { IsSmall one }
    ensures value { result ≡ out_of one }
    ensures small { result ≤ MAX_PAGES }
{
    match one {
        Some(present) => present.out,
        None => 0,
    }
}

/// How many pages of all machines are in frames.
pub(crate) fn all_here(present: &[Option<Present>]) -> u32
    requires { AreSmall present.now }
    ensures value { result ≡ sum_by here_of present.now }
    ensures small { result ≤ VM_NUMBERS * MAX_PAGES }
{
    let mut total = 0;
    for (_at, one) in present.iter().enumerate() {
        total += here_of(*one);
    }
    total
}

/// How many pages of all machines are in slots.
pub(crate) fn all_out(present: &[Option<Present>]) -> u32
    requires { AreSmall present.now }
    ensures { result ≡ sum_by out_of present.now }
{
    let mut total = 0;
    for (_at, one) in present.iter().enumerate() {
        total += out_of(*one);
    }
    total
}

/// What sharing saves, with so many pages in frames.
fn saved_of(sum: &Sum, pages: u32) -> u32
    ensures value { result ≡ saved_of sum.now pages }
    ensures small { result ≤ pages }
{
    let frames = sum.private as u64 + sum.shared as u64;
    (pages as u64).saturating_sub(frames) as u32
}

fn is_rebalance(event: &Event) -> bool
    ensures { result ≡ is_rebalance event.now }
{
    matches!(event, Event::Rebalance)
}

fn revoked_by(answer: &Answer) -> u32
    ensures { result ≡ revoked_by answer.now }
{
    match answer {
        Answer::Rebalanced { revoked, .. } => *revoked,
        _ => 0,
    }
}

/// With one more event, after which so many pages are in frames and in slots.
pub(crate) fn site_after(
    sums: &SiteSums,
    event: &Event,
    answer: &Answer,
    sum: &Sum,
    pages: u32,
    out: u32,
) -> SiteSums
    requires { IsShortSite sums.now }
    ensures value { result ≡ site_after sums.now event.now answer.now sum.now pages out }
    ensures revoked { revoked_by answer.now ≤ 4294967295 }
{
    let at = sums.events + 1;
    let saved = saved_of(sum, pages);
    SiteSums {
        events: at,
        least_free: lower(sums.least_free, at, sum.free),
        most_pages: higher(sums.most_pages, at, pages),
        most_saved: higher(sums.most_saved, at, saved),
        most_slots: higher(sums.most_slots, at, out),
        saved_sum: sums.saved_sum + saved as u64,
        rebalances: sums.rebalances + one_if(is_rebalance(event)),
        revoked: sums.revoked + revoked_by(answer) as u64,
        free: sum.free,
        pages,
        private: sum.private,
        shared: sum.shared,
        out,
    }
}
