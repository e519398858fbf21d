//! The open sample period of a machine, with what its marks tell at once.

ghost use Rattle.std.specs.Prelude.{◌≡◌, None, false, option_map};
ghost use Rattle.esx_lists.specs.Trades.{place_turned};
ghost use Rattle.esx_tables.specs.Machines.{done_traded, touched_turned, mark_turned, no_mark};
ghost use Rattle.esx_tables.specs.Sampled.{marks_of, samples, touched_marks};
ghost use Rattle.esx_tables.specs.Summaries.{may_name, MayNameMore, IsSummary};

use esx_events::Boxed;
use esx_model::{Mark, PeriodRow};
use esx_types::{MAX_SAMPLE, Rows};
use std::marker::Model;
use std::mem;

/// How many bits tell which pages may have marks.
const BITS: u32 = 1024;

const WORDS: usize = BITS as usize / 64;

/// Of more marks no summary is made, so that an access makes one in a fixed time; no event opens a period with as many.
const MOST: usize = 128;

const _: () = prove!(MAX_SAMPLE < MOST);

/// What marks tell at once: bit `page % BITS` is set for each page that one of them names, and so many of
/// them are touched.
#[derive(Clone, Copy)]
struct Summary {
    words: [u64; WORDS],
    touched: usize,
}

impl Summary {
    fn of(marks: &[Mark]) -> Summary
        ensures { IsSummary result marks.now }
    {
        let mut summary = Summary {
            words: [0; WORDS],
            touched: 0,
        };
        for mark in marks {
            summary.add_page(mark.page);
            if mark.touched {
                summary.touched += 1;
            }
        }
        summary
    }

    /// A mark names the page.
    fn add_page(&mut self, page: u32)
        ensures pages { MayNameMore self.old self.new page }
        ensures touched { self.new.touched ≡ self.old.touched }
    {
        let bit = (page % BITS) as usize;
        self.words[bit / 64] |= 1 << (bit % 64);
    }

    /// May a mark name the page?
    fn may_name(&self, page: u32) -> bool
        ensures { result ≡ may_name self.now page }
    {
        let bit = (page % BITS) as usize;
        self.words[bit / 64] >> (bit % 64) & 1 == 1
    }
}

/// The open sample period, or none, seen as its row.
///
/// Most accesses are to pages that the period does not sample: a summary of its marks tells so without a look
/// at each. It is made once accesses go on in the period; a trade of periods makes none.
#[derive(Drop)]
pub struct OpenPeriod {
    row: Option<PeriodRow>,
    summary: Summary,
    // Is the summary that of the marks?
    is_told: bool,
    // Was it asked for since the period came in?
    is_asked: bool,
}

impl Model for OpenPeriod {
    ghost use Rattle.std.specs.Prelude.{◌≡◌, true, Option};
    ghost use Rattle.esx_model.specs.declared.book.PeriodRow.{PeriodRow};
    ghost use Rattle.esx_tables.specs.Sampled.{marks_of};
    ghost use Rattle.esx_tables.specs.Summaries.{IsSummary};

    ghost Value = { Option PeriodRow };

    ghost view = { λ a. a.row };

    ghost invariant = { λ a. a.is_told ≡ true → IsSummary a.summary (marks_of a.row) };
}

impl OpenPeriod {
    pub fn none() -> OpenPeriod
        ensures { result ≡ None }
    {
        OpenPeriod {
            row: None,
            summary: Summary::of(&[]),
            is_told: true,
            is_asked: false,
        }
    }

    pub fn row(&self) -> &Option<PeriodRow>
        ensures { result.now ≡ self.now }
    {
        &self.row
    }

    /// May a mark name the page? Where it says no, none does.
    pub fn may_sample(&self, page: u32) -> bool
        ensures { result ≡ false → samples self.now page ≡ false }
    {
        if self.is_told {
            self.summary.may_name(page)
        } else {
            true
        }
    }

    pub fn touched_marks(&self) -> usize
        ensures { result ≡ touched_marks self.now }
    {
        if self.is_told {
            self.summary.touched
        } else {
            touched_in(&self.row)
        }
    }

    /// An access is to come: the second since the period came in has the summary made.
    pub fn tell(&mut self)
        ensures { self.new ≡ self.old }
    {
        if self.is_told {
            return;
        }
        if self.is_asked && is_short(&self.row) {
            self.summary = summary_of(&self.row);
            self.is_told = true;
        }
        self.is_asked = true;
    }

    /// Trades the period for another, or none.
    pub fn trade(&mut self, period: &mut Boxed<Option<PeriodRow>>)
        ensures own { self.new ≡ period.old }
        ensures period { period.new ≡ self.old }
    {
        period.trade(&mut self.row);
        self.is_told = false;
        self.is_asked = false;
    }

    /// Trades how many accesses are done. Where no period is open nothing changes.
    pub fn trade_done(&mut self, done: &mut u32)
        ensures period { self.new ≡ (done_traded self.old done.old).0 }
        ensures done { done.new ≡ (done_traded self.old done.old).1 }
    {
        if let Some(period) = &mut self.row {
            mem::swap(&mut period.done, done);
        }
    }

    /// Turns round whether a sampled page was accessed. Where there is none such nothing changes.
    pub fn turn_touched(&mut self, mark: u32)
        ensures { self.new ≡ option_map (touched_turned mark) self.old }
    {
        if let Some(period) = &mut self.row {
            let marks = &mut period.marks;
            if self.is_told {
                turn_mark(marks, &mut self.summary, mark as usize);
            } else {
                turn_alone(marks, mark as usize);
            }
        }
    }
}

/// Has the period so few marks that a summary is made of them?
fn is_short(period: &Option<PeriodRow>) -> bool {
    match period {
        None => true,
        Some(period) => period.marks.len() <= MOST,
    }
}

/// How many marks are touched, mark by mark.
fn touched_in(period: &Option<PeriodRow>) -> usize
    ensures { result ≡ touched_marks period.now }
{
    match period {
        None => 0,
        Some(period) => period
            .marks
            .as_slice()
            .iter()
            .filter(|mark| mark.touched)
            .count(),
    }
}

fn summary_of(period: &Option<PeriodRow>) -> Summary
    ensures { IsSummary result (marks_of period.now) }
{
    match period {
        None => Summary::of(&[]),
        Some(period) => Summary::of(period.marks.as_slice()),
    }
}

/// Turns round whether the page at a place was accessed. Past the end nothing changes.
fn turn_mark(marks: &mut Rows<Mark>, summary: &mut Summary, at: usize)
    requires { IsSummary summary.old marks.old }
    ensures marks { marks.new ≡ place_turned mark_turned marks.old at no_mark }
    ensures summary { IsSummary summary.new marks.new }
{
    if at < marks.len() {
        let mark = marks.row_mut(at);
        mark.touched = !mark.touched;
        if mark.touched {
            summary.touched += 1;
        } else {
            summary.touched -= 1;
        }
    }
}

/// The same with no summary.
fn turn_alone(marks: &mut Rows<Mark>, at: usize)
    ensures { marks.new ≡ place_turned mark_turned marks.old at no_mark }
{
    if at < marks.len() {
        let mark = marks.row_mut(at);
        let was = mark.touched;
        mark.touched = !was;
    }
}
