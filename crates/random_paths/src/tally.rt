//! What was met on the paths.

use crate::met::{Met, met_in};
use esx_events::{Call, Event, Refusal, Said};
use std::io;

/// Each kind of event is accepted as often at least.
const LEAST_ACCEPTED: u32 = 2000;

/// Each refusal is met as often at least, and each other call is answered.
const LEAST_MET: u32 = 20;

/// Each turn of an answer is met as often at least.
const LEAST_TURN: u32 = 4;

const KINDS: [&str; 18] = [
    "admit",
    "start",
    "read",
    "write",
    "ask",
    "lend",
    "takeback",
    "sample",
    "rebalance",
    "scan",
    "swapout",
    "replace",
    "shares",
    "tax",
    "vmtax",
    "stop",
    "drop",
    "gone",
];

const CALLS: [&str; 14] = [
    "undo", "redo", "goto", "visit", "mark", "prune", "whatif", "sum", "table", "vm", "page",
    "advise", "where", "marks",
];

const TURNS: [&str; 25] = [
    "reset",
    "hinted",
    "shared",
    "stale",
    "already",
    "clash",
    "out",
    "shared out",
    "copied on write",
    "many revoked",
    "key from 256 bytes",
    "key from 384 bytes",
    "page untouched",
    "page private",
    "page private hint",
    "page shared",
    "page out",
    "page lent",
    "go",
    "swapout advised",
    "rebalance advised",
    "replace advised",
    "tried whole",
    "tried to a refusal",
    "freed of pages",
];

/// How often each kind of event was accepted and refused, each other call answered, each refusal met by its number,
/// and each turn of an answer met; and how many books were compared.
#[derive(Drop)]
pub struct Tally {
    accepted: [u32; 18],
    refused: [u32; 18],
    answered: [u32; 14],
    refusals: [u32; 28],
    turns: [u32; 25],
    calls: u32,
    books: u32,
}

fn kind_of(event: &Event) -> usize {
    match event {
        Event::Admit { .. } => 0,
        Event::Start { .. } => 1,
        Event::Read { .. } => 2,
        Event::Write { .. } => 3,
        Event::Ask { .. } => 4,
        Event::Lend { .. } => 5,
        Event::TakeBack { .. } => 6,
        Event::Sample { .. } => 7,
        Event::Rebalance => 8,
        Event::Scan { .. } => 9,
        Event::SwapOut { .. } => 10,
        Event::Replace { .. } => 11,
        Event::SetShares { .. } => 12,
        Event::SetTax { .. } => 13,
        Event::SetVmTax { .. } => 14,
        Event::Stop { .. } => 15,
        Event::DropPage { .. } => 16,
        Event::Gone { .. } => 17,
    }
}

/// The place of a call that is no event.
fn place_of(call: &Call) -> usize {
    match call {
        Call::Undo { .. } => 0,
        Call::Redo { .. } => 1,
        Call::Goto { .. } => 2,
        Call::Visit { .. } => 3,
        Call::Mark { .. } => 4,
        Call::Prune { .. } => 5,
        Call::WhatIf { .. } => 6,
        Call::Sum => 7,
        Call::Table => 8,
        Call::OfVm { .. } => 9,
        Call::OfPage { .. } => 10,
        Call::Advise { .. } => 11,
        Call::Stand => 12,
        Call::Do { .. } | Call::Marks => 13,
    }
}

fn count_one(counts: &mut [u32], at: usize) {
    if let Some(count) = counts.get_mut(at) {
        *count = count.saturating_add(1);
    }
}

/// Whether no path meets it: there is no such number, or it tells that memory ran out.
fn is_never_met(number: usize) -> bool {
    number == 0 || number == 26
}

fn are_all(counts: &[u32], least: u32) -> bool {
    counts.iter().all(|count| least <= *count)
}

impl Tally {
    pub fn new() -> Tally {
        Tally {
            accepted: [0; 18],
            refused: [0; 18],
            answered: [0; 14],
            refusals: [0; 28],
            turns: [0; 25],
            calls: 0,
            books: 0,
        }
    }

    /// Counts a call with what is said to it, at a site with pages of a size.
    pub fn hear(&mut self, call: &Call, said: &Said, page: u32, copies: bool) {
        self.calls = self.calls.saturating_add(1);
        if let Said::Refused { refusal } = said {
            return self.refuse(call, *refusal);
        }
        match call {
            Call::Do { event } => count_one(&mut self.accepted, kind_of(event)),
            _ => count_one(&mut self.answered, place_of(call)),
        }
        if copies {
            self.meet(Met::Copied);
        }
        if let Some(met) = met_in(said) {
            self.meet(met);
        }
        self.meet_key(call, page);
    }

    fn refuse(&mut self, call: &Call, refusal: Refusal) {
        count_one(&mut self.refusals, usize::from(refusal.number()));
        if let Call::Do { event } = call {
            count_one(&mut self.refused, kind_of(event));
        }
    }

    fn meet(&mut self, met: Met) {
        count_one(&mut self.turns, met as usize);
    }

    /// A scan, or a page that goes out, takes the key of a page.
    fn meet_key(&mut self, call: &Call, page: u32) {
        if let Call::Do {
            event: Event::Scan { .. } | Event::SwapOut { .. },
        } = call
        {
            match page {
                0..=255 => {}
                256..=383 => self.meet(Met::LongKey),
                _ => self.meet(Met::NotedKey),
            }
        }
    }

    pub fn compare(&mut self) {
        self.books = self.books.saturating_add(1);
    }

    /// Prints all counts, a line each.
    pub fn print<R: Print>(&self, rt: &R) -> io::Result<()> {
        println!(rt;
            "{} calls and {} books are as the plain program has them",
            self.calls, self.books
        )?;
        self.print_events(rt)?;
        self.print_refusals(rt)?;
        print_all(rt, &CALLS, &self.answered)?;
        print_all(rt, &TURNS, &self.turns)
    }

    fn print_events<R: Print>(&self, rt: &R) -> io::Result<()> {
        let counts = self.accepted.iter().zip(&self.refused);
        for (kind, (accepted, refused)) in KINDS.iter().zip(counts) {
            println!(rt; "{kind} {accepted}, refused {refused}")?;
        }
        Ok(())
    }

    fn print_refusals<R: Print>(&self, rt: &R) -> io::Result<()> {
        for (number, count) in self.refusals.iter().enumerate() {
            if !is_never_met(number) {
                println!(rt; "no {number} {count}")?;
            }
        }
        Ok(())
    }

    /// Whether each kind of event was accepted often, and each refusal, answer and turn met often enough.
    pub fn is_whole(&self) -> bool {
        are_all(&self.accepted, LEAST_ACCEPTED)
            && are_all(&self.answered, LEAST_MET)
            && are_all(&self.turns, LEAST_TURN)
            && self.refusals.iter().enumerate().all(|(number, count)| LEAST_MET <= *count
                || is_never_met(number))
    }
}

fn print_all<R: Print>(rt: &R, names: &[&str], counts: &[u32]) -> io::Result<()> {
    for (name, count) in names.iter().zip(counts) {
        println!(rt; "{name} {count}")?;
    }
    Ok(())
}
