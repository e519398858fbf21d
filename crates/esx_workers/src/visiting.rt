//! The worker that goes through a trace.

ghost use Rattle.std.specs.Prelude.{◌≡◌, true, IfOk, OnErr};
ghost use Rattle.esx_workers.specs.Passed.{event_takes_room, may_want};
ghost use Rattle.esx_workers.specs.Visiting.{event_of, page_of, is_access_line, guest_asks, guest_hears, sent, advised, guest_rest};

use crate::draws::draw_word;
use crate::end::How;
use crate::passed::is_wait;
use esx_events::{Call, Event, Help, Reply, Said};
use esx_scenario::TraceLine;
use esx_types::{SmallBytes, VmId};
use rand_pcg::Pcg64;
use std::alloc::{AllocError, Global};

/// What a guest does at a line of its trace: it sends the line's event; where an access had to wait it asks for
/// advice; and it sends the event that was named, with the word that was drawn for it.
#[derive(Clone, Copy, Debug)]
pub enum Step {
    Send,
    Advise,
    SwapOut { vm: VmId, word: u64 },
    Rebalance,
    Replace { word: u64 },
}

/// Sends the events of a trace in order. Each time an access finds its machine held back or frames short, it
/// asks for advice, sends the event that is named, and sends the access again.
///
/// `next` is the place of the trace's line that it is at.
#[derive(Debug, Drop)]
pub struct GuestWorker<'a> {
    pub vm: VmId,
    pub trace: &'a [TraceLine],
    pub next: usize,
    pub step: Step,
    pub rng: Pcg64,
}

/// The event of a trace's line.
pub fn event_of(alloc: Global, vm: VmId, line: &TraceLine) -> Result<Event, AllocError>
    ensures event { IfOk result (λ event. event ≡ event_of vm line.now) }
    ensures late { OnErr result (event_takes_room (event_of vm line.now) ≡ true) }
{
    match line {
        TraceLine::Read { page, at, len } => Ok(Event::Read {
            vm,
            page: *page,
            at: *at,
            len: *len,
        }),
        TraceLine::Write { page, at, bytes } => Ok(Event::Write {
            vm,
            page: *page,
            at: *at,
            bytes: SmallBytes::copy_of(alloc, bytes.as_slice())?,
        }),
        TraceLine::Ask => Ok(Event::Ask { vm }),
        TraceLine::Lend { page } => Ok(Event::Lend { vm, page: *page }),
        TraceLine::TakeBack { page } => Ok(Event::TakeBack { vm, page: *page }),
    }
}

/// The page of a trace's line, 0 where it names none.
fn page_of(line: &TraceLine) -> u32
    ensures { result ≡ page_of line.now }
{
    match line {
        TraceLine::Read { page, .. }
        | TraceLine::Write { page, .. }
        | TraceLine::Lend { page }
        | TraceLine::TakeBack { page } => *page,
        TraceLine::Ask => 0,
    }
}

/// Is it a read or a write?
fn is_access_line(line: &TraceLine) -> bool
    ensures { result ≡ is_access_line line.now }
{
    matches!(line, TraceLine::Read { .. } | TraceLine::Write { .. })
}

impl<'a> GuestWorker<'a> {
    /// The next call, if a line is left.
    pub fn ask(&self, alloc: Global) -> Result<Option<Call>, AllocError>
        ensures call { IfOk result (λ call. call ≡ guest_asks self.now) }
        ensures late { OnErr result (may_want (guest_asks self.now) ≡ true) }
    {
        let Some(line) = self.trace.get(self.next) else {
            return Ok(None);
        };
        let vm = self.vm;
        let event = match self.step {
            Step::Send => event_of(alloc, vm, line)?,
            Step::Advise => {
                return Ok(Some(Call::Advise {
                    vm,
                    page: page_of(line),
                }));
            }
            Step::SwapOut { vm, word } => Event::SwapOut { vm, word },
            Step::Rebalance => Event::Rebalance,
            Step::Replace { word } => Event::Replace {
                vm,
                page: page_of(line),
                word,
            },
        };
        Ok(Some(Call::Do { event }))
    }

    /// How it ends where it makes no more calls.
    pub fn rest(&self) -> How
        ensures { result ≡ guest_rest self.now }
    {
        if self.next < self.trace.len() {
            How::Turns
        } else {
            How::Done
        }
    }

    /// Hears the reply to its call.
    pub fn hear(&mut self, reply: &Reply)
        ensures { self.new ≡ guest_hears self.old reply.now }
    {
        match self.step {
            Step::Send => self.sent(&reply.said),
            Step::Advise => self.advised(&reply.said),
            Step::SwapOut { .. } | Step::Rebalance | Step::Replace { .. } => {
                self.step = Step::Send;
            }
        }
    }

    // Goes on to the next line, unless it has to wait for advice.
    fn sent(&mut self, said: &Said)
        ensures { self.new ≡ sent self.old said.now }
    {
        if let Some(line) = self.trace.get(self.next) {
            if is_access_line(line) && is_wait(said) {
                self.step = Step::Advise;
            } else {
                self.next += 1;
            }
        }
    }

    // Takes the advice up, where it names an event.
    fn advised(&mut self, said: &Said)
        ensures { self.new ≡ advised self.old said.now }
    {
        self.step = match said {
            Said::Help {
                help: Help::SwapOut { vm },
            } => Step::SwapOut {
                vm: *vm,
                word: draw_word(&mut self.rng),
            },
            Said::Help {
                help: Help::Rebalance,
            } => Step::Rebalance,
            Said::Help {
                help: Help::Replace,
            } => Step::Replace {
                word: draw_word(&mut self.rng),
            },
            _ => Step::Send,
        };
    }
}
