//! What a journal answers to a call. What is asked by one kind of call stands in a file of its own.

ghost use Rattle.std.specs.Prelude.{◌≡◌, ◌≢◌, ◌+◌, ◌<◌, ◌^◌, if◌then◌else◌, IfOk, OnErr, false};
ghost use Rattle.esx_model.specs.History.{History};
ghost use Rattle.esx_events.specs.declared.call.Said.TheVariants as said;
ghost use Rattle.esx_journal.specs.Journal.{Holds};
ghost use Rattle.esx_console.specs.Calls.{OnlyAsks};
ghost use Rattle.esx_console.specs.Hearing.{Hears, MayLackMemory, ComesToMemory, MovesOrPrunes, IsShort};

mod events;
mod marks;
mod moves;
mod questions;
mod trials;
pub mod twice;

use crate::hearing::events::hear_event;
use crate::hearing::marks::{hear_mark, hear_marks, hear_prune};
use crate::hearing::moves::{hear_goto, hear_redo, hear_undo, hear_visit};
use crate::hearing::questions::{
    hear_advise, hear_page, hear_stand, hear_sum, hear_table, hear_vm,
};
use crate::hearing::trials::hear_what_if;
use esx_events::{Call, Refusal, Said};
use esx_journal::Journal;
use std::alloc::{AllocError, Global};

/// What is heard of a call: what is said to it, and whether the cursor jumped.
#[derive(Drop)]
pub struct Heard {
    pub said: Said,
    pub jumped: bool,
}

/// What is heard where the cursor did not jump.
fn answered(said: Said) -> Heard
    ensures { result ≡ record { said = said; jumped = false } }
{
    Heard {
        said,
        jumped: false,
    }
}

fn refused(refusal: Refusal) -> Heard
    ensures { result ≡ record { said = said.Refused refusal; jumped = false } }
{
    answered(Said::Refused { refusal })
}

/// What is heard of an event or a mark that was refused. To one for which memory was wanting nothing is said.
fn unchanged(refusal: Refusal) -> Result<Heard, AllocError>
    ensures value { IfOk result (λ heard. heard ≡ record { said = said.Refused refusal; jumped = false }) }
    ensures other { IfOk result (λ heard. refusal ≢ Refusal.OutOfMemory) }
    ensures memory { OnErr result (refusal ≡ Refusal.OutOfMemory) }
{
    match refusal {
        Refusal::OutOfMemory => Err(AllocError),
        _ => Ok(refused(refusal)),
    }
}

/// Makes a call. Where memory runs out the journal is as it was.
#[inline(always)]
pub fn hear(journal: &mut Journal, alloc: Global, call: &Call) -> Result<Heard, AllocError>
    ensures ok { IfOk result (λ heard. (h : History) → Holds journal.old h → Hears journal.new h call.now heard) }
    ensures asked { OnlyAsks call.now → journal.new ≡ journal.old }
    ensures short { MovesOrPrunes call.now → IfOk result (λ heard. IsShort heard.said) }
    ensures err { (h : History) → Holds journal.old h → OnErr result (journal.new ≡ journal.old) }
    ensures room { OnErr result (MayLackMemory call.now) }
    ensures there { (h : History) → Holds journal.old h → OnErr result (ComesToMemory h call.now) }
{
    match call {
        Call::Do { event } => hear_event(journal, event),
        Call::Undo { count } => Ok(hear_undo(journal, *count)),
        Call::Redo { count } => Ok(hear_redo(journal, *count)),
        Call::Goto { node } => Ok(hear_goto(journal, *node)),
        Call::Visit { name } => Ok(hear_visit(journal, name)),
        Call::Mark { name } => hear_mark(journal, name),
        Call::Prune { node } => Ok(hear_prune(journal, *node)),
        Call::WhatIf { events } => hear_what_if(journal, alloc, events),
        Call::Sum => Ok(hear_sum(journal)),
        Call::Table => hear_table(journal, alloc),
        Call::OfVm { vm } => hear_vm(journal, alloc, *vm),
        Call::OfPage { vm, page } => Ok(hear_page(journal, *vm, *page)),
        Call::Advise { vm, page } => Ok(hear_advise(journal, *vm, *page)),
        Call::Stand => Ok(hear_stand(journal)),
        Call::Marks => hear_marks(journal, alloc),
    }
}

/// The count of jumps after one more call.
pub fn counted(jumps: u64, jumped: bool) -> u64
    requires { jumps < 2 ^ 63 }
    ensures { result ≡ jumps + (if jumped then 1 else 0) }
{
    if jumped { jumps + 1 } else { jumps }
}
