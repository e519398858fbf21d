//! Events.

ghost use Rattle.std.specs.Prelude.{◌≡◌, IfOk, IsOk, OnErr};
ghost use Rattle.esx_model.specs.History.{History, do_event};
ghost use Rattle.esx_events.specs.declared.call.Call.TheVariants as calls;
ghost use Rattle.esx_journal.specs.Journal.{Holds};
ghost use Rattle.esx_console.specs.Hearing.{Hears};

use crate::hearing::{Heard, answered, unchanged};
use esx_events::{Event, Said};
use esx_journal::Journal;
use std::alloc::AllocError;

#[inline(always)]
pub fn hear_event(journal: &mut Journal, event: &Event) -> Result<Heard, AllocError>
    ensures ok { IfOk result (λ heard. (h : History) → Holds journal.old h → Hears journal.new h (calls.Do event.now) heard) }
    ensures err { (h : History) → Holds journal.old h → OnErr result (journal.new ≡ journal.old) }
    ensures late { (h : History) → Holds journal.old h → OnErr result (IsOk (do_event event.now h)) }
{
    match journal.apply_once(event) {
        Ok(answer) => Ok(answered(Said::Done { answer })),
        Err(refusal) => unchanged(refusal),
    }
}
