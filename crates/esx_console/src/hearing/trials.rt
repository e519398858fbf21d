//! Events that are tried.

ghost use Rattle.std.specs.Prelude.{◌≡◌, IfOk};
ghost use Rattle.esx_model.specs.History.{History};
ghost use Rattle.esx_events.specs.declared.call.Call.TheVariants as calls;
ghost use Rattle.esx_journal.specs.Journal.{Holds};
ghost use Rattle.esx_console.specs.Hearing.{Hears};

use crate::hearing::{Heard, answered};
use esx_events::{Boxed, Events, Said};
use esx_journal::Journal;
use std::alloc::{AllocError, Global};

pub fn hear_what_if(
    journal: &mut Journal,
    alloc: Global,
    events: &Events,
) -> Result<Heard, AllocError>
    ensures ok { IfOk result (λ heard. (h : History) → Holds journal.old h → Hears journal.new h (calls.WhatIf events.now) heard) }
    ensures same { journal.new ≡ journal.old }
{
    let sides = journal.what_if(events.as_slice())?;
    Ok(answered(Said::Sides {
        sides: Boxed::new(alloc, sides)?,
    }))
}
