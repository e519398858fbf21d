//! Names of nodes, and branches that are dropped.

ghost use Rattle.std.specs.Prelude.{◌≡◌, IfOk, OnErr, false};
ghost use Rattle.esx_model.specs.History.{History};
ghost use Rattle.esx_events.specs.declared.call.Call.TheVariants as calls;
ghost use Rattle.esx_journal.specs.Journal.{Holds};
ghost use Rattle.esx_console.specs.Hearing.{Hears, IsShort, prune_said};

use crate::hearing::{Heard, answered, refused, unchanged};
use esx_events::{Boxed, Name, Refusal, Said};
use esx_journal::Journal;
use std::alloc::{AllocError, Global};

/// The copy of the name is had before the node is named.
pub fn hear_mark(journal: &mut Journal, name: &Name) -> Result<Heard, AllocError>
    ensures ok { IfOk result (λ heard. (h : History) → Holds journal.old h → Hears journal.new h (calls.Mark name.now) heard) }
    ensures err { (h : History) → Holds journal.old h → OnErr result (journal.new ≡ journal.old) }
{
    let copy = name.copy()?;
    match journal.mark(name) {
        Ok(node) => Ok(answered(Said::Marked { name: copy, node })),
        Err(refusal) => unchanged(refusal),
    }
}

/// What is said to a prune: how many nodes are gone, or why none is.
fn pruned(gone: Result<u32, Refusal>) -> Heard
    ensures value { result ≡ record { said = prune_said gone; jumped = false } }
    ensures short { IsShort result.said }
{
    match gone {
        Ok(count) => answered(Said::Pruned { count }),
        Err(refusal) => refused(refusal),
    }
}

pub fn hear_prune(journal: &mut Journal, node: u32) -> Heard
    ensures hears { (h : History) → Holds journal.old h → Hears journal.new h (calls.Prune node) result }
    ensures short { IsShort result.said }
{
    pruned(journal.prune(node))
}

pub fn hear_marks(journal: &Journal, alloc: Global) -> Result<Heard, AllocError>
    ensures { IfOk result (λ heard. (h : History) → Holds journal.now h → Hears journal.now h calls.Marks heard) }
{
    let marks = journal.marks().rows()?;
    Ok(answered(Said::Marks {
        marks: Boxed::new(alloc, marks)?,
    }))
}
