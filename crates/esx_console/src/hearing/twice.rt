//! Calls that are heard twice. A copy that fails could take no change back, so that of what is said to an event or a mark
//! is had before the change stays.

ghost use Rattle.std.specs.Prelude.{◌≡◌, ◌≢◌, IfOk, OnErr, false};
ghost use Rattle.esx_model.specs.History.{History};
ghost use Rattle.esx_events.specs.declared.call.Call.TheVariants as calls;
ghost use Rattle.esx_events.specs.declared.call.Said.TheVariants as said;
ghost use Rattle.esx_journal.specs.Journal.{Holds};
ghost use Rattle.esx_console.specs.Hearing.{Hears, IsShort};

use crate::hearing::{Heard, answered, hear, unchanged};
use esx_events::{Call, Event, Name, Refusal, Said};
use esx_journal::Journal;
use std::alloc::{AllocError, Global};

/// What was said once more. Memory is wanting only where it is long.
fn again(said: &Said) -> Result<Said, AllocError>
    ensures ok { IfOk result (λ copy. copy ≡ said.now) }
    ensures long { OnErr result (IsShort said.now → ⊥) }
{
    match said {
        Said::Refused { refusal } => Ok(Said::Refused { refusal: *refusal }),
        Said::Stand { stand } => Ok(Said::Stand { stand: *stand }),
        Said::Pruned { count } => Ok(Said::Pruned { count: *count }),
        _ => said.copy(),
    }
}

/// What was heard, and a copy of it.
fn with_copy(heard: Heard) -> Result<(Heard, Heard), AllocError>
    ensures ok { IfOk result (λ both. both ≡ (heard, heard)) }
    ensures long { OnErr result (IsShort heard.said → ⊥) }
{
    let copy = Heard {
        said: again(&heard.said)?,
        jumped: heard.jumped,
    };
    Ok((heard, copy))
}

/// What is heard of an event or a mark that was refused, twice. It is made anew, since a copy would wait for what was just
/// written.
#[inline(always)]
fn unchanged_twice(refusal: Refusal) -> Result<(Heard, Heard), AllocError>
    ensures value { IfOk result (λ both. both ≡ (record { said = said.Refused refusal; jumped = false }, record { said = said.Refused refusal; jumped = false })) }
    ensures other { IfOk result (λ both. refusal ≢ Refusal.OutOfMemory) }
    ensures memory { OnErr result (refusal ≡ Refusal.OutOfMemory) }
{
    Ok((unchanged(refusal)?, unchanged(refusal)?))
}

fn event_twice(journal: &mut Journal, event: &Event) -> Result<(Heard, Heard), AllocError>
    ensures ok { IfOk result (λ both. (h : History) → Holds journal.old h → Hears journal.new h (calls.Do event.now) both.0 × Hears journal.new h (calls.Do event.now) both.1) }
    ensures err { (h : History) → Holds journal.old h → OnErr result (journal.new ≡ journal.old) }
{
    match journal.apply(event) {
        Ok((answer, copy)) => Ok((
            answered(Said::Done { answer }),
            answered(Said::Done { answer: copy }),
        )),
        Err(refusal) => unchanged_twice(refusal),
    }
}

/// The copies of the name are had before the node is named.
fn mark_twice(journal: &mut Journal, name: &Name) -> Result<(Heard, Heard), AllocError>
    ensures ok { IfOk result (λ both. (h : History) → Holds journal.old h → Hears journal.new h (calls.Mark name.now) both.0 × Hears journal.new h (calls.Mark name.now) both.1) }
    ensures err { (h : History) → Holds journal.old h → OnErr result (journal.new ≡ journal.old) }
{
    let said = name.copy()?;
    let copy = name.copy()?;
    match journal.mark(name) {
        Ok(node) => Ok((
            answered(Said::Marked { name: said, node }),
            answered(Said::Marked { name: copy, node }),
        )),
        Err(refusal) => unchanged_twice(refusal),
    }
}

/// Makes a call as `hear` does, and gives what is heard twice. Where memory runs out, also for the copy, the journal
/// is as it was.
pub fn hear_twice(
    journal: &mut Journal,
    alloc: Global,
    call: &Call,
) -> Result<(Heard, Heard), AllocError>
    ensures ok { IfOk result (λ both. (h : History) → Holds journal.old h → Hears journal.new h call.now both.0 × Hears journal.new h call.now both.1) }
    ensures err { (h : History) → Holds journal.old h → OnErr result (journal.new ≡ journal.old) }
{
    match call {
        Call::Do { event } => event_twice(journal, event),
        Call::Mark { name } => mark_twice(journal, name),
        _ => with_copy(hear(journal, alloc, call)?),
    }
}
