//! Questions on the machine and the cursor. The table takes memory, and so do a virtual machine's averages;
//! the others take none.

ghost use Rattle.std.specs.Prelude.{◌≡◌, IfOk, OnErr, IsOk, false};
ghost use Rattle.esx_model.specs.History.{History, book_at};
ghost use Rattle.esx_model.specs.Readings.{activity};
ghost use Rattle.esx_model.specs.Console.{page_said, activity_said, help_said};
ghost use Rattle.esx_events.specs.declared.call.Call.TheVariants as calls;
ghost use Rattle.esx_journal.specs.Journal.{Holds};
ghost use Rattle.esx_console.specs.Hearing.{Hears};

use crate::hearing::{Heard, answered, refused};
use esx_events::{Activity, Boxed, Help, PageState, Refusal, Said};
use esx_journal::Journal;
use esx_types::VmId;
use std::alloc::{AllocError, Global};

fn page_heard(found: Result<PageState, Refusal>) -> Heard
    ensures { result ≡ record { said = page_said found; jumped = false } }
{
    match found {
        Ok(state) => answered(Said::Page { state }),
        Err(refusal) => refused(refusal),
    }
}

fn activity_heard(alloc: Global, found: Result<Activity, Refusal>) -> Result<Heard, AllocError>
    ensures value { IfOk result (λ heard. heard ≡ record { said = activity_said found; jumped = false }) }
    ensures there { OnErr result (IsOk found) }
{
    match found {
        Ok(activity) => Ok(answered(Said::Activity {
            activity: Boxed::new(alloc, activity)?,
        })),
        Err(refusal) => Ok(refused(refusal)),
    }
}

fn help_heard(found: Result<Help, Refusal>) -> Heard
    ensures { result ≡ record { said = help_said found; jumped = false } }
{
    match found {
        Ok(help) => answered(Said::Help { help }),
        Err(refusal) => refused(refusal),
    }
}

pub fn hear_sum(journal: &Journal) -> Heard
    ensures { (h : History) → Holds journal.now h → Hears journal.now h calls.Sum result }
{
    let sum = journal.machine().sum();
    answered(Said::Sum { sum })
}

pub fn hear_table(journal: &Journal, alloc: Global) -> Result<Heard, AllocError>
    ensures { IfOk result (λ heard. (h : History) → Holds journal.now h → Hears journal.now h calls.Table heard) }
{
    let machine = journal.machine();
    let rows = Boxed::new(alloc, machine.table()?)?;
    let sum = Boxed::new(alloc, machine.sum())?;
    Ok(answered(Said::Table { rows, sum }))
}

/// Memory is wanting only where the virtual machine is there.
pub fn hear_vm(journal: &Journal, alloc: Global, vm: VmId) -> Result<Heard, AllocError>
    ensures ok { IfOk result (λ heard. (h : History) → Holds journal.now h → Hears journal.now h (calls.OfVm vm) heard) }
    ensures there { (h : History) → Holds journal.now h → OnErr result (IsOk (activity (book_at h) vm)) }
{
    activity_heard(alloc, journal.machine().of_vm(vm))
}

pub fn hear_page(journal: &Journal, vm: VmId, page: u32) -> Heard
    ensures { (h : History) → Holds journal.now h → Hears journal.now h (calls.OfPage vm page) result }
{
    page_heard(journal.machine().of_page(vm, page))
}

pub fn hear_advise(journal: &Journal, vm: VmId, page: u32) -> Heard
    ensures { (h : History) → Holds journal.now h → Hears journal.now h (calls.Advise vm page) result }
{
    help_heard(journal.machine().advise(vm, page))
}

pub fn hear_stand(journal: &Journal) -> Heard
    ensures { (h : History) → Holds journal.now h → Hears journal.now h calls.Stand result }
{
    let stand = journal.stand();
    answered(Said::Stand { stand })
}
