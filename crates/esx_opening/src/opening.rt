//! The calls that open a site.

ghost use Rattle.std.specs.Prelude.{◌≡◌, replicate, OnOk, IfOk, IfErr};
ghost use Rattle.std.specs.List.{flat_map};
ghost use Rattle.esx_events.specs.declared.call.Said.TheVariants as said;
ghost use Rattle.esx_model.specs.Console.{next_reply, lined};
ghost use Rattle.esx_console.specs.Calls.{opened_session};
ghost use Rattle.esx_opening.specs.Openings.{admit_of, starts_of, opening_events, IsAccepted, AreAccepted, IsRefusedAt, EndsRefused, AreBegun};

use crate::order::in_order;
use esx_console::Console;
use esx_events::{Call, Event, Refusal, Said};
use esx_scenario::{Guest, Scenario};
use esx_types::VmId;
use std::alloc::{AllocError, Global};

/// Why a site was not opened: a call of its opening was refused, the first one that was; or there was no memory.
#[derive(Clone, Copy, Debug, PartialEq, Eq)]
pub enum SiteFault {
    Refused { refusal: Refusal },
    OutOfMemory,
}

impl From<AllocError> for SiteFault {
    ghost use Rattle.std.specs.Prelude.{◌≡◌};
    ghost use Rattle.esx_opening.specs.declared.opening.SiteFault.TheVariants.{OutOfMemory};

    ghost from_gives = { λ _ e. e ≡ OutOfMemory };

    fn from(_error: AllocError) -> SiteFault {
        SiteFault::OutOfMemory
    }
}

/// Makes an event happen as caller 0.
fn accept(console: &mut Console, event: Event) -> Result<(), SiteFault>
    ensures ok { OnOk result (IsAccepted (next_reply console.old (Call.Do event)) × (console.new ≡ lined console.old 0 (Call.Do event))) }
    ensures refused { IfErr result (λ fault. (e : Refusal) → fault ≡ SiteFault.Refused e
        → ((next_reply console.old (Call.Do event)).said ≡ said.Refused e) × (console.new ≡ lined console.old 0 (Call.Do event))) }
    ensures late { IfErr result (λ fault. fault ≡ SiteFault.OutOfMemory → console.new ≡ console.old) }
{
    match console.call(0, Call::Do { event })?.said {
        Said::Done { .. } => Ok(()),
        Said::Refused { refusal } => Err(SiteFault::Refused { refusal }),
        _ => unreachable!(),
    }
}

/// Starts a machine, frame by frame.
fn start_one(console: &mut Console, vm: VmId, frames: u32) -> Result<(), SiteFault>
    ensures ok { OnOk result (AreAccepted (replicate frames (Event.Start vm)) console.old console.new) }
    ensures refused { IfErr result (λ fault. (e : Refusal) → fault ≡ SiteFault.Refused e → EndsRefused (replicate frames (Event.Start vm)) console.old console.new e) }
    ensures late { IfErr result (λ fault. fault ≡ SiteFault.OutOfMemory → AreBegun (replicate frames (Event.Start vm)) console.old console.new) }
{
    for _ in 0..frames {
        accept(console, Event::Start { vm })?;
    }
    Ok(())
}

fn admit_all(console: &mut Console, guests: &[&Guest]) -> Result<(), SiteFault>
    ensures ok { OnOk result (AreAccepted (flat_map (λ g. admit_of g.now) guests.now) console.old console.new) }
    ensures refused { IfErr result (λ fault. (e : Refusal) → fault ≡ SiteFault.Refused e → EndsRefused (flat_map (λ g. admit_of g.now) guests.now) console.old console.new e) }
    ensures late { IfErr result (λ fault. fault ≡ SiteFault.OutOfMemory → AreBegun (flat_map (λ g. admit_of g.now) guests.now) console.old console.new) }
{
    for guest in guests {
        accept(
            console,
            Event::Admit {
                vm: guest.vm,
                spec: guest.spec,
            },
        )?;
    }
    Ok(())
}

fn start_all(console: &mut Console, guests: &[&Guest]) -> Result<(), SiteFault>
    ensures ok { OnOk result (AreAccepted (flat_map (λ g. starts_of g.now) guests.now) console.old console.new) }
    ensures refused { IfErr result (λ fault. (e : Refusal) → fault ≡ SiteFault.Refused e → EndsRefused (flat_map (λ g. starts_of g.now) guests.now) console.old console.new e) }
    ensures late { IfErr result (λ fault. fault ≡ SiteFault.OutOfMemory → AreBegun (flat_map (λ g. starts_of g.now) guests.now) console.old console.new) }
{
    for guest in guests {
        start_one(console, guest.vm, guest.spec.overhead)?;
    }
    Ok(())
}

/// How many lines the traces have, of each guest no more than it has turns.
fn calls_of_traces(guests: &[Guest], turns: u32) -> usize {
    let mut calls = 0usize;
    for guest in guests {
        calls = calls.saturating_add(guest.trace.len().min(turns as usize));
    }
    calls
}

/// Opens the site of a scenario, with room for the calls of its traces. As caller 0 it admits each machine, in the order
/// of their numbers, and then takes each one's overhead frames, with the last of which it runs. The first refusal of
/// these calls ends it.
pub fn open_site(alloc: Global, scenario: &Scenario) -> Result<Console, SiteFault>
    ensures ok { IfOk result (λ console. AreAccepted (opening_events scenario.now.guests) (opened_session scenario.now.site) console) }
    ensures refused { IfErr result (λ fault. (e : Refusal) → fault ≡ SiteFault.Refused e → IsRefusedAt (opening_events scenario.now.guests) (opened_session scenario.now.site) e) }
{
    let Ok(mut console) = Console::open(alloc, scenario.config()) else {
        return Err(SiteFault::OutOfMemory);
    };
    let guests = in_order(alloc, scenario.guests())?;
    admit_all(&mut console, &guests)?;
    start_all(&mut console, &guests)?;
    console.make_room(calls_of_traces(scenario.guests(), scenario.settings().turns));
    Ok(console)
}
