//! Whether a text of a version may have a call.

ghost use Rattle.std.specs.Prelude.{◌≡◌};
ghost use Rattle.esx_events.specs.Limits.{has_vm, has_tax, has_event, has_events, has_call};

use crate::call::Call;
use crate::event::Event;
use esx_types::{Version, VmId};

fn has_vm(version: Version, vm: VmId) -> bool
    ensures { result ≡ has_vm version vm }
{
    usize::from(vm.number()) < version.vm_numbers()
}

fn has_tax(version: Version, tau: Option<u32>) -> bool
    ensures { result ≡ has_tax version tau }
{
    match tau {
        None => true,
        Some(_) => version.has_own_taxes(),
    }
}

fn has_event(version: Version, event: &Event) -> bool
    ensures { result ≡ has_event version event.now }
{
    match event {
        Event::Rebalance | Event::SetTax { .. } => true,
        Event::Admit { vm, spec } => has_vm(version, *vm) && has_tax(version, spec.tau),
        Event::SetVmTax { vm, .. } => has_vm(version, *vm) && version.has_own_taxes(),
        Event::Start { vm }
        | Event::Read { vm, .. }
        | Event::Write { vm, .. }
        | Event::Ask { vm }
        | Event::Lend { vm, .. }
        | Event::TakeBack { vm, .. }
        | Event::Sample { vm, .. }
        | Event::Scan { vm, .. }
        | Event::SwapOut { vm, .. }
        | Event::Replace { vm, .. }
        | Event::SetShares { vm, .. }
        | Event::Stop { vm }
        | Event::DropPage { vm, .. }
        | Event::Gone { vm } => has_vm(version, *vm),
    }
}

fn has_events(version: Version, events: &[Event]) -> bool
    ensures { result ≡ has_events version events.now }
{
    events.iter().all(|event| has_event(version, event))
}

/// Whether a text of this version may have the call: its machines' numbers, and no taxes of their own before there were
/// any, among events that are tried too.
pub fn has_call(version: Version, call: &Call) -> bool
    ensures { result ≡ has_call version call.now }
{
    match call {
        Call::Do { event } => has_event(version, event),
        Call::WhatIf { events } => has_events(version, events.as_slice()),
        Call::OfVm { vm } | Call::OfPage { vm, .. } | Call::Advise { vm, .. } => {
            has_vm(version, *vm)
        }
        Call::Undo { .. }
        | Call::Redo { .. }
        | Call::Goto { .. }
        | Call::Visit { .. }
        | Call::Mark { .. }
        | Call::Prune { .. }
        | Call::Sum
        | Call::Table
        | Call::Stand
        | Call::Marks => true,
    }
}
