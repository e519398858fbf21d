//! Events that a scene calls for: the plain program accepts them mostly.

use crate::contents::content;
use crate::draws::Draws;
use crate::plain::Plain;
use crate::readings::{here, lent, vm_at};
use esx_events::{Call, Event};
use esx_model::{Place, Vm};
use esx_types::{Level, VmId, VmState};
use std::alloc::AllocError;

/// Where a page is looked for.
#[derive(Clone, Copy)]
enum Wanted {
    /// In a frame or in a slot.
    Kept,
    Private,
    Shared,
    Lent,
    NotLent,
    NotHere,
}

fn fits(vm: &Vm, place: &Place, wanted: Wanted) -> bool {
    match (wanted, place) {
        (Wanted::Kept, Place::Here { .. } | Place::Out { .. }) => true,
        (Wanted::Private, Place::Here { shared, .. }) => !*shared,
        (Wanted::Shared, Place::Here { shared, .. }) => *shared,
        (Wanted::Lent, Place::Lent { epoch }) => *epoch == vm.epoch,
        (Wanted::NotLent, Place::Lent { epoch }) => *epoch != vm.epoch,
        (Wanted::NotLent, _) => true,
        (Wanted::NotHere, place) => !matches!(place, Place::Here { .. }),
        _ => false,
    }
}

/// The first such page from a drawn one on, counted round.
fn page_that(vm: &Vm, wanted: Wanted, draws: &mut Draws) -> Option<u32> {
    let max = vm.spec.max;
    let from = draws.below(max.min(40));
    for step in 0..max {
        let page = from.saturating_add(step).checked_rem(max)?;
        let place = vm.places.as_slice().get(page as usize)?;
        if fits(vm, place, wanted) {
            return Some(page);
        }
    }
    None
}

/// A machine that stops gives back a page, or goes.
fn leaving(id: VmId, vm: &Vm, draws: &mut Draws) -> Option<Event> {
    if vm.state != VmState::Stopping {
        return None;
    }
    let page = page_that(vm, Wanted::Kept, draws);
    Some(match page {
        Some(page) if draws.below(12) != 0 => Event::DropPage { vm: id, page },
        _ => Event::Gone { vm: id },
    })
}

fn stopping(id: VmId, vm: &Vm) -> Option<Event> {
    match vm.state {
        VmState::Running => Some(Event::Stop { vm: id }),
        _ => None,
    }
}

fn starting(id: VmId, vm: &Vm) -> Option<Event> {
    match vm.state {
        VmState::Starting => Some(Event::Start { vm: id }),
        _ => None,
    }
}

/// A page that is lent is taken back, or read, which pops the balloon.
fn returned(id: VmId, vm: &Vm, draws: &mut Draws) -> Option<Event> {
    let page = page_that(vm, Wanted::Lent, draws)?;
    Some(match draws.below(4) {
        0 => Event::Read {
            vm: id,
            page,
            at: 0,
            len: 1,
        },
        _ => Event::TakeBack { vm: id, page },
    })
}

/// A balloon that is due is reset by each of three events.
fn reset(id: VmId, vm: &Vm, draws: &mut Draws) -> Option<Event> {
    if !vm.due {
        return None;
    }
    let page = draws.below(vm.spec.max);
    Some(match draws.below(3) {
        0 => Event::Ask { vm: id },
        1 => Event::Lend { vm: id, page },
        _ => Event::TakeBack { vm: id, page },
    })
}

fn lending(id: VmId, vm: &Vm, draws: &mut Draws) -> Option<Event> {
    let goal = vm
        .spec
        .balloon_max
        .min(vm.spec.max.saturating_sub(vm.target));
    if goal <= lent(vm) {
        return None;
    }
    let page = page_that(vm, Wanted::NotLent, draws)?;
    Some(Event::Lend { vm: id, page })
}

fn paging_out(id: VmId, vm: &Vm, draws: &mut Draws) -> Option<Event> {
    if here(vm) <= vm.target {
        return None;
    }
    Some(Event::SwapOut {
        vm: id,
        word: draws.word(),
    })
}

fn replacing(id: VmId, vm: &Vm, draws: &mut Draws) -> Option<Event> {
    let page = page_that(vm, Wanted::NotHere, draws)?;
    Some(Event::Replace {
        vm: id,
        page,
        word: draws.word(),
    })
}

fn scanning(id: VmId, vm: &Vm, draws: &mut Draws) -> Option<Event> {
    let page = page_that(vm, Wanted::Private, draws)?;
    Some(Event::Scan { vm: id, page })
}

/// Targets are set anew while something is to be reclaimed.
fn retargeting(plain: &Plain) -> Option<Event> {
    match plain.level() {
        Level::High => None,
        _ => Some(Event::Rebalance),
    }
}

/// What one machine is made to do; `kind` says what is looked for.
fn event_of(kind: u32, id: VmId, vm: &Vm, draws: &mut Draws) -> Option<Event> {
    match kind {
        0..=5 => leaving(id, vm, draws),
        6 => stopping(id, vm),
        7 => starting(id, vm),
        8..=10 => returned(id, vm, draws),
        11 => reset(id, vm, draws),
        12..=14 => lending(id, vm, draws),
        15..=18 => paging_out(id, vm, draws),
        19..=23 => replacing(id, vm, draws),
        _ => scanning(id, vm, draws),
    }
}

/// A write to a page whose frame it may share.
fn copying(plain: &Plain, draws: &mut Draws) -> Result<Option<Event>, AllocError> {
    let id = draws.machine();
    let Some(vm) = vm_at(plain, id) else {
        return Ok(None);
    };
    match page_that(vm, Wanted::Shared, draws) {
        None => Ok(None),
        Some(page) => Ok(Some(Event::Write {
            vm: id,
            page,
            at: 0,
            bytes: content(plain.alloc(), plain.config().page, draws)?,
        })),
    }
}

/// A machine of the shape that is not there.
fn coming(plain: &Plain, draws: &mut Draws) -> Option<Event> {
    for place in 0..draws.machines() {
        let vm = draws.machine_at(place);
        if vm_at(plain, vm).is_none() {
            return Some(Event::Admit {
                vm,
                spec: draws.spec(),
            });
        }
    }
    None
}

/// An event that some machine is ready for, if one of a drawn kind is found.
pub fn guided(plain: &Plain, draws: &mut Draws) -> Result<Option<Event>, AllocError> {
    let kind = draws.below(30);
    match kind {
        27 => copying(plain, draws),
        28 => Ok(coming(plain, draws)),
        29 => Ok(retargeting(plain)),
        _ => Ok(ready(plain, draws, kind)),
    }
}

/// What the first machine from a drawn one on, counted round, is ready for.
fn ready(plain: &Plain, draws: &mut Draws, kind: u32) -> Option<Event> {
    let machines = draws.machines();
    let from = draws.below(machines);
    for step in 0..machines {
        let place = from.saturating_add(step).checked_rem(machines)?;
        let id = draws.machine_at(place);
        if let Some(vm) = vm_at(plain, id) {
            let event = event_of(kind, id, vm, draws);
            if event.is_some() {
                return event;
            }
        }
    }
    None
}

/// A question for a page that is in a certain place, if one is found.
pub fn asked(plain: &Plain, draws: &mut Draws) -> Option<Call> {
    let wanted = match draws.below(4) {
        0 => Wanted::Lent,
        1 => Wanted::Shared,
        2 => Wanted::Kept,
        _ => Wanted::NotHere,
    };
    let id = draws.machine();
    let page = page_that(vm_at(plain, id)?, wanted, draws)?;
    Some(match draws.below(3) {
        0 => Call::Advise { vm: id, page },
        _ => Call::OfPage { vm: id, page },
    })
}
