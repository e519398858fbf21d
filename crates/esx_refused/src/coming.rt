//! Machines that are admitted to a site one after another.

ghost use Rattle.std.specs.Prelude.{◌≡◌, false, IfOk, Some, None};
ghost use Rattle.esx_types.specs.declared.config.TheConstants.{VM_NUMBERS};
ghost use Rattle.esx_opening.specs.Orders.{of_number};
ghost use Rattle.esx_refused.specs.Promised.{AreWithin, promised_with, all_promised, promised_below};

use esx_events::Refusal;
use esx_scenario::Guest;
use esx_types::{Config, VM_NUMBERS, VmId};

/// What is wanted, and what there is of it: frames, swap slots or nodes, as the refusal says.
#[derive(Clone, Copy, Debug, PartialEq, Eq)]
pub struct Lack {
    pub asked: u64,
    pub had: u32,
}

/// A machine that is refused as a site is opened, why, and what is lacking, if that is a number: what would be promised
/// with the machine, or the node that its admission or its next start would make.
#[derive(Clone, Copy, Debug, PartialEq, Eq)]
pub struct RefusedOpening {
    pub vm: VmId,
    pub refusal: Refusal,
    pub lack: Option<Lack>,
}

/// How many nodes the machines that came have made, and the frames and slots that are promised to them.
#[derive(Clone, Copy)]
pub struct Promised {
    pub nodes: u32,
    pub memory: u64,
    pub swap: u64,
}

/// The machine is refused where nodes, frames or slots are lacking.
pub(crate) fn lacking(vm: VmId, refusal: Refusal, asked: u64, had: u32) -> RefusedOpening
    ensures { result ≡ record { vm = vm; refusal = refusal; lack = Some (record { asked = asked; had = had }) } }
{
    RefusedOpening {
        vm,
        refusal,
        lack: Some(Lack { asked, had }),
    }
}

/// The machine is refused for another reason.
fn refused(vm: VmId, refusal: Refusal) -> RefusedOpening
    ensures { result ≡ record { vm = vm; refusal = refusal; lack = None } }
{
    RefusedOpening {
        vm,
        refusal,
        lack: None,
    }
}

/// What is promised with one more machine, where one of its number is there already or not; or why it is refused.
fn with_one(
    site: &Config,
    so_far: Promised,
    there: bool,
    guest: &Guest,
) -> Result<Promised, RefusedOpening>
    requires { AreWithin site.now so_far }
    ensures value { result ≡ promised_with site.now so_far there guest.now }
    ensures within { IfOk result (λ after. AreWithin site.now after) }
{
    if site.nodes <= so_far.nodes {
        let next = u64::from(so_far.nodes) + 1;
        return Err(lacking(guest.vm, Refusal::Full, next, site.nodes));
    }
    if there {
        return Err(refused(guest.vm, Refusal::VmThere));
    }
    let spec = guest.spec;
    if !spec.is_good() {
        return Err(refused(guest.vm, Refusal::BadSpec));
    }
    let memory = so_far.memory + (u64::from(spec.min) + u64::from(spec.overhead));
    if u64::from(site.frames) < memory {
        let refusal = Refusal::NoMemoryReserve;
        return Err(lacking(guest.vm, refusal, memory, site.frames));
    }
    let swap = so_far.swap + u64::from(spec.max - spec.min);
    if u64::from(site.slots) < swap {
        return Err(lacking(guest.vm, Refusal::NoSwapReserve, swap, site.slots));
    }
    let nodes = so_far.nodes + 1;
    Ok(Promised {
        nodes,
        memory,
        swap,
    })
}

/// The same with those that have a number.
fn with_number(
    site: &Config,
    so_far: Promised,
    guests: &[Guest],
    number: usize,
) -> Result<Promised, RefusedOpening>
    requires { AreWithin site.now so_far }
    ensures value { result ≡ all_promised site.now so_far false (of_number guests.now number) }
    ensures within { IfOk result (λ after. AreWithin site.now after) }
{
    let mut now = so_far;
    let mut there = false;
    for guest in guests {
        if usize::from(guest.vm.number()) == number {
            match with_one(site, now, there, guest) {
                Ok(after) => now = after,
                Err(first) => return Err(first),
            }
            there = true;
        }
    }
    Ok(now)
}

/// The same with all, in the order of their numbers.
pub(crate) fn admitted(site: &Config, guests: &[Guest]) -> Result<Promised, RefusedOpening>
    ensures value { result ≡ promised_below site.now guests.now VM_NUMBERS }
    ensures within { IfOk result (λ after. AreWithin site.now after) }
{
    let mut so_far = Promised {
        nodes: 0,
        memory: 0,
        swap: 0,
    };
    for number in 0..VM_NUMBERS {
        match with_number(site, so_far, guests, number) {
            Ok(after) => so_far = after,
            Err(first) => return Err(first),
        }
    }
    Ok(so_far)
}
