//! What lets a write to a page go on, from a scene alone.

use crate::plain::Plain;
use crate::readings::{active, here, vm_at};
use esx_events::{Help, Refusal};
use esx_model::{Place, Site, Vm};
use esx_steps::{free_count, pages_at};
use esx_types::{Level, VmId, VmState};

/// The tax of a machine: its own, or else the site's.
fn tax(site: &Site, vm: &Vm) -> u32 {
    vm.spec.tau.unwrap_or(site.tau)
}

/// What a machine pays with: its shares, without the tax on them.
fn purse(site: &Site, vm: &Vm) -> u128 {
    let left = 100_u32.saturating_sub(tax(site, vm));
    u128::from(vm.spec.shares).saturating_mul(u128::from(left))
}

/// What its pages cost: the less of its memory is in use, the more.
fn price(site: &Site, vm: &Vm) -> u128 {
    let used = u128::from(tax(site, vm)).saturating_mul(u128::from(active(vm)));
    u128::from(here(vm)).saturating_mul(6553600_u128.saturating_sub(used))
}

/// Whether a machine's ratio is less than another's.
fn is_less(site: &Site, vm: &Vm, other: &Vm) -> bool {
    let own = purse(site, vm).saturating_mul(price(site, other));
    own < purse(site, other).saturating_mul(price(site, vm))
}

/// Of the machines above their target, the one of least ratio; of equal ones the first.
fn payer(site: &Site) -> Option<VmId> {
    let mut best: Option<(VmId, &Vm)> = None;
    for (number, vm) in site.vms.as_slice().iter().enumerate() {
        let Some(vm) = vm else {
            continue;
        };
        if here(vm) <= vm.target {
            continue;
        }
        let sooner = match best {
            None => true,
            Some((_, own)) => is_less(site, vm, own),
        };
        let id = u8::try_from(number).ok().map(VmId::new);
        if let (true, Some(id)) = (sooner, id) {
            best = Some((id, vm));
        }
    }
    match best {
        Some((id, _)) => Some(id),
        None => None,
    }
}

fn is_any_above_min(site: &Site) -> bool {
    for vm in site.vms.as_slice() {
        if let Some(vm) = vm {
            if vm.spec.min < here(vm) {
                return true;
            }
        }
    }
    false
}

/// Whether a write to the place finds a frame.
fn has_frame(plain: &Plain, place: &Place) -> bool {
    let takes_none = match place {
        Place::Here { frame, shared, .. } => !*shared || pages_at(plain.site(), *frame) < 2,
        _ => false,
    };
    takes_none || 0 < free_count(plain.site(), plain.config().frames)
}

fn can_write(plain: &Plain, vm: &Vm, place: &Place) -> bool {
    let waits = plain.level() == Level::Low && vm.target < here(vm);
    !waits && has_frame(plain, place)
}

pub fn advice(plain: &Plain, number: VmId, page: u32) -> Result<Help, Refusal> {
    let Some(vm) = vm_at(plain, number) else {
        return Err(Refusal::NoVm);
    };
    if vm.state != VmState::Running {
        return Err(Refusal::NotRunning);
    }
    let Some(place) = vm.places.as_slice().get(page as usize) else {
        return Err(Refusal::OutOfRange);
    };
    if can_write(plain, vm, place) {
        return Ok(Help::Go);
    }
    Ok(match payer(plain.site()) {
        Some(vm) => Help::SwapOut { vm },
        None if is_any_above_min(plain.site()) => Help::Rebalance,
        None => Help::Replace,
    })
}
