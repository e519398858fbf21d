//! What questions read of a scene: each is counted anew from the places of pages.

use crate::plain::Plain;
use esx_events::{Activity, PageState, Refusal, Sum, TableRow};
use esx_formulas::{Estimate, Period};
use esx_model::{Place, Site, Vm};
use esx_steps::{has_overhead, pages_at};
use esx_types::VmId;
use std::alloc::{AllocError, Global};

/// The whole of a machine's memory, as averages count it.
const WHOLE: u64 = 65536;

/// What a frame holds, as a sum counts it.
#[derive(Clone, Copy)]
enum Held {
    Nothing,
    Overhead,
    Private,
    Shared,
}

fn small(number: u64) -> u32 {
    u32::try_from(number).unwrap_or(u32::MAX)
}

pub fn vm_at(plain: &Plain, vm: VmId) -> Option<&Vm> {
    plain
        .site()
        .vms
        .as_slice()
        .get(usize::from(vm.number()))?
        .as_ref()
}

/// Whether the one page of a frame that is found first is shared.
fn page_in(vm: &Vm, frame: u32) -> Option<bool> {
    for place in vm.places.as_slice() {
        match place {
            Place::Here {
                frame: own,
                shared,
                ..
            } if *own == frame => return Some(*shared),
            _ => {}
        }
    }
    None
}

fn held_by(vm: &Vm, frame: u32) -> Held {
    if has_overhead(vm, frame) {
        return Held::Overhead;
    }
    match page_in(vm, frame) {
        None => Held::Nothing,
        Some(true) => Held::Shared,
        Some(false) => Held::Private,
    }
}

fn held_in(site: &Site, frame: u32) -> Held {
    for vm in site.vms.as_slice() {
        if let Some(vm) = vm {
            let held = held_by(vm, frame);
            if !matches!(held, Held::Nothing) {
                return held;
            }
        }
    }
    Held::Nothing
}

pub fn sum(plain: &Plain) -> Sum {
    let mut counts = [0_u32; 4];
    for frame in 0..plain.config().frames {
        let at = match held_in(plain.site(), frame) {
            Held::Nothing => 0,
            Held::Overhead => 1,
            Held::Private => 2,
            Held::Shared => 3,
        };
        counts[at] = counts[at].saturating_add(1);
    }
    Sum {
        overhead: counts[1],
        private: counts[2],
        shared: counts[3],
        free: counts[0],
        level: plain.level(),
    }
}

/// How many places of a machine are so.
fn count_places(vm: &Vm, kind: Kind) -> u32 {
    let mut count = 0_u32;
    for place in vm.places.as_slice() {
        let counts = match (place, kind) {
            (Place::Here { .. }, Kind::Here) | (Place::Out { .. }, Kind::Out) => true,
            (Place::Lent { epoch }, Kind::Lent) => *epoch == vm.epoch,
            _ => false,
        };
        if counts {
            count = count.saturating_add(1);
        }
    }
    count
}

#[derive(Clone, Copy)]
enum Kind {
    Here,
    Out,
    Lent,
}

/// How many pages of a machine are in frames.
pub fn here(vm: &Vm) -> u32 {
    count_places(vm, Kind::Here)
}

/// How many pages of a machine are lent now.
pub fn lent(vm: &Vm) -> u32 {
    count_places(vm, Kind::Lent)
}

fn share(touched: u64, pages: u64) -> u64 {
    touched
        .saturating_mul(WHOLE)
        .checked_div(pages)
        .unwrap_or(0)
}

fn share_of(estimate: &Estimate) -> u64 {
    share(u64::from(estimate.touched), u64::from(estimate.pages))
}

fn slow(vm: &Vm) -> u64 {
    let mut slow = WHOLE;
    for estimate in vm.closed.as_slice() {
        slow = slow.saturating_mul(7).saturating_add(share_of(estimate)) / 8;
    }
    slow
}

fn fast(vm: &Vm) -> u64 {
    let mut fast = WHOLE;
    for estimate in vm.closed.as_slice() {
        fast = fast.saturating_add(share_of(estimate)) / 2;
    }
    fast
}

/// How many of the sampled pages were accessed, equal ones as often as they were drawn.
fn touched(period: &Period) -> u64 {
    let mut count = 0_u64;
    for page in period.pages.as_slice() {
        if period.accessed.as_slice().iter().any(|own| *own == *page) {
            count = count.saturating_add(1);
        }
    }
    count
}

/// The share of a machine's memory that is in use, in units of 1/65,536.
pub fn active(vm: &Vm) -> u64 {
    let fast = fast(vm);
    let open = match &vm.period {
        None => fast,
        Some(period) => {
            let now = share(touched(period), period.pages.len() as u64);
            fast.saturating_add(now) / 2
        }
    };
    slow(vm).max(fast).max(open)
}

pub fn activity(plain: &Plain, vm: VmId) -> Result<Activity, Refusal> {
    let Some(vm) = vm_at(plain, vm) else {
        return Err(Refusal::NoVm);
    };
    let (done, length, touched, pages) = match &vm.period {
        None => (0, 0, 0, 0),
        Some(period) => (
            period.accessed.len() as u64,
            u64::from(period.length),
            touched(period),
            period.pages.len() as u64,
        ),
    };
    Ok(Activity {
        slow: small(slow(vm)),
        fast: small(fast(vm)),
        active: small(active(vm)),
        done: small(done),
        length: small(length),
        touched: small(touched),
        pages: small(pages),
    })
}

fn table_row(number: VmId, vm: &Vm) -> TableRow {
    TableRow {
        vm: number,
        state: vm.state,
        min: vm.spec.min,
        max: vm.spec.max,
        target: vm.target,
        here: count_places(vm, Kind::Here),
        lent: count_places(vm, Kind::Lent),
        out: count_places(vm, Kind::Out),
        shares: vm.spec.shares,
        active: small(active(vm)),
    }
}

pub fn table(plain: &Plain, alloc: Global) -> Result<Vec<TableRow>, AllocError> {
    let mut rows = Vec::new(alloc);
    for number in 0..=u8::MAX {
        let number = VmId::new(number);
        if let Some(vm) = vm_at(plain, number) {
            rows.push(table_row(number, vm))?;
        }
    }
    Ok(rows)
}

fn is_hinted(site: &Site, vm: VmId, page: u32) -> bool {
    site.hints
        .as_slice()
        .iter()
        .any(|hint| hint.vm == vm && hint.page == page)
}

fn state_in(site: &Site, vm: VmId, page: u32, frame: u32, shared: bool) -> PageState {
    if shared {
        let count = small(pages_at(site, frame) as u64);
        PageState::Shared { frame, count }
    } else if is_hinted(site, vm, page) {
        PageState::Hinted { frame }
    } else {
        PageState::Private { frame }
    }
}

pub fn page_state(plain: &Plain, number: VmId, page: u32) -> Result<PageState, Refusal> {
    let Some(vm) = vm_at(plain, number) else {
        return Err(Refusal::NoVm);
    };
    let Some(place) = vm.places.as_slice().get(page as usize) else {
        return Err(Refusal::OutOfRange);
    };
    Ok(match place {
        Place::Here { frame, shared, .. } => {
            state_in(plain.site(), number, page, *frame, *shared)
        }
        Place::Out { slot, .. } => PageState::Out { slot: *slot },
        Place::Lent { epoch } if *epoch == vm.epoch => PageState::Lent,
        Place::Untouched | Place::Lent { .. } => PageState::Untouched,
    })
}
