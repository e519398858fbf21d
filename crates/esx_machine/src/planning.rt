//! The plan of each event, and what is kept while it is made: the key of a page that a scan or a swap-out looks for, and what
//! the marks of a sample period tell of the pages that are accessed.

ghost use Rattle.std.specs.Prelude.{◌≡◌, ◌<◌};
ghost use Rattle.esx_types.specs.declared.config.TheConstants.{VM_NUMBERS};
ghost use Rattle.esx_model.specs.sound.Sound.{NamesVm};
ghost use Rattle.esx_changes.specs.Planned.{Plans};
ghost use Rattle.esx_sharing.specs.Sharing.{HasCounts, scan_plan};
ghost use Rattle.esx_sharing.specs.Paging.{swap_out_plan};
ghost use Rattle.esx_plans.specs.plan.Balloon.{CanEpochsRise};
ghost use Rattle.esx_plans.specs.plan.Event.{ArePlannable, plan_of};

use esx_events::{Event, Refusal};
use esx_plans::Plan;
use esx_plans::plan::event::plan_event;
use esx_sharing::paging::{leave_frame, leave_unlike, leaving_page, plan_swap_out};
use esx_sharing::sharing::{scan_frame, scanned_frame};
use esx_tables::SiteTables;
use esx_types::{Config, Level, VmId};
use std::alloc::Global;

/// From so many bytes on the key of a page goes along to a slot.
const KEY_GOES_ALONG_FROM: u32 = 256;

/// The plan of a scan. The key of its page is kept: it is going to be looked for.
fn scan_with_key(
    tables: &mut SiteTables,
    alloc: Global,
    vm: VmId,
    page: u32,
) -> Result<Plan, Refusal>
    requires { HasCounts tables.old }
    ensures plans { Plans result (scan_plan tables.old vm page) }
    ensures named { vm < VM_NUMBERS }
    ensures same { tables.new ≡ tables.old }
{
    let _number = vm.number();
    let frame = match scanned_frame(tables, vm, page) {
        Ok(frame) => frame,
        Err(refusal) => return Err(refusal),
    };
    tables.learn_key(frame);
    scan_frame(tables, alloc, vm, page, frame)
}

/// Keeps the key of a page that is going to be looked for before it goes to the least slot, and makes room for it there,
/// so that it goes along.
fn keep_leaving_key(tables: &mut SiteTables, frame: u32)
    ensures { tables.new ≡ tables.old }
{
    tables.learn_key(frame);
    if let Some(slot) = tables.least_slot() {
        tables.make_key_room(slot);
    }
}

/// The plan of a swap-out, where pages have `length` bytes. Its page is drawn once. That of a long one is hashed only where
/// a frame that stands under a key may have the same bytes, and its key is kept then.
fn swap_out_with_key(
    tables: &mut SiteTables,
    alloc: Global,
    level: Level,
    length: u32,
    vm: VmId,
    word: u64,
) -> Result<Plan, Refusal>
    requires { HasCounts tables.old }
    ensures plans { Plans result (swap_out_plan tables.old level vm word) }
    ensures named { vm < VM_NUMBERS }
    ensures same { tables.new ≡ tables.old }
{
    let _number = vm.number();
    let Some((page, frame)) = leaving_page(tables, level, vm, word) else {
        return plan_swap_out(tables, alloc, level, vm, word);
    };
    if KEY_GOES_ALONG_FROM <= length && !tables.lists_none() {
        if !tables.may_be_listed(alloc, frame) {
            return leave_unlike(tables, alloc, vm, page, frame);
        }
        keep_leaving_key(tables, frame);
    }
    leave_frame(tables, alloc, vm, page, frame)
}

/// The first refusal that applies, or the answer of an event and the changes that make it. What is kept meanwhile is seen
/// in no table; no other event needs a key that may be kept or looks at a period page by page.
#[inline(always)]
pub fn plan(
    tables: &mut SiteTables,
    alloc: Global,
    config: &Config,
    level: Level,
    event: &Event,
) -> Result<Plan, Refusal>
    requires whole { ArePlannable config.now tables.old }
    requires rise { CanEpochsRise tables.old }
    ensures plans { Plans result (plan_of config.now tables.old level event.now) }
    ensures named { NamesVm event.now }
    ensures same { tables.new ≡ tables.old }
{
    match event {
        Event::Read { vm, .. } | Event::Write { vm, .. } => {
            tables.tell_period(*vm);
            plan_event(tables, alloc, config, level, event)
        }
        Event::Scan { vm, page } => scan_with_key(tables, alloc, *vm, *page),
        Event::SwapOut { vm, word } => {
            swap_out_with_key(tables, alloc, level, config.page, *vm, *word)
        }
        _ => plan_event(tables, alloc, config, level, event),
    }
}
