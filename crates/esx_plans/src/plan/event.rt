//! The plan of each event.

ghost use Rattle.std.specs.Prelude.{◌<◌};
ghost use Rattle.esx_types.specs.declared.config.TheConstants.{VM_NUMBERS};
ghost use Rattle.esx_model.specs.sound.Sound.{NamesVm};
ghost use Rattle.esx_changes.specs.Planned.{Plans};
ghost use Rattle.esx_plans.specs.plan.Balloon.{CanEpochsRise};
ghost use Rattle.esx_plans.specs.plan.Event.{ArePlannable, plan_of};

use crate::plan::admission::plan_admit;
use crate::plan::balloon::{plan_ask, plan_lend, plan_take_back};
use crate::plan::leaving::{plan_drop_page, plan_gone, plan_stop};
use crate::plan::rebalancing::{plan_rebalance, plan_shares, plan_tax, plan_vm_tax};
use crate::plan::sampling::plan_sample;
use crate::plan::starting::plan_start;
use esx_access::access::{plan_read, plan_write};
use esx_access::replacing::plan_replace;
use esx_changes::Plan;
use esx_events::{Event, Refusal};
use esx_sharing::paging::plan_swap_out;
use esx_sharing::sharing::plan_scan;
use esx_tables::SiteTables;
use esx_types::{Config, Level, VmId};
use std::alloc::Global;

/// The number of a machine is one that there is.
fn is_named(vm: VmId)
    ensures { vm < VM_NUMBERS }
{
    let _number = vm.number();
}

/// An event names a machine by a number that there is.
fn names_vm(event: &Event)
    ensures { NamesVm event.now }
{
    match event {
        Event::Admit { vm, .. } => is_named(*vm),
        Event::Start { vm } => is_named(*vm),
        Event::Read { vm, .. } => is_named(*vm),
        Event::Write { vm, .. } => is_named(*vm),
        Event::Ask { vm } => is_named(*vm),
        Event::Lend { vm, .. } => is_named(*vm),
        Event::TakeBack { vm, .. } => is_named(*vm),
        Event::Sample { vm, .. } => is_named(*vm),
        Event::Rebalance => {}
        Event::Scan { vm, .. } => is_named(*vm),
        Event::SwapOut { vm, .. } => is_named(*vm),
        Event::Replace { vm, .. } => is_named(*vm),
        Event::SetShares { vm, .. } => is_named(*vm),
        Event::SetTax { .. } => {}
        Event::SetVmTax { vm, .. } => is_named(*vm),
        Event::Stop { vm } => is_named(*vm),
        Event::DropPage { vm, .. } => is_named(*vm),
        Event::Gone { vm } => is_named(*vm),
    }
}

/// The first refusal that applies, or the answer of an event and the changes that make it.
pub fn plan_event(
    tables: &SiteTables,
    alloc: Global,
    config: &Config,
    level: Level,
    event: &Event,
) -> Result<Plan, Refusal>
    requires whole { ArePlannable config.now tables.now }
    requires rise { CanEpochsRise tables.now }
    ensures plans { Plans result (plan_of config.now tables.now level event.now) }
    ensures named { NamesVm event.now }
{
    names_vm(event);
    match event {
        Event::Admit { vm, spec } => plan_admit(tables, alloc, config, *vm, *spec),
        Event::Start { vm } => plan_start(tables, alloc, *vm),
        Event::Read { vm, page, at, len } => {
            plan_read(tables, alloc, config, level, *vm, *page, *at, *len)
        }
        Event::Write {
            vm,
            page,
            at,
            bytes,
        } => {
            let new = bytes.as_slice();
            plan_write(tables, alloc, config, level, *vm, *page, *at, new)
        }
        Event::Ask { vm } => plan_ask(tables, alloc, *vm),
        Event::Lend { vm, page } => plan_lend(tables, alloc, *vm, *page),
        Event::TakeBack { vm, page } => plan_take_back(tables, alloc, *vm, *page),
        Event::Sample { vm, length, words } => {
            plan_sample(tables, alloc, *vm, *length, words.get().as_slice())
        }
        Event::Rebalance => plan_rebalance(tables, alloc, config, level),
        Event::Scan { vm, page } => plan_scan(tables, alloc, *vm, *page),
        Event::SwapOut { vm, word } => plan_swap_out(tables, alloc, level, *vm, *word),
        Event::Replace { vm, page, word } => {
            plan_replace(tables, alloc, config, *vm, *page, *word)
        }
        Event::SetShares { vm, shares } => plan_shares(tables, alloc, *vm, *shares),
        Event::SetTax { tau } => plan_tax(alloc, *tau),
        Event::SetVmTax { vm, tau } => plan_vm_tax(tables, alloc, *vm, *tau),
        Event::Stop { vm } => plan_stop(tables, alloc, *vm),
        Event::DropPage { vm, page } => plan_drop_page(tables, alloc, *vm, *page),
        Event::Gone { vm } => plan_gone(tables, alloc, *vm),
    }
}
