//! One event, on a site as data.

ghost use Rattle.esx_types.specs.Ranges.{IsConfig};
ghost use Rattle.esx_model.specs.Step.{step};
ghost use Rattle.esx_model.specs.sound.Sound.{IsSound, NamesVm};
ghost use Rattle.esx_steps.specs.Gives.{Gives};

use crate::event::access::{read, write};
use crate::event::admission::admit;
use crate::event::balloon::{ask, lend, take_back};
use crate::event::leaving::{drop_page, gone, stop};
use crate::event::paging::{replace, swap_out};
use crate::event::rebalancing::{rebalance, set_shares, set_tax, set_vm_tax};
use crate::event::sampling::sample;
use crate::event::sharing::scan;
use crate::event::starting::start;
use esx_events::{Answer, Event, Refusal};
use esx_model::Site;
use esx_types::{Config, Level};
use std::alloc::Global;

/// The number of the machine that an event names, if it names one. Each arm stands alone, so that a proof sees the event.
fn number_in(event: &Event) -> Option<u8>
    ensures { NamesVm event.now }
{
    match event {
        Event::Rebalance | Event::SetTax { .. } => None,
        Event::Admit { vm, .. } => Some(vm.number()),
        Event::Start { vm } => Some(vm.number()),
        Event::Read { vm, .. } => Some(vm.number()),
        Event::Write { vm, .. } => Some(vm.number()),
        Event::Ask { vm } => Some(vm.number()),
        Event::Lend { vm, .. } => Some(vm.number()),
        Event::TakeBack { vm, .. } => Some(vm.number()),
        Event::Sample { vm, .. } => Some(vm.number()),
        Event::Scan { vm, .. } => Some(vm.number()),
        Event::SwapOut { vm, .. } => Some(vm.number()),
        Event::Replace { vm, .. } => Some(vm.number()),
        Event::SetShares { vm, .. } => Some(vm.number()),
        Event::SetVmTax { vm, .. } => Some(vm.number()),
        Event::Stop { vm } => Some(vm.number()),
        Event::DropPage { vm, .. } => Some(vm.number()),
        Event::Gone { vm } => Some(vm.number()),
    }
}

/// What an event does, and what it answers, or the first refusal that applies.
pub fn step(
    alloc: Global,
    config: &Config,
    site: Site,
    level: Level,
    event: &Event,
) -> Result<(Answer, Site), Refusal>
    requires config { IsConfig config.now }
    requires sound { IsSound config.now site }
    ensures gives { Gives result (step config.now site level event.now) }
    ensures named { NamesVm event.now }
{
    let _number = number_in(event);
    match event {
        Event::Admit { vm, spec } => admit(alloc, config, site, *vm, *spec),
        Event::Start { vm } => start(config, site, *vm),
        Event::Read { vm, page, at, len } => {
            read(alloc, config, site, level, *vm, *page, *at, *len)
        }
        Event::Write {
            vm,
            page,
            at,
            bytes,
        } => write(
            alloc,
            config,
            site,
            level,
            *vm,
            *page,
            *at,
            bytes.as_slice(),
        ),
        Event::Ask { vm } => ask(config, site, *vm),
        Event::Lend { vm, page } => lend(alloc, config, site, *vm, *page),
        Event::TakeBack { vm, page } => take_back(alloc, config, site, *vm, *page),
        Event::Sample { vm, length, words } => {
            sample(alloc, config, site, *vm, *length, words.get().as_slice())
        }
        Event::Rebalance => rebalance(alloc, config, site, level),
        Event::Scan { vm, page } => scan(alloc, config, site, *vm, *page),
        Event::SwapOut { vm, word } => swap_out(alloc, config, site, level, *vm, *word),
        Event::Replace { vm, page, word } => replace(alloc, config, site, *vm, *page, *word),
        Event::SetShares { vm, shares } => set_shares(config, site, *vm, *shares),
        Event::SetTax { tau } => set_tax(site, *tau),
        Event::SetVmTax { vm, tau } => set_vm_tax(config, site, *vm, *tau),
        Event::Stop { vm } => stop(config, site, *vm),
        Event::DropPage { vm, page } => drop_page(alloc, config, site, *vm, *page),
        Event::Gone { vm } => gone(alloc, config, site, *vm),
    }
}
