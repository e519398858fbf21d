//! A machine stops, and gives back what it has.

ghost use Rattle.std.specs.Prelude.{◌≡◌, ◌<◌, ◌-◌, ◌||◌, length, IfOk, OnOk, take, Ok, Some, None, unwrap_or};
ghost use Rattle.std.specs.Option.{option_copied};
ghost use Rattle.esx_model.specs.declared.scene.Place.TheVariants.{Untouched};
ghost use Rattle.esx_types.specs.declared.vm.VmState.TheVariants.{Stopping};
ghost use Rattle.esx_model.specs.declared.scene.Vm.{Vm};
ghost use Rattle.esx_model.specs.Places.{is_here, is_out};
ghost use Rattle.esx_model.specs.Hints.{with_change};
ghost use Rattle.esx_model.specs.sound.Sound.{IsSound};
ghost use Rattle.esx_model.specs.event.Leaving.{stop, drop_page, gone, without_last};
ghost use Rattle.esx_steps.specs.Gives.{Gives};

use crate::site::{put, vm_of};
use crate::vm::{is_here, is_out, paged_out, place_at, resident};
use esx_events::{Answer, Refusal};
use esx_model::{Place, Site, Vm};
use esx_types::{Config, Rows, VmId, VmState};
use std::alloc::{AllocError, Global};

fn stop_vm(vm: &mut Vm)
    ensures { vm.new ≡ record vm.old { state = Stopping; period = None } }
{
    vm.state = VmState::Stopping;
    vm.period = None;
}

fn stopped(site: Site, number: usize) -> Site
    requires { number < length site.vms }
    ensures { result ≡ with_change site number (λ v. record v { state = Stopping; period = None }) }
{
    let mut site = site;
    if let Some(vm) = site.vms.row_mut(number) {
        stop_vm(vm);
    }
    site
}

/// A machine is to give back what it has; an open period is dropped.
#[tactic(auto, unfolding(esx_model::specs::event::Leaving::stop))]
pub fn stop(config: &Config, site: Site, vm: VmId) -> Result<(Answer, Site), Refusal>
    requires { IsSound config.now site }
    ensures { Gives result (stop site vm) }
{
    let number = usize::from(vm.number());
    let Some(row) = vm_of(config, &site, number) else {
        return Err(Refusal::NoVm);
    };
    if row.state == VmState::Stopping {
        return Err(Refusal::NotRunning);
    }
    Ok((Answer::Done, stopped(site, number)))
}

/// The page is in a frame or in a slot.
fn is_kept(place: Option<&Place>) -> bool
    ensures { result ≡ (is_here (unwrap_or (option_copied place.entry) Untouched) || is_out (unwrap_or (option_copied place.entry) Untouched)) }
{
    match place {
        Some(Place::Here { .. } | Place::Out { .. }) => true,
        _ => false,
    }
}

/// Frees a page of a machine that stops.
#[tactic(auto, unfolding(esx_model::specs::event::Leaving::drop_page))]
pub fn drop_page(
    alloc: Global,
    config: &Config,
    site: Site,
    vm: VmId,
    page: u32,
) -> Result<(Answer, Site), Refusal>
    requires { IsSound config.now site }
    ensures { Gives result (drop_page site vm page) }
{
    let number = usize::from(vm.number());
    let Some(row) = vm_of(config, &site, number) else {
        return Err(Refusal::NoVm);
    };
    if row.state != VmState::Stopping {
        return Err(Refusal::NotNeeded);
    }
    if row.spec.max <= page {
        return Err(Refusal::OutOfRange);
    }
    if !is_kept(place_at(row, page)) {
        return Err(Refusal::NotNeeded);
    }
    let site = put(alloc, site, number, page, Place::Untouched)?;
    Ok((Answer::Done, site))
}

fn drop_last(overhead: &mut Rows<u32>, alloc: Global) -> Result<(), AllocError>
    ensures { OnOk result (overhead.new ≡ take (length overhead.old - 1) overhead.old) }
{
    let held = overhead.as_slice();
    let kept = Vec::from_slice(alloc, &held[..held.len().saturating_sub(1)])?;
    *overhead = Rows::from_vec(kept);
    Ok(())
}

/// The machine gives back the overhead frame that it took last.
fn without_last(alloc: Global, site: Site, number: usize) -> Result<Site, AllocError>
    requires { number < length site.vms }
    ensures { IfOk result (λ t. t ≡ with_change site number without_last) }
{
    let mut site = site;
    if let Some(vm) = site.vms.row_mut(number) {
        drop_last(&mut vm.overhead, alloc)?;
    }
    Ok(site)
}

/// Gives back an overhead frame; with the last one the machine goes.
#[tactic(auto, unfolding(esx_model::specs::event::Leaving::gone))]
pub fn gone(alloc: Global, config: &Config, site: Site, vm: VmId) -> Result<(Answer, Site), Refusal>
    requires { IsSound config.now site }
    ensures { Gives result (gone site vm) }
{
    let number = usize::from(vm.number());
    let Some(row) = vm_of(config, &site, number) else {
        return Err(Refusal::NoVm);
    };
    if row.state != VmState::Stopping {
        return Err(Refusal::NotNeeded);
    }
    if 0 < resident(row) + paged_out(row) {
        return Err(Refusal::PagesLeft);
    }
    let held = row.overhead.len();
    if 1 < held {
        let site = without_last(alloc, site, number)?;
        let held = held as u32 - 1;
        return Ok((Answer::GivenBack { held }, site));
    }
    let mut site = site;
    site.vms.set(number, None);
    Ok((Answer::Gone, site))
}
