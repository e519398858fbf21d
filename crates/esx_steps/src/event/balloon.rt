//! A guest lends pages to the machine through its balloon driver.

ghost use Rattle.std.specs.Prelude.{◌≡◌, ◌<◌, ◌+◌, length, Some, None, Ok, false};
ghost use Rattle.esx_events.specs.declared.event.Answer.TheVariants as answers;
ghost use Rattle.esx_model.specs.declared.scene.Vm.{Vm};
ghost use Rattle.esx_model.specs.Site.{vm_at, with_vm};
ghost use Rattle.esx_model.specs.Hints.{with_change};
ghost use Rattle.esx_model.specs.sound.Sound.{IsSound};
ghost use Rattle.esx_model.specs.event.Outcome.{goal, standing};
ghost use Rattle.esx_model.specs.event.Balloon.{is_lent, popped, ask, lend, take_back};
ghost use Rattle.esx_steps.specs.Gives.{Gives};

use crate::site::{put, vm_of};
use crate::vm::{is_lent_in, lent, place_at};
use esx_events::{Answer, Refusal};
use esx_model::{Place, Site, Vm};
use esx_types::{Config, VmId, VmState};
use std::alloc::Global;

/// The page is lent now.
pub fn is_lent(vm: &Vm, page: u32) -> bool
    ensures { result ≡ is_lent vm.now page }
{
    match place_at(vm, page) {
        Some(place) => is_lent_in(place, vm.epoch),
        None => false,
    }
}

/// How many pages the balloon is to lend.
fn goal(vm: &Vm) -> u32
    ensures { result ≡ goal (standing vm.now) }
{
    vm.spec
        .balloon_max
        .min(vm.spec.max.saturating_sub(vm.target))
}

fn pop(vm: &mut Vm, page: u32)
    ensures { vm.new ≡ popped page vm.old }
{
    let lent = is_lent(vm, page);
    vm.due = vm.due || lent;
}

/// A page that comes pops the balloon where it is lent now.
pub fn popped(site: Site, number: usize, page: u32) -> Site
    requires { number < length site.vms }
    ensures value { result ≡ with_change site number (popped page) }
    ensures len { length result.vms ≡ length site.vms }
{
    let mut site = site;
    if let Some(vm) = site.vms.row_mut(number) {
        pop(vm, page);
    }
    site
}

/// The reset that is due; past the last epoch that there is room for, memory has run out.
fn reset(site: Site, number: usize) -> Result<(Answer, Site), Refusal>
    requires { number < length site.vms }
    ensures { (v : Vm) → vm_at site number ≡ Some v
        → Gives result (Ok (answers.Reset (v.epoch + 1), with_vm site number (record v { epoch = v.epoch + 1; due = false }))) }
{
    let mut site = site;
    let Some(vm) = site.vms.row_mut(number) else {
        return Err(Refusal::OutOfMemory);
    };
    let Some(epoch) = vm.epoch.checked_add(1) else {
        return Err(Refusal::OutOfMemory);
    };
    vm.epoch = epoch;
    vm.due = false;
    Ok((Answer::Reset { epoch }, site))
}

/// How many pages the balloon is to lend, and how many it lends.
#[tactic(auto, unfolding(esx_model::specs::event::Balloon::ask))]
pub fn ask(config: &Config, site: Site, vm: VmId) -> Result<(Answer, Site), Refusal>
    requires { IsSound config.now site }
    ensures { Gives result (ask site vm) }
{
    let number = usize::from(vm.number());
    let Some(row) = vm_of(config, &site, number) else {
        return Err(Refusal::NoVm);
    };
    if row.state != VmState::Running {
        return Err(Refusal::NotRunning);
    }
    if row.due {
        return reset(site, number);
    }
    let answer = Answer::Goal {
        goal: goal(row),
        lent: lent(row) as u32,
        epoch: row.epoch,
    };
    Ok((answer, site))
}

/// A page is given up to the balloon.
#[tactic(auto, unfolding(esx_model::specs::event::Balloon::lend))]
pub fn lend(
    alloc: Global,
    config: &Config,
    site: Site,
    vm: VmId,
    page: u32,
) -> Result<(Answer, Site), Refusal>
    requires { IsSound config.now site }
    ensures { Gives result (lend site vm page) }
{
    let number = usize::from(vm.number());
    let Some(row) = vm_of(config, &site, number) else {
        return Err(Refusal::NoVm);
    };
    if row.state != VmState::Running {
        return Err(Refusal::NotRunning);
    }
    if row.spec.max <= page {
        return Err(Refusal::OutOfRange);
    }
    if row.due {
        return reset(site, number);
    }
    if is_lent(row, page) {
        return Err(Refusal::LentAlready);
    }
    let goal = goal(row);
    let lent = lent(row) as u32;
    if goal <= lent {
        return Err(Refusal::OverGoal);
    }
    let place = Place::Lent { epoch: row.epoch };
    let site = put(alloc, site, number, page, place)?;
    let lent = lent + 1;
    Ok((Answer::Lent { lent, goal }, site))
}

/// A page is taken back from the balloon.
#[tactic(auto, unfolding(esx_model::specs::event::Balloon::take_back))]
pub fn take_back(
    alloc: Global,
    config: &Config,
    site: Site,
    vm: VmId,
    page: u32,
) -> Result<(Answer, Site), Refusal>
    requires { IsSound config.now site }
    ensures { Gives result (take_back site vm page) }
{
    let number = usize::from(vm.number());
    let Some(row) = vm_of(config, &site, number) else {
        return Err(Refusal::NoVm);
    };
    if row.state != VmState::Running {
        return Err(Refusal::NotRunning);
    }
    if row.spec.max <= page {
        return Err(Refusal::OutOfRange);
    }
    if row.due {
        return reset(site, number);
    }
    if !is_lent(row, page) {
        return Err(Refusal::NotLent);
    }
    let lent = (lent(row) as u32).saturating_sub(1);
    let site = put(alloc, site, number, page, Place::Untouched)?;
    Ok((Answer::TakenBack { lent }, site))
}
