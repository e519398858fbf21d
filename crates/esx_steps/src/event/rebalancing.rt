//! Targets, and what they are made from.

ghost use Rattle.std.specs.Prelude.{◌≡◌, ◌<◌, nat_lt, ◌≤◌, ◌+◌, ◌-◌, ◌^◌, min, length, map, option_map, sum_by, Some, None, Ok, IfOk};
ghost use Rattle.esx_types.specs.Ranges.{IsConfig};
ghost use Rattle.esx_types.specs.declared.config.TheConstants.{MAX_TAU, VM_NUMBERS};
ghost use Rattle.esx_formulas.specs.declared.activity.TheConstants.{WHOLE};
ghost use Rattle.esx_formulas.specs.Targets.{spare};
ghost use Rattle.esx_events.specs.declared.event.Answer.TheVariants as answers;
ghost use Rattle.esx_model.specs.declared.scene.Vm.{Vm};
ghost use Rattle.esx_model.specs.Hints.{with_change};
ghost use Rattle.esx_model.specs.sound.Sound.{IsSound};
ghost use Rattle.esx_model.specs.event.Rebalancing.{active, row_of_vm, rows_of, min_of, at_max, with_targets, need, share_out, rebalance, set_shares, set_tax, set_vm_tax};
ghost use Rattle.esx_steps.specs.Gives.{Gives};
ghost use Rattle.esx_steps.specs.Numbers.{HasNumbers};

use crate::event::sampling::so_far;
use crate::site::{free_count, vm_of};
use crate::vm::resident;
use esx_events::{Answer, Refusal};
use esx_formulas::Row;
use esx_formulas::activity::{active_share, fast_average, slow_average};
use esx_formulas::level::{margin, threshold};
use esx_formulas::ratio::tax_of;
use esx_formulas::targets::targets;
use esx_model::{Site, Vm};
use esx_types::{Config, Level, MAX_SHARES, MAX_TAU, Rows, VM_NUMBERS, VmId};
use std::alloc::{AllocError, Global};

fn with_shares(site: Site, number: usize, shares: u32) -> Site
    requires { number < length site.vms }
    ensures { result ≡ with_change site number (λ v. record v { spec = record v.spec { shares = shares } }) }
{
    let mut site = site;
    if let Some(vm) = site.vms.row_mut(number) {
        vm.spec.shares = shares;
    }
    site
}

/// The shares of a machine are set.
#[tactic(auto, unfolding(esx_model::specs::event::Rebalancing::set_shares))]
pub fn set_shares(
    config: &Config,
    site: Site,
    vm: VmId,
    shares: u32,
) -> Result<(Answer, Site), Refusal>
    requires { IsSound config.now site }
    ensures { Gives result (set_shares site vm shares) }
{
    let number = usize::from(vm.number());
    if vm_of(config, &site, number).is_none() {
        return Err(Refusal::NoVm);
    }
    if shares < 1 || MAX_SHARES < shares {
        return Err(Refusal::BadSpec);
    }
    Ok((Answer::Done, with_shares(site, number, shares)))
}

/// Is it more than a tax may be?
fn is_too_much(tau: u32) -> bool
    ensures { result ≡ nat_lt MAX_TAU tau }
{
    MAX_TAU < tau
}

/// The site's tax is set.
#[tactic(auto, unfolding(esx_model::specs::event::Rebalancing::set_tax))]
pub fn set_tax(site: Site, tau: u32) -> Result<(Answer, Site), Refusal>
    ensures { Gives result (set_tax site tau) }
{
    if is_too_much(tau) {
        return Err(Refusal::BadSpec);
    }
    let mut site = site;
    site.tau = tau;
    Ok((Answer::Done, site))
}

fn with_tax(site: Site, number: usize, tau: u32) -> Site
    requires { number < length site.vms }
    ensures { result ≡ with_change site number (λ v. record v { spec = record v.spec { tau = Some tau } }) }
{
    let mut site = site;
    if let Some(vm) = site.vms.row_mut(number) {
        vm.spec.tau = Some(tau);
    }
    site
}

/// A machine has a tax of its own from now on.
#[tactic(auto, unfolding(esx_model::specs::event::Rebalancing::set_vm_tax))]
pub fn set_vm_tax(
    config: &Config,
    site: Site,
    vm: VmId,
    tau: u32,
) -> Result<(Answer, Site), Refusal>
    requires { IsSound config.now site }
    ensures { Gives result (set_vm_tax site vm tau) }
{
    let number = usize::from(vm.number());
    if vm_of(config, &site, number).is_none() {
        return Err(Refusal::NoVm);
    }
    if is_too_much(tau) {
        return Err(Refusal::BadSpec);
    }
    Ok((Answer::Done, with_tax(site, number, tau)))
}

/// The active share of a machine's memory at present.
fn active(vm: &Vm) -> u32
    requires { HasNumbers vm.now }
    ensures value { result ≡ active vm.now }
    ensures most { result ≤ WHOLE }
{
    let now = match &vm.period {
        None => None,
        Some(period) => Some(so_far(period)),
    };
    let closed = vm.closed.as_slice();
    active_share(slow_average(closed), fast_average(closed), now)
}

/// What a machine has at the site's tax, of which it keeps its least in any case.
fn row_of_vm(tau: u32, number: VmId, vm: &Vm) -> Row
    requires { HasNumbers vm.now }
    ensures { result ≡ row_of_vm tau number vm.now.spec.min vm.now }
{
    Row {
        vm: number,
        shares: vm.spec.shares,
        pages: resident(vm) as u32,
        floor: vm.spec.min,
        active: active(vm),
        tau: tax_of(tau, vm.spec.tau),
    }
}

/// A row for each machine, in order.
#[tactic(auto, unfolding(esx_model::specs::event::Rebalancing::rows_of), using(crate::proofs::Rows::rows_none, crate::proofs::Rows::rows_some))]
fn rows(alloc: Global, config: &Config, site: &Site) -> Result<Vec<Row>, AllocError>
    requires { IsSound config.now site.now }
    ensures { IfOk result (λ rows. rows.items ≡ rows_of min_of site.now) }
{
    let mut rows = Vec::new(alloc);
    for number in 0..VM_NUMBERS {
        if let Some(vm) = vm_of(config, site, number) {
            rows.push(row_of_vm(site.tau, VmId::new(number as u8), vm))?;
        }
    }
    Ok(rows)
}

/// How many frames are wanted until nothing has to be reclaimed.
fn need(config: &Config, site: &Site) -> u32
    requires { IsConfig config.now }
    ensures { result ≡ need config.now site.now }
{
    let most = threshold(config.frames, config.high, 4) + margin(config);
    most.saturating_sub(free_count(site, config.frames) as u32)
}

/// How many pages may be revoked.
fn spare(rows: &[Row]) -> u64
    ensures { result ≡ min (sum_by spare rows.now) (2 ^ 64 - 1) }
{
    let mut total = 0u64;
    for row in rows {
        total = total.saturating_add(u64::from(row.pages.saturating_sub(row.floor)));
    }
    total
}

/// The machines with new targets, in order.
fn with_targets(
    alloc: Global,
    vms: Vec<Option<Vm>>,
    targets: &[u32],
) -> Result<Vec<Option<Vm>>, AllocError>
    ensures { IfOk result (λ done. done.items ≡ with_targets vms.items targets.now) }
{
    let mut done = Vec::new(alloc);
    let mut used = 0;
    let mut rest = vms;
    while !rest.is_empty() {
        let mut vm = rest.remove(0);
        if let Some(row) = &mut vm
            && used < targets.len()
        {
            row.target = targets[used];
            used += 1;
        }
        done.push(vm)?;
    }
    Ok(done)
}

/// The machines with all they asked for.
fn at_max(alloc: Global, vms: Vec<Option<Vm>>) -> Result<Vec<Option<Vm>>, AllocError>
    ensures { IfOk result (λ done. done.items ≡ map (option_map at_max) vms.items) }
{
    let mut done = Vec::new(alloc);
    let mut rest = vms;
    while !rest.is_empty() {
        let mut vm = rest.remove(0);
        if let Some(row) = &mut vm {
            row.target = row.spec.max;
        }
        done.push(vm)?;
    }
    Ok(done)
}

#[tactic(auto, using(crate::proofs::Rows::rows_fit))]
fn share_out(alloc: Global, config: &Config, site: Site) -> Result<(Answer, Site), Refusal>
    requires config { IsConfig config.now }
    requires sound { IsSound config.now site }
    ensures { Gives result (share_out config.now site) }
{
    let need = need(config, &site);
    let rows = rows(alloc, config, &site)?;
    let revoked = spare(rows.as_slice()).min(u64::from(need)) as u32;
    let targets = targets(alloc, rows.as_slice(), need)?;
    let Site { vms, hints, tau } = site;
    let vms = with_targets(alloc, vms.into_vec(), targets.as_slice())?;
    let site = Site {
        vms: Rows::from_vec(vms),
        hints,
        tau,
    };
    Ok((Answer::Rebalanced { need, revoked }, site))
}

fn all_at_max(alloc: Global, site: Site) -> Result<(Answer, Site), Refusal>
    ensures { Gives result (Ok (answers.Rebalanced 0 0, record site { vms = map (option_map at_max) site.vms })) }
{
    let Site { vms, hints, tau } = site;
    let vms = at_max(alloc, vms.into_vec())?;
    let site = Site {
        vms: Rows::from_vec(vms),
        hints,
        tau,
    };
    let (need, revoked) = (0, 0);
    Ok((Answer::Rebalanced { need, revoked }, site))
}

/// Sets every target anew.
#[tactic(auto, unfolding(esx_model::specs::event::Rebalancing::rebalance))]
pub fn rebalance(
    alloc: Global,
    config: &Config,
    site: Site,
    level: Level,
) -> Result<(Answer, Site), Refusal>
    requires config { IsConfig config.now }
    requires sound { IsSound config.now site }
    ensures { Gives result (rebalance config.now site level) }
{
    match level {
        Level::High => all_at_max(alloc, site),
        Level::Soft | Level::Hard | Level::Low => share_out(alloc, config, site),
    }
}
