//! Sample periods: how much of its memory a machine uses.

ghost use Rattle.std.specs.Prelude.{◌≡◌, ◌<◌, ◌≤◌, ◌%◌, map, length, Some, Ok, OnOk, IfOk, is_some};
ghost use Rattle.esx_formulas.specs.declared.activity.Period.{Period};
ghost use Rattle.esx_formulas.specs.Estimates.{IsEstimate};
ghost use Rattle.esx_formulas.specs.Average.{so_far, is_touched};
ghost use Rattle.esx_model.specs.declared.scene.Vm.{Vm};
ghost use Rattle.esx_model.specs.Site.{vm_at};
ghost use Rattle.esx_model.specs.Hints.{with_change};
ghost use Rattle.esx_model.specs.sound.Sound.{IsSound};
ghost use Rattle.esx_model.specs.event.Sampling.{sample, opened_period, are_good_words, counted};
ghost use Rattle.esx_steps.specs.Gives.{Gives};

use crate::site::vm_of;
use esx_events::{Answer, Refusal};
use esx_formulas::{Estimate, Period};
use esx_model::{Site, Vm};
use esx_types::{Config, MAX_LENGTH, MAX_SAMPLE, Rows, VmId, VmState};
use std::alloc::{AllocError, Global};

/// 1 to `MAX_SAMPLE` pages, and 1 to `MAX_LENGTH` accesses.
fn are_good_words(count: usize, length: u32) -> bool
    ensures { result ≡ are_good_words count length }
{
    1 <= count && count <= MAX_SAMPLE && 1 <= length && length <= MAX_LENGTH
}

/// The page that each word draws.
fn drawn(alloc: Global, max: u32, words: &[u64]) -> Result<Rows<u32>, AllocError>
    requires { 1 ≤ max }
    ensures { IfOk result (λ pages. pages ≡ map (λ w. w % max) words.now) }
{
    let mut pages = Rows::new(alloc);
    for word in words {
        pages.push((*word % u64::from(max)) as u32)?;
    }
    Ok(pages)
}

fn opened(alloc: Global, max: u32, length: u32, words: &[u64]) -> Result<Period, AllocError>
    requires { 1 ≤ max }
    ensures { IfOk result (λ period. period ≡ opened_period max length words.now) }
{
    Ok(Period {
        length,
        pages: drawn(alloc, max, words)?,
        accessed: Rows::new(alloc),
    })
}

/// The machine with a period.
pub fn with_open(site: Site, number: usize, period: Period) -> Site
    requires { number < length site.vms }
    ensures { result ≡ with_change site number (λ v. record v { period = Some period }) }
{
    let mut site = site;
    if let Some(vm) = site.vms.row_mut(number) {
        vm.period = Some(period);
    }
    site
}

/// Opens a sample period of so many accesses; each word draws a page.
#[tactic(auto, unfolding(esx_model::specs::event::Sampling::sample))]
pub fn sample(
    alloc: Global,
    config: &Config,
    site: Site,
    vm: VmId,
    length: u32,
    words: &[u64],
) -> Result<(Answer, Site), Refusal>
    requires { IsSound config.now site }
    ensures { Gives result (sample site vm length words.now) }
{
    let number = usize::from(vm.number());
    let Some(row) = vm_of(config, &site, number) else {
        return Err(Refusal::NoVm);
    };
    if row.state != VmState::Running {
        return Err(Refusal::NotRunning);
    }
    if !are_good_words(words.len(), length) {
        return Err(Refusal::BadWords);
    }
    if row.period.is_some() {
        return Err(Refusal::SampleOpen);
    }
    let period = opened(alloc, row.spec.max, length, words)?;
    let pages = words.len() as u32;
    let site = with_open(site, number, period);
    Ok((Answer::Opened { length, pages }, site))
}

/// What an open period tells so far.
pub fn so_far(period: &Period) -> Estimate
    requires least { 1 ≤ length period.now.pages }
    requires most { length period.now.pages ≤ MAX_SAMPLE }
    ensures value { result ≡ so_far period.now }
    ensures fits { IsEstimate result }
{
    let touched = period
        .pages
        .as_slice()
        .iter()
        .filter(|page| period.is_touched(**page))
        .count();
    Estimate {
        touched: touched as u32,
        pages: period.pages.len() as u32,
    }
}

fn count_access(vm: &mut Vm, page: u32) -> Result<(), AllocError>
    requires least { (p : Period) → vm.old.period ≡ Some p → 1 ≤ length p.pages }
    requires most { (p : Period) → vm.old.period ≡ Some p → length p.pages ≤ MAX_SAMPLE }
    ensures { OnOk result (vm.new ≡ counted page vm.old) }
{
    let Some(mut period) = vm.period.take() else {
        return Ok(());
    };
    period.accessed.push(page)?;
    if period.accessed.len() < period.length as usize {
        vm.period = Some(period);
    } else {
        vm.closed.push(so_far(&period))?;
    }
    Ok(())
}

/// An open period counts one more access; the one that makes its length closes it.
pub fn counted(site: Site, number: usize, page: u32) -> Result<Site, AllocError>
    requires number { number < length site.vms }
    requires least { (v : Vm) (p : Period) → vm_at site number ≡ Some v → v.period ≡ Some p → 1 ≤ length p.pages }
    requires most { (v : Vm) (p : Period) → vm_at site number ≡ Some v → v.period ≡ Some p → length p.pages ≤ MAX_SAMPLE }
    ensures { IfOk result (λ t. t ≡ with_change site number (counted page)) }
{
    let mut site = site;
    if let Some(vm) = site.vms.row_mut(number) {
        count_access(vm, page)?;
    }
    Ok(site)
}
