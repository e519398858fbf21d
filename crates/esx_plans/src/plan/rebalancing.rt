//! New targets, the idle memory tax, and the tax and the shares of a machine.

ghost use Rattle.std.specs.Prelude.{◌≡◌, ◌<◌, ◌≤◌, nat_lt, ◌+◌, ◌-◌, ◌^◌, IfOk, length, sum_by};
ghost use Rattle.esx_types.specs.declared.config.TheConstants.{MAX_TAU, VM_NUMBERS};
ghost use Rattle.esx_types.specs.Ranges.{IsConfig};
ghost use Rattle.esx_formulas.specs.Level.{high_threshold, margin};
ghost use Rattle.esx_formulas.specs.Targets.{spare};
ghost use Rattle.esx_changes.specs.Planned.{Plans};
ghost use Rattle.esx_plans.specs.plan.Ratios.{numbered, HaveRatios};
ghost use Rattle.esx_plans.specs.plan.Rebalancing.{to_max, to_targets, share_out_plan, rebalance_plan, tax_plan, vm_tax_plan, shares_plan};

use crate::plan::ratios::{ratio_rows, room};
use esx_average::{Row, targets};
use esx_changes::Plan;
use esx_events::{Answer, Refusal};
use esx_formulas::level::{margin, threshold};
use esx_tables::{Change, Facts, Record, SiteTables, VmPart, VmTable};
use esx_types::{Config, Level, MAX_SHARES, MAX_TAU, VmId};
use std::alloc::{AllocError, Global};

/// A machine gets all it asked for.
fn to_max(vm: VmId, row: &VmTable) -> Change
    ensures { result ≡ to_max vm row.now }
{
    let target = row.spec().max;
    Change::OfVm {
        vm,
        part: VmPart::Target { target },
    }
}

/// Each machine of these places gets all it asked for.
fn places_to_max(alloc: Global, vms: &[Option<VmTable>]) -> Result<Vec<Change>, AllocError>
    requires { length vms.now ≤ VM_NUMBERS }
    ensures { IfOk result (λ changes. changes.items ≡ numbered to_max 0 vms.now) }
{
    let mut changes = room(alloc, vms)?;
    for (number, place) in vms.iter().enumerate() {
        if let Some(row) = place {
            changes.push(to_max(VmId::new(number as u8), row))?;
        }
    }
    Ok(changes)
}

/// Each machine gets all it asked for.
#[tactic(auto, using(crate::proofs::Loops::made_of_used))]
fn all_to_max(alloc: Global, tables: &SiteTables) -> Result<Vec<Change>, AllocError>
    ensures { IfOk result (λ changes. changes.items ≡ numbered to_max 0 tables.now.vms) }
{
    places_to_max(alloc, tables.machines())
}

/// The machines of rows get new targets, in order.
fn to_targets(alloc: Global, rows: &[Row], targets: &[u32]) -> Result<Vec<Change>, AllocError>
    ensures { IfOk result (λ changes. changes.items ≡ to_targets rows.now targets.now) }
{
    let mut changes = Vec::with_capacity(alloc, rows.len())?;
    changes.extend(
        rows.iter().zip(targets).map(|(row, target)| Change::OfVm {
            vm: row.vm,
            part: VmPart::Target { target: *target },
        }),
    )?;
    Ok(changes)
}

/// How many frames are wanted until nothing has to be reclaimed.
fn wanted(config: &Config, free: u32) -> u32
    requires { IsConfig config.now }
    ensures { result ≡ high_threshold config.now + margin config.now - free }
{
    let enough = threshold(config.frames, config.high, 4) + margin(config);
    enough.saturating_sub(free)
}

/// How many pages stand above the floors.
fn spare(rows: &[Row]) -> u32
    requires { sum_by spare rows.now < 2 ^ 32 }
    ensures { result ≡ sum_by spare rows.now }
{
    rows.iter()
        .map(|row| row.pages.saturating_sub(row.floor))
        .sum()
}

/// As many pages as are wanted and stand above the least memory of each machine are revoked.
fn share_out(tables: &SiteTables, alloc: Global, config: &Config) -> Result<Plan, Refusal>
    requires config { IsConfig config.now }
    requires ratios { HaveRatios tables.now }
    ensures { Plans result (share_out_plan config.now tables.now) }
{
    let need = wanted(config, tables.counts().free);
    let rows = ratio_rows(alloc, tables)?;
    let targets = targets(alloc, rows.as_slice(), need)?;
    let changes = to_targets(alloc, rows.as_slice(), targets.as_slice())?;
    Ok(Plan {
        answer: Answer::Rebalanced {
            need,
            revoked: need.min(spare(rows.as_slice())),
        },
        changes: Record::of(changes),
    })
}

/// Each machine gets a new target. Where frames are not scarce that is all it asked for; else pages are
/// revoked from the machines of least ratio. What it takes grows with the machines and not with the pages.
#[tactic(auto, unfolding(crate::specs::plan::Rebalancing::rebalance_plan))]
pub fn plan_rebalance(
    tables: &SiteTables,
    alloc: Global,
    config: &Config,
    level: Level,
) -> Result<Plan, Refusal>
    requires config { IsConfig config.now }
    requires ratios { HaveRatios tables.now }
    ensures { Plans result (rebalance_plan config.now tables.now level) }
{
    match level {
        Level::High => Ok(Plan {
            answer: Answer::Rebalanced {
                need: 0,
                revoked: 0,
            },
            changes: Record::of(all_to_max(alloc, tables)?),
        }),
        Level::Soft | Level::Hard | Level::Low => share_out(tables, alloc, config),
    }
}

/// Is it more than a tax may be?
fn is_too_much(tau: u32) -> bool
    ensures { result ≡ nat_lt MAX_TAU tau }
{
    MAX_TAU < tau
}

/// The site's tax is set.
#[tactic(auto, unfolding(crate::specs::plan::Rebalancing::tax_plan))]
pub fn plan_tax(alloc: Global, tau: u32) -> Result<Plan, Refusal>
    ensures { Plans result (tax_plan tau) }
{
    if is_too_much(tau) {
        return Err(Refusal::BadSpec);
    }
    let changes = vec![in alloc; Change::TaxIs { tau }]?;
    Ok(Plan {
        answer: Answer::Done,
        changes: Record::of(changes),
    })
}

/// A machine has a tax of its own from now on.
#[tactic(auto, unfolding(crate::specs::plan::Rebalancing::vm_tax_plan))]
pub fn plan_vm_tax(tables: &SiteTables, alloc: Global, vm: VmId, own: u32) -> Result<Plan, Refusal>
    ensures { Plans result (vm_tax_plan tables.now vm own) }
{
    let Some(row) = tables.vm(vm) else {
        return Err(Refusal::NoVm);
    };
    if is_too_much(own) {
        return Err(Refusal::BadSpec);
    }
    let facts = Facts {
        tau: Some(own),
        ..row.facts()
    };
    let changes = vec![in alloc;
        Change::OfVm {
            vm,
            part: VmPart::Facts { facts },
        },
    ]?;
    Ok(Plan {
        answer: Answer::Done,
        changes: Record::of(changes),
    })
}

/// The shares of a machine are set.
#[tactic(auto, unfolding(crate::specs::plan::Rebalancing::shares_plan))]
pub fn plan_shares(
    tables: &SiteTables,
    alloc: Global,
    vm: VmId,
    shares: u32,
) -> Result<Plan, Refusal>
    ensures { Plans result (shares_plan tables.now vm shares) }
{
    let Some(row) = tables.vm(vm) else {
        return Err(Refusal::NoVm);
    };
    if shares < 1 || MAX_SHARES < shares {
        return Err(Refusal::BadSpec);
    }
    let facts = Facts {
        shares,
        ..row.facts()
    };
    let part = VmPart::Facts { facts };
    let changes = vec![in alloc; Change::OfVm { vm, part }]?;
    Ok(Plan {
        answer: Answer::Done,
        changes: Record::of(changes),
    })
}
