//! A guest asks how much its balloon is to lend, lends a page, and takes one back.

ghost use Rattle.std.specs.Prelude.{◌≡◌, ◌+◌, ◌<◌, ◌^◌, IfOk};
ghost use Rattle.esx_events.specs.declared.event.Answer.TheVariants.{Reset};
ghost use Rattle.esx_model.specs.event.Outcome.{goal};
ghost use Rattle.esx_changes.specs.Planned.{Plans};
ghost use Rattle.esx_plans.specs.plan.Balloon.{CanEpochsRise, is_lent_now, reset_changes, goal_told, lent_told, ask_plan, lend_plan, take_back_plan};

use esx_changes::Plan;
use esx_changes::leaves::page_leaves;
use esx_events::{Answer, Refusal};
use esx_model::Standing;
use esx_tables::{Change, Facts, Record, SiteTables, VmPart, VmTable};
use esx_types::{MapRow, VmId, VmState};
use std::alloc::{AllocError, Global};

/// How many pages the balloon is to lend.
fn goal(standing: &Standing) -> u32
    ensures { result ≡ goal standing.now }
{
    let spec = standing.spec;
    let over = spec.max.saturating_sub(standing.target);
    spec.balloon_max.min(over)
}

/// Is the page lent now?
fn is_lent_now(row: &VmTable, page: u32) -> bool
    ensures { result ≡ is_lent_now row.now page }
{
    row.page(page).is_lent_in(row.facts().epoch)
}

/// All loans are over.
fn reset_changes(alloc: Global, vm: VmId, row: &VmTable) -> Result<Vec<Change>, AllocError>
    requires { row.now.epoch + 1 < 2 ^ 32 }
    ensures { IfOk result (λ changes. changes.items ≡ reset_changes vm row.now) }
{
    let facts = row.facts();
    let facts = Facts {
        epoch: facts.epoch + 1,
        due: false,
        ..facts
    };
    let part = VmPart::Facts { facts };
    Ok(vec![in alloc; Change::OfVm { vm, part }]?)
}

/// The reset that is due.
fn reset(alloc: Global, vm: VmId, row: &VmTable) -> Result<Plan, AllocError>
    requires { row.now.epoch + 1 < 2 ^ 32 }
    ensures answer { IfOk result (λ plan. plan.answer ≡ Reset (row.now.epoch + 1)) }
    ensures changes { IfOk result (λ plan. plan.changes ≡ reset_changes vm row.now) }
{
    let changes = reset_changes(alloc, vm, row)?;
    let epoch = row.facts().epoch + 1;
    Ok(Plan {
        answer: Answer::Reset { epoch },
        changes: Record::of(changes),
    })
}

fn goal_told(standing: &Standing, epoch: u32) -> Answer
    ensures { result ≡ goal_told standing.now epoch }
{
    Answer::Goal {
        goal: goal(standing),
        lent: standing.lent,
        epoch,
    }
}

/// A guest asks how much it is to lend; nothing changes but by a reset that is due.
#[tactic(auto, unfolding(crate::specs::plan::Balloon::ask_plan))]
pub fn plan_ask(tables: &SiteTables, alloc: Global, vm: VmId) -> Result<Plan, Refusal>
    requires { CanEpochsRise tables.now }
    ensures { Plans result (ask_plan tables.now vm) }
{
    let Some(row) = tables.vm(vm) else {
        return Err(Refusal::NoVm);
    };
    let facts = row.facts();
    match facts.state {
        VmState::Starting | VmState::Stopping => return Err(Refusal::NotRunning),
        VmState::Running => {}
    }
    if facts.due {
        return Ok(reset(alloc, vm, row)?);
    }
    Ok(Plan {
        answer: goal_told(&row.standing(), facts.epoch),
        changes: Record::of(Vec::new(alloc)),
    })
}

fn lent_told(standing: &Standing) -> Answer
    requires { standing.now.lent < goal standing.now }
    ensures { result ≡ lent_told standing.now }
{
    let goal = goal(standing);
    Answer::Lent {
        lent: standing.lent + 1,
        goal,
    }
}

/// A guest lends a page, up to the goal.
#[tactic(auto, unfolding(crate::specs::plan::Balloon::lend_plan))]
pub fn plan_lend(tables: &SiteTables, alloc: Global, vm: VmId, page: u32) -> Result<Plan, Refusal>
    requires { CanEpochsRise tables.now }
    ensures { Plans result (lend_plan tables.now vm page) }
{
    let Some(row) = tables.vm(vm) else {
        return Err(Refusal::NoVm);
    };
    let facts = row.facts();
    match facts.state {
        VmState::Starting | VmState::Stopping => return Err(Refusal::NotRunning),
        VmState::Running => {}
    }
    if row.spec().max <= page {
        return Err(Refusal::OutOfRange);
    }
    if facts.due {
        return Ok(reset(alloc, vm, row)?);
    }
    if is_lent_now(row, page) {
        return Err(Refusal::LentAlready);
    }
    let standing = row.standing();
    if goal(&standing) <= standing.lent {
        return Err(Refusal::OverGoal);
    }
    let lent = MapRow::Lent { epoch: facts.epoch };
    let changes = page_leaves(tables, alloc, vm, page, row.page(page), lent)?;
    Ok(Plan {
        answer: lent_told(&standing),
        changes: Record::of(changes),
    })
}

/// A guest takes a page back that is lent now.
#[tactic(auto, unfolding(crate::specs::plan::Balloon::take_back_plan))]
pub fn plan_take_back(
    tables: &SiteTables,
    alloc: Global,
    vm: VmId,
    page: u32,
) -> Result<Plan, Refusal>
    requires { CanEpochsRise tables.now }
    ensures { Plans result (take_back_plan tables.now vm page) }
{
    let Some(row) = tables.vm(vm) else {
        return Err(Refusal::NoVm);
    };
    let facts = row.facts();
    match facts.state {
        VmState::Starting | VmState::Stopping => return Err(Refusal::NotRunning),
        VmState::Running => {}
    }
    if row.spec().max <= page {
        return Err(Refusal::OutOfRange);
    }
    if facts.due {
        return Ok(reset(alloc, vm, row)?);
    }
    if !is_lent_now(row, page) {
        return Err(Refusal::NotLent);
    }
    let lent = row.standing().lent;
    let old = row.page(page);
    let changes = page_leaves(tables, alloc, vm, page, old, MapRow::Untouched)?;
    Ok(Plan {
        answer: Answer::TakenBack {
            lent: lent.saturating_sub(1),
        },
        changes: Record::of(changes),
    })
}
