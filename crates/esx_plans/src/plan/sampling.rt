//! A sample period opens.

ghost use Rattle.std.specs.Prelude.{◌≡◌, ◌≤◌, IfOk, length, map};
ghost use Rattle.esx_changes.specs.Planned.{Plans};
ghost use Rattle.esx_plans.specs.plan.Sampling.{drawn, opened_row, sample_plan};

use esx_changes::Plan;
use esx_events::{Answer, Boxed, Refusal};
use esx_model::{Mark, PeriodRow};
use esx_tables::{Change, Record, SiteTables, VmPart};
use esx_types::{MAX_LENGTH, MAX_SAMPLE, Rows, VmId, VmState};
use std::alloc::{AllocError, Global};

/// The page that a word draws of a machine with so many, not accessed yet.
fn drawn(max: u32, word: u64) -> Mark
    requires { 1 ≤ max }
    ensures { result ≡ drawn max word }
{
    Mark {
        page: (word % u64::from(max)) as u32,
        touched: false,
    }
}

/// The pages that words draw, equal ones as often as they were drawn.
fn marks(alloc: Global, max: u32, words: &[u64]) -> Result<Vec<Mark>, AllocError>
    requires { 1 ≤ max }
    ensures { IfOk result (λ marks. marks.items ≡ map (drawn max) words.now) }
{
    let mut marks = Vec::with_capacity(alloc, words.len())?;
    for word in words {
        marks.push(drawn(max, *word))?;
    }
    Ok(marks)
}

/// A period as it opens.
fn opened(alloc: Global, max: u32, length: u32, words: &[u64]) -> Result<PeriodRow, AllocError>
    requires { 1 ≤ max }
    ensures { IfOk result (λ period. period ≡ opened_row max length words.now) }
{
    Ok(PeriodRow {
        length,
        done: 0,
        marks: Rows::from_vec(marks(alloc, max, words)?),
    })
}

/// A running machine with no open period opens one of `length` accesses, 1 to `MAX_LENGTH`, with a page
/// for each of 1 to `MAX_SAMPLE` words.
#[tactic(auto, unfolding(crate::specs::plan::Sampling::sample_plan))]
pub fn plan_sample(
    tables: &SiteTables,
    alloc: Global,
    vm: VmId,
    length: u32,
    words: &[u64],
) -> Result<Plan, Refusal>
    ensures { Plans result (sample_plan tables.now vm length words.now) }
{
    let Some(row) = tables.vm(vm) else {
        return Err(Refusal::NoVm);
    };
    match row.facts().state {
        VmState::Starting | VmState::Stopping => return Err(Refusal::NotRunning),
        VmState::Running => {}
    }
    if words.is_empty() || MAX_SAMPLE < words.len() || length < 1 || MAX_LENGTH < length {
        return Err(Refusal::BadWords);
    }
    if let Some(_open) = row.period() {
        return Err(Refusal::SampleOpen);
    }
    let period = opened(alloc, row.spec().max, length, words)?;
    let part = VmPart::Period {
        period: Boxed::new(alloc, Some(period))?,
    };
    let changes = vec![in alloc; Change::OfVm { vm, part }]?;
    Ok(Plan {
        answer: Answer::Opened {
            length,
            pages: words.len() as u32,
        },
        changes: Record::of(changes),
    })
}
