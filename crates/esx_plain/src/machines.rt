//! The rows of virtual machines.

ghost use Rattle.std.specs.Prelude.{◌≡◌, ◌<◌, ◌^◌, Some, None, length, map, option_map, IfOk};
ghost use Rattle.esx_model.specs.declared.scene.Vm.{Vm};
ghost use Rattle.esx_model.specs.Show.{map_row, period_row, vm_row, vm_rows};
ghost use Rattle.esx_model.specs.Site.{vm_at};
ghost use Rattle.esx_model.specs.sound.Sound.{IsSound};
ghost use Rattle.esx_steps.specs.Numbers.{HasNumbers};

use esx_formulas::Period;
use esx_formulas::activity::{fast_average, slow_average};
use esx_model::{Mark, PeriodRow, Place, Site, Vm, VmRow};
use esx_steps::vm_of;
use esx_types::{Config, MapRow, Rows, VM_NUMBERS};
use std::alloc::{AllocError, Global};

/// The row of a page, as of an epoch of its machine.
fn map_row(place: &Place, epoch: u32) -> MapRow
    ensures { result ≡ map_row epoch place.now }
{
    match place {
        Place::Here { frame, .. } => MapRow::Here { frame: *frame },
        Place::Out { slot, .. } => MapRow::Out { slot: *slot },
        Place::Lent { epoch: own } if *own == epoch => MapRow::Lent { epoch },
        Place::Untouched | Place::Lent { .. } => MapRow::Untouched,
    }
}

/// The sampled pages of a period, each marked whether it was accessed.
fn marks(alloc: Global, period: &Period) -> Result<Rows<Mark>, AllocError>
    ensures { IfOk result (λ rows. rows ≡ (period_row period.now).marks) }
{
    let mut marks = Rows::new(alloc);
    for page in period.pages.as_slice() {
        marks.push(Mark {
            page: *page,
            touched: period.is_touched(*page),
        })?;
    }
    Ok(marks)
}

/// The row of an open period.
fn period_row(alloc: Global, period: &Period) -> Result<PeriodRow, AllocError>
    requires { length period.now.accessed < 2 ^ 32 }
    ensures { IfOk result (λ row. row ≡ period_row period.now) }
{
    Ok(PeriodRow {
        length: period.length,
        done: period.accessed.len() as u32,
        marks: marks(alloc, period)?,
    })
}

fn pages(alloc: Global, vm: &Vm) -> Result<Rows<MapRow>, AllocError>
    ensures { IfOk result (λ rows. rows ≡ map (map_row vm.now.epoch) vm.now.places) }
{
    let mut rows = Rows::new(alloc);
    for place in vm.places.as_slice() {
        rows.push(map_row(place, vm.epoch))?;
    }
    Ok(rows)
}

fn open_row(alloc: Global, vm: &Vm) -> Result<Option<PeriodRow>, AllocError>
    requires { HasNumbers vm.now }
    ensures { IfOk result (λ row. row ≡ option_map period_row vm.now.period) }
{
    match &vm.period {
        None => Ok(None),
        Some(period) => Ok(Some(period_row(alloc, period)?)),
    }
}

fn vm_row(alloc: Global, vm: &Vm) -> Result<VmRow, AllocError>
    requires { HasNumbers vm.now }
    ensures { IfOk result (λ row. row ≡ vm_row vm.now) }
{
    Ok(VmRow {
        spec: vm.spec,
        state: vm.state,
        epoch: vm.epoch,
        due: vm.due,
        target: vm.target,
        overhead: Rows::from_vec(Vec::from_slice(alloc, vm.overhead.as_slice())?),
        pages: pages(alloc, vm)?,
        slow: slow_average(vm.closed.as_slice()),
        fast: fast_average(vm.closed.as_slice()),
        period: open_row(alloc, vm)?,
    })
}

/// The row at a machine's number.
fn row_at(
    alloc: Global,
    config: &Config,
    site: &Site,
    number: usize,
) -> Result<Option<VmRow>, AllocError>
    requires { IsSound config.now site.now }
    ensures { IfOk result (λ row. row ≡ option_map vm_row (vm_at site.now number)) }
{
    match vm_of(config, site, number) {
        None => Ok(None),
        Some(vm) => Ok(Some(vm_row(alloc, vm)?)),
    }
}

#[tactic(auto, using(crate::proofs::Tables::rows_more))]
pub fn vm_rows(
    alloc: Global,
    config: &Config,
    site: &Site,
) -> Result<Rows<Option<VmRow>>, AllocError>
    requires { IsSound config.now site.now }
    ensures { IfOk result (λ rows. rows ≡ vm_rows site.now.vms) }
{
    let mut rows = Rows::new(alloc);
    for number in 0..VM_NUMBERS {
        rows.push(row_at(alloc, config, site, number)?)?;
    }
    Ok(rows)
}
