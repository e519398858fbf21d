//! What machines have, as rows that targets are made from.

ghost use Rattle.std.specs.Prelude.{◌≡◌, ◌≤◌, ℕ, IfOk, Some, None, [], count_by, is_some, length, slice_index_or, vec_capacity};
ghost use Rattle.esx_types.specs.declared.config.TheConstants.{VM_NUMBERS};
ghost use Rattle.esx_model.specs.declared.book.VmRow.{VmRow};
ghost use Rattle.esx_changes.specs.Activity.{IsTold};
ghost use Rattle.esx_plans.specs.plan.Ratios.{ratio_row, ratio_rows, least_of, numbered, HaveRatios};

use esx_average::Row;
use esx_changes::activity::active;
use esx_formulas::ratio::tax_of;
use esx_tables::{SiteTables, VmTable};
use esx_types::VmId;
use std::alloc::{AllocError, Global};

fn ratio_row(tau: u32, vm: VmId, row: &VmTable) -> Row
    requires { IsTold row.now.period }
    ensures { result ≡ ratio_row tau least_of vm row.now }
{
    let spec = row.spec();
    Row {
        vm,
        shares: spec.shares,
        pages: row.standing().resident,
        floor: spec.min,
        active: active(row),
        tau: tax_of(tau, spec.tau),
    }
}

/// Room for one item of each machine that there is.
pub(crate) fn room<T>(alloc: Global, vms: &[Option<VmTable>]) -> Result<Vec<T>, AllocError>
    ensures empty { IfOk result (λ items. items.items ≡ []) }
    ensures room { IfOk result (λ items. vec_capacity items ≡ count_by is_some vms.now) }
{
    Vec::with_capacity(alloc, machine_count(vms))
}

fn machine_count(vms: &[Option<VmTable>]) -> usize
    ensures { result ≡ count_by is_some vms.now }
{
    vms.iter().filter(|place| place.is_some()).count()
}

/// A row for each machine of these places, where the site has this tax.
fn rows_of(alloc: Global, tau: u32, vms: &[Option<VmTable>]) -> Result<Vec<Row>, AllocError>
    requires places { length vms.now ≤ VM_NUMBERS }
    requires periods { (n : ℕ) (v : VmRow) → slice_index_or vms.now n None ≡ Some v → IsTold v.period }
    ensures { IfOk result (λ rows. rows.items ≡ numbered (ratio_row tau least_of) 0 vms.now) }
{
    let mut rows = room(alloc, vms)?;
    for (number, place) in vms.iter().enumerate() {
        if let Some(row) = place {
            rows.push(ratio_row(tau, VmId::new(number as u8), row))?;
        }
    }
    Ok(rows)
}

/// A row for each machine that there is, in order of number, of which it keeps its least memory.
#[tactic(auto, using(crate::proofs::Loops::made_of_used))]
pub fn ratio_rows(alloc: Global, tables: &SiteTables) -> Result<Vec<Row>, AllocError>
    requires { HaveRatios tables.now }
    ensures { IfOk result (λ rows. rows.items ≡ ratio_rows least_of tables.now) }
{
    rows_of(alloc, tables.tau(), tables.machines())
}
