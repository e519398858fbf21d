//! A line for each machine.

ghost use Rattle.std.specs.Prelude.{◌≡◌, ◌<◌, ◌≤◌, ◌++◌, ℕ, None, Some, IfOk, OnOk, length, slice_index_or};
ghost use Rattle.esx_types.specs.declared.config.TheConstants.{VM_NUMBERS};
ghost use Rattle.esx_model.specs.declared.book.VmRow.{VmRow};
ghost use Rattle.esx_model.specs.Readings.{table_row, table_from};
ghost use Rattle.esx_changes.specs.Activity.{IsTold};
ghost use Rattle.esx_machine.specs.Questions.{IsReadable, AreReadable, line_of};

use esx_changes::activity::active;
use esx_events::TableRow;
use esx_tables::{SiteTables, VmTable};
use esx_types::{Rows, VmId};
use std::alloc::{AllocError, Global};

fn table_row(vm: VmId, row: &VmTable) -> TableRow
    requires { IsTold row.now.period }
    ensures { result ≡ table_row vm row.now }
{
    let standing = row.standing();
    TableRow {
        vm,
        state: standing.state,
        min: standing.spec.min,
        max: standing.spec.max,
        target: standing.target,
        here: standing.resident,
        lent: standing.lent,
        out: standing.out,
        shares: standing.spec.shares,
        active: active(row),
    }
}

/// Adds the line of a place of a machine, if there is one.
fn add_line(rows: &mut Vec<TableRow>, number: usize, vm: &Option<VmTable>) -> Result<(), AllocError>
    requires number { number < VM_NUMBERS }
    requires vm { (v : VmRow) → vm.now ≡ Some v → IsReadable v }
    ensures { OnOk result (rows.new.items ≡ rows.old.items ++ line_of number vm.now) }
{
    let Some(row) = vm else {
        return Ok(());
    };
    rows.push(table_row(VmId::new(number as u8), row))?;
    Ok(())
}

/// A line for each machine of these places.
fn lines_of(alloc: Global, vms: &[Option<VmTable>]) -> Result<Rows<TableRow>, AllocError>
    requires places { length vms.now ≤ VM_NUMBERS }
    requires each { (n : ℕ) (v : VmRow) → slice_index_or vms.now n None ≡ Some v → IsReadable v }
    ensures { IfOk result (λ rows. rows ≡ table_from 0 vms.now) }
{
    let mut rows = Vec::with_capacity(alloc, vms.len())?;
    for (number, vm) in vms.iter().enumerate() {
        add_line(&mut rows, number, vm)?;
    }
    Ok(Rows::from_vec(rows))
}

/// A line for each machine, in order of number.
pub fn table_of(alloc: Global, tables: &SiteTables) -> Result<Rows<TableRow>, AllocError>
    requires { AreReadable tables.now }
    ensures { IfOk result (λ rows. rows ≡ table_from 0 tables.now.vms) }
{
    lines_of(alloc, tables.machines())
}
