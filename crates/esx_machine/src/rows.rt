//! What each machine has for the taxed ratio, where it keeps its target.

ghost use Rattle.std.specs.Prelude.{◌≡◌, ◌≤◌, ℕ, IfOk, Some, None, length, slice_index_or};
ghost use Rattle.esx_types.specs.declared.config.TheConstants.{MAX_TAU, VM_NUMBERS};
ghost use Rattle.esx_model.specs.declared.book.VmRow.{VmRow};
ghost use Rattle.esx_machine.specs.Questions.{IsReadable, AreReadable, target_rows};

use crate::advice::target_row;
use esx_formulas::Row;
use esx_tables::{SiteTables, VmTable};
use esx_types::VmId;
use std::alloc::{AllocError, Global};

/// A row for each machine of these places, where the site has this tax.
fn rows_of(alloc: Global, tau: u32, vms: &[Option<VmTable>]) -> Result<Vec<Row>, AllocError>
    requires tau { tau ≤ MAX_TAU }
    requires places { length vms.now ≤ VM_NUMBERS }
    requires each { (n : ℕ) (v : VmRow) → slice_index_or vms.now n None ≡ Some v → IsReadable v }
    ensures { IfOk result (λ rows. rows.items ≡ target_rows tau 0 vms.now) }
{
    let mut rows = Vec::with_capacity(alloc, vms.len())?;
    for (number, place) in vms.iter().enumerate() {
        if let Some(row) = place {
            rows.push(target_row(tau, VmId::new(number as u8), row))?;
        }
    }
    Ok(rows)
}

/// A row for each machine that there is, in order of number.
pub fn target_rows(alloc: Global, tables: &SiteTables) -> Result<Vec<Row>, AllocError>
    requires { AreReadable tables.now }
    ensures { IfOk result (λ rows. rows.items ≡ target_rows tables.now.tau 0 tables.now.vms) }
{
    rows_of(alloc, tables.tau(), tables.machines())
}
