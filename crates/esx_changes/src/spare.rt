//! Machines with more pages in frames than their least.

ghost use Rattle.std.specs.Prelude.{◌≡◌};
ghost use Rattle.std.specs.List.{list_any};
ghost use Rattle.esx_changes.specs.Spare.{has_spare};

use esx_tables::{SiteTables, VmTable};

/// Has a machine more pages in frames than its least?
fn has_spare(row: &Option<VmTable>) -> bool
    ensures { result ≡ has_spare row.now }
{
    match row {
        None => false,
        Some(row) => {
            let standing = row.standing();
            standing.spec.min < standing.resident
        }
    }
}

/// Has a machine of these places more pages in frames than its least?
fn any_of(rows: &[Option<VmTable>]) -> bool
    ensures { result ≡ list_any has_spare rows.now }
{
    rows.iter().any(has_spare)
}

/// Has any machine more pages in frames than its least?
#[tactic(auto, using(crate::proofs::Spares::spare_of_used))]
pub fn any_spare(tables: &SiteTables) -> bool
    ensures { result ≡ list_any has_spare tables.now.vms }
{
    any_of(tables.machines())
}
