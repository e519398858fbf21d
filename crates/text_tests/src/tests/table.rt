//! A table, as a console may show it.

use esx_events::{Boxed, Said, Sum, TableRow};
use esx_types::{Level, Rows, VmId, VmState};
use std::alloc::Global;
use std::test::Fail;

/// What stands below the table.
pub const SUM: Sum = Sum {
    overhead: 1,
    private: 1,
    shared: 0,
    free: 18,
    level: Level::High,
};

/// A table of one virtual machine.
pub fn table(alloc: Global, vm: VmId) -> Result<Said, Fail> {
    let row = TableRow {
        vm,
        state: VmState::Running,
        min: 2,
        max: 6,
        target: 6,
        here: 1,
        lent: 0,
        out: 0,
        shares: 1000,
        active: 65536,
    };
    let rows = Rows::from_vec(Vec::from_slice(alloc, &[row])?);
    Ok(Said::Table {
        rows: Boxed::new(alloc, rows)?,
        sum: Boxed::new(alloc, SUM)?,
    })
}
