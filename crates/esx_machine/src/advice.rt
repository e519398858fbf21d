//! What lets a write to a page go on. It takes no memory, and looks at each machine once.

ghost use Rattle.std.specs.Prelude.{◌≡◌, ◌≤◌, ◌<◌, ℕ, None, Some, is_some, length, slice_index_or};
ghost use Rattle.std.specs.Option.{ForSome};
ghost use Rattle.esx_types.specs.declared.config.TheConstants.{MAX_TAU, VM_NUMBERS};
ghost use Rattle.esx_formulas.specs.Ratio.{IsRow};
ghost use Rattle.esx_formulas.specs.Targets.{first_claim};
ghost use Rattle.esx_model.specs.declared.book.VmRow.{VmRow};
ghost use Rattle.esx_model.specs.event.Access.{is_blocked};
ghost use Rattle.esx_tables.specs.Readings.{row_at};
ghost use Rattle.esx_machine.specs.Questions.{IsReadable, AreReadable, written_frame, can_go, target_row, target_rows, claim_of, claim_step, vm_step, help_from, advice_from};

use esx_changes::activity::active;
use esx_changes::shared::ref_count;
use esx_changes::spare::any_spare;
use esx_events::{Help, Refusal};
use esx_formulas::Row;
use esx_formulas::ratio::{comes_no_later_at, tax_of};
use esx_model::Standing;
use esx_tables::{SiteTables, VmTable};
use esx_types::{Level, MapRow, VmId, VmState};

fn is_blocked(level: Level, standing: &Standing) -> bool
    ensures { result ≡ is_blocked level standing.now }
{
    matches!(level, Level::Low) && standing.target < standing.resident
}

/// Is there a frame that a page may be written in?
fn has_frame(tables: &SiteTables, row: MapRow) -> bool
    ensures { result ≡ is_some (written_frame tables.now row) }
{
    match row {
        MapRow::Here { frame } => {
            ref_count(tables, frame) <= 1 || tables.least_frame().is_some()
        }
        _ => tables.least_frame().is_some(),
    }
}

fn can_go(tables: &SiteTables, level: Level, vm: &VmTable, page: u32) -> bool
    ensures { result ≡ can_go tables.now level vm.now page }
{
    !is_blocked(level, &vm.standing()) && has_frame(tables, vm.page(page))
}

/// What a machine has where the site has this tax, of which it keeps its target.
pub fn target_row(tau: u32, vm: VmId, row: &VmTable) -> Row
    requires tau { tau ≤ MAX_TAU }
    requires row { IsReadable row.now }
    ensures value { result ≡ target_row tau vm row.now }
    ensures good { IsRow result }
{
    let pages = row.standing().resident;
    prove!(pages <= row.page_count());
    let spec = row.spec();
    let _number = vm.number();
    Row {
        vm,
        shares: spec.shares,
        pages,
        floor: row.facts().target,
        active: active(row),
        tau: tax_of(tau, spec.tau),
    }
}

/// Of the row that came first so far and one more, the one that comes first of those with pages above their
/// floor.
fn sooner(best: Option<Row>, row: Row) -> Option<Row>
    requires best { ForSome best IsRow }
    requires row { IsRow row }
    ensures claim { claim_of result ≡ claim_step (claim_of best) row }
    ensures good { ForSome result IsRow }
{
    if row.pages <= row.floor {
        return best;
    }
    match best {
        Some(first) => {
            if comes_no_later_at(&first, first.pages, &row, row.pages) {
                Some(first)
            } else {
                Some(row)
            }
        }
        None => Some(row),
    }
}

/// The same with one more place of a machine.
fn sooner_of(tau: u32, best: Option<Row>, number: usize, vm: &Option<VmTable>) -> Option<Row>
    requires tau { tau ≤ MAX_TAU }
    requires best { ForSome best IsRow }
    requires number { number < VM_NUMBERS }
    requires vm { (v : VmRow) → vm.now ≡ Some v → IsReadable v }
    ensures claim { claim_of result ≡ vm_step tau number (claim_of best) vm.now }
    ensures good { ForSome result IsRow }
{
    let Some(row) = vm else {
        return best;
    };
    sooner(best, target_row(tau, VmId::new(number as u8), row))
}

/// The row of the machine of these places that pages out next, if one is above its target.
fn first_of(tau: u32, vms: &[Option<VmTable>]) -> Option<Row>
    requires tau { tau ≤ MAX_TAU }
    requires places { length vms.now ≤ VM_NUMBERS }
    requires each { (n : ℕ) (v : VmRow) → slice_index_or vms.now n None ≡ Some v → IsReadable v }
    ensures { claim_of result ≡ first_claim (target_rows tau 0 vms.now) }
{
    let mut best = None;
    for (number, vm) in vms.iter().enumerate() {
        best = sooner_of(tau, best, number, vm);
    }
    best
}

/// The row of the machine that pages out next, if one is above its target.
fn first_row(tables: &SiteTables) -> Option<Row>
    requires { AreReadable tables.now }
    ensures { claim_of result ≡ first_claim (target_rows tables.now.tau 0 tables.now.vms) }
{
    first_of(tables.tau(), tables.machines())
}

fn help_from(tables: &SiteTables, level: Level, vm: &VmTable, page: u32) -> Help
    requires { AreReadable tables.now }
    ensures { result ≡ help_from tables.now level vm.now page }
{
    if can_go(tables, level, vm, page) {
        return Help::Go;
    }
    match first_row(tables) {
        Some(row) => Help::SwapOut { vm: row.vm },
        None => {
            if any_spare(tables) {
                Help::Rebalance
            } else {
                Help::Replace
            }
        }
    }
}

/// What lets a write to a page go on, or why the machine can make none.
pub fn advise(tables: &SiteTables, level: Level, vm: VmId, page: u32) -> Result<Help, Refusal>
    requires { AreReadable tables.now }
    ensures { result ≡ advice_from tables.now level page (row_at tables.now vm) }
{
    let Some(row) = tables.vm(vm) else {
        return Err(Refusal::NoVm);
    };
    match row.facts().state {
        VmState::Starting | VmState::Stopping => return Err(Refusal::NotRunning),
        VmState::Running => {}
    }
    if row.spec().max <= page {
        return Err(Refusal::OutOfRange);
    }
    Ok(help_from(tables, level, row, page))
}
