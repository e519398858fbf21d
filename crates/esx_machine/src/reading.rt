//! What questions read of one machine's row and one frame's, and how far machines stand.

ghost use Rattle.std.specs.Prelude.{◌≡◌, ◌≤◌, ◌+◌, ℕ, true, None, is_some, option_map};
ghost use Rattle.esx_types.specs.declared.config.TheConstants.{VM_NUMBERS};
ghost use Rattle.esx_types.specs.Frames.{frame_at};
ghost use Rattle.esx_types.specs.Listings.{listing_at};
ghost use Rattle.esx_model.specs.Readings.{activity_in, activity_of, state_in};
ghost use Rattle.esx_model.specs.Tables.{standing_of};
ghost use Rattle.esx_tables.specs.Readings.{row_at};
ghost use Rattle.esx_changes.specs.Activity.{IsTold};
ghost use Rattle.esx_machine.specs.Questions.{AreReadable, is_hinted, state_of, page_from};

use esx_changes::activity::{active, sampled, touched};
use esx_events::{Activity, PageState, Refusal};
use esx_model::Standing;
use esx_tables::{SiteTables, VmTable};
use esx_types::{FrameRow, Listing, MapRow, VmId, VmSpec};

fn activity_in(vm: &VmTable) -> Activity
    requires { IsTold vm.now.period }
    ensures { result ≡ activity_in vm.now vm.now.period }
{
    let averages = vm.averages();
    let closed = Activity {
        slow: averages.slow(),
        fast: averages.fast(),
        active: active(vm),
        done: 0,
        length: 0,
        touched: 0,
        pages: 0,
    };
    match vm.period() {
        None => closed,
        Some(period) => Activity {
            done: period.done,
            length: period.length,
            touched: touched(period),
            pages: sampled(period),
            ..closed
        },
    }
}

/// A machine's averages and open period, or that there is no such machine.
#[tactic(auto, using(crate::proofs::Readable::told_there))]
pub fn activity(tables: &SiteTables, vm: VmId) -> Result<Activity, Refusal>
    requires { AreReadable tables.now }
    ensures { result ≡ activity_of (row_at tables.now vm) }
{
    match tables.vm(vm) {
        None => Err(Refusal::NoVm),
        Some(row) => Ok(activity_in(row)),
    }
}

/// What a machine asked for, with its present shares and its present tax.
pub fn spec_of(tables: &SiteTables, vm: VmId) -> Option<VmSpec>
    ensures { result ≡ option_map (λ v. v.spec) (row_at tables.now vm) }
{
    match tables.vm(vm) {
        None => None,
        Some(row) => Some(row.spec()),
    }
}

/// A machine's target.
pub fn target_of(tables: &SiteTables, vm: VmId) -> Option<u32>
    ensures { result ≡ option_map (λ v. v.target) (row_at tables.now vm) }
{
    match tables.vm(vm) {
        None => None,
        Some(row) => Some(row.facts().target),
    }
}

/// What gates read of a machine.
pub fn standing_of_vm(tables: &SiteTables, vm: VmId) -> Option<Standing>
    ensures { result ≡ option_map standing_of (row_at tables.now vm) }
{
    match tables.vm(vm) {
        None => None,
        Some(row) => Some(row.standing()),
    }
}

/// The number behind that of the last machine, 0 where there is none.
pub fn numbers_of(tables: &SiteTables) -> usize
    ensures few { result ≤ VM_NUMBERS }
    ensures past { (n : ℕ) → result ≤ n → row_at tables.now n ≡ None }
    ensures last { (n : ℕ) → n + 1 ≡ result → is_some (row_at tables.now n) ≡ true }
{
    tables.machines().len()
}

fn is_hinted(listing: Listing) -> bool
    ensures { result ≡ is_hinted listing }
{
    matches!(listing, Listing::Hinted { .. })
}

fn state_in(hinted: bool, frame: u32, row: &FrameRow) -> PageState
    ensures { result ≡ state_in hinted frame row.now }
{
    match row {
        FrameRow::Private { .. } => {
            if hinted {
                PageState::Hinted { frame }
            } else {
                PageState::Private { frame }
            }
        }
        FrameRow::Shared { count, .. } => PageState::Shared {
            frame,
            count: *count,
        },
        FrameRow::Free | FrameRow::Overhead => PageState::Untouched,
    }
}

#[tactic(auto, using(esx_changes::proofs::Rows::past_frames))]
fn state_here(tables: &SiteTables, frame: u32) -> PageState
    ensures { result ≡ state_in (is_hinted (listing_at tables.now.listings frame)) frame (frame_at tables.now.frames frame) }
{
    match tables.frame(frame) {
        Some(row) => state_in(is_hinted(tables.listing(frame)), frame, row),
        None => PageState::Untouched,
    }
}

/// Where a page is by its row; a loan of an epoch that is over counts as untouched.
fn state_of(tables: &SiteTables, epoch: u32, row: MapRow) -> PageState
    ensures { result ≡ state_of tables.now epoch row }
{
    match row {
        MapRow::Untouched => PageState::Untouched,
        MapRow::Here { frame } => state_here(tables, frame),
        MapRow::Out { slot } => PageState::Out { slot },
        MapRow::Lent { epoch: lent } => {
            if lent == epoch {
                PageState::Lent
            } else {
                PageState::Untouched
            }
        }
    }
}

/// Where a page is, or why there is no such page.
pub fn page_state(tables: &SiteTables, vm: VmId, page: u32) -> Result<PageState, Refusal>
    ensures { result ≡ page_from tables.now page (row_at tables.now vm) }
{
    let Some(row) = tables.vm(vm) else {
        return Err(Refusal::NoVm);
    };
    if row.spec().max <= page {
        return Err(Refusal::OutOfRange);
    }
    Ok(state_of(tables, row.facts().epoch, row.page(page)))
}
