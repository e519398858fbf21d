//! Pages with equal bytes come to share one frame.

ghost use Rattle.std.specs.Prelude.{◌≡◌, ◌≢◌, IfOk, IfErr};
ghost use Rattle.std.specs.List.{position_from};
ghost use Rattle.esx_types.specs.Frames.{bytes_of, frame_at};
ghost use Rattle.esx_types.specs.Listings.{is_shared_under};
ghost use Rattle.esx_formulas.specs.Key.{content_key};
ghost use Rattle.esx_changes.specs.Planned.{Plans};
ghost use Rattle.esx_sharing.specs.Sharing.{look_at_shared, look_at_hinted, look_at_hint, look_by_key, look_in, key_in, join_changes, pair_changes, hint_changes, count_with, look_changes, look_said, scan_frame, scan_plan, HasCounts};

use esx_changes::Plan;
use esx_changes::changes::{page_at, unlisted};
use esx_changes::shared::ref_count;
use esx_events::{Answer, Refusal, Scanned};
use esx_formulas::{content_key, short_of};
use esx_model::Look;
use esx_tables::{Change, Mark, Record, SiteTables};
use esx_types::{FrameRow, Listing, MapRow, VmId, VmState};
use std::alloc::{AllocError, Global};

/// What a look at a page found, and the key of the page's content; 0 where no page was looked for.
#[derive(Clone, Copy, Debug)]
pub struct Found {
    pub look: Look,
    pub key: u64,
}

/// At a frame that is shared under the page's key.
fn look_at_shared(bytes: &[u8], others: &[u8], frame: u32) -> Look
    ensures { result ≡ look_at_shared bytes.now others.now frame }
{
    if bytes == others {
        Look::SharedFrame { frame }
    } else {
        Look::OtherBytes
    }
}

/// At a frame whose page is the hint under the upper bits of the page's key: equal bytes need no second key.
fn look_at_hinted(
    tables: &SiteTables,
    vm: VmId,
    page: u32,
    bytes: &[u8],
    short: u32,
    frame: u32,
    listing: Listing,
) -> Look
    ensures { result ≡ look_at_hinted vm page bytes.now short (bytes_of (frame_at tables.now.frames frame)) frame listing }
{
    let Listing::Hinted {
        vm: other,
        page: its,
        ..
    } = listing
    else {
        return Look::Nothing;
    };
    let others = tables.bytes(frame);
    if other.number() == vm.number() && its == page {
        Look::Nothing
    } else if bytes == others {
        Look::OtherPage {
            vm: other,
            page: its,
            frame,
        }
    } else if short_of(tables.key(frame)) == short {
        Look::OtherBytes
    } else {
        Look::Changed
    }
}

fn look_at_hint(
    tables: &SiteTables,
    vm: VmId,
    page: u32,
    bytes: &[u8],
    short: u32,
    hinted: Option<u32>,
) -> Look
    ensures { result ≡ look_at_hint tables.now vm page bytes.now short hinted }
{
    match hinted {
        None => Look::Nothing,
        Some(frame) => {
            let listing = tables.listing(frame);
            look_at_hinted(tables, vm, page, bytes, short, frame, listing)
        }
    }
}

/// A shared frame comes before a hint.
fn look_by_key(tables: &SiteTables, vm: VmId, page: u32, bytes: &[u8], key: u64) -> Look
    ensures { result ≡ look_by_key tables.now vm page bytes.now key (position_from (is_shared_under key) 0 tables.now.listings) }
{
    match tables.shared_under(key) {
        Some(frame) => look_at_shared(bytes, tables.bytes(frame), frame),
        None => {
            let short = short_of(key);
            look_at_hint(tables, vm, page, bytes, short, tables.hinted_under(short))
        }
    }
}

/// What a look finds for a private page of these bytes, by their key.
fn look_for(tables: &SiteTables, vm: VmId, page: u32, bytes: &[u8], key: u64) -> Found
    requires { key ≡ content_key bytes.now }
    ensures look { result.look ≡ look_in tables.now vm page (FrameRow.Private bytes.now) }
    ensures key { result.key ≡ key_in (FrameRow.Private bytes.now) }
{
    let look = look_by_key(tables, vm, page, bytes, key);
    Found { look, key }
}

/// Of a page that is not private.
fn already() -> Found
    ensures look { result.look ≡ Look.Already }
    ensures key { result.key ≡ 0 }
{
    Found {
        look: Look::Already,
        key: 0,
    }
}

/// What a look at a page finds, by the row of its frame. Only a private page is looked for; its bytes are hashed once.
#[tactic(auto, unfolding(crate::specs::Sharing::look_in))]
pub fn look_by_row(tables: &SiteTables, vm: VmId, page: u32, row: &FrameRow) -> Found
    ensures look { result.look ≡ look_in tables.now vm page row.now }
    ensures key { result.key ≡ key_in row.now }
{
    match row {
        FrameRow::Private { bytes } => {
            let bytes = bytes.as_slice();
            look_for(tables, vm, page, bytes, content_key(bytes))
        }
        FrameRow::Free | FrameRow::Overhead | FrameRow::Shared { .. } => already(),
    }
}

/// The same, where the row is that of this frame: its key is hashed only where it is not kept.
#[tactic(auto, unfolding(crate::specs::Sharing::look_in))]
fn look_in_row(tables: &SiteTables, vm: VmId, page: u32, frame: u32, row: &FrameRow) -> Found
    requires { row.now ≡ frame_at tables.now.frames frame }
    ensures look { result.look ≡ look_in tables.now vm page row.now }
    ensures key { result.key ≡ key_in row.now }
{
    match row {
        FrameRow::Private { bytes } => {
            look_for(tables, vm, page, bytes.as_slice(), tables.key(frame))
        }
        FrameRow::Free | FrameRow::Overhead | FrameRow::Shared { .. } => already(),
    }
}

/// What a look at a page finds, by its frame. Its bytes are hashed only where their key is not kept.
#[tactic(auto, using(esx_changes::proofs::Rows::past_frames))]
pub fn look_by_frame(tables: &SiteTables, vm: VmId, page: u32, frame: u32) -> Found
    ensures look { result.look ≡ look_in tables.now vm page (frame_at tables.now.frames frame) }
    ensures key { result.key ≡ key_in (frame_at tables.now.frames frame) }
{
    match tables.frame(frame) {
        Some(row) => look_in_row(tables, vm, page, frame, row),
        None => look_in_row(tables, vm, page, frame, &FrameRow::Free),
    }
}

/// How many pages are in a shared frame with one more.
fn count_with(tables: &SiteTables, frame: u32) -> u32
    requires { HasCounts tables.now }
    ensures { result ≡ count_with tables.now frame }
{
    ref_count(tables, frame) + 1
}

/// A page leaves its frame for another, where so many are then.
fn join_changes(
    alloc: Global,
    vm: VmId,
    page: u32,
    own: u32,
    frame: u32,
    count: u32,
) -> Result<Vec<Change>, AllocError>
    ensures { IfOk result (λ changes. changes.items ≡ join_changes vm page own frame count) }
{
    Ok(vec![in alloc;
        Change::FrameAt {
            frame: own,
            row: FrameRow::Free
        },
        unlisted(own),
        Change::MarkAt {
            frame,
            mark: Mark::Shared { count }
        },
        page_at(vm, page, MapRow::Here { frame }),
    ]?)
}

/// The same where the other page was private: its frame is shared under the key from now on.
fn pair_changes(
    alloc: Global,
    vm: VmId,
    page: u32,
    own: u32,
    frame: u32,
    key: u64,
) -> Result<Vec<Change>, AllocError>
    ensures { IfOk result (λ changes. changes.items ≡ pair_changes vm page own frame key) }
{
    Ok(vec![in alloc;
        Change::ListingAt {
            frame,
            listing: Listing::Shared { key }
        },
        Change::FrameAt {
            frame: own,
            row: FrameRow::Free
        },
        unlisted(own),
        Change::MarkAt {
            frame,
            mark: Mark::Shared { count: 2 }
        },
        page_at(vm, page, MapRow::Here { frame }),
    ]?)
}

/// A page becomes the hint under the upper bits of its key; the one that stood there goes.
fn hint_changes(
    alloc: Global,
    vm: VmId,
    page: u32,
    own: u32,
    short: u32,
    hinted: Option<u32>,
) -> Result<Vec<Change>, AllocError>
    ensures { IfOk result (λ changes. changes.items ≡ hint_changes vm page own short hinted) }
{
    let hint = Change::ListingAt {
        frame: own,
        listing: Listing::Hinted {
            vm,
            page,
            key: short,
        },
    };
    match hinted {
        None => Ok(vec![in alloc; hint]?),
        Some(frame) => Ok(vec![in alloc; unlisted(frame), hint]?),
    }
}

/// What a look at a page in its own frame changes.
pub fn look_changes(
    tables: &SiteTables,
    alloc: Global,
    vm: VmId,
    page: u32,
    own: u32,
    found: &Found,
) -> Result<Vec<Change>, AllocError>
    requires { HasCounts tables.now }
    ensures { IfOk result (λ changes. changes.items ≡ look_changes tables.now vm page own found.now.key found.now.look) }
{
    match found.look {
        Look::Already | Look::OtherBytes => Ok(Vec::new(alloc)),
        Look::SharedFrame { frame } => {
            join_changes(alloc, vm, page, own, frame, count_with(tables, frame))
        }
        Look::OtherPage { frame, .. } => pair_changes(alloc, vm, page, own, frame, found.key),
        Look::Changed | Look::Nothing => {
            let short = short_of(found.key);
            hint_changes(alloc, vm, page, own, short, tables.hinted_under(short))
        }
    }
}

/// What is said of a look.
fn look_said(tables: &SiteTables, look: Look) -> Scanned
    requires { HasCounts tables.now }
    ensures { result ≡ look_said tables.now look }
{
    match look {
        Look::Already => Scanned::Already,
        Look::SharedFrame { frame } => Scanned::Shared {
            frame,
            count: count_with(tables, frame),
        },
        Look::OtherPage { frame, .. } => Scanned::Shared { frame, count: 2 },
        Look::Changed => Scanned::Stale,
        Look::OtherBytes => Scanned::Clash,
        Look::Nothing => Scanned::Hinted,
    }
}

/// A page is looked for, and shared or remembered, by its frame.
pub fn scan_frame(
    tables: &SiteTables,
    alloc: Global,
    vm: VmId,
    page: u32,
    frame: u32,
) -> Result<Plan, Refusal>
    requires { HasCounts tables.now }
    ensures { Plans result (scan_frame tables.now vm page frame (frame_at tables.now.frames frame)) }
{
    let found = look_by_frame(tables, vm, page, frame);
    let changes = look_changes(tables, alloc, vm, page, frame, &found)?;
    Ok(Plan {
        answer: Answer::Looked {
            scanned: look_said(tables, found.look),
        },
        changes: Record::of(changes),
    })
}

/// The frame of the page that a scan looks for; or why it is refused before it looks.
#[tactic(auto, unfolding(crate::specs::Sharing::scan_plan))]
pub fn scanned_frame(tables: &SiteTables, vm: VmId, page: u32) -> Result<u32, Refusal>
    ensures looks { IfOk result (λ frame. scan_plan tables.now vm page ≡ scan_frame tables.now vm page frame (frame_at tables.now.frames frame)) }
    ensures refused { IfErr result (λ e. scan_plan tables.now vm page ≡ Err e) }
    ensures told { IfErr result (λ e. e ≢ Refusal.OutOfMemory) }
{
    let Some(row) = tables.vm(vm) else {
        return Err(Refusal::NoVm);
    };
    match row.facts().state {
        VmState::Starting | VmState::Stopping => return Err(Refusal::NotRunning),
        VmState::Running => {}
    }
    if row.spec().max <= page {
        return Err(Refusal::OutOfRange);
    }
    match row.page(page) {
        MapRow::Here { frame } => Ok(frame),
        MapRow::Untouched | MapRow::Out { .. } | MapRow::Lent { .. } => Err(Refusal::NotResident),
    }
}

/// Another page with the bytes of a page is looked for, to share one frame with it.
pub fn plan_scan(tables: &SiteTables, alloc: Global, vm: VmId, page: u32) -> Result<Plan, Refusal>
    requires { HasCounts tables.now }
    ensures { Plans result (scan_plan tables.now vm page) }
{
    let frame = match scanned_frame(tables, vm, page) {
        Ok(frame) => frame,
        Err(refusal) => return Err(refusal),
    };
    scan_frame(tables, alloc, vm, page, frame)
}
