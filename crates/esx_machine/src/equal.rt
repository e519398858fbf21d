//! The page that an event finds to be equal to its own.

ghost use Rattle.std.specs.Prelude.{◌≡◌, Some};
ghost use Rattle.esx_types.specs.Frames.{frame_at};
ghost use Rattle.esx_model.specs.event.Sharing.{other_found};
ghost use Rattle.esx_tables.specs.Readings.{row_at};
ghost use Rattle.esx_sharing.specs.Sharing.{look_in};
ghost use Rattle.esx_machine.specs.Questions.{found_at, found_of, drawn_in, compared_in, equal_in};

use esx_changes::drawn::drawn_page;
use esx_events::Event;
use esx_model::Look;
use esx_sharing::sharing::look_by_frame;
use esx_tables::{SiteTables, VmTable};
use esx_types::{MapRow, VmId};

/// The page that a look finds to be equal, if that one is alone in its frame.
fn other_found(look: Look) -> Option<(VmId, u32)>
    ensures { result ≡ other_found look }
{
    match look {
        Look::OtherPage { vm, page, .. } => Some((vm, page)),
        _ => None,
    }
}

/// The page that a look at a page in this frame finds so.
fn found_in(tables: &SiteTables, vm: VmId, page: u32, frame: u32) -> Option<(VmId, u32)>
    ensures { result ≡ other_found (look_in tables.now vm page (frame_at tables.now.frames frame)) }
{
    let found = look_by_frame(tables, vm, page, frame);
    other_found(found.look)
}

/// The same by the page's row.
fn found_at(tables: &SiteTables, vm: VmId, page: u32, row: MapRow) -> Option<(VmId, u32)>
    ensures { result ≡ found_at tables.now vm page row }
{
    match row {
        MapRow::Here { frame } => found_in(tables, vm, page, frame),
        MapRow::Untouched | MapRow::Out { .. } | MapRow::Lent { .. } => None,
    }
}

/// The same by the row of the page's machine.
fn found_of(tables: &SiteTables, vm: VmId, page: u32) -> Option<(VmId, u32)>
    ensures { result ≡ found_of tables.now vm page (row_at tables.now vm) }
{
    match tables.vm(vm) {
        Some(row) => found_at(tables, vm, page, row.page(page)),
        None => None,
    }
}

/// The page of a machine that a word draws.
fn drawn_in(vm: VmId, row: &VmTable, word: u64) -> Option<(VmId, u32)>
    ensures { result ≡ drawn_in vm (Some row.now) word }
{
    match drawn_page(row, word) {
        Some(page) => Some((vm, page)),
        None => None,
    }
}

/// The same by the machine's number.
fn drawn_of(tables: &SiteTables, vm: VmId, word: u64) -> Option<(VmId, u32)>
    ensures { result ≡ drawn_in vm (row_at tables.now vm) word }
{
    match tables.vm(vm) {
        Some(row) => drawn_in(vm, row, word),
        None => None,
    }
}

/// The page that an event compares with others.
fn compared(tables: &SiteTables, event: &Event) -> Option<(VmId, u32)>
    ensures { result ≡ compared_in tables.now event.now }
{
    match event {
        Event::Scan { vm, page } => Some((*vm, *page)),
        Event::SwapOut { vm, word } => drawn_of(tables, *vm, *word),
        _ => None,
    }
}

/// The page that an event finds to be equal to the one that it compares, and that is alone in its frame.
pub fn equal_page(tables: &SiteTables, event: &Event) -> Option<(VmId, u32)>
    ensures { result ≡ equal_in tables.now (compared_in tables.now event.now) }
{
    match compared(tables, event) {
        Some((vm, page)) => found_of(tables, vm, page),
        None => None,
    }
}
