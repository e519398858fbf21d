//! What is to change where a page leaves its place.

ghost use Rattle.std.specs.Prelude.{◌≡◌, IfOk};
ghost use Rattle.esx_changes.specs.Leaves.{page_leaves};

use crate::shared::ref_count;
use esx_tables::{Change, Mark, SiteTables, VmPart};
use esx_types::{FrameRow, Listing, MapRow, SlotRow, VmId};
use std::alloc::{AllocError, Global};

/// The changes where a page of a machine goes from its old row to a new one that names no frame and no
/// slot.
pub fn page_leaves(
    tables: &SiteTables,
    alloc: Global,
    vm: VmId,
    page: u32,
    old: MapRow,
    new: MapRow,
) -> Result<Vec<Change>, AllocError>
    ensures { IfOk result (λ changes. changes.items ≡ page_leaves tables.now.frames vm page old new) }
{
    let moved = Change::OfVm {
        vm,
        part: VmPart::PageAt { page, row: new },
    };
    match old {
        MapRow::Untouched | MapRow::Lent { .. } => Ok(vec![in alloc; moved]?),
        MapRow::Out { slot } => {
            let row = SlotRow::Free;
            Ok(vec![in alloc; Change::SlotAt { slot, row }, moved]?)
        }
        MapRow::Here { frame } => {
            let count = ref_count(tables, frame);
            if 1 < count {
                let mark = Mark::Shared { count: count - 1 };
                Ok(vec![in alloc; Change::MarkAt { frame, mark }, moved]?)
            } else {
                let row = FrameRow::Free;
                let listing = Listing::Unlisted;
                Ok(vec![in alloc;
                    Change::FrameAt { frame, row },
                    Change::ListingAt { frame, listing },
                    moved,
                ]?)
            }
        }
    }
}
