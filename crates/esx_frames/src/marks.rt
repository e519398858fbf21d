//! What is traded inside a frame.

ghost use Rattle.std.specs.Prelude.{◌≡◌};
ghost use Rattle.esx_lists.specs.Trades.{part_traded};
ghost use Rattle.esx_frames.specs.Marks.{bytes_traded, marked, mark_traded, moves, slot_traded};

use esx_types::{Bytes, FrameRow, SlotRow, SmallBytes};
use std::mem;

/// Whose a page in a frame is: one virtual machine's, or shared, with the number of its pages.
#[derive(Clone, Copy, Debug, PartialEq, Eq)]
pub enum Mark {
    Private,
    Shared { count: u32 },
}

impl Mark {
    /// A page's bytes under this mark.
    fn of(self, bytes: Bytes) -> FrameRow
        ensures { result ≡ marked self bytes }
    {
        match self {
            Mark::Private => FrameRow::Private { bytes },
            Mark::Shared { count } => FrameRow::Shared { count, bytes },
        }
    }
}

/// Trades items with those from a place on, if they fit there.
#[tactic(auto, unfolding(esx_lists::specs::Trades::part_traded))]
fn trade_part(kept: &mut Bytes, offset: usize, new: &mut SmallBytes)
    ensures kept { kept.new ≡ (part_traded kept.old offset new.old).0 }
    ensures new { new.new ≡ (part_traded kept.old offset new.old).1 }
{
    if offset <= kept.len() && new.len() <= kept.len() - offset {
        new.trade(kept, offset);
    }
}

pub fn trade_bytes(row: &mut FrameRow, offset: usize, new: &mut SmallBytes)
    ensures row { row.new ≡ (bytes_traded offset row.old new.old).0 }
    ensures new { new.new ≡ (bytes_traded offset row.old new.old).1 }
{
    match row {
        FrameRow::Free | FrameRow::Overhead => {}
        FrameRow::Private { bytes } => trade_part(bytes, offset, new),
        FrameRow::Shared { bytes, .. } => trade_part(bytes, offset, new),
    }
}

pub fn trade_mark(row: &mut FrameRow, mark: &mut Mark)
    ensures row { row.new ≡ (mark_traded row.old mark.old).0 }
    ensures mark { mark.new ≡ (mark_traded row.old mark.old).1 }
{
    *row = match mem::replace(row, FrameRow::Free) {
        FrameRow::Private { bytes } => mem::replace(mark, Mark::Private).of(bytes),
        FrameRow::Shared { count, bytes } => mem::replace(mark, Mark::Shared { count }).of(bytes),
        FrameRow::Overhead => FrameRow::Overhead,
        FrameRow::Free => FrameRow::Free,
    };
}

pub fn trade_slot(row: &mut FrameRow, slot: &mut SlotRow)
    ensures row { row.new ≡ (slot_traded row.old slot.old).0 }
    ensures slot { slot.new ≡ (slot_traded row.old slot.old).1 }
{
    match mem::replace(row, FrameRow::Free) {
        FrameRow::Free => {
            if let SlotRow::Held { bytes } = mem::replace(slot, SlotRow::Free) {
                *row = FrameRow::Private { bytes };
            }
        }
        FrameRow::Private { bytes } => {
            if let SlotRow::Held { bytes: other } = mem::replace(slot, SlotRow::Held { bytes }) {
                *row = FrameRow::Private { bytes: other };
            }
        }
        FrameRow::Overhead => *row = FrameRow::Overhead,
        FrameRow::Shared { count, bytes } => *row = FrameRow::Shared { count, bytes },
    }
}

/// Does a trade with a slot move pages?
pub fn moves(row: &FrameRow) -> bool
    ensures { result ≡ moves row.now }
{
    matches!(row, FrameRow::Free | FrameRow::Private { .. })
}
