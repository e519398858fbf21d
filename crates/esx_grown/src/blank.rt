//! Rows that nothing was put into.

ghost use Rattle.std.specs.Prelude.{◌≡◌, ◌≤◌, ◌-◌, ◌++◌, length, replicate, vec_capacity};
ghost use Rattle.esx_types.specs.declared.table.FrameRow.TheVariants as frames;
ghost use Rattle.esx_types.specs.declared.table.SlotRow.TheVariants as slots;
ghost use Rattle.esx_types.specs.declared.table.MapRow.TheVariants as pages;
ghost use Rattle.esx_types.specs.declared.table.Listing.TheVariants as listings;

use esx_types::{FrameRow, Listing, MapRow, SlotRow};

/// What a row is before anything was put there.
pub trait Blank {
    ghost blank: { Self };

    fn blank() -> Self
        ensures { result ≡ blank };

    /// Puts blank rows behind those of a list until they are so many, in room that is there. Where there are more rows they
    /// stay.
    fn fill(rows: &mut Vec<Self>, count: usize)
        requires { count ≤ vec_capacity rows.old }
        ensures items { rows.new.items ≡ rows.old.items ++ replicate (count - length rows.old.items) blank }
        ensures room { vec_capacity rows.old ≤ vec_capacity rows.new };
}

/// Puts copies of a row behind those of a list until they are so many.
fn fill_with<T: Copy>(rows: &mut Vec<T>, count: usize, row: T)
    requires { count ≤ vec_capacity rows.old }
    ensures items { rows.new.items ≡ rows.old.items ++ replicate (count - length rows.old.items) row }
    ensures room { vec_capacity rows.old ≤ vec_capacity rows.new }
{
    if rows.len() < count {
        rows.resize(count, row).unwrap();
    }
}

impl Blank for FrameRow {
    ghost blank = { frames.Free };

    fn blank() -> FrameRow {
        FrameRow::Free
    }

    fn fill(rows: &mut Vec<FrameRow>, count: usize) {
        for _ in rows.len()..count {
            rows.push_reserved(FrameRow::Free);
        }
    }
}

impl Blank for SlotRow {
    ghost blank = { slots.Free };

    fn blank() -> SlotRow {
        SlotRow::Free
    }

    fn fill(rows: &mut Vec<SlotRow>, count: usize) {
        for _ in rows.len()..count {
            rows.push_reserved(SlotRow::Free);
        }
    }
}

impl Blank for MapRow {
    ghost blank = { pages.Untouched };

    fn blank() -> MapRow {
        MapRow::Untouched
    }

    fn fill(rows: &mut Vec<MapRow>, count: usize) {
        fill_with(rows, count, MapRow::blank());
    }
}

impl Blank for Listing {
    ghost blank = { listings.Unlisted };

    fn blank() -> Listing {
        Listing::Unlisted
    }

    fn fill(rows: &mut Vec<Listing>, count: usize) {
        fill_with(rows, count, Listing::blank());
    }
}

impl Blank for u32 {
    ghost blank = { 0 };

    fn blank() -> u32 {
        0
    }

    fn fill(rows: &mut Vec<u32>, count: usize) {
        fill_with(rows, count, u32::blank());
    }
}
