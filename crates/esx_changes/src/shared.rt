//! Frames that pages share.

ghost use Rattle.std.specs.Prelude.{◌≡◌};
ghost use Rattle.esx_types.specs.Frames.{frame_at, ref_count};

use esx_tables::SiteTables;
use esx_types::FrameRow;

fn count_in(row: &FrameRow) -> u32
    ensures { result ≡ ref_count row.now }
{
    match row {
        FrameRow::Shared { count, .. } => *count,
        FrameRow::Free | FrameRow::Overhead | FrameRow::Private { .. } => 0,
    }
}

/// How many pages share a frame; 0 for a frame that is not shared.
pub fn ref_count(tables: &SiteTables, frame: u32) -> u32
    ensures { result ≡ ref_count (frame_at tables.now.frames frame) }
{
    match tables.frame(frame) {
        Some(row) => count_in(row),
        None => 0,
    }
}
