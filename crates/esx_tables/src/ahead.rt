//! Rows that are read ahead of a call, so that they are near when it comes.

use crate::tables::SiteTables;
use esx_types::{MapRow, VmId};

impl SiteTables {
    /// Reads where a page is, any page of any number. What it gives is for `look_at` alone: the page's frame, or
    /// `u32::MAX`, which no site has, where it is in none.
    #[inline(always)]
    pub fn look_for(&self, vm: VmId, page: u32) -> u32 {
        let Some(row) = self.vm(vm) else {
            return u32::MAX;
        };
        match row.page(page) {
            MapRow::Here { frame } => frame,
            _ => u32::MAX,
        }
    }

    /// Reads the row of a frame, and the byte of its page that stands so many bytes behind its first, or 0 where there is
    /// none: any numbers may be asked for. What it gives means nothing: it is there so that nobody leaves the reads out.
    #[inline(always)]
    pub fn look_at(&self, frame: u32, at: u32) -> u8 {
        self.bytes(frame).get(at as usize).copied().unwrap_or(0)
    }
}
