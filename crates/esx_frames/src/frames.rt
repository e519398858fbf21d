//! The table: its rows, an index of the free ones, and the counts.

ghost use Rattle.std.specs.Prelude.{◌≡◌, ◌≢◌, ◌+◌, ◌^◌, ◌<◌, ◌≤◌, IfOk, IfErr, IfSome, OnErr, IsTrue, Some, None, length, option_copied, replicate, slice_get, slice_index_or, slice_set};
ghost use Rattle.esx_types.specs.declared.table.FrameRow.{FrameRow};
ghost use Rattle.esx_types.specs.declared.table.FrameRow.TheVariants.{Free};
ghost use Rattle.esx_types.specs.Frames.{frame_at, least_frame, bytes_of, holds_bytes, ref_count, with_count};
ghost use Rattle.esx_types.specs.Slots.{held_bytes};
ghost use Rattle.esx_formulas.specs.Key.{content_key};
ghost use Rattle.esx_frames.specs.Counts.{counts_of};
ghost use Rattle.esx_frames.specs.Marks.{bytes_traded_at, mark_traded_at, moves_at, slot_traded_at};

use crate::counts::Counts;
use crate::marks::{Mark, moves, trade_bytes, trade_mark, trade_slot};
use crate::seen::{Seen, bytes_of};
use esx_grown::Grown;
use esx_index::FreeIndex;
use esx_known::KnownKeys;
use esx_types::{FrameRow, SlotRow, SmallBytes};
use std::alloc::{AllocError, Global};
use std::marker::Model;
use std::mem;

/// The machine's frames, seen as the list of their rows; a frame's number is its place.
///
/// The room for all rows is taken by `new`, which touches none of it: the first change of a frame's row writes the rows
/// below it that were never written. No later call takes memory but `learn_key`, which goes on without it. It and
/// `found_key` go over the bytes of a page or two; but for such first changes, each other call looks at a few words
/// whatever the number of frames.
#[derive(Drop)]
pub struct FrameTable {
    rows: Grown<FrameRow>,
    free: FreeIndex,
    counts: Counts,
    known: KnownKeys,
    seen: Seen,
}

impl Model for FrameTable {
    ghost use Rattle.std.specs.Prelude.{List};
    ghost use Rattle.esx_types.specs.declared.table.FrameRow.{FrameRow};
    ghost use Rattle.esx_frames.specs.Known.{IsKeyed};

    ghost Value = { List FrameRow };

    ghost view = { λ a. a.rows };

    ghost invariant = { λ a. IsKeyed a.rows a.free a.counts a.known };
}

impl FrameTable {
    /// A table of that many frames, all of them free. It takes the memory of all rows, and touches none of them. A row
    /// brings its own bytes, so the size of a page does not matter to an empty table.
    pub fn new(alloc: Global, frames: u32, _page: u32) -> Result<FrameTable, AllocError>
        ensures { IfOk result (λ table. table ≡ replicate frames Free) }
    {
        let free = FreeIndex::new(alloc, frames as usize)?;
        let rows = Grown::new(alloc, frames as usize)?;
        let counts = Counts {
            overhead: 0,
            private: 0,
            shared: 0,
            free: frames,
        };
        Ok(FrameTable {
            rows,
            free,
            counts,
            known: KnownKeys::new(alloc),
            seen: Seen::new(alloc),
        })
    }

    /// How many frames there are.
    pub fn len(&self) -> u32
        ensures { result ≡ length self.now }
    {
        self.rows.len() as u32
    }

    /// The row of a frame; none past the end.
    pub fn get(&self, mpn: u32) -> Option<&FrameRow>
        ensures { option_copied result ≡ slice_get self.now mpn }
    {
        self.rows.get(mpn as usize)
    }

    /// The bytes of the page in a frame.
    pub fn bytes(&self, mpn: u32) -> &[u8]
        requires in_range { mpn < length self.now }
        requires holds { IsTrue (holds_bytes (frame_at self.now mpn)) }
        ensures { result.now ≡ bytes_of (frame_at self.now mpn) }
    {
        match self.rows.row(mpn as usize) {
            FrameRow::Private { bytes } => bytes.as_slice(),
            FrameRow::Shared { bytes, .. } => bytes.as_slice(),
            FrameRow::Free | FrameRow::Overhead => unreachable!(),
        }
    }

    /// The key of the page in a frame, where it is kept.
    pub fn known_key(&self, mpn: u32) -> Option<u64>
        ensures { IfSome result (λ key. key ≡ content_key (bytes_of (frame_at self.now mpn))) }
    {
        self.known.get(mpn)
    }

    /// The key of the page in a frame, where it is kept, or where that of a page with the same bytes is found.
    pub fn found_key(&self, mpn: u32) -> Option<u64>
        ensures { IfSome result (λ key. key ≡ content_key (bytes_of (frame_at self.now mpn))) }
    {
        if let Some(key) = self.known.get(mpn) {
            return Some(key);
        }
        let at = mpn as usize;
        let row = self.rows.get(at)?;
        self.seen.find(&self.rows, &self.known, bytes_of(row))
    }

    /// Keeps the key of a private page until its bytes change. It may take memory; where that is refused the key is not
    /// kept.
    pub fn learn_key(&mut self, mpn: u32)
        ensures { self.new ≡ self.old }
    {
        if self.known.get(mpn).is_some() {
            return;
        }
        let at = mpn as usize;
        if let Some(FrameRow::Private { bytes }) = self.rows.get(at) {
            if self.known.make_room(mpn) {
                let key = self
                    .seen
                    .key(&self.rows, &self.known, mpn, bytes.as_slice());
                self.known.keep(mpn, key);
            }
        }
    }

    /// How many frames there are of each kind.
    pub fn counts(&self) -> Counts
        ensures { result ≡ counts_of self.now }
    {
        self.counts
    }

    /// The least frame that is free; none where no frame is.
    pub fn least_free(&self) -> Option<u32>
        ensures { result ≡ least_frame self.now }
    {
        let mpn = self.free.least()?;
        Some(mpn as u32)
    }

    /// Puts a row into the least free frame. Where no frame is free the row comes back.
    pub fn take_least(&mut self, mut row: FrameRow) -> Result<u32, FrameRow>
        requires { row ≢ FrameRow.Free }

        // On `Ok` the row stands in the least free frame.
        ensures least { IfOk result (λ mpn. least_frame self.old ≡ Some mpn) }
        ensures rows { IfOk result (λ mpn. self.new ≡ slice_set self.old mpn row) }

        // Where no frame is free the row comes back, and nothing has changed.
        ensures full { OnErr result (least_frame self.old ≡ None) }
        ensures back { IfErr result (λ back. back ≡ row) }
        ensures unchanged { OnErr result (self.new ≡ self.old) }
    {
        let Some(mpn) = self.least_free() else {
            return Err(row);
        };
        self.swap_row(mpn, &mut row);
        Ok(mpn)
    }

    /// Exchanges a frame's row with the one that is handed over.
    pub fn swap_row(&mut self, mpn: u32, row: &mut FrameRow)
        requires { mpn < length self.old }
        ensures rows { self.new ≡ slice_set self.old mpn row.old }
        ensures row { row.new ≡ frame_at self.old mpn }
    {
        let at = mpn as usize;
        let there = self.rows.row_mut(at);
        self.counts.remove(there);
        self.counts.add(row);
        let free = row.is_free();
        if free != there.is_free() {
            self.free.set(at, free);
        }
        self.known.forget(mpn);
        mem::swap(there, row);
    }

    /// Trades a frame's row with the one that is handed over. Past the end nothing changes.
    pub fn trade(&mut self, mpn: u32, row: &mut FrameRow)
        ensures rows { self.new ≡ slice_set self.old mpn row.old }
        ensures row { row.new ≡ slice_index_or self.old mpn row.old }
    {
        if mpn < self.len() {
            self.swap_row(mpn, row);
        }
    }

    /// Trades bytes with as many of the page in a frame, from byte `offset` on. Where no page is, or
    /// where they do not fit, nothing changes.
    pub fn trade_bytes(&mut self, mpn: u32, offset: u32, bytes: &mut SmallBytes)
        ensures rows { self.new ≡ (bytes_traded_at mpn offset self.old bytes.old).0 }
        ensures bytes { bytes.new ≡ (bytes_traded_at mpn offset self.old bytes.old).1 }
    {
        if mpn < self.len() {
            self.known.forget(mpn);
            trade_bytes(self.rows.row_mut(mpn as usize), offset as usize, bytes);
        }
    }

    /// Trades the mark of a page in a frame, and leaves its bytes. Where no page is nothing changes.
    pub fn trade_mark(&mut self, mpn: u32, mark: &mut Mark)
        ensures rows { self.new ≡ (mark_traded_at mpn self.old mark.old).0 }
        ensures mark { mark.new ≡ (mark_traded_at mpn self.old mark.old).1 }
    {
        let at = mpn as usize;
        if at < self.rows.len() {
            let there = self.rows.row_mut(at);
            self.counts.remove(there);
            trade_mark(there, mark);
            self.counts.add(there);
        }
    }

    /// Trades the page of a private frame, or none, for the page of a slot, or none, and copies no
    /// byte. Where the frame is overhead or shared, and past the end, nothing changes.
    pub fn trade_slot(&mut self, mpn: u32, slot: &mut SlotRow)
        ensures rows { self.new ≡ (slot_traded_at mpn self.old slot.old).0 }
        ensures slot { slot.new ≡ (slot_traded_at mpn self.old slot.old).1 }
    {
        let _moved = self.move_pages(mpn, slot);
    }

    /// The same, and the keys go along with their pages: `key` is that of the page of the slot, where it is kept, and what
    /// comes back is that of the page that is in the slot then.
    pub fn trade_slot_and_key(
        &mut self,
        mpn: u32,
        slot: &mut SlotRow,
        key: Option<u64>,
    ) -> Option<u64>
        requires { IfSome key (λ key. key ≡ content_key (held_bytes slot.old)) }
        ensures rows { self.new ≡ (slot_traded_at mpn self.old slot.old).0 }
        ensures slot { slot.new ≡ (slot_traded_at mpn self.old slot.old).1 }
        ensures key { IfSome result (λ key. key ≡ content_key (held_bytes slot.new)) }
    {
        let kept = self.known_key(mpn);
        if !self.move_pages(mpn, slot) {
            return key;
        }
        if let Some(key) = key {
            self.keep_key(mpn, key);
        }
        kept
    }

    /// The same trade, and whether it moved the page of the frame, or none, and that of the slot. The row stays in its place,
    /// and where nothing moves no row is touched.
    fn move_pages(&mut self, mpn: u32, slot: &mut SlotRow) -> bool
        ensures rows { self.new ≡ (slot_traded_at mpn self.old slot.old).0 }
        ensures slot { slot.new ≡ (slot_traded_at mpn self.old slot.old).1 }
        ensures moved { result ≡ moves_at mpn self.old }
    {
        if !self.moves_at(mpn) {
            return false;
        }
        let at = mpn as usize;
        let there = self.rows.row_mut(at);
        let was = there.is_free();
        self.counts.remove(there);
        trade_slot(there, slot);
        self.counts.add(there);
        let is = there.is_free();
        if is != was {
            self.free.set(at, is);
        }
        self.known.forget(mpn);
        true
    }

    /// Does a trade with a slot move pages there?
    fn moves_at(&self, mpn: u32) -> bool
        ensures { result ≡ moves_at mpn self.now }
    {
        match self.get(mpn) {
            Some(row) => moves(row),
            None => false,
        }
    }

    /// Keeps the key of the page in a frame, where there is room for it.
    fn keep_key(&mut self, mpn: u32, key: u64)
        requires { key ≡ content_key (bytes_of (frame_at self.old mpn)) }
        ensures { self.new ≡ self.old }
    {
        self.known.keep(mpn, key);
    }

    /// Counts one more page that is mapped to a shared frame.
    pub fn add_ref(&mut self, mpn: u32)
        requires in_range { mpn < length self.old }
        requires shared { 1 ≤ ref_count (frame_at self.old mpn) }
        requires room { ref_count (frame_at self.old mpn) + 1 < 2 ^ 32 }
        ensures { let row = frame_at self.old mpn in
            self.new ≡ slice_set self.old mpn (with_count row (ref_count row + 1)) }
    {
        match self.rows.row_mut(mpn as usize) {
            FrameRow::Shared { count, .. } => *count += 1,
            _ => unreachable!(),
        }
    }

    /// Counts one page less, and gives the new count. At 0 the caller frees the frame by `swap_row`.
    pub fn drop_ref(&mut self, mpn: u32) -> u32
        requires in_range { mpn < length self.old }
        requires shared { 1 ≤ ref_count (frame_at self.old mpn) }
        ensures count { result + 1 ≡ ref_count (frame_at self.old mpn) }
        ensures rows { self.new ≡ slice_set self.old mpn (with_count (frame_at self.old mpn) result) }
    {
        match self.rows.row_mut(mpn as usize) {
            FrameRow::Shared { count, .. } => {
                let left = *count - 1;
                *count = left;
                left
            }
            _ => unreachable!(),
        }
    }
}

#[cfg(test)]
mod tests {
    use super::*;
    use esx_formulas::content_key;
    use esx_types::Bytes;
    use std::test::Fail;

    #[test]
    fn takes_the_frames_in_order(rt: HostRuntime) -> Result<(), Fail> {
        let mut table = FrameTable::new(rt.alloc(), 2, 16)?;
        assert_eq!(rt; table.take_least(FrameRow::Overhead).ok(), Some(0));
        assert_eq!(rt; table.take_least(FrameRow::Overhead).ok(), Some(1));
        assert!(rt; table.take_least(FrameRow::Overhead).is_err());
        assert_eq!(rt;
            table.counts(),
            Counts {
                overhead: 2,
                private: 0,
                shared: 0,
                free: 0
            }
        );
        Ok(())
    }

    #[test]
    fn counts_the_pages_of_a_shared_frame(rt: HostRuntime) -> Result<(), Fail> {
        let mut table = FrameTable::new(rt.alloc(), 1, 16)?;
        let bytes = Bytes::from_vec(vec![in rt.alloc(); 7; 16]?);
        let mut row = FrameRow::Shared {
            count: 16777215,
            bytes,
        };
        table.swap_row(0, &mut row);
        table.add_ref(0);
        assert_eq!(rt; table.bytes(0), [7; 16].as_slice());
        assert_eq!(rt; table.drop_ref(0), 16777215);
        Ok(())
    }

    #[test]
    fn trades_inside_a_frame(rt: HostRuntime) -> Result<(), Fail> {
        let mut table = FrameTable::new(rt.alloc(), 2, 16)?;
        let bytes = Bytes::from_vec(vec![in rt.alloc(); 7; 16]?);
        let mut slot = SlotRow::Held { bytes };
        table.trade_slot(1, &mut slot);
        assert!(rt; slot.is_empty());
        assert_eq!(rt; table.counts().private, 1);
        let mut mark = Mark::Shared { count: 2 };
        table.trade_mark(1, &mut mark);
        assert_eq!(rt; mark, Mark::Private);
        assert_eq!(rt; table.counts().shared, 1);
        let mut bytes = SmallBytes::copy_of(rt.alloc(), &[9; 2])?;
        table.trade_bytes(1, 14, &mut bytes);
        assert_eq!(rt; bytes.as_slice(), [7; 2].as_slice());
        let mut row = FrameRow::Free;
        table.trade(1, &mut row);
        assert!(rt; row.is_shared());
        assert_eq!(rt; table.counts().free, 2);
        assert_eq!(rt; table.len(), 2);
        assert!(rt; table.get(2).is_none());
        Ok(())
    }

    #[test]
    fn trades_more_bytes_than_stand_in_place(rt: HostRuntime) -> Result<(), Fail> {
        let mut table = FrameTable::new(rt.alloc(), 1, 32)?;
        let bytes = Bytes::from_vec(vec![in rt.alloc(); 7; 32]?);
        table.trade(0, &mut FrameRow::Private { bytes });
        let nines = Bytes::from_vec(vec![in rt.alloc(); 9; 24]?);
        let mut bytes = SmallBytes::from_bytes(rt.alloc(), nines)?;
        table.trade_bytes(0, 8, &mut bytes);
        assert_eq!(rt; bytes.copy()?.as_slice(), [7; 24].as_slice());
        let mut few = SmallBytes::copy_of(rt.alloc(), &[3; 22])?;
        table.trade_bytes(0, 9, &mut few);
        assert_eq!(rt; few.copy()?.as_slice(), [9; 22].as_slice());
        Ok(())
    }

    #[test]
    fn rows_that_no_call_used_are_free(rt: HostRuntime) -> Result<(), Fail> {
        let mut table = FrameTable::new(rt.alloc(), 5, 16)?;
        assert_eq!(rt; table.len(), 5);
        assert!(rt; table.get(4).is_some_and(|row| row.is_free()));
        let mut row = FrameRow::Overhead;
        table.trade(2, &mut row);
        assert!(rt; row.is_free());
        for mpn in 0..5 {
            let free = mpn != 2;
            assert!(rt; table.get(mpn).is_some_and(|row| row.is_free() == free));
        }
        assert!(rt; table.get(5).is_none());
        assert_eq!(rt; table.counts().free, 4);
        assert_eq!(rt; table.least_free(), Some(0));
        Ok(())
    }

    #[test]
    fn keys_are_those_of_the_bytes(rt: HostRuntime) -> Result<(), Fail> {
        let mut table = FrameTable::new(rt.alloc(), 8, 16)?;
        for seed in 0..8u8 {
            let mpn = u32::from(7 - seed);
            let bytes = Bytes::from_vec(vec![in rt.alloc(); 31 * seed; 16]?);
            table.trade(mpn, &mut FrameRow::Private { bytes });
            table.learn_key(mpn);
            assert_eq!(rt; table.known_key(mpn), Some(content_key(&[31 * seed; 16])));
        }
        assert_eq!(rt; table.known_key(8), None);
        Ok(())
    }

    #[test]
    fn a_key_goes_along_with_its_page(rt: HostRuntime) -> Result<(), Fail> {
        let mut table = FrameTable::new(rt.alloc(), 2, 4)?;
        let bytes = Bytes::from_vec(vec![in rt.alloc(); 7; 4]?);
        table.trade(1, &mut FrameRow::Private { bytes });
        table.learn_key(1);
        let mut slot = SlotRow::Free;
        let key = table.trade_slot_and_key(1, &mut slot, None);
        assert_eq!(rt; key, Some(content_key(&[7; 4])));
        assert_eq!(rt; table.known_key(1), None);
        let key = table.trade_slot_and_key(0, &mut slot, key);
        assert_eq!(rt; key, None);
        assert_eq!(rt; table.known_key(0), Some(content_key(&[7; 4])));

        let mut mark = Mark::Shared { count: 2 };
        table.trade_mark(0, &mut mark);
        let key = table.trade_slot_and_key(0, &mut slot, None);
        assert_eq!(rt; key, None);
        assert!(rt; slot.is_empty());
        Ok(())
    }

    #[test]
    fn keeps_a_key_until_the_bytes_change(rt: HostRuntime) -> Result<(), Fail> {
        let mut table = FrameTable::new(rt.alloc(), 3, 4)?;
        let bytes = Bytes::from_vec(vec![in rt.alloc(); 7; 4]?);
        table.trade(1, &mut FrameRow::Private { bytes });
        assert_eq!(rt; table.known_key(1), None);
        table.learn_key(1);
        assert_eq!(rt; table.known_key(1), Some(content_key(&[7; 4])));
        assert_eq!(rt; table.known_key(0), None);

        let mut mark = Mark::Shared { count: 2 };
        table.trade_mark(1, &mut mark);
        assert_eq!(rt; table.known_key(1), Some(content_key(&[7; 4])));
        table.trade_mark(1, &mut mark);

        let mut bytes = SmallBytes::copy_of(rt.alloc(), &[9])?;
        table.trade_bytes(1, 3, &mut bytes);
        assert_eq!(rt; table.known_key(1), None);
        table.learn_key(1);
        assert_eq!(rt; table.known_key(1), Some(content_key(&[7, 7, 7, 9])));

        let bytes = Bytes::from_vec(vec![in rt.alloc(); 3; 4]?);
        table.trade_slot(1, &mut SlotRow::Held { bytes });
        assert_eq!(rt; table.known_key(1), None);
        table.learn_key(1);
        assert_eq!(rt; table.known_key(1), Some(content_key(&[3; 4])));

        table.trade(1, &mut FrameRow::Free);
        table.learn_key(1);
        assert_eq!(rt; table.known_key(1), None);
        table.learn_key(3);
        assert_eq!(rt; table.known_key(3), None);
        Ok(())
    }
}
