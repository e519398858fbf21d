//! The table: its rows, an index of the free ones, and their number.

ghost use Rattle.std.specs.Prelude.{◌≡◌, ◌<◌, IfOk, IfSome, count_by, length, option_copied, replicate, slice_get, slice_index_or, slice_set};
ghost use Rattle.esx_types.specs.declared.table.SlotRow.{SlotRow};
ghost use Rattle.esx_types.specs.declared.table.SlotRow.TheVariants.{Free};
ghost use Rattle.esx_types.specs.Slots.{held_bytes, is_empty, slot_at, least_slot};
ghost use Rattle.esx_formulas.specs.Key.{content_key};

use esx_grown::Grown;
use esx_index::FreeIndex;
use esx_known::KnownKeys;
use esx_lists::recount;
use esx_types::SlotRow;
use std::alloc::{AllocError, Global};
use std::marker::Model;
use std::mem;

/// The swap slots, seen as the list of their rows; a slot's number is its place.
///
/// The room for all rows is taken by `new`, which touches none of it: the first change of a slot's row writes the rows
/// below it that were never written. No later call takes memory but `make_key_room`, which goes on without it. But for
/// such first changes, each call looks at a few words whatever the number of slots.
#[derive(Drop)]
pub struct Slots {
    rows: Grown<SlotRow>,
    free: FreeIndex,
    count: u32,
    known: KnownKeys,
}

impl Model for Slots {
    ghost use Rattle.std.specs.Prelude.{List};
    ghost use Rattle.esx_types.specs.declared.table.SlotRow.{SlotRow};
    ghost use Rattle.esx_swap.specs.Known.{IsKeyed};

    ghost Value = { List SlotRow };

    ghost view = { λ a. a.rows };

    ghost invariant = { λ a. IsKeyed a.rows a.free a.count a.known };
}

impl Slots {
    /// That many slots, all of them free.
    pub fn new(alloc: Global, slots: u32) -> Result<Slots, AllocError>
        ensures { IfOk result (λ table. table ≡ replicate slots Free) }
    {
        let len = slots as usize;
        Ok(Slots {
            rows: Grown::new(alloc, len)?,
            free: FreeIndex::new(alloc, len)?,
            count: slots,
            known: KnownKeys::new(alloc),
        })
    }

    /// How many slots there are.
    pub fn len(&self) -> u32
        ensures { result ≡ length self.now }
    {
        self.rows.len() as u32
    }

    /// How many slots are free.
    pub fn free(&self) -> u32
        ensures { result ≡ count_by is_empty self.now }
    {
        self.count
    }

    /// The row of a slot; none past the end.
    pub fn get(&self, slot: u32) -> Option<&SlotRow>
        ensures { option_copied result ≡ slice_get self.now slot }
    {
        self.rows.get(slot as usize)
    }

    /// The key of the page in a slot, where it is kept.
    pub fn known_key(&self, slot: u32) -> Option<u64>
        ensures { IfSome result (λ key. key ≡ content_key (held_bytes (slot_at self.now slot))) }
    {
        self.known.get(slot)
    }

    /// Makes room for the key of the page in a slot. It may take memory; where that is refused no key is kept there.
    pub fn make_key_room(&mut self, slot: u32)
        ensures { self.new ≡ self.old }
    {
        if slot < self.len() {
            let _has_room = self.known.make_room(slot);
        }
    }

    /// Keeps the key of the page in a slot until its row changes, where there is room for it.
    pub fn keep_key(&mut self, slot: u32, key: u64)
        requires { key ≡ content_key (held_bytes (slot_at self.old slot)) }
        ensures { self.new ≡ self.old }
    {
        self.known.keep(slot, key);
    }

    /// The least slot that is free; none where no slot is.
    pub fn least_free(&self) -> Option<u32>
        ensures { result ≡ least_slot self.now }
    {
        let slot = self.free.least()?;
        Some(slot as u32)
    }

    /// Exchanges a slot's row with the one that is handed over.
    pub fn swap_row(&mut self, slot: u32, row: &mut SlotRow)
        requires { slot < length self.old }
        ensures rows { self.new ≡ slice_set self.old slot row.old }
        ensures row { row.new ≡ slot_at self.old slot }
    {
        let at = slot as usize;
        let there = self.rows.row_mut(at);
        let was = there.is_empty();
        let is = row.is_empty();
        mem::swap(there, row);
        recount(&mut self.count, was, is);
        if is != was {
            self.free.set(at, is);
        }
        self.known.forget(slot);
    }

    /// Trades a slot's row with the one that is handed over. Past the end nothing changes.
    pub fn trade(&mut self, slot: u32, row: &mut SlotRow)
        ensures rows { self.new ≡ slice_set self.old slot row.old }
        ensures row { row.new ≡ slice_index_or self.old slot row.old }
    {
        if slot < self.len() {
            self.swap_row(slot, row);
        }
    }
}

#[cfg(test)]
mod tests {
    use super::*;
    use esx_formulas::content_key;
    use esx_types::Bytes;
    use std::test::Fail;

    #[test]
    fn holds_a_page_in_the_least_slot(rt: HostRuntime) -> Result<(), Fail> {
        let mut slots = Slots::new(rt.alloc(), 2)?;
        let bytes = Bytes::from_vec(vec![in rt.alloc(); 7; 16]?);
        let mut row = SlotRow::Held { bytes };
        slots.swap_row(0, &mut row);
        assert_eq!(rt; slots.least_free(), Some(1));
        slots.swap_row(0, &mut row);
        assert_eq!(rt; slots.least_free(), Some(0));
        Ok(())
    }

    #[test]
    fn trades_and_counts(rt: HostRuntime) -> Result<(), Fail> {
        let mut slots = Slots::new(rt.alloc(), 2)?;
        let bytes = Bytes::from_vec(vec![in rt.alloc(); 7; 16]?);
        let mut row = SlotRow::Held { bytes };
        slots.trade(2, &mut row);
        assert_eq!(rt; slots.free(), 2);
        slots.trade(1, &mut row);
        assert!(rt; row.is_empty());
        assert_eq!(rt; slots.free(), 1);
        assert_eq!(rt; slots.len(), 2);
        assert!(rt; slots.get(0).is_some_and(SlotRow::is_empty));
        assert!(rt; slots.get(1).is_some());
        assert!(rt; slots.get(2).is_none());
        Ok(())
    }

    #[test]
    fn keeps_a_key_until_the_row_changes(rt: HostRuntime) -> Result<(), Fail> {
        let mut slots = Slots::new(rt.alloc(), 3)?;
        let bytes = Bytes::from_vec(vec![in rt.alloc(); 7; 16]?);
        let key = content_key(bytes.as_slice());
        let mut row = SlotRow::Held { bytes };
        slots.trade(1, &mut row);
        slots.keep_key(1, key);
        assert_eq!(rt; slots.known_key(1), None);

        slots.make_key_room(1);
        slots.keep_key(1, key);
        assert_eq!(rt; slots.known_key(1), Some(key));
        assert_eq!(rt; slots.known_key(0), None);
        slots.make_key_room(3);
        assert_eq!(rt; slots.known_key(1), Some(key));

        slots.trade(1, &mut row);
        assert_eq!(rt; slots.known_key(1), None);
        slots.trade(1, &mut row);
        assert_eq!(rt; slots.known_key(1), None);
        Ok(())
    }
}
