//! Changes that are made, each in trade for what stood in its place.

ghost use Rattle.std.specs.Prelude.{◌≡◌, ◌<◌, IfSome, length, not, reverse, slice_set};
ghost use Rattle.esx_types.specs.Slots.{held_bytes, is_empty, slot_at};
ghost use Rattle.esx_formulas.specs.Key.{content_key};
ghost use Rattle.esx_tables.specs.Changes.{slots_traded, traded, exchanged, in_order};
ghost use Rattle.esx_tables.specs.declared.change.Change.TheVariants.{FrameAt, MarkAt, BytesAt, ListingAt, FrameWithSlot, OfVm};
ghost use Rattle.esx_tables.specs.declared.change.VmPart.TheVariants.{PageAt};

use crate::change::Change;
use crate::record::Record;
use crate::tables::SiteTables;
use esx_frames::{FrameTable, Mark};
use esx_swap::Slots;
use esx_types::{FrameRow, Listing, MapRow, SlotRow, SmallBytes, VmId};

impl SiteTables {
    /// Makes a change, and leaves in it what leads back. Where there is no such place nothing changes.
    #[tactic(auto, unfolding(crate::specs::Changes::traded))]
    pub fn trade(&mut self, change: &mut Change)
        ensures tables { self.new ≡ (traded self.old change.old).0 }
        ensures change { change.new ≡ (traded self.old change.old).1 }
    {
        match change {
            Change::FrameAt { frame, row } => self.trade_frame(*frame, row),
            Change::MarkAt { frame, mark } => self.trade_mark(*frame, mark),
            Change::BytesAt {
                frame,
                offset,
                bytes,
            } => self.trade_bytes(*frame, *offset, bytes),
            Change::ListingAt { frame, listing } => self.trade_listing(*frame, listing),
            Change::SlotAt { slot, row } => self.slots.trade(*slot, row),
            Change::FrameWithSlot { frame, slot } => self.trade_frame_with_slot(*frame, *slot),
            Change::OfVm { vm, part } => self.vms.trade_part(usize::from(vm.number()), part),
            Change::VmAt { vm, row } => self.vms.trade(usize::from(vm.number()), row),
            Change::TaxIs { tau } => std::mem::swap(&mut self.tau, tau),
        }
    }

    /// Trades the row of a frame. Where there is no such frame nothing changes.
    #[tactic(auto, unfolding(crate::specs::Changes::traded))]
    pub fn trade_frame(&mut self, frame: u32, row: &mut FrameRow)
        ensures tables { self.new ≡ (traded self.old (FrameAt frame row.old)).0 }
        ensures row { FrameAt frame row.new ≡ (traded self.old (FrameAt frame row.old)).1 }
    {
        self.prints.touch(frame);
        self.frames.trade(frame, row);
    }

    /// Trades the mark of a page in a frame. Where no page is nothing changes.
    #[inline(always)]
    #[tactic(auto, unfolding(crate::specs::Changes::traded))]
    fn trade_mark(&mut self, frame: u32, mark: &mut Mark)
        ensures tables { self.new ≡ (traded self.old (MarkAt frame mark.old)).0 }
        ensures mark { MarkAt frame mark.new ≡ (traded self.old (MarkAt frame mark.old)).1 }
    {
        self.prints.touch(frame);
        self.frames.trade_mark(frame, mark);
    }

    /// Trades bytes of a page in a frame. Where no page is, or where they do not fit, nothing changes.
    #[inline(always)]
    #[tactic(auto, unfolding(crate::specs::Changes::traded))]
    fn trade_bytes(&mut self, frame: u32, offset: u32, bytes: &mut SmallBytes)
        ensures tables { self.new ≡ (traded self.old (BytesAt frame offset bytes.old)).0 }
        ensures bytes { BytesAt frame offset bytes.new ≡ (traded self.old (BytesAt frame offset bytes.old)).1 }
    {
        self.prints.touch(frame);
        self.frames.trade_bytes(frame, offset, bytes);
    }

    /// Trades what a frame stands under. Where there is no such frame nothing changes.
    #[tactic(auto, unfolding(crate::specs::Changes::traded))]
    pub fn trade_listing(&mut self, frame: u32, listing: &mut Listing)
        ensures tables { self.new ≡ (traded self.old (ListingAt frame listing.old)).0 }
        ensures listing { ListingAt frame listing.new ≡ (traded self.old (ListingAt frame listing.old)).1 }
    {
        self.prints.touch(frame);
        self.listings.trade(frame, listing);
    }

    /// Trades the page of a private frame, or none, for that of a slot, or none. Where there is no such frame or slot
    /// nothing changes.
    #[tactic(auto, unfolding(crate::specs::Changes::traded))]
    pub fn trade_frame_with_slot(&mut self, frame: u32, slot: u32)
        ensures tables { self.new ≡ (traded self.old (FrameWithSlot frame slot)).0 }
        ensures change { FrameWithSlot frame slot ≡ (traded self.old (FrameWithSlot frame slot)).1 }
    {
        self.prints.touch(frame);
        trade_slots(&mut self.frames, &mut self.slots, frame, slot);
    }

    /// Trades where a page of a machine is. Where there is no such page nothing changes.
    #[tactic(auto, unfolding(crate::specs::Changes::traded))]
    pub fn trade_page(&mut self, vm: VmId, page: u32, row: &mut MapRow)
        ensures tables { self.new ≡ (traded self.old (OfVm vm (PageAt page row.old))).0 }
        ensures row { OfVm vm (PageAt page row.new) ≡ (traded self.old (OfVm vm (PageAt page row.old))).1 }
    {
        self.vms.trade_page(usize::from(vm.number()), page, row);
    }

    /// Makes the changes of a record in turn, and leaves what leads back. It takes no memory.
    pub fn exchange(&mut self, back: &mut Record)
        ensures tables { self.new ≡ (exchanged self.old back.old).0 }
        ensures back { back.new ≡ (exchanged self.old back.old).1 }
    {
        self.exchange_from(back, false);
        back.changes.reverse();
    }

    /// Makes the changes of a record in turn, from its front or from its end, and leaves what leads back
    /// from the other. No change moves in the record, and no memory is taken.
    pub fn exchange_from(&mut self, back: &mut Record, at_end: bool)
        ensures tables { self.new ≡ (exchanged self.old (in_order at_end back.old)).0 }
        ensures back { in_order (not at_end) back.new ≡ (exchanged self.old (in_order at_end back.old)).1 }
    {
        if at_end {
            self.make_from_end(&mut back.changes);
        } else {
            self.make_from_front(&mut back.changes);
        }
    }

    /// Makes changes from the first to the last, and leaves each where it stood.
    #[tactic(auto, unfolding(crate::specs::Changes::exchanged))]
    fn make_from_front(&mut self, changes: &mut Vec<Change>)
        ensures tables { self.new ≡ (exchanged self.old changes.old.items).0 }
        ensures changes { reverse changes.new.items ≡ (exchanged self.old changes.old.items).1 }
    {
        for i in 0..changes.len() {
            self.trade(&mut changes[i]);
        }
    }

    /// Makes changes from the last to the first, and leaves each where it stood.
    #[tactic(auto, unfolding(crate::specs::Changes::exchanged))]
    fn make_from_end(&mut self, changes: &mut Vec<Change>)
        ensures tables { self.new ≡ (exchanged self.old (reverse changes.old.items)).0 }
        ensures changes { changes.new.items ≡ (exchanged self.old (reverse changes.old.items)).1 }
    {
        for i in (0..changes.len()).rev() {
            self.trade(&mut changes[i]);
        }
    }
}

/// Trades the page of a private frame, or none, for that of a slot, or none; the keys that are kept go along. Where there
/// is no such frame or slot nothing changes.
#[tactic(auto, unfolding(crate::specs::Changes::slots_traded))]
fn trade_slots(frames: &mut FrameTable, slots: &mut Slots, frame: u32, slot: u32)
    ensures frames { frames.new ≡ (slots_traded frame slot frames.old slots.old).0 }
    ensures slots { slots.new ≡ (slots_traded frame slot frames.old slots.old).1 }
{
    if slot < slots.len() {
        let key = slots.known_key(slot);
        let mut row = take_row(slots, slot);
        let key = frames.trade_slot_and_key(frame, &mut row, key);
        put_row(slots, slot, &mut row);
        keep_key(slots, slot, key);
    }
}

/// Takes the page of a slot, or none. A slot that is free is not touched.
fn take_row(slots: &mut Slots, slot: u32) -> SlotRow
    requires { slot < length slots.old }
    ensures slots { slots.new ≡ slice_set slots.old slot SlotRow.Free }
    ensures row { result ≡ slot_at slots.old slot }
{
    let mut row = SlotRow::Free;
    if holds_page(slots, slot) {
        slots.swap_row(slot, &mut row);
    }
    row
}

/// Does a slot hold a page?
fn holds_page(slots: &Slots, slot: u32) -> bool
    requires { slot < length slots.now }
    ensures { result ≡ not (is_empty (slot_at slots.now slot)) }
{
    match slots.get(slot) {
        Some(row) => !row.is_empty(),
        None => false,
    }
}

/// Puts a page, or none, into a free slot.
fn put_row(slots: &mut Slots, slot: u32, row: &mut SlotRow)
    requires there { slot < length slots.old }
    requires free { slot_at slots.old slot ≡ SlotRow.Free }
    ensures { slots.new ≡ slice_set slots.old slot row.old }
{
    if !row.is_empty() {
        slots.swap_row(slot, row);
    }
}

/// Keeps the key of the page in a slot, where one is handed over.
fn keep_key(slots: &mut Slots, slot: u32, key: Option<u64>)
    requires { IfSome key (λ key. key ≡ content_key (held_bytes (slot_at slots.old slot))) }
    ensures { slots.new ≡ slots.old }
{
    if let Some(key) = key {
        slots.keep_key(slot, key);
    }
}
