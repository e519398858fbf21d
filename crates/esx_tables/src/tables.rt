//! The tables, as they are opened and read.

ghost use Rattle.std.specs.Prelude.{◌≡◌, ◌<◌, ◌≤◌, ℕ, true, IfOk, MatchOption, None, Some, length, option_copied, slice_get, sum_by};
ghost use Rattle.std.specs.List.{position_from};
ghost use Rattle.esx_types.specs.declared.config.TheConstants.{VM_NUMBERS};
ghost use Rattle.esx_types.specs.declared.table.Listing.TheVariants.{Unlisted};
ghost use Rattle.esx_types.specs.Frames.{frame_at, least_frame, bytes_of};
ghost use Rattle.esx_types.specs.Slots.{slot_at, least_slot, held_bytes};
ghost use Rattle.esx_types.specs.Listings.{listing_at, is_shared_under, is_hinted_under};
ghost use Rattle.esx_formulas.specs.Key.{content_key};
ghost use Rattle.esx_frames.specs.Counts.{counts_of};
ghost use Rattle.esx_model.specs.Replay.{opening};
ghost use Rattle.esx_model.specs.Tables.{tables_of};
ghost use Rattle.esx_tables.specs.Readings.{row_at, empty_tables};
ghost use Rattle.esx_tables.specs.Promised.{memory_of, swap_of, most_of_all, AreUsed};

use crate::machines::Machines;
use crate::vm_table::VmTable;
use esx_formulas::content_key;
use esx_frames::{Counts, FrameTable};
use esx_keys::Listings;
use esx_prints::Prints;
use esx_swap::Slots;
use esx_types::{Config, FrameRow, Listing, SlotRow, VmId};
use std::alloc::{AllocError, Global};
use std::marker::Model;

/// Every table of a site, and the idle memory tax.
///
/// No change takes memory but `learn_key`, `make_key_room` and `may_be_listed`, which go on without it; the first one of
/// a high row also writes the rows below it that were never written. A reading of one row, of a count or of the least
/// free frame or slot takes the same time whatever the size of the site.
#[derive(Drop)]
pub struct SiteTables {
    pub(crate) frames: FrameTable,
    pub(crate) slots: Slots,
    pub(crate) vms: Machines,
    pub(crate) listings: Listings,
    pub(crate) tau: u32,
    pub(crate) prints: Prints,
}

impl Model for SiteTables {
    ghost use Rattle.esx_model.specs.declared.tables.Tables.{Tables};

    ghost Value = { Tables };

    ghost view = { λ a. record { frames = a.frames; slots = a.slots; vms = a.vms; listings = a.listings; tau = a.tau } };

    ghost use Rattle.esx_tables.specs.Listed.{AreNoted};

    ghost invariant = { λ a. AreNoted a.frames a.listings a.prints };
}

fn bytes_of(row: &FrameRow) -> &[u8]
    ensures { result.now ≡ bytes_of row.now }
{
    match row {
        FrameRow::Free | FrameRow::Overhead => &[],
        FrameRow::Private { bytes } => bytes.as_slice(),
        FrameRow::Shared { bytes, .. } => bytes.as_slice(),
    }
}

/// The bytes of the page in a frame of a table; none where no page is.
pub(crate) fn bytes_in(frames: &FrameTable, frame: u32) -> &[u8]
    ensures { result.now ≡ bytes_of (frame_at frames.now frame) }
{
    match frames.get(frame) {
        Some(row) => bytes_of(row),
        None => &[],
    }
}

fn held_bytes(row: &SlotRow) -> &[u8]
    ensures { result.now ≡ held_bytes row.now }
{
    match row {
        SlotRow::Free => &[],
        SlotRow::Held { bytes } => bytes.as_slice(),
    }
}

impl SiteTables {
    /// The tables of a site with no machines.
    pub fn open(alloc: Global, config: &Config) -> Result<SiteTables, AllocError>
        ensures rows { IfOk result (λ tables. tables ≡ empty_tables config.now) }
        ensures shows { IfOk result (λ tables. tables ≡ tables_of config.now (opening config.now).site) }
    {
        Ok(SiteTables {
            frames: FrameTable::new(alloc, config.frames, config.page)?,
            slots: Slots::new(alloc, config.slots)?,
            vms: Machines::none(alloc)?,
            listings: Listings::new(alloc, config.frames)?,
            tau: config.tau,
            prints: Prints::new(alloc)?,
        })
    }

    /// How many frames there are.
    pub fn frame_count(&self) -> u32
        ensures { result ≡ length self.now.frames }
    {
        self.frames.len()
    }

    /// How many slots there are.
    pub fn slot_count(&self) -> u32
        ensures { result ≡ length self.now.slots }
    {
        self.slots.len()
    }

    /// How many frames there are of each kind.
    pub fn counts(&self) -> Counts
        ensures { result ≡ counts_of self.now.frames }
    {
        self.frames.counts()
    }

    /// The least frame that is free.
    pub fn least_frame(&self) -> Option<u32>
        ensures { result ≡ least_frame self.now.frames }
    {
        self.frames.least_free()
    }

    /// The least slot that is free.
    pub fn least_slot(&self) -> Option<u32>
        ensures { result ≡ least_slot self.now.slots }
    {
        self.slots.least_free()
    }

    /// The row of a frame; none past the end.
    pub fn frame(&self, frame: u32) -> Option<&FrameRow>
        ensures { option_copied result ≡ slice_get self.now.frames frame }
    {
        self.frames.get(frame)
    }

    /// The bytes of the page in a frame; none where no page is.
    pub fn bytes(&self, frame: u32) -> &[u8]
        ensures { result.now ≡ bytes_of (frame_at self.now.frames frame) }
    {
        bytes_in(&self.frames, frame)
    }

    /// The key of the bytes in a frame. It is not worked out anew where it is kept, or that of an equal page is found.
    pub fn key(&self, frame: u32) -> u64
        ensures { result ≡ content_key (bytes_of (frame_at self.now.frames frame)) }
    {
        match self.frames.found_key(frame) {
            Some(key) => key,
            None => content_key(self.bytes(frame)),
        }
    }

    /// Keeps the key of a private page until its bytes change. It may take memory; where that is refused the key is not
    /// kept.
    pub fn learn_key(&mut self, frame: u32)
        ensures { self.new ≡ self.old }
    {
        self.frames.learn_key(frame);
    }

    /// Makes room for the key of the page that comes into a slot. It may take memory; where that is refused the key is
    /// not kept there.
    pub fn make_key_room(&mut self, slot: u32)
        ensures { self.new ≡ self.old }
    {
        self.slots.make_key_room(slot);
    }

    /// An access of a machine is to come: where accesses go on in its open sample period, what its marks tell is summed
    /// up.
    pub fn tell_period(&mut self, vm: VmId)
        ensures { self.new ≡ self.old }
    {
        self.vms.tell_period(usize::from(vm.number()));
    }

    /// The row of a slot; none past the end.
    pub fn slot(&self, slot: u32) -> Option<&SlotRow>
        ensures { option_copied result ≡ slice_get self.now.slots slot }
    {
        self.slots.get(slot)
    }

    /// The bytes of the page in a slot; none where no page is.
    pub fn held(&self, slot: u32) -> &[u8]
        ensures { result.now ≡ held_bytes (slot_at self.now.slots slot) }
    {
        match self.slots.get(slot) {
            Some(row) => held_bytes(row),
            None => &[],
        }
    }

    /// Does no frame stand under a key? Then no look can find a page to share with.
    pub fn lists_none(&self) -> bool
        ensures { result ≡ true → (frame : ℕ) → listing_at self.now.listings frame ≡ Unlisted }
    {
        self.listings.lists_none()
    }

    /// What a frame stands under; past the last frame, nothing.
    pub fn listing(&self, frame: u32) -> Listing
        ensures { result ≡ listing_at self.now.listings frame }
    {
        self.listings.get(frame)
    }

    /// The least frame that is shared under a key.
    pub fn shared_under(&self, key: u64) -> Option<u32>
        ensures { result ≡ position_from (is_shared_under key) 0 self.now.listings }
    {
        self.listings.shared_under(key)
    }

    /// The least frame whose page is a hint under a short.
    pub fn hinted_under(&self, key: u32) -> Option<u32>
        ensures { result ≡ position_from (is_hinted_under key) 0 self.now.listings }
    {
        self.listings.hinted_under(key)
    }

    /// The virtual machine with a number, if there is one.
    pub fn vm(&self, vm: VmId) -> Option<&VmTable>
        ensures value { MatchOption result (row_at self.now vm ≡ None) (λ v. row_at self.now vm ≡ Some v.now) }
        ensures named { vm < VM_NUMBERS }
    {
        self.vms.get(usize::from(vm.number()))
    }

    /// The places of virtual machines up to the last machine, in order of number. All later places are blank.
    pub fn machines(&self) -> &[Option<VmTable>]
        ensures { AreUsed result.now self.now.vms }
    {
        self.vms.used()
    }

    /// The frames that are promised to all machines.
    pub fn memory_reserved(&self) -> u32
        ensures value { result ≡ sum_by memory_of self.now.vms }
        ensures most { result ≤ most_of_all }
    {
        self.vms.memory()
    }

    /// The slots that are promised to all machines.
    pub fn swap_reserved(&self) -> u32
        ensures value { result ≡ sum_by swap_of self.now.vms }
        ensures most { result ≤ most_of_all }
    {
        self.vms.swap()
    }

    /// The idle memory tax in percent.
    pub fn tau(&self) -> u32
        ensures { result ≡ self.now.tau }
    {
        self.tau
    }
}
