//! One change of the tables.

use crate::vm_table::VmTable;
use esx_average::Averages;
use esx_events::Boxed;
use esx_frames::Mark;
use esx_model::PeriodRow;
use esx_types::{FrameRow, Listing, MapRow, SlotRow, SmallBytes, VmId, VmState};

/// What a virtual machine's row tells in small numbers that events change.
#[derive(Clone, Copy, Debug, PartialEq, Eq)]
pub struct Facts {
    pub shares: u32,
    pub tau: Option<u32>,
    pub state: VmState,
    pub epoch: u32,
    pub due: bool,
    pub target: u32,
}

/// A part of a virtual machine's row.
#[derive(Drop)]
pub enum VmPart {
    PageAt { page: u32, row: MapRow },
    Facts { facts: Facts },
    Target { target: u32 },
    /// The open sample period, or none. It is rare, so it stands apart and other changes stay small.
    Period { period: Boxed<Option<PeriodRow>> },
    /// How many accesses of the open period are done.
    Done { done: u32 },
    /// Whether a sampled page of the open period was accessed, which turns round.
    Touched { mark: u32 },
    Averages { averages: Averages },
    /// The overhead frame that was taken last, or none where one is to come.
    OverheadTop { frame: Option<u32> },
}

/// What stands, or is to stand, somewhere in the tables.
///
/// A change that is made takes what stood there in its place, so that, made again, it leads back.
#[derive(Drop)]
pub enum Change {
    FrameAt {
        frame: u32,
        row: FrameRow,
    },
    /// Whose the page in a frame is.
    MarkAt {
        frame: u32,
        mark: Mark,
    },
    /// Bytes of a page that stays in its frame, from byte `offset` on.
    BytesAt {
        frame: u32,
        offset: u32,
        bytes: SmallBytes,
    },
    /// What a frame stands under.
    ListingAt {
        frame: u32,
        listing: Listing,
    },
    SlotAt {
        slot: u32,
        row: SlotRow,
    },
    /// The page of a private frame, or none, and that of a slot, or none, trade places.
    FrameWithSlot {
        frame: u32,
        slot: u32,
    },
    /// A part of a machine's row.
    OfVm {
        vm: VmId,
        part: VmPart,
    },
    /// A machine with its page map, or none.
    VmAt {
        vm: VmId,
        row: Option<VmTable>,
    },
    TaxIs {
        tau: u32,
    },
}

const _: () = prove!(size_of::<Change>() == 40);
