//! The tables that a machine keeps of a site, as it keeps them.

use crate::book::VmRow;
use esx_types::{FrameRow, Listing, Rows, SlotRow};

/// Every table of a site, and the idle memory tax in percent. In a machine's row a loan stands with its
/// epoch, also one that is over.
#[derive(Debug, Drop)]
pub struct Tables {
    pub frames: Rows<FrameRow>,
    pub slots: Rows<SlotRow>,
    pub vms: Rows<Option<VmRow>>,
    /// One for each frame.
    pub listings: Rows<Listing>,
    pub tau: u32,
}
