//! The model: where each page is, and what each virtual machine has done.

use esx_formulas::{Estimate, Period};
use esx_types::{Bytes, Hint, Level, Rows, VmId, VmSpec, VmState};

/// Where a page of a virtual machine is.
#[derive(Debug, Drop)]
pub enum Place {
    /// Never brought, or given up: it reads as zeros.
    Untouched,
    /// In a frame, alone or shared by content.
    Here {
        bytes: Bytes,
        frame: u32,
        shared: bool,
    },
    /// In a slot of the swap area.
    Out {
        bytes: Bytes,
        slot: u32,
    },
    /// Lent to the balloon, in that epoch of its virtual machine.
    Lent {
        epoch: u32,
    },
}

/// A virtual machine.
#[derive(Debug, Drop)]
pub struct Vm {
    pub spec: VmSpec,
    pub state: VmState,
    /// How many resets its balloon has had.
    pub epoch: u32,
    /// A reset of its balloon is due.
    pub due: bool,
    pub target: u32,
    /// The overhead frames, in order of taking.
    pub overhead: Rows<u32>,
    /// A place for each page below `spec.max`.
    pub places: Rows<Place>,
    /// The sample periods that closed since it was admitted, the oldest first.
    pub closed: Rows<Estimate>,
    pub period: Option<Period>,
}

/// The virtual machines at their numbers, the hints in order of short, and the idle memory tax in percent.
#[derive(Debug, Drop)]
pub struct Site {
    pub vms: Rows<Option<Vm>>,
    pub hints: Rows<Hint>,
    pub tau: u32,
}

/// A site, and how scarce its frames are.
#[derive(Debug, Drop)]
pub struct Scene {
    pub site: Site,
    pub level: Level,
}
