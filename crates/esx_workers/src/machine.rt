//! The virtual machines that workers draw from.

ghost use Rattle.std.specs.Prelude.{◌<◌};

use esx_types::VmId;

/// A virtual machine that a worker may draw: its number, and how many pages it has at most.
#[derive(Clone, Copy, Debug)]
pub struct Machine {
    pub vm: VmId,
    pub pages: u32,
    ghost some: { 0 < pages },
}
