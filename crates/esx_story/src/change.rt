//! What a page's change of place is told by.

use esx_types::VmId;

/// How a page came to be where it is.
#[derive(Clone, Copy, Debug, PartialEq, Eq)]
pub enum How {
    /// Lost: it is lent to the balloon.
    Balloon,
    /// Lost: it is paged out.
    Swap,
    /// Lost: it makes room for another page of its machine.
    Replaced,
    /// Lost: its machine stops and gives it back.
    Dropped,
    /// Gained: it was never here, or not since its loan ended.
    First,
    /// Gained: its loan is broken.
    Pop,
    /// Gained: it is read from its slot.
    SwapIn,
    /// It comes to share the frame of another page, and gives its own up.
    Share,
    /// Its frame serves another page too.
    Host,
    /// It is written, and gets a frame of its own.
    Cow,
    /// It is written, and the frame is its own, since no other page is in it any more.
    Own,
    /// It is lent, though no frame held it.
    LentAway,
    /// Its loan ends.
    TakenBack,
    /// It is given back out of its slot.
    DroppedOut,
}

/// Where a page is, without its bytes.
#[derive(Clone, Copy, Debug, PartialEq, Eq)]
pub enum Spot {
    Untouched,
    /// In a frame, which others may come to share or do share.
    Here { frame: u32, shared: bool },
    Out { slot: u32 },
    /// Lent in that epoch of its machine.
    Lent { epoch: u32 },
}

/// What a rebalance wanted, revoked in all, and revoked of one machine, in frames.
#[derive(Clone, Copy, Debug, PartialEq, Eq)]
pub struct Asked {
    pub need: u32,
    pub revoked: u32,
    pub given: u32,
}

/// How many pages a balloon held before a loan, and how many it is to hold.
#[derive(Clone, Copy, Debug, PartialEq, Eq)]
pub struct Loan {
    pub held: u32,
    pub goal: u32,
}

/// How often pages of a virtual machine came and left since it was admitted, each way by itself.
#[derive(Clone, Copy, Debug, PartialEq, Eq)]
pub struct Counts {
    pub first: u32,
    pub popped: u32,
    pub swapped_in: u32,
    pub balloon: u32,
    pub swapped_out: u32,
    pub replaced: u32,
    pub dropped: u32,
}

/// A page of a virtual machine, and how it came or left.
#[derive(Clone, Copy, Debug, PartialEq, Eq)]
pub struct Change {
    pub vm: VmId,
    pub page: u32,
    pub how: How,
}
