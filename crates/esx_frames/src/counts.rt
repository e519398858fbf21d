//! How many frames there are of each kind.

ghost use Rattle.std.specs.Prelude.{◌≡◌, ◌+◌, ◌<◌, ◌^◌};
ghost use Rattle.esx_frames.specs.Counts.{count_like, with_row, without_row};

use esx_types::FrameRow;

/// The numbers of frames that are overhead, private, shared and free. They add up to all frames.
#[derive(Clone, Copy, Debug, PartialEq, Eq)]
pub struct Counts {
    pub overhead: u32,
    pub private: u32,
    pub shared: u32,
    pub free: u32,
}

impl Counts {
    /// Counts one more row of this kind.
    pub(crate) fn add(&mut self, row: &FrameRow)
        requires { count_like self.old row.now + 1 < 2 ^ 32 }
        ensures { self.new ≡ with_row self.old row.now }
    {
        match row {
            FrameRow::Free => self.free += 1,
            FrameRow::Overhead => self.overhead += 1,
            FrameRow::Private { .. } => self.private += 1,
            FrameRow::Shared { .. } => self.shared += 1,
        }
    }

    /// Counts one row of this kind less.
    pub(crate) fn remove(&mut self, row: &FrameRow)
        requires { 0 < count_like self.old row.now }
        ensures { self.new ≡ without_row self.old row.now }
    {
        match row {
            FrameRow::Free => self.free -= 1,
            FrameRow::Overhead => self.overhead -= 1,
            FrameRow::Private { .. } => self.private -= 1,
            FrameRow::Shared { .. } => self.shared -= 1,
        }
    }
}
