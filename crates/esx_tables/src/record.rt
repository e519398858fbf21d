//! Records: what leads back, and how much it holds.

ghost use Rattle.std.specs.Prelude.{◌≡◌, [], ◌∷◌, length};
ghost use Rattle.esx_types.specs.Frames.{bytes_of};
ghost use Rattle.esx_types.specs.Slots.{held_bytes};
ghost use Rattle.esx_tables.specs.Sizes.{bytes_held, is_row, marks_held, is_target, mark_count, size_of, capped};

use crate::change::{Change, VmPart};
use esx_model::PeriodRow;
use esx_types::{FrameRow, SlotRow};
use std::marker::Model;

/// How much a record holds: bytes of pages, rows, sample marks and targets. A number that does not fit is
/// the greatest that does.
#[derive(Clone, Copy, Debug, PartialEq, Eq)]
pub struct RecordSize {
    pub bytes: u64,
    pub rows: u64,
    pub marks: u64,
    pub targets: u64,
}

/// What leads from the tables after an event to those before it, and back, seen as the list of its changes.
#[derive(Drop)]
pub struct Record {
    pub(crate) changes: Vec<Change>,
}

impl Model for Record {
    ghost use Rattle.std.specs.Prelude.{List};
    ghost use Rattle.esx_tables.specs.declared.change.Change.{Change};

    ghost Value = { List Change };

    ghost view = { λ a. a.changes.items };
}

impl Record {
    /// These changes, in the order in which they are to be made.
    pub fn of(changes: Vec<Change>) -> Record
        ensures { result ≡ changes.items }
    {
        Record { changes }
    }

    /// Its changes, in the order in which `exchange` makes them.
    pub fn changes(&self) -> &[Change]
        ensures { result.now ≡ self.now }
    {
        self.changes.as_slice()
    }

    /// Its changes, in the same order, without a copy.
    pub fn into_changes(self) -> Vec<Change>
        ensures { result.items ≡ self }
    {
        let Record { changes } = self;
        changes
    }

    /// How much it holds.
    pub fn size(&self) -> RecordSize
        ensures { result ≡ capped (size_of self.now) }
    {
        size_of(&self.changes)
    }
}

fn size_of(changes: &[Change]) -> RecordSize
    ensures { result ≡ capped (size_of changes.now) }
{
    let mut size = RecordSize {
        bytes: 0,
        rows: 0,
        marks: 0,
        targets: 0,
    };
    for change in changes {
        size.bytes = size.bytes.saturating_add(change.bytes() as u64);
        size.rows = size.rows.saturating_add(u64::from(change.is_row()));
        size.marks = size.marks.saturating_add(change.marks() as u64);
        size.targets = size.targets.saturating_add(u64::from(change.is_target()));
    }
    size
}

impl Change {
    /// How much it holds.
    pub fn size(&self) -> RecordSize
        ensures { result ≡ capped (size_of (self.now ∷ [])) }
    {
        RecordSize {
            bytes: self.bytes() as u64,
            rows: u64::from(self.is_row()),
            marks: self.marks() as u64,
            targets: u64::from(self.is_target()),
        }
    }

    /// How many bytes of pages it holds.
    fn bytes(&self) -> usize
        ensures { result ≡ bytes_held self.now }
    {
        match self {
            Change::FrameAt { row, .. } => frame_bytes(row),
            Change::BytesAt { bytes, .. } => bytes.len(),
            Change::SlotAt { row, .. } => slot_bytes(row),
            _ => 0,
        }
    }

    /// How many sample marks it holds.
    fn marks(&self) -> usize
        ensures { result ≡ marks_held self.now }
    {
        match self {
            Change::OfVm {
                part: VmPart::Period { period },
                ..
            } => mark_count(period.get()),
            Change::OfVm {
                part: VmPart::Touched { .. },
                ..
            } => 1,
            Change::VmAt { row: Some(vm), .. } => mark_count(vm.period()),
            _ => 0,
        }
    }

    /// Is it a machine's target?
    fn is_target(&self) -> bool
        ensures { result ≡ is_target self.now }
    {
        matches!(
            self,
            Change::OfVm {
                part: VmPart::Target { .. },
                ..
            }
        )
    }

    /// Is it neither a target nor a sample mark?
    fn is_row(&self) -> bool
        ensures { result ≡ is_row self.now }
    {
        !matches!(
            self,
            Change::OfVm {
                part: VmPart::Target { .. } | VmPart::Touched { .. },
                ..
            }
        )
    }
}

/// How many bytes of a page a frame's row holds.
pub fn frame_bytes(row: &FrameRow) -> usize
    ensures { result ≡ length (bytes_of row.now) }
{
    match row {
        FrameRow::Free | FrameRow::Overhead => 0,
        FrameRow::Private { bytes } => bytes.len(),
        FrameRow::Shared { bytes, .. } => bytes.len(),
    }
}

fn slot_bytes(row: &SlotRow) -> usize
    ensures { result ≡ length (held_bytes row.now) }
{
    match row {
        SlotRow::Free => 0,
        SlotRow::Held { bytes } => bytes.len(),
    }
}

fn mark_count(period: &Option<PeriodRow>) -> usize
    ensures { result ≡ mark_count period.now }
{
    match period {
        None => 0,
        Some(period) => period.marks.len(),
    }
}
