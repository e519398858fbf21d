//! Whether two books are the same, row by row.

use esx_model::{Book, Mark, PeriodRow, VmRow};
use esx_types::{FrameRow, SlotRow};

fn same_frame(one: &FrameRow, other: &FrameRow) -> bool {
    match (one, other) {
        (FrameRow::Free, FrameRow::Free) | (FrameRow::Overhead, FrameRow::Overhead) => true,
        (FrameRow::Private { bytes: a }, FrameRow::Private { bytes: b }) => {
            a.as_slice() == b.as_slice()
        }
        (FrameRow::Shared { count: m, bytes: a }, FrameRow::Shared { count: n, bytes: b }) => {
            *m == *n && a.as_slice() == b.as_slice()
        }
        _ => false,
    }
}

fn same_slot(one: &SlotRow, other: &SlotRow) -> bool {
    match (one, other) {
        (SlotRow::Free, SlotRow::Free) => true,
        (SlotRow::Held { bytes: a }, SlotRow::Held { bytes: b }) => a.as_slice() == b.as_slice(),
        _ => false,
    }
}

fn same_period(one: &PeriodRow, other: &PeriodRow) -> bool {
    let (marks, others): (&[Mark], &[Mark]) = (one.marks.as_slice(), other.marks.as_slice());
    one.length == other.length && one.done == other.done && marks == others
}

fn same_periods(one: &Option<PeriodRow>, other: &Option<PeriodRow>) -> bool {
    match (one, other) {
        (None, None) => true,
        (Some(one), Some(other)) => same_period(one, other),
        _ => false,
    }
}

fn same_vm(one: &VmRow, other: &VmRow) -> bool {
    one.spec == other.spec
        && one.state == other.state
        && one.epoch == other.epoch
        && one.due == other.due
        && one.target == other.target
        && one.overhead.as_slice() == other.overhead.as_slice()
        && one.pages.as_slice() == other.pages.as_slice()
        && one.slow == other.slow
        && one.fast == other.fast
        && same_periods(&one.period, &other.period)
}

fn same_place(one: &Option<VmRow>, other: &Option<VmRow>) -> bool {
    match (one, other) {
        (None, None) => true,
        (Some(one), Some(other)) => same_vm(one, other),
        _ => false,
    }
}

fn same_frames(one: &[FrameRow], other: &[FrameRow]) -> bool {
    one.len() == other.len() && one.iter().zip(other).all(|(a, b)| same_frame(a, b))
}

fn same_slots(one: &[SlotRow], other: &[SlotRow]) -> bool {
    one.len() == other.len() && one.iter().zip(other).all(|(a, b)| same_slot(a, b))
}

fn same_vms(one: &[Option<VmRow>], other: &[Option<VmRow>]) -> bool {
    one.len() == other.len() && one.iter().zip(other).all(|(a, b)| same_place(a, b))
}

pub fn same_book(one: &Book, other: &Book) -> bool {
    same_frames(one.frames.as_slice(), other.frames.as_slice())
        && same_slots(one.slots.as_slice(), other.slots.as_slice())
        && same_vms(one.vms.as_slice(), other.vms.as_slice())
        && one.hints.as_slice() == other.hints.as_slice()
        && one.shared.as_slice() == other.shared.as_slice()
        && one.tau == other.tau
        && one.level == other.level
}
