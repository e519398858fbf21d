//! Records: what leads from the tables after an event to those before it, and back.

ghost use Rattle.std.specs.Prelude.{◌≡◌, [], ◌∷◌, ℕ, List, IfSome, Some, reverse};
ghost use Rattle.esx_tables.specs.declared.change.Change.{Change};
ghost use Rattle.esx_tables.specs.declared.change.Change.TheVariants.{FrameAt, ListingAt, FrameWithSlot, OfVm};
ghost use Rattle.esx_tables.specs.declared.change.VmPart.TheVariants.{PageAt};
ghost use Rattle.esx_tables.specs.Changes.{exchanged, in_order};
ghost use Rattle.esx_tables.specs.Sizes.{size_of, capped};
ghost use Rattle.esx_machine.specs.Records.{held_back, held_level, held_changes, place_of};

use esx_tables::{Change, Record as Changes, RecordSize, SiteTables, VmPart, frame_bytes};
use esx_types::{FrameRow, Level, Listing, MapRow, VmId};
use std::marker::Model;
use std::mem;

/// Where a page is, without the number that goes with it.
#[derive(Clone, Copy, Debug, PartialEq, Eq)]
enum PlaceKind {
    Untouched,
    Here,
    Out,
    Lent,
}

/// A level and changes. The changes of the most frequent events stand in place; others keep their places in a list.
/// Where there is more than one, a flip goes over them from their end or from their front, and the next from the other.
#[derive(Drop)]
enum Held {
    One {
        level: Level,
        change: Change,
    },
    /// A page that came to a frame.
    Came {
        level: Level,
        // Does the next flip begin at the end?
        at_end: bool,
        vm: VmId,
        place: PlaceKind,
        page: u16,
        frame: u32,
        number: u32,
        row: FrameRow,
    },
    /// A page that came from a slot to a frame.
    Returned {
        level: Level,
        at_end: bool,
        vm: VmId,
        frame: u32,
        slot: u32,
        page: u32,
        place: MapRow,
    },
    /// A page that left its frame for a slot.
    Left {
        level: Level,
        at_end: bool,
        vm: VmId,
        frame: u32,
        slot: u32,
        page: u32,
        place: MapRow,
        listing: Listing,
    },
    Many {
        level: Level,
        at_end: bool,
        changes: Changes,
    },
}

const _: () = prove!(size_of::<Held>() == 48);

/// What leads from the tables after an event to those before it, and back.
#[derive(Drop)]
pub struct Record {
    held: Held,
}

impl Model for Record {
    ghost use Rattle.esx_machine.specs.Machine.{Back};
    ghost use Rattle.esx_machine.specs.Records.{held_back};

    ghost Value = { Back };

    ghost view = { λ a. held_back a.held };
}

impl Record {
    /// What changes left that were made in turn and stand where they stood, with the level that was.
    #[inline(always)]
    pub fn leading_back(level: Level, changes: Changes) -> Record
        ensures { result ≡ record { level = level; changes = reverse changes } }
    {
        Record {
            held: held_of(level, changes),
        }
    }

    /// Trades its changes and its level with those tables and that level.
    pub fn trade(&mut self, tables: &mut SiteTables, level: &mut Level)
        ensures tables { tables.new ≡ (exchanged tables.old self.old.changes).0 }
        ensures level { level.new ≡ self.old.level }
        ensures record { self.new ≡ record { level = level.old; changes = (exchanged tables.old self.old.changes).1 } }
    {
        trade_changes(&mut self.held, tables);
        trade_level(&mut self.held, level);
    }

    /// How much it holds.
    pub fn size(&self) -> RecordSize
        ensures { result ≡ capped (size_of self.now.changes) }
    {
        held_size(&self.held)
    }
}

/// Keeps changes that stand where they stood when they were made in turn: in place where they are those of a frequent
/// event.
#[inline(always)]
fn held_of(level: Level, changes: Changes) -> Held
    ensures { held_back result ≡ record { level = level; changes = reverse changes } }
{
    let mut changes = changes.into_changes();
    if let Some(held) = with_slot(level, &changes) {
        return held;
    }
    if let Some(coming) = found_coming(&changes) {
        let (place, number) = kind_of(coming.place);
        return Held::Came {
            level,
            at_end: true,
            vm: coming.vm,
            place,
            page: coming.page,
            frame: coming.frame,
            number,
            row: taken_row(&mut changes),
        };
    }
    if changes.len() == 1 {
        if let Some(change) = changes.pop() {
            return Held::One { level, change };
        }
    }
    Held::Many {
        level,
        at_end: true,
        changes: Changes::of(changes),
    }
}

/// The changes of a page that came from a slot, or went to one.
fn with_slot(level: Level, changes: &[Change]) -> Option<Held>
    ensures { IfSome result (λ held. held_back held ≡ record { level = level; changes = reverse changes.now }) }
{
    match changes {
        [
            Change::FrameWithSlot { frame, slot },
            Change::OfVm {
                vm,
                part: VmPart::PageAt { page, row },
            },
        ] => Some(Held::Returned {
            level,
            at_end: true,
            vm: *vm,
            frame: *frame,
            slot: *slot,
            page: *page,
            place: *row,
        }),
        [
            Change::FrameWithSlot { frame, slot },
            Change::ListingAt {
                frame: listed,
                listing,
            },
            Change::OfVm {
                vm,
                part: VmPart::PageAt { page, row },
            },
        ] if *listed == *frame => Some(Held::Left {
            level,
            at_end: true,
            vm: *vm,
            frame: *frame,
            slot: *slot,
            page: *page,
            place: *row,
            listing: *listing,
        }),
        _ => None,
    }
}

/// A page that came to a frame, without the frame's row.
#[derive(Drop)]
struct Coming {
    vm: VmId,
    page: u16,
    place: MapRow,
    frame: u32,
}

/// Are these the changes of a page that came to a frame with its row?
fn found_coming(changes: &[Change]) -> Option<Coming>
    ensures { IfSome result (λ c. (row : FrameRow) × (changes.now ≡ FrameAt c.frame row ∷ OfVm c.vm (PageAt c.page c.place) ∷ [])) }
{
    match changes {
        [
            Change::FrameAt { frame, .. },
            Change::OfVm {
                vm,
                part: VmPart::PageAt { page, row },
            },
        ] => {
            let Ok(page) = u16::try_from(*page) else {
                return None;
            };
            Some(Coming {
                vm: *vm,
                page,
                place: *row,
                frame: *frame,
            })
        }
        _ => None,
    }
}

/// Takes the row of the frame that the first change is at; a free one where there is none.
#[inline(always)]
fn taken_row(changes: &mut Vec<Change>) -> FrameRow
    ensures { (frame : ℕ) (row : FrameRow) (rest : List Change) → changes.old.items ≡ FrameAt frame row ∷ rest → result ≡ row }
{
    if changes.is_empty() {
        return FrameRow::Free;
    }
    match mem::replace(&mut changes[0], Change::TaxIs { tau: 0 }) {
        Change::FrameAt { row, .. } => row,
        _ => FrameRow::Free,
    }
}

/// A place of its kind and its number.
fn place_of(place: PlaceKind, number: u32) -> MapRow
    ensures { result ≡ place_of place number }
{
    match place {
        PlaceKind::Untouched => MapRow::Untouched,
        PlaceKind::Here => MapRow::Here { frame: number },
        PlaceKind::Out => MapRow::Out { slot: number },
        PlaceKind::Lent => MapRow::Lent { epoch: number },
    }
}

/// The kind and the number of a place.
fn kind_of(place: MapRow) -> (PlaceKind, u32)
    ensures { place_of result.0 result.1 ≡ place }
{
    match place {
        MapRow::Untouched => (PlaceKind::Untouched, 0),
        MapRow::Here { frame } => (PlaceKind::Here, frame),
        MapRow::Out { slot } => (PlaceKind::Out, slot),
        MapRow::Lent { epoch } => (PlaceKind::Lent, epoch),
    }
}

/// Makes the changes that are kept, and leaves those that lead back.
fn trade_changes(held: &mut Held, tables: &mut SiteTables)
    ensures tables { tables.new ≡ (exchanged tables.old (held_changes held.old)).0 }
    ensures changes { held_changes held.new ≡ (exchanged tables.old (held_changes held.old)).1 }
    ensures level { held_level held.new ≡ held_level held.old }
{
    match held {
        Held::One { change, .. } => trade_one(tables, change),
        Held::Came {
            at_end,
            vm,
            place,
            page,
            frame,
            number,
            row,
            ..
        } => trade_come(
            tables,
            at_end,
            *vm,
            place,
            u32::from(*page),
            *frame,
            number,
            row,
        ),
        Held::Returned {
            at_end,
            vm,
            frame,
            slot,
            page,
            place,
            ..
        } => trade_return(tables, at_end, *vm, *frame, *slot, *page, place),
        Held::Left {
            at_end,
            vm,
            frame,
            slot,
            page,
            place,
            listing,
            ..
        } => trade_leave(tables, at_end, *vm, *frame, *slot, *page, place, listing),
        Held::Many {
            at_end,
            changes,
            ..
        } => {
            tables.exchange_from(changes, *at_end);
            *at_end = !*at_end;
        }
    }
}

/// Trades the level that is kept.
fn trade_level(held: &mut Held, level: &mut Level)
    ensures held { held_back held.new ≡ record { level = level.old; changes = held_changes held.old } }
    ensures level { level.new ≡ held_level held.old }
{
    match held {
        Held::One { level: kept, .. } => mem::swap(kept, level),
        Held::Came { level: kept, .. } => mem::swap(kept, level),
        Held::Returned { level: kept, .. } => mem::swap(kept, level),
        Held::Left { level: kept, .. } => mem::swap(kept, level),
        Held::Many { level: kept, .. } => mem::swap(kept, level),
    }
}

#[tactic(auto, unfolding(esx_tables::specs::Changes::exchanged))]
fn trade_one(tables: &mut SiteTables, change: &mut Change)
    ensures tables { tables.new ≡ (exchanged tables.old (change.old ∷ [])).0 }
    ensures change { change.new ∷ [] ≡ (exchanged tables.old (change.old ∷ [])).1 }
{
    tables.trade(change);
}

/// A page comes to a frame with its row, or goes: first what its place is, where the flip begins at the end.
#[tactic(auto, unfolding(esx_tables::specs::Changes::exchanged))]
fn trade_come(
    tables: &mut SiteTables,
    at_end: &mut bool,
    vm: VmId,
    place: &mut PlaceKind,
    page: u32,
    frame: u32,
    number: &mut u32,
    row: &mut FrameRow,
)
    ensures tables { tables.new ≡ (exchanged tables.old (in_order at_end.old (FrameAt frame row.old ∷ OfVm vm (PageAt page (place_of place.old number.old)) ∷ []))).0 }
    ensures changes { in_order at_end.new (FrameAt frame row.new ∷ OfVm vm (PageAt page (place_of place.new number.new)) ∷ [])
        ≡ (exchanged tables.old (in_order at_end.old (FrameAt frame row.old ∷ OfVm vm (PageAt page (place_of place.old number.old)) ∷ []))).1 }
{
    let mut at = place_of(*place, *number);
    if *at_end {
        tables.trade_page(vm, page, &mut at);
        tables.trade_frame(frame, row);
    } else {
        tables.trade_frame(frame, row);
        tables.trade_page(vm, page, &mut at);
    }
    (*place, *number) = kind_of(at);
    *at_end = !*at_end;
}

/// A page comes to a frame from a slot, or goes back.
#[tactic(auto, unfolding(esx_tables::specs::Changes::exchanged))]
fn trade_return(
    tables: &mut SiteTables,
    at_end: &mut bool,
    vm: VmId,
    frame: u32,
    slot: u32,
    page: u32,
    place: &mut MapRow,
)
    ensures tables { tables.new ≡ (exchanged tables.old (in_order at_end.old (FrameWithSlot frame slot ∷ OfVm vm (PageAt page place.old) ∷ []))).0 }
    ensures changes { in_order at_end.new (FrameWithSlot frame slot ∷ OfVm vm (PageAt page place.new) ∷ [])
        ≡ (exchanged tables.old (in_order at_end.old (FrameWithSlot frame slot ∷ OfVm vm (PageAt page place.old) ∷ []))).1 }
{
    if *at_end {
        tables.trade_page(vm, page, place);
        tables.trade_frame_with_slot(frame, slot);
    } else {
        tables.trade_frame_with_slot(frame, slot);
        tables.trade_page(vm, page, place);
    }
    *at_end = !*at_end;
}

/// A page leaves its frame for a slot, and what the frame stands under, or both come back.
#[tactic(auto, unfolding(esx_tables::specs::Changes::exchanged))]
fn trade_leave(
    tables: &mut SiteTables,
    at_end: &mut bool,
    vm: VmId,
    frame: u32,
    slot: u32,
    page: u32,
    place: &mut MapRow,
    listing: &mut Listing,
)
    ensures tables { tables.new ≡ (exchanged tables.old (in_order at_end.old (FrameWithSlot frame slot ∷ ListingAt frame listing.old ∷ OfVm vm (PageAt page place.old) ∷ []))).0 }
    ensures changes { in_order at_end.new (FrameWithSlot frame slot ∷ ListingAt frame listing.new ∷ OfVm vm (PageAt page place.new) ∷ [])
        ≡ (exchanged tables.old (in_order at_end.old (FrameWithSlot frame slot ∷ ListingAt frame listing.old ∷ OfVm vm (PageAt page place.old) ∷ []))).1 }
{
    if *at_end {
        tables.trade_page(vm, page, place);
        tables.trade_listing(frame, listing);
        tables.trade_frame_with_slot(frame, slot);
    } else {
        tables.trade_frame_with_slot(frame, slot);
        tables.trade_listing(frame, listing);
        tables.trade_page(vm, page, place);
    }
    *at_end = !*at_end;
}

/// How much is held.
fn held_size(held: &Held) -> RecordSize
    ensures { result ≡ capped (size_of (held_changes held.now)) }
{
    match held {
        Held::One { change, .. } => change.size(),
        Held::Came { row, .. } => RecordSize {
            bytes: frame_bytes(row) as u64,
            rows: 2,
            marks: 0,
            targets: 0,
        },
        Held::Returned { .. } => rows_alone(2),
        Held::Left { .. } => rows_alone(3),
        Held::Many { changes, .. } => changes.size(),
    }
}

fn rows_alone(rows: u64) -> RecordSize
    ensures { result ≡ record { bytes = 0; rows = rows; marks = 0; targets = 0 } }
{
    RecordSize {
        bytes: 0,
        rows,
        marks: 0,
        targets: 0,
    }
}
