//! What is run of the plain program.

use super::site::SITE;
use esx_events::{Boxed, Event, Refusal};
use esx_model::{Book, VmRow};
use esx_plain::{PlainFault, replay};
use esx_types::{Config, FrameRow, Level, MapRow, Rows, SlotRow, SmallBytes, VmId, VmSpec};
use std::alloc::{AllocError, Global};
use std::process::Abort;
use std::rt::HostRuntime;

const SPEC: VmSpec = VmSpec {
    min: 2,
    max: 4,
    overhead: 1,
    shares: 1000,
    balloon_max: 0,
    tau: None,
};

fn text_in(alloc: Global, vm: VmId) -> Result<Event, AllocError> {
    Ok(Event::Write {
        vm,
        page: 0,
        at: 0,
        bytes: SmallBytes::copy_of(alloc, b"the same content")?,
    })
}

fn no_words(alloc: Global, vm: VmId) -> Result<Event, AllocError> {
    Ok(Event::Sample {
        vm,
        length: 1,
        words: Boxed::new(alloc, Rows::new(alloc))?,
    })
}

/// The machines have one overhead frame each, and share the frame between them.
fn frames_are_right(frames: &[FrameRow]) -> bool {
    match frames {
        [
            FrameRow::Overhead,
            FrameRow::Shared { count: 2, bytes },
            FrameRow::Overhead,
            others @ ..,
        ] => {
            bytes.as_slice() == b"the same content".as_slice()
                && others.len() == 17
                && others.iter().all(|row| matches!(row, FrameRow::Free))
        }
        _ => false,
    }
}

fn expect_equal(rt: &impl Abort, book: &Book) {
    assert!(rt; frames_are_right(book.frames.as_slice()));
    assert_eq!(rt; book.shared.len(), 1);
    assert_eq!(rt; book.hints.len(), 0);
    assert_eq!(rt; book.level, Level::High);
}

#[test]
fn equal_pages_come_into_one_frame(rt: HostRuntime) {
    let alloc = rt.alloc();
    let one = VmId::new(0);
    let two = VmId::new(1);
    let path = [
        Event::Admit {
            vm: one,
            spec: SPEC,
        },
        Event::Start { vm: one },
        text_in(alloc, one).expect(&rt, "memory"),
        Event::Admit {
            vm: two,
            spec: SPEC,
        },
        Event::Start { vm: two },
        text_in(alloc, two).expect(&rt, "memory"),
        Event::Scan { vm: one, page: 0 },
        Event::Scan { vm: two, page: 0 },
    ];
    let book = replay(alloc, &SITE, &path).expect(&rt, "a book");
    expect_equal(&rt, &book);
}

/// A write that makes an untouched page end its first eight bytes with these.
fn ends_in(alloc: Global, vm: VmId, page: u32, bytes: [u8; 2]) -> Result<Event, AllocError> {
    Ok(Event::Write {
        vm,
        page,
        at: 6,
        bytes: SmallBytes::copy_of(alloc, &bytes)?,
    })
}

fn expect_apart(rt: &impl Abort, book: &Book) {
    assert_eq!(rt; book.shared.len(), 0);
    assert_eq!(rt; book.hints.len(), 1);
    assert!(rt;
        book.hints
            .as_slice()
            .first()
            .is_some_and(|hint| hint.page == 0)
    );
}

/// The keys of these two contents differ in their lower halves alone.
#[test]
fn pages_of_one_short_stay_apart(rt: HostRuntime) {
    let alloc = rt.alloc();
    let vm = VmId::new(0);
    let path = [
        Event::Admit { vm, spec: SPEC },
        Event::Start { vm },
        ends_in(alloc, vm, 0, [0x95, 0x28]).expect(&rt, "memory"),
        ends_in(alloc, vm, 1, [0xe6, 0xff]).expect(&rt, "memory"),
        Event::Scan { vm, page: 0 },
        Event::Scan { vm, page: 1 },
    ];
    let book = replay(alloc, &SITE, &path).expect(&rt, "a book");
    expect_apart(&rt, &book);
}

/// The third event of a path is refused so.
fn expect_refused(rt: &impl Abort, alloc: Global, last: Event, refusal: Refusal) {
    let vm = VmId::new(0);
    let path = [Event::Admit { vm, spec: SPEC }, Event::Start { vm }, last];
    let fault = replay(alloc, &SITE, &path).err();
    assert_eq!(rt; fault, Some(PlainFault::Refused { at: 2, refusal }));
}

fn refuses_a_machine(rt: &impl Abort, alloc: Global, vm: VmId, other: VmId) {
    let spec = SPEC;
    expect_refused(rt, alloc, Event::Admit { vm, spec }, Refusal::VmThere);
    expect_refused(rt, alloc, Event::Start { vm }, Refusal::NotNeeded);
    expect_refused(rt, alloc, Event::Ask { vm: other }, Refusal::NoVm);
    expect_refused(rt, alloc, Event::Gone { vm }, Refusal::NotNeeded);
}

fn refuses_a_tax(rt: &impl Abort, alloc: Global, vm: VmId, other: VmId) {
    let tau = 100;
    let spec = VmSpec {
        tau: Some(tau),
        ..SPEC
    };
    expect_refused(rt, alloc, Event::SetTax { tau }, Refusal::BadSpec);
    expect_refused(rt, alloc, Event::SetVmTax { vm, tau }, Refusal::BadSpec);
    expect_refused(rt, alloc, Event::SetVmTax { vm: other, tau }, Refusal::NoVm);
    expect_refused(
        rt,
        alloc,
        Event::Admit { vm: other, spec },
        Refusal::BadSpec,
    );
}

fn refuses_a_balloon(rt: &impl Abort, alloc: Global, vm: VmId) {
    let (low, none, page) = (0, 9, 3);
    expect_refused(rt, alloc, Event::Lend { vm, page: low }, Refusal::OverGoal);
    expect_refused(
        rt,
        alloc,
        Event::TakeBack { vm, page: none },
        Refusal::OutOfRange,
    );
    expect_refused(rt, alloc, Event::TakeBack { vm, page }, Refusal::NotLent);
    let words = no_words(alloc, vm).expect(rt, "memory");
    expect_refused(rt, alloc, words, Refusal::BadWords);
}

fn refuses_a_page(rt: &impl Abort, alloc: Global, vm: VmId) {
    let (page, word, level) = (0, 0, Level::High);
    expect_refused(rt, alloc, Event::Scan { vm, page }, Refusal::NotResident);
    expect_refused(
        rt,
        alloc,
        Event::SwapOut { vm, word },
        Refusal::NotNow { level },
    );
    expect_refused(
        rt,
        alloc,
        Event::Replace { vm, page, word },
        Refusal::NotNeeded,
    );
}

#[test]
fn the_first_refusal_ends_a_path(rt: HostRuntime) {
    let vm = VmId::new(0);
    let other = VmId::new(1);
    refuses_a_machine(&rt, rt.alloc(), vm, other);
    refuses_a_tax(&rt, rt.alloc(), vm, other);
    refuses_a_balloon(&rt, rt.alloc(), vm);
    refuses_a_page(&rt, rt.alloc(), vm);
}

/// A small site, where frames are soon scarce.
const FEW: Config = Config {
    frames: 8,
    page: 16,
    slots: 8,
    tau: 75,
    high: 6,
    soft: 4,
    hard: 2,
    low: 1,
    nodes: 16777216,
};

fn read(vm: VmId, page: u32) -> Event {
    let (at, len) = (0, 1);
    Event::Read { vm, page, at, len }
}

fn first_row(book: &Book) -> Option<&VmRow> {
    match book.vms.as_slice() {
        [Some(row), ..] => Some(row),
        _ => None,
    }
}

/// One overhead frame, and then a page of zeros.
fn is_first_read(frames: &[FrameRow]) -> bool {
    match frames {
        [FrameRow::Overhead, FrameRow::Private { bytes }, others @ ..] => {
            bytes.as_slice() == [0; 16].as_slice()
                && others.iter().all(|row| matches!(row, FrameRow::Free))
        }
        _ => false,
    }
}

fn expect_first_read(rt: &impl Abort, book: &Book) {
    assert!(rt; is_first_read(book.frames.as_slice()));
    let row = first_row(book).expect(rt, "a machine");
    let here = MapRow::Here { frame: 1 };
    let none = MapRow::Untouched;
    assert_eq!(rt; row.pages.as_slice(), [here, none, none, none].as_slice());
}

fn expect_out_of_range(rt: &impl Abort, fault: Option<PlainFault>) {
    let refusal = Refusal::OutOfRange;
    assert_eq!(rt; fault, Some(PlainFault::Refused { at: 3, refusal }));
}

#[test]
fn a_page_comes_to_the_least_frame(rt: HostRuntime) {
    let vm = VmId::new(0);
    let path = [
        Event::Admit { vm, spec: SPEC },
        Event::Start { vm },
        read(vm, 0),
        read(vm, 4),
    ];
    let book = replay(rt.alloc(), &SITE, &path[..3]).expect(&rt, "a book");
    expect_first_read(&rt, &book);
    expect_out_of_range(&rt, replay(rt.alloc(), &SITE, &path).err());
}

/// What the first machine's row says after a path, and its fourth page.
fn expect_row(
    rt: &impl Abort,
    alloc: Global,
    path: &[Event],
    want: (bool, u32, u32),
    page: MapRow,
) {
    let book = replay(alloc, &FEW, path).expect(rt, "a book");
    let row = first_row(&book).expect(rt, "a machine");
    assert_eq!(rt; (row.due, row.epoch, row.target), want);
    assert_eq!(rt; row.pages.as_slice().get(3), Some(&page));
}

#[test]
fn a_page_that_was_lent_pops_the_balloon(rt: HostRuntime) {
    let vm = VmId::new(0);
    let spec = VmSpec {
        min: 2,
        max: 6,
        overhead: 1,
        shares: 1000,
        balloon_max: 4,
        tau: None,
    };
    let path = [
        Event::Admit { vm, spec },
        Event::Start { vm },
        read(vm, 0),
        read(vm, 1),
        read(vm, 2),
        read(vm, 3),
        read(vm, 4),
        Event::Rebalance,
        Event::Lend { vm, page: 4 },
        Event::Lend { vm, page: 3 },
        read(vm, 4),
        Event::Ask { vm },
    ];
    let lent = MapRow::Lent { epoch: 0 };
    expect_row(&rt, rt.alloc(), &path[..11], (true, 0, 2), lent);
    expect_row(&rt, rt.alloc(), &path, (false, 1, 2), MapRow::Untouched);
}

fn are_three_held(slots: &[SlotRow]) -> bool {
    match slots {
        [
            SlotRow::Held { .. },
            SlotRow::Held { .. },
            SlotRow::Held { .. },
            others @ ..,
        ] => others.iter().all(|row| matches!(row, SlotRow::Free)),
        _ => false,
    }
}

fn expect_three_out(rt: &impl Abort, book: &Book) {
    let row = first_row(book).expect(rt, "a machine");
    let expected = [
        MapRow::Here { frame: 1 },
        MapRow::Out { slot: 2 },
        MapRow::Out { slot: 0 },
        MapRow::Here { frame: 4 },
        MapRow::Out { slot: 1 },
    ];
    assert_eq!(rt; row.pages.as_slice(), expected.as_slice());
    assert!(rt; are_three_held(book.slots.as_slice()));
    assert_eq!(rt; book.level, Level::High);
}

#[test]
fn pages_go_to_the_least_slots(rt: HostRuntime) {
    let vm = VmId::new(0);
    let spec = VmSpec {
        min: 2,
        max: 5,
        overhead: 1,
        shares: 1000,
        balloon_max: 0,
        tau: None,
    };
    let path = [
        Event::Admit { vm, spec },
        Event::Start { vm },
        read(vm, 0),
        read(vm, 1),
        read(vm, 2),
        read(vm, 3),
        read(vm, 4),
        Event::Rebalance,
        Event::SwapOut { vm, word: 7 },
        Event::SwapOut { vm, word: 7 },
        Event::SwapOut { vm, word: 7 },
    ];
    let book = replay(rt.alloc(), &FEW, &path).expect(&rt, "a book");
    expect_three_out(&rt, &book);
}
