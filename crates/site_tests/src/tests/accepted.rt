//! Events that the plain program accepts, those of each mechanism.

ghost use Rattle.esx_types.specs.Ranges.{IsConfig};

use super::site::{SITE, SPEC};
use esx_events::{Boxed, Event};
use esx_model::{Book, VmRow};
use esx_plain::replay;
use esx_types::{Config, FrameRow, MapRow, Rows, SlotRow, VmId, VmSpec, VmState};
use std::alloc::Global;
use std::process::Abort;
use std::test::Fail;

/// A small site, where frames are soon scarce.
const FEW: Config = Config { frames: 8, ..SITE };

fn read(vm: VmId, page: u32) -> Event {
    let (at, len) = (0, 1);
    Event::Read { vm, page, at, len }
}

/// The tables that a path leads to.
fn book_of(alloc: Global, site: &Config, path: &[Event]) -> Result<Book, Fail>
    requires { IsConfig site.now }
{
    match replay(alloc, site, path) {
        Ok(book) => Ok(book),
        Err(_) => Err(Fail::new("a path that is accepted")),
    }
}

fn first_row(book: &Book) -> Result<&VmRow, Fail> {
    match book.vms.as_slice() {
        [Some(row), ..] => Ok(row),
        _ => Err(Fail::new("a machine")),
    }
}

fn expect_set(
    rt: &impl Abort,
    alloc: Global,
    path: &[Event],
    want: (u32, Option<u32>, u32),
) -> Result<(), Fail> {
    let book = book_of(alloc, &SITE, path)?;
    let row = first_row(&book)?;
    assert_eq!(rt; (row.spec.shares, row.spec.tau, book.tau), want);
    Ok(())
}

#[test]
fn shares_and_taxes_are_set(rt: HostRuntime) -> Result<(), Fail> {
    let vm = VmId::new(0);
    let path = [
        Event::Admit { vm, spec: SPEC },
        Event::SetShares { vm, shares: 2000 },
        Event::SetTax { tau: 50 },
        Event::SetVmTax { vm, tau: 50 },
        Event::SetTax { tau: 99 },
    ];
    expect_set(&rt, rt.alloc(), &path[..2], (2000, None, 75))?;
    expect_set(&rt, rt.alloc(), &path[..3], (2000, None, 50))?;
    expect_set(&rt, rt.alloc(), &path, (2000, Some(50), 99))
}

#[test]
fn a_machine_comes_with_a_tax(rt: HostRuntime) -> Result<(), Fail> {
    let vm = VmId::new(0);
    let spec = VmSpec {
        tau: Some(99),
        ..SPEC
    };
    let path = [
        Event::Admit { vm, spec },
        Event::SetTax { tau: 0 },
        Event::SetVmTax { vm, tau: 20 },
    ];
    expect_set(&rt, rt.alloc(), &path[..2], (1000, Some(99), 0))?;
    expect_set(&rt, rt.alloc(), &path, (1000, Some(20), 0))
}

fn expect_taken_back(rt: &impl Abort, pages: &[MapRow]) {
    assert_eq!(rt; pages.get(3), Some(&MapRow::Lent { epoch: 0 }));
    assert_eq!(rt; pages.get(4), Some(&MapRow::Untouched));
}

#[test]
fn a_lent_page_is_taken_back(rt: HostRuntime) -> Result<(), Fail> {
    let vm = VmId::new(0);
    let spec = VmSpec {
        balloon_max: 4,
        ..SPEC
    };
    let path = [
        Event::Admit { vm, spec },
        Event::Start { vm },
        read(vm, 0),
        read(vm, 1),
        read(vm, 2),
        read(vm, 3),
        read(vm, 4),
        Event::Rebalance,
        Event::Lend { vm, page: 4 },
        Event::Lend { vm, page: 3 },
        Event::TakeBack { vm, page: 4 },
    ];
    let book = book_of(rt.alloc(), &FEW, &path)?;
    expect_taken_back(&rt, first_row(&book)?.pages.as_slice());
    Ok(())
}

/// A period of two accesses with one word.
fn sample(alloc: Global, vm: VmId) -> Result<Event, Fail> {
    let mut words = Vec::new(alloc);
    words.push(1)?;
    let words = Boxed::new(alloc, Rows::from_vec(words))?;
    let length = 2;
    Ok(Event::Sample { vm, length, words })
}

fn expect_open(
    rt: &impl Abort,
    alloc: Global,
    path: &[Event],
    want: (u32, u32),
) -> Result<(), Fail> {
    let book = book_of(alloc, &SITE, path)?;
    match &first_row(&book)?.period {
        Some(period) => assert_eq!(rt; (period.length, period.done), want),
        None => return Err(Fail::new("a period")),
    }
    Ok(())
}

fn expect_counted(rt: &impl Abort, alloc: Global, path: &[Event]) -> Result<(), Fail> {
    let book = book_of(alloc, &SITE, path)?;
    let row = first_row(&book)?;
    assert!(rt; row.period.is_none());
    assert_eq!(rt; (row.slow, row.fast), (65536, 65536));
    Ok(())
}

#[test]
fn a_period_opens_and_counts(rt: HostRuntime) -> Result<(), Fail> {
    let vm = VmId::new(0);
    let path = [
        Event::Admit { vm, spec: SPEC },
        Event::Start { vm },
        sample(rt.alloc(), vm)?,
        read(vm, 1),
        read(vm, 0),
    ];
    expect_open(&rt, rt.alloc(), &path[..3], (2, 0))?;
    expect_open(&rt, rt.alloc(), &path[..4], (2, 1))?;
    expect_counted(&rt, rt.alloc(), &path)
}

fn expect_pages(rt: &impl Abort, pages: &[MapRow]) {
    let here = |frame| MapRow::Here { frame };
    let expected = [
        here(2),
        MapRow::Out { slot: 0 },
        here(4),
        here(3),
        MapRow::Untouched,
        MapRow::Untouched,
    ];
    assert_eq!(rt; pages, expected.as_slice());
}

fn expect_one_held(rt: &impl Abort, slots: &[SlotRow]) {
    assert!(rt; matches!(slots, [SlotRow::Held { .. }, SlotRow::Free, ..]));
}

#[test]
fn a_page_makes_room_for_another(rt: HostRuntime) -> Result<(), Fail> {
    let (one, two) = (VmId::new(0), VmId::new(1));
    let spec = VmSpec { min: 3, ..SPEC };
    let path = [
        Event::Admit { vm: one, spec },
        Event::Admit { vm: two, spec },
        Event::Start { vm: one },
        Event::Start { vm: two },
        read(one, 0),
        read(one, 1),
        read(one, 2),
        read(two, 0),
        read(two, 1),
        read(two, 2),
        Event::Replace {
            vm: one,
            page: 3,
            word: 1,
        },
    ];
    let book = book_of(rt.alloc(), &FEW, &path)?;
    expect_pages(&rt, first_row(&book)?.pages.as_slice());
    expect_one_held(&rt, book.slots.as_slice());
    Ok(())
}

fn expect_first_page(rt: &impl Abort, pages: &[MapRow], want: MapRow) {
    assert_eq!(rt; pages.first(), Some(&want));
}

fn expect_overhead(rt: &impl Abort, frames: usize, want: usize) {
    assert_eq!(rt; frames, want);
}

fn expect_stopping(rt: &impl Abort, alloc: Global, path: &[Event]) -> Result<(), Fail> {
    let book = book_of(alloc, &SITE, path)?;
    let row = first_row(&book)?;
    assert_eq!(rt; row.state, VmState::Stopping);
    expect_first_page(rt, row.pages.as_slice(), MapRow::Here { frame: 2 });
    Ok(())
}

fn expect_dropped(rt: &impl Abort, alloc: Global, path: &[Event]) -> Result<(), Fail> {
    let book = book_of(alloc, &SITE, path)?;
    let row = first_row(&book)?;
    expect_first_page(rt, row.pages.as_slice(), MapRow::Untouched);
    expect_overhead(rt, row.overhead.len(), 2);
    Ok(())
}

fn expect_going(rt: &impl Abort, alloc: Global, path: &[Event]) -> Result<(), Fail> {
    let book = book_of(alloc, &SITE, path)?;
    expect_overhead(rt, first_row(&book)?.overhead.len(), 1);
    Ok(())
}

fn expect_gone(rt: &impl Abort, alloc: Global, path: &[Event]) -> Result<(), Fail> {
    let book = book_of(alloc, &SITE, path)?;
    assert!(rt; matches!(book.vms.as_slice(), [None, ..]));
    assert!(rt; are_free(book.frames.as_slice()));
    Ok(())
}

fn are_free(frames: &[FrameRow]) -> bool {
    frames.iter().all(|row| matches!(row, FrameRow::Free))
}

#[test]
fn a_machine_leaves(rt: HostRuntime) -> Result<(), Fail> {
    let vm = VmId::new(0);
    let spec = VmSpec {
        overhead: 2,
        ..SPEC
    };
    let path = [
        Event::Admit { vm, spec },
        Event::Start { vm },
        Event::Start { vm },
        read(vm, 0),
        Event::Stop { vm },
        Event::DropPage { vm, page: 0 },
        Event::Gone { vm },
        Event::Gone { vm },
    ];
    expect_stopping(&rt, rt.alloc(), &path[..5])?;
    expect_dropped(&rt, rt.alloc(), &path[..6])?;
    expect_going(&rt, rt.alloc(), &path[..7])?;
    expect_gone(&rt, rt.alloc(), &path)
}
