//! What is run of listings and keys.

use esx_keys::{Entry, Keys, Kind, Listings, key};
use esx_types::{Hint, KeyRow, Listing, VmId};
use std::process::Abort;
use std::test::Fail;

fn expect_key(rt: &impl Abort, bytes: &[u8], want: u64) {
    assert_eq!(rt; key(bytes), want);
}

fn expect_frame(rt: &impl Abort, found: Option<u32>, want: Option<u32>) {
    assert_eq!(rt; found, want);
}

fn expect_page(rt: &impl Abort, found: Option<(VmId, u32)>, want: Option<(VmId, u32)>) {
    assert_eq!(rt; found, want);
}

fn expect_entry(rt: &impl Abort, found: Option<Entry>, want: Entry) {
    assert_eq!(rt; found, Some(want));
}

fn expect_listing(rt: &impl Abort, found: Listing, want: Listing) {
    assert_eq!(rt; found, want);
}

#[test]
fn key_is_the_first_eight_bytes(rt: HostRuntime) {
    expect_key(&rt, b"abc", 0xba78_16bf_8f01_cfea);
    expect_key(&rt, b"", 0xe3b0_c442_98fc_1c14);
}

fn expect_chain(rt: &impl Abort, found: u32, want: u32) {
    assert_eq!(rt; found, want);
}

/// The least key with this short.
fn key_of(short: u64) -> u64 {
    short << 32
}

#[test]
fn one_head_holds_eight_hints(rt: HostRuntime) -> Result<(), Fail> {
    let vm = VmId::new(0);
    let mut keys = Keys::new(rt.alloc(), 8)?;
    for page in 0..8_u32 {
        let key = key_of(u64::from(page) * 8);
        assert!(rt; keys.hint(key).is_none());
        keys.put(key, Entry::Hint { vm, page });
    }
    expect_chain(&rt, keys.chain(0), 8);
    expect_chain(&rt, keys.chain(1), 0);
    assert_eq!(rt;
        keys.take(key_of(24), Kind::Hint),
        Some(Entry::Hint { vm, page: 3 })
    );
    for page in [0, 1, 2, 4, 5, 6, 7_u32] {
        let key = key_of(u64::from(page) * 8);
        expect_page(&rt, keys.hint(key), Some((vm, page)));
    }
    let key = key_of(64);
    assert!(rt; keys.hint(key).is_none());
    keys.put(key, Entry::Hint { vm, page: 8 });
    expect_page(&rt, keys.hint(key), Some((vm, 8)));
    Ok(())
}

#[test]
fn keys_with_one_short_have_one_hint(rt: HostRuntime) -> Result<(), Fail> {
    let vm = VmId::new(1);
    let mut keys = Keys::new(rt.alloc(), 3)?;
    let (one, other) = (0x5_0000_0000, 0x5_0000_0001);
    assert!(rt; keys.shared(one).is_none());
    keys.put(one, Entry::Shared { frame: 3 });
    assert!(rt; keys.shared(other).is_none());
    keys.put(other, Entry::Shared { frame: 4 });
    assert!(rt; keys.hint(one).is_none());
    keys.put(one, Entry::Hint { vm, page: 2 });
    expect_page(&rt, keys.hint(other), Some((vm, 2)));
    expect_frame(&rt, keys.shared(one), Some(3));
    expect_frame(&rt, keys.shared(other), Some(4));
    expect_entry(
        &rt,
        keys.take(other, Kind::Hint),
        Entry::Hint { vm, page: 2 },
    );
    expect_page(&rt, keys.hint(one), None);
    Ok(())
}

#[test]
fn a_key_leads_to_a_frame_and_a_page(rt: HostRuntime) -> Result<(), Fail> {
    let vm = VmId::new(255);
    let mut keys = Keys::new(rt.alloc(), 2)?;
    assert!(rt; keys.shared(7).is_none());
    keys.put(7, Entry::Shared { frame: 5 });
    assert!(rt; keys.hint(7).is_none());
    keys.put(7, Entry::Hint { vm, page: 6 });
    expect_frame(&rt, keys.shared(7), Some(5));
    expect_page(&rt, keys.hint(7), Some((vm, 6)));
    expect_entry(&rt, keys.take(7, Kind::Shared), Entry::Shared { frame: 5 });
    expect_frame(&rt, keys.shared(7), None);
    expect_page(&rt, keys.hint(7), Some((vm, 6)));
    Ok(())
}

#[test]
fn the_least_frame_under_a_key_is_found(rt: HostRuntime) -> Result<(), Fail> {
    let vm = VmId::new(3);
    let mut listings = Listings::new(rt.alloc(), 4)?;
    let mut hint = Listing::Hinted {
        vm,
        page: 9,
        key: 5,
    };
    for frame in [3, 1, 2] {
        listings.trade(frame, &mut Listing::Shared { key: 5 });
    }
    expect_frame(&rt, listings.shared_under(5), Some(1));
    listings.trade(1, &mut hint);
    expect_listing(&rt, hint, Listing::Shared { key: 5 });
    expect_frame(&rt, listings.shared_under(5), Some(2));
    expect_frame(&rt, listings.hinted_under(5), Some(1));
    expect_frame(&rt, listings.hinted_under(9), None);
    listings.trade(4, &mut hint);
    expect_listing(&rt, hint, Listing::Shared { key: 5 });
    listings.trade(1, &mut hint);
    expect_frame(&rt, listings.shared_under(5), Some(1));
    expect_listing(&rt, listings.get(0), Listing::Unlisted);
    Ok(())
}

fn list_in_order(listings: &mut Listings, vm: VmId) {
    listings.trade(0, &mut Listing::Shared { key: 8 });
    listings.trade(2, &mut Listing::Shared { key: 7 });
    listings.trade(5, &mut Listing::Shared { key: 7 });
    listings.trade(
        3,
        &mut Listing::Hinted {
            vm,
            page: 1,
            key: 9,
        },
    );
    listings.trade(
        4,
        &mut Listing::Hinted {
            vm,
            page: 0,
            key: 2,
        },
    );
}

fn expect_shared(rt: &impl Abort, shared: &[KeyRow]) {
    assert_eq!(rt;
        shared,
        [
            KeyRow { key: 7, frame: 2 },
            KeyRow { key: 7, frame: 5 },
            KeyRow { key: 8, frame: 0 }
        ]
        .as_slice()
    );
}

fn expect_hints(rt: &impl Abort, hints: &[Hint], vm: VmId) {
    assert_eq!(rt;
        hints,
        [
            Hint {
                key: 2,
                vm,
                page: 0
            },
            Hint {
                key: 9,
                vm,
                page: 1
            }
        ]
        .as_slice()
    );
}

#[test]
fn what_stands_is_read_in_order_of_key(rt: HostRuntime) -> Result<(), Fail> {
    let vm = VmId::new(3);
    let mut listings = Listings::new(rt.alloc(), 6)?;
    list_in_order(&mut listings, vm);
    let shared = listings.shared(rt.alloc())?;
    expect_shared(&rt, shared.as_slice());
    let hints = listings.hints(rt.alloc())?;
    expect_hints(&rt, hints.as_slice(), vm);
    Ok(())
}
