//! Keys that are found without a hash: at a frame whose page has the same bytes.

ghost use Rattle.std.specs.Prelude.{◌≡◌, ◌+◌, ◌<◌, ◌≤◌, ◌^◌, IfSome, length};
ghost use Rattle.esx_types.specs.Frames.{bytes_of};
ghost use Rattle.esx_formulas.specs.Key.{content_key};
ghost use Rattle.esx_known.specs.Known.{KnowsKeys};
ghost use Rattle.esx_frames.specs.Known.{bytes_in};

use esx_formulas::content_key;
use esx_grown::Grown;
use esx_known::KnownKeys;
use esx_types::FrameRow;
use std::alloc::Global;

/// Where a page has so many bytes or more, a page with the same bytes is looked for before it is hashed.
const FINGERPRINTED_FROM: usize = 384;

/// How many fingerprints there are.
const FINGERPRINTS: usize = 16384;

/// Where no frame was seen: past the end of every table.
const NO_FRAME: u32 = u32::MAX;

/// For each fingerprint a frame whose page had it when its key was hashed. It is a hint: the page may have changed
/// since, and other pages have the same fingerprint, so its bytes are compared before its key is taken.
#[derive(Drop)]
pub(crate) struct Seen {
    frames: Vec<u32>,
}

impl Seen {
    /// No frame was seen, and no memory is taken.
    pub(crate) fn new(alloc: Global) -> Seen {
        Seen {
            frames: Vec::new(alloc),
        }
    }

    /// The frame that was seen with a fingerprint.
    fn get(&self, fingerprint: usize) -> u32 {
        match self.frames.get(fingerprint) {
            Some(frame) => *frame,
            None => NO_FRAME,
        }
    }

    /// Notes a frame under a fingerprint. The first call takes memory; where that is refused no frame is noted.
    fn note(&mut self, fingerprint: usize, mpn: u32) {
        if self.frames.is_empty() && self.frames.resize(FINGERPRINTS, NO_FRAME).is_err() {
            return;
        }
        if fingerprint < self.frames.len() {
            self.frames[fingerprint] = mpn;
        }
    }

    /// The key of these bytes, where a page that was seen has them and its key is kept.
    pub(crate) fn find(
        &self,
        rows: &Grown<FrameRow>,
        known: &KnownKeys,
        bytes: &[u8],
    ) -> Option<u64>
        requires { KnowsKeys (bytes_in rows.now) known.now }
        ensures { IfSome result (λ key. key ≡ content_key bytes.now) }
    {
        if bytes.len() < FINGERPRINTED_FROM {
            return None;
        }
        key_of_equal(rows, known, self.get(fingerprint(bytes)), bytes)
    }

    /// The key of the page with these bytes in a frame. It is hashed only where none is found, and the frame is noted then.
    pub(crate) fn key(
        &mut self,
        rows: &Grown<FrameRow>,
        known: &KnownKeys,
        mpn: u32,
        bytes: &[u8],
    ) -> u64
        requires { KnowsKeys (bytes_in rows.now) known.now }
        ensures { result ≡ content_key bytes.now }
    {
        if bytes.len() < FINGERPRINTED_FROM {
            return content_key(bytes);
        }
        let fingerprint = fingerprint(bytes);
        if let Some(key) = key_of_equal(rows, known, self.get(fingerprint), bytes) {
            return key;
        }
        self.note(fingerprint, mpn);
        content_key(bytes)
    }
}

/// The bytes of a page; none where no page is.
pub(crate) fn bytes_of(row: &FrameRow) -> &[u8]
    ensures { result.now ≡ bytes_of row.now }
{
    match row {
        FrameRow::Private { bytes } => bytes.as_slice(),
        FrameRow::Shared { bytes, .. } => bytes.as_slice(),
        FrameRow::Free | FrameRow::Overhead => &[],
    }
}

/// The key of the page in a frame, where it is kept and the page has these bytes.
fn key_of_equal(rows: &Grown<FrameRow>, known: &KnownKeys, mpn: u32, bytes: &[u8]) -> Option<u64>
    requires { KnowsKeys (bytes_in rows.now) known.now }
    ensures { IfSome result (λ key. key ≡ content_key bytes.now) }
{
    let key = known.get(mpn)?;
    let row = rows.get(mpn as usize)?;
    if bytes_of(row) == bytes {
        Some(key)
    } else {
        None
    }
}

/// A hash with one more word.
#[inline(always)]
fn mixed(hash: u64, word: u64) -> u64 {
    (hash ^ word)
        .wrapping_mul(0x9E37_79B9_7F4A_7C15)
        .rotate_left(29)
}

/// The word at that byte.
#[inline(always)]
fn word_at(bytes: &[u8], at: usize) -> u64
    requires { at + 8 ≤ length bytes.now }
{
    u64::from_le_bytes([
        bytes[at],
        bytes[at + 1],
        bytes[at + 2],
        bytes[at + 3],
        bytes[at + 4],
        bytes[at + 5],
        bytes[at + 6],
        bytes[at + 7],
    ])
}

/// A short hash of all bytes of a page, by words of eight in four lanes.
fn fingerprint(bytes: &[u8]) -> usize
    ensures { result < 2 ^ 14 }
{
    let groups = bytes.len() / 32;
    let (mut a, mut b, mut c, mut d) = (0, 0, 0, 0);
    'groups: for i in 0..groups {
        let words = &bytes[32 * i..32 * i + 32];
        a = mixed(a, word_at(words, 0));
        b = mixed(b, word_at(words, 8));
        c = mixed(c, word_at(words, 16));
        d = mixed(d, word_at(words, 24));
    }
    'rest: for byte in &bytes[32 * groups..] {
        a = mixed(a, u64::from(*byte));
    }
    let hash = mixed(mixed(mixed(a, b), c), d);
    (hash >> 50) as usize
}

#[cfg(test)]
mod tests {
    use super::*;
    use crate::FrameTable;
    use esx_types::Bytes;
    use std::test::Fail;

    /// Are the keys that a table learns of up to eight pages with these bytes, in their order, those of the bytes?
    fn are_learnt(alloc: Global, pages: &[&[u8]]) -> Result<bool, Fail> {
        let mut table = FrameTable::new(alloc, 8, 4096)?;
        let mut are_right = true;
        for (mpn, page) in (0..).zip(pages) {
            let bytes = Bytes::copy_of(alloc, page)?;
            table.trade(mpn, &mut FrameRow::Private { bytes });
            table.learn_key(mpn);
            let key = Some(content_key(page));
            are_right &= table.known_key(mpn) == key && table.found_key(mpn) == key;
        }
        Ok(are_right)
    }

    /// A page that begins with a number, of as few bytes as those that are looked for.
    fn numbered(number: u32) -> [u8; 384] {
        let mut page = [7; 384];
        page[..4].copy_from_slice(&number.to_le_bytes());
        page
    }

    #[test]
    fn equal_pages_have_one_key(rt: HostRuntime) -> Result<(), Fail> {
        let bytes = [9; 4096];
        for len in [1, 256, 383, 384, 385, 400, 4096] {
            let page = &bytes[..len];
            assert!(rt; are_learnt(rt.alloc(), &[page, page, page])?);
        }
        Ok(())
    }

    #[test]
    fn pages_differ_in_one_byte(rt: HostRuntime) -> Result<(), Fail> {
        let page = [9; 4096];
        for at in [0, 1, 31, 32, 2048, 4095] {
            let mut other = page;
            other[at] = 8;
            assert!(rt; are_learnt(rt.alloc(), &[&page, &other, &page, &other])?);
        }
        assert!(rt; are_learnt(rt.alloc(), &[&page[..384], &page[..385], &page[..383]])?);
        Ok(())
    }

    #[test]
    fn pages_of_one_fingerprint_have_two_keys(rt: HostRuntime) -> Result<(), Fail> {
        let page = numbered(0);
        let like = fingerprint(&page);
        let mut found = 0;
        for number in 1..1_000_000 {
            let other = numbered(number);
            if found < 3 && fingerprint(&other) == like {
                found += 1;
                assert!(rt; are_learnt(rt.alloc(), &[&page, &other, &page, &other])?);
            }
        }
        assert_eq!(rt; found, 3);
        Ok(())
    }

    #[test]
    fn finds_the_key_of_an_equal_page(rt: HostRuntime) -> Result<(), Fail> {
        let mut table = FrameTable::new(rt.alloc(), 3, 384)?;
        for (mpn, number) in [(0, 1), (1, 2), (2, 1)] {
            let bytes = Bytes::copy_of(rt.alloc(), &numbered(number))?;
            table.trade(mpn, &mut FrameRow::Private { bytes });
        }
        assert_eq!(rt; table.found_key(0), None);
        table.learn_key(0);
        assert_eq!(rt; table.known_key(2), None);
        assert_eq!(rt; table.found_key(2), Some(content_key(&numbered(1))));
        assert_eq!(rt; table.found_key(1), None);
        assert_eq!(rt; table.found_key(3), None);
        Ok(())
    }

    #[test]
    fn a_page_seen_has_changed(rt: HostRuntime) -> Result<(), Fail> {
        let mut table = FrameTable::new(rt.alloc(), 2, 384)?;
        let first = numbered(1);
        let second = numbered(2);
        for page in [&first, &second, &first] {
            let bytes = Bytes::copy_of(rt.alloc(), page)?;
            table.trade(0, &mut FrameRow::Private { bytes });
            let bytes = Bytes::copy_of(rt.alloc(), &first)?;
            table.trade(1, &mut FrameRow::Private { bytes });
            table.learn_key(1);
            table.learn_key(0);
            assert_eq!(rt; table.known_key(0), Some(content_key(page)));
            assert_eq!(rt; table.known_key(1), Some(content_key(&first)));
        }
        Ok(())
    }
}
