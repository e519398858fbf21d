//! The map: its rows, and the numbers of pages in frames, in slots and lent.

ghost use Rattle.std.specs.Prelude.{◌≡◌, ◌<◌, ◌*◌, IfOk, IsTrue, length, replicate, slice_index, slice_index_or, slice_set};
ghost use Rattle.esx_types.specs.declared.table.MapRow.{MapRow};
ghost use Rattle.esx_types.specs.declared.table.MapRow.TheVariants.{Untouched};
ghost use Rattle.esx_types.specs.Pages.{is_here, page_at, resident_count, resident_pages, out_count, lent_count};
ghost use Rattle.esx_pmap.specs.Blocks.{block_count};

use crate::blocks::{nth_block, nth_here};
use crate::loans::{Loan, enter, leave, lent_in};
use esx_grown::Grown;
use esx_lists::recount;
use esx_types::MapRow;
use std::alloc::{AllocError, Global};
use std::marker::Model;
use std::mem;

/// How many pages a block has; the last may have fewer.
const BLOCK: usize = 256;

/// Where the pages of a virtual machine are, seen as the list of their rows; a page's number is its place.
///
/// The room for all rows and loans is taken by `new`, which touches none of it: the first change of a page's
/// row writes the rows below it that were never written. No later call takes memory. A resident page is found
/// by passing whole blocks of pages by their counts. The pages lent are counted by their epochs, so that a
/// machine's next epoch, and its last one again, cost nothing here.
#[derive(Drop)]
pub struct PageMap {
    rows: Grown<MapRow>,
    blocks: Vec<u32>,
    resident: u32,
    out: u32,
    loans: Vec<Loan>,
}

impl Model for PageMap {
    ghost use Rattle.std.specs.Prelude.{List, vec_capacity};
    ghost use Rattle.esx_types.specs.declared.table.MapRow.{MapRow};
    ghost use Rattle.esx_pmap.specs.Map.{IsMap, AreLent};

    ghost Value = { List MapRow };

    ghost view = { λ a. a.rows };

    ghost invariant = { λ a. IsMap a.rows a.blocks.items a.resident a.out × AreLent a.rows a.loans.items (vec_capacity a.loans) };
}

impl PageMap {
    /// A map of `max` pages that were never touched.
    pub fn new(alloc: Global, max: u32) -> Result<PageMap, AllocError>
        ensures { IfOk result (λ map. map ≡ replicate max Untouched) }
    {
        let len = max as usize;
        Ok(PageMap {
            rows: Grown::new(alloc, len)?,
            blocks: vec![in alloc; 0; len.div_ceil(BLOCK)]?,
            resident: 0,
            out: 0,
            loans: Vec::with_capacity(alloc, len)?,
        })
    }

    /// How many pages there are.
    pub fn len(&self) -> u32
        ensures { result ≡ length self.now }
    {
        self.rows.len() as u32
    }

    /// The row of a page.
    pub fn at(&self, page: u32) -> MapRow
        requires { page < length self.now }
        ensures { result ≡ page_at self.now page }
    {
        *self.rows.row(page as usize)
    }

    /// Exchanges a page's row with the one that is handed over.
    pub fn swap_row(&mut self, page: u32, row: &mut MapRow)
        requires { page < length self.old }
        ensures rows { self.new ≡ slice_set self.old page row.old }
        ensures row { row.new ≡ page_at self.old page }
    {
        let at = page as usize;
        let there = self.rows.row_mut(at);
        let old = *there;
        let (was, is) = (old.is_here(), row.is_here());
        recount(&mut self.resident, was, is);
        recount(&mut self.blocks[at / BLOCK], was, is);
        recount(&mut self.out, old.is_out(), row.is_out());
        leave(&mut self.loans, &old);
        enter(&mut self.loans, row);
        mem::swap(there, row);
    }

    /// Trades a page's row with the one that is handed over. Past the end nothing changes.
    pub fn trade(&mut self, page: u32, row: &mut MapRow)
        ensures rows { self.new ≡ slice_set self.old page row.old }
        ensures row { row.new ≡ slice_index_or self.old page row.old }
    {
        if page < self.len() {
            self.swap_row(page, row);
        }
    }

    /// How many pages are in a swap slot.
    pub fn out(&self) -> u32
        ensures { result ≡ out_count self.now }
    {
        self.out
    }

    /// How many pages were lent in an epoch.
    pub fn lent(&self, epoch: u32) -> u32
        ensures { result ≡ lent_count epoch self.now }
    {
        lent_in(&self.loans, epoch)
    }

    /// How many pages are in a frame.
    pub fn resident(&self) -> u32
        ensures { result ≡ resident_count self.now }
    {
        self.resident
    }

    /// How many pages of a block are in a frame.
    pub fn block(&self, block: u32) -> u32
        requires { block * BLOCK < length self.now }
        ensures { result ≡ block_count self.now block }
    {
        self.blocks[block as usize]
    }

    /// The page that comes `k`-th, counted from 0, among those that are in a frame.
    pub fn nth_resident(&self, k: u32) -> u32
        requires { k < resident_count self.now }
        ensures page { result ≡ slice_index (resident_pages self.now) k }
        ensures in_range { result < length self.now }
        ensures here { IsTrue (is_here (page_at self.now result)) }
    {
        let (block, rest) = nth_block(&self.blocks, k);
        let used = self.rows.used();
        let start = block * BLOCK;
        let end = (start + BLOCK).min(used.len());
        let page = start + nth_here(&used[start..end], rest);
        page as u32
    }
}

#[cfg(test)]
mod tests {
    use super::*;
    use std::test::Fail;

    #[test]
    fn finds_resident_pages_over_blocks(rt: HostRuntime) -> Result<(), Fail> {
        let mut map = PageMap::new(rt.alloc(), 600)?;
        let pages = [0, 255, 256, 511, 512, 599];
        for page in pages {
            assert!(rt; page < map.len());
            map.swap_row(page, &mut MapRow::Here { frame: page });
        }
        assert_eq!(rt; map.len(), 600);
        assert_eq!(rt; map.resident(), 6);
        for (k, page) in pages.iter().enumerate() {
            assert_eq!(rt; map.nth_resident(k as u32), *page);
        }
        for block in 0..3 {
            assert_eq!(rt; map.block(block), 2);
        }
        map.swap_row(256, &mut MapRow::Untouched);
        assert_eq!(rt; map.resident(), 5);
        assert_eq!(rt; map.nth_resident(2), 511);
        assert_eq!(rt; map.block(1), 1);
        Ok(())
    }

    #[test]
    fn reaches_pages_in_any_order(rt: HostRuntime) -> Result<(), Fail> {
        let mut map = PageMap::new(rt.alloc(), 600)?;
        map.swap_row(300, &mut MapRow::Here { frame: 7 });
        assert_eq!(rt; map.resident(), 1);
        assert_eq!(rt; map.nth_resident(0), 300);
        map.swap_row(20, &mut MapRow::Here { frame: 8 });
        assert_eq!(rt; map.resident(), 2);
        assert_eq!(rt; map.nth_resident(0), 20);
        assert_eq!(rt; map.nth_resident(1), 300);
        assert_eq!(rt; map.at(300), MapRow::Here { frame: 7 });
        assert_eq!(rt; map.at(299), MapRow::Untouched);
        assert_eq!(rt; map.at(599), MapRow::Untouched);
        Ok(())
    }

    #[test]
    fn counts_pages_out_and_lent(rt: HostRuntime) -> Result<(), Fail> {
        let mut map = PageMap::new(rt.alloc(), 4)?;
        for (page, epoch) in [(0, 5), (1, 5), (2, 3), (9, 5)] {
            map.trade(page, &mut MapRow::Lent { epoch });
        }
        map.trade(3, &mut MapRow::Out { slot: 0 });
        assert_eq!(rt; map.out(), 1);
        assert_eq!(rt; map.lent(5), 2);
        assert_eq!(rt; map.lent(3), 1);
        assert_eq!(rt; map.lent(4), 0);
        let mut row = MapRow::Untouched;
        map.trade(2, &mut row);
        assert_eq!(rt; row, MapRow::Lent { epoch: 3 });
        assert_eq!(rt; map.lent(3), 0);
        assert_eq!(rt; map.len(), 4);
        Ok(())
    }
}
