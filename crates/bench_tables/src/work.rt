//! The works that are measured.

ghost use Rattle.std.specs.Prelude.{◌≡◌, ◌<◌, length};

use crate::draws::{Draws, mixed};
use esx_frames::FrameTable;
use esx_pmap::PageMap;
use esx_types::{FrameRow, MapRow};
use std::alloc::{AllocError, Global};

#[derive(Clone, Copy)]
pub enum Work {
    /// Random accesses of a plain array whose rows are as large as a frame's.
    Array,
    /// `take_least`, from a table of free frames on.
    Take,
    /// The same after all frames were taken, with frames freed at random between.
    Swap,
    /// `nth_resident` at random, where about half of the pages are in a frame.
    Resident,
}

impl Work {
    pub fn named(name: &str) -> Option<Work> {
        match name {
            "array" => Some(Work::Array),
            "take" => Some(Work::Take),
            "swap" => Some(Work::Swap),
            "resident" => Some(Work::Resident),
            _ => None,
        }
    }

    /// Does the work so many times, and gives a checksum of the answers.
    pub fn run(self, alloc: Global, size: u32, count: u32) -> Result<u64, AllocError>
        requires { 0 < size }
    {
        match self {
            Work::Array => array(alloc, size, count),
            Work::Take => {
                let mut table = FrameTable::new(alloc, size, 4096)?;
                Ok(take(&mut table, count))
            }
            Work::Swap => {
                let mut table = FrameTable::new(alloc, size, 4096)?;
                let taken = take(&mut table, size);
                Ok(swap(&mut table, taken, size, count))
            }
            Work::Resident => resident(alloc, size, count),
        }
    }
}

fn array(alloc: Global, size: u32, count: u32) -> Result<u64, AllocError>
    requires { 0 < size }
{
    let mut rows = vec![in alloc; [0u64; 4]; size as usize]?;
    let mut draws = Draws::new();
    let mut sum = 0;
    for step in 0..count {
        let row = &mut rows[draws.below(size) as usize];
        sum = mixed(sum, (row[0] % 1024) as u32);
        row[0] = u64::from(step);
    }
    Ok(sum)
}

fn take(table: &mut FrameTable, count: u32) -> u64
    ensures { length table.new ≡ length table.old }
{
    let mut sum = 0;
    for _ in 0..count {
        if let Ok(mpn) = table.take_least(FrameRow::Overhead) {
            sum = mixed(sum, mpn);
        }
    }
    sum
}

fn swap(table: &mut FrameTable, taken: u64, size: u32, count: u32) -> u64
    requires some { 0 < size }
    requires size { size ≡ length table.old }
{
    let mut draws = Draws::new();
    let mut sum = taken;
    for _ in 0..count {
        if draws.below(2) == 0 {
            table.swap_row(draws.below(size), &mut FrameRow::Free);
        } else if let Ok(mpn) = table.take_least(FrameRow::Overhead) {
            sum = mixed(sum, mpn);
        }
    }
    sum
}

fn resident(alloc: Global, size: u32, count: u32) -> Result<u64, AllocError>
    requires { 0 < size }
{
    let map = half_resident(alloc, size)?;
    let mut draws = Draws::new();
    let mut sum = 0;
    let resident = map.resident();
    if resident > 0 {
        for _ in 0..count {
            sum = mixed(sum, map.nth_resident(draws.below(resident)));
        }
    }
    Ok(sum)
}

fn half_resident(alloc: Global, size: u32) -> Result<PageMap, AllocError> {
    let mut map = PageMap::new(alloc, size)?;
    let mut draws = Draws::new();
    for page in 0..size {
        if draws.below(2) == 0 {
            map.swap_row(page, &mut MapRow::Here { frame: page });
        }
    }
    Ok(map)
}
