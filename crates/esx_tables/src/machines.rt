//! The machines of a site, and what is promised to all of them.

ghost use Rattle.std.specs.Prelude.{◌≡◌, ◌<◌, ◌≤◌, ℕ, ◌+◌, true, IfOk, MatchOption, None, Some, is_some, length, replicate, slice_index_or, sum_by};
ghost use Rattle.esx_types.specs.declared.config.TheConstants.{VM_NUMBERS};
ghost use Rattle.esx_lists.specs.Trades.{row_traded, place_traded};
ghost use Rattle.esx_tables.specs.Machines.{vm_traded};
ghost use Rattle.esx_tables.specs.Promised.{memory_of, swap_of, most_of_one, most_of_all, AreUsed};
ghost use Rattle.esx_tables.specs.declared.change.VmPart.TheVariants.{PageAt};

use crate::change::VmPart;
use crate::vm_table::VmTable;
use esx_types::{MapRow, Rows, VM_NUMBERS};
use std::alloc::{AllocError, Global};
use std::marker::Model;

/// The places of machines in order of number, seen as the list of all of them.
///
/// It knows the place behind the last machine, so that a walk over machines passes no place from there on, and keeps
/// what is promised to all machines, so that reading it passes none. No call takes memory but `none`.
#[derive(Drop)]
pub struct Machines {
    rows: Rows<Option<VmTable>>,
    used: usize,
    memory: u32,
    swap: u32,
}

impl Model for Machines {
    ghost use Rattle.std.specs.Prelude.{List, Option};
    ghost use Rattle.esx_model.specs.declared.book.VmRow.{VmRow};
    ghost use Rattle.esx_tables.specs.Promised.{AreKept};

    ghost Value = { List (Option VmRow) };

    ghost view = { λ a. a.rows };

    ghost invariant = { λ a. AreKept a.rows a.used a.memory a.swap };
}

/// The frames that are promised to a machine.
fn memory_of(row: &Option<VmTable>) -> u32
    ensures value { result ≡ memory_of row.now }
    ensures most { result ≤ most_of_one }
{
    match row {
        None => 0,
        Some(row) => {
            let spec = row.spec();
            spec.min + spec.overhead
        }
    }
}

/// The slots that are promised to a machine.
fn swap_of(row: &Option<VmTable>) -> u32
    ensures value { result ≡ swap_of row.now }
    ensures most { result ≤ most_of_one }
{
    match row {
        None => 0,
        Some(row) => {
            let spec = row.spec();
            spec.max - spec.min
        }
    }
}

/// The place behind the last machine that stands below a place.
fn used_below(rows: &[Option<VmTable>], top: usize) -> usize
    requires { top ≤ length rows.now }
    ensures few { result ≤ top }
    ensures past { (n : ℕ) → result ≤ n → n < top → slice_index_or rows.now n None ≡ None }
    ensures last { (n : ℕ) → n + 1 ≡ result → is_some (slice_index_or rows.now n None) ≡ true }
{
    for number in (0..top).rev() {
        if rows[number].is_some() {
            return number + 1;
        }
    }
    0
}

fn no_machines(alloc: Global) -> Result<Rows<Option<VmTable>>, AllocError>
    ensures { IfOk result (λ rows. rows ≡ replicate VM_NUMBERS None) }
{
    let mut rows = Vec::with_capacity(alloc, VM_NUMBERS)?;
    for _number in 0..VM_NUMBERS {
        rows.push(None)?;
    }
    Ok(Rows::from_vec(rows))
}

fn tell_period(vm: &mut Option<VmTable>)
    ensures { vm.new ≡ vm.old }
{
    if let Some(vm) = vm {
        vm.tell_period();
    }
}

fn trade_part(vm: &mut Option<VmTable>, part: &mut VmPart)
    ensures vm { vm.new ≡ (vm_traded vm.old part.old).0 }
    ensures part { part.new ≡ (vm_traded vm.old part.old).1 }
{
    if let Some(vm) = vm {
        vm.trade(part);
    }
}

fn trade_page(vm: &mut Option<VmTable>, page: u32, row: &mut MapRow)
    ensures vm { vm.new ≡ (vm_traded vm.old (PageAt page row.old)).0 }
    ensures row { PageAt page row.new ≡ (vm_traded vm.old (PageAt page row.old)).1 }
{
    if let Some(vm) = vm {
        vm.trade_page(page, row);
    }
}

impl Machines {
    /// No machine at any place.
    pub fn none(alloc: Global) -> Result<Machines, AllocError>
        ensures { IfOk result (λ machines. machines ≡ replicate VM_NUMBERS None) }
    {
        Ok(Machines {
            rows: no_machines(alloc)?,
            used: 0,
            memory: 0,
            swap: 0,
        })
    }

    /// The machine at a place, if there is one.
    pub fn get(&self, at: usize) -> Option<&VmTable>
        ensures { MatchOption result (slice_index_or self.now at None ≡ None) (λ v. slice_index_or self.now at None ≡ Some v.now) }
    {
        match self.rows.as_slice().get(at) {
            Some(Some(vm)) => Some(vm),
            _ => None,
        }
    }

    /// All places.
    pub fn all(&self) -> &[Option<VmTable>]
        ensures { result.now ≡ self.now }
    {
        self.rows.as_slice()
    }

    /// The places up to the last machine.
    pub fn used(&self) -> &[Option<VmTable>]
        ensures { AreUsed result.now self.now }
    {
        &self.rows.as_slice()[..self.used]
    }

    /// The frames that are promised to all machines.
    pub fn memory(&self) -> u32
        ensures value { result ≡ sum_by memory_of self.now }
        ensures most { result ≤ most_of_all }
    {
        self.memory
    }

    /// The slots that are promised to all machines.
    pub fn swap(&self) -> u32
        ensures value { result ≡ sum_by swap_of self.now }
        ensures most { result ≤ most_of_all }
    {
        self.swap
    }

    /// Trades a place. Past the end nothing changes. If the last machine goes, the places down to the next one are
    /// passed.
    pub fn trade(&mut self, at: usize, row: &mut Option<VmTable>)
        ensures machines { self.new ≡ (row_traded self.old at row.old).0 }
        ensures row { row.new ≡ (row_traded self.old at row.old).1 }
    {
        if at < self.rows.len() {
            let memory = memory_of(row);
            let swap = swap_of(row);
            self.rows.trade(at, row);
            self.memory = self.memory - memory_of(row) + memory;
            self.swap = self.swap - swap_of(row) + swap;
            self.used = used_below(self.rows.as_slice(), self.used.max(at + 1));
        }
    }

    /// Trades a part of the machine at a place. Where there is no machine nothing changes.
    pub fn trade_part(&mut self, at: usize, part: &mut VmPart)
        ensures machines { self.new ≡ (place_traded vm_traded self.old at None part.old).0 }
        ensures part { part.new ≡ (place_traded vm_traded self.old at None part.old).1 }
    {
        if at < self.used {
            trade_part(self.rows.row_mut(at), part);
        }
    }

    /// Trades where a page of the machine at a place is. Where there is no such page nothing changes.
    pub fn trade_page(&mut self, at: usize, page: u32, row: &mut MapRow)
        ensures machines { self.new ≡ (place_traded vm_traded self.old at None (PageAt page row.old)).0 }
        ensures row { PageAt page row.new ≡ (place_traded vm_traded self.old at None (PageAt page row.old)).1 }
    {
        if at < self.used {
            trade_page(self.rows.row_mut(at), page, row);
        }
    }

    /// An access of the machine at a place is to come.
    pub fn tell_period(&mut self, at: usize)
        ensures { self.new ≡ self.old }
    {
        if at < self.used {
            tell_period(self.rows.row_mut(at));
        }
    }
}
