//! A virtual machine's row, with room for every overhead frame that it will take.

ghost use Rattle.std.specs.Prelude.{◌≡◌, ◌<◌, ◌≤◌, IfOk, false, length, slice_index, vec_len, vec_capacity};
ghost use Rattle.esx_types.specs.declared.config.TheConstants.{MAX_OVERHEAD};
ghost use Rattle.esx_types.specs.Ranges.{IsGood};
ghost use Rattle.esx_types.specs.Pages.{page_at, resident_count, resident_pages};
ghost use Rattle.esx_lists.specs.Trades.{top_traded};
ghost use Rattle.esx_model.specs.event.Admission.{admitted};
ghost use Rattle.esx_model.specs.Tables.{vm_table, standing_of};
ghost use Rattle.esx_tables.specs.Machines.{facts_of, part_traded};
ghost use Rattle.esx_tables.specs.Bounds.{AreSizes};
ghost use Rattle.esx_tables.specs.declared.change.VmPart.TheVariants.{PageAt};
ghost use Rattle.esx_tables.specs.Fields.{fields_with, facts_in};
ghost use Rattle.esx_tables.specs.Sampled.{samples, touched_marks};

use crate::change::{Facts, VmPart};
use crate::period::OpenPeriod;
use esx_average::Averages;
use esx_model::{PeriodRow, Standing};
use esx_pmap::PageMap;
use esx_types::{MapRow, VmSpec, VmState};
use std::alloc::{AllocError, Global};
use std::marker::Model;
use std::mem;

/// The fields of a row.
#[derive(Drop)]
struct Fields {
    spec: VmSpec,
    state: VmState,
    epoch: u32,
    due: bool,
    target: u32,
    overhead: Vec<u32>,
    pages: PageMap,
    averages: Averages,
    period: OpenPeriod,
}

/// A virtual machine with its page map, on the heap. Its overhead frames stand in room that was taken when
/// it was admitted, so that none of its changes takes memory, and its page map keeps the numbers of pages
/// in frames, in slots and lent.
#[derive(Drop)]
pub struct VmTable {
    fields: Box<Fields>,
}

impl Model for VmTable {
    ghost use Rattle.std.specs.Prelude.{◌≡◌, ◌≤◌, length, vec_len, vec_capacity};
    ghost use Rattle.esx_model.specs.declared.book.VmRow.{VmRow};
    ghost use Rattle.esx_tables.specs.Bounds.{AreSizes};

    ghost Value = { VmRow };

    ghost view = { λ a. record { spec = a.fields.value.spec; state = a.fields.value.state; epoch = a.fields.value.epoch; due = a.fields.value.due; target = a.fields.value.target; overhead = a.fields.value.overhead.items; pages = a.fields.value.pages; slow = a.fields.value.averages.slow; fast = a.fields.value.averages.fast; period = a.fields.value.period } };

    ghost invariant = { λ a. (vec_len a.fields.value.overhead ≤ a.fields.value.spec.overhead) × (a.fields.value.spec.overhead ≤ vec_capacity a.fields.value.overhead) × AreSizes a.fields.value.spec × (length a.fields.value.pages ≡ a.fields.value.spec.max) };
}

impl VmTable {
    /// A machine as it is admitted: it has none of its frames, and counts as fully active.
    #[tactic(auto, using(crate::proofs::Opening::untouched_shown))]
    pub fn admitted(alloc: Global, spec: VmSpec) -> Result<VmTable, AllocError>
        requires { IsGood spec }
        ensures { IfOk result (λ vm. vm ≡ vm_table (admitted spec)) }
    {
        let fields = Fields {
            spec,
            state: VmState::Starting,
            epoch: 0,
            due: false,
            target: spec.max,
            overhead: Vec::with_capacity(alloc, spec.overhead as usize)?,
            pages: PageMap::new(alloc, spec.max)?,
            averages: Averages::opened(),
            period: OpenPeriod::none(),
        };
        Ok(VmTable {
            fields: Box::new(alloc, fields)?,
        })
    }

    /// What gates read of the machine.
    pub fn standing(&self) -> Standing
        ensures { result ≡ standing_of self.now }
    {
        let fields = &self.fields;
        Standing {
            spec: fields.spec,
            state: fields.state,
            target: fields.target,
            resident: fields.pages.resident(),
            out: fields.pages.out(),
            lent: fields.pages.lent(fields.epoch),
        }
    }

    /// What the machine asked for, with its present shares and its present tax.
    pub fn spec(&self) -> VmSpec
        ensures value { result ≡ self.now.spec }
        ensures sizes { AreSizes result }
    {
        self.fields.spec
    }

    /// What the row tells in small numbers that events change.
    pub fn facts(&self) -> Facts
        ensures { result ≡ facts_of self.now }
    {
        let fields = &self.fields;
        Facts {
            shares: fields.spec.shares,
            tau: fields.spec.tau,
            state: fields.state,
            epoch: fields.epoch,
            due: fields.due,
            target: fields.target,
        }
    }

    /// The overhead frames, in order of taking.
    pub fn overhead(&self) -> &[u32]
        ensures value { result.now ≡ self.now.overhead }
        ensures room { length self.now.overhead ≤ self.now.spec.overhead }
        ensures most { self.now.spec.overhead ≤ MAX_OVERHEAD }
    {
        self.fields.overhead.as_slice()
    }

    /// Where a page is. One past the end counts as never brought.
    pub fn page(&self, page: u32) -> MapRow
        ensures { result ≡ page_at self.now.pages page }
    {
        let fields = &self.fields;
        if page < fields.pages.len() {
            fields.pages.at(page)
        } else {
            MapRow::Untouched
        }
    }

    /// How many pages it has.
    pub fn page_count(&self) -> u32
        ensures value { result ≡ length self.now.pages }
        ensures all { length self.now.pages ≡ self.now.spec.max }
    {
        self.fields.pages.len()
    }

    /// The page that comes `k`-th, counted from 0, among those that are in a frame.
    pub fn nth_resident(&self, k: u32) -> u32
        requires { k < resident_count self.now.pages }
        ensures { result ≡ slice_index (resident_pages self.now.pages) k }
    {
        self.fields.pages.nth_resident(k)
    }

    /// The averages of its activity.
    pub fn averages(&self) -> Averages
        ensures { result ≡ record { slow = self.now.slow; fast = self.now.fast } }
    {
        self.fields.averages
    }

    /// The open sample period, if there is one.
    pub fn period(&self) -> &Option<PeriodRow>
        ensures { result.now ≡ self.now.period }
    {
        self.fields.period.row()
    }

    /// May the open sample period have a mark of the page? Where it says no, it has none.
    pub fn may_sample(&self, page: u32) -> bool
        ensures { result ≡ false → samples self.now.period page ≡ false }
    {
        self.fields.period.may_sample(page)
    }

    /// How many marks of the open sample period are touched; 0 where none is open.
    pub fn touched_marks(&self) -> usize
        ensures { result ≡ touched_marks self.now.period }
    {
        self.fields.period.touched_marks()
    }

    /// An access of the machine is to come: where accesses go on in an open sample period, what its marks tell is summed
    /// up.
    pub fn tell_period(&mut self)
        ensures { self.new ≡ self.old }
    {
        self.fields.period.tell();
    }

    /// Trades where a page is. Where there is no such page nothing changes.
    pub fn trade_page(&mut self, page: u32, row: &mut MapRow)
        ensures vm { self.new ≡ (part_traded self.old (PageAt page row.old)).0 }
        ensures row { PageAt page row.new ≡ (part_traded self.old (PageAt page row.old)).1 }
    {
        self.fields.pages.trade(page, row);
    }

    /// Trades a part of the row. Where there is no such part nothing changes.
    pub fn trade(&mut self, part: &mut VmPart)
        ensures vm { self.new ≡ (part_traded self.old part.old).0 }
        ensures part { part.new ≡ (part_traded self.old part.old).1 }
    {
        let fields = &mut self.fields;
        match part {
            VmPart::PageAt { page, row } => fields.pages.trade(*page, row),
            VmPart::Facts { facts } => trade_facts(fields, facts),
            VmPart::Target { target } => mem::swap(&mut fields.target, target),
            VmPart::Period { period } => fields.period.trade(period),
            VmPart::Done { done } => fields.period.trade_done(done),
            VmPart::Touched { mark } => fields.period.turn_touched(*mark),
            VmPart::Averages { averages } => mem::swap(&mut fields.averages, averages),
            VmPart::OverheadTop { frame } => {
                let room = fields.spec.overhead;
                trade_top(&mut fields.overhead, room, frame);
            }
        }
    }
}

/// Trades the small numbers.
fn trade_facts(fields: &mut Fields, facts: &mut Facts)
    ensures fields { fields.new ≡ fields_with fields.old facts.old }
    ensures facts { facts.new ≡ facts_in fields.old }
{
    mem::swap(&mut fields.spec.shares, &mut facts.shares);
    mem::swap(&mut fields.spec.tau, &mut facts.tau);
    mem::swap(&mut fields.state, &mut facts.state);
    mem::swap(&mut fields.epoch, &mut facts.epoch);
    mem::swap(&mut fields.due, &mut facts.due);
    mem::swap(&mut fields.target, &mut facts.target);
}

/// Trades the end of a list in its room: a frame goes onto it, or, where none is given, the last one off it.
#[tactic(auto, unfolding(esx_lists::specs::Trades::top_traded))]
fn trade_top(held: &mut Vec<u32>, room: u32, frame: &mut Option<u32>)
    requires within { vec_len held.old ≤ room }
    requires room { room ≤ vec_capacity held.old }
    ensures held { held.new.items ≡ (top_traded room 0 held.old.items frame.old).0 }
    ensures frame { frame.new ≡ (top_traded room 0 held.old.items frame.old).1 }
    ensures within { vec_len held.new ≤ room }
    ensures room { room ≤ vec_capacity held.new }
{
    match *frame {
        Some(taken) => {
            if held.len() < room as usize {
                held.push(taken).unwrap();
                *frame = None;
            }
        }
        None => *frame = held.pop(),
    }
}
