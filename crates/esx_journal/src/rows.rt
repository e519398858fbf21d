//! The rows of nodes: what leads from node to node, and apart from it the records.

ghost use Rattle.std.specs.Prelude.{◌≡◌, ◌<◌, ◌∷◌, [], length, IfOk, IfErr, OnOk, OnErr, Some, if◌then◌else◌, slice_index_or, slice_set, vec_len, vec_capacity};
ghost use Rattle.esx_machine.specs.Machine.{Back, Trades};
ghost use Rattle.esx_machine.specs.Machine as machines;
ghost use Rattle.esx_journal.specs.Rows.{Row, no_record};
ghost use Rattle.esx_journal.specs.Row.{FlipsAt, Flipped, grown, emptied};
ghost use Rattle.esx_journal.specs.Children.{AreLinked, no_row, parent_of, last_of, first_of, next_of, has_record, unlinked};

use esx_machine::{Machine, Record};
use esx_tables::Record as Changes;
use esx_types::Level;
use std::alloc::{AllocError, Global};
use std::marker::Model;
use std::mem::size_of;

/// What leads from a node to others. The opening is nobody's child, so 0 stands for no child.
#[derive(Drop)]
struct Link {
    parent: u32,
    /// The child through which the cursor last went down.
    last: u32,
    /// The youngest child.
    first: u32,
    /// The next older child of the same parent.
    next: u32,
    has_record: bool,
}

const _: () = prove!(size_of::<Link>() == 20);

const _: () = prove!(size_of::<Record>() == 48);

/// A row for each node, at the node's number. A walk reads links alone.
///
/// The record of a node leads over the edge to the parent, from the side where the cursor is. Node 0, the opening,
/// has none. One of no changes stands in the place of a record that is not there.
#[derive(Drop)]
pub struct Rows {
    alloc: Global,
    links: Vec<Link>,
    records: Vec<Record>,
}

impl Model for Rows {
    ghost use Rattle.std.specs.Prelude.{◌≡◌, List, length};
    ghost use Rattle.esx_journal.specs.Rows.{Row, rows_from};

    ghost Value = { List Row };

    ghost view = { λ a. rows_from a.links.items a.records.items };

    ghost invariant = { λ a. length a.records.items ≡ length a.links.items };
}

impl Rows {
    /// The row of the opening.
    pub fn opening(alloc: Global) -> Result<Rows, AllocError>
        ensures { IfOk result (λ rows. rows ≡ no_row ∷ []) }
    {
        let mut links = Vec::new(alloc);
        links.push(Link {
            parent: 0,
            last: 0,
            first: 0,
            next: 0,
            has_record: false,
        })?;
        let mut records = Vec::new(alloc);
        records.push(no_record(alloc))?;
        Ok(Rows {
            alloc,
            links,
            records,
        })
    }

    /// Takes room for so many more rows. Where it is refused, each takes its own as it comes.
    pub fn make_room(&mut self, more: usize)
        ensures { self.new ≡ self.old }
    {
        if self.links.reserve(more).is_ok() {
            let _ = self.records.reserve(more);
        }
    }

    pub fn len(&self) -> usize
        ensures { result ≡ length self.now }
    {
        self.links.len()
    }

    fn link(&self, at: usize) -> &Link
        requires { at < length self.now }
        ensures parent { result.now.parent ≡ parent_of self.now at }
        ensures last { result.now.last ≡ last_of self.now at }
        ensures first { result.now.first ≡ first_of self.now at }
        ensures next { result.now.next ≡ next_of self.now at }
        ensures has { result.now.has_record ≡ has_record self.now at }
    {
        &self.links[at]
    }

    pub fn parent(&self, at: usize) -> u32
        requires { at < length self.now }
        ensures { result ≡ parent_of self.now at }
    {
        self.link(at).parent
    }

    /// The child through which the cursor last went down.
    pub fn last(&self, at: usize) -> u32
        requires { at < length self.now }
        ensures { result ≡ last_of self.now at }
    {
        self.link(at).last
    }

    /// The youngest child.
    pub fn first(&self, at: usize) -> u32
        requires { at < length self.now }
        ensures { result ≡ first_of self.now at }
    {
        self.link(at).first
    }

    /// The next older child of the same parent.
    pub fn next(&self, at: usize) -> u32
        requires { at < length self.now }
        ensures { result ≡ next_of self.now at }
    {
        self.link(at).next
    }

    pub fn has_record(&self, at: usize) -> bool
        requires { at < length self.now }
        ensures { result ≡ has_record self.now at }
    {
        self.link(at).has_record
    }

    /// Remembers the child through which the cursor last went down.
    pub fn set_last(&mut self, at: usize, last: u32)
        requires { at < length self.old }
        ensures { self.new ≡ slice_set self.old at (record (slice_index_or self.old at no_row) { last = last }) }
    {
        let link = &mut self.links[at];
        link.last = last;
    }

    /// Makes a child, or none, the youngest one of a node.
    pub fn set_first(&mut self, at: usize, first: u32)
        requires { at < length self.old }
        ensures { self.new ≡ unlinked self.old at first }
    {
        let link = &mut self.links[at];
        link.first = first;
    }

    /// Adds a child under a node, and remembers it there as the last one and the youngest. Where memory runs out it
    /// gives the record back.
    pub fn push_child(&mut self, at: u32, child: u32, back: Record) -> Result<(), Record>
        requires inside { at < length self.old }
        requires child { child ≡ length self.old }
        ensures grown { OnOk result (self.new ≡ grown self.old at back no_row) }
        ensures same { OnErr result (self.new ≡ self.old) }
        ensures given { IfErr result (λ given. given ≡ back) }
    {
        if take_room(&mut self.links, &mut self.records).is_err() {
            return Err(back);
        }
        let next = self.links[at as usize].first;
        self.links.push_reserved(Link {
            parent: at,
            last: 0,
            first: 0,
            next,
            has_record: true,
        });
        self.records.push_reserved(back);
        let parent = &mut self.links[at as usize];
        parent.last = child;
        parent.first = child;
        Ok(())
    }

    /// Trades a node's record with the machine, if it has one.
    pub fn flip(&mut self, at: usize, machine: &mut Machine)
        requires inside { at < length self.old }
        requires fits { FlipsAt self.old at machine.old }
        ensures size { length self.new ≡ length self.old }
        ensures linked { AreLinked self.old → AreLinked self.new }
        ensures flips { (there : machines.Kept) (d : Row) (b : Back) → (slice_index_or self.old at d).back ≡ Some b → Trades b machine.old there
            → Flipped machine.old machine.new self.old self.new at there d }
    {
        if self.links[at].has_record {
            machine.flip(&mut self.records[at]);
        }
    }

    /// Lets a node's record go, and answers how many it had: one or none.
    pub fn drop_record(&mut self, at: usize) -> u32
        requires { at < length self.old }
        ensures count { result ≡ (if has_record self.old at then 1 else 0) }
        ensures rows { self.new ≡ slice_set self.old at (emptied (slice_index_or self.old at no_row)) }
    {
        let link = &mut self.links[at];
        let gone = if link.has_record { 1 } else { 0 };
        link.has_record = false;
        self.records[at] = no_record(self.alloc);
        gone
    }
}

/// Takes room for one more link and one more record.
fn take_room(links: &mut Vec<Link>, records: &mut Vec<Record>) -> Result<(), AllocError>
    ensures links { links.new.items ≡ links.old.items }
    ensures records { records.new.items ≡ records.old.items }
    ensures room { OnOk result ((vec_len links.new < vec_capacity links.new) × (vec_len records.new < vec_capacity records.new)) }
{
    links.reserve(1)?;
    records.reserve(1)
}

/// A record of no changes, which holds no memory.
fn no_record(alloc: Global) -> Record
    ensures { result ≡ no_record }
{
    Record::leading_back(Level::High, Changes::of(Vec::new(alloc)))
}
