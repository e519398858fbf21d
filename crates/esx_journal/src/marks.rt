//! The names that were given to nodes, in order of making.

ghost use Rattle.std.specs.Prelude.{◌≡◌, ◌<◌, Some, [], ◌∷◌, ◌++◌, length, is_some, false, IfOk, OnOk, OnErr, slice_get};
ghost use Rattle.std.specs.Option.{option_map};
ghost use Rattle.esx_events.specs.declared.call.NameRow.{NameRow};
ghost use Rattle.esx_events.specs.Names.{IsName};
ghost use Rattle.esx_journal.specs.Marks.{node_named};

use crate::numbers::numbers_of;
use esx_events::name::is_name;
use esx_events::{Name, NameRow};
use esx_types::Rows;
use std::alloc::{AllocError, Global};
use std::collections::BTreeMap;
use std::marker::Model;

/// Names and their nodes, the oldest first. A name stands in it once.
///
/// Who names nodes chooses the names, so a node is found by the order of names as numbers, and by no hash.
#[derive(Drop)]
pub struct Marks {
    alloc: Global,
    rows: Vec<(String, u32)>,
    nodes: BTreeMap<((u64, u64), (u64, u64)), u32>,
}

impl Model for Marks {
    ghost use Rattle.std.specs.Prelude.{List, string_bytes};
    ghost use Rattle.esx_events.specs.declared.call.NameRow.{NameRow};
    ghost use Rattle.esx_journal.specs.Marks.{rows_of, AreMarks};

    ghost Value = { List NameRow };

    ghost view = { λ a. rows_of string_bytes a.rows.items };

    ghost invariant = { λ a. AreMarks a.nodes (rows_of string_bytes a.rows.items) };
}

impl Marks {
    /// No name yet.
    pub fn new(alloc: Global) -> Marks
        ensures { result ≡ [] }
    {
        Marks {
            alloc,
            rows: Vec::new(alloc),
            nodes: BTreeMap::new(alloc),
        }
    }

    pub fn len(&self) -> usize
        ensures { result ≡ length self.now }
    {
        self.rows.len()
    }

    /// The node that has a name.
    pub fn node_of(&self, name: &str) -> Option<u32>
        ensures { result ≡ node_named name.now self.now }
    {
        // No row has what is no name.
        let _rows = &self.rows;
        if is_name(name.as_bytes()) {
            self.node_at(name)
        } else {
            None
        }
    }

    /// The node that has a name, as `node_of` where the text is known to be one.
    pub(crate) fn node_at(&self, name: &str) -> Option<u32>
        requires { IsName name.now }
        ensures { result ≡ node_named name.now self.now }
    {
        let numbers = numbers_of(name.as_bytes());
        self.nodes.get(&numbers).copied()
    }

    /// A name and its node, by its place.
    pub fn at(&self, place: usize) -> Option<(&str, u32)>
        ensures { option_map (λ p. record { name = p.0.now; node = p.1 }) result ≡ slice_get self.now place }
    {
        let (name, node) = self.rows.get(place)?;
        Some((name.as_str(), *node))
    }

    fn row(&self, place: usize) -> Result<NameRow, AllocError>
        requires { place < length self.now }
        ensures { IfOk result (λ row. slice_get self.now place ≡ Some row) }
    {
        match self.at(place) {
            Some((name, node)) => row_of(self.alloc, name, node),
            None => unreachable!(),
        }
    }

    /// A copy of the names and their nodes.
    pub fn rows(&self) -> Result<Rows<NameRow>, AllocError>
        ensures { IfOk result (λ rows. rows ≡ self.now) }
    {
        let mut rows = Vec::with_capacity(self.alloc, self.len())?;
        for place in 0..self.len() {
            rows.push(self.row(place)?)?;
        }
        Ok(Rows::from_vec(rows))
    }

    /// Adds a name that is not there yet.
    pub fn add(&mut self, name: &Name, node: u32) -> Result<(), AllocError>
        requires { is_some (node_named name.now self.old) ≡ false }
        ensures ok { OnOk result (self.new ≡ self.old ++ record { name = name.now; node = node } ∷ []) }
        ensures err { OnErr result (self.new ≡ self.old) }
    {
        self.rows.reserve(1)?;
        let text = String::from_str(self.alloc, name.as_str())?;
        self.nodes
            .insert(numbers_of(name.as_str().as_bytes()), node)?;
        self.rows.push_reserved((text, node));
        Ok(())
    }
}

fn row_of(alloc: Global, name: &str, node: u32) -> Result<NameRow, AllocError>
    requires { IsName name.now }
    ensures { IfOk result (λ row. row ≡ record { name = name.now; node = node }) }
{
    match Name::new(alloc, name)? {
        Some(name) => Ok(NameRow { name, node }),
        None => unreachable!(),
    }
}
