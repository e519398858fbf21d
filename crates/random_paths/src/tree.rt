//! The tree of events and the cursor, in the plainest way: a parent for each node.

use esx_events::{Event, Refusal};
use std::alloc::{AllocError, Global};

/// A node of the tree. The opening has no event, and is its own parent.
#[derive(Drop)]
struct Node {
    parent: u32,
    /// The child to which the cursor went last, and 0 if there is none.
    last: u32,
    event: Option<Event>,
    stands: bool,
}

#[derive(Drop)]
pub struct Tree {
    nodes: Vec<Node>,
    pub cursor: u32,
}

impl Tree {
    pub fn new(alloc: Global) -> Result<Tree, AllocError> {
        let mut nodes = Vec::new(alloc);
        nodes.push(Node {
            parent: 0,
            last: 0,
            event: None,
            stands: true,
        })?;
        Ok(Tree { nodes, cursor: 0 })
    }

    fn get(&self, node: u32) -> Option<&Node> {
        self.nodes.get(node as usize)
    }

    /// How many nodes were made, the opening not counted.
    pub fn made(&self) -> u32 {
        u32::try_from(self.nodes.len())
            .unwrap_or(u32::MAX)
            .saturating_sub(1)
    }

    pub fn stands(&self, node: u32) -> bool {
        match self.get(node) {
            Some(row) => row.stands,
            None => false,
        }
    }

    /// A node, if it stands.
    pub fn standing(&self, node: u32) -> Option<u32> {
        if self.stands(node) { Some(node) } else { None }
    }

    fn parent(&self, node: u32) -> u32 {
        match self.get(node) {
            Some(row) => row.parent,
            None => 0,
        }
    }

    /// The nodes from one up to the opening, which is not among them.
    fn line(&self, node: u32) -> Result<Vec<u32>, AllocError> {
        let mut line = Vec::new(*self.nodes.allocator());
        let mut at = node;
        for _ in 0..self.nodes.len() {
            if at == 0 {
                break;
            }
            line.push(at)?;
            at = self.parent(at);
        }
        Ok(line)
    }

    /// How many events lead to a node.
    pub fn depth(&self, node: u32) -> Result<u32, AllocError> {
        Ok(u32::try_from(self.line(node)?.len()).unwrap_or(u32::MAX))
    }

    fn event(&self, node: u32) -> Option<&Event> {
        self.get(node)?.event.as_ref()
    }

    /// The events from the opening to a node.
    pub fn path(&self, node: u32) -> Result<Vec<Event>, AllocError> {
        let mut events = Vec::new(*self.nodes.allocator());
        for at in self.line(node)?.iter().rev() {
            if let Some(event) = self.event(*at) {
                events.push(event.copy()?)?;
            }
        }
        Ok(events)
    }

    /// The events from the opening to the cursor, and one more.
    pub fn path_with(&self, event: Event) -> Result<Vec<Event>, AllocError> {
        let mut events = self.path(self.cursor)?;
        events.push(event)?;
        Ok(events)
    }

    fn is_on_path(&self, node: u32) -> Result<bool, AllocError> {
        Ok(node == 0 || self.line(self.cursor)?.iter().any(|at| *at == node))
    }

    /// Why a node cannot be pruned, if it cannot.
    pub fn unprunable(&self, node: u32) -> Result<Option<Refusal>, AllocError> {
        if !self.stands(node) {
            return Ok(Some(Refusal::NoSuchNode));
        }
        Ok(if self.is_on_path(node)? {
            Some(Refusal::OnPath)
        } else {
            None
        })
    }

    /// A new node below the cursor, to which the cursor goes.
    pub fn add(&mut self, event: Event) -> Result<(), AllocError> {
        let node = self.made().saturating_add(1);
        self.nodes.push(Node {
            parent: self.cursor,
            last: 0,
            event: Some(event),
            stands: true,
        })?;
        self.go(node)
    }

    /// The cursor goes to a node; each node on the way down remembers the way.
    pub fn go(&mut self, node: u32) -> Result<(), AllocError> {
        for at in self.line(node)?.iter() {
            let parent = self.parent(*at);
            if let Some(row) = self.nodes.get_mut(parent as usize) {
                row.last = *at;
            }
        }
        self.cursor = node;
        Ok(())
    }

    /// The node so many events back.
    pub fn back(&self, count: u32) -> Option<u32> {
        let mut at = self.cursor;
        for _ in 0..count {
            if at == 0 {
                return None;
            }
            at = self.parent(at);
        }
        Some(at)
    }

    /// The node so many events forward.
    pub fn forward(&self, count: u32) -> Option<u32> {
        let mut at = self.cursor;
        for _ in 0..count {
            at = match self.get(at) {
                Some(row) if row.last != 0 && self.stands(row.last) => row.last,
                _ => return None,
            };
        }
        Some(at)
    }

    /// Drops a node and all below it, and tells how many they are. A node has a greater number than its parent.
    pub fn prune(&mut self, node: u32) -> u32 {
        let mut count = 0_u32;
        for at in node..self.made().saturating_add(1) {
            let goes = at == node || !self.stands(self.parent(at));
            if let Some(row) = self.nodes.get_mut(at as usize) {
                if goes && row.stands {
                    row.stands = false;
                    count = count.saturating_add(1);
                }
            }
        }
        count
    }
}
