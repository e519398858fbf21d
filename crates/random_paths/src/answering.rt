//! The plain console: what is said to each call, from a plain tree and the plain program.

ghost use Rattle.esx_types.specs.Ranges.{IsConfig};

use crate::advice::advice;
use crate::fault::Fault;
use crate::plain::Plain;
use crate::readings::{activity, page_state, sum, table};
use crate::tree::Tree;
use esx_events::{Boxed, Call, Event, Name, NameRow, Refusal, Reply, Said, Sides, Stand};
use esx_model::Book;
use esx_types::{Config, Rows};
use std::alloc::{AllocError, Global};

/// A tree of events with names for nodes, and the scene at its cursor.
#[derive(Drop)]
pub struct PlainConsole {
    alloc: Global,
    pub tree: Tree,
    pub plain: Plain,
    names: Vec<NameRow>,
    jumps: u64,
}

fn refused(refusal: Refusal) -> Said {
    Said::Refused { refusal }
}

impl PlainConsole {
    pub fn open(alloc: Global, config: Config) -> Result<PlainConsole, Fault>
        requires { IsConfig config }
    {
        Ok(PlainConsole {
            alloc,
            tree: Tree::new(alloc)?,
            plain: Plain::at_end_of(alloc, config, &[])?,
            names: Vec::new(alloc),
            jumps: 0,
        })
    }

    /// The book that the plain program makes of the events on the path.
    pub fn book(&self) -> Result<Book, Fault> {
        let path = self.tree.path(self.tree.cursor)?;
        self.plain.book_of(&path)
    }

    pub fn call(&mut self, call: &Call) -> Result<Reply, Fault> {
        let said = self.said(call)?;
        Ok(Reply {
            jumps: self.jumps,
            said,
        })
    }

    fn said(&mut self, call: &Call) -> Result<Said, Fault> {
        match call {
            Call::Do { event } => Ok(self.event(event)?),
            Call::Undo { .. } | Call::Redo { .. } | Call::Goto { .. } | Call::Visit { .. } => {
                self.moved(self.aim(call))
            }
            Call::Mark { name } => Ok(self.mark(name)?),
            Call::Prune { node } => Ok(self.prune(*node)?),
            Call::WhatIf { events } => Ok(self.what_if(events.as_slice())?),
            _ => Ok(self.asked(call)?),
        }
    }

    /// To a question.
    fn asked(&self, call: &Call) -> Result<Said, AllocError> {
        Ok(match call {
            Call::Sum => Said::Sum {
                sum: sum(&self.plain),
            },
            Call::Table => Said::Table {
                rows: Boxed::new(self.alloc, Rows::from_vec(table(&self.plain, self.alloc)?))?,
                sum: Boxed::new(self.alloc, sum(&self.plain))?,
            },
            Call::OfVm { vm } => match activity(&self.plain, *vm) {
                Ok(activity) => Said::Activity {
                    activity: Boxed::new(self.alloc, activity)?,
                },
                Err(refusal) => refused(refusal),
            },
            Call::OfPage { vm, page } => match page_state(&self.plain, *vm, *page) {
                Ok(state) => Said::Page { state },
                Err(refusal) => refused(refusal),
            },
            Call::Advise { vm, page } => match advice(&self.plain, *vm, *page) {
                Ok(help) => Said::Help { help },
                Err(refusal) => refused(refusal),
            },
            Call::Marks => Said::Marks {
                marks: Boxed::new(self.alloc, self.marks()?)?,
            },
            _ => self.stand()?,
        })
    }

    fn stand(&self) -> Result<Said, AllocError> {
        let node = self.tree.cursor;
        let depth = self.tree.depth(node)?;
        Ok(Said::Stand {
            stand: Stand { node, depth },
        })
    }

    fn marks(&self) -> Result<Rows<NameRow>, AllocError> {
        let mut rows = Vec::new(self.alloc);
        for row in &self.names {
            rows.push(row.copy()?)?;
        }
        Ok(Rows::from_vec(rows))
    }

    /// An event that the plain program accepts makes a node below the cursor, and the cursor goes there.
    fn event(&mut self, event: &Event) -> Result<Said, AllocError> {
        if self.plain.config().nodes <= self.tree.made() {
            return Ok(refused(Refusal::Full));
        }
        match self.plain.after(event)? {
            Ok((answer, after)) => {
                self.tree.add(event.copy()?)?;
                self.plain = after;
                Ok(Said::Done { answer })
            }
            Err(refusal) => Ok(refused(refusal)),
        }
    }

    /// The node that a move leads to, or why it leads nowhere.
    fn aim(&self, call: &Call) -> Result<u32, Refusal> {
        match call {
            Call::Undo { count } => self.tree.back(*count).ok_or(Refusal::NothingToUndo),
            Call::Redo { count } => self.tree.forward(*count).ok_or(Refusal::NothingToRedo),
            Call::Goto { node } => self.tree.standing(*node).ok_or(Refusal::NoSuchNode),
            Call::Visit { name } => match self.named(name) {
                Some(node) => self.tree.standing(node).ok_or(Refusal::NoSuchNode),
                None => Err(Refusal::NoSuchName),
            },
            _ => Err(Refusal::NoSuchNode),
        }
    }

    /// A move leads to a node, and the plain program goes its path anew.
    fn moved(&mut self, aim: Result<u32, Refusal>) -> Result<Said, Fault> {
        let node = match aim {
            Ok(node) => node,
            Err(refusal) => return Ok(refused(refusal)),
        };
        self.tree.go(node)?;
        let path = self.tree.path(node)?;
        self.plain = self.plain.anew(&path)?;
        self.jumps = self.jumps.saturating_add(1);
        Ok(self.stand()?)
    }

    fn named(&self, name: &Name) -> Option<u32> {
        for row in &self.names {
            if row.name.as_str() == name.as_str() {
                return Some(row.node);
            }
        }
        None
    }

    fn mark(&mut self, name: &Name) -> Result<Said, AllocError> {
        if self.named(name).is_some() {
            return Ok(refused(Refusal::NameTaken));
        }
        let node = self.tree.cursor;
        self.names.push(NameRow {
            name: name.copy()?,
            node,
        })?;
        Ok(Said::Marked {
            name: name.copy()?,
            node,
        })
    }

    fn prune(&mut self, node: u32) -> Result<Said, AllocError> {
        Ok(match self.tree.unprunable(node)? {
            Some(refusal) => refused(refusal),
            None => Said::Pruned {
                count: self.tree.prune(node),
            },
        })
    }

    /// Events are tried one after another, up to the first that is refused.
    fn what_if(&self, events: &[Event]) -> Result<Said, AllocError> {
        let mut at = self.plain.copy()?;
        let mut replies = Vec::new(self.alloc);
        for event in events {
            match at.after(event)? {
                Ok((answer, after)) => {
                    replies.push(Ok(answer))?;
                    at = after;
                }
                Err(refusal) => {
                    replies.push(Err(refusal))?;
                    break;
                }
            }
        }
        let sides = Sides {
            given: u32::try_from(events.len()).unwrap_or(u32::MAX),
            before: sum(&self.plain),
            replies: Rows::from_vec(replies),
            after: sum(&at),
        };
        Ok(Said::Sides {
            sides: Boxed::new(self.alloc, sides)?,
        })
    }
}
