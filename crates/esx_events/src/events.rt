//! Short lists of events.

ghost use Rattle.std.specs.Prelude.{◌≡◌, ◌↔◌, ◌≤◌, ◌<◌, length, IfOk, IfSome, IsSome};
ghost use Rattle.esx_events.specs.Lists.{IsTriable};

use crate::event::Event;
use std::alloc::{AllocError, Global};
use std::marker::Model;

/// The most events that are tried at once.
pub const MAX_EVENTS: usize = 64;

/// 1 to `MAX_EVENTS` events, seen as the list of them.
#[derive(Debug, Drop)]
pub struct Events {
    items: Vec<Event>,
}

impl Model for Events {
    ghost use Rattle.std.specs.Prelude.{List, ◌≤◌, length};
    ghost use Rattle.esx_events.specs.declared.event.Event.{Event};
    ghost use Rattle.esx_events.specs.declared.events.TheConstants.{MAX_EVENTS};

    ghost Value = { List Event };

    ghost view = { λ a. a.items.items };

    ghost invariant = { λ a. (1 ≤ length a.items.items) × (length a.items.items ≤ MAX_EVENTS) };
}

impl Events {
    /// The list, where it is not empty and not too long.
    pub fn new(items: Vec<Event>) -> Option<Events>
        ensures some { IsSome result ↔ IsTriable items.items }
        ensures value { IfSome result (λ events. events ≡ items.items) }
    {
        if items.is_empty() || items.len() > MAX_EVENTS {
            None
        } else {
            Some(Events { items })
        }
    }

    pub fn as_slice(&self) -> &[Event]
        ensures value { result.now ≡ self.now }
        ensures range { IsTriable result.now }
    {
        self.items.as_slice()
    }

    pub fn copy(&self) -> Result<Events, AllocError>
        ensures { IfOk result (λ events. events ≡ self.now) }
    {
        let items = copy_events(*self.items.allocator(), self.items.as_slice())?;
        Ok(Events { items })
    }
}

fn copy_events(alloc: Global, events: &[Event]) -> Result<Vec<Event>, AllocError>
    ensures { IfOk result (λ copy. copy.items ≡ events.now) }
{
    let mut copy = Vec::with_capacity(alloc, events.len())?;
    for event in events {
        copy.push(event.copy()?)?;
    }
    Ok(copy)
}
