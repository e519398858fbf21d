//! Events that are tried: their spellings, parted by a semicolon and a space.

ghost use Rattle.std.specs.Prelude.{◌≡◌, ◌++◌, List, codes, IfOk, OnErr, IfSome, IfNone, MatchOption};
ghost use Rattle.std.specs.List.{AllByRecursion};
ghost use Rattle.esx_events.specs.Lists.{IsTriable};
ghost use Rattle.esx_events.specs.declared.event.Event.{Event};
ghost use Rattle.esx_reading.specs.Fields.{joined};
ghost use Rattle.esx_words.specs.Commands.{IsEventInRange, SpellsEvent, event_text, list_text, list_words, AreListed, HasNoSemicolon, ListTakesMemory};

use crate::event::event_of_text;
use esx_events::events::MAX_EVENTS;
use esx_events::{Event, Events};
use esx_reading::Fields;
use std::alloc::{AllocError, Global};

/// The text of the first of some events, and the text of the others, where a semicolon stands between them.
fn cut<'a>(text: &'a str) -> Option<(&'a str, Option<&'a str>)>
    ensures found { IfSome result (λ p. MatchOption p.1 (text.now ≡ p.0.now) (λ later. text.now ≡ p.0.now ++ (codes "; " ++ later.now))) }
    ensures first { IfSome result (λ p. (events : List Event) → AreListed events → text.now ≡ list_text events → (event : Event) × SpellsEvent p.0.now event) }
    ensures plain { IfSome result (λ p. HasNoSemicolon p.0.now) }
    ensures only { IfNone result ((events : List Event) → AreListed events → text.now ≡ list_text events → ⊥) }
{
    let Some((front, behind)) = text.split_once(';') else {
        return Some((text, None));
    };
    let later = behind.strip_prefix(' ')?;
    Some((front, Some(later)))
}

/// The first of some events, and the text of the others, if there are any. `None` if the text is that of no events.
fn first_event<'a>(
    alloc: Global,
    text: &'a str,
) -> Result<Option<(Event, Option<&'a str>)>, AllocError>
    ensures range { IfOk result (λ found. IfSome found (λ p. IsEventInRange p.0)) }
    ensures found { IfOk result (λ found. IfSome found (λ p. MatchOption p.1 (text.now ≡ event_text p.0) (λ later. text.now ≡ event_text p.0 ++ (codes "; " ++ later.now)))) }
    ensures only { IfOk result (λ found. IfNone found ((events : List Event) → AreListed events → text.now ≡ list_text events → ⊥)) }
    ensures memory { OnErr result (ListTakesMemory text.now) }
{
    let Some((front, later)) = cut(text) else {
        return Ok(None);
    };
    match event_of_text(alloc, front)? {
        Some(event) => Ok(Some((event, later))),
        None => Ok(None),
    }
}

/// 1 to `MAX_EVENTS` events, if the text is that of so many.
fn events_of(alloc: Global, text: &str) -> Result<Option<Vec<Event>>, AllocError>
    ensures found { IfOk result (λ found. IfSome found (λ events. IsTriable events.items × AllByRecursion IsEventInRange events.items × (text.now ≡ list_text events.items))) }
    ensures only { IfOk result (λ found. IfNone found ((events : List Event) → IsTriable events → AllByRecursion IsEventInRange events
        → text.now ≡ list_text events → ⊥)) }
    ensures memory { OnErr result (ListTakesMemory text.now) }
{
    let mut events = Vec::new(alloc);
    let mut rest = text;
    for _ in 0..MAX_EVENTS {
        let found = match first_event(alloc, rest) {
            Ok(found) => found,
            Err(fault) => return Err(fault),
        };
        let Some((event, later)) = found else {
            return Ok(None);
        };
        events.push(event)?;
        match later {
            Some(later) => rest = later,
            None => return Ok(Some(events)),
        }
    }
    Ok(None)
}

/// All that is left, as events that are tried.
pub fn tried(alloc: Global, fields: &Fields) -> Result<Option<Events>, AllocError>
    ensures found { IfOk result (λ found. IfSome found (λ events. IsTriable events × AllByRecursion IsEventInRange events × (fields.now ≡ list_words events))) }
    ensures only { IfOk result (λ found. IfNone found ((events : List Event) → IsTriable events → AllByRecursion IsEventInRange events
        → fields.now ≡ list_words events → ⊥)) }
    ensures memory { OnErr result (ListTakesMemory (joined fields.now)) }
{
    let Some(text) = fields.rest() else {
        return Ok(None);
    };
    let Some(events) = events_of(alloc, text)? else {
        return Ok(None);
    };
    match Events::new(events) {
        Some(events) => Ok(Some(events)),
        None => unreachable!(),
    }
}
