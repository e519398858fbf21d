//! What is amiss with events that are tried.

ghost use Rattle.std.specs.Prelude.{◌≡◌, ◌∷◌, [], ℕ, List, IsTrue, IfSome, IfNone, MatchOption};
ghost use Rattle.esx_explained.specs.Words.{command_word, is_event};
ghost use Rattle.esx_explained.specs.Tried.{parts, IsTextOf, IsEventText, IsEventPart, IsAmissEvent, IsAmissPart, is_blank};

use crate::amiss::{Amiss, amiss_operands};
use crate::command::{Command, command_of};
use esx_reading::Fields;

/// What is amiss with one of the events that are tried.
#[derive(Clone, Copy, Debug, PartialEq, Eq)]
pub enum AmissEvent<'a> {
    /// Nothing stands there, or nothing but spaces.
    Missing,
    /// No space stands between it and the semicolon before it.
    NoSpace,
    /// No event has its first word.
    Unknown { word: &'a str },
    /// What stands behind its first word is not what that wants.
    Operands { command: Command, amiss: Amiss<'a> },
}

/// The event that begins with a word.
fn event_of(word: &str) -> Option<Command>
    ensures found { IfSome result (λ c. IsTrue (is_event c) × (word.now ≡ command_word c)) }
    ensures only { IfNone result ((c : Command) → IsTrue (is_event c) → word.now ≡ command_word c → ⊥) }
{
    let command = command_of(word)?;
    if command.is_event() {
        Some(command)
    } else {
        None
    }
}

/// What is amiss with the text of an event, if anything is.
fn amiss_event(text: &str) -> Option<AmissEvent<'_>>
    ensures { MatchOption result (IsEventText text.now) (λ e. IsAmissEvent text.now e) }
{
    let mut fields = Fields::of(text);
    let Some(word) = fields.next() else {
        unreachable!();
    };
    let Some(command) = event_of(word) else {
        return Some(AmissEvent::Unknown { word });
    };
    match amiss_operands(command, &mut fields) {
        Some(amiss) => Some(AmissEvent::Operands { command, amiss }),
        None => None,
    }
}

/// The text of the event at a place, from 0 on: a space stands before each but the first.
fn text_of(at: usize, part: &str) -> Option<&str>
    ensures { MatchOption result ((text : List ℕ) → IsTextOf at part.now text → ⊥) (λ text. IsTextOf at part.now text.now) }
{
    if at == 0 {
        return Some(part);
    }
    part.strip_prefix(' ')
}

/// Has it nothing but spaces?
fn is_blank(part: &str) -> bool
    ensures { result ≡ is_blank part.now }
{
    part.as_bytes().iter().all(|byte| *byte == b' ')
}

/// What is amiss with the part of a text at a place, if anything is.
#[tactic(auto, using(crate::proofs::LineLemmas::amiss_part_of))]
pub fn amiss_part(at: usize, part: &str) -> Option<AmissEvent<'_>>
    ensures { MatchOption result (IsEventPart at part.now) (λ e. IsAmissPart at part.now e) }
{
    if is_blank(part) {
        return Some(AmissEvent::Missing);
    }
    match text_of(at, part) {
        Some(text) => amiss_event(text),
        None => Some(AmissEvent::NoSpace),
    }
}

/// The part of a text before its first semicolon, and what stands behind that, if there is one.
pub fn first_part(text: &str) -> (&str, Option<&str>)
    ensures { MatchOption result.1 (parts text.now ≡ result.0.now ∷ []) (λ later. parts text.now ≡ result.0.now ∷ parts later.now) }
{
    match text.split_once(';') {
        Some((front, behind)) => (front, Some(behind)),
        None => (text, None),
    }
}
