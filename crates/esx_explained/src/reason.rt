//! What is amiss with a line that is no command.

ghost use Rattle.std.specs.Prelude.{◌≡◌, ◌∷◌};
ghost use Rattle.esx_reading.specs.Fields.{fields};
ghost use Rattle.esx_explained.specs.declared.command.Command.TheVariants.{WhatIf};
ghost use Rattle.esx_explained.specs.Reasons.{IsSaidOf, Explains};

use crate::amiss::{Amiss, amiss_operands};
use crate::command::{Command, command_of};
use crate::near::nearest;
use crate::tried::{AmissEvent, amiss_part, first_part};
use esx_events::events::MAX_EVENTS;
use esx_reading::Fields;

/// Why a line is no command: the first thing from the left that is amiss.
#[derive(Clone, Copy, Debug, PartialEq, Eq)]
pub enum Explanation<'a> {
    /// It has more than `LONGEST` bytes.
    TooLong,
    /// It is not UTF-8.
    NotText,
    /// No command has its first word; this is the nearest, if one is near.
    Unknown {
        word: &'a str,
        nearest: Option<Command>,
    },
    /// What stands behind its first word is not what that wants.
    Operands {
        command: Command,
        amiss: Amiss<'a>,
    },
    /// No events to be tried stand behind its first word.
    NoEvents,
    /// One of the events that are tried is amiss, counted from 1 on.
    Tried {
        number: usize,
        event: AmissEvent<'a>,
    },
    /// More than `MAX_EVENTS` events are tried.
    TooManyEvents,
    /// Nothing is amiss with any of its words.
    Other {
        command: Command,
    },
}

/// What is amiss with events that are tried.
fn amiss_events(text: &str) -> Explanation<'_>
    ensures { IsSaidOf WhatIf (fields text.now) result }
{
    let mut rest = text;
    for at in 0..MAX_EVENTS {
        let (part, later) = first_part(rest);
        if let Some(event) = amiss_part(at, part) {
            return Explanation::Tried {
                number: at + 1,
                event,
            };
        }
        match later {
            Some(later) => rest = later,
            None => {
                return Explanation::Other {
                    command: Command::WhatIf,
                };
            }
        }
    }
    Explanation::TooManyEvents
}

/// What is amiss with all that is left, as events that are tried.
fn amiss_tried<'a>(fields: &mut Fields<'a>) -> Explanation<'a>
    ensures { IsSaidOf WhatIf fields.old result }
{
    match fields.rest() {
        Some(text) => amiss_events(text),
        None => Explanation::NoEvents,
    }
}

/// What is amiss with the words behind the first one of a command.
fn behind<'a>(command: Command, fields: &mut Fields<'a>) -> Explanation<'a>
    ensures { IsSaidOf command fields.old result }
{
    match command {
        Command::WhatIf => amiss_tried(fields),
        _ => match amiss_operands(command, fields) {
            Some(amiss) => Explanation::Operands { command, amiss },
            None => Explanation::Other { command },
        },
    }
}

/// What is amiss with a text.
pub fn reason(text: &str) -> Explanation<'_>
    ensures { Explains text.now result }
{
    let mut fields = Fields::of(text);
    let Some(word) = fields.next() else {
        unreachable!();
    };
    match command_of(word) {
        Some(command) => behind(command, &mut fields),
        None => {
            let nearest = nearest(word);
            Explanation::Unknown { word, nearest }
        }
    }
}
