//! How it is told why a line is no command.

ghost use Rattle.std.specs.Prelude.{◌≡◌, take};
ghost use Rattle.esx_explained.specs.Telling.{usage_of, label_of, wanted_of, label_at, wanted_at, shown_byte, told_end};

use crate::amiss::Amiss;
use crate::command::Command;
use crate::operand::{Operand, operand_at};
use crate::reason::Explanation;
use crate::tried::AmissEvent;
use esx_events::events::MAX_EVENTS;
use esx_text::LONGEST;
use std::fmt;

/// How many bytes of a word are told.
pub const MOST_TOLD: usize = 40;

/// What is wanted behind the first word of a command.
fn usage(command: Command) -> &'static str
    ensures { result.now ≡ usage_of command }
{
    match command {
        Command::Admit => "V MIN MAX OVERHEAD SHARES BALLOON [TAU]",
        Command::Start | Command::Ask | Command::Stop | Command::Gone | Command::OfVm => "V",
        Command::Lend
        | Command::TakeBack
        | Command::Scan
        | Command::DropPage
        | Command::OfPage
        | Command::Advise
        | Command::PageOut => "V P",
        Command::Shares | Command::VmTax => "V N",
        Command::Read => "V P AT LEN",
        Command::Write => "V P AT HEX",
        Command::Sample => "V LENGTH [W ..]",
        Command::Rebalance
        | Command::Sum
        | Command::Table
        | Command::Stand
        | Command::Marks
        | Command::Session
        | Command::Order => "nothing behind it",
        Command::SwapOut => "V W",
        Command::Replace => "V P W",
        Command::Tax | Command::Goto | Command::Prune => "N",
        Command::Undo | Command::Redo => "K",
        Command::Visit | Command::Mark => "NAME",
        Command::WhatIf => "E; E; ..",
    }
}

/// How an operand is called.
fn label(operand: Operand) -> &'static str
    ensures { result.now ≡ label_of operand }
{
    match operand {
        Operand::Vm => "V",
        Operand::Page => "P",
        Operand::At => "AT",
        Operand::Len => "LEN",
        Operand::Bytes => "HEX",
        Operand::Min => "MIN",
        Operand::Max => "MAX",
        Operand::Overhead => "OVERHEAD",
        Operand::Shares => "SHARES",
        Operand::Balloon => "BALLOON",
        Operand::Tau => "TAU",
        Operand::Length => "LENGTH",
        Operand::Draw => "W",
        Operand::Count => "N",
        Operand::Steps => "K",
        Operand::Label => "NAME",
    }
}

/// What it has to be.
fn wanted(operand: Operand) -> &'static str
    ensures { result.now ≡ wanted_of operand }
{
    match operand {
        Operand::Vm => "a number from 0 to 255",
        Operand::Draw => "a number from 0 to 18446744073709551615",
        Operand::Bytes => "1 to 4096 bytes, each as two small digits in hex",
        Operand::Label => "1 to 32 small letters, digits, _ and -, a letter first",
        _ => "a number from 0 to 4294967295",
    }
}

/// A byte as it is told.
fn shown_byte(byte: u8) -> char
    ensures { result ≡ shown_byte byte }
{
    if 32 <= byte && byte < 127 {
        byte as char
    } else {
        '?'
    }
}

/// Bytes as they are told, a question mark for each that is no printable ASCII.
#[derive(Clone, Copy)]
struct Shown<'a> {
    bytes: &'a [u8],
}

impl<'a> fmt::Display for Shown<'a> {
    ghost use Rattle.std.specs.Prelude.{Some, map};
    ghost use Rattle.esx_explained.specs.Telling.{shown_byte};

    ghost output = { λ s. Some (map shown_byte s.bytes.now) };

    fn fmt<W: fmt::Write>(&self, f: &mut fmt::Formatter<W>) -> fmt::Result {
        for byte in self.bytes {
            let shown = shown_byte(*byte);
            write!(f, "{shown}")?;
        }
        Ok(())
    }
}

/// The bytes of a word that are told.
fn told_bytes(word: &str) -> &[u8]
    ensures { result.now ≡ take MOST_TOLD word.now }
{
    let bytes = word.as_bytes();
    if bytes.len() <= MOST_TOLD {
        return bytes;
    }
    let (told, _) = bytes.split_at(MOST_TOLD);
    told
}

/// What stands behind them: two points where the word is cut.
fn told_end(word: &str) -> &'static str
    ensures { result.now ≡ told_end word.now }
{
    if word.len() > MOST_TOLD { "\".." } else { "\"" }
}

/// A word of the user's as it is told, between quotes.
#[derive(Clone, Copy)]
struct Told<'a> {
    word: &'a str,
}

impl<'a> fmt::Display for Told<'a> {
    ghost use Rattle.std.specs.Prelude.{Some};
    ghost use Rattle.esx_explained.specs.Telling.{told_word};

    ghost output = { λ t. Some (told_word t.word.now) };

    #[tactic(auto, unfolding(crate::specs::Telling::told_word))]
    fn fmt<W: fmt::Write>(&self, f: &mut fmt::Formatter<W>) -> fmt::Result {
        let bytes = told_bytes(self.word);
        let (shown, end) = (Shown { bytes }, told_end(self.word));
        write!(f, "\"{shown}{end}")
    }
}

/// The command that is nearest to a word, as it is told behind the word; nothing where none is.
#[derive(Clone, Copy)]
struct Hint {
    nearest: Option<Command>,
}

impl fmt::Display for Hint {
    ghost use Rattle.std.specs.Prelude.{Some};
    ghost use Rattle.esx_explained.specs.Telling.{hint_text};

    ghost output = { λ h. Some (hint_text h.nearest) };

    fn fmt<W: fmt::Write>(&self, f: &mut fmt::Formatter<W>) -> fmt::Result {
        match self.nearest {
            Some(command) => {
                let name = command.name();
                write!(f, "; the nearest is {name}")
            }
            None => Ok(()),
        }
    }
}

/// What is wanted at a place, and how it is called.
fn at_place(command: Command, at: usize) -> (&'static str, &'static str)
    ensures { (result.0.now ≡ label_at command at) × (result.1.now ≡ wanted_at command at) }
{
    match operand_at(command, at) {
        Some(operand) => (label(operand), wanted(operand)),
        None => ("operand", "nothing"),
    }
}

/// What is amiss with the operands of a command, as it is told.
#[derive(Clone, Copy)]
struct ToldAmiss<'a> {
    command: Command,
    amiss: Amiss<'a>,
}

impl<'a> fmt::Display for ToldAmiss<'a> {
    ghost use Rattle.std.specs.Prelude.{Some};
    ghost use Rattle.esx_explained.specs.Telling.{amiss_text};

    ghost output = { λ t. Some (amiss_text t.command t.amiss) };

    fn fmt<W: fmt::Write>(&self, f: &mut fmt::Formatter<W>) -> fmt::Result {
        let (name, usage) = (self.command.name(), usage(self.command));
        match self.amiss {
            Amiss::Missing { at } => {
                let (label, _) = at_place(self.command, at);
                write!(f, "{name} wants {usage}: {label} is missing")
            }
            Amiss::TooMany { word } => {
                let told = Told { word };
                write!(f, "{name} wants {usage}: {told} is too much")
            }
            Amiss::Wrong { at, word } => {
                let told = Told { word };
                let (label, wanted) = at_place(self.command, at);
                write!(f, "{name} wants {usage}: {told} is no {label}, {wanted}")
            }
        }
    }
}

impl<'a> fmt::Display for AmissEvent<'a> {
    ghost use Rattle.std.specs.Prelude.{Some};
    ghost use Rattle.esx_explained.specs.Telling.{event_text};

    ghost output = { λ e. Some (event_text e) };

    fn fmt<W: fmt::Write>(&self, f: &mut fmt::Formatter<W>) -> fmt::Result {
        match *self {
            AmissEvent::Missing => write!(f, "E is missing"),
            AmissEvent::NoSpace => write!(f, "no space stands before it"),
            AmissEvent::Unknown { word } => {
                let told = Told { word };
                write!(f, "{told} is no event")
            }
            AmissEvent::Operands { command, amiss } => {
                let told = ToldAmiss { command, amiss };
                write!(f, "{told}")
            }
        }
    }
}

impl<'a> fmt::Display for Explanation<'a> {
    ghost use Rattle.std.specs.Prelude.{Some};
    ghost use Rattle.esx_explained.specs.Telling.{explanation_text};

    ghost output = { λ e. Some (explanation_text e) };

    fn fmt<W: fmt::Write>(&self, f: &mut fmt::Formatter<W>) -> fmt::Result {
        match *self {
            Explanation::TooLong => write!(f, "it has more than {LONGEST} bytes"),
            Explanation::NotText => write!(f, "it is not UTF-8"),
            Explanation::Unknown { word, nearest } => {
                let (told, hint) = (Told { word }, Hint { nearest });
                write!(f, "{told} is no command{hint}")
            }
            Explanation::Operands { command, amiss } => {
                let told = ToldAmiss { command, amiss };
                write!(f, "{told}")
            }
            Explanation::NoEvents => write!(f, "whatif wants E; E; ..: E is missing"),
            Explanation::Tried { number, event } => { write!(f, "whatif, event {number}: {event}") }
            Explanation::TooManyEvents => {
                write!(f, "whatif wants E; E; ..: these are more than {MAX_EVENTS}")
            }
            Explanation::Other { command } => {
                let (name, usage) = (command.name(), usage(command));
                write!(f, "{name} wants {usage}")
            }
        }
    }
}
