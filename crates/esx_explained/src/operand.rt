//! What stands behind the first word of each command.

ghost use Rattle.std.specs.Prelude.{◌≡◌, ◌<◌, ◌≤◌, ◌+◌, ◌^◌, ◌↔◌, IsTrue, ℕ, List, decimal, slice_get, IfSome};
ghost use Rattle.std.specs.List.{list_all};
ghost use Rattle.hex.specs.Hex.{encode_lower};
ghost use Rattle.esx_reading.specs.Written.{IsWritten};
ghost use Rattle.esx_explained.specs.Operands.{operands_of, least_of, is_lower_digit};

use crate::command::Command;
use esx_events::name::is_name;
use esx_reading::{MAX_DIGITS, number_of};
use esx_types::VM_NUMBERS;

/// The most words that draw the pages of a sample.
pub const MOST_WORDS: usize = 200;

/// What a word behind the first one is.
#[derive(Clone, Copy, Debug, PartialEq, Eq)]
pub enum Operand {
    Vm,
    Page,
    At,
    Len,
    Bytes,
    Min,
    Max,
    Overhead,
    Shares,
    Balloon,
    Tau,
    Length,
    Draw,
    Count,
    Steps,
    Label,
}

/// Is it the decimal number of one below a limit?
fn is_below(word: &str, limit: u64) -> bool
    ensures { IsTrue result ↔ ((n : ℕ) × (n < limit) × (word.now ≡ decimal n)) }
{
    match number_of(word) {
        Some(number) => number < limit,
        None => false,
    }
}

/// Is it the decimal number of a word of 64 bits?
fn is_word(word: &str) -> bool
    ensures { IsTrue result ↔ ((n : ℕ) × (n < 2 ^ 64) × (word.now ≡ decimal n)) }
{
    number_of(word).is_some()
}

/// Are all bytes digits in hex, in lower case?
fn has_digits(bytes: &[u8]) -> bool
    ensures { result ≡ list_all is_lower_digit bytes.now }
{
    bytes.iter().all(|byte| (b'0' <= *byte && *byte <= b'9') || (b'a' <= *byte && *byte <= b'f'))
}

/// Is it the hex of 1 to `MAX_PAGE` bytes?
fn is_bytes(word: &str) -> bool
    ensures { IsTrue result ↔ ((bytes : List ℕ) × IsWritten bytes × (word.now ≡ encode_lower bytes)) }
{
    if word.is_empty() {
        return false;
    }
    if word.len() > MAX_DIGITS {
        return false;
    }
    if word.len() % 2 != 0 {
        return false;
    }
    has_digits(word.as_bytes())
}

impl Operand {
    ghost use Rattle.std.specs.Prelude.{◌↔◌, IsTrue};
    ghost use Rattle.esx_explained.specs.Operands.{kind_of, IsValueWord};

    /// Can the word be one?
    pub fn may_be(self, word: &str) -> bool
        ensures { IsTrue result ↔ IsValueWord (kind_of self) word.now }
    {
        match self {
            Operand::Vm => is_below(word, VM_NUMBERS as u64),
            Operand::Draw => is_word(word),
            Operand::Bytes => is_bytes(word),
            Operand::Label => is_name(word.as_bytes()),
            _ => is_below(word, 1 << 32),
        }
    }
}

/// The operands of a command, but for the words of a sample.
fn operands(command: Command) -> &'static [Operand]
    ensures { (command ≡ Command.Sample → ⊥) → result.now ≡ operands_of command }
{
    match command {
        Command::Admit => &[
            Operand::Vm,
            Operand::Min,
            Operand::Max,
            Operand::Overhead,
            Operand::Shares,
            Operand::Balloon,
            Operand::Tau,
        ],
        Command::Start | Command::Ask | Command::Stop | Command::Gone | Command::OfVm => &[
            Operand::Vm,
        ],
        Command::Lend
        | Command::TakeBack
        | Command::Scan
        | Command::DropPage
        | Command::OfPage
        | Command::Advise
        | Command::PageOut => &[Operand::Vm, Operand::Page],
        Command::Shares | Command::VmTax => &[Operand::Vm, Operand::Count],
        Command::Read => &[Operand::Vm, Operand::Page, Operand::At, Operand::Len],
        Command::Write => &[Operand::Vm, Operand::Page, Operand::At, Operand::Bytes],
        Command::Sample => &[Operand::Vm, Operand::Length],
        Command::Rebalance
        | Command::Sum
        | Command::Table
        | Command::Stand
        | Command::Marks
        | Command::WhatIf
        | Command::Session
        | Command::Order => &[],
        Command::SwapOut => &[Operand::Vm, Operand::Draw],
        Command::Replace => &[Operand::Vm, Operand::Page, Operand::Draw],
        Command::Tax | Command::Goto | Command::Prune => &[Operand::Count],
        Command::Undo | Command::Redo => &[Operand::Steps],
        Command::Visit | Command::Mark => &[Operand::Label],
    }
}

/// The operand of a sample at a place.
fn sample_operand(at: usize) -> Option<Operand>
    ensures { result ≡ slice_get (operands_of Command.Sample) at }
{
    match at {
        0 => Some(Operand::Vm),
        1 => Some(Operand::Length),
        _ => {
            if at - 2 < MOST_WORDS {
                Some(Operand::Draw)
            } else {
                None
            }
        }
    }
}

/// The operand at a place, from 0 on.
pub fn operand_at(command: Command, at: usize) -> Option<Operand>
    ensures { result ≡ slice_get (operands_of command) at }
{
    match command {
        Command::Sample => sample_operand(at),
        _ => operands(command).get(at).copied(),
    }
}

/// How many operands a command has at the least.
pub fn least(command: Command) -> usize
    ensures { result ≡ least_of command }
{
    match command {
        Command::Admit => 6,
        Command::Sample => 2,
        _ => operands(command).len(),
    }
}
