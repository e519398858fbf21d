//! What is amiss with the words behind the first one of a command.

ghost use Rattle.std.specs.Prelude.{◌≡◌, MatchOption};
ghost use Rattle.esx_explained.specs.Amiss.{IsAmiss, AreRight};

use crate::command::Command;
use crate::operand::{least, operand_at};
use esx_reading::Fields;

/// What is amiss with the operands of a command: the first from the left. They are counted from 0 on, behind the first word.
#[derive(Clone, Copy, Debug, PartialEq, Eq)]
pub enum Amiss<'a> {
    /// The line ends before this operand.
    Missing { at: usize },
    /// This word stands behind the last operand.
    TooMany { word: &'a str },
    /// This operand cannot be this word.
    Wrong { at: usize, word: &'a str },
}

/// What is amiss with the operands that are left of a command, if anything is.
pub fn amiss_operands<'a>(command: Command, fields: &mut Fields<'a>) -> Option<Amiss<'a>>
    ensures { MatchOption result (AreRight command fields.old) (λ a. IsAmiss command fields.old a) }
{
    let mut at = 0;
    while let Some(word) = fields.next() {
        let Some(operand) = operand_at(command, at) else {
            return Some(Amiss::TooMany { word });
        };
        if !operand.may_be(word) {
            return Some(Amiss::Wrong { at, word });
        }
        at += 1;
    }
    if at < least(command) {
        return Some(Amiss::Missing { at });
    }
    None
}
