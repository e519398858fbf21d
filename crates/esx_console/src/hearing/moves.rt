//! Moves of the cursor. They take no memory.

ghost use Rattle.std.specs.Prelude.{◌≡◌, is_ok};
ghost use Rattle.esx_model.specs.History.{History};
ghost use Rattle.esx_events.specs.declared.call.Call.TheVariants as calls;
ghost use Rattle.esx_journal.specs.Journal.{Holds};
ghost use Rattle.esx_console.specs.Hearing.{Hears, IsShort, move_said};

use crate::hearing::{Heard, refused};
use esx_events::{Name, Refusal, Said, Stand};
use esx_journal::Journal;

/// What is said to a move: where the cursor is now, or why it went nowhere.
fn moved(went: Result<Stand, Refusal>) -> Heard
    ensures value { result ≡ record { said = move_said went; jumped = is_ok went } }
    ensures short { IsShort result.said }
{
    match went {
        Ok(stand) => Heard {
            said: Said::Stand { stand },
            jumped: true,
        },
        Err(refusal) => refused(refusal),
    }
}

pub fn hear_undo(journal: &mut Journal, count: u32) -> Heard
    ensures hears { (h : History) → Holds journal.old h → Hears journal.new h (calls.Undo count) result }
    ensures short { IsShort result.said }
{
    moved(journal.undo(count))
}

pub fn hear_redo(journal: &mut Journal, count: u32) -> Heard
    ensures hears { (h : History) → Holds journal.old h → Hears journal.new h (calls.Redo count) result }
    ensures short { IsShort result.said }
{
    moved(journal.redo(count))
}

pub fn hear_goto(journal: &mut Journal, node: u32) -> Heard
    ensures hears { (h : History) → Holds journal.old h → Hears journal.new h (calls.Goto node) result }
    ensures short { IsShort result.said }
{
    moved(journal.goto(node))
}

pub fn hear_visit(journal: &mut Journal, name: &Name) -> Heard
    ensures hears { (h : History) → Holds journal.old h → Hears journal.new h (calls.Visit name.now) result }
    ensures short { IsShort result.said }
{
    moved(journal.visit(name))
}
