//! The words of the console alone: they are no calls, and the log gets no line of them.

ghost use Rattle.std.specs.Prelude.{◌≡◌, [], ℕ, List, OnOk, MatchOption, IsErrOf, ◌+◌};
ghost use Rattle.esx_text.specs.Answers.{IsServed, write_faults};
ghost use Rattle.esx_text.specs.Echo.{echo_of};
ghost use Rattle.esx_text.specs.Own.{own_line};
ghost use Rattle.esx_text.specs.declared.own.OwnWord.TheVariants.{Session, Order};

use crate::echo::{Echo, write_echo};
use crate::fault::ServeFault;
use esx_console::Console;
use esx_order::{order_of, write_order};
use esx_told::Tells;
use esx_types::Sink;
use esx_writing::AnswerBuffer;
use std::alloc::Global;

/// A word of the console alone.
#[derive(Clone, Copy)]
pub enum OwnWord {
    /// Tells the session so far.
    Session,
    /// Tells the machines above their targets, in the order of their taxed ratios.
    Order,
}

/// The word of the console alone that a line is, if it is one.
pub fn own_word(line: &[u8]) -> Option<OwnWord>
    ensures { MatchOption result ((word : OwnWord) → line.now ≡ own_line word → ⊥) (λ word. line.now ≡ own_line word) }
{
    if line == b"session".as_slice() {
        return Some(OwnWord::Session);
    }
    if line == b"order".as_slice() {
        return Some(OwnWord::Order);
    }
    None
}

/// Writes the echo of a line and the session so far. No memory is taken.
fn answer_session<L: Tells, W: Sink>(
    console: &Console<L>,
    writer: &mut W,
    held: &mut AnswerBuffer,
    echo: &Echo,
) -> Result<(), ServeFault>
    requires { held.old ≡ [] }
    ensures served { (n caller : ℕ) (line : List ℕ) → line ≡ own_line Session
        → IsServed (echo_of echo.now) n caller console.now line console.now (W.contents writer.old) (W.contents writer.new) result }
    ensures empty { OnOk result (held.new ≡ []) }
    ensures failures { W.failures writer.new ≡ W.failures writer.old + write_faults result }
    ensures flushes { W.flushes writer.new ≡ W.flushes writer.old }
    ensures reads { IsErrOf result ServeFault.Read → ⊥ }
{
    let Ok(()) = write_echo(writer, echo) else {
        return Err(ServeFault::Write);
    };
    match console.kept().tell_session(writer, held, &console.site()) {
        Ok(()) => Ok(()),
        Err(_) => Err(ServeFault::Write),
    }
}

/// Takes memory for the order of the machines above their targets, and writes the echo of a line and the order.
fn answer_order<L: Tells, W: Sink>(
    alloc: Global,
    console: &Console<L>,
    writer: &mut W,
    held: &mut AnswerBuffer,
    echo: &Echo,
) -> Result<(), ServeFault>
    requires { held.old ≡ [] }
    ensures served { (n caller : ℕ) (line : List ℕ) → line ≡ own_line Order
        → IsServed (echo_of echo.now) n caller console.now line console.now (W.contents writer.old) (W.contents writer.new) result }
    ensures empty { OnOk result (held.new ≡ []) }
    ensures failures { W.failures writer.new ≡ W.failures writer.old + write_faults result }
    ensures flushes { W.flushes writer.new ≡ W.flushes writer.old }
    ensures reads { IsErrOf result ServeFault.Read → ⊥ }
{
    let Ok(order) = order_of(alloc, console.machine()) else {
        return Err(ServeFault::OutOfMemory);
    };
    let Ok(()) = write_echo(writer, echo) else {
        return Err(ServeFault::Write);
    };
    match write_order(writer, held, order.as_slice()) {
        Ok(()) => Ok(()),
        Err(_) => Err(ServeFault::Write),
    }
}

/// Answers a word of the console alone.
pub fn answer_own<L: Tells, W: Sink>(
    alloc: Global,
    console: &Console<L>,
    writer: &mut W,
    held: &mut AnswerBuffer,
    word: OwnWord,
    echo: &Echo,
) -> Result<(), ServeFault>
    requires { held.old ≡ [] }
    ensures served { (n caller : ℕ) (line : List ℕ) → line ≡ own_line word
        → IsServed (echo_of echo.now) n caller console.now line console.now (W.contents writer.old) (W.contents writer.new) result }
    ensures empty { OnOk result (held.new ≡ []) }
    ensures failures { W.failures writer.new ≡ W.failures writer.old + write_faults result }
    ensures flushes { W.flushes writer.new ≡ W.flushes writer.old }
    ensures reads { IsErrOf result ServeFault.Read → ⊥ }
{
    match word {
        OwnWord::Session => answer_session(console, writer, held, echo),
        OwnWord::Order => answer_order(alloc, console, writer, held, echo),
    }
}
