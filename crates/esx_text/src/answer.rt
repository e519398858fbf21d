//! The answer to a line.

ghost use Rattle.std.specs.Prelude.{◌≡◌, ◌+◌, [], ℕ, List, IfOk, OnOk, OnErr, MatchOption, IsTrue, ◌↔◌, IsErrOf};
ghost use Rattle.esx_events.specs.declared.call.Call.{Call};
ghost use Rattle.esx_model.specs.Console.{Session};
ghost use Rattle.esx_text.specs.Lines.{Keeps, IsSilent, input_bytes};
ghost use Rattle.esx_text.specs.declared.own.OwnWord.{OwnWord};
ghost use Rattle.esx_text.specs.Own.{own_line};
ghost use Rattle.esx_text.specs.PageOut.{AsksOut};
ghost use Rattle.esx_text.specs.Answers.{IsAsked, IsServed, MayWantMemory, write_faults};
ghost use Rattle.esx_text.specs.Echo.{echo_in, echo_of};

use crate::calling::make_call;
use crate::echo::{Echo, Manner, write_echo};
use crate::fault::ServeFault;
use crate::line::Input;
use crate::own::{answer_own, own_word};
use crate::pageout::{answer_pageout, asked_out};
use esx_console::Console;
use esx_events::Call;
use esx_told::Tells;
use esx_types::Sink;
use esx_words::parse_command;
use esx_writing::{AnswerBuffer, Piece, write_pieces};
use std::alloc::{AllocError, Global};

/// The longest line of a command, in bytes.
pub const LONGEST: usize = 16384;

/// The call that a line asks for, if it does.
fn call_of_line(alloc: Global, line: Input) -> Result<Option<Call>, AllocError>
    ensures found { IfOk result (λ found. MatchOption found ((call : Call) → IsAsked (input_bytes line.entry) call → ⊥) (IsAsked (input_bytes line.entry))) }
    ensures memory { OnErr result (MayWantMemory (input_bytes line.entry)) }
{
    if line.bytes().len() > LONGEST {
        return Ok(None);
    }
    let Some(text) = line.text() else {
        return Ok(None);
    };
    parse_command(alloc, text)
}

/// Makes the call that a line asks for, and writes its echo and the reply.
fn answer_call<L: Tells, W: Sink>(
    console: &mut Console<L>,
    caller: u16,
    writer: &mut W,
    held: &mut AnswerBuffer,
    call: Call,
    echo: &Echo,
) -> Result<(), ServeFault>
    requires empty { held.old ≡ [] }
    requires asked { IsAsked echo.now.line.now call }
    ensures served { (n : ℕ) → IsServed (echo_of echo.now) n caller console.old echo.now.line.now console.new (W.contents writer.old) (W.contents writer.new) result }
    ensures empty { OnOk result (held.new ≡ []) }
    ensures failures { W.failures writer.new ≡ W.failures writer.old + write_faults result }
    ensures flushes { W.flushes writer.new ≡ W.flushes writer.old }
    ensures reads { IsErrOf result ServeFault.Read → ⊥ }
{
    make_call(console, caller, writer, held, call, echo.line, echo)
}

/// Writes the echo of a line that is no command, and its answer.
fn answer_unknown<W: Sink>(
    writer: &mut W,
    held: &mut AnswerBuffer,
    number: u64,
    echo: &Echo,
) -> Result<(), ServeFault>
    requires { held.old ≡ [] }
    ensures served { (caller : ℕ) (session : Session) (line : List ℕ) → (IsSilent line → ⊥) → ((word : OwnWord) → line ≡ own_line word → ⊥)
        → ((m page : ℕ) → AsksOut line m page → ⊥) → ((call : Call) → IsAsked line call → ⊥)
        → IsServed (echo_of echo.now) number caller session line session (W.contents writer.old) (W.contents writer.new) result }
    ensures empty { OnOk result (held.new ≡ []) }
    ensures failures { W.failures writer.new ≡ W.failures writer.old + write_faults result }
    ensures flushes { W.flushes writer.new ≡ W.flushes writer.old }
    ensures reads { IsErrOf result ServeFault.Read → ⊥ }
{
    let Ok(()) = write_echo(writer, echo) else {
        return Err(ServeFault::Write);
    };
    match write_pieces(
        writer,
        held,
        &[
            Piece::Text("? line "),
            Piece::Number(number),
            Piece::Text("\n"),
        ],
    ) {
        Ok(()) => Ok(()),
        Err(_) => Err(ServeFault::Write),
    }
}

/// Whether a line is answered by nothing.
pub fn is_silent(line: &[u8]) -> bool
    ensures { IsTrue result ↔ IsSilent line.now }
{
    match line {
        [] => true,
        [first, ..] => *first == b'#',
    }
}

/// A line by its number from 1 on, and the manner in which it is served: all its bytes, or where it is too long a front
/// of them.
#[derive(Clone, Copy)]
pub struct Asked<'a> {
    pub number: u64,
    pub kept: Input<'a>,
    pub long: bool,
    pub manner: Manner,
}

/// Answers a line, and writes its echo before the answer.
pub fn answer_line<L: Tells, W: Sink>(
    alloc: Global,
    console: &mut Console<L>,
    caller: u16,
    writer: &mut W,
    held: &mut AnswerBuffer,
    asked: &Asked,
) -> Result<(), ServeFault>
    requires { held.old ≡ [] }
    ensures served { (line : List ℕ) → Keeps (input_bytes asked.now.kept) asked.now.long line
        → IsServed (echo_in asked.now.manner line) asked.now.number caller console.old line console.new (W.contents writer.old) (W.contents writer.new) result }
    ensures empty { OnOk result (held.new ≡ []) }
    ensures failures { W.failures writer.new ≡ W.failures writer.old + write_faults result }
    ensures flushes { W.flushes writer.new ≡ W.flushes writer.old }
    ensures reads { IsErrOf result ServeFault.Read → ⊥ }
{
    let kept = asked.kept.bytes();
    if is_silent(kept) {
        return Ok(());
    }
    if asked.long {
        return answer_unknown(
            writer,
            held,
            asked.number,
            &Echo {
                manner: Manner::Plain,
                line: kept,
            },
        );
    }
    let echo = Echo {
        manner: asked.manner,
        line: kept,
    };
    if let Some(word) = own_word(kept) {
        return answer_own(alloc, console, writer, held, word, &echo);
    }
    let Ok(found) = call_of_line(alloc, asked.kept) else {
        return Err(ServeFault::OutOfMemory);
    };
    if let Some(call) = found {
        return answer_call(console, caller, writer, held, call, &echo);
    }
    match asked_out(asked.kept) {
        Some((vm, page)) => answer_pageout(console, caller, writer, held, vm, page, &echo),
        None => answer_unknown(writer, held, asked.number, &echo),
    }
}
