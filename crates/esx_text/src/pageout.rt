//! The line by which a page goes out by its number. It is no call: it makes a swap-out by the page's word.

ghost use Rattle.std.specs.Prelude.{◌≡◌, ◌+◌, ◌<◌, ◌^◌, ◌∷◌, ◌++◌, [], ℕ, List, MatchOption, IfSome, IfNone, OnOk, IsErrOf, decimal};
ghost use Rattle.esx_types.specs.declared.config.TheConstants.{VM_NUMBERS};
ghost use Rattle.esx_replies.specs.Texts.{refusal_text};
ghost use Rattle.esx_writing.specs.Writing.{Writes, sink_faults};
ghost use Rattle.esx_text.specs.Lines.{input_bytes};
ghost use Rattle.esx_text.specs.PageOut.{AsksOut, pageout_words};
ghost use Rattle.esx_text.specs.Answers.{IsServed, write_faults};
ghost use Rattle.esx_text.specs.Echo.{echo_of};

use crate::calling::make_call;
use crate::echo::{Echo, write_echo};
use crate::fault::ServeFault;
use crate::line::Input;
use esx_console::Console;
use esx_events::{Call, Event, Refusal, Reply, Said};
use esx_pageout::word_of;
use esx_reading::Fields;
use esx_replies::write_reply;
use esx_told::Tells;
use esx_types::{Sink, SinkFailed, VmId};
use esx_writing::AnswerBuffer;

/// A virtual machine and a page, where nothing else is left.
fn place(fields: &mut Fields) -> Option<(VmId, u32)>
    ensures some { IfSome result (λ p. (p.0 < VM_NUMBERS) × (p.1 < 2 ^ 32) × (fields.old ≡ decimal p.0 ∷ decimal p.1 ∷ [])) }
    ensures none { IfNone result ((n page : ℕ) → n < VM_NUMBERS → page < 2 ^ 32 → fields.old ≡ decimal n ∷ decimal page ∷ [] → ⊥) }
{
    let vm = fields.vm()?;
    let page = fields.number()?;
    if fields.is_empty() {
        Some((vm, page))
    } else {
        None
    }
}

/// The machine and the page that these words ask to go out, if they do.
fn asked_of(fields: &mut Fields) -> Option<(VmId, u32)>
    ensures some { IfSome result (λ p. (p.0 < VM_NUMBERS) × (p.1 < 2 ^ 32) × (fields.old ≡ pageout_words p.0 p.1)) }
    ensures none { IfNone result ((n page : ℕ) → n < VM_NUMBERS → page < 2 ^ 32 → fields.old ≡ pageout_words n page → ⊥) }
{
    let Some(word) = fields.next() else {
        return None;
    };
    if word != "pageout" {
        return None;
    }
    place(fields)
}

/// The machine and the page that a line asks to go out, if it does.
pub fn asked_out(line: Input) -> Option<(VmId, u32)>
    ensures { MatchOption result ((n page : ℕ) → AsksOut (input_bytes line.entry) n page → ⊥) (λ p. AsksOut (input_bytes line.entry) p.0 p.1) }
{
    let Some(text) = line.text() else {
        return None;
    };
    asked_of(&mut Fields::of(text))
}

/// Writes the echo of a line, and why a page has no word.
fn write_refusal<W: Sink>(
    writer: &mut W,
    held: &mut AnswerBuffer,
    refusal: Refusal,
    echo: &Echo,
) -> Result<(), SinkFailed>
    requires { held.old ≡ [] }
    ensures bytes { Writes (W.contents writer.old) (W.contents writer.new) (echo_of echo.now ++ refusal_text refusal) result }
    ensures empty { held.new ≡ [] }
    ensures failures { W.failures writer.new ≡ W.failures writer.old + sink_faults result }
    ensures flushes { W.flushes writer.new ≡ W.flushes writer.old }
{
    write_echo(writer, echo)?;
    // No refusal tells the jumps.
    let reply = Reply {
        jumps: 0,
        said: Said::Refused { refusal },
    };
    write_reply(writer, held, &reply)
}

/// Makes the swap-out by which a page goes out, and writes the echo of the line and the reply; or writes the echo and why
/// the page has no word.
pub fn answer_pageout<L: Tells, W: Sink>(
    console: &mut Console<L>,
    caller: u16,
    writer: &mut W,
    held: &mut AnswerBuffer,
    vm: VmId,
    page: u32,
    echo: &Echo,
) -> Result<(), ServeFault>
    requires { held.old ≡ [] }
    ensures served { (n : ℕ) (line : List ℕ) → AsksOut line vm page
        → IsServed (echo_of echo.now) n caller console.old line console.new (W.contents writer.old) (W.contents writer.new) result }
    ensures empty { OnOk result (held.new ≡ []) }
    ensures failures { W.failures writer.new ≡ W.failures writer.old + write_faults result }
    ensures flushes { W.flushes writer.new ≡ W.flushes writer.old }
    ensures reads { IsErrOf result ServeFault.Read → ⊥ }
{
    match word_of(console.machine(), vm, page) {
        Ok(word) => {
            let event = Event::SwapOut { vm, word };
            make_call(console, caller, writer, held, Call::Do { event }, &[], echo)
        }
        Err(refusal) => match write_refusal(writer, held, refusal, echo) {
            Ok(()) => Ok(()),
            Err(_) => Err(ServeFault::Write),
        },
    }
}
