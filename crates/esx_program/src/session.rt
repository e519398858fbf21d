//! A session, gone through again.

ghost use Rattle.std.specs.Prelude.{◌≡◌, ◌+◌, ◌≤◌, [], ℕ, List, map, Option, IfOk, IfErr, IsErrOf, OnOk};
ghost use Rattle.std.specs.Io.KnownBytes.{Appends, Keeps};
ghost use Rattle.esx_types.specs.Ranges.{IsConfig};
ghost use Rattle.esx_console.specs.Calls.{opened_session};
ghost use Rattle.esx_console.specs.Unlogged.{AnswersAs};
ghost use Rattle.esx_session.specs.declared.session.Entry.{Entry};
ghost use Rattle.esx_session.specs.Sessions.{HasOpening, IsRefused, request};
ghost use Rattle.esx_check.specs.Checks.{ChecksText, checked_text};
ghost use Rattle.esx_check.specs.Differences.{ComparesText, compared_text};
ghost use Rattle.esx_check.specs.Replays.{replay_text, write_faults};
ghost use Rattle.esx_writing.specs.Writing.{Writes, sink_faults};
ghost use Rattle.esx_program.specs.Sessions.{GivenOut, ReplayEnds, TellingStops, check_status, failed_writes};

use crate::gates::Counting;
use crate::outgoing::{Outgoing, Waiting};
use crate::progress::{Progress, Watched};
use esx_check::{
    Again, Checked, Compared, OutputFault, diff_as_read, replay_calls, write_checked,
    write_compared,
};
use esx_reading::TextFault;
use esx_session::{Script, open_calls};
use esx_types::{Config, Sink, SinkFailed};
use esx_writing::AnswerBuffer;
use std::alloc::{AllocError, Global};
use std::marker::Brand;
use std::mem;
use std::sync::ledger::{Blank, Ledger};

/// Checks the session of a text while it is read, and gives the first call with another reply. How many of its calls
/// were made is told to `to`, where there is one.
///
/// A bad line behind a difference is the fault all the same. The program ends with the check, so the system takes
/// the memory of the console back as a whole.
pub fn diff_watched<P: Print>(
    alloc: Global,
    text: &str,
    to: Option<&P>,
) -> Result<Compared, TextFault>
    ensures compares { IfOk result (ComparesText text.now) }
    ensures fault { IfErr result (λ e. IsRefused e text.now) }
    ensures memory { IsErrOf result TextFault.OutOfMemory → HasOpening text.now }
{
    let (site, calls) = open_calls(text)?;
    let Ok(mut again) = Again::open(alloc, site) else {
        return Err(TextFault::OutOfMemory);
    };
    let progress = Progress::new(to, None, "calls");
    let mut gate = Counting {
        progress: &progress,
    };
    let compared = diff_as_read(alloc, &mut again, calls, &mut gate);
    progress.end();
    mem::forget(again);
    compared
}

/// The same, and gives what a check tells.
pub fn check_watched<P: Print>(
    alloc: Global,
    text: &str,
    to: Option<&P>,
) -> Result<Checked, TextFault>
    ensures checks { IfOk result (ChecksText text.now) }
    ensures fault { IfErr result (λ e. IsRefused e text.now) }
    ensures memory { IsErrOf result TextFault.OutOfMemory → HasOpening text.now }
{
    match diff_watched(alloc, text, to) {
        Ok(compared) => Ok(compared.checked()),
        Err(fault) => Err(fault),
    }
}

/// Hands on what waits, where memory ran out, and tells what an output comes to by that.
pub fn give_up<W: Sink>(writer: &mut W) -> OutputFault
    ensures bytes { Keeps (W.contents writer.old) (W.contents writer.new) }
    ensures failures { W.failures writer.new ≡ W.failures writer.old + failed_writes result }
    ensures flushes { W.flushes writer.new + failed_writes result ≡ W.flushes writer.old + 1 }
    ensures sent { (result ≡ OutputFault.Write → ⊥) → W.waiting writer.new ≡ [] }
{
    match writer.flush() {
        Ok(()) => OutputFault::OutOfMemory,
        Err(SinkFailed) => OutputFault::Write,
    }
}

/// What is told of a session that was gone through again.
pub trait Told {
    ghost text: { Self → List ℕ };

    /// Writes it, over an empty buffer.
    fn write_to<W: Sink>(&self, writer: &mut W, held: &mut AnswerBuffer) -> Result<(), SinkFailed>
        requires { held.old ≡ [] }
        ensures bytes { Writes (W.contents writer.old) (W.contents writer.new) (text self.now) result }
        ensures failures { W.failures writer.new ≡ W.failures writer.old + sink_faults result }
        ensures flushes { W.flushes writer.new ≡ W.flushes writer.old };
}

/// What a check came to, as a line.
impl Told for Checked {
    ghost text = { checked_text };

    fn write_to<W: Sink>(&self, writer: &mut W, held: &mut AnswerBuffer) -> Result<(), SinkFailed> {
        write_checked(writer, held, *self)
    }
}

/// The same, with a difference whole.
impl Told for Compared {
    ghost text = { compared_text };

    fn write_to<W: Sink>(&self, writer: &mut W, held: &mut AnswerBuffer) -> Result<(), SinkFailed> {
        write_compared(writer, held, self)
    }
}

/// Writes what is told, and hands it on.
pub fn write_told<T: Told, W: Sink>(
    writer: &mut W,
    held: &mut AnswerBuffer,
    told: &T,
) -> Result<(), SinkFailed>
    requires { held.old ≡ [] }
    ensures bytes { Writes (W.contents writer.old) (W.contents writer.new) (T.text told.now) result }
    ensures failures { W.failures writer.new ≡ W.failures writer.old + sink_faults result }
    ensures flushes { W.flushes writer.new + sink_faults result ≡ W.flushes writer.old + 1 }
    ensures sent { OnOk result (W.waiting writer.new ≡ []) }
{
    told.write_to(writer, held)?;
    writer.flush()
}

/// The same, where there is memory for a buffer.
pub fn tell<T: Told, W: Sink>(alloc: Global, told: &T, writer: &mut W) -> Result<(), OutputFault>
    ensures told { OnOk result (Appends (W.contents writer.old) (W.contents writer.new) (T.text told.now)) }
    ensures fault { IfErr result (λ e. TellingStops e (T.text told.now) (W.contents writer.old) (W.contents writer.new)) }
    ensures failures { W.failures writer.new ≡ W.failures writer.old + write_faults result }
    ensures flushes { W.flushes writer.new + write_faults result ≡ W.flushes writer.old + 1 }
    ensures sent { (IsErrOf result OutputFault.Write → ⊥) → W.waiting writer.new ≡ [] }
{
    let Ok(mut held) = AnswerBuffer::new(alloc) else {
        return Err(give_up(writer));
    };
    match write_told(writer, &mut held, told) {
        Ok(()) => Ok(()),
        Err(SinkFailed) => Err(OutputFault::Write),
    }
}

/// The status that the program ends with after a check.
pub fn status_of_check(checked: Checked) -> u8
    ensures { result ≡ check_status checked }
{
    match checked {
        Checked::Same(_) => 0,
        Checked::Differs(_) => 1,
    }
}

/// A console at which a session is gone through again, and room for what is written.
fn room_for_replay(alloc: Global, site: Config) -> Result<(Again, Waiting), AllocError>
    requires { IsConfig site }
    ensures answers { IfOk result (λ p. AnswersAs p.0.console (opened_session site)) }
    ensures none { IfOk result (λ p. p.0.console.jumps ≡ 0) }
    ensures empty { IfOk result (λ p. p.0.held ≡ []) }
    ensures waiting { IfOk result (λ p. p.1 ≡ []) }
{
    let again = Again::open(alloc, site)?;
    let waiting = Waiting::new(alloc)?;
    Ok((again, waiting))
}

/// Writes the replies of a session anew, and lets them wait until there are many. The program ends with the replay,
/// so the system takes the memory of the console back as a whole.
fn replay_buffered<W: Sink + Drop, L: Ledger>(
    alloc: Global,
    script: Script,
    mut writer: W,
    blank: Blank,
) -> (Result<(), OutputFault>, W)
    requires config { IsConfig script.site }
    requires name { blank.name ≡ L.name }
    requires parts { blank.parts ≡ L.parts }
    requires four { 4 ≤ blank.parts }
    ensures ok { (entries : List Entry) → script.requests ≡ map request entries
        → OnOk result.0 (Appends (W.contents writer) (W.contents result.1) (replay_text script.site entries)) }
    ensures fault { (entries : List Entry) → script.requests ≡ map request entries
        → IfErr result.0 (λ e. (taken : Option (List ℕ)) × ReplayEnds e script.site entries (W.contents writer) taken
        × GivenOut e taken (W.contents result.1)) }
    ensures failures { W.failures result.1 ≡ W.failures writer + write_faults result.0 }
    ensures flushes { W.flushes result.1 + write_faults result.0 ≡ W.flushes writer + 1 }
    ensures sent { (IsErrOf result.0 OutputFault.Write → ⊥) → W.waiting result.1 ≡ [] }
{
    let Ok((mut again, waiting)) = room_for_replay(alloc, script.site) else {
        let fault = give_up(&mut writer);
        return (Err(fault), writer);
    };
    let mut outgoing = Outgoing::<W, L>::new(writer, waiting, blank);
    let replayed = replay_calls(&mut again, script.requests, &mut outgoing);
    mem::forget(again);
    (replayed, outgoing.into_sink())
}

/// How a replay ended, and the writer as it is then.
#[derive(Drop)]
pub struct Replayed<W: Drop> {
    pub ended: Result<(), OutputFault>,
    pub writer: W,
}

/// The same, and tells how many bytes were written to `to`, where there is one.
pub fn replay_watched<P: Print, W: Sink + Drop>(
    alloc: Global,
    script: Script,
    to: Option<&P>,
    writer: W,
) -> Replayed<W>
    requires { IsConfig script.site }
    ensures ok { (entries : List Entry) → script.requests ≡ map request entries
        → OnOk result.ended (Appends (W.contents writer) (W.contents result.writer) (replay_text script.site entries)) }
    ensures fault { (entries : List Entry) → script.requests ≡ map request entries
        → IfErr result.ended (λ e. (taken : Option (List ℕ)) × ReplayEnds e script.site entries (W.contents writer) taken
        × GivenOut e taken (W.contents result.writer)) }
    ensures failures { W.failures result.writer ≡ W.failures writer + write_faults result.ended }
    ensures flushes { W.flushes result.writer + write_faults result.ended ≡ W.flushes writer + 1 }
    ensures sent { (IsErrOf result.ended OutputFault.Write → ⊥) → W.waiting result.writer ≡ [] }
{
    let progress = Progress::new(to, None, "bytes of replies");
    let watched = Watched::new(writer, &progress);
    let (ended, watched) = replay_buffered::<_, Brand>(alloc, script, watched, Blank::new(4));
    progress.end();
    Replayed {
        ended,
        writer: watched.into_writer(),
    }
}
