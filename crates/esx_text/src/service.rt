//! The loop that serves a console line by line.

ghost use Rattle.std.specs.Prelude.{◌≡◌, ◌+◌, ◌<◌, ◌≤◌, ◌^◌, ◌++◌, ◌∷◌, [], ℕ, List, Option, Ok, Err, None, Some, IfOk, IfErr, IfSome, MatchOption, OnOk, IsErrOf, ◌⊎◌, length};
ghost use Rattle.std.specs.Io.KnownBytes.{Keeps, Consumes, IsAtEnd};
ghost use Rattle.esx_types.specs.Ends.{call_successes};
ghost use Rattle.esx_model.specs.Console.{Session};
ghost use Rattle.esx_reading.specs.Whole.{AskForPieces};
ghost use Rattle.esx_text.specs.Lines.{HasLines, HasNoFeed, Holds, input_bytes};
ghost use Rattle.esx_text.specs.Answers.{Progress, Answers, AnswersIn, Stops, StopsLast, Faults, FaultsIn, EndsEarly, EndsEarlyIn, Reaches, ReadsOn, Ends, ends_found, fault_writes, read_faults, write_faults};
ghost use Rattle.esx_text.specs.declared.echo.Manner.{Manner};
ghost use Rattle.esx_text.specs.States.{LeavesStreams, SourceState, sink_state, source_state};

use crate::ahead::Ahead;
use crate::answer::{Asked, answer_line};
use crate::echo::Manner;
use crate::ends::LineEnds;
use crate::fault::ServeFault;
use crate::line::{Input, LineBuffer, either};
use esx_console::{Console, Log};
use esx_reading::{CHUNK, READS};
use esx_told::Tells;
use esx_types::{Sink, SinkFailed, Source};
use esx_writing::AnswerBuffer;
use std::alloc::{AllocError, Global};

/// What is kept from one read to the next: the line that may go on, the room for an answer, the number of
/// lines so far, and what was looked at ahead of them.
#[derive(Drop)]
struct Work {
    line: LineBuffer,
    answer: AnswerBuffer,
    count: u64,
    ahead: Ahead,
}

impl Work {
    fn new(alloc: Global) -> Result<Work, AllocError>
        ensures empty { IfOk result (λ work. work.answer ≡ []) }
        ensures none { IfOk result (λ work. work.count ≡ 0) }
        ensures start { IfOk result (λ work. Holds work.line []) }
    {
        Ok(Work {
            line: LineBuffer::new(alloc)?,
            answer: AnswerBuffer::new(alloc)?,
            count: 0,
            ahead: Ahead::new(),
        })
    }
}

/// Takes the bytes up to a line feed, and answers the line that they end.
fn serve_line<L: Tells, W: Sink>(
    alloc: Global,
    console: &mut Console<L>,
    caller: u16,
    writer: &mut W,
    work: &mut Work,
    manner: Manner,
    piece: Input,
) -> Result<(), ServeFault>
    requires empty { work.old.answer ≡ [] }
    requires room { work.old.count < 2 ^ 63 }
    requires clean { HasNoFeed (input_bytes piece) }
    ensures ok { OnOk result ((before : Session) (known : Option (List ℕ)) (input : List ℕ)
        → Progress manner caller before known input work.old.count work.old.line console.old (W.contents writer.old)
        → Progress manner caller before known (input ++ (input_bytes piece.entry ++ 10 ∷ [])) work.new.count work.new.line console.new (W.contents writer.new)) }
    ensures fault { IfErr result (λ e. (before : Session) (known : Option (List ℕ)) (input later : List ℕ)
        → Progress manner caller before known input work.old.count work.old.line console.old (W.contents writer.old)
        → Stops manner e caller before console.new (input ++ (input_bytes piece.entry ++ 10 ∷ later)) known (W.contents writer.new)) }
    ensures empty { OnOk result (work.new.answer ≡ []) }
    ensures count { work.new.count ≡ work.old.count + 1 }
    ensures failures { W.failures writer.new ≡ W.failures writer.old + write_faults result }
    ensures flushes { W.flushes writer.new ≡ W.flushes writer.old }
    ensures reads { IsErrOf result ServeFault.Read → ⊥ }
{
    let whole = work.line.end(piece.bytes());
    work.count += 1;
    answer_line(
        alloc,
        console,
        caller,
        writer,
        &mut work.answer,
        &Asked {
            number: work.count,
            kept: either(whole, piece, Input::Bytes(work.line.bytes())).without_return(),
            long: work.line.is_long(),
            manner,
        },
    )?;
    work.line.clear();
    Ok(())
}

/// The next line of a rest, and what stands behind it.
#[inline]
fn next_line<'a, L: Log>(
    console: &Console<L>,
    ahead: &mut Ahead,
    ends: &mut LineEnds,
    rest: Input<'a>,
) -> Option<(Input<'a>, Input<'a>)>
    requires { HasLines (input_bytes rest) ends.old }
    ensures parts { MatchOption result (HasNoFeed (input_bytes rest.entry)) (λ parts. HasNoFeed (input_bytes parts.0) × (input_bytes rest.entry ≡ input_bytes parts.0 ++ 10 ∷ input_bytes parts.1)) }
    ensures ends { IfSome result (λ parts. HasLines (input_bytes parts.1) ends.new) }
{
    let bytes = rest.bytes();
    ahead.look(console, ends, bytes);
    let at = ends.next(bytes)?;
    Some(rest.split_at_end(at))
}

/// Takes the next bytes.
fn serve_bytes<L: Tells, W: Sink>(
    alloc: Global,
    console: &mut Console<L>,
    caller: u16,
    writer: &mut W,
    work: &mut Work,
    manner: Manner,
    bytes: &[u8],
) -> Result<(), ServeFault>
    requires empty { work.old.answer ≡ [] }
    requires room { work.old.count + length bytes.now < 2 ^ 63 }
    ensures ok { OnOk result ((before : Session) (known : Option (List ℕ)) (input : List ℕ)
        → Progress manner caller before known input work.old.count work.old.line console.old (W.contents writer.old)
        → Progress manner caller before known (input ++ bytes.now) work.new.count work.new.line console.new (W.contents writer.new)) }
    ensures fault { IfErr result (λ e. (before : Session) (known : Option (List ℕ)) (input : List ℕ)
        → Progress manner caller before known input work.old.count work.old.line console.old (W.contents writer.old)
        → Stops manner e caller before console.new (input ++ bytes.now) known (W.contents writer.new)) }
    ensures empty { OnOk result (work.new.answer ≡ []) }
    ensures count { work.new.count ≤ work.old.count + length bytes.now }
    ensures failures { W.failures writer.new ≡ W.failures writer.old + write_faults result }
    ensures flushes { W.flushes writer.new ≡ W.flushes writer.old }
    ensures reads { IsErrOf result ServeFault.Read → ⊥ }
{
    let mut rest = Input::of(bytes);
    let mut ends = LineEnds::new();
    while let Some((piece, later)) = next_line(console, &mut work.ahead, &mut ends, rest) {
        serve_line(alloc, console, caller, writer, work, manner, piece)?;
        rest = later;
    }
    work.line.extend(rest.bytes());
    Ok(())
}

/// Answers the last line where no line feed ends it, and counts the lines.
fn serve_end<L: Tells, W: Sink>(
    alloc: Global,
    console: &mut Console<L>,
    caller: u16,
    writer: &mut W,
    work: &mut Work,
    manner: Manner,
) -> Result<u64, ServeFault>
    requires empty { work.old.answer ≡ [] }
    requires room { work.old.count < 2 ^ 63 }
    ensures ok { IfOk result (λ n. (before : Session) (known unread left : Option (List ℕ)) (input : List ℕ)
        → Progress manner caller before known input work.old.count work.old.line console.old (W.contents writer.old)
        → Consumes unread left input → IsAtEnd left
        → AnswersIn manner caller n before console.new unread left known (W.contents writer.new)) }
    ensures fault { IfErr result (λ e. (before : Session) (known : Option (List ℕ)) (input : List ℕ)
        → Progress manner caller before known input work.old.count work.old.line console.old (W.contents writer.old)
        → StopsLast manner e caller before console.new input known (W.contents writer.new)) }
    ensures failures { W.failures writer.new ≡ W.failures writer.old + write_faults result }
    ensures flushes { W.flushes writer.new ≡ W.flushes writer.old }
    ensures reads { IsErrOf result ServeFault.Read → ⊥ }
{
    if work.line.bytes().is_empty() {
        return Ok(work.count);
    }
    work.count += 1;
    answer_line(
        alloc,
        console,
        caller,
        writer,
        &mut work.answer,
        &Asked {
            number: work.count,
            kept: Input::Bytes(work.line.bytes()),
            long: work.line.is_long(),
            manner,
        },
    )?;
    Ok(work.count)
}

/// Hands on the answers that wait.
fn send<W: Sink>(writer: &mut W) -> Result<(), ServeFault>
    ensures bytes { Keeps (W.contents writer.old) (W.contents writer.new) }
    ensures sent { OnOk result (W.waiting writer.new ≡ []) }
    ensures fault { IfErr result (λ e. e ≡ ServeFault.Write) }
    ensures failures { W.failures writer.new ≡ W.failures writer.old + write_faults result }
    ensures flushes { W.flushes writer.new ≡ W.flushes writer.old + call_successes result }
{
    match writer.flush() {
        Ok(()) => Ok(()),
        Err(SinkFailed) => Err(ServeFault::Write),
    }
}

/// Hands on the answers that wait, where memory ran out. This is also what serving comes to where it ran
/// out before the first read.
pub fn give_up<W: Sink>(writer: &mut W) -> ServeFault
    ensures fault { (caller : ℕ) (before after : Session) (unread left old : Option (List ℕ))
        → Faults ServeFault.OutOfMemory caller before after unread left old (W.contents writer.old)
        → Faults result caller before after unread left old (W.contents writer.new) }
    ensures at_once { (caller : ℕ) (session : Session) (unread : Option (List ℕ)) (calls : ℕ)
        → EndsEarly result caller session session unread unread calls calls (W.contents writer.old) (W.contents writer.new) }
    ensures fault_in { (manner : Manner) (caller : ℕ) (before after : Session) (unread left old : Option (List ℕ))
        → FaultsIn manner ServeFault.OutOfMemory caller before after unread left old (W.contents writer.old)
        → FaultsIn manner result caller before after unread left old (W.contents writer.new) }
    ensures at_once_in { (manner : Manner) (caller : ℕ) (session : Session) (unread : Option (List ℕ)) (calls : ℕ)
        → EndsEarlyIn manner result caller session session unread unread calls calls (W.contents writer.old) (W.contents writer.new) }
    ensures read { result ≡ ServeFault.Read → ⊥ }
    ensures write { W.failures writer.new ≡ W.failures writer.old + fault_writes result }
    ensures flushes { W.flushes writer.new + fault_writes result ≡ W.flushes writer.old + 1 }
    ensures sent { (result ≡ ServeFault.Write → ⊥) → W.waiting writer.new ≡ [] }
    ensures streams { (unread : SourceState) → LeavesStreams (Err result) unread unread
        (sink_state W.contents W.waiting W.failures W.flushes writer.old) (sink_state W.contents W.waiting W.failures W.flushes writer.new) }
{
    match send(writer) {
        Ok(()) => ServeFault::OutOfMemory,
        Err(fault) => fault,
    }
}

/// Reads lines to the end of the input, over an empty line and a room for what is read, and hands on
/// the answers before each read. It gives the number of lines, or none where the input had no end.
fn serve_reads<L: Tells, R: Source, W: Sink>(
    alloc: Global,
    console: &mut Console<L>,
    caller: u16,
    reader: &mut R,
    writer: &mut W,
    work: &mut Work,
    manner: Manner,
    chunk: &mut [u8],
) -> Result<Option<u64>, ServeFault>
    requires empty { work.old.answer ≡ [] }
    requires none { work.old.count ≡ 0 }
    requires start { Holds work.old.line [] }
    requires room { length chunk.old ≡ CHUNK }
    ensures served { Reaches manner result caller console.old console.new
        (R.remaining reader.old) (R.remaining reader.new) (W.contents writer.old) (W.contents writer.new) }
    ensures reads { R.calls reader.new ≤ R.calls reader.old + READS }
    ensures pieces { AskForPieces (R.calls reader.old) (R.calls reader.new) (R.asked reader.old) (R.asked reader.new) }
    ensures endless { result ≡ Ok None → R.calls reader.new ≡ R.calls reader.old + READS }
    ensures found { IfOk result (λ count. R.empty_reads reader.new ≡ R.empty_reads reader.old + ends_found count) }
    ensures not_found { IsErrOf result ServeFault.Read → R.empty_reads reader.new ≡ R.empty_reads reader.old }
    ensures ends { R.empty_reads reader.new ≤ R.empty_reads reader.old + 1 }
    ensures each { ReadsOn (R.remaining reader.old) (R.remaining reader.new) (R.calls reader.old) (R.calls reader.new) }
    ensures read { R.failures reader.new ≡ R.failures reader.old + read_faults result }
    ensures write { W.failures writer.new ≡ W.failures writer.old + write_faults result }
    ensures flushes { W.flushes writer.new + R.calls reader.old ≡ W.flushes writer.old + R.calls reader.new }
    ensures sent { IsErrOf result ServeFault.Read → W.waiting writer.new ≡ [] }
{
    for _ in 0..READS {
        send(writer)?;
        let Ok(given) = reader.read(chunk) else {
            return Err(ServeFault::Read);
        };
        if given == 0 {
            let count = serve_end(alloc, console, caller, writer, work, manner)?;
            return Ok(Some(count));
        }
        let (bytes, _) = chunk.split_at(given);
        serve_bytes(alloc, console, caller, writer, work, manner, bytes)?;
    }
    Ok(None)
}

/// Hands on the last answers, where no end has failed.
fn finish<W: Sink>(
    writer: &mut W,
    served: Result<Option<u64>, ServeFault>,
) -> Result<u64, ServeFault>
    ensures served { (manner : Manner) (caller : ℕ) (before after : Session) (unread left old : Option (List ℕ))
        → Reaches manner served caller before after unread left old (W.contents writer.old)
        → Ends manner result caller before after unread left old (W.contents writer.new) }
    ensures read { IsErrOf result ServeFault.Read → IsErrOf served ServeFault.Read ⊎ (served ≡ Ok None) }
    ensures no_read_fault { (IsErrOf result ServeFault.Read → ⊥) → read_faults served ≡ 0 }
    ensures counted { IfOk result (λ count. served ≡ Ok (Some count)) }
    ensures write { W.failures writer.new + write_faults served ≡ W.failures writer.old + write_faults result }
    ensures flushes { W.flushes writer.new + read_faults served + write_faults result ≡ W.flushes writer.old + 1 }
    ensures sent { (IsErrOf served ServeFault.Read → W.waiting writer.old ≡ [])
        → (IsErrOf result ServeFault.Write → ⊥) → W.waiting writer.new ≡ [] }
{
    match served {
        Ok(found) => {
            send(writer)?;
            found.ok_or(ServeFault::Read)
        }
        Err(fault) => match fault {
            ServeFault::OutOfMemory => Err(give_up(writer)),
            ServeFault::Read | ServeFault::Write => Err(fault),
        },
    }
}

/// Reads lines to the end of the input, and writes each answer whole before it makes the next line's
/// call. Before it asks for more input, and at its end, it hands on what it has written. It answers
/// the number of lines.
///
/// A carriage return directly before a line feed is no part of the line. An empty line, and one that
/// begins with `#`, is answered by nothing; `session` by the session so far, and `order` by the machines above
/// their targets; any other that is no command, or has more than `LONGEST` bytes, by `? line N`. All memory but
/// that of the calls and of the order is taken before the first read.
pub fn serve<L: Tells, R: Source, W: Sink>(
    alloc: Global,
    console: &mut Console<L>,
    caller: u16,
    reader: &mut R,
    writer: &mut W,
) -> Result<u64, ServeFault>
    ensures ok { IfOk result (λ n. Answers caller n console.old console.new
        (R.remaining reader.old) (R.remaining reader.new) (W.contents writer.old) (W.contents writer.new)) }

    // Where memory was wanting nothing was read, or it was wanting for a line for which memory may be taken, and
    // those before it are answered.
    ensures fault { IfErr result (λ e. EndsEarly e caller console.old console.new
        (R.remaining reader.old) (R.remaining reader.new) (R.calls reader.old) (R.calls reader.new) (W.contents writer.old) (W.contents writer.new)) }

    // How many reads and flushes there are, and when either end fails.
    ensures streams { LeavesStreams result
        (source_state R.remaining R.calls R.failures R.empty_reads R.asked reader.old) (source_state R.remaining R.calls R.failures R.empty_reads R.asked reader.new)
        (sink_state W.contents W.waiting W.failures W.flushes writer.old) (sink_state W.contents W.waiting W.failures W.flushes writer.new) }
{
    serve_in_manner(alloc, console, caller, reader, writer, Manner::Plain)
}

/// The same in a manner of serving.
///
/// In the echoed one each line is written before its answer, behind `> ` and with a line feed: as it was read, but
/// without a carriage return that stands directly before its line feed. Nothing is echoed of a line that is answered by
/// nothing, nor of one that has more than `LONGEST` bytes. The call of a line is made before its echo is written, and where
/// memory was wanting for a line nothing of it is written, its echo neither.
pub fn serve_in_manner<L: Tells, R: Source, W: Sink>(
    alloc: Global,
    console: &mut Console<L>,
    caller: u16,
    reader: &mut R,
    writer: &mut W,
    manner: Manner,
) -> Result<u64, ServeFault>
    ensures ok { IfOk result (λ n. AnswersIn manner caller n console.old console.new
        (R.remaining reader.old) (R.remaining reader.new) (W.contents writer.old) (W.contents writer.new)) }

    // Where memory was wanting nothing was read, or it was wanting for a line for which memory may be taken, and
    // those before it are answered.
    ensures fault { IfErr result (λ e. EndsEarlyIn manner e caller console.old console.new
        (R.remaining reader.old) (R.remaining reader.new) (R.calls reader.old) (R.calls reader.new) (W.contents writer.old) (W.contents writer.new)) }

    // How many reads and flushes there are, and when either end fails.
    ensures streams { LeavesStreams result
        (source_state R.remaining R.calls R.failures R.empty_reads R.asked reader.old) (source_state R.remaining R.calls R.failures R.empty_reads R.asked reader.new)
        (sink_state W.contents W.waiting W.failures W.flushes writer.old) (sink_state W.contents W.waiting W.failures W.flushes writer.new) }
{
    let Ok(mut work) = Work::new(alloc) else {
        return Err(give_up(writer));
    };
    let Ok(mut chunk) = vec![in alloc; 0u8; CHUNK] else {
        return Err(give_up(writer));
    };
    let served = serve_reads(
        alloc, console, caller, reader, writer, &mut work, manner, &mut chunk,
    );
    finish(writer, served)
}
