//! A recording, served through the same buffer as the console.

ghost use Rattle.std.specs.Prelude.{◌≡◌, ◌≤◌, [], true, Ok, Err, IfOk, IfErr};
ghost use Rattle.esx_types.specs.Ranges.{IsConfig};
ghost use Rattle.esx_console.specs.Calls.{opened_session};
ghost use Rattle.esx_model.specs.Console.{Session};
ghost use Rattle.esx_text.specs.Answers.{Answers, EndsEarly};
ghost use Rattle.esx_text.specs.States.{LeavesStreams, sink_state, source_state};
ghost use Rattle.esx_recording.specs.Recording.{EndsMaking, Makes, RecordStops, Records};

use crate::behind::{Behind, Telling};
use crate::outgoing::{Outgoing, Waiting};
use crate::site::serve_told;
use esx_recording::{Before, Made, Questions, Recorded, open_with_room, tell};
use esx_text::{Manner, ServeFault, give_up};
use esx_types::{Config, Sink, Source};
use std::alloc::Global;
use std::marker::Brand;
use std::mem;
use std::sync::ledger::{Blank, Ledger};

/// Opens a site and serves the commands that are read, as caller 0.
fn make<R: Source, W: Sink>(
    alloc: Global,
    site: Config,
    reader: &mut R,
    answers: &mut W,
) -> Result<Made, ServeFault>
    ensures ok { IfOk result (λ made. Answers 0 made.lines (opened_session site) made.console
        (R.remaining reader.old) (R.remaining reader.new) (W.contents answers.old) (W.contents answers.new)) }
    ensures ok_streams { IfOk result (λ made. LeavesStreams (Ok made.lines)
        (source_state R.remaining R.calls R.failures R.empty_reads R.asked reader.old) (source_state R.remaining R.calls R.failures R.empty_reads R.asked reader.new)
        (sink_state W.contents W.waiting W.failures W.flushes answers.old) (sink_state W.contents W.waiting W.failures W.flushes answers.new)) }
    ensures empty { IfOk result (λ made. made.held ≡ []) }
    ensures fault { IfErr result (λ e. (after : Session) × EndsEarly e 0 (opened_session site) after
        (R.remaining reader.old) (R.remaining reader.new) (R.calls reader.old) (R.calls reader.new) (W.contents answers.old) (W.contents answers.new)) }
    ensures fault_streams { IfErr result (λ e. LeavesStreams (Err e)
        (source_state R.remaining R.calls R.failures R.empty_reads R.asked reader.old) (source_state R.remaining R.calls R.failures R.empty_reads R.asked reader.new)
        (sink_state W.contents W.waiting W.failures W.flushes answers.old) (sink_state W.contents W.waiting W.failures W.flushes answers.new)) }
{
    let Ok((mut console, held)) = open_with_room(alloc, site) else {
        return Err(give_up(answers));
    };
    match serve_told(alloc, &mut console, reader, answers, Manner::Plain) {
        Ok(lines) => Ok(Made {
            console,
            lines,
            held,
        }),
        Err(fault) => {
            // The program ends with its site, and the system takes the memory back as a whole.
            mem::forget(console);
            Err(fault)
        }
    }
}

/// Opens a site and serves the commands that are read, as caller 0, and of the answers tells only the lines that begin with a
/// question mark. They wait until more input is asked for; without memory for what waits nothing is read. `W` is what a
/// console writes to.
fn make_quietly<
    R: Source,
    E: Sink + Drop,
    W: Sink + Drop,
    B: Before,
    K: Ledger,
    T: Telling,
    L: Ledger,
>(
    alloc: Global,
    site: Config,
    reader: &mut R,
    errors: E,
    calls: Blank,
    blank: Blank,
) -> (Result<Made, ServeFault>, E)
    requires before { B.taken ≡ E.contents errors }
    requires name_calls { calls.name ≡ K.name }
    requires parts_calls { calls.parts ≡ K.parts }
    requires four_calls { 4 ≤ calls.parts }
    requires questions { T.questions ≡ true }
    requires name { blank.name ≡ L.name }
    requires parts { blank.parts ≡ L.parts }
    requires four { 4 ≤ blank.parts }
    ensures ok { IfOk result.0 (λ made. Makes site made.lines made.console
        (source_state R.remaining R.calls R.failures R.empty_reads R.asked reader.old) (source_state R.remaining R.calls R.failures R.empty_reads R.asked reader.new)
        (sink_state E.contents E.waiting E.failures E.flushes errors) (sink_state E.contents E.waiting E.failures E.flushes result.1)) }
    ensures empty { IfOk result.0 (λ made. made.held ≡ []) }
    ensures fault { IfErr result.0 (λ e. EndsMaking e site
        (source_state R.remaining R.calls R.failures R.empty_reads R.asked reader.old) (source_state R.remaining R.calls R.failures R.empty_reads R.asked reader.new)
        (sink_state E.contents E.waiting E.failures E.flushes errors) (sink_state E.contents E.waiting E.failures E.flushes result.1)) }
{
    let mut questions = Questions::<E, B, K>::new(errors, calls);
    let Ok(waiting) = Waiting::new(alloc) else {
        let fault = give_up(&mut questions);
        return (Err(fault), questions.into_sink());
    };
    let behind = Behind::<W, Questions<E, B, K>, T>::questions(questions);
    let mut outgoing = Outgoing::<_, L>::new(behind, waiting, blank);
    let made = make(alloc, site, reader, &mut outgoing);
    let questions = outgoing.into_sink().into_questions();
    (made, questions.into_sink())
}

/// Makes the commands that are read, and at the end of the input writes their session to `writer`. The lines of the answers
/// that begin with a question mark go to `errors` before each read.
///
/// Where the reader or `errors` is at fault, or memory runs out, nothing is written to `writer`.
pub fn record<R: Source, E: Sink + Drop, W: Sink + Drop>(
    alloc: Global,
    site: Config,
    reader: &mut R,
    errors: E,
    writer: &mut W,
) -> Recorded<E>
    requires { IsConfig site }
    ensures ok { IfOk result.ended (λ count. Records site count
        (source_state R.remaining R.calls R.failures R.empty_reads R.asked reader.old) (source_state R.remaining R.calls R.failures R.empty_reads R.asked reader.new)
        (sink_state E.contents E.waiting E.failures E.flushes errors) (sink_state E.contents E.waiting E.failures E.flushes result.errors)
        (sink_state W.contents W.waiting W.failures W.flushes writer.old) (sink_state W.contents W.waiting W.failures W.flushes writer.new)) }
    ensures fault { IfErr result.ended (λ e. RecordStops e site
        (source_state R.remaining R.calls R.failures R.empty_reads R.asked reader.old) (source_state R.remaining R.calls R.failures R.empty_reads R.asked reader.new)
        (sink_state E.contents E.waiting E.failures E.flushes errors) (sink_state E.contents E.waiting E.failures E.flushes result.errors)
        (sink_state W.contents W.waiting W.failures W.flushes writer.old) (sink_state W.contents W.waiting W.failures W.flushes writer.new)) }
{
    let (made, errors) = make_quietly::<_, _, W, Brand, Brand, Brand, Brand>(
        alloc,
        site,
        reader,
        errors,
        Blank::new(4),
        Blank::new(4),
    );
    match made {
        Ok(made) => Recorded {
            ended: tell(made, writer),
            errors,
        },
        Err(fault) => Recorded {
            ended: Err(fault),
            errors,
        },
    }
}
