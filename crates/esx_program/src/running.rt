//! The run of a scenario, and what is told of it.

ghost use Rattle.std.specs.Prelude.{◌≡◌, ◌≤◌, ◌+◌, [], ℕ, List, Option, Result, IfOk, IfErr, OnOk, MatchOption, flat_map, is_some};
ghost use Rattle.std.specs.Io.KnownBytes.{Appends};
ghost use Rattle.esx_types.specs.declared.ends.SinkFailed.{SinkFailed};
ghost use Rattle.esx_events.specs.declared.event.Refusal.{Refusal};
ghost use Rattle.esx_opening.specs.Orders.{in_order};
ghost use Rattle.esx_opening.specs.declared.opening.SiteFault.TheVariants as faults;
ghost use Rattle.esx_workers.specs.declared.end.End.{End};
ghost use Rattle.esx_writing.specs.Writing.{Writes, WritesFront, sink_faults};
ghost use Rattle.esx_text.specs.States.{sink_state};
ghost use Rattle.esx_program.specs.Ends.{ending_text, endings, workers_named};
ghost use Rattle.esx_program.specs.Runs.{IsNamedTo, IsPlayed, IsRefusedOpening, IsWithMachine, NotPlayed, Plays, RunStops, StopsTelling, told_session, written_as};

use crate::ends::{Ending, endings_of, names_of, write_endings};
use crate::gates::gates_of;
use crate::outgoing::{Outgoing, Waiting};
use crate::progress::Progress;
use esx_console::Console;
use esx_events::Refusal;
use esx_refused::{RefusedOpening, refused_opening};
use esx_scenario::Scenario;
use esx_session::write_session;
use esx_types::{Sink, SinkFailed};
use esx_work::{End, Outcome, SiteFault, run_site};
use esx_writing::AnswerBuffer;
use std::alloc::{AllocError, Global};
use std::marker::Brand;
use std::sync::Wait;
use std::sync::ledger::{Blank, Ledger};
use std::thread::Threads;
use thiserror::Error;

/// Why the session of a run was not told: a call of its opening was refused, the first one that was, and at a terminal
/// also which machine's call it was; writing it failed; or memory ran out.
#[derive(Debug, Drop, Error, PartialEq, Eq)]
pub enum RunFault {
    #[error("no {} {}", .0.number(), .0.name())]
    Refused(Refusal),
    #[error("no {} {}{}", .0.number(), .0.name(), .1)]
    RefusedAt(Refusal, RefusedOpening),
    #[error("write fault")]
    Write,
    #[error("no memory")]
    OutOfMemory,
}

impl RunFault {
    ghost use Rattle.esx_program.specs.Runs.{IsWithMachine, NotPlayed};

    /// An opening that was refused, with its machine; any other fault as it is.
    fn with_machine(self, scenario: &Scenario) -> RunFault
        requires { NotPlayed self scenario.now }
        ensures { IsWithMachine scenario.now self result }
    {
        let RunFault::Refused(refusal) = self else {
            return self;
        };
        match refused_opening(&scenario.config(), scenario.guests()) {
            Some(machine) => RunFault::RefusedAt(refusal, machine),
            None => unreachable!(),
        }
    }
}

impl From<AllocError> for RunFault {
    ghost use Rattle.std.specs.Prelude.{◌≡◌};
    ghost use Rattle.esx_program.specs.declared.running.RunFault.TheVariants.{OutOfMemory};

    ghost from_gives = { λ _ e. e ≡ OutOfMemory };

    fn from(_error: AllocError) -> RunFault {
        RunFault::OutOfMemory
    }
}

impl From<SiteFault> for RunFault {
    ghost use Rattle.std.specs.Prelude.{◌≡◌};
    ghost use Rattle.esx_program.specs.Runs.{fault_of};

    ghost from_gives = { λ fault e. e ≡ fault_of fault };

    fn from(fault: SiteFault) -> RunFault {
        match fault {
            SiteFault::Refused { refusal } => RunFault::Refused(refusal),
            SiteFault::OutOfMemory => RunFault::OutOfMemory,
        }
    }
}

/// What a failed write of the session is to a run.
fn write_fault(ended: Result<(), SinkFailed>) -> Result<(), RunFault>
    ensures { result ≡ written_as ended }
{
    match ended {
        Ok(()) => Ok(()),
        Err(SinkFailed) => Err(RunFault::Write),
    }
}

/// Runs the workers of a scenario behind gates that are always open. How far they are is told to `to`.
fn play<R: Threads + Wait + Sync, P: Print + Sync>(
    rt: &R,
    alloc: Global,
    scenario: &Scenario,
    to: Option<&P>,
) -> Result<(Console, Vec<End>), SiteFault>
    ensures ok { IfOk result (λ r. IsPlayed scenario.now r.0 r.1.items) }
    ensures refused { IfErr result (λ fault. (e : Refusal) → fault ≡ faults.Refused e → IsRefusedOpening scenario.now e) }
{
    let count = scenario.guests().len() + 3;
    let most = u64::from(scenario.settings().turns).saturating_mul(count as u64);
    let progress = Progress::new(to, Some(most), "turns");
    let Ok(gates) = gates_of(alloc, &progress, count) else {
        return Err(SiteFault::OutOfMemory);
    };
    let Outcome { console, ends, .. } = run_site(rt, alloc, scenario, gates)?;
    progress.end();
    let _ = console.log();
    Ok((console, ends))
}

/// What a run leaves, and the room to tell it.
#[derive(Drop)]
struct Played {
    console: Console,
    endings: Vec<Ending>,
    for_ends: AnswerBuffer,
    for_session: AnswerBuffer,
    waiting: Waiting,
}

/// Takes the room to tell of a run, and then runs a scenario.
fn play_with_room<R: Threads + Wait + Sync, P: Print + Sync>(
    rt: &R,
    alloc: Global,
    scenario: &Scenario,
    to: Option<&P>,
) -> Result<Played, RunFault>
    ensures ok { IfOk result (λ m. (ends : List End) × IsPlayed scenario.now m.console ends
        × (m.endings.items ≡ endings (workers_named (in_order scenario.now.guests)) ends)) }
    ensures room { IfOk result (λ m. (m.for_ends ≡ []) × (m.for_session ≡ []) × (m.waiting ≡ [])) }
    ensures fault { IfErr result (λ e. NotPlayed e scenario.now) }
{
    let for_ends = AnswerBuffer::new(alloc)?;
    let for_session = AnswerBuffer::new(alloc)?;
    let waiting = Waiting::new(alloc)?;
    let names = names_of(alloc, scenario.guests())?;
    let (console, ends) = play(rt, alloc, scenario, to)?;
    let endings = endings_of(alloc, &names, &ends)?;
    Ok(Played {
        console,
        endings,
        for_ends,
        for_session,
        waiting,
    })
}

/// Writes the session of a console, and hands on what waits.
fn tell_session<W: Sink>(
    console: &Console,
    held: &mut AnswerBuffer,
    writer: &mut W,
) -> Result<(), SinkFailed>
    requires { held.old ≡ [] }
    ensures bytes { Writes (W.contents writer.old) (W.contents writer.new) (told_session console.now) result }
    ensures failures { W.failures writer.new ≡ W.failures writer.old + sink_faults result }
    ensures flushes { W.flushes writer.new + sink_faults result ≡ W.flushes writer.old + 1 }
    ensures sent { OnOk result (W.waiting writer.new ≡ []) }
{
    write_session(writer, held, &console.site(), console.log())?;
    writer.flush()
}

/// The same, where the text waits until there is much of it.
pub fn session_buffered<W: Sink + Drop, L: Ledger>(
    console: &Console,
    held: &mut AnswerBuffer,
    waiting: Waiting,
    writer: W,
    blank: Blank,
) -> (Result<(), SinkFailed>, W)
    requires empty { (held.old ≡ []) × (waiting ≡ []) }
    requires name { blank.name ≡ L.name }
    requires parts { blank.parts ≡ L.parts }
    requires four { 4 ≤ blank.parts }
    ensures ok { OnOk result.0 (Appends (W.contents writer) (W.contents result.1) (told_session console.now)) }
    ensures fault { IfErr result.0 (λ e. (taken : Option (List ℕ)) × WritesFront (W.contents writer) taken (told_session console.now)
        × (rest : List ℕ) × Appends (W.contents result.1) taken rest) }
    ensures failures { W.failures result.1 ≡ W.failures writer + sink_faults result.0 }
    ensures flushes { W.flushes result.1 + sink_faults result.0 ≡ W.flushes writer + 1 }
    ensures sent { OnOk result.0 (W.waiting result.1 ≡ []) }
{
    let mut outgoing = Outgoing::<W, L>::new(writer, waiting, blank);
    let told = tell_session(console, held, &mut outgoing);
    (told, outgoing.into_sink())
}

/// Writes how the workers ended, and hands it on.
fn tell_endings<W: Sink>(
    sink: &mut W,
    held: &mut AnswerBuffer,
    endings: &[Ending],
) -> Result<(), SinkFailed>
    requires { held.old ≡ [] }
    ensures bytes { Writes (W.contents sink.old) (W.contents sink.new) (flat_map ending_text endings.now) result }
    ensures failures { W.failures sink.new ≡ W.failures sink.old + sink_faults result }
    ensures flushes { W.flushes sink.new + sink_faults result ≡ W.flushes sink.old + 1 }
    ensures sent { OnOk result (W.waiting sink.new ≡ []) }
{
    write_endings(sink, held, endings)?;
    sink.flush()
}

/// How a run ended, and the two sinks as they are then.
#[derive(Drop)]
pub struct Ran<E: Drop, W: Drop> {
    pub ended: Result<(), RunFault>,
    pub errors: E,
    pub writer: W,
}

/// Tells how the workers ended to `errors`, also where the session cannot be written.
fn tell<E: Sink + Drop, W: Sink + Drop>(made: Played, mut errors: E, writer: W) -> Ran<E, W>
    requires { (made.for_ends ≡ []) × (made.for_session ≡ []) × (made.waiting ≡ []) }
    ensures told { (told : Result (Unit {0}) SinkFailed)
        × Writes (E.contents errors) (E.contents result.errors) (flat_map ending_text made.endings.items) told
        × (E.failures result.errors ≡ E.failures errors + sink_faults told)
        × (E.flushes result.errors + sink_faults told ≡ E.flushes errors + 1) × OnOk told (E.waiting result.errors ≡ []) }
    ensures ok { OnOk result.ended (Appends (W.contents writer) (W.contents result.writer) (told_session made.console)
        × (W.failures result.writer ≡ W.failures writer) × (W.flushes result.writer ≡ W.flushes writer + 1)
        × (W.waiting result.writer ≡ [])) }
    ensures fault { IfErr result.ended (λ e. (e ≡ RunFault.Write)
        × StopsTelling made.console (sink_state W.contents W.waiting W.failures W.flushes writer)
        (sink_state W.contents W.waiting W.failures W.flushes result.writer)) }
{
    let Played {
        console,
        endings,
        mut for_ends,
        mut for_session,
        waiting,
    } = made;
    // What cannot be told is left out.
    let _ = tell_endings(&mut errors, &mut for_ends, &endings);
    let (printed, writer) = session_buffered::<_, Brand>(
        &console,
        &mut for_session,
        waiting,
        writer,
        Blank::new(4),
    );
    Ran {
        ended: write_fault(printed),
        errors,
        writer,
    }
}

/// A fault as it is told: to `to`, where there is one, with its machine.
fn told_fault<P>(fault: RunFault, scenario: &Scenario, to: Option<&P>) -> RunFault
    requires { NotPlayed fault scenario.now }
    ensures { MatchOption to.entry (result ≡ fault) (λ _. IsWithMachine scenario.now fault result) }
{
    match to {
        Some(_) => fault.with_machine(scenario),
        None => fault,
    }
}

/// Runs a scenario. Tells the ends of its workers to `errors`, a line each: the guests in the order of their
/// machines' numbers, then the sharer, the swapper and the policy. Writes the session that they made to `writer`.
///
/// How far the workers are is told to `to`, where there is one; then an opening that was refused is told with its machine.
pub fn run_to<R: Threads + Wait + Sync, P: Print + Sync, E: Sink + Drop, W: Sink + Drop>(
    rt: &R,
    alloc: Global,
    scenario: &Scenario,
    to: Option<&P>,
    errors: E,
    writer: W,
) -> Ran<E, W>
    ensures ok { OnOk result.ended (Plays scenario.now
        (sink_state E.contents E.waiting E.failures E.flushes errors) (sink_state E.contents E.waiting E.failures E.flushes result.errors)
        (sink_state W.contents W.waiting W.failures W.flushes writer) (sink_state W.contents W.waiting W.failures W.flushes result.writer)) }
    ensures fault { IfErr result.ended (λ e. RunStops e scenario.now
        (sink_state E.contents E.waiting E.failures E.flushes errors) (sink_state E.contents E.waiting E.failures E.flushes result.errors)
        (sink_state W.contents W.waiting W.failures W.flushes writer) (sink_state W.contents W.waiting W.failures W.flushes result.writer)) }
    ensures machine { IfErr result.ended (λ e. IsNamedTo (is_some to.entry) e) }
{
    match play_with_room(rt, alloc, scenario, to) {
        Ok(made) => tell(made, errors, writer),
        Err(fault) => Ran {
            ended: Err(told_fault(fault, scenario, to)),
            errors,
            writer,
        },
    }
}
