//! A worker in a thread for each pass of a desk.

ghost use Rattle.std.specs.Prelude.{◌≡◌, ◌<◌, ◌≤◌, ℕ, Some, IfOk, All, length, slice_get};
ghost use Rattle.esx_types.specs.declared.config.TheConstants.{CALLERS};
ghost use Rattle.esx_model.specs.Console.{IsLegal};
ghost use Rattle.esx_workers.specs.Runs.{IsRun, IsGated};
ghost use Rattle.esx_work.specs.Runs.{CanRun, Ran, RunsOn};

use crate::run::{Finished, Parts, Task, meet_all, parted, room_for, run_one, tasks_of};
use esx_console::Console;
use esx_desk::Desk;
use esx_door::Gate;
use esx_workers::{End, Worker};
use std::alloc::{AllocError, Global};
use std::snapshot::Snapshot;
use std::sync::Wait;
use std::thread;
use std::thread::Threads;

/// What a run leaves: the console, and how each worker ended and its gate, in their order.
#[derive(Drop)]
pub struct Outcome<G> {
    pub console: Console,
    pub ends: Vec<End>,
    pub gates: Vec<G>,
}

/// All workers, each in a thread of its own. Those for which no thread can be made run one after another.
pub fn run_all<'a, R: Threads + Wait + Sync, G: Gate + Send + Drop>(
    rt: &R,
    alloc: Global,
    desk: &Desk,
    tasks: Vec<Task<'a, G>>,
) -> Result<Vec<Finished<G>>, AllocError>
    requires { All (λ t. CanRun desk.now t.pass) tasks.items }
    ensures len { IfOk result (λ all. length all.items ≡ length tasks.entry.items) }
    ensures each { IfOk result (λ all. (i : ℕ) (t : _) (f : _) → slice_get tasks.entry.items i ≡ Some t → slice_get all.items i ≡ Some f → Ran G.is_open G.passes t.gate desk.now t.pass t.worker t.turns f) }
{
    let work = |task: Task<G>| -> Finished<G>
        requires { CanRun desk.now task.pass }
        ensures { Ran G.is_open G.passes task.entry.gate desk.entry.now task.entry.pass task.entry.worker task.entry.turns result }
    { run_one(rt, alloc, desk, task) };
    thread::map_vec(rt, tasks, &work)
}

/// Runs a worker as each caller of a desk over an opened console, with the gate at its place, and closes the desk.
/// The log goes on with the lines of these workers' runs, and no other line. The gates come back as they were left.
pub fn run_workers<'a, R: Threads + Wait + Sync, G: Gate + Send + Drop>(
    rt: &R,
    alloc: Global,
    console: Console,
    workers: Vec<Worker<'a>>,
    gates: Vec<G>,
    turns: u32,
) -> Result<Outcome<G>, AllocError>
    requires callers { (0 < length workers.items) × (length workers.items ≤ CALLERS) }
    requires gates { length gates.items ≡ length workers.items }
    ensures ends { IfOk result (λ r. length r.ends.items ≡ length workers.entry.items) }
    ensures many { IfOk result (λ r. length r.gates.items ≡ length workers.entry.items) }
    ensures legal { IfOk result (λ r. IsLegal r.console) }
    ensures runs { IfOk result (λ r. RunsOn console (length workers.entry.items) (λ k e lines. (w : _) (gate : _) → slice_get workers.entry.items k ≡ Some w → slice_get gates.items k ≡ Some gate → IsRun (G.is_open gate) k w turns e lines) r.ends.items r.console) }
    ensures gates { IfOk result (λ r. RunsOn console (length workers.entry.items) (λ k e lines. (w : _) (before after : _) → slice_get workers.entry.items k ≡ Some w → slice_get gates.items k ≡ Some before → slice_get r.gates.items k ≡ Some after → IsGated G.passes before after w turns e lines) r.ends.items r.console) }
{
    let opened = Snapshot::of(&console);
    let count = workers.len();
    let (desk, passes) = Desk::over(alloc, console, count)?;
    let tasks = tasks_of(alloc, passes, gates, workers, turns)?;
    let room = room_for(alloc, count)?;
    let finished = run_all(rt, alloc, &desk, tasks)?;
    let Parts {
        passes,
        ends,
        gates,
    } = parted(finished, room)?;
    let pass = meet_all(&desk, &opened, passes);
    let console = desk.close(pass);
    let _ = console.log();
    Ok(Outcome {
        console,
        ends,
        gates,
    })
}
