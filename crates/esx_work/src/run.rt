//! Workers over one desk, each in a thread of its own where one can be made.

ghost use Rattle.std.specs.Prelude.{◌≡◌, ◌<◌, ◌≤◌, [], ℕ, Some, Ok, Err, IfOk, IfErr, map, length, slice_get, vec_capacity};
ghost use Rattle.esx_work.specs.Runs.{CanRun, Ran, AreReturned, Knows};

use crate::door::DeskDoor;
use esx_console::Console;
use esx_desk::{Desk, Pass};
use esx_door::Gate;
use esx_workers::{End, Worker, run};
use std::alloc::{AllocError, Global};
use std::snapshot::Snapshot;
use std::sync::Wait;

/// A worker's work: its pass, its gate, the worker, and the most turns that it has.
#[derive(Drop)]
pub struct Task<'a, G> {
    pub pass: Pass,
    pub gate: G,
    pub worker: Worker<'a>,
    pub turns: u32,
}

/// What a thread gives back: its worker's pass, the gate as it was left, and how the worker ended.
#[derive(Drop)]
pub struct Finished<G> {
    pub pass: Pass,
    pub gate: G,
    pub ended: Result<End, AllocError>,
}

/// What threads gave back, part by part, each in their order.
#[derive(Drop)]
pub struct Parts<G> {
    pub passes: Vec<Pass>,
    pub ends: Vec<End>,
    pub gates: Vec<G>,
}

/// The worker of a pass, behind its gate.
pub fn run_one<R: Wait, G: Gate + Drop>(
    rt: &R,
    alloc: Global,
    desk: &Desk,
    task: Task<G>,
) -> Finished<G>
    requires { CanRun desk.now task.pass }
    ensures { Ran G.is_open G.passes task.entry.gate desk.now task.entry.pass task.entry.worker task.entry.turns result }
{
    let Task {
        pass,
        mut gate,
        worker,
        turns,
    } = task;
    let caller = pass.caller();
    let mut door = DeskDoor {
        rt,
        desk,
        pass,
        caller,
    };
    let ended = run(&mut door, &mut gate, alloc, worker, turns);
    Finished {
        pass: door.pass,
        gate,
        ended,
    }
}

/// Room for the parts of so many.
pub fn room_for<G: Drop>(alloc: Global, count: usize) -> Result<Parts<G>, AllocError>
    ensures empty { IfOk result (λ parts. (parts.passes.items ≡ []) × (parts.ends.items ≡ []) × (parts.gates.items ≡ [])) }
    ensures room { IfOk result (λ parts. (count ≤ vec_capacity parts.passes) × (count ≤ vec_capacity parts.ends) × (count ≤ vec_capacity parts.gates)) }
{
    Ok(Parts {
        passes: Vec::with_capacity(alloc, count)?,
        ends: Vec::with_capacity(alloc, count)?,
        gates: Vec::with_capacity(alloc, count)?,
    })
}

/// The parts of what threads gave back, in room that was taken. An error where a worker found no memory.
pub fn parted<G: Drop>(finished: Vec<Finished<G>>, room: Parts<G>) -> Result<Parts<G>, AllocError>
    requires empty { (room.passes.items ≡ []) × (room.ends.items ≡ []) × (room.gates.items ≡ []) }
    requires room { (length finished.items ≤ vec_capacity room.passes) × (length finished.items ≤ vec_capacity room.ends) × (length finished.items ≤ vec_capacity room.gates) }
    ensures passes { IfOk result (λ parts. parts.passes.items ≡ map (λ f. f.pass) finished.items) }
    ensures ends { IfOk result (λ parts. map Ok parts.ends.items ≡ map (λ f. f.ended) finished.items) }
    ensures gates { IfOk result (λ parts. parts.gates.items ≡ map (λ f. f.gate) finished.items) }
    ensures err { IfErr result (λ e. (i : ℕ) × (f : _) × (slice_get finished.items i ≡ Some f) × (f.ended ≡ Err e)) }
{
    let Parts {
        mut passes,
        mut ends,
        mut gates,
    } = room;
    for one in finished {
        let Finished { pass, gate, ended } = one;
        ends.push(ended?).unwrap();
        passes.push(pass).unwrap();
        gates.push(gate).unwrap();
    }
    Ok(Parts {
        passes,
        ends,
        gates,
    })
}

/// A task for each pass, with the gate and the worker at its place.
pub fn tasks_of<'a, G: Drop>(
    alloc: Global,
    mut passes: Vec<Pass>,
    mut gates: Vec<G>,
    mut workers: Vec<Worker<'a>>,
    turns: u32,
) -> Result<Vec<Task<'a, G>>, AllocError>
    requires passes { length passes.items ≡ length workers.items }
    requires gates { length gates.items ≡ length workers.items }
    ensures len { IfOk result (λ tasks. length tasks.items ≡ length workers.entry.items) }
    ensures each { IfOk result (λ tasks. (i : ℕ) (t : _) → slice_get tasks.items i ≡ Some t → (slice_get passes.items i ≡ Some t.pass) × (slice_get gates.items i ≡ Some t.gate) × (slice_get workers.entry.items i ≡ Some t.worker) × (t.turns ≡ turns)) }
{
    let count = workers.len();
    let mut tasks = Vec::with_capacity(alloc, count)?;
    for _ in 0..count {
        tasks.push(Task {
            pass: passes.remove(0),
            gate: gates.remove(0),
            worker: workers.remove(0),
            turns,
        })?;
    }
    Ok(tasks)
}

/// The passes of all workers, met one by one.
pub fn meet_all(desk: &Desk, opened: &Snapshot<Console>, mut passes: Vec<Pass>) -> Pass
    requires some { (0 < length passes.items) × (length passes.items ≡ desk.now.callers) }
    requires returned { AreReturned desk.now opened.now.value passes.items }
    ensures { Knows desk.now opened.now.value passes.items 0 result }
{
    let _ = opened;
    let Some(last) = passes.pop() else {
        unreachable!()
    };
    let mut met = last;
    while let Some(next) = passes.pop() {
        met = desk.meet(met, next);
    }
    met
}
