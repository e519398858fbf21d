//! Guests that go through their traces by turns, as a run lets them. The workers are made as `esx_work` makes them, which
//! keeps that to itself.

use crate::digest::Digest;
use crate::draws::Draws;
use crate::job::Job;
use crate::line_text::LineText;
use crate::play::Played;
use crate::scenarios::{Layout, put_scenario, read_scenario};
use anyhow::{Result, bail};
use esx_console::Console;
use esx_opening::open_site;
use esx_scenario::{Guest, Scenario};
use esx_text::print_session;
use esx_workers::{GuestWorker, Machine, PolicyWorker, SharerWorker, Step, SwapperWorker, Worker};
use rand_core::SeedableRng;
use rand_pcg::Pcg64;
use std::alloc::{AllocError, Global};

/// The most lines of the traces of a scenario, all together.
const RUN_LINES: u32 = 524288;

/// Reads a drawn scenario: the job's machines, with traces of so many lines.
fn drawn_scenario(
    alloc: Global,
    draws: &mut Draws,
    text: &mut LineText,
    lines: u32,
) -> Result<Scenario> {
    let layout = Layout {
        job: Job::Traces,
        site: Job::Traces.site(),
        machines: Job::Traces.guests().count,
        lines,
        turns: lines.saturating_mul(4).max(1),
        seed: draws.word() >> 1,
    };
    text.clear();
    put_scenario(layout, draws, text)?;
    read_scenario(alloc, text)
}

/// The generator of the worker at a place.
fn generator(scenario: &Scenario, place: usize) -> Pcg64 {
    Pcg64::seed_from_u64(scenario.settings().seed.wrapping_add(place as u64))
}

/// What workers may draw.
fn machines_of(alloc: Global, guests: &[Guest]) -> Result<Vec<Machine>, AllocError> {
    let mut machines = Vec::new(alloc);
    for guest in guests {
        let pages = guest.spec.max;
        if 0 < pages {
            machines.push(Machine {
                vm: guest.vm,
                pages,
            })?;
        }
    }
    Ok(machines)
}

/// The workers of a run: a guest for each machine, then a sharer, a swapper and a policy.
fn workers_of<'a>(
    alloc: Global,
    scenario: &'a Scenario,
    machines: &'a [Machine],
) -> Result<Vec<Worker<'a>>, AllocError> {
    let mut workers = Vec::new(alloc);
    let guests = scenario.guests();
    for (place, guest) in guests.iter().enumerate() {
        workers.push(Worker::Guest(GuestWorker {
            vm: guest.vm,
            trace: guest.trace.as_slice(),
            next: 0,
            step: Step::Send,
            rng: generator(scenario, place),
        }))?;
    }
    let count = guests.len();
    workers.push(Worker::Sharer(SharerWorker {
        machines,
        rng: generator(scenario, count),
    }))?;
    workers.push(Worker::Swapper(SwapperWorker {
        machines,
        rng: generator(scenario, count.wrapping_add(1)),
    }))?;
    workers.push(Worker::Policy(PolicyWorker {
        machines,
        sample: scenario.settings().sample,
        length: scenario.settings().length,
        next: machines.len(),
        rng: generator(scenario, count.wrapping_add(2)),
    }))?;
    Ok(workers)
}

/// Each worker makes one call, as the caller of its place. Was one of them a guest?
fn go_round(
    alloc: Global,
    console: &mut Console,
    workers: &mut [Worker],
) -> Result<bool, AllocError> {
    let mut goes_on = false;
    let mut caller = 0u16;
    for worker in workers {
        if let Some(call) = worker.ask(alloc)? {
            goes_on |= matches!(worker, Worker::Guest(_));
            let reply = console.call(caller, call)?;
            worker.hear(&reply);
        }
        caller = caller.saturating_add(1);
    }
    Ok(goes_on)
}

/// Opens the site of a scenario, and lets its workers call by turns until the traces are done or the turns are over.
fn played(alloc: Global, scenario: &Scenario) -> Result<Console> {
    let Ok(mut console) = open_site(alloc, scenario) else {
        bail!("the site is not opened");
    };
    let machines = machines_of(alloc, scenario.guests())?;
    let mut workers = workers_of(alloc, scenario, machines.as_slice())?;
    for _ in 0..scenario.settings().turns {
        if !go_round(alloc, &mut console, workers.as_mut_slice())? {
            break;
        }
    }
    Ok(console)
}

/// Plays the job of traces.
pub fn play_traces(alloc: Global, seed: u32, turns: u32) -> Result<Played> {
    let mut draws = Draws::new(seed);
    let mut digest = Digest::new();
    let mut text = LineText::new(alloc);
    let mut lines = 0u64;
    let runs = turns.div_ceil(RUN_LINES);
    for _ in 0..runs {
        let scenario = drawn_scenario(alloc, &mut draws, &mut text, turns / runs / 8)?;
        let console = played(alloc, &scenario)?;
        let session = print_session(alloc, &console)?;
        lines = lines.wrapping_add(console.log().len() as u64);
        digest.add(session.as_str().as_bytes());
        // As the program does that ends with its run.
        std::mem::forget(console);
    }
    Ok(Played {
        lines,
        bytes: digest.bytes,
        digest: digest.hash,
    })
}
