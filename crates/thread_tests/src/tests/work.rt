// Workers on a console, and the run of a scenario.

use super::done;
use esx_console::Console;
use esx_door::{Gate, Open};
use esx_events::{Call, Event, Line};
use esx_scenario::{Scenario, parse_scenario};
use esx_types::{Config, VmId, VmSpec};
use esx_work::{ConsoleDoor, Outcome, run_site};
use esx_workers::{End, How, Machine, policy, sharer, swapper};
use rand_core::SeedableRng;
use rand_pcg::Pcg64;
use std::alloc::{AllocError, Global};
use std::process::Abort;
use std::sync::Wait;
use std::sync::atomic::{AtomicU64, Ordering};
use std::test::Fail;
use std::thread::Threads;

fn site() -> Config {
    Config {
        frames: 20,
        page: 16,
        slots: 8,
        tau: 75,
        high: 6,
        soft: 4,
        hard: 2,
        low: 1,
        nodes: 100,
    }
}

fn machine() -> Machine {
    Machine {
        vm: VmId::new(0),
        pages: 6,
    }
}

fn make(console: &mut Console, event: Event) -> Result<(), Fail> {
    console.call(0, Call::Do { event })?;
    Ok(())
}

// Lets in one virtual machine, which then runs.
fn start(console: &mut Console) -> Result<(), Fail> {
    let vm = machine().vm;
    let spec = VmSpec {
        min: 2,
        max: 6,
        overhead: 1,
        shares: 1000,
        balloon_max: 0,
        tau: None,
    };
    make(console, Event::Admit { vm, spec })?;
    make(console, Event::Start { vm })
}

// A console, and the number that calls are made under.
fn door(alloc: Global) -> Result<ConsoleDoor, Fail> {
    match Console::open(alloc, site()) {
        Ok(console) => Ok(ConsoleDoor { console, caller: 7 }),
        Err(_) => Err(Fail::new("the opening")),
    }
}

fn is_scan(line: &Line) -> bool {
    matches!(
        line.call,
        Call::Do {
            event: Event::Scan { .. }
        }
    )
}

fn is_swap_out(line: &Line) -> bool {
    matches!(
        line.call,
        Call::Do {
            event: Event::SwapOut { .. }
        }
    )
}

fn is_policy(line: &Line) -> bool {
    matches!(
        line.call,
        Call::Do {
            event: Event::Rebalance | Event::Sample { .. }
        }
    )
}

fn scans(log: &[Line]) -> usize {
    log.iter().filter(|line| is_scan(line)).count()
}

fn swap_outs(log: &[Line]) -> usize {
    log.iter().filter(|line| is_swap_out(line)).count()
}

fn policies(log: &[Line]) -> usize {
    log.iter().filter(|line| is_policy(line)).count()
}

/// How many lines of its own a worker has, and how many refusals it passed over.
fn expect_own(rt: &impl Abort, own: usize, end: End, lines: usize, passed: u32) {
    assert_eq!(rt; (own, end.passed), (lines, passed));
}

fn share(rt: &impl Abort, alloc: Global, door: &mut ConsoleDoor) -> Result<(), Fail> {
    start(&mut door.console)?;
    let machines = [machine()];
    let rng = Pcg64::seed_from_u64(1);
    let end = sharer(alloc, door, &mut Open, &machines, rng, 5)?;
    expect_own(rt, scans(door.console.log()), end, 5, 5);
    Ok(())
}

#[test]
fn a_sharer_scans_five_times(rt: HostRuntime) -> Result<(), Fail> {
    match door(rt.alloc()) {
        Ok(mut door) => {
            let outcome = share(&rt, rt.alloc(), &mut door);
            done(door);
            outcome
        }
        Err(fail) => Err(fail),
    }
}

fn swap(rt: &impl Abort, alloc: Global, door: &mut ConsoleDoor) -> Result<(), Fail> {
    start(&mut door.console)?;
    let machines = [machine()];
    let rng = Pcg64::seed_from_u64(1);
    let end = swapper(alloc, door, &mut Open, &machines, rng, 5)?;
    expect_own(rt, swap_outs(door.console.log()), end, 5, 5);
    Ok(())
}

#[test]
fn a_swapper_pages_out_five_times(rt: HostRuntime) -> Result<(), Fail> {
    match door(rt.alloc()) {
        Ok(mut door) => {
            let outcome = swap(&rt, rt.alloc(), &mut door);
            done(door);
            outcome
        }
        Err(fail) => Err(fail),
    }
}

fn set_targets(rt: &impl Abort, alloc: Global, door: &mut ConsoleDoor) -> Result<(), Fail> {
    start(&mut door.console)?;
    let machines = [machine()];
    let rng = Pcg64::seed_from_u64(1);
    let end = policy(alloc, door, &mut Open, &machines, 2, 100, rng, 5)?;
    expect_own(rt, policies(door.console.log()), end, 5, 1);
    Ok(())
}

#[test]
fn a_policy_makes_five_calls(rt: HostRuntime) -> Result<(), Fail> {
    match door(rt.alloc()) {
        Ok(mut door) => {
            let outcome = set_targets(&rt, rt.alloc(), &mut door);
            done(door);
            outcome
        }
        Err(fail) => Err(fail),
    }
}

fn scenario_of(alloc: Global, text: &str) -> Result<Scenario, Fail> {
    match parse_scenario(alloc, text) {
        Ok(scenario) => Ok(scenario),
        Err(_) => Err(Fail::new("the scenario")),
    }
}

const GUEST: &str =
    "version = 1\n[machine]\nframes = 20\npage = 16\nslots = 8\n[run]\nturns = 6\n[[vm]]\nid = 0\nmin = 2\nmax = 6\noverhead = 1\nshares = 1000\nballoon = 0\ntrace = [\"read 0 0 1\", \"read 1 0 1\", \"read 2 0 1\", \"read 3 0 1\", \"read 4 0 1\"]\n";

/// What the run of a scenario with these gates leaves.
fn outcome_of<R: Threads + Wait + Sync, G: Gate + Send + Drop>(
    rt: &R,
    alloc: Global,
    scenario: &Scenario,
    gates: Vec<G>,
) -> Result<Outcome<G>, Fail> {
    if gates.len() != scenario.guests().len() + 3 {
        return Err(Fail::new("the gates"));
    }
    match run_site(rt, alloc, scenario, gates) {
        Ok(outcome) => Ok(outcome),
        Err(_) => Err(Fail::new("the run")),
    }
}

/// Gates that let everything through.
fn open_gates(alloc: Global) -> Result<Vec<Open>, Fail> {
    Ok(vec![in alloc; Open, Open, Open, Open]?)
}

fn expect_a_site(rt: &impl Abort, outcome: &Outcome<Open>) {
    assert_eq!(rt; outcome.gates.len(), 4);
    assert_eq!(rt; (outcome.console.log().len(), outcome.ends.len()), (25, 4));
}

fn run_one_guest<R: Threads + Wait + Sync + Abort>(
    rt: &R,
    alloc: Global,
    scenario: &Scenario,
) -> Result<(), Fail> {
    let gates = open_gates(alloc)?;
    match outcome_of(rt, alloc, scenario, gates) {
        Ok(outcome) => {
            expect_a_site(rt, &outcome);
            done(outcome);
            Ok(())
        }
        Err(fail) => Err(fail),
    }
}

#[test]
fn a_site_is_run(rt: HostRuntime) -> Result<(), Fail> {
    let scenario = scenario_of(rt.alloc(), GUEST)?;
    let outcome = run_one_guest(&rt, rt.alloc(), &scenario);
    done(scenario);
    outcome
}

/// How often a gate looks for the other workers before it gives up.
const LOOKS: u64 = 200_000_000;

/// A gate that, at the turns 2 to 5, stays until all workers were entered with the turn.
#[derive(Drop)]
struct Meeting<'a> {
    entered: &'a [AtomicU64],
    own: usize,
    late: &'a AtomicU64,
}

fn all_entered(entered: &[AtomicU64], turn: u64) -> bool {
    for other in entered {
        if other.load(Ordering::SeqCst) < turn {
            return false;
        }
    }
    true
}

impl<'a> Gate for Meeting<'a> {
    fn pass_through(&mut self, turn: u32) -> bool {
        let turn = u64::from(turn);
        if let Some(own) = self.entered.get(self.own) {
            own.store(turn, Ordering::SeqCst);
        }
        if turn < 2 || turn > 5 {
            return true;
        }
        for _look in 0..LOOKS {
            if all_entered(self.entered, turn) {
                return true;
            }
        }
        self.late.fetch_add(1, Ordering::SeqCst);
        false
    }
}

const GUESTS: &str =
    "version = 1\n[machine]\nframes = 20\npage = 16\nslots = 8\n[run]\nturns = 6\n[[vm]]\nid = 0\nmin = 2\nmax = 6\noverhead = 1\nshares = 1000\nballoon = 0\ntrace = [\"read 0 0 1\", \"read 1 0 1\", \"read 2 0 1\", \"read 3 0 1\", \"read 4 0 1\"]\n[[vm]]\nid = 1\nmin = 2\nmax = 6\noverhead = 1\nshares = 1000\nballoon = 0\ntrace = [\"read 0 0 1\", \"read 1 0 1\", \"read 2 0 1\", \"read 3 0 1\", \"read 4 0 1\"]\n";

fn no_turns() -> [AtomicU64; 5] {
    [
        AtomicU64::new(0),
        AtomicU64::new(0),
        AtomicU64::new(0),
        AtomicU64::new(0),
        AtomicU64::new(0),
    ]
}

/// Gates that wait for one another.
fn meetings<'a>(
    alloc: Global,
    entered: &'a [AtomicU64],
    late: &'a AtomicU64,
) -> Result<Vec<Meeting<'a>>, AllocError> {
    let mut gates = Vec::new(alloc);
    for own in 0..5 {
        gates.push(Meeting { entered, own, late })?;
    }
    Ok(gates)
}

fn expect_in_order(rt: &impl Abort, gates: &[Meeting]) {
    for (place, gate) in gates.iter().enumerate() {
        assert_eq!(rt; gate.own, place);
    }
}

fn hows_of(alloc: Global, ends: &[End]) -> Result<Vec<How>, AllocError> {
    let mut hows = Vec::new(alloc);
    for end in ends {
        hows.push(end.how)?;
    }
    Ok(hows)
}

fn expect_hows(rt: &impl Abort, hows: &[How]) {
    assert_eq!(rt;
        hows,
        [How::Done, How::Done, How::Turns, How::Turns, How::Turns].as_slice()
    );
}

fn expect_none_passed(rt: &impl Abort, ends: &[End]) {
    for end in ends.iter().take(2) {
        assert_eq!(rt; end.passed, 0);
    }
}

fn expect_ends(rt: &impl Abort, alloc: Global, ends: &[End]) -> Result<(), Fail> {
    let hows = hows_of(alloc, ends)?;
    expect_hows(rt, hows.as_slice());
    expect_none_passed(rt, ends);
    Ok(())
}

fn expect_five(rt: &impl Abort, outcome: &Outcome<Meeting>, late: &AtomicU64) {
    expect_in_order(rt, outcome.gates.as_slice());
    assert_eq!(rt; late.load(Ordering::SeqCst), 0);
    assert_eq!(rt; outcome.console.log().len(), 32);
}

fn run_two_guests<R: Threads + Wait + Sync + Abort>(
    rt: &R,
    alloc: Global,
    scenario: &Scenario,
) -> Result<(), Fail> {
    let entered = no_turns();
    let late = AtomicU64::new(0);
    let gates = meetings(alloc, &entered, &late)?;
    match outcome_of(rt, alloc, scenario, gates) {
        Ok(outcome) => {
            expect_five(rt, &outcome, &late);
            let ended = expect_ends(rt, alloc, outcome.ends.as_slice());
            done(outcome);
            ended
        }
        Err(fail) => Err(fail),
    }
}

// Where any worker runs before, after or on one thread with another, a gate gives up.
#[test]
fn five_workers_at_once(rt: HostRuntime) -> Result<(), Fail> {
    let scenario = scenario_of(rt.alloc(), GUESTS)?;
    let outcome = run_two_guests(&rt, rt.alloc(), &scenario);
    done(scenario);
    outcome
}
