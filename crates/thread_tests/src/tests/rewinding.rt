// A guest at a desk, and another caller who undoes an event between two of its turns.

ghost use Rattle.std.specs.Prelude.{◌≡◌, IfOk};
ghost use Rattle.esx_desk.specs.Told.{IsOf};

use super::done;
use desk_tests::calls::guest as machine;
use desk_tests::plays::{ENTERED, LOOKED, closed, comes_to, started};
use desk_tests::replays::callers_of;
use esx_console::Console;
use esx_desk::{Desk, Pass};
use esx_door::Gate;
use esx_events::{Call, Line, Refusal, Said, Stand};
use esx_scenario::TraceLine;
use esx_work::DeskDoor;
use esx_workers::{End, How, guest};
use rand_core::SeedableRng;
use rand_pcg::Pcg64;
use std::alloc::{AllocError, Global};
use std::process::Abort;
use std::sync::Wait;
use std::sync::atomic::{AtomicU64, Ordering};
use std::test::Fail;
use std::thread;
use std::thread::Threads;

/// Lets everything through, at the second turn once another caller has been at work.
#[derive(Drop)]
struct Turnstile<'a> {
    step: &'a AtomicU64,
}

impl<'a> Gate for Turnstile<'a> {
    fn pass_through(&mut self, turn: u32) -> bool {
        if turn != 2 {
            return true;
        }
        self.step.store(ENTERED, Ordering::SeqCst);
        comes_to(self.step, LOOKED)
    }
}

const TRACE: [TraceLine; 2] = [
    TraceLine::Read {
        page: 0,
        at: 0,
        len: 1,
    },
    TraceLine::Read {
        page: 1,
        at: 0,
        len: 1,
    },
];

// The guest of machine 0, with ten turns. None where its pass speaks for no caller of the desk.
fn visit<R: Wait>(
    rt: &R,
    alloc: Global,
    desk: &Desk,
    pass: Pass,
    step: &AtomicU64,
) -> Result<(Pass, Option<End>), AllocError>
    requires { IsOf desk.now pass × (desk.now.callers ≡ 2) }
    ensures { IfOk result (λ r. IsOf desk.now r.0) }
{
    let caller = pass.caller();
    if caller >= 2 {
        return Ok((pass, None));
    }
    let mut door = DeskDoor {
        rt,
        desk,
        pass,
        caller,
    };
    let rng = Pcg64::seed_from_u64(1);
    let mut gate = Turnstile { step };
    let end = guest(alloc, &mut door, &mut gate, machine(0), &TRACE, rng, 10)?;
    Ok((door.pass, Some(end)))
}

// Undoes one event once the guest is at its gate.
fn undo_inside<R: Wait>(rt: &R, desk: &Desk, mut pass: Pass, step: &AtomicU64) -> Pass
    requires { IsOf desk.now pass }
    ensures { IsOf desk.now result }
{
    let _ = comes_to(step, ENTERED);
    let _ = desk.submit(rt, &mut pass, Call::Undo { count: 1 });
    step.store(LOOKED, Ordering::SeqCst);
    pass
}

// The console of both, and how the guest ended.
fn undo_between_turns<R: Threads + Wait + Sync>(
    rt: &R,
    alloc: Global,
) -> Result<Option<(Console, End)>, Refusal> {
    let (desk, first, second) = started(rt, alloc)?;
    let step = AtomicU64::new(0);
    let (visited, second) = thread::join(
        rt,
        || visit(rt, alloc, &desk, first, &step),
        || undo_inside(rt, &desk, second, &step),
    );
    let (first, ended) = visited?;
    Ok(closed(desk, first, second).zip(ended))
}

fn expect_end(rt: &impl Abort, end: End) {
    assert_eq!(rt; (end.how, end.passed), (How::Rewound, 0));
}

fn expect_callers(rt: &impl Abort, alloc: Global, log: &[Line]) -> Result<(), Fail> {
    let callers = callers_of(alloc, log)?;
    assert_eq!(rt; callers.as_slice(), [0, 0, 0, 1, 0].as_slice());
    Ok(())
}

fn expect_place(rt: &impl Abort, stand: &Stand) {
    assert_eq!(rt; (stand.node, stand.depth), (4, 3));
}

fn expect_cursor(rt: &impl Abort, console: &mut Console) -> Result<(), Fail> {
    match console.call(0, Call::Stand)?.said {
        Said::Stand { stand } => expect_place(rt, &stand),
        _ => return Err(Fail::new("the cursor")),
    }
    Ok(())
}

fn expect_rewound(
    rt: &impl Abort,
    alloc: Global,
    console: &mut Console,
    end: End,
) -> Result<(), Fail> {
    expect_end(rt, end);
    expect_callers(rt, alloc, console.log())?;
    expect_cursor(rt, console)
}

fn expect_ended(rt: &impl Abort, alloc: Global, ended: Option<(Console, End)>) -> Result<(), Fail> {
    match ended {
        Some((mut console, end)) => {
            let outcome = expect_rewound(rt, alloc, &mut console, end);
            done(console);
            outcome
        }
        None => Err(Fail::new("the desk")),
    }
}

#[test]
fn an_undo_between_two_turns_rewinds_a_guest(rt: HostRuntime) -> Result<(), Fail> {
    match undo_between_turns(&rt, rt.alloc()) {
        Ok(ended) => expect_ended(&rt, rt.alloc(), ended),
        Err(refusal) => Err(Fail::from(refusal)),
    }
}
