//! Two callers at one desk.

ghost use Rattle.std.specs.Prelude.{◌≡◌, [], IfOk};
ghost use Rattle.esx_desk.specs.Told.{IsOf};
ghost use Rattle.esx_model.specs.Console.{lined};
ghost use Rattle.esx_events.specs.declared.call.Call.TheVariants.{Sum};
ghost use Rattle.desk_tests.specs.declared.calls.TheConstants.{SITE};

use crate::calls::{SITE, admit, guest, read, start, write};
use crate::signs::first_byte;
use esx_console::Console;
use esx_desk::laws::whole_pass_has_a_console;
use esx_desk::{Desk, Gate, Gauge, Pass, TryFault};
use esx_events::{Call, Refusal, Reply, Said};
use esx_types::Ids;
use std::alloc::{AllocError, Global};
use std::sync::Wait;
use std::sync::atomic::{AtomicU64, Ordering};
use std::thread;
use std::thread::Threads;

/// A desk for the callers 0 and 1, and their passes.
pub fn opened(alloc: Global) -> Result<(Desk, Pass, Pass), Refusal>
    ensures desk { IfOk result (λ r. r.0.callers ≡ 2) }
    ensures passes { IfOk result (λ r. IsOf r.0 r.1 × IsOf r.0 r.2) }
{
    let (desk, mut passes) = Desk::open(alloc, SITE, 2)?;
    let second = passes.pop().unwrap();
    let first = passes.pop().unwrap();
    Ok((desk, first, second))
}

/// The same, after the first caller has admitted and started a virtual machine.
pub fn started<R: Wait>(rt: &R, alloc: Global) -> Result<(Desk, Pass, Pass), Refusal>
    ensures desk { IfOk result (λ r. r.0.callers ≡ 2) }
    ensures passes { IfOk result (λ r. IsOf r.0 r.1 × IsOf r.0 r.2) }
{
    let (desk, mut first, second) = opened(alloc)?;
    let _ = desk.submit(rt, &mut first, admit(guest(0)))?;
    let _ = desk.submit(rt, &mut first, start(guest(0)))?;
    Ok((desk, first, second))
}

const LOOKS: u64 = 2_000_000_000;

/// The first caller is at its gate.
pub const ENTERED: u64 = 1;

/// The second caller has done what it has to do meanwhile.
pub const LOOKED: u64 = 2;

/// Looks at a step until it is the one that is wanted, and gives up after very many looks.
pub fn comes_to(step: &AtomicU64, wanted: u64) -> bool {
    for _look in 0..LOOKS {
        if step.load(Ordering::SeqCst) == wanted {
            return true;
        }
    }
    false
}

/// Stays until another thread has looked.
#[derive(Drop)]
struct Stay<'a> {
    step: &'a AtomicU64,
    turn: u32,
}

impl<'a> Gate for Stay<'a> {
    fn pass_through(&mut self, turn: u32) -> bool {
        self.turn = turn;
        self.step.store(ENTERED, Ordering::SeqCst);
        comes_to(self.step, LOOKED)
    }
}

// Writes through a gate that stays until the step is `LOOKED`. Tells the turn that the gate was told.
fn write_and_stay<R: Wait>(
    rt: &R,
    alloc: Global,
    desk: &Desk,
    mut pass: Pass,
    step: &AtomicU64,
) -> Result<(Pass, u32), AllocError>
    requires { IsOf desk.now pass }
    ensures { IfOk result (λ r. IsOf desk.now r.0) }
{
    let mut gate = Stay { step, turn: 0 };
    let call = write(alloc, guest(0), 0, 0x2a)?;
    let _ = desk.submit_through(rt, &mut pass, call, &mut gate)?;
    Ok((pass, gate.turn))
}

/// What a caller learns without waiting.
#[derive(Drop)]
pub struct Look {
    pub pass: Pass,
    pub gauge: Gauge,
    pub busy: Option<u64>,
}

// Peeks and tries to call once the step is `ENTERED`, and sets it to `LOOKED`.
fn look_inside(desk: &Desk, mut pass: Pass, step: &AtomicU64) -> Look
    requires { IsOf desk.now pass }
    ensures { IsOf desk.now result.pass }
{
    let _ = comes_to(step, ENTERED);
    let gauge = desk.peek(&mut pass);
    let busy = match desk.try_submit(&mut pass, Call::Sum) {
        Err(TryFault::Busy(word)) => Some(word),
        _ => None,
    };
    step.store(LOOKED, Ordering::SeqCst);
    Look { pass, gauge, busy }
}

/// The first caller writes through a gate that stays until the second one has looked. Tells the turn of the
/// gate too.
pub fn write_and_look<R: Threads + Wait + Sync>(
    rt: &R,
    alloc: Global,
    desk: &Desk,
    first: Pass,
    second: Pass,
) -> Result<(Pass, u32, Look), AllocError>
    requires { IsOf desk.now first × IsOf desk.now second }
    ensures { IfOk result (λ r. IsOf desk.now r.0 × IsOf desk.now r.2.pass) }
{
    let step = AtomicU64::new(0);
    let (written, look) = thread::join(
        rt,
        || write_and_stay(rt, alloc, desk, first, &step),
        || look_inside(desk, second, &step),
    );
    let (first, turn) = written?;
    Ok((first, turn, look))
}

/// Gives up at once.
#[derive(Drop)]
struct Shut;

impl Gate for Shut {
    fn pass_through(&mut self, _turn: u32) -> bool {
        false
    }
}

/// A call through a gate that gives up.
pub fn write_past_a_shut_gate<R: Wait>(
    rt: &R,
    alloc: Global,
    desk: &Desk,
    pass: &mut Pass,
) -> Result<Reply, AllocError>
    requires { IsOf desk.now pass.old }
    ensures { IsOf desk.now pass.new }
{
    let call = write(alloc, guest(0), 0, 0x2a)?;
    desk.submit_through(rt, pass, call, &mut Shut)
}

/// The first byte of the first page, read without waiting.
pub fn read_byte(desk: &Desk, pass: &mut Pass) -> Option<u8>
    requires { IsOf desk.now pass.old }
    ensures { IsOf desk.now pass.new }
{
    let reply = desk.try_submit(pass, read(guest(0), 0, 1)).ok()?;
    match &reply.said {
        Said::Done { answer } => first_byte(answer),
        _ => None,
    }
}

/// The console, where both passes speak for all callers.
pub fn closed(desk: Desk, first: Pass, second: Pass) -> Option<Console>
    requires { IsOf desk first × IsOf desk second }
{
    let both = desk.meet(first, second);
    if desk.whole(&both) {
        Some(desk.close(both))
    } else {
        None
    }
}

/// A call, and then a call of another pass. Whatever becomes of the first, the console is free after it; where
/// memory was wanting, its gauge is as before.
pub fn goes_on<R: Wait>(rt: &R, alloc: Global) -> Result<bool, Refusal> {
    let (desk, mut first, mut second) = started(rt, alloc)?;
    let before = desk.peek(&mut second);
    let call = write(alloc, guest(0), 0, 0x2a)?;
    let wanting = desk.submit(rt, &mut first, call).is_err();
    let after = desk.peek(&mut second);
    let busy = matches!(
        desk.try_submit(&mut second, Call::Sum),
        Err(TryFault::Busy(_))
    );
    Ok(!after.held && !busy && (after == before) == wanting)
}

/// The second caller is parted from both, and comes back: are the part and both whole?
pub fn parts_and_meets(alloc: Global) -> Result<Option<(bool, bool)>, Refusal> {
    let (desk, first, second) = opened(alloc)?;
    let both = desk.meet(first, second);
    if !desk.whole(&both) {
        return Ok(None);
    }
    let (first, second) = desk.split(both, Ids::single(1));
    let part = desk.whole(&first);
    let again = desk.whole(&desk.meet(first, second));
    Ok(Some((part, again)))
}

/// The console of a desk whose one pass speaks for all callers: its log is known, since nobody else can have
/// written.
pub fn alone<R: Wait>(rt: &R, alloc: Global) -> Result<Console, Refusal>
    ensures { IfOk result (λ console. console ≡ lined (record { site = SITE; log = [] }) 0 Sum) }
{
    let (desk, mut passes) = Desk::open(alloc, SITE, 1)?;
    let mut pass = passes.pop().unwrap();
    let _ = desk.submit(rt, &mut pass, Call::Sum)?;
    whole_pass_has_a_console();
    Ok(desk.close(pass))
}
