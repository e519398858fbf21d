//! The desk.

ghost use Rattle.std.specs.Prelude.{◌≡◌, ℕ, Bool, ◌<◌, ◌≤◌, ◌%◌, ◌≢◌, ◌&&◌, ◌||◌, ◌↔◌, ◌++◌, ◌∷◌, not, true, false, [], length, All, IsTrue, IfOk, IfErr, OnErr};
ghost use Rattle.esx_types.specs.Ranges.{IsConfig};
ghost use Rattle.esx_types.specs.Ids.{has};
ghost use Rattle.esx_model.specs.Console.{next_reply};
ghost use Rattle.esx_lock.specs.declared.view.Hold.TheVariants.{Held};
ghost use Rattle.esx_lock.specs.Words.{word_for};
ghost use Rattle.esx_lock.specs.Passes.{SomeId, IsSame, IsAlike, ReadAsBefore, Meet, AreOpened};
ghost use Rattle.esx_desk.specs.Legal.{session, legal_for, gauge_for};
ghost use Rattle.esx_desk.specs.Told.{IsOf, line, Adds, Looks, HadIt, IsBusy};
ghost use Rattle.esx_desk.specs.declared.desk.TryFault.TheVariants as faults;

use crate::legal::LegalConsole;
use esx_console::Console;
use esx_door::{Gate, Open};
use esx_events::{Call, Refusal, Reply};
use esx_lock::{Busy, Gauge, OwnLock, Pass};
use esx_types::{CALLERS, Config, Ids};
use std::alloc::{AllocError, Global};
use std::marker::Model;
use std::sync::Wait;

/// A console under a lock, for callers with the numbers below `callers`.
#[derive(Drop)]
pub struct Desk {
    lock: OwnLock<LegalConsole>,
}

impl Model for Desk {
    ghost use Rattle.esx_lock.specs.Passes.{LockView};

    ghost Value = { LockView };

    ghost view = { λ d. d.lock };
}

/// Why a call was not made: there was no memory, or another pass was faster, with the word that was read
/// last.
#[derive(Clone, Copy, Debug, PartialEq, Eq)]
pub enum TryFault {
    OutOfMemory,
    Busy(u64),
}

impl Desk {
    /// A desk over a site that is opened for it, and a pass for each caller below `callers`.
    pub fn open(alloc: Global, config: Config, callers: usize) -> Result<(Desk, Vec<Pass>), Refusal>
        requires { (0 < callers) × (callers ≤ CALLERS) }
        ensures desk { IfOk result (λ r. (r.0.callers ≡ callers) × IsConfig config) }
        ensures own { IfOk result (λ r. All (IsOf r.0) r.1.items) }
        ensures passes { IfOk result (λ r. (length r.1.items ≡ callers) × AreOpened r.0.table callers config [] r.1.items) }
        ensures refused { IfErr result (λ e. e ≢ Refusal.OutOfMemory → (e ≡ Refusal.BadSpec) × (IsConfig config → ⊥)) }
        ensures late { IfErr result (λ e. e ≡ Refusal.OutOfMemory → IsConfig config) }
    {
        let console = Console::open(alloc, config)?;
        match Desk::over(alloc, console, callers) {
            Ok(opened) => Ok(opened),
            Err(_) => Err(Refusal::OutOfMemory),
        }
    }

    /// A desk over a console, and for each caller below `callers` a pass that has seen the console's log. Where
    /// memory is wanting the console is dropped.
    pub fn over(
        alloc: Global,
        console: Console,
        callers: usize,
    ) -> Result<(Desk, Vec<Pass>), AllocError>
        requires { (0 < callers) × (callers ≤ CALLERS) }
        ensures desk { IfOk result (λ r. r.0.callers ≡ callers) }
        ensures own { IfOk result (λ r. All (IsOf r.0) r.1.items) }
        ensures passes { IfOk result (λ r. (length r.1.items ≡ callers) × AreOpened r.0.table callers console.site console.log r.1.items) }
    {
        let (lock, passes) = OwnLock::open(alloc, LegalConsole::new(alloc, console)?, callers)?;
        Ok((Desk { lock }, passes))
    }

    /// Makes a call as the least of the pass's callers, and waits while another pass has the console. Where
    /// memory is wanting, which is found with the console at hand, nothing changes, and the console goes back.
    pub fn submit<R: Wait>(&self, rt: &R, pass: &mut Pass, call: Call) -> Result<Reply, AllocError>
        requires { IsOf self.now pass.old }
        ensures kept { IsOf self.now pass.new × IsSame pass.old.view pass.new.view }
        ensures ok { IfOk result (λ reply. Adds pass.old.view pass.new.view call reply) }
        ensures err { OnErr result (Looks pass.old.view pass.new.view) }
        ensures had { OnErr result (HadIt pass.new.view) }
    {
        self.submit_through(rt, pass, call, &mut Open)
    }

    /// As `submit`, and passes the gate with turn 1 between the call and the give. It gives the console back
    /// whatever the gate answers.
    pub fn submit_through<R: Wait, G: Gate>(
        &self,
        rt: &R,
        pass: &mut Pass,
        call: Call,
        gate: &mut G,
    ) -> Result<Reply, AllocError>
        requires { IsOf self.now pass.old }
        ensures kept { IsOf self.now pass.new × IsSame pass.old.view pass.new.view }
        ensures ok { IfOk result (λ reply. Adds pass.old.view pass.new.view call reply) }
        ensures err { OnErr result (Looks pass.old.view pass.new.view) }
        ensures had { OnErr result (HadIt pass.new.view) }
        ensures gate { (answer : Bool) × G.passes gate.old 1 answer gate.new }
    {
        let caller = pass.caller();
        let console = self.lock.take(rt, pass);
        self.call_and_give(pass, console, caller, call, gate)
    }

    /// As `submit`, with no wait: one load and, where the word is even, one exchange.
    pub fn try_submit(&self, pass: &mut Pass, call: Call) -> Result<Reply, TryFault>
        requires { IsOf self.now pass.old }
        ensures kept { IsOf self.now pass.new × IsSame pass.old.view pass.new.view }
        ensures ok { IfOk result (λ reply. Adds pass.old.view pass.new.view call reply) }
        ensures err { OnErr result (Looks pass.old.view pass.new.view) }
        ensures had { IfErr result (λ fault. fault ≡ faults.OutOfMemory → HadIt pass.new.view) }
        ensures busy { IfErr result (λ fault. (word : ℕ) → fault ≡ faults.Busy word → IsBusy pass.new.view word) }
    {
        let caller = pass.caller();
        match self.lock.try_take(pass) {
            Ok(console) => match self.call_and_give(pass, console, caller, call, &mut Open) {
                Ok(reply) => Ok(reply),
                Err(_) => Err(TryFault::OutOfMemory),
            },
            Err(Busy(word)) => Err(TryFault::Busy(word)),
        }
    }

    // Makes a call on the console that the pass has taken, passes the gate, and gives the console back.
    fn call_and_give<G: Gate>(
        &self,
        pass: &mut Pass,
        mut console: LegalConsole,
        caller: u16,
        call: Call,
        gate: &mut G,
    ) -> Result<Reply, AllocError>
        requires own { (pass.old.table ≡ self.now.table) × (pass.old.view.callers ≡ self.now.callers) }
        requires held { pass.old.view.hold ≡ Held }
        requires taken { console.console.value ≡ session pass.old.view.site pass.old.view.seen }
        requires caller { has pass.old.view.ids caller ≡ true }
        ensures kept { IsOf self.now pass.new × IsSame pass.old.view pass.new.view }
        ensures reply { IfOk result (λ reply. reply ≡ next_reply console.console.value call) }
        ensures ok { IfOk result (λ reply. pass.new.view.seen ≡ pass.old.view.seen ++ line caller call reply ∷ []) }
        ensures err { OnErr result (pass.new.view.seen ≡ pass.old.view.seen) }
        ensures legal { legal_for pass.old.view.site pass.new.view.seen }
        ensures last { ReadAsBefore pass.old.view pass.new.view }
        ensures gate { (answer : Bool) × G.passes gate.old 1 answer gate.new }
    {
        let reply = console.call(caller, call);
        gate.pass_through(1);
        self.lock.give(pass, console);
        reply
    }

    /// How scarce frames are after the log that the pass has now seen, and whether a pass has the console: by
    /// one load, and with no wait.
    pub fn peek(&self, pass: &mut Pass) -> Gauge
        requires { IsOf self.now pass.old }
        ensures kept { IsOf self.now pass.new × IsSame pass.old.view pass.new.view }
        ensures seen { Looks pass.old.view pass.new.view }
        ensures gauge { (result.free, result.level) ≡ gauge_for pass.new.view.site pass.new.view.seen }
        ensures word { (pass.new.view.last ≡ word_for (result.free, result.level) result.held) × (pass.new.view.by_exchange ≡ false) }
        ensures held { IsTrue result.held ↔ (pass.new.view.last % 2 ≡ 1) }
    {
        Gauge::of(self.lock.read(pass))
    }

    /// One pass for two. What it has seen is the longer of what they have seen, which begins with the other.
    pub fn meet(&self, one: Pass, other: Pass) -> Pass
        requires { IsOf self.now one × IsOf self.now other }
        ensures kept { IsOf self.now result × (result.view.site ≡ one.view.site) }
        ensures ids { (k : ℕ) → has result.view.ids k ≡ (has one.view.ids k || has other.view.ids k) }
        ensures meet { Meet one.view other.view result.view.seen }
    {
        self.lock.join(one, other)
    }

    /// Parts the callers of a pass. The second pass speaks for `ids`, a part of them, and the first one for the
    /// others; both know what the pass knew.
    pub fn split(&self, pass: Pass, ids: Ids) -> (Pass, Pass)
        requires own { IsOf self.now pass }
        requires part { (k : ℕ) → has ids k ≡ true → has pass.view.ids k ≡ true }
        requires some { SomeId ids }
        requires rest { (k : ℕ) × (has pass.view.ids k ≡ true) × (has ids k ≡ false) }
        ensures kept { IsOf self.now result.0 × IsOf self.now result.1 }
        ensures first { (k : ℕ) → has result.0.view.ids k ≡ (has pass.view.ids k && not (has ids k)) }
        ensures second { result.1.view.ids ≡ ids }
        ensures alike { IsAlike pass.view result.0.view × IsAlike pass.view result.1.view }
    {
        self.lock.split(pass, ids)
    }

    /// Does the pass speak for all callers, so that the desk can be closed with it?
    pub fn whole(&self, pass: &Pass) -> bool
        ensures { IsTrue result ↔ ((k : ℕ) → k < self.now.callers → has pass.now.view.ids k ≡ true) }
    {
        self.lock.whole(pass)
    }

    /// The console, whose log is what the pass has seen.
    pub fn close(self, pass: Pass) -> Console
        requires own { IsOf self pass }
        requires whole { (k : ℕ) → k < self.callers → has pass.view.ids k ≡ true }
        ensures { (result.site ≡ pass.view.site) × (result.log ≡ pass.view.seen) }
    {
        let Desk { lock } = self;
        lock.close(pass).into_console()
    }
}
