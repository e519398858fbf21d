//! Each kind of worker, from its start to its end.

ghost use Rattle.std.specs.Prelude.{◌≡◌, IfOk, OnOk, OnErr, length};
ghost use Rattle.esx_door.specs.Own.{lines_of};
ghost use Rattle.esx_workers.specs.Runs.{Ended, Broken, Gated, Stopped, Called, Short};
ghost use Rattle.esx_workers.specs.Starts.{guest_of, sharer_of, swapper_of, policy_of};
ghost use Rattle.esx_workers.specs.GuestRuns.{Visited};
ghost use Rattle.esx_workers.specs.declared.end.How.TheVariants.{Done};

use crate::end::End;
use crate::machine::Machine;
use crate::policing::PolicyWorker;
use crate::running::run;
use crate::sharing::SharerWorker;
use crate::swapping::SwapperWorker;
use crate::visiting::{GuestWorker, Step};
use crate::worker::Worker;
use esx_door::{Door, Gate};
use esx_scenario::TraceLine;
use esx_types::VmId;
use rand_pcg::Pcg64;
use std::alloc::{AllocError, Global};

/// Sends the events of a trace for a virtual machine. Each time an access finds the machine held back or frames
/// short, it asks for advice, sends the event that is named once, and sends the access again. It ends `Done`
/// after the last line.
pub fn guest<D: Door, G: Gate>(
    alloc: Global,
    door: &mut D,
    gate: &mut G,
    vm: VmId,
    trace: &[TraceLine],
    rng: Pcg64,
    turns: u32,
) -> Result<End, AllocError>
    requires { D.can_submit door.old }
    ensures again { D.can_submit door.new }
    ensures leads { D.leads door.old door.new }
    ensures caller { D.caller door.new ≡ D.caller door.old }
    ensures ok { IfOk result (λ end. Ended (G.is_open gate.old) (D.caller door.old) (guest_of vm trace.entry rng) turns end (lines_of (D.caller door.old) (D.seen door.old)) (lines_of (D.caller door.old) (D.seen door.new))) }
    ensures visits { IfOk result (λ end. Visited vm trace.now (end.how ≡ Done) (lines_of (D.caller door.old) (D.seen door.old)) (lines_of (D.caller door.old) (D.seen door.new))) }
    ensures gate { IfOk result (λ end. Gated G.passes gate.old gate.new (guest_of vm trace.entry rng) turns end (lines_of (D.caller door.old) (D.seen door.old)) (lines_of (D.caller door.old) (D.seen door.new))) }
    ensures err { OnErr result (Broken (D.caller door.old) (guest_of vm trace.entry rng) turns (lines_of (D.caller door.old) (D.seen door.old)) (lines_of (D.caller door.old) (D.seen door.new))) }
    ensures visits_in_part { OnErr result (Visited vm trace.now ⊥ (lines_of (D.caller door.old) (D.seen door.old)) (lines_of (D.caller door.old) (D.seen door.new))) }
    ensures stopped { OnErr result (Stopped G.passes gate.old gate.new (guest_of vm trace.entry rng) (lines_of (D.caller door.old) (D.seen door.old)) (lines_of (D.caller door.old) (D.seen door.new))) }
    ensures made { OnOk result (Called D.made door.old door.new (lines_of (D.caller door.old) (D.seen door.old)) (lines_of (D.caller door.old) (D.seen door.new))) }
    ensures wanted { OnErr result (Short G.passes D.made D.wanted gate.old gate.new door.old door.new (guest_of vm trace.entry rng) (lines_of (D.caller door.old) (D.seen door.old)) (lines_of (D.caller door.old) (D.seen door.new))) }
{
    let worker = Worker::Guest(GuestWorker {
        vm,
        trace,
        next: 0,
        step: Step::Send,
        rng,
    });
    run(door, gate, alloc, worker, turns)
}

/// Scans a page of a machine, both drawn, until its turns are over. With no machine it makes no call.
pub fn sharer<D: Door, G: Gate>(
    alloc: Global,
    door: &mut D,
    gate: &mut G,
    machines: &[Machine],
    rng: Pcg64,
    turns: u32,
) -> Result<End, AllocError>
    requires { D.can_submit door.old }
    ensures again { D.can_submit door.new }
    ensures leads { D.leads door.old door.new }
    ensures caller { D.caller door.new ≡ D.caller door.old }
    ensures ok { IfOk result (λ end. Ended (G.is_open gate.old) (D.caller door.old) (sharer_of machines.entry rng) turns end (lines_of (D.caller door.old) (D.seen door.old)) (lines_of (D.caller door.old) (D.seen door.new))) }
    ensures gate { IfOk result (λ end. Gated G.passes gate.old gate.new (sharer_of machines.entry rng) turns end (lines_of (D.caller door.old) (D.seen door.old)) (lines_of (D.caller door.old) (D.seen door.new))) }
    ensures err { OnErr result (Broken (D.caller door.old) (sharer_of machines.entry rng) turns (lines_of (D.caller door.old) (D.seen door.old)) (lines_of (D.caller door.old) (D.seen door.new))) }
    ensures stopped { OnErr result (Stopped G.passes gate.old gate.new (sharer_of machines.entry rng) (lines_of (D.caller door.old) (D.seen door.old)) (lines_of (D.caller door.old) (D.seen door.new))) }
    ensures made { OnOk result (Called D.made door.old door.new (lines_of (D.caller door.old) (D.seen door.old)) (lines_of (D.caller door.old) (D.seen door.new))) }
    ensures wanted { OnErr result (Short G.passes D.made D.wanted gate.old gate.new door.old door.new (sharer_of machines.entry rng) (lines_of (D.caller door.old) (D.seen door.old)) (lines_of (D.caller door.old) (D.seen door.new))) }
{
    let worker = Worker::Sharer(SharerWorker { machines, rng });
    run(door, gate, alloc, worker, turns)
}

/// Asks a machine to page out, machine and word drawn, until its turns are over. With no machine it makes no
/// call.
pub fn swapper<D: Door, G: Gate>(
    alloc: Global,
    door: &mut D,
    gate: &mut G,
    machines: &[Machine],
    rng: Pcg64,
    turns: u32,
) -> Result<End, AllocError>
    requires { D.can_submit door.old }
    ensures again { D.can_submit door.new }
    ensures leads { D.leads door.old door.new }
    ensures caller { D.caller door.new ≡ D.caller door.old }
    ensures ok { IfOk result (λ end. Ended (G.is_open gate.old) (D.caller door.old) (swapper_of machines.entry rng) turns end (lines_of (D.caller door.old) (D.seen door.old)) (lines_of (D.caller door.old) (D.seen door.new))) }
    ensures gate { IfOk result (λ end. Gated G.passes gate.old gate.new (swapper_of machines.entry rng) turns end (lines_of (D.caller door.old) (D.seen door.old)) (lines_of (D.caller door.old) (D.seen door.new))) }
    ensures err { OnErr result (Broken (D.caller door.old) (swapper_of machines.entry rng) turns (lines_of (D.caller door.old) (D.seen door.old)) (lines_of (D.caller door.old) (D.seen door.new))) }
    ensures stopped { OnErr result (Stopped G.passes gate.old gate.new (swapper_of machines.entry rng) (lines_of (D.caller door.old) (D.seen door.old)) (lines_of (D.caller door.old) (D.seen door.new))) }
    ensures made { OnOk result (Called D.made door.old door.new (lines_of (D.caller door.old) (D.seen door.old)) (lines_of (D.caller door.old) (D.seen door.new))) }
    ensures wanted { OnErr result (Short G.passes D.made D.wanted gate.old gate.new door.old door.new (swapper_of machines.entry rng) (lines_of (D.caller door.old) (D.seen door.old)) (lines_of (D.caller door.old) (D.seen door.new))) }
{
    let worker = Worker::Swapper(SwapperWorker { machines, rng });
    run(door, gate, alloc, worker, turns)
}

/// Rebalances and then opens a sample period for each machine in order, with `sample` words that are drawn and
/// of `length` accesses, over and over, until its turns are over.
pub fn policy<D: Door, G: Gate>(
    alloc: Global,
    door: &mut D,
    gate: &mut G,
    machines: &[Machine],
    sample: u32,
    length: u32,
    rng: Pcg64,
    turns: u32,
) -> Result<End, AllocError>
    requires { D.can_submit door.old }
    ensures again { D.can_submit door.new }
    ensures leads { D.leads door.old door.new }
    ensures caller { D.caller door.new ≡ D.caller door.old }
    ensures ok { IfOk result (λ end. Ended (G.is_open gate.old) (D.caller door.old) (policy_of machines.entry sample length rng) turns end (lines_of (D.caller door.old) (D.seen door.old)) (lines_of (D.caller door.old) (D.seen door.new))) }
    ensures gate { IfOk result (λ end. Gated G.passes gate.old gate.new (policy_of machines.entry sample length rng) turns end (lines_of (D.caller door.old) (D.seen door.old)) (lines_of (D.caller door.old) (D.seen door.new))) }
    ensures err { OnErr result (Broken (D.caller door.old) (policy_of machines.entry sample length rng) turns (lines_of (D.caller door.old) (D.seen door.old)) (lines_of (D.caller door.old) (D.seen door.new))) }
    ensures stopped { OnErr result (Stopped G.passes gate.old gate.new (policy_of machines.entry sample length rng) (lines_of (D.caller door.old) (D.seen door.old)) (lines_of (D.caller door.old) (D.seen door.new))) }
    ensures made { OnOk result (Called D.made door.old door.new (lines_of (D.caller door.old) (D.seen door.old)) (lines_of (D.caller door.old) (D.seen door.new))) }
    ensures wanted { OnErr result (Short G.passes D.made D.wanted gate.old gate.new door.old door.new (policy_of machines.entry sample length rng) (lines_of (D.caller door.old) (D.seen door.old)) (lines_of (D.caller door.old) (D.seen door.new))) }
{
    let worker = Worker::Policy(PolicyWorker {
        machines,
        sample,
        length,
        next: machines.len(),
        rng,
    });
    run(door, gate, alloc, worker, turns)
}
