//! What is run of the machine's records: how many bytes each holds.

ghost use Rattle.std.specs.Prelude.{◌≡◌, OnOk, IfOk};
ghost use Rattle.esx_model.specs.declared.scene.Scene.{Scene};
ghost use Rattle.esx_machine.specs.Machine.{Kept, Shows, Trades};

use super::rise::expect_rise;
use super::site::{SITE, SPEC, done};
use esx_events::Event;
use esx_machine::{Machine, Record};
use esx_types::{SmallBytes, VmId};
use std::alloc::{AllocError, Global};
use std::process::Abort;
use std::test::Fail;

/// The record of one event.
fn record_of(rt: &impl Abort, machine: &mut Machine, event: &Event) -> Result<Record, Fail>
    requires shown { (scene : Scene) × Shows machine.old scene }
    ensures back { IfOk result (λ r. Trades r machine.new machine.old) }
    ensures shown { IfOk result (λ r. (scene : Scene) × Shows machine.new scene) }
{
    expect_rise(rt, machine)?;
    let (_, back) = machine.apply(event)?;
    Ok(back)
}

/// How many bytes a record holds, as it is given, after one flip and after two.
fn bytes_held(machine: &mut Machine, back: &mut Record) -> [u64; 3]
    requires fits { (there : Kept) × Trades back.old machine.old there }
    ensures { machine.new ≡ machine.old }
{
    let given = back.size().bytes;
    machine.flip(back);
    let flipped = back.size().bytes;
    machine.flip(back);
    [given, flipped, back.size().bytes]
}

/// The record of an event holds so many bytes, as it is given, after one flip and after two.
fn expect_bytes(
    rt: &impl Abort,
    machine: &mut Machine,
    event: &Event,
    want: [u64; 3],
) -> Result<(), Fail>
    requires shown { (scene : Scene) × Shows machine.old scene }
    ensures { OnOk result ((scene : Scene) × Shows machine.new scene) }
{
    let mut back = record_of(rt, machine, event)?;
    let held = bytes_held(machine, &mut back);
    assert_eq!(rt; held, want);
    Ok(())
}

/// Two bytes for the first page.
fn bytes_written(alloc: Global, vm: VmId) -> Result<Event, AllocError> {
    Ok(Event::Write {
        vm,
        page: 0,
        at: 3,
        bytes: SmallBytes::copy_of(alloc, &[0xaa, 0xbb])?,
    })
}

fn expect_start(rt: &impl Abort, machine: &mut Machine, vm: VmId) -> Result<(), Fail>
    requires shown { (scene : Scene) × Shows machine.old scene }
    ensures { OnOk result ((scene : Scene) × Shows machine.new scene) }
{
    let admit = Event::Admit { vm, spec: SPEC };
    expect_bytes(rt, machine, &admit, [0, 0, 0])?;
    expect_bytes(rt, machine, &Event::Start { vm }, [0, 0, 0])
}

fn expect_access(
    rt: &impl Abort,
    machine: &mut Machine,
    vm: VmId,
    write: &Event,
) -> Result<(), Fail>
    requires shown { (scene : Scene) × Shows machine.old scene }
{
    let read = Event::Read {
        vm,
        page: 0,
        at: 0,
        len: 1,
    };
    expect_bytes(rt, machine, &read, [0, 16, 0])?;
    expect_bytes(rt, machine, write, [2, 2, 2])
}

fn expect_records(
    rt: &impl Abort,
    machine: &mut Machine,
    vm: VmId,
    write: &Event,
) -> Result<(), Fail>
    requires shown { (scene : Scene) × Shows machine.old scene }
{
    expect_start(rt, machine, vm)?;
    expect_access(rt, machine, vm, write)
}

#[test]
fn records_hold_the_bytes_that_moved(rt: HostRuntime) -> Result<(), Fail> {
    let vm = VmId::new(0);
    let write = bytes_written(rt.alloc(), vm)?;
    match Machine::open(rt.alloc(), SITE) {
        Ok(mut machine) => {
            let outcome = expect_records(&rt, &mut machine, vm, &write);
            done(machine);
            outcome
        }
        Err(refusal) => Err(Fail::from(refusal)),
    }
}
