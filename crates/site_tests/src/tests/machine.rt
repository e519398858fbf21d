//! What is run of the machine.

use super::rise::expect_rise;
use super::site::{SITE, SPEC, done};
use esx_events::{Answer, Event};
use esx_machine::Machine;
use esx_types::VmId;
use std::process::Abort;
use std::test::Fail;

fn expect_frames(rt: &impl Abort, machine: &Machine) -> Result<(), Fail> {
    let book = machine.book()?;
    assert_eq!(rt; book.frames.len(), 20);
    Ok(())
}

#[test]
fn opens_with_ample_memory(rt: HostRuntime) -> Result<(), Fail> {
    match Machine::open(rt.alloc(), SITE) {
        Ok(machine) => {
            let outcome = expect_frames(&rt, &machine);
            done(machine);
            outcome
        }
        Err(refusal) => Err(Fail::from(refusal)),
    }
}

/// What one event answers.
fn answer(rt: &impl Abort, machine: &mut Machine, event: &Event) -> Result<Answer, Fail> {
    expect_rise(rt, machine)?;
    let (answer, _) = machine.apply(event)?;
    Ok(answer)
}

fn expect_admitted(rt: &impl Abort, machine: &mut Machine) -> Result<(), Fail> {
    let vm = VmId::new(0);
    let admitted = answer(rt, machine, &Event::Admit { vm, spec: SPEC })?;
    assert!(rt; matches!(&admitted, Answer::Admitted { reserves } if reserves.get().memory == 3));
    Ok(())
}

#[test]
fn admits_with_ample_memory(rt: HostRuntime) -> Result<(), Fail> {
    match Machine::open(rt.alloc(), SITE) {
        Ok(mut machine) => {
            let outcome = expect_admitted(&rt, &mut machine);
            done(machine);
            outcome
        }
        Err(refusal) => Err(Fail::from(refusal)),
    }
}
