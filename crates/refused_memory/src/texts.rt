//! Texts of sessions and of scenarios.

use crate::outcomes::Outcome;
use esx_check::{Checked, MigrateFault, check_session, migrate};
use esx_reading::TextFault;
use esx_scenario::parse_scenario;
use esx_session::{Session, parse_session};
use std::alloc::Global;

/// What a text is refused for.
fn of_fault(fault: TextFault) -> Outcome {
    match fault {
        TextFault::OutOfMemory => Outcome::OutOfMemory(0),
        _ => Outcome::Fault(fault),
    }
}

fn of_calls(alloc: Global, session: Session) -> Outcome {
    let calls = session.entries().len();
    match check_session(alloc, session) {
        Ok(checked) => Outcome::Checked(checked, calls),
        Err(_) => Outcome::OutOfMemory(1),
    }
}

/// Reading is one step, and checking the other.
pub fn of_session(alloc: Global, text: &str) -> Outcome {
    match parse_session(alloc, text) {
        Ok(session) => of_calls(alloc, session),
        Err(fault) => of_fault(fault),
    }
}

fn of_migrated(alloc: Global, session: &Session) -> Outcome {
    let calls = session.entries().len();
    match migrate(alloc, session) {
        Ok(console) => Outcome::Migrated(console.log().len(), calls),
        Err(MigrateFault::Differs(call)) => Outcome::Checked(Checked::Differs(call), calls),
        Err(MigrateFault::OutOfMemory) => Outcome::OutOfMemory(1),
    }
}

/// The same of reading and migrating.
pub fn of_migration(alloc: Global, text: &str) -> Outcome {
    match parse_session(alloc, text) {
        Ok(session) => of_migrated(alloc, &session),
        Err(fault) => of_fault(fault),
    }
}

pub fn of_scenario(alloc: Global, text: &str) -> Outcome {
    match parse_scenario(alloc, text) {
        Ok(scenario) => Outcome::Scenario(scenario),
        Err(fault) => of_fault(fault),
    }
}
