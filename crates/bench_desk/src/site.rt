//! The console that is timed.

use esx_console::Console;
use esx_events::{Call, Event, Refusal};
use esx_types::{Config, VmId, VmSpec};
use std::alloc::{AllocError, Global};

const SITE: Config = Config {
    frames: 20,
    page: 16,
    slots: 8,
    tau: 75,
    high: 6,
    soft: 4,
    hard: 2,
    low: 1,
    nodes: 16777216,
};

/// The virtual machine 0.
fn guest() -> VmId {
    VmId::new(0)
}

/// A console with one machine, which is to be started.
pub fn opened(alloc: Global) -> Result<Console, Refusal> {
    let mut console = Console::open(alloc, SITE)?;
    let spec = VmSpec {
        min: 2,
        max: 6,
        overhead: 1,
        shares: 1000,
        balloon_max: 0,
        tau: None,
    };
    let event = Event::Admit { vm: guest(), spec };
    let _ = console.call(0, Call::Do { event })?;
    Ok(console)
}

/// The call that is timed: a question, so that nothing but the log grows.
pub fn question() -> Call {
    Call::OfPage {
        vm: guest(),
        page: 0,
    }
}

/// Asks a console so often.
pub fn ask_console(console: &mut Console, count: u32) -> Result<(), AllocError> {
    for _ in 0..count {
        let _ = console.call(0, question())?;
    }
    Ok(())
}
