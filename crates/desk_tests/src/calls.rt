//! Which calls a caller makes: the same ones in every run, whatever the others do.

use esx_events::{Call, Event};
use esx_types::{Config, SmallBytes, VmId, VmSpec};
use std::alloc::{AllocError, Global};

pub const SITE: Config = Config {
    frames: 20,
    page: 16,
    slots: 8,
    tau: 75,
    high: 6,
    soft: 4,
    hard: 2,
    low: 1,
    nodes: 16777216,
};

/// With so many calls caller 0 admits and starts both virtual machines.
pub const OPENING: u64 = 4;

/// The virtual machine 0 or 1.
pub fn guest(number: u64) -> VmId {
    VmId::new((number % 2) as u8)
}

pub fn admit(vm: VmId) -> Call {
    let spec = VmSpec {
        min: 2,
        max: 6,
        overhead: 1,
        shares: 1000,
        balloon_max: 0,
        tau: None,
    };
    Call::Do {
        event: Event::Admit { vm, spec },
    }
}

pub fn start(vm: VmId) -> Call {
    Call::Do {
        event: Event::Start { vm },
    }
}

pub fn read(vm: VmId, page: u32, len: u32) -> Call {
    Call::Do {
        event: Event::Read {
            vm,
            page,
            at: 0,
            len,
        },
    }
}

pub fn write(alloc: Global, vm: VmId, page: u32, byte: u8) -> Result<Call, AllocError> {
    let bytes = SmallBytes::copy_of(alloc, &[byte])?;
    Ok(Call::Do {
        event: Event::Write {
            vm,
            page,
            at: 0,
            bytes,
        },
    })
}

fn access(alloc: Global, caller: u16, number: u64) -> Result<Call, AllocError> {
    let vm = guest(u64::from(caller));
    let page = (number % 6) as u32;
    if number % 2 == 0 {
        write(alloc, vm, page, (number % 256) as u8)
    } else {
        Ok(read(vm, page, 16))
    }
}

fn question(number: u64) -> Call {
    match number % 3 {
        0 => Call::Sum,
        1 => Call::OfPage {
            vm: guest(number),
            page: (number % 6) as u32,
        },
        _ => Call::Stand,
    }
}

/// A caller's call with this number, from 0 on: the first ones of caller 0 admit and start, then callers 0
/// and 1 are guests, caller 2 goes back and forth, and the others ask.
pub fn nth_call(alloc: Global, caller: u16, number: u64) -> Result<Call, AllocError> {
    match caller {
        0 if number < OPENING / 2 => Ok(admit(guest(number))),
        0 if number < OPENING => Ok(start(guest(number))),
        0 | 1 => access(alloc, caller, number),
        2 if number % 2 == 0 => Ok(Call::Undo { count: 1 }),
        2 => Ok(Call::Redo { count: 1 }),
        _ => Ok(question(number)),
    }
}
