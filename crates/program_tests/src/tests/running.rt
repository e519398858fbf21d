//! Runs of scenarios, and what is told of them.

use super::ends::{Disk, Screen, Terminal};
use super::run_over;
use esx_check::Checked;
use esx_events::Refusal;
use esx_program::{Asked, Done, Ended, Failure, RunFault, Streams, check_watched};
use std::alloc::{AllocGlobal, Global};
use std::cell::RefCell;
use std::io::{self, Stderr, Write};
use std::rc::Rc;
use std::sync::Wait;
use std::test::Fail;
use std::thread::Threads;

const TWO_GUESTS: &str =
    "version = 2\n[machine]\nframes = 20\npage = 16\nslots = 8\n[run]\nturns = 6\n[[vm]]\nid = 200\nmin = 2\nmax = 6\noverhead = 1\nshares = 1000\nballoon = 0\ntau = 50\ntrace = [\"read 0 0 1\", \"read 1 0 1\", \"read 2 0 1\", \"read 3 0 1\", \"read 4 0 1\"]\n[[vm]]\nid = 0\nmin = 2\nmax = 6\noverhead = 1\nshares = 1000\nballoon = 0\ntrace = [\"read 0 0 1\", \"read 1 0 1\", \"read 2 0 1\", \"read 3 0 1\", \"read 4 0 1\"]\n";

const TOO_MUCH: &str =
    "version = 1\n[machine]\nframes = 20\npage = 16\nslots = 8\n[[vm]]\nid = 0\nmin = 20\nmax = 20\noverhead = 1\nshares = 1000\nballoon = 0\n";

const ENDS: &[u8] = b"guest 0 done\nguest 200 done\nsharer turns\nswapper turns\npolicy turns\n";

/// Runs the scenario of a text, and gives the end and the two writers.
fn run<R: AllocGlobal + Threads + Wait + Sync, E: Write + Drop, W: Write + Drop>(
    rt: &R,
    text: &'static str,
    errors: E,
    writer: W,
) -> (Result<Done, Failure>, E, W) {
    let file: io::Result<&'static [u8]> = Ok(text.as_bytes());
    let to: Option<&Stderr> = None;
    let streams = Streams {
        reader: b"".as_slice(),
        errors,
        writer,
    };
    let Ended { ended, streams } = run_over(rt, Asked::Run(file), to, streams);
    let Streams { errors, writer, .. } = streams;
    (ended, errors, writer)
}

pub fn disk(alloc: Global, room: usize) -> Disk {
    Disk {
        room,
        bytes: Vec::new(alloc),
    }
}

/// The session that is told of a run is the same when it is gone through again.
#[test]
fn a_run(rt: HostRuntime) -> Result<(), Fail> {
    let alloc = rt.alloc();
    let (ended, errors, writer) = run(&rt, TWO_GUESTS, Vec::new(alloc), Vec::new(alloc));
    assert!(rt; matches!(&ended, Ok(Done::Ran)));
    assert!(rt; errors.as_slice() == ENDS);
    let Ok(text) = String::from_utf8(writer) else {
        return Err(Fail::new("a text"));
    };
    let to: Option<&Stderr> = None;
    assert_eq!(rt;
        check_watched(alloc, text.as_str(), to),
        Ok(Checked::Same(32))
    );
    Ok(())
}

/// The ends are told before the session.
#[test]
fn ends_before_the_session(rt: HostRuntime) -> Result<(), Fail> {
    let screen: Screen = Rc::new(rt.alloc(), RefCell::new(Vec::new(rt.alloc())))?;
    let errors = Terminal {
        screen: screen.clone()?,
    };
    let writer = Terminal {
        screen: screen.clone()?,
    };
    let (ended, _, _) = run(&rt, TWO_GUESTS, errors, writer);
    assert!(rt; matches!(&ended, Ok(Done::Ran)));
    let Ok(written) = screen.try_borrow() else {
        panic!(rt; "the screen is in use");
    };
    assert!(rt; written.as_slice().starts_with(ENDS));
    Ok(())
}

#[test]
fn a_refused_opening(rt: HostRuntime) {
    let alloc = rt.alloc();
    let (ended, errors, writer) = run(&rt, TOO_MUCH, Vec::new(alloc), Vec::new(alloc));
    assert!(rt;
        matches!(
            &ended,
            Err(Failure::Run(RunFault::Refused(Refusal::NoMemoryReserve)))
        )
    );
    assert!(rt; errors.is_empty() && writer.is_empty());
}

/// The ends are told also where the session cannot be written, and the session where the ends cannot.
#[test]
fn runs_onto_full_disks(rt: HostRuntime) {
    let alloc = rt.alloc();
    let (ended, errors, writer) = run(&rt, TWO_GUESTS, Vec::new(alloc), disk(alloc, 14));
    assert!(rt; matches!(&ended, Err(Failure::Run(RunFault::Write))));
    assert!(rt; errors.as_slice() == ENDS);
    assert!(rt; writer.bytes.as_slice() == b"esx session 2\n".as_slice());
    let (ended, errors, writer) = run(&rt, TWO_GUESTS, disk(alloc, 0), Vec::new(alloc));
    assert!(rt; matches!(&ended, Ok(Done::Ran)));
    assert!(rt; errors.bytes.is_empty() && !writer.is_empty());
}
