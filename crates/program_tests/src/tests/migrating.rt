//! Sessions that are printed in version 2, and sessions that are not.

use super::checking::Screen;
use super::ends::Stuck;
use super::opening::taped;
use super::run_over;
use super::running::disk;
use esx_check::{Checked, MigrateFault, OutputFault};
use esx_program::{Asked, Done, Ended, Failure, Streams, migrate_watched};
use esx_reading::TextFault;
use esx_session::parse_session;
use std::alloc::AllocGlobal;
use std::io::{self, Stderr, Write};
use std::sync::Wait;
use std::test::Fail;
use std::thread::Threads;

/// A session, what its check comes to, what is written of it, and what a terminal is told on the way.
struct Row {
    text: &'static str,
    checked: Checked,
    written: &'static [u8],
    status: u8,
    progress: &'static [u8],
}

const ROWS: [Row; 4] = [
    Row {
        text: "esx session 1\nframes 20 page 16 slots 8 tau 75 levels 6 4 2 1 nodes 16777216\n0 admit 31 2 6 1 1000 0\n= ok memory 3/20 swap 4/8\n63 start 31\n= ok frame 0 overhead 1/1 running\nend 2\n",
        checked: Checked::Same(2),
        written: b"esx session 2\nframes 20 page 16 slots 8 tau 75 levels 6 4 2 1 nodes 16777216\n0 admit 31 2 6 1 1000 0\n= ok memory 3/20 swap 4/8\n63 start 31\n= ok frame 0 overhead 1/1 running\nend 2\n",
        status: 0,
        progress: b"\r2 calls\n",
    },
    Row {
        text: "esx session 2\nframes 20 page 16 slots 8 tau 75 levels 6 4 2 1 nodes 16777216\n511 admit 200 2 6 1 1000 0 50\n= ok memory 3/20 swap 4/8\nend 1",
        checked: Checked::Same(1),
        written: b"esx session 2\nframes 20 page 16 slots 8 tau 75 levels 6 4 2 1 nodes 16777216\n511 admit 200 2 6 1 1000 0 50\n= ok memory 3/20 swap 4/8\nend 1\n",
        status: 0,
        progress: b"\r1 calls\n",
    },
    Row {
        text: "esx session 1\nframes 20 page 16 slots 8 tau 75 levels 6 4 2 1 nodes 16777216\nend 0\n",
        checked: Checked::Same(0),
        written: b"esx session 2\nframes 20 page 16 slots 8 tau 75 levels 6 4 2 1 nodes 16777216\nend 0\n",
        status: 0,
        progress: b"\r0 calls\n",
    },
    Row {
        text: "esx session 1\nframes 20 page 16 slots 8 tau 75 levels 6 4 2 1 nodes 16777216\n0 admit 0 2 6 1 1000 0\n= ok memory 3/20 swap 4/8\n0 start 0\n= ok frame 1 overhead 1/1 running\n0 sum\n= overhead 1 private 0 shared 0 free 19 high\nend 3\n",
        checked: Checked::Differs(2),
        written: b"differs 2\n",
        status: 1,
        progress: b"\r2 calls\n",
    },
];

/// Migrates the session of a text, and gives the end and the writer.
fn migrate<R: AllocGlobal + Threads + Wait + Sync, W: Write + Drop>(
    rt: &R,
    text: &'static [u8],
    writer: W,
) -> (Result<Done, Failure>, W) {
    let to: Option<&Stderr> = None;
    let streams = Streams {
        reader: b"".as_slice(),
        errors: Vec::new(rt.alloc()),
        writer,
    };
    let Ended { ended, streams } = run_over(rt, Asked::Migrate(taped(text, false)), to, streams);
    (ended, streams.writer)
}

/// The whole session is written, or the line of the difference alone.
#[test]
fn written_or_not(rt: HostRuntime) -> Result<(), Fail> {
    for row in &ROWS {
        let (ended, writer) = migrate(&rt, row.text.as_bytes(), Vec::new(rt.alloc()));
        let Ok(done) = ended else {
            panic!(rt; "the migration failed");
        };
        assert_eq!(rt; done, Done::Migrated(row.checked));
        assert_eq!(rt; done.status(), row.status);
        assert!(rt; writer.as_slice() == row.written);
    }
    Ok(())
}

/// What a migration comes to is the same with a terminal, with one that fails, and with none.
#[test]
fn told_or_not(rt: HostRuntime) -> Result<(), Fail> {
    let alloc = rt.alloc();
    for row in &ROWS {
        let Ok(session) = parse_session(alloc, row.text) else {
            return Err(Fail::new("the session"));
        };
        let screen = Screen::new(alloc, false);
        let broken = Screen::new(alloc, true);
        for to in [None, Some(&screen), Some(&broken)] {
            let checked = match migrate_watched(alloc, &session, to) {
                Ok(console) => Checked::Same(console.log().len() as u64),
                Err(MigrateFault::Differs(number)) => Checked::Differs(number),
                Err(MigrateFault::OutOfMemory) => return Err(Fail::new("memory")),
            };
            assert_eq!(rt; checked, row.checked);
        }
        let Ok(told) = screen.told.try_borrow() else {
            panic!(rt; "the screen is in use");
        };
        assert!(rt; told.as_slice() == row.progress);
    }
    Ok(())
}

/// A disk that is full holds a front of what is written, and then the session was not migrated.
#[test]
fn a_full_disk(rt: HostRuntime) {
    for row in &ROWS {
        let (ended, writer) = migrate(&rt, row.text.as_bytes(), disk(rt.alloc(), 4));
        assert!(rt; matches!(&ended, Err(Failure::Output(OutputFault::Write))));
        assert!(rt; writer.bytes.as_slice() == &row.written[..4]);
    }
}

/// What cannot be handed on is a fault of writing.
#[test]
fn a_writer_that_cannot_flush(rt: HostRuntime) {
    for row in &ROWS {
        let (ended, _) = migrate(&rt, row.text.as_bytes(), Stuck);
        assert!(rt; matches!(&ended, Err(Failure::Output(OutputFault::Write))));
    }
}

/// A bad line is the fault, also behind a difference, and so is what is no text.
#[test]
fn no_sessions(rt: HostRuntime) -> Result<(), Fail> {
    for (text, fault) in [
        (
            b"esx session 1\nframes 20 page 16 slots 8 tau 75 levels 6 4 2 1 nodes 16777216\n0 sum\n= ok\nend 2\n".as_slice(),
            TextFault::BadLine(5),
        ),
        (b"esx session 3\n".as_slice(), TextFault::BadLine(1)),
        (b"esx session 1\n\xff".as_slice(), TextFault::NotText),
    ] {
        let (ended, writer) = migrate(&rt, text, Vec::new(rt.alloc()));
        match ended {
            Err(Failure::Text(told)) => assert_eq!(rt; told, fault),
            _ => return Err(Fail::new("a session")),
        }
        assert!(rt; writer.is_empty());
    }
    Ok(())
}
