//! Checks that tell how far they are, and checks that do not; and the words of the program.

use super::ends::Stuck;
use super::opening::taped;
use super::run_over;
use super::running::disk;
use esx_check::{Checked, Compared, OutputFault, check_session_through, diff_text_through};
use esx_program::{Asked, Done, Ended, Failure, Streams, check_watched, diff_watched, terminal};
use esx_reading::TextFault;
use esx_session::parse_session;
use esx_text::print_reply;
use esx_work::Gate;
use std::alloc::{AllocGlobal, Global};
use std::cell::RefCell;
use std::fmt::Display;
use std::io::{self, ErrorKind, IsTerminal, Print, Stderr, Write};
use std::sync::Wait;
use std::test::Fail;
use std::thread::Threads;

/// A session, what its check comes to, the line and the status that tell it, what is written where a difference is told
/// whole, and what a terminal is told on the way.
struct Row {
    text: &'static str,
    checked: Checked,
    line: &'static [u8],
    whole: &'static [u8],
    status: u8,
    progress: &'static [u8],
}

const ROWS: [Row; 3] = [
    Row {
        text: "esx session 2\nframes 20 page 16 slots 8 tau 75 levels 6 4 2 1 nodes 16777216\n0 admit 0 2 6 1 1000 0\n= ok memory 3/20 swap 4/8\n0 start 0\n= ok frame 0 overhead 1/1 running\n0 sum\n= overhead 1 private 0 shared 0 free 19 high\nend 3\n",
        checked: Checked::Same(3),
        line: b"same 3\n",
        whole: b"same 3\n",
        status: 0,
        progress: b"\r3 calls\n",
    },
    Row {
        text: "esx session 2\nframes 20 page 16 slots 8 tau 75 levels 6 4 2 1 nodes 16777216\n0 admit 0 2 6 1 1000 0\n= ok memory 3/20 swap 4/8\n0 start 0\n= ok frame 1 overhead 1/1 running\n0 sum\n= overhead 1 private 0 shared 0 free 19 high\nend 3\n",
        checked: Checked::Differs(2),
        line: b"differs 2\n",
        whole: b"differs 2\ncall: 0 start 0\ntold: ok frame 1 overhead 1/1 running\nmade: ok frame 0 overhead 1/1 running\n",
        status: 1,
        progress: b"\r2 calls\n",
    },
    // a reply of no words, in the place of one of several lines
    Row {
        text: "esx session 2\nframes 20 page 16 slots 8 tau 75 levels 6 4 2 1 nodes 16777216\n511 whatif start 0\n= \n= \nend 1\n",
        checked: Checked::Differs(1),
        line: b"differs 1\n",
        whole: b"differs 1\ncall: 511 whatif start 0\ntold: \ntold: \nmade: whatif 0/1\nmade: before overhead 0 private 0 shared 0 free 20 high\nmade: 1 no 1 NoVm\nmade: after overhead 0 private 0 shared 0 free 20 high\n",
        status: 1,
        progress: b"\r1 calls\n",
    },
];

/// A terminal that keeps what it was told, or that fails at each line.
#[derive(Drop)]
pub(super) struct Screen {
    alloc: Global,
    is_broken: bool,
    pub(super) told: RefCell<Vec<u8>>,
}

impl Screen {
    pub(super) fn new(alloc: Global, is_broken: bool) -> Screen {
        Screen {
            alloc,
            is_broken,
            told: RefCell::new(Vec::new(alloc)),
        }
    }
}

impl Print for Screen {
    fn print<D: Display + Drop>(&self, value: D) -> io::Result<()> {
        let text = format!(in self.alloc; "{value}")?;
        self.write_all(text.as_bytes())
    }

    fn println<D: Display + Drop>(&self, value: D) -> io::Result<()> {
        let text = format!(in self.alloc; "{value}\n")?;
        self.write_all(text.as_bytes())
    }

    fn write_all(&self, bytes: &[u8]) -> io::Result<()> {
        if self.is_broken {
            return Err(io::Error::from(ErrorKind::Other));
        }
        let Ok(mut told) = self.told.try_borrow_mut() else {
            return Err(io::Error::from(ErrorKind::Other));
        };
        told.extend_from_slice(bytes)?;
        Ok(())
    }
}

/// Does what is asked for, and gives the end and the writer.
fn done_to<R: AllocGlobal + Threads + Wait + Sync, W: Write + Drop>(
    rt: &R,
    asked: Asked<io::Result<&'static [u8]>>,
    writer: W,
) -> (Result<Done, Failure>, W) {
    let to: Option<&Stderr> = None;
    let streams = Streams {
        reader: b"".as_slice(),
        errors: Vec::new(rt.alloc()),
        writer,
    };
    let Ended { ended, streams } = run_over(rt, asked, to, streams);
    (ended, streams.writer)
}

/// A check of the session of a text.
fn check_of(text: &'static str) -> Asked<io::Result<&'static [u8]>> {
    Asked::Check(Ok(text.as_bytes()))
}

/// The same, with a difference told whole.
fn diff_of(text: &'static str) -> Asked<io::Result<&'static [u8]>> {
    Asked::Diff(Ok(text.as_bytes()))
}

/// What a check comes to and its line are the same with a terminal, with one that fails, and with none.
#[test]
fn told_or_not(rt: HostRuntime) -> Result<(), Fail> {
    let alloc = rt.alloc();
    for row in &ROWS {
        let screen = Screen::new(alloc, false);
        let broken = Screen::new(alloc, true);
        for to in [None, Some(&screen), Some(&broken)] {
            assert_eq!(rt; check_watched(alloc, row.text, to), Ok(row.checked));
        }
        for (asked, wanted, written) in [
            (check_of(row.text), Done::Checked(row.checked), row.line),
            (diff_of(row.text), Done::Compared(row.checked), row.whole),
        ] {
            let (ended, writer) = done_to(&rt, asked, Vec::new(alloc));
            let Ok(done) = ended else {
                panic!(rt; "the check failed");
            };
            assert_eq!(rt; done, wanted);
            assert_eq!(rt; done.status(), row.status);
            assert!(rt; writer.as_slice() == written);
        }
        let Ok(told) = screen.told.try_borrow() else {
            panic!(rt; "the screen is in use");
        };
        assert!(rt; told.as_slice() == row.progress);
    }
    Ok(())
}

/// A gate that lets nothing through, and tells how often it was passed, and whether each turn was the next.
#[derive(Drop)]
struct Closed {
    turns: u32,
    in_order: bool,
}

impl Gate for Closed {
    fn pass_through(&mut self, turn: u32) -> bool {
        self.turns = self.turns.wrapping_add(1);
        self.in_order = self.in_order && turn == self.turns;
        false
    }
}

/// A gate is passed once for each call that is made, also where it lets nothing through.
#[test]
fn turns_of_a_gate(rt: HostRuntime) -> Result<(), Fail> {
    let alloc = rt.alloc();
    for row in &ROWS {
        let Ok(session) = parse_session(alloc, row.text) else {
            return Err(Fail::new("the session"));
        };
        let mut gate = Closed {
            turns: 0,
            in_order: true,
        };
        let checked = check_session_through(alloc, session, &mut gate)?;
        assert_eq!(rt; checked, row.checked);
        let (Checked::Same(calls) | Checked::Differs(calls)) = checked;
        assert_eq!(rt; u64::from(gate.turns), calls);
        assert!(rt; gate.in_order);
    }
    Ok(())
}

/// A difference has the call with the reply that stands there, and the reply that it has. The gate is passed as by a check.
#[test]
fn a_difference(rt: HostRuntime) -> Result<(), Fail> {
    let mut gate = Closed {
        turns: 0,
        in_order: true,
    };
    let compared = diff_text_through(rt.alloc(), ROWS[1].text, &mut gate);
    let Ok(Compared::Differs(difference)) = compared else {
        return Err(Fail::new("the same"));
    };
    assert_eq!(rt; difference.number, 2);
    assert_eq!(rt; difference.entry.caller, 0);
    assert!(rt;
        difference.entry.reply.as_slice() == b"ok frame 1 overhead 1/1 running\n".as_slice()
    );
    let made = print_reply(rt.alloc(), &difference.reply)?;
    assert_eq!(rt; made.as_str(), "ok frame 0 overhead 1/1 running\n");
    assert_eq!(rt; gate.turns, 2);
    assert!(rt; gate.in_order);
    Ok(())
}

/// What is told on the way to a difference is what a check tells.
#[test]
fn differences_told_or_not(rt: HostRuntime) -> Result<(), Fail> {
    let alloc = rt.alloc();
    for row in &ROWS {
        let screen = Screen::new(alloc, false);
        for to in [None, Some(&screen)] {
            let Ok(compared) = diff_watched(alloc, row.text, to) else {
                return Err(Fail::new("the session"));
            };
            assert_eq!(rt; compared.checked(), row.checked);
        }
        let Ok(told) = screen.told.try_borrow() else {
            panic!(rt; "the screen is in use");
        };
        assert!(rt; told.as_slice() == row.progress);
    }
    Ok(())
}

/// The words of the program begin with that which needs no file.
#[test]
fn help(rt: HostRuntime) {
    let (ended, writer) = done_to(&rt, Asked::Help, Vec::new(rt.alloc()));
    let Ok(done) = ended else {
        panic!(rt; "there is no help");
    };
    assert_eq!(rt; done, Done::Helped);
    assert_eq!(rt; done.status(), 0);
    assert!(rt; writer.as_slice().starts_with(b"console ".as_slice()));
    assert!(rt; writer.as_slice().ends_with(b"esxplan help\n".as_slice()));
}

/// A disk that is full holds a front of what is written, and then it was not told.
#[test]
fn a_full_disk(rt: HostRuntime) {
    for row in &ROWS {
        for (asked, written) in [
            (check_of(row.text), row.line),
            (diff_of(row.text), row.whole),
            (Asked::Help, b"console".as_slice()),
        ] {
            let (ended, writer) = done_to(&rt, asked, disk(rt.alloc(), 4));
            assert!(rt; matches!(&ended, Err(Failure::Output(OutputFault::Write))));
            assert_eq!(rt; writer.bytes.len(), 4);
            assert!(rt; written.starts_with(writer.bytes.as_slice()));
        }
    }
}

/// What cannot be handed on is a fault of writing.
#[test]
fn a_writer_that_cannot_flush(rt: HostRuntime) {
    for row in &ROWS {
        for asked in [check_of(row.text), diff_of(row.text), Asked::Help] {
            let (ended, _) = done_to(&rt, asked, Stuck);
            assert!(rt; matches!(&ended, Err(Failure::Output(OutputFault::Write))));
        }
    }
}

/// A bad line behind a difference is the fault, also of a check.
#[test]
fn a_bad_line_behind_a_difference(rt: HostRuntime) {
    let alloc = rt.alloc();
    let text =
        "esx session 2\nframes 20 page 16 slots 8 tau 75 levels 6 4 2 1 nodes 16777216\n0 sum\n= ok\nend 2\n";
    let to: Option<&Screen> = None;
    assert_eq!(rt; check_watched(alloc, text, to), Err(TextFault::BadLine(5)));
}

/// Where lines may go, which is a terminal or not.
struct Lines {
    is_terminal: bool,
}

impl IsTerminal for Lines {
    fn is_terminal(&self) -> bool {
        self.is_terminal
    }
}

/// Nothing is told on the way where there is no terminal.
#[test]
fn terminals(rt: HostRuntime) {
    assert!(rt; terminal(&Lines { is_terminal: true }).is_some());
    assert!(rt; terminal(&Lines { is_terminal: false }).is_none());
}

/// What a replay of a file that has no session is refused with.
fn fault_of<R: AllocGlobal + Threads + Wait + Sync>(
    rt: &R,
    text: &'static [u8],
    fails: bool,
) -> Result<TextFault, Fail> {
    let to: Option<&Stderr> = None;
    let streams = Streams {
        reader: b"".as_slice(),
        errors: Vec::new(rt.alloc()),
        writer: Vec::new(rt.alloc()),
    };
    let Ended { ended, streams } = run_over(rt, Asked::Replay(taped(text, fails)), to, streams);
    match ended {
        Err(Failure::Text(fault)) if streams.writer.is_empty() => Ok(fault),
        _ => Err(Fail::new("a session")),
    }
}

#[test]
fn no_sessions(rt: HostRuntime) -> Result<(), Fail> {
    assert_eq!(rt; fault_of(&rt, b"", false)?, TextFault::BadLine(1));
    assert_eq!(rt;
        fault_of(&rt, b"esx session 2\n", false)?,
        TextFault::BadLine(2)
    );
    assert_eq!(rt;
        fault_of(&rt, b"esx session 2\n\xff", false)?,
        TextFault::NotText
    );
    assert_eq!(rt; fault_of(&rt, b"esx session 2\n", true)?, TextFault::Read);
    Ok(())
}
