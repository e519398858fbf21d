//! The program's streams between ends that wait for answers, fail, or are interrupted.

use super::opening::Tape;
use super::run_over;
use esx_program::{Asked, Done, Ended, Failure, Streams};
use esx_text::{Manner, ServeFault};
use std::alloc::AllocGlobal;
use std::cell::RefCell;
use std::io::{self, ErrorKind, Read, Stderr, Write};
use std::rc::Rc;
use std::sync::Wait;
use std::test::Fail;
use std::thread::Threads;

const SUM: &[u8] = b"overhead 0 private 0 shared 0 free 20 high\n";

/// Serves a console between two ends, and gives the end and the writer.
fn serve<R: AllocGlobal + Threads + Wait + Sync, I: Read + Drop, W: Write + Drop>(
    rt: &R,
    reader: I,
    writer: W,
) -> (Result<Done, Failure>, W) {
    let file: Option<io::Result<Tape>> = None;
    let to: Option<&Stderr> = None;
    let streams = Streams {
        reader,
        errors: Vec::new(rt.alloc()),
        writer,
    };
    let asked = Asked::Console(file, Manner::Plain);
    let Ended { ended, streams } = run_over(rt, asked, to, streams);
    (ended, streams.writer)
}

/// What is asked next, and all that has to be written by then.
struct Turn {
    answers: &'static [u8],
    line: &'static [u8],
}

const TURNS: [Turn; 4] = [
    Turn {
        answers: b"",
        line: b"sum\nwhe",
    },
    Turn {
        answers: b"overhead 0 private 0 shared 0 free 20 high\n",
        line: b"re\n# one line and a half\n",
    },
    Turn {
        answers: b"overhead 0 private 0 shared 0 free 20 high\nat 0 depth 0 jumps 0\n",
        line: b"start 0",
    },
    Turn {
        answers: b"overhead 0 private 0 shared 0 free 20 high\nat 0 depth 0 jumps 0\n",
        line: b"",
    },
];

pub(super) type Screen = Rc<RefCell<Vec<u8>>>;

/// Asks for the next line only where all answers so far are on the screen, and fails otherwise.
#[derive(Drop)]
struct Person {
    screen: Screen,
    turn: usize,
}

impl Read for Person {
    fn read(&mut self, buffer: &mut [u8]) -> io::Result<usize> {
        let Some(turn) = TURNS.get(self.turn) else {
            return Err(io::Error::from(ErrorKind::Other));
        };
        let Ok(screen) = self.screen.try_borrow() else {
            return Err(io::Error::from(ErrorKind::Other));
        };
        if screen.as_slice() != turn.answers {
            return Err(io::Error::from(ErrorKind::Other));
        }
        let count = turn.line.len().min(buffer.len());
        let (line, _) = turn.line.split_at(count);
        buffer[..count].copy_from_slice(line);
        self.turn = self.turn.saturating_add(1);
        Ok(count)
    }
}

#[derive(Drop)]
pub(super) struct Terminal {
    pub(super) screen: Screen,
}

impl Write for Terminal {
    fn write(&mut self, bytes: &[u8]) -> io::Result<usize> {
        let Ok(mut screen) = self.screen.try_borrow_mut() else {
            return Err(io::Error::from(ErrorKind::Other));
        };
        screen.extend_from_slice(bytes)?;
        Ok(bytes.len())
    }

    fn flush(&mut self) -> io::Result<()> {
        Ok(())
    }
}

/// Whoever is asked for more input finds every answer written.
#[test]
fn answers_before_more_input(rt: HostRuntime) -> Result<(), Fail> {
    let screen: Screen = Rc::new(rt.alloc(), RefCell::new(Vec::new(rt.alloc())))?;
    let person = Person {
        screen: screen.clone()?,
        turn: 0,
    };
    let terminal = Terminal {
        screen: screen.clone()?,
    };
    let (ended, _) = serve(&rt, person, terminal);
    assert!(rt; matches!(&ended, Ok(Done::Served)));
    let Ok(written) = screen.try_borrow() else {
        panic!(rt; "the screen is in use");
    };
    assert!(rt;
        written.as_slice()
            == b"overhead 0 private 0 shared 0 free 20 high\nat 0 depth 0 jumps 0\nno 1 NoVm\n".as_slice()
    );
    Ok(())
}

/// Takes so many bytes, and then fails.
#[derive(Drop)]
pub(super) struct Disk {
    pub(super) room: usize,
    pub(super) bytes: Vec<u8>,
}

impl Write for Disk {
    fn write(&mut self, bytes: &[u8]) -> io::Result<usize> {
        if self.room == 0 {
            return Err(io::Error::from(ErrorKind::Other));
        }
        let count = bytes.len().min(self.room);
        let (front, _) = bytes.split_at(count);
        self.bytes.extend_from_slice(front)?;
        self.room -= count;
        Ok(count)
    }

    fn flush(&mut self) -> io::Result<()> {
        Ok(())
    }
}

/// Serves one `sum` onto a disk with so much room.
fn onto_disk<R: AllocGlobal + Threads + Wait + Sync>(
    rt: &R,
    room: usize,
) -> (Result<Done, Failure>, Vec<u8>) {
    let disk = Disk {
        room,
        bytes: Vec::new(rt.alloc()),
    };
    let (ended, disk) = serve(rt, b"sum\n".as_slice(), disk);
    (ended, disk.bytes)
}

/// A disk that is full at the last flush is a fault of writing.
#[test]
fn a_full_disk(rt: HostRuntime) -> Result<(), Fail> {
    for room in 0..SUM.len() {
        let (ended, bytes) = onto_disk(&rt, room);
        assert!(rt; matches!(&ended, Err(Failure::Serve(ServeFault::Write))));
        assert!(rt; bytes.as_slice() == &SUM[..room]);
    }
    let (ended, bytes) = onto_disk(&rt, SUM.len());
    assert!(rt; matches!(&ended, Ok(Done::Served)));
    assert!(rt; bytes.as_slice() == SUM);
    Ok(())
}

/// Takes all bytes, and cannot flush them.
#[derive(Drop)]
pub(super) struct Stuck;

impl Write for Stuck {
    fn write(&mut self, bytes: &[u8]) -> io::Result<usize> {
        Ok(bytes.len())
    }

    fn flush(&mut self) -> io::Result<()> {
        Err(io::Error::from(ErrorKind::Other))
    }
}

/// A writer that cannot flush is a fault of writing, also where there is nothing to answer.
#[test]
fn a_writer_that_cannot_flush(rt: HostRuntime) {
    let (ended, _) = serve(&rt, b"".as_slice(), Stuck);
    assert!(rt; matches!(&ended, Err(Failure::Serve(ServeFault::Write))));
}

/// An end whose every other call is interrupted, and which moves one byte at a time.
#[derive(Drop)]
struct Shaky<T: Drop> {
    end: T,
    is_ready: bool,
    flushes: usize,
}

impl<T: Drop> Shaky<T> {
    fn new(end: T) -> Shaky<T> {
        Shaky {
            end,
            is_ready: false,
            flushes: 0,
        }
    }

    /// Whether the call goes on.
    fn turn(&mut self) -> bool {
        self.is_ready = !self.is_ready;
        !self.is_ready
    }
}

impl<R: Read + Drop> Read for Shaky<R> {
    fn read(&mut self, buffer: &mut [u8]) -> io::Result<usize> {
        if self.turn() {
            let count = buffer.len().min(1);
            self.end.read(&mut buffer[..count])
        } else {
            Err(io::Error::from(ErrorKind::Interrupted))
        }
    }
}

impl<W: Write + Drop> Write for Shaky<W> {
    fn write(&mut self, bytes: &[u8]) -> io::Result<usize> {
        if self.turn() {
            let (front, _) = bytes.split_at(bytes.len().min(1));
            self.end.write(front)
        } else {
            Err(io::Error::from(ErrorKind::Interrupted))
        }
    }

    fn flush(&mut self) -> io::Result<()> {
        if self.turn() {
            self.flushes = self.flushes.saturating_add(1);
            self.end.flush()
        } else {
            Err(io::Error::from(ErrorKind::Interrupted))
        }
    }
}

/// An interrupted call is made again, and the writer is flushed before each read and at the end.
#[test]
fn interrupted_ends(rt: HostRuntime) -> Result<(), Fail> {
    let reader = Shaky::new(b"sum\n".as_slice());
    let writer = Shaky::new(Vec::new(rt.alloc()));
    let (ended, writer) = serve(&rt, reader, writer);
    assert!(rt; matches!(&ended, Ok(Done::Served)));
    assert!(rt; writer.end.as_slice() == SUM);
    // four bytes, and the end
    assert_eq!(rt; writer.flushes, 6);
    Ok(())
}

/// Gives bytes, and fails where it has no more.
#[derive(Drop)]
struct Cut {
    bytes: &'static [u8],
}

impl Read for Cut {
    fn read(&mut self, buffer: &mut [u8]) -> io::Result<usize> {
        if self.bytes.is_empty() {
            return Err(io::Error::from(ErrorKind::Other));
        }
        self.bytes.read(buffer)
    }
}

/// A reader that fails is a fault of reading, and the lines that ended before it are answered.
#[test]
fn a_broken_reader(rt: HostRuntime) -> Result<(), Fail> {
    let reader = Cut {
        bytes: b"sum\nstart 0",
    };
    let (ended, bytes) = serve(&rt, reader, Vec::new(rt.alloc()));
    assert!(rt; matches!(&ended, Err(Failure::Serve(ServeFault::Read))));
    assert!(rt; bytes.as_slice() == SUM);
    Ok(())
}
