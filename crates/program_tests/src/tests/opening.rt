//! The program's words, and the sites of scenarios in files.

use super::asking::streams;
use super::run_over;
use esx_program::{Asked, Ended, Failure, WordsFault, asked_of_words};
use esx_text::Manner;
use std::alloc::{AllocError, AllocGlobal, Global};
use std::io::{self, ErrorKind, Read, Stderr};
use std::sync::Wait;
use std::test::Fail;
use std::thread::Threads;

/// Reads words that are given in one line, with one space between each and the next.
pub fn words_of(alloc: Global, line: &str) -> Result<Vec<String>, AllocError> {
    let mut words = Vec::new(alloc);
    for word in line.split(' ') {
        words.push(String::from_str(alloc, word)?)?;
    }
    Ok(words)
}

/// What is asked for, `report` also where it is asked why, `echo` for a console that echoes, and the file.
fn word_and_file<'a>(asked: Asked<&'a str>) -> (&'static str, Option<&'a str>) {
    match asked {
        Asked::Console(file, Manner::Plain) => ("console", file),
        Asked::Console(file, Manner::Echoed) => ("echo", file),
        Asked::Record(file) => ("record", file),
        Asked::Run(file) => ("run", Some(file)),
        Asked::Replay(file) => ("replay", Some(file)),
        Asked::Check(file) => ("check", Some(file)),
        Asked::Diff(file) => ("diff", Some(file)),
        Asked::Migrate(file) => ("migrate", Some(file)),
        Asked::Report(file, _) => ("report", Some(file)),
        Asked::Help => ("help", None),
    }
}

#[test]
fn words(rt: HostRuntime) -> Result<(), Fail> {
    let alloc = rt.alloc();
    let rows = [
        ("esxplan", Ok(("console", None))),
        ("esxplan console", Ok(("console", None))),
        ("esxplan console a.toml", Ok(("console", Some("a.toml")))),
        ("esxplan console --", Ok(("console", None))),
        ("esxplan console -- -a", Ok(("console", Some("-a")))),
        ("esxplan console --echo", Ok(("echo", None))),
        ("esxplan console --echo a", Ok(("echo", Some("a")))),
        ("esxplan console a --echo", Ok(("echo", Some("a")))),
        ("esxplan console -- --echo", Ok(("console", Some("--echo")))),
        ("esxplan record", Ok(("record", None))),
        ("esxplan record a", Ok(("record", Some("a")))),
        ("esxplan run a", Ok(("run", Some("a")))),
        ("esxplan run", Err(WordsFault::Wrong)),
        ("esxplan replay a", Ok(("replay", Some("a")))),
        ("esxplan check a", Ok(("check", Some("a")))),
        ("esxplan diff a", Ok(("diff", Some("a")))),
        ("esxplan migrate a", Ok(("migrate", Some("a")))),
        ("esxplan report a", Ok(("report", Some("a")))),
        ("esxplan report help --at 0", Ok(("report", Some("help")))),
        ("esxplan why a 0", Ok(("report", Some("a")))),
        ("esxplan help", Ok(("help", None))),
        ("esxplan console help", Ok(("console", Some("help")))),
        ("esxplan check help", Ok(("check", Some("help")))),
        ("esxplan replay", Err(WordsFault::Wrong)),
        ("esxplan check", Err(WordsFault::Wrong)),
        ("esxplan diff", Err(WordsFault::Wrong)),
        ("esxplan migrate", Err(WordsFault::Wrong)),
        ("esxplan report", Err(WordsFault::Wrong)),
        ("esxplan why a", Err(WordsFault::Wrong)),
        ("esxplan check a b", Err(WordsFault::Wrong)),
        ("esxplan check --help", Err(WordsFault::Wrong)),
        ("esxplan console -a", Err(WordsFault::Wrong)),
        ("esxplan console a b", Err(WordsFault::Wrong)),
        ("esxplan console --echo --echo", Err(WordsFault::Wrong)),
        ("esxplan console --echo=true", Err(WordsFault::Wrong)),
        ("esxplan console --echo a b", Err(WordsFault::Wrong)),
        ("esxplan --echo", Err(WordsFault::Wrong)),
        ("esxplan record a b", Err(WordsFault::Wrong)),
        ("esxplan record --echo", Err(WordsFault::Wrong)),
        ("esxplan run a --echo", Err(WordsFault::Wrong)),
        ("esxplan Console", Err(WordsFault::Wrong)),
        ("esxplan a.toml", Err(WordsFault::Wrong)),
        ("esxplan --help", Err(WordsFault::Wrong)),
        ("esxplan help a", Err(WordsFault::Wrong)),
        ("esxplan help check", Err(WordsFault::Wrong)),
        ("esxplan help --help", Err(WordsFault::Wrong)),
        ("esxplan check a help", Err(WordsFault::Wrong)),
        ("esxplan console --help", Err(WordsFault::Wrong)),
    ];
    for (line, wanted) in &rows {
        let words = words_of(alloc, *line)?;
        let asked = match asked_of_words(alloc, words.as_slice()) {
            Ok(asked) => Ok(word_and_file(asked)),
            Err(fault) => Err(fault),
        };
        assert!(rt; asked == *wanted, "{line}");
    }
    Ok(())
}

/// Gives a text byte by byte, and fails behind it where it is told to.
#[derive(Drop)]
pub(super) struct Tape {
    pub(super) text: &'static [u8],
    pub(super) fails: bool,
}

impl Read for Tape {
    fn read(&mut self, buffer: &mut [u8]) -> io::Result<usize> {
        match self.text.split_first() {
            Some((first, rest)) => {
                if buffer.is_empty() {
                    return Ok(0);
                }
                buffer[0] = *first;
                self.text = rest;
                Ok(1)
            }
            None => {
                if self.fails {
                    Err(io::Error::from(ErrorKind::Other))
                } else {
                    Ok(0)
                }
            }
        }
    }
}

const SMALL: &[u8] = b"version = 1\n[machine]\nframes = 20\npage = 16\nslots = 8\n";

const OTHER: &[u8] = b"version = 2\n[machine]\nframes = 8\npage = 32\nslots = 0\nnodes = 2\n";

/// Serves one `sum` at the site of a file, and gives what is answered.
fn sum_at<R: AllocGlobal + Threads + Wait + Sync>(
    rt: &R,
    opened: io::Result<Tape>,
) -> Result<Vec<u8>, Failure> {
    let to: Option<&Stderr> = None;
    let Ended { ended, streams } = run_over(
        rt,
        Asked::Console(Some(opened), Manner::Plain),
        to,
        streams(rt.alloc()),
    );
    match ended {
        Ok(_) => Ok(streams.writer),
        Err(failure) => Err(failure),
    }
}

pub fn taped(text: &'static [u8], fails: bool) -> io::Result<Tape> {
    Ok(Tape { text, fails })
}

/// A console is served at the site of the scenario in its file.
#[test]
fn sites(rt: HostRuntime) {
    let rows = [
        (
            SMALL,
            b"overhead 0 private 0 shared 0 free 20 high\n".as_slice(),
        ),
        (
            OTHER,
            b"overhead 0 private 0 shared 0 free 8 high\n".as_slice(),
        ),
    ];
    for (text, answer) in &rows {
        let Ok(bytes) = sum_at(&rt, taped(*text, false)) else {
            panic!(rt; "a good scenario was refused");
        };
        assert!(rt; bytes.as_slice() == *answer);
    }
}

/// A file that has no scenario, that fails, or that was not opened is told so.
#[test]
fn no_sites(rt: HostRuntime) -> Result<(), Fail> {
    let alloc = rt.alloc();
    let rows = [
        (taped(SMALL, true), 1, "read fault"),
        (taped(b"version = 1\n\xff", false), 1, "bad text"),
        (taped(b"frames = ", false), 1, "bad toml"),
        (taped(b"version = 3", false), 1, "bad key version"),
        (Err(io::Error::from(ErrorKind::NotFound)), 1, "read fault"),
        (Err(io::Error::from(ErrorKind::OutOfMemory)), 3, "no memory"),
    ];
    for (opened, status, text) in rows {
        let Err(failure) = sum_at(&rt, opened) else {
            panic!(rt; "a bad scenario was taken");
        };
        assert_eq!(rt; failure.status(), status);
        assert_eq!(rt; failure.to_string(alloc)?.as_str(), text);
    }
    Ok(())
}
