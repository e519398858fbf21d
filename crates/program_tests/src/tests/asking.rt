//! What words ask for, done on streams in memory.

use super::opening::words_of;
use esx_program::{Done, Ended, Streams, run_words};
use std::alloc::Global;
use std::io::Stderr;
use std::test::Fail;

const SUM: &[u8] = b"overhead 0 private 0 shared 0 free 20 high\n";

pub fn streams(alloc: Global) -> Streams<&'static [u8], Vec<u8>, Vec<u8>> {
    Streams {
        reader: b"sum\n".as_slice(),
        errors: Vec::new(alloc),
        writer: Vec::new(alloc),
    }
}

/// A console answers what is read, and tells of nothing else.
#[test]
fn a_console(rt: HostRuntime) -> Result<(), Fail> {
    let alloc = rt.alloc();
    let words = words_of(alloc, "esxplan console")?;
    let to: Option<&Stderr> = None;
    let done = run_words(&rt, words.as_slice(), to, streams(alloc));
    assert!(rt; matches!(&done.ended, Ok(Done::Served)));
    assert!(rt; done.streams.reader.is_empty() && done.streams.errors.is_empty());
    assert!(rt; done.streams.writer.as_slice() == SUM);
    Ok(())
}

/// Where there is no such file, or the words ask for nothing, nothing is read or written.
#[test]
fn nothing_done(rt: HostRuntime) -> Result<(), Fail> {
    let alloc = rt.alloc();
    let to: Option<&Stderr> = None;
    let rows = [
        ("esxplan console none/a", 1),
        ("esxplan run none/a", 1),
        ("esxplan replay none/a", 1),
        ("esxplan check none/a", 1),
        ("esxplan report none/a --csv site", 1),
        ("esxplan why none/a 0", 1),
        ("esxplan run", 2),
        ("esxplan report none/a --csv all", 2),
        ("esxplan why none/a", 2),
        ("esxplan help a", 2),
    ];
    for (line, status) in &rows {
        let words = words_of(alloc, *line)?;
        let Ended {
            ended,
            streams: left,
        } = run_words(&rt, words.as_slice(), to, streams(alloc));
        let Err(failure) = ended else {
            panic!(rt; "there is such a file");
        };
        assert_eq!(rt; failure.status(), *status);
        let Streams {
            reader,
            errors,
            writer,
        } = left;
        assert!(rt; reader == b"sum\n".as_slice());
        assert!(rt; errors.is_empty() && writer.is_empty());
    }
    Ok(())
}
