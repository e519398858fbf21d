//! Questions about sessions, answered or not.

use super::ends::Stuck;
use super::opening::{taped, words_of};
use super::run_over;
use super::running::disk;
use esx_check::OutputFault;
use esx_events::{Name, Refusal};
use esx_paths::At;
use esx_program::{Asked, Done, Ended, Failure, Streams, WordsFault, asked_of_words};
use esx_reading::TextFault;
use esx_reports::{Question, ReportFault, Table, What};
use std::alloc::{AllocError, AllocGlobal, Global};
use std::io::{Stderr, Write};
use std::sync::Wait;
use std::test::Fail;
use std::thread::Threads;

/// A machine that brings a page, and then stops and gives it back, or not: there is a branch.
const TEXT: &str =
    "esx session 2\nframes 20 page 16 slots 8 tau 75 levels 6 4 2 1 nodes 16777216\n0 admit 0 1 3 1 5 0\n= ok memory 2/20 swap 2/8\n0 start 0\n= ok frame 0 overhead 1/1 running\n511 read 0 2 0 1\n= ok 00\n0 stop 0\n= ok\n0 drop 0 2\n= ok\n0 mark left\n= ok mark left at 5\n0 undo 2\n= at 3 depth 3 jumps 1\nend 7\n";

const OTHER: &str =
    "esx session 2\nframes 20 page 16 slots 8 tau 75 levels 6 4 2 1 nodes 16777216\n0 sum\n= overhead 0 private 0 shared 0 free 21 high\nend 1\n";

const HEAD: &[u8] =
    b"event,node,call,by,vm,life,page,how,level,free,here,target,set,need,revoked,from_vm,shares,active,tax,ratio,above,rank,next,next_ratio,slot,back,as,after,waits\n";

const LOSSES: &[u8] =
    b"event,node,call,by,vm,life,page,how,level,free,here,target,set,need,revoked,from_vm,shares,active,tax,ratio,above,rank,next,next_ratio,slot,back,as,after,waits\n5,5,5,0,0,1,2,drop,high,18,1,3,0,,,,5,65536,75,5.000,0,,,,,,,,0\n";

const WHY: &[u8] =
    b"esx why 1\nlosses 1\nEvent 5 (caller 0: drop 0 2): guest 0 lost page 2: given back by the stopping guest.\n  It did not come back on this path.\n";

const NOTHING: &[u8] = b"esx why 1\nlosses 0\n";

/// The node of this name.
fn named(alloc: Global, name: &str) -> Result<At, Fail> {
    match Name::new(alloc, name) {
        Ok(Some(name)) => Ok(At::Name { name }),
        _ => Err(Fail::new("a name")),
    }
}

fn question(at: At, what: What) -> Question {
    Question { at, what }
}

/// Asks about the session of a text, and gives the end and the writer.
fn answer<R: AllocGlobal + Threads + Wait + Sync, W: Write + Drop>(
    rt: &R,
    text: &'static str,
    question: Question,
    writer: W,
) -> (Result<Done, Failure>, W) {
    let to: Option<&Stderr> = None;
    let streams = Streams {
        reader: b"".as_slice(),
        errors: Vec::new(rt.alloc()),
        writer,
    };
    let opened = taped(text.as_bytes(), false);
    let Ended { ended, streams } = run_over(rt, Asked::Report(opened, question), to, streams);
    (ended, streams.writer)
}

const LOST: What = What::Table {
    table: Table::Losses,
};

const WHY_LEFT: What = What::Why {
    vm: 0,
    page: Some(2),
};

/// Each node has its answer, by its number, by its name, and as the one where the session ends.
#[test]
fn answers(rt: HostRuntime) -> Result<(), Fail> {
    let alloc = rt.alloc();
    let rows = [
        (At::End, LOST, HEAD),
        (At::Node { node: 5 }, LOST, LOSSES),
        (named(alloc, "left")?, LOST, LOSSES),
        (At::Node { node: 5 }, WHY_LEFT, WHY),
        (At::Node { node: 3 }, WHY_LEFT, NOTHING),
    ];
    for (at, what, written) in rows {
        let (ended, writer) = answer(&rt, TEXT, question(at, what), Vec::new(alloc));
        let Ok(done) = ended else {
            panic!(rt; "it has an answer");
        };
        assert_eq!(rt; done, Done::Answered(what));
        assert_eq!(rt; done.status(), 0);
        assert!(rt; writer.as_slice() == written);
    }
    Ok(())
}

/// What is told of a question that has no answer, of which nothing is written.
fn refusal<R: AllocGlobal + Threads + Wait + Sync>(
    rt: &R,
    text: &'static str,
    at: At,
    what: What,
) -> Option<ReportFault> {
    let (ended, writer) = answer(rt, text, question(at, what), Vec::new(rt.alloc()));
    match ended {
        Err(Failure::Report(fault)) if writer.is_empty() => Some(fault),
        _ => None,
    }
}

/// A difference is told before a node is looked for, the node before the machine, and the machine before its page.
#[test]
fn no_answers(rt: HostRuntime) -> Result<(), Fail> {
    let alloc = rt.alloc();
    let nobody = What::Why {
        vm: 1,
        page: Some(9),
    };
    let none = What::Why {
        vm: 0,
        page: Some(3),
    };
    let rows = [
        (
            OTHER,
            named(alloc, "right")?,
            nobody,
            ReportFault::Differs(1),
        ),
        (
            TEXT,
            named(alloc, "right")?,
            nobody,
            ReportFault::Refused(Refusal::NoSuchName),
        ),
        (
            TEXT,
            At::Node { node: 6 },
            nobody,
            ReportFault::Refused(Refusal::NoSuchNode),
        ),
        (
            TEXT,
            At::Node { node: 0 },
            WHY_LEFT,
            ReportFault::Refused(Refusal::NoVm),
        ),
        (TEXT, At::End, nobody, ReportFault::Refused(Refusal::NoVm)),
        (
            TEXT,
            At::End,
            none,
            ReportFault::Refused(Refusal::OutOfRange),
        ),
        (
            "esx session 3\n",
            At::End,
            LOST,
            ReportFault::Text(TextFault::BadLine(1)),
        ),
    ];
    for (text, at, what, fault) in rows {
        assert!(rt; refusal(&rt, text, at, what) == Some(fault));
    }
    Ok(())
}

/// A disk that is full holds a front of what is written, and then it was not told.
#[test]
fn a_full_disk(rt: HostRuntime) {
    for (what, written) in [(LOST, LOSSES), (WHY_LEFT, WHY)] {
        let asked = question(At::Node { node: 5 }, what);
        let (ended, writer) = answer(&rt, TEXT, asked, disk(rt.alloc(), 9));
        assert!(rt;
            matches!(
                &ended,
                Err(Failure::Report(ReportFault::Output(OutputFault::Write)))
            )
        );
        assert!(rt; writer.bytes.as_slice() == &written[..9]);
    }
}

/// What cannot be handed on is a fault of writing.
#[test]
fn a_writer_that_cannot_flush(rt: HostRuntime) {
    let (ended, _) = answer(&rt, TEXT, question(At::End, What::Report), Stuck);
    assert!(rt;
        matches!(
            &ended,
            Err(Failure::Report(ReportFault::Output(OutputFault::Write)))
        )
    );
}

/// What words ask about a session: the node's number if one is named, and what is to be told.
fn asked(alloc: Global, line: &str) -> Result<Option<(Option<u32>, What)>, AllocError> {
    let words = words_of(alloc, line)?;
    match asked_of_words(alloc, words.as_slice()) {
        Ok(Asked::Report("a", Question { at, what })) => match at {
            At::End => Ok(Some((None, what))),
            At::Node { node } => Ok(Some((Some(node), what))),
            At::Name { name } => Ok(Some((Some(name.as_str().len() as u32), what))),
        },
        Err(WordsFault::OutOfMemory) => Err(AllocError),
        _ => Ok(None),
    }
}

/// The questions that words ask. Of a name the row has its length.
#[test]
fn words(rt: HostRuntime) -> Result<(), Fail> {
    let site = What::Table { table: Table::Site };
    let guests = What::Table {
        table: Table::Guests,
    };
    let whole = What::Why {
        vm: 300,
        page: None,
    };
    let rows = [
        ("esxplan report a", Some((None, What::Report))),
        ("esxplan report a --at 7", Some((Some(7), What::Report))),
        ("esxplan report --at left a", Some((Some(4), What::Report))),
        ("esxplan report --csv losses a", Some((None, LOST))),
        ("esxplan report --csv site a --at 0", Some((Some(0), site))),
        (
            "esxplan report a --at 1 --csv guests",
            Some((Some(1), guests)),
        ),
        (
            "esxplan report a --csv changes",
            Some((None, What::Changes)),
        ),
        (
            "esxplan report --csv steps a --at 3",
            Some((Some(3), What::Steps)),
        ),
        ("esxplan why a 300", Some((None, whole))),
        (
            "esxplan why --at 4294967295 a 0 2",
            Some((Some(u32::MAX), WHY_LEFT)),
        ),
        ("esxplan why a 0 --at 5 2", Some((Some(5), WHY_LEFT))),
        ("esxplan report", None),
        ("esxplan report a b", None),
        ("esxplan report a --csv step", None),
        ("esxplan report a --at 07", None),
        ("esxplan report a --at Left", None),
        ("esxplan report a --at 1 --at 1", None),
        ("esxplan report a --csv", None),
        ("esxplan why a", None),
        ("esxplan why a x", None),
        ("esxplan why a 00", None),
        ("esxplan why a 0 4294967296", None),
        ("esxplan why a 0 1 2", None),
        ("esxplan why a 0 --csv site", None),
        ("esxplan check a --at 0", None),
    ];
    for (line, wanted) in &rows {
        assert!(rt; asked(rt.alloc(), *line)? == *wanted, "{line}");
    }
    Ok(())
}
