//! A session as it stands in the format; texts written by hand: the session of one, and the lines at which others
//! are none.

use crate::tests::table::{SUM, table};
use esx_events::{
    Answer, Boxed, Call, Event, Line, Name, NameRow, Refusal, Reply, Said, Sides, Stand,
};
use esx_reading::TextFault;
use esx_session::{Calls, open_calls, parse_script, parse_session, print_session};
use esx_types::{Config, Rows, VmId};
use esx_words::parse_command;
use std::alloc::Global;
use std::rt::HostRuntime;
use std::test::Fail;

const SITE: Config = Config {
    frames: 20,
    page: 16,
    slots: 8,
    tau: 75,
    high: 6,
    soft: 4,
    hard: 2,
    low: 1,
    nodes: 16777216,
};

const SESSION: &str =
    "esx session 2\nframes 20 page 16 slots 8 tau 75 levels 6 4 2 1 nodes 16777216\n3 undo 1\n= at 2 depth 1 jumps 7\n511 table\n=  vm state        min     max  target    here    lent     out  shares  active\n=   0 running        2       6       6       1       0       0    1000   65536\n= overhead 1 private 1 shared 0 free 18 high\n0 marks\n= marks 1\n= base 2\n0 whatif gone 0; ask 1\n= whatif 1/2\n= before overhead 1 private 1 shared 0 free 18 high\n= 1 ok gone\n= 2 no 1 NoVm\n= after overhead 1 private 1 shared 0 free 18 high\nend 4\n";

/// A line of a log: the caller, the call, and what is said to it after 7 jumps.
fn line(caller: u16, call: Call, said: Said) -> Line {
    Line {
        caller,
        call,
        reply: Reply { jumps: 7, said },
    }
}

/// One mark.
fn marks(alloc: Global, name: Name) -> Result<Said, Fail> {
    let mut rows = Vec::new(alloc);
    rows.push(NameRow { name, node: 2 })?;
    Ok(Said::Marks {
        marks: Boxed::new(alloc, Rows::from_vec(rows))?,
    })
}

/// Two events that were tried, the second of which was refused.
fn sides(alloc: Global) -> Result<Said, Fail> {
    let mut replies = Vec::new(alloc);
    replies.push(Ok(Answer::Gone))?;
    replies.push(Err(Refusal::NoVm))?;
    let sides = Sides {
        given: 2,
        before: SUM,
        replies: Rows::from_vec(replies),
        after: SUM,
    };
    Ok(Said::Sides {
        sides: Boxed::new(alloc, sides)?,
    })
}

#[test]
fn a_session(rt: HostRuntime) -> Result<(), Fail> {
    let alloc = rt.alloc();
    let name = Name::new(alloc, "base")?.expect(&rt, "a name");
    let tried = parse_command(alloc, "whatif gone 0; ask 1")?.expect(&rt, "a command");
    let stand = Stand { node: 2, depth: 1 };
    let mut log = Vec::new(alloc);
    log.push(line(3, Call::Undo { count: 1 }, Said::Stand { stand }))?;
    log.push(line(511, Call::Table, table(alloc, VmId::new(0))?))?;
    log.push(line(0, Call::Marks, marks(alloc, name)?))?;
    log.push(line(0, tried, sides(alloc)?))?;
    let text = print_session(alloc, &SITE, log.as_slice())?;
    assert!(rt; text.as_str() == SESSION);
    Ok(())
}

/// The calls of a text, none of which is read yet.
fn calls_of(text: &str) -> Result<Calls<'_>, Fail> {
    let Ok((_, calls)) = open_calls(text) else {
        return Err(Fail::new("the opening"));
    };
    Ok(calls)
}

/// The calls of a text come one by one, and behind them the end, as often as it is asked for.
#[test]
fn calls_one_by_one(rt: HostRuntime) -> Result<(), Fail> {
    let alloc = rt.alloc();
    let mut calls = calls_of(SESSION)?;
    for caller in [3, 511, 0, 0] {
        let Ok(Some(entry)) = calls.next(alloc) else {
            return Err(Fail::new("a call"));
        };
        assert_eq!(rt; entry.caller, caller);
    }
    assert!(rt; matches!(calls.next(alloc), Ok(None)));
    assert!(rt; matches!(calls.next(alloc), Ok(None)));
    Ok(())
}

/// A reader stays at a bad line.
#[test]
fn calls_before_a_bad_line(rt: HostRuntime) -> Result<(), Fail> {
    let alloc = rt.alloc();
    let text = format!(in alloc; "{OPENING}{CALLS}end 3\n")?;
    let mut calls = calls_of(text.as_str())?;
    assert!(rt; matches!(calls.next(alloc), Ok(Some(_))));
    assert!(rt; matches!(calls.next(alloc), Ok(Some(_))));
    assert!(rt; matches!(calls.next(alloc), Err(TextFault::BadLine(8))));
    assert!(rt; matches!(calls.next(alloc), Err(TextFault::BadLine(8))));
    Ok(())
}

/// The lines before the first call.
const OPENING: &str =
    "esx session 2\nframes 20 page 16 slots 8 tau 75 levels 6 4 2 1 nodes 16777216\n";

/// The same in version 1.
const OPENING_OF_ONE: &str =
    "esx session 1\nframes 20 page 16 slots 8 tau 75 levels 6 4 2 1 nodes 16777216\n";

/// Two calls with their replies.
const CALLS: &str =
    "0 admit 0 2 6 1 1000 0\n= ok memory 3/20 swap 4/8\n63 start 0\n= ok frame 0 overhead 1/1 running\n= \n";

/// Texts of three parts, and the line at which each is no session: 0 where it is one.
const TEXTS: [(&str, &str, &str, u64); 27] = [
    ("", "", "", 1),
    ("esx session 0\n", "", "", 1),
    ("esx session 3\n", "", "", 1),
    ("esx session 02\n", "", "", 1),
    ("esx session 1\n", "", "", 2),
    ("esx session 2\n", "", "", 2),
    (
        "esx session 1\nframes 2097152 page 16 slots 8 tau 75 levels 6 4 2 1 nodes 1\n",
        "",
        "end 0\n",
        2,
    ),
    (
        "esx session 1\nframes 20 page 16 slots 08 tau 75 levels 6 4 2 1 nodes 1\n",
        "",
        "end 0\n",
        2,
    ),
    (OPENING, "", "", 3),
    (OPENING, "", "end 0", 0),
    (OPENING_OF_ONE, "", "end 0", 0),
    (OPENING, "= ok\n", "end 0\n", 3),
    (OPENING, "00 sum\n= ok\n", "end 1\n", 3),
    (OPENING, "0  sum\n= ok\n", "end 1\n", 3),
    (OPENING, "0 sum\n", "end 1\n", 4),
    (OPENING, "0 sum\n=\n", "end 1\n", 4),
    (OPENING, "0 sum\n= \u{e4}\n", "end 1\n", 4),
    (OPENING, "0 sum\n= ok\n= \u{e4}\n", "end 1\n", 5),
    (OPENING, "0 sum\n= ok\n\n", "end 1\n", 5),
    (OPENING, CALLS, "", 8),
    (OPENING, CALLS, "end 3\n", 8),
    (OPENING, CALLS, "end 02\n", 8),
    (OPENING, CALLS, "end 2\n", 0),
    (OPENING, CALLS, "end 2\r\n", 0),
    (OPENING, CALLS, "end 2\r", 8),
    (OPENING, CALLS, "end 2\n\n", 9),
    (OPENING, CALLS, "end 2\n0 sum\n= ok\nend 3\n", 9),
];

/// The line of a fault; 0 where there is none.
fn line_of<T: Drop>(read: Result<T, TextFault>) -> u64 {
    match read {
        Ok(_) => 0,
        Err(TextFault::BadLine(line)) => line,
        Err(_) => u64::MAX,
    }
}

#[test]
fn lines(rt: HostRuntime) -> Result<(), Fail> {
    let alloc = rt.alloc();
    for (site, calls, end, line) in &TEXTS {
        let text = format!(in alloc; "{site}{calls}{end}")?;
        assert_eq!(rt; line_of(parse_session(alloc, &text)), *line);
        assert_eq!(rt; line_of(parse_script(alloc, &text)), *line);
    }
    Ok(())
}

/// Calls, and the lines at which texts with them are no sessions, of version 1 and of version 2: 0 where they are.
const LIMITS: [(&str, u64, u64); 22] = [
    ("admit 31 2 6 1 1000 0", 0, 0),
    ("admit 32 2 6 1 1000 0", 3, 0),
    ("admit 0 2 6 1 1000 0 0", 3, 0),
    ("admit 0 2 6 1 1000 0 4294967295", 3, 0),
    ("admit 0 2 6 1 1000 0 0 0", 3, 3),
    ("vmtax 0 20", 3, 0),
    ("vmtax 255 99", 3, 0),
    ("tax 20", 0, 0),
    ("shares 31 1", 0, 0),
    ("shares 32 1", 3, 0),
    ("write 32 0 0 00", 3, 0),
    ("sample 32 1", 3, 0),
    ("start 255", 3, 0),
    ("start 256", 3, 3),
    ("vm 32", 3, 0),
    ("page 32 0", 3, 0),
    ("advise 32 0", 3, 0),
    ("whatif tax 20; ask 31", 0, 0),
    ("whatif tax 20; ask 32", 3, 0),
    ("whatif tax 20; vmtax 0 20", 3, 0),
    ("whatif admit 0 2 6 1 1000 0 0; ask 0", 3, 0),
    ("whatif admit 0 2 6 1 1000 0; ask 0", 0, 0),
];

/// Callers, and the same.
const CALLERS: [(u16, u64, u64); 4] = [(63, 0, 0), (64, 3, 0), (511, 3, 0), (512, 3, 3)];

/// The line at which the text of one call behind an opening is no session; 0 where it is one.
fn line_of_call(alloc: Global, opening: &str, caller: u16, call: &str) -> Result<u64, Fail> {
    let text = format!(in alloc; "{opening}{caller} {call}\n= ok\nend 1\n")?;
    let line = line_of(parse_session(alloc, &text));
    if line_of(parse_script(alloc, &text)) != line {
        return Err(Fail::new("the same line of a script"));
    }
    Ok(line)
}

/// The first line of a text says which machines, taxes and callers it may have.
#[test]
fn limits_of_versions(rt: HostRuntime) -> Result<(), Fail> {
    let alloc = rt.alloc();
    for (call, one, two) in &LIMITS {
        assert_eq!(rt; line_of_call(alloc, OPENING_OF_ONE, 0, call)?, *one);
        assert_eq!(rt; line_of_call(alloc, OPENING, 0, call)?, *two);
    }
    for (caller, one, two) in &CALLERS {
        assert_eq!(rt; line_of_call(alloc, OPENING_OF_ONE, *caller, "sum")?, *one);
        assert_eq!(rt; line_of_call(alloc, OPENING, *caller, "sum")?, *two);
    }
    Ok(())
}

#[test]
fn session(rt: HostRuntime) -> Result<(), Fail> {
    let alloc = rt.alloc();
    let text = format!(in alloc; "{OPENING}{CALLS}end 2\n")?;
    let session = parse_session(alloc, &text)?;
    assert_eq!(rt; session.site().slots, 8);
    assert_eq!(rt; session.entries().len(), 2);
    let entry = &session.entries()[1];
    assert_eq!(rt; entry.caller, 63);
    assert!(rt;
        matches!(
            &entry.call,
            Call::Do {
                event: Event::Start { .. }
            }
        )
    );
    assert_eq!(rt;
        entry.reply.as_slice(),
        b"ok frame 0 overhead 1/1 running\n\n".as_slice()
    );
    Ok(())
}

/// The site and the calls are the same where the replies are left out.
#[test]
fn script(rt: HostRuntime) -> Result<(), Fail> {
    let alloc = rt.alloc();
    let text = format!(in alloc; "{OPENING}{CALLS}end 2\n")?;
    let script = parse_script(alloc, &text)?;
    assert_eq!(rt; script.site.slots, 8);
    assert_eq!(rt; script.requests.len(), 2);
    let request = &script.requests.as_slice()[1];
    assert_eq!(rt; request.caller, 63);
    assert!(rt;
        matches!(
            &request.call,
            Call::Do {
                event: Event::Start { .. }
            }
        )
    );
    Ok(())
}

/// A reply that is read into the bytes of the last one has nothing of it, be it shorter or longer.
#[test]
fn replies_given_back(rt: HostRuntime) -> Result<(), Fail> {
    let alloc = rt.alloc();
    let session = parse_session(alloc, SESSION)?;
    let (_, mut calls) = open_calls(SESSION)?;
    for told in session.entries() {
        let Some(entry) = calls.next(alloc)? else {
            panic!(rt; "a call is missing");
        };
        assert!(rt; entry.reply.as_slice() == told.reply.as_slice());
        calls.give_back(entry.reply);
    }
    assert!(rt; matches!(calls.next(alloc), Ok(None)));
    Ok(())
}
