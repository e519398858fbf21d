//! Worked examples, each through the whole console. What they answer was worked out by hand.

mod accepted;
mod asking;
mod checking;
mod ends;
mod mechanisms;
mod migrating;
mod opening;
mod reporting;
mod running;

ghost use Rattle.std.specs.Prelude.{◌≡◌, ◌≤◌};
ghost use Rattle.esx_types.specs.Ranges.{IsConfig};

use esx_check::OutputFault;
use esx_events::Refusal;
use esx_program::{Asked, Ended, Failure, RunFault, SITE, Streams, run_counted, serve_site};
use esx_reading::TextFault;
use esx_reports::ReportFault;
use esx_text::{ServeFault, parse_command, print_command};
use esx_types::{Config, MemorySink, MemorySource};
use std::alloc::{AllocGlobal, Global};
use std::io::{self, Print, Read, Write};
use std::marker::Brand;
use std::sync::Wait;
use std::sync::ledger::{Blank, Ledger};
use std::test::Fail;
use std::thread::Threads;

/// Lines, and the answers to them.
struct Row {
    input: &'static [u8],
    output: &'static [u8],
}

const ROWS: [Row; 16] = [
    // nothing is answered by nothing
    Row {
        input: b"",
        output: b"",
    },
    // an empty site
    Row {
        input: b"sum\n",
        output: b"overhead 0 private 0 shared 0 free 20 high\n",
    },
    // a first page
    Row {
        input: b"admit 0 2 6 1 1000 0\nstart 0\nread 0 0 0 16\npage 0 0\nsum\n",
        output: b"ok memory 3/20 swap 4/8\nok frame 0 overhead 1/1 running\nok 00000000000000000000000000000000\nhere frame 1 private\noverhead 1 private 1 shared 0 free 18 high\n",
    },
    // admissions that are refused
    Row {
        input: b"admit 0 2 6 1 1000 0\nstart 0\nread 0 0 0 16\npage 0 0\nsum\nadmit 1 0 4 1 1000 0\nadmit 1 19 19 1 1000 0\nadmit 1 1 6 1 1000 0\nadmit 1 16 20 1 1000 0\n",
        output: b"ok memory 3/20 swap 4/8\nok frame 0 overhead 1/1 running\nok 00000000000000000000000000000000\nhere frame 1 private\noverhead 1 private 1 shared 0 free 18 high\nno 3 BadSpec\nno 4 NoMemoryReserve\nno 5 NoSwapReserve\nok memory 20/20 swap 8/8\n",
    },
    // bytes at a page's end
    Row {
        input: b"admit 0 2 6 1 1000 0\nstart 0\nread 0 0 0 16\npage 0 0\nsum\nread 0 0 15 1\nread 0 0 15 2\nread 0 6 0 1\n",
        output: b"ok memory 3/20 swap 4/8\nok frame 0 overhead 1/1 running\nok 00000000000000000000000000000000\nhere frame 1 private\noverhead 1 private 1 shared 0 free 18 high\nok 00\nno 7 OutOfRange\nno 7 OutOfRange\n",
    },
    // a machine that is there and runs
    Row {
        input: b"admit 0 2 6 1 1000 0\nstart 0\nread 0 0 0 16\npage 0 0\nsum\nadmit 0 2 6 1 1000 0\nstart 0\n",
        output: b"ok memory 3/20 swap 4/8\nok frame 0 overhead 1/1 running\nok 00000000000000000000000000000000\nhere frame 1 private\noverhead 1 private 1 shared 0 free 18 high\nno 2 VmThere\nno 17 NotNeeded\n",
    },
    // a write
    Row {
        input: b"admit 0 2 6 1 1000 0\nstart 0\nwrite 0 0 1 2a\nread 0 0 0 4\nsum\n",
        output: b"ok memory 3/20 swap 4/8\nok frame 0 overhead 1/1 running\nok\nok 002a0000\noverhead 1 private 1 shared 0 free 18 high\n",
    },
    // undo, another event, no redo
    Row {
        input: b"admit 0 2 6 1 1000 0\nstart 0\nundo 1\nstart 0\nwhere\nredo 1\nredo 0\n",
        output: b"ok memory 3/20 swap 4/8\nok frame 0 overhead 1/1 running\nat 1 depth 1 jumps 1\nok frame 0 overhead 1/1 running\nat 3 depth 2 jumps 1\nno 20 NothingToRedo\nat 3 depth 2 jumps 2\n",
    },
    // there and back
    Row {
        input: b"admit 0 2 6 1 1000 0\nstart 0\nread 0 3 0 1\nwrite 0 1 0 2a\nundo 2\nsum\nredo 2\npage 0 1\npage 0 3\nundo 5\nredo 1\nundo 4294967295\nundo 4294967296\nredo 4294967295\nundo 4\nundo 0\nwhere\n",
        output: b"ok memory 3/20 swap 4/8\nok frame 0 overhead 1/1 running\nok 00\nok\nat 2 depth 2 jumps 1\noverhead 1 private 0 shared 0 free 19 high\nat 4 depth 4 jumps 2\nhere frame 2 private\nhere frame 1 private\nno 19 NothingToUndo\nno 20 NothingToRedo\nno 19 NothingToUndo\n? line 13\nno 20 NothingToRedo\nat 0 depth 0 jumps 3\nat 0 depth 0 jumps 4\nat 0 depth 0 jumps 4\n",
    },
    // frames run short
    Row {
        input: b"admit 0 1 1 19 1 0\nstart 0\nstart 0\nstart 0\nstart 0\nstart 0\nstart 0\nstart 0\nstart 0\nstart 0\nstart 0\nstart 0\nstart 0\nstart 0\nstart 0\nstart 0\nstart 0\nstart 0\nstart 0\nstart 0\nstart 0\nsum\n",
        output: b"ok memory 20/20 swap 0/8\nok frame 0 overhead 1/19 starting\nok frame 1 overhead 2/19 starting\nok frame 2 overhead 3/19 starting\nok frame 3 overhead 4/19 starting\nok frame 4 overhead 5/19 starting\nok frame 5 overhead 6/19 starting\nok frame 6 overhead 7/19 starting\nok frame 7 overhead 8/19 starting\nok frame 8 overhead 9/19 starting\nok frame 9 overhead 10/19 starting\nok frame 10 overhead 11/19 starting\nok frame 11 overhead 12/19 starting\nok frame 12 overhead 13/19 starting\nok frame 13 overhead 14/19 starting\nok frame 14 overhead 15/19 starting\nok frame 15 overhead 16/19 starting\nok frame 16 overhead 17/19 starting\nok frame 17 overhead 18/19 starting\nok frame 18 overhead 19/19 running\nno 17 NotNeeded\noverhead 19 private 0 shared 0 free 1 hard\n",
    },
    // no frame is free
    Row {
        input: b"admit 0 1 9 10 1 0\nadmit 1 1 1 8 1 0\nstart 0\nstart 0\nstart 0\nstart 0\nstart 0\nstart 0\nstart 0\nstart 0\nstart 0\nstart 0\nstart 1\nstart 1\nstart 1\nstart 1\nstart 1\nstart 1\nstart 1\nstart 1\nread 0 0 0 1\nread 0 1 0 1\nread 0 2 0 1\nsum\n",
        output: b"ok memory 11/20 swap 8/8\nok memory 20/20 swap 8/8\nok frame 0 overhead 1/10 starting\nok frame 1 overhead 2/10 starting\nok frame 2 overhead 3/10 starting\nok frame 3 overhead 4/10 starting\nok frame 4 overhead 5/10 starting\nok frame 5 overhead 6/10 starting\nok frame 6 overhead 7/10 starting\nok frame 7 overhead 8/10 starting\nok frame 8 overhead 9/10 starting\nok frame 9 overhead 10/10 running\nok frame 10 overhead 1/8 starting\nok frame 11 overhead 2/8 starting\nok frame 12 overhead 3/8 starting\nok frame 13 overhead 4/8 starting\nok frame 14 overhead 5/8 starting\nok frame 15 overhead 6/8 starting\nok frame 16 overhead 7/8 starting\nok frame 17 overhead 8/8 running\nok 00\nok 00\nno 9 Short\noverhead 18 private 2 shared 0 free 0 low\n",
    },
    // the session so far, which is no call
    Row {
        input: b"session\nadmit 0 2 6 1 1000 0\nstart 0\nsession\nmark a\nmarks\nsession\n",
        output: b"esx session 2\nframes 20 page 16 slots 8 tau 75 levels 6 4 2 1 nodes 16777216\nend 0\nok memory 3/20 swap 4/8\nok frame 0 overhead 1/1 running\nesx session 2\nframes 20 page 16 slots 8 tau 75 levels 6 4 2 1 nodes 16777216\n0 admit 0 2 6 1 1000 0\n= ok memory 3/20 swap 4/8\n0 start 0\n= ok frame 0 overhead 1/1 running\nend 2\nok mark a at 2\nmarks 1\na 2\nesx session 2\nframes 20 page 16 slots 8 tau 75 levels 6 4 2 1 nodes 16777216\n0 admit 0 2 6 1 1000 0\n= ok memory 3/20 swap 4/8\n0 start 0\n= ok frame 0 overhead 1/1 running\n0 mark a\n= ok mark a at 2\n0 marks\n= marks 1\n= a 2\nend 4\n",
    },
    // lines that are no command
    Row {
        input: b"start 00\nREAD 0 0 0 1\nwrite 0 0 0 2A\nwrite 0 0 0 2\nread  0 0 0 1\n read 0 0 0 1\nread 0 0 0 1 \nread 256 0 0 1\nread 0 4294967296 0 1\nread 0 0 0 18446744073709551616\nsum sum\nundo\nundo -1\ngoto -1\nsessions\nhelp\n\xc3\xa9\n",
        output: b"? line 1\n? line 2\n? line 3\n? line 4\n? line 5\n? line 6\n? line 7\n? line 8\n? line 9\n? line 10\n? line 11\n? line 12\n? line 13\n? line 14\n? line 15\n? line 16\n? line 17\n",
    },
    // lines with no answer and odd ends
    Row {
        input: b"\n# sum\n#\xff\nsum\r\nsum\r\r\n\r\nsum",
        output: b"overhead 0 private 0 shared 0 free 20 high\n? line 5\noverhead 0 private 0 shared 0 free 20 high\n",
    },
    // a carriage return before the end of input
    Row {
        input: b"sum\r",
        output: b"? line 1\n",
    },
    // numbers past what a call takes
    Row {
        input: b"admit 0 4294967295 4294967295 4294967295 4294967295 4294967295\nread 255 4294967295 4294967295 4294967295\npage 255 4294967295\n",
        output: b"no 3 BadSpec\nno 1 NoVm\nno 1 NoVm\n",
    },
];

/// Serves a site on bytes in memory, so many at a time, by a count of the calls at each end.
fn served_counted<I: Ledger, O: Ledger>(
    alloc: Global,
    config: Config,
    input: &[u8],
    most: usize,
    calls_in: Blank,
    calls_out: Blank,
) -> (Result<u64, ServeFault>, Vec<u8>)
    requires config { IsConfig config }
    requires name_in { calls_in.name ≡ I.name }
    requires parts_in { calls_in.parts ≡ I.parts }
    requires four_in { 4 ≤ calls_in.parts }
    requires name_out { calls_out.name ≡ O.name }
    requires parts_out { calls_out.parts ≡ O.parts }
    requires four_out { 4 ≤ calls_out.parts }
{
    let mut source = MemorySource::<I>::new(input, most, calls_in);
    let mut sink = MemorySink::<O>::new(Vec::new(alloc), calls_out);
    let result = serve_site(alloc, config, &mut source, &mut sink);
    (result, sink.into_bytes())
}

fn served(
    alloc: Global,
    config: Config,
    input: &[u8],
    most: usize,
) -> (Result<u64, ServeFault>, Vec<u8>)
    requires { IsConfig config }
{
    served_counted::<Brand, Brand>(alloc, config, input, most, Blank::new(4), Blank::new(4))
}

/// Does what is asked for, of a file and over streams of the standard library.
fn run_over<
    R: AllocGlobal + Threads + Wait + Sync,
    P: Print + Sync,
    F: Read + Drop,
    I: Read + Drop,
    E: Write + Drop,
    W: Write + Drop,
>(
    rt: &R,
    asked: Asked<io::Result<F>>,
    to: Option<&P>,
    streams: Streams<I, E, W>,
) -> Ended<I, E, W> {
    run_counted::<_, _, _, _, _, _, Brand, Brand, Brand, Brand>(
        rt,
        asked,
        to,
        streams,
        Blank::new(4),
        Blank::new(4),
        Blank::new(4),
        Blank::new(4),
    )
}

#[test]
fn rows(rt: HostRuntime) -> Result<(), Fail> {
    for row in &ROWS {
        let (result, bytes) = served(rt.alloc(), SITE, row.input, 4096);
        assert!(rt; result.is_ok());
        assert!(rt; bytes.as_slice() == row.output);
    }
    Ok(())
}

#[test]
fn rows_byte_by_byte(rt: HostRuntime) -> Result<(), Fail> {
    for row in &ROWS {
        let (result, bytes) = served(rt.alloc(), SITE, row.input, 1);
        assert!(rt; result.is_ok());
        assert!(rt; bytes.as_slice() == row.output);
    }
    Ok(())
}

/// A line that is too long is no command, and the next line is served.
#[test]
fn long_line(rt: HostRuntime) -> Result<(), Fail> {
    let mut text = Vec::new(rt.alloc());
    text.resize(20000, b'a')?;
    text.extend_from_slice(b"\nsum\n")?;
    let (result, bytes) = served(rt.alloc(), SITE, text.as_slice(), 1000);
    assert_eq!(rt; result, Ok(2));
    assert!(rt;
        bytes.as_slice() == b"? line 1\noverhead 0 private 0 shared 0 free 20 high\n".as_slice()
    );
    Ok(())
}

/// Where all node numbers are made no event is accepted, and undo goes on.
#[test]
fn full(rt: HostRuntime) -> Result<(), Fail> {
    let config = Config { nodes: 2, ..SITE };
    let input = b"admit 0 2 6 1 1000 0\nstart 0\nread 0 0 0 1\nread 0 9 0 1\nundo 2\nsum\n";
    let output =
        b"ok memory 3/20 swap 4/8\nok frame 0 overhead 1/1 running\nno 25 Full\nno 25 Full\nat 0 depth 0 jumps 1\noverhead 0 private 0 shared 0 free 20 high\n";
    let (result, bytes) = served(rt.alloc(), config, input, 4096);
    assert_eq!(rt; result, Ok(6));
    assert!(rt; bytes.as_slice() == output.as_slice());
    Ok(())
}

fn asked(fault: ReportFault) -> Failure {
    Failure::Report(fault)
}

/// What is told of each way to end otherwise than well, and the status of it.
#[test]
fn failures(rt: HostRuntime) -> Result<(), Fail> {
    let alloc = rt.alloc();
    let refused = RunFault::Refused(Refusal::NoMemoryReserve);
    let rows = [
        (Failure::Words, 2, "wrong words"),
        (Failure::Text(TextFault::NotToml), 1, "bad toml"),
        (Failure::Text(TextFault::BadLine(7)), 1, "bad line 7"),
        (Failure::Text(TextFault::Read), 1, "read fault"),
        (Failure::Text(TextFault::OutOfMemory), 3, "no memory"),
        (Failure::Serve(ServeFault::Read), 1, "read fault"),
        (Failure::Serve(ServeFault::Write), 1, "write fault"),
        (Failure::Serve(ServeFault::OutOfMemory), 3, "no memory"),
        (Failure::Output(OutputFault::Write), 1, "write fault"),
        (Failure::Output(OutputFault::OutOfMemory), 3, "no memory"),
        (Failure::Run(refused), 1, "no 4 NoMemoryReserve"),
        (Failure::Run(RunFault::Write), 1, "write fault"),
        (Failure::Run(RunFault::OutOfMemory), 3, "no memory"),
        (
            asked(ReportFault::Text(TextFault::BadLine(7))),
            1,
            "bad line 7",
        ),
        (
            asked(ReportFault::Text(TextFault::OutOfMemory)),
            3,
            "no memory",
        ),
        (asked(ReportFault::Differs(7)), 1, "differs 7"),
        (asked(ReportFault::Refused(Refusal::NoVm)), 1, "no 1 NoVm"),
        (
            asked(ReportFault::Output(OutputFault::Write)),
            1,
            "write fault",
        ),
        (
            asked(ReportFault::Output(OutputFault::OutOfMemory)),
            3,
            "no memory",
        ),
    ];
    for (failure, status, text) in &rows {
        assert_eq!(rt; failure.status(), *status);
        assert_eq!(rt; failure.to_string(alloc)?.as_str(), *text);
        assert_eq!(rt; failure.advice().is_some(), *status == 2);
    }
    Ok(())
}

const COMMANDS: [&str; 11] = [
    "admit 0 2 6 1 1000 0",
    "admit 0 2 6 1 1000 0 4294967295",
    "vmtax 255 0",
    "start 255",
    "read 0 1 2 16",
    "write 0 1 0 2aff",
    "undo 3",
    "redo 0",
    "sum",
    "page 0 4294967295",
    "where",
];

#[test]
fn commands(rt: HostRuntime) -> Result<(), Fail> {
    for text in COMMANDS {
        let Some(call) = parse_command(rt.alloc(), text)? else {
            panic!(rt; "a command was refused");
        };
        assert_eq!(rt; print_command(rt.alloc(), &call)?.as_str(), text);
    }
    Ok(())
}
