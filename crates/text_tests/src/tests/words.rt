//! Lines as they are written by hand.

use esx_words::{parse_command, print_command};
use std::alloc::Global;
use std::rt::HostRuntime;
use std::test::Fail;

const LINES: [&str; 36] = [
    "admit 0 2 6 1 1000 0",
    "admit 0 2 6 1 1000 0 0",
    "admit 255 2 6 1 1000 0 4294967295",
    "start 255",
    "read 0 7 8 16",
    "write 0 7 8 00ff10",
    "ask 1",
    "lend 1 5",
    "takeback 1 5",
    "sample 2 1000",
    "sample 2 1000 18446744073709551615 0 7",
    "rebalance",
    "scan 0 4294967295",
    "swapout 0 18446744073709551615",
    "replace 0 5 9",
    "shares 0 1000",
    "tax 75",
    "vmtax 0 4294967295",
    "vmtax 255 99",
    "stop 0",
    "drop 0 3",
    "gone 0",
    "undo 0",
    "redo 10",
    "goto 4294967295",
    "visit base",
    "mark a_b-9",
    "prune 3",
    "sum",
    "table",
    "where",
    "marks",
    "vm 0",
    "page 255 0",
    "advise 255 0",
    "whatif ask 1; sample 2 1000 0 7; admit 1 2 6 1 1000 0 99; vmtax 1 0; rebalance",
];

const NO_LINES: [&str; 25] = [
    "",
    " sum",
    "sum ",
    "Sum",
    "admit 0 2 6 1 1000",
    "admit 0 2 6 1 1000 0 ",
    "admit 0 2 6 1 1000 0 01",
    "admit 0 2 6 1 1000 0 4294967296",
    "admit 0 2 6 1 1000 0 0 0",
    "vmtax 0",
    "vmtax 0 20 0",
    "vmtax 0 4294967296",
    "vmtax 256 20",
    "start 256",
    "start 01",
    "start +1",
    "read 0 7 8 16 1",
    "read 0 7 8 4294967296",
    "write 0 7 8 00FF",
    "write 0 7 8 ",
    "mark 9",
    "whatif",
    "whatif sum",
    "whatif ask 1;ask 1",
    "whatif ask 1; ",
];

/// Whether a line is read as a call that is spelled so.
fn is_spelled(alloc: Global, line: &str) -> Result<bool, Fail> {
    let Some(call) = parse_command(alloc, line)? else {
        return Ok(false);
    };
    let text = print_command(alloc, &call)?;
    Ok(text.as_str() == line)
}

#[test]
fn lines(rt: HostRuntime) -> Result<(), Fail> {
    for line in &LINES {
        assert!(rt; is_spelled(rt.alloc(), line)?);
    }
    Ok(())
}

#[test]
fn no_lines(rt: HostRuntime) -> Result<(), Fail> {
    for line in &NO_LINES {
        assert!(rt; parse_command(rt.alloc(), line)?.is_none());
    }
    Ok(())
}
