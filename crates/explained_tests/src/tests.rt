// Lines with their explanations as they are told, and lines of which nothing is told.

use esx_explained::explained;
use std::rt::HostRuntime;
use std::test::Fail;

const TOLD: [(&str, &str); 30] = [
    ("admitt 0", "\"admitt\" is no command; the nearest is admit"),
    (
        "READ 0 1 0 4",
        "\"READ\" is no command; the nearest is read",
    ),
    (
        "swpout 0 5",
        "\"swpout\" is no command; the nearest is swapout",
    ),
    ("tabel", "\"tabel\" is no command; the nearest is table"),
    ("help", "\"help\" is no command"),
    ("zzzz", "\"zzzz\" is no command"),
    (" sum", "\"\" is no command"),
    ("read 0 1", "read wants V P AT LEN: AT is missing"),
    (
        "sample 0",
        "sample wants V LENGTH [W ..]: LENGTH is missing",
    ),
    ("mark", "mark wants NAME: NAME is missing"),
    ("pageout 1", "pageout wants V P: P is missing"),
    ("sum 1", "sum wants nothing behind it: \"1\" is too much"),
    ("lend 0 1 2", "lend wants V P: \"2\" is too much"),
    ("sum ", "sum wants nothing behind it: \"\" is too much"),
    (
        "lend 0 x7",
        "lend wants V P: \"x7\" is no P, a number from 0 to 4294967295",
    ),
    (
        "start 256",
        "start wants V: \"256\" is no V, a number from 0 to 255",
    ),
    (
        "swapout 0 -1",
        "swapout wants V W: \"-1\" is no W, a number from 0 to 18446744073709551615",
    ),
    (
        "write 0 1 0 2A",
        "write wants V P AT HEX: \"2A\" is no HEX, 1 to 4096 bytes, each as two small digits in hex",
    ),
    (
        "visit Base",
        "visit wants NAME: \"Base\" is no NAME, 1 to 32 small letters, digits, _ and -, a letter first",
    ),
    (
        "admit 0 2 6 1 1000 0 01",
        "admit wants V MIN MAX OVERHEAD SHARES BALLOON [TAU]: \"01\" is no TAU, a number from 0 to 4294967295",
    ),
    ("whatif", "whatif wants E; E; ..: E is missing"),
    ("whatif ", "whatif, event 1: E is missing"),
    ("whatif ask 0;", "whatif, event 2: E is missing"),
    ("whatif ask 0; ", "whatif, event 2: E is missing"),
    ("whatif ; ask 0", "whatif, event 1: E is missing"),
    ("whatif ask 0;  ; ask 1", "whatif, event 2: E is missing"),
    (
        "whatif ask 0;ask 1",
        "whatif, event 2: no space stands before it",
    ),
    (
        "whatif ask 0; undo 1",
        "whatif, event 2: \"undo\" is no event",
    ),
    (
        "whatif ask 0; ask 1; read 2 0 0",
        "whatif, event 3: read wants V P AT LEN: LEN is missing",
    ),
    (
        "\u{1b}[2J0123456789012345678901234567890123456789",
        "\"?[2J012345678901234567890123456789012345\".. is no command",
    ),
];

const SILENT: [&str; 9] = [
    "",
    "# note",
    "session",
    "order",
    "pageout 0 7",
    "read 0 7 8 16",
    "admit 0 2 6 1 1000 0",
    "sample 2 1000 18446744073709551615 0 7",
    "whatif ask 1; rebalance",
];

#[test]
fn lines_that_are_none_are_explained(rt: HostRuntime) -> Result<(), Fail> {
    let alloc = rt.alloc();
    for (line, told) in TOLD {
        match explained(alloc, line.as_bytes())? {
            Some(explanation) => {
                let text = format!(in alloc; "{explanation}")?;
                assert_eq!(rt; text.as_str(), told);
            }
            None => assert!(rt; false, "{line}"),
        }
    }
    Ok(())
}

#[test]
fn nothing_is_told_of_the_others(rt: HostRuntime) -> Result<(), Fail> {
    let alloc = rt.alloc();
    for line in SILENT {
        assert!(rt; explained(alloc, line.as_bytes())?.is_none(), "{line}");
    }
    Ok(())
}

#[test]
fn bytes_that_are_no_text_are_told(rt: HostRuntime) -> Result<(), Fail> {
    let alloc = rt.alloc();
    match explained(alloc, &[115, 117, 109, 255])? {
        Some(explanation) => {
            let text = format!(in alloc; "{explanation}")?;
            assert_eq!(rt; text.as_str(), "it is not UTF-8");
        }
        None => assert!(rt; false),
    }
    Ok(())
}
