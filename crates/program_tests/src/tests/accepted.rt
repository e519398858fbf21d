//! Events that are accepted, and refusals, each once through the whole console; and checks with ample memory.

use super::{Row, served};
use esx_check::{Checked, MigrateFault, check_session, check_text, migrate};
use esx_program::SITE;
use esx_reading::TextFault;
use esx_session::{parse_session, print_session};
use esx_types::Config;
use std::test::Fail;

const ROWS: [Row; 7] = [
    // shares, in and out of their range
    Row {
        input: b"admit 0 2 6 1 1000 0\nstart 0\nshares 0 2000\ntable\nshares 0 0\nshares 9 1\nshares 0 1048577\nshares 0 1048576\n",
        output: b"ok memory 3/20 swap 4/8\nok frame 0 overhead 1/1 running\nok\n vm state        min     max  target    here    lent     out  shares  active\n  0 running        2       6       6       0       0       0    2000   65536\noverhead 1 private 0 shared 0 free 19 high\nno 3 BadSpec\nno 1 NoVm\nno 3 BadSpec\nok\n",
    },
    // a tax, in and out of its range
    Row {
        input: b"tax 100\ntax 99\ntax 0\nwhere\n",
        output: b"no 3 BadSpec\nok\nok\nat 2 depth 2 jumps 0\n",
    },
    // a tax of a machine's own, in and out of its range
    Row {
        input: b"vmtax 0 100\nadmit 0 2 6 1 1000 0 100\nadmit 0 2 6 1 1000 0 99\nvmtax 0 100\nvmtax 0 20\nvmtax 255 0\ntax 50\ntable\nwhere\n",
        output: b"no 1 NoVm\nno 3 BadSpec\nok memory 3/20 swap 4/8\nno 3 BadSpec\nok\nno 1 NoVm\nok\n vm state        min     max  target    here    lent     out  shares  active\n  0 starting       2       6       6       0       0       0    1000   65536\noverhead 0 private 0 shared 0 free 20 high\nat 3 depth 3 jumps 0\n",
    },
    // a machine leaves by two overhead frames
    Row {
        input: b"admit 0 2 6 2 1000 0\nstart 0\nstart 0\nstop 0\ngone 0\nsum\ngone 0\nsum\n",
        output: b"ok memory 4/20 swap 4/8\nok frame 0 overhead 1/2 starting\nok frame 1 overhead 2/2 running\nok\nok overhead 1\noverhead 1 private 0 shared 0 free 19 high\nok gone\noverhead 0 private 0 shared 0 free 20 high\n",
    },
    // pages that are shared already
    Row {
        input: b"admit 0 2 6 1 1000 0\nstart 0\nadmit 1 2 6 1 1000 0\nstart 1\nwrite 0 0 0 2a\nwrite 1 0 0 2a\nscan 0 0\nscan 1 0\nscan 0 0\nscan 1 0\nwhere\n",
        output: b"ok memory 3/20 swap 4/8\nok frame 0 overhead 1/1 running\nok memory 6/20 swap 8/8\nok frame 1 overhead 1/1 running\nok\nok\nok hinted\nok shared frame 2 count 2\nok already\nok already\nat 10 depth 10 jumps 0\n",
    },
    // a page that is in no frame
    Row {
        input: b"admit 0 2 6 1 1000 0\nstart 0\nscan 0 0\nscan 0 6\n",
        output: b"ok memory 3/20 swap 4/8\nok frame 0 overhead 1/1 running\nno 15 NotResident\nno 7 OutOfRange\n",
    },
    // samples with no words, of lengths out of range, and while a period is open
    Row {
        input: b"admit 0 2 6 1 1000 0\nstart 0\nsample 0 1\nsample 0 0 1\nsample 0 1048577 1\nsample 0 2 1\nsample 0 2 1\nwhere\n",
        output: b"ok memory 3/20 swap 4/8\nok frame 0 overhead 1/1 running\nno 16 BadWords\nno 16 BadWords\nno 16 BadWords\nok period 2 pages 1\nno 27 SampleOpen\nat 3 depth 3 jumps 0\n",
    },
];

#[test]
fn each_event(rt: HostRuntime) -> Result<(), Fail> {
    for row in &ROWS {
        let (result, bytes) = served(rt.alloc(), SITE, row.input, 4096);
        assert!(rt; result.is_ok());
        assert!(rt; bytes.as_slice() == row.output);
    }
    Ok(())
}

/// A lent page is taken back, and is not lent then.
#[test]
fn a_lent_page(rt: HostRuntime) -> Result<(), Fail> {
    let config = Config { frames: 8, ..SITE };
    let input =
        b"admit 0 2 8 1 1000 4\nstart 0\nread 0 0 0 1\nread 0 1 0 1\nread 0 2 0 1\nread 0 3 0 1\nread 0 4 0 1\nrebalance\nlend 0 4\nlend 0 3\ntakeback 0 4\ntakeback 0 4\npage 0 4\nask 0\n";
    let output =
        b"ok memory 3/8 swap 6/8\nok frame 0 overhead 1/1 running\nok 00\nok 00\nok 00\nok 00\nok 00\nok need 3 revoked 3\nok lent 1 goal 4\nok lent 2 goal 4\nok lent 1\nno 11 NotLent\nuntouched\nok goal 4 lent 1 epoch 0\n";
    let (result, bytes) = served(rt.alloc(), config, input, 4096);
    assert_eq!(rt; result, Ok(14));
    assert!(rt; bytes.as_slice() == output.as_slice());
    Ok(())
}

/// A try makes no node, and so is made where no node number is left.
#[test]
fn tries_at_a_full_journal(rt: HostRuntime) -> Result<(), Fail> {
    let config = Config { nodes: 2, ..SITE };
    let input =
        b"admit 0 2 6 1 1000 0\nwhatif start 0; read 0 0 0 1\nstart 0\nwhatif read 0 0 0 1\nread 0 0 0 1\nwhere\n";
    let output =
        b"ok memory 3/20 swap 4/8\nwhatif 2/2\nbefore overhead 0 private 0 shared 0 free 20 high\n1 ok frame 0 overhead 1/1 running\n2 ok 00\nafter overhead 1 private 1 shared 0 free 18 high\nok frame 0 overhead 1/1 running\nwhatif 1/1\nbefore overhead 1 private 0 shared 0 free 19 high\n1 ok 00\nafter overhead 1 private 1 shared 0 free 18 high\nno 25 Full\nat 2 depth 2 jumps 0\n";
    let (result, bytes) = served(rt.alloc(), config, input, 4096);
    assert_eq!(rt; result, Ok(6));
    assert!(rt; bytes.as_slice() == output.as_slice());
    Ok(())
}

const SAME: &str =
    "esx session 2\nframes 20 page 16 slots 8 tau 75 levels 6 4 2 1 nodes 16777216\n0 admit 0 2 6 1 1000 0\n= ok memory 3/20 swap 4/8\n0 start 0\n= ok frame 0 overhead 1/1 running\n0 sum\n= overhead 1 private 0 shared 0 free 19 high\nend 3\n";

const OLD: &str =
    "esx session 1\nframes 20 page 16 slots 8 tau 75 levels 6 4 2 1 nodes 16777216\n63 admit 31 2 6 1 1000 0\n= ok memory 3/20 swap 4/8\nend 1\n";

const MIGRATED: &str =
    "esx session 2\nframes 20 page 16 slots 8 tau 75 levels 6 4 2 1 nodes 16777216\n63 admit 31 2 6 1 1000 0\n= ok memory 3/20 swap 4/8\nend 1\n";

const DIFFERS: &str =
    "esx session 2\nframes 20 page 16 slots 8 tau 75 levels 6 4 2 1 nodes 16777216\n0 admit 0 2 6 1 1000 0\n= ok memory 3/20 swap 4/8\n0 start 0\n= ok frame 1 overhead 1/1 running\n0 sum\n= overhead 1 private 0 shared 0 free 19 high\nend 3\n";

/// A session, and the text of one, come to the same.
#[test]
fn checks(rt: HostRuntime) -> Result<(), Fail> {
    let alloc = rt.alloc();
    for (text, checked) in [
        (SAME, Checked::Same(3)),
        (OLD, Checked::Same(1)),
        (DIFFERS, Checked::Differs(2)),
    ] {
        let Ok(session) = parse_session(alloc, text) else {
            return Err(Fail::new("the session"));
        };
        assert_eq!(rt; check_session(alloc, session)?, checked);
        assert_eq!(rt; check_text(alloc, text), Ok(checked));
    }
    let text =
        "esx session 2\nframes 20 page 16 slots 8 tau 75 levels 6 4 2 1 nodes 16777216\n0 sum\nend 1\n";
    assert_eq!(rt; check_text(alloc, text), Err(TextFault::BadLine(4)));
    Ok(())
}

/// A session is migrated to a console whose session is printed in version 2.
#[test]
fn migrations(rt: HostRuntime) -> Result<(), Fail> {
    let alloc = rt.alloc();
    for (text, printed) in [(SAME, SAME), (OLD, MIGRATED)] {
        let Ok(session) = parse_session(alloc, text) else {
            return Err(Fail::new("the session"));
        };
        let Ok(console) = migrate(alloc, &session) else {
            return Err(Fail::new("the console"));
        };
        let written = print_session(alloc, &console.site(), console.log())?;
        assert!(rt; written.as_str() == printed);
    }
    let Ok(session) = parse_session(alloc, DIFFERS) else {
        return Err(Fail::new("the session"));
    };
    assert!(rt; matches!(migrate(alloc, &session), Err(MigrateFault::Differs(2))));
    Ok(())
}
