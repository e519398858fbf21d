//! Worked examples, and texts that differ from them in one place.

use esx_scenario::{Settings, TraceLine, parse_scenario};
use esx_types::{Config, VmSpec};
use std::alloc::{AllocError, Global};
use std::test::Fail;

/// What a text comes to, as its fault is printed, or `ok`.
fn outcome(alloc: Global, text: &str) -> Result<String, AllocError> {
    match parse_scenario(alloc, text) {
        Ok(_) => String::from_str(alloc, "ok"),
        Err(fault) => fault.to_string(alloc),
    }
}

const SITE: &str = "version = 1\n[machine]\nframes = 20\npage = 16\nslots = 8\n";

const SITE_OF_TWO: &str = "version = 2\n[machine]\nframes = 20\npage = 16\nslots = 8\n";

const VM: &str = "[[vm]]\nid = 0\nmin = 2\nmax = 6\noverhead = 1\nshares = 1000\nballoon = 4\n";

#[test]
fn least_text(rt: HostRuntime) -> Result<(), Fail> {
    let alloc = rt.alloc();
    let Ok(scenario) = parse_scenario(alloc, SITE) else {
        panic!(rt; "a scenario was refused");
    };
    let config = Config {
        frames: 20,
        page: 16,
        slots: 8,
        tau: 75,
        high: 6,
        soft: 4,
        hard: 2,
        low: 1,
        nodes: 16777216,
    };
    let settings = Settings {
        seed: 1,
        turns: 1000,
        sample: 100,
        length: 1000,
    };
    assert_eq!(rt; scenario.config(), config);
    assert_eq!(rt; scenario.settings(), settings);
    assert_eq!(rt; scenario.guests().len(), 0);
    Ok(())
}

const FULL: &str = "version = 1
machine = { frames = 1048576, page = 4096, slots = 1048576, tau = 0, high = 50, soft = 50, hard = 50, low = 50, nodes = 1 }
run = { seed = 9223372036854775807, turns = 1000000, sample = 1, length = 1048576 }
[[vm]]
id = 31
min = 65536
max = 65536
overhead = 1048576
shares = 1048576
balloon = 0
trace = ['read 65535 4095 1', 'write 0 0 00ff2a', 'ask', 'lend 7', 'takeback 7']
[[vm]]
id = 0
min = 1
max = 1
overhead = 1
shares = 1
balloon = 0
";

#[test]
fn greatest_numbers(rt: HostRuntime) -> Result<(), Fail> {
    let alloc = rt.alloc();
    let Ok(scenario) = parse_scenario(alloc, FULL) else {
        panic!(rt; "a scenario was refused");
    };
    assert_eq!(rt; scenario.config().low, 50);
    assert_eq!(rt; scenario.config().nodes, 1);
    assert_eq!(rt; scenario.settings().seed, 9223372036854775807);
    let guests = scenario.guests();
    assert_eq!(rt; guests.len(), 2);
    assert_eq!(rt; guests[0].vm.number(), 31);
    let spec = VmSpec {
        min: 1,
        max: 1,
        overhead: 1,
        shares: 1,
        balloon_max: 0,
        tau: None,
    };
    assert_eq!(rt; guests[1].spec, spec);
    let trace = guests[0].trace.as_slice();
    assert_eq!(rt; trace.len(), 5);
    assert!(rt;
        matches!(
            &trace[0],
            TraceLine::Read {
                page: 65535,
                at: 4095,
                len: 1
            }
        )
    );
    let TraceLine::Write { page, at, bytes } = &trace[1] else {
        panic!(rt; "no write");
    };
    assert_eq!(rt; *page, 0);
    assert_eq!(rt; *at, 0);
    assert!(rt; bytes.as_slice() == b"\x00\xff\x2a".as_slice());
    assert!(rt; matches!(&trace[2], TraceLine::Ask));
    assert!(rt; matches!(&trace[3], TraceLine::Lend { page: 7 }));
    assert!(rt; matches!(&trace[4], TraceLine::TakeBack { page: 7 }));
    Ok(())
}

const TEXTS: [(&str, &str); 57] = [
    ("frames = ", "bad toml"),
    ("", "bad key version"),
    ("version = 0", "bad key version"),
    ("version = 3", "bad key version"),
    ("version = 3\nmachine = 3\nvm = 3", "bad key version"),
    ("version = 2.0", "bad key version"),
    ("version = '2'", "bad key version"),
    ("version = 2", "bad key machine.frames"),
    ("version = '1'", "bad key version"),
    ("version = 1.0", "bad key version"),
    ("version = 1", "bad key machine.frames"),
    ("version = 1\nmachine = 3", "bad key machine.frames"),
    (
        "version = 1\n[machine]\nframes = 7",
        "bad key machine.frames",
    ),
    (
        "version = 1\n[machine]\nframes = 1048577",
        "bad key machine.frames",
    ),
    (
        "version = 1\n[machine]\nframes = -8",
        "bad key machine.frames",
    ),
    ("version = 1\n[machine]\nframes = 8", "bad key machine.page"),
    (
        "version = 1\n[machine]\nframes = 8\npage = 24",
        "bad key machine.page",
    ),
    (
        "version = 1\n[machine]\nframes = 8\npage = 4112",
        "bad key machine.page",
    ),
    (
        "version = 1\n[machine]\nframes = 8\npage = 32",
        "bad key machine.slots",
    ),
    (
        "version = 1\n[machine]\nframes = 8\npage = 32\nslots = 1048577",
        "bad key machine.slots",
    ),
    (
        "version = 1\n[machine]\nframes = 8\npage = 32\nslots = 0\ntau = 100",
        "bad key machine.tau",
    ),
    (
        "version = 1\n[machine]\nframes = 8\npage = 32\nslots = 0\nhigh = 51",
        "bad key machine.high",
    ),
    (
        "version = 1\n[machine]\nframes = 8\npage = 32\nslots = 0\nhigh = 3",
        "bad key machine.soft",
    ),
    (
        "version = 1\n[machine]\nframes = 8\npage = 32\nslots = 0\nsoft = 1",
        "bad key machine.hard",
    ),
    (
        "version = 1\n[machine]\nframes = 8\npage = 32\nslots = 0\nlow = 3",
        "bad key machine.low",
    ),
    (
        "version = 1\n[machine]\nframes = 8\npage = 32\nslots = 0\nlow = 0",
        "bad key machine.low",
    ),
    (
        "version = 1\n[machine]\nframes = 8\npage = 32\nslots = 0\nnodes = 0",
        "bad key machine.nodes",
    ),
    (
        "version = 1\n[machine]\nframes = 8\npage = 32\nslots = 0\nnodes = 16777217",
        "bad key machine.nodes",
    ),
    (
        "version = 1\nrun = 3\n[machine]\nframes = 8\npage = 32\nslots = 0",
        "bad key run",
    ),
    (
        "version = 1\nrun = 3\nvm = 3\n[machine]\nframes = 8\npage = 32\nslots = 0\nnodes = 0",
        "bad key machine.nodes",
    ),
    (
        "version = 1\n[machine]\nframes = 8\npage = 32\nslots = 0\n[run]\nseed = -1",
        "bad key run.seed",
    ),
    (
        "version = 1\n[machine]\nframes = 8\npage = 32\nslots = 0\n[run]\nturns = 0",
        "bad key run.turns",
    ),
    (
        "version = 1\n[machine]\nframes = 8\npage = 32\nslots = 0\n[run]\nturns = 1000001",
        "bad key run.turns",
    ),
    (
        "version = 1\n[machine]\nframes = 8\npage = 32\nslots = 0\n[run]\nsample = 101",
        "bad key run.sample",
    ),
    (
        "version = 1\n[machine]\nframes = 8\npage = 32\nslots = 0\n[run]\nlength = 1048577",
        "bad key run.length",
    ),
    (
        "version = 1\nvm = 3\n[machine]\nframes = 8\npage = 32\nslots = 0",
        "bad key vm",
    ),
    (
        "version = 1\nvm = [{}, 3]\n[machine]\nframes = 8\npage = 32\nslots = 0",
        "bad key vm",
    ),
    (
        "version = 1\nvm = [{}]\n[machine]\nframes = 8\npage = 32\nslots = 0",
        "bad key vm.0.id",
    ),
    (
        "version = 1\nvm = [{ id = 32 }]\n[machine]\nframes = 8\npage = 32\nslots = 0",
        "bad key vm.0.id",
    ),
    (
        "version = 2\nvm = [{ id = 255 }]\n[machine]\nframes = 8\npage = 32\nslots = 0",
        "bad key vm.0.min",
    ),
    (
        "version = 2\nvm = [{ id = 256 }]\n[machine]\nframes = 8\npage = 32\nslots = 0",
        "bad key vm.0.id",
    ),
    (
        "version = 1\nvm = [{ id = 0 }]\n[machine]\nframes = 8\npage = 32\nslots = 0",
        "bad key vm.0.min",
    ),
    (
        "version = 1\nvm = []\n[machine]\nframes = 8\npage = 32\nslots = 0",
        "ok",
    ),
    (
        "version = 1\ncolour = 3\n[machine]\nframes = 8\npage = 32\nslots = 0",
        "bad key colour",
    ),
    (
        "version = 1\n[machine]\nframes = 8\npage = 32\nslots = 0\ncolour = 3",
        "bad key machine.colour",
    ),
    (
        "version = 1\n[machine]\nframes = 8\npage = 32\nslots = 0\ncolour = 3\ntau = 100",
        "bad key machine.tau",
    ),
    (
        "version = 1\nzebra = 1\n[machine]\nframes = 8\npage = 32\nslots = 0\ncolour = 3\nblue = 1",
        "bad key machine.blue",
    ),
    (
        "version = 1\nant = 1\n[machine]\nframes = 8\npage = 32\nslots = 0\ncolour = 3",
        "bad key ant",
    ),
    (
        "version = 1\n[machine]\nframes = 8\npage = 32\nslots = 0\n[run.odd]\nx = 1",
        "bad key run.odd",
    ),
    (
        "version = 1\n\"\\u00e9\" = 1\n[machine]\nframes = 8\npage = 32\nslots = 0",
        "bad key \u{e9}",
    ),
    (
        "version = 1\n[machine]\nframes = 99999999999999999999",
        "bad toml",
    ),
    (
        "version = 1\nversion = 1\n[machine]\nframes = 8\npage = 32\nslots = 0",
        "bad toml",
    ),
    (
        "version = 0x1\n[machine]\nframes = 0b1000\npage = 3_2\nslots = 0o0",
        "ok",
    ),
    (
        "# \u{fc}\nversion = 1 # one\n[machine]\nframes = 8\npage = 32\nslots = 0",
        "ok",
    ),
    (
        "version = 01\n[machine]\nframes = 8\npage = 32\nslots = 0",
        "bad toml",
    ),
    ("version = true", "bad key version"),
    ("version = [1]", "bad key version"),
];

#[test]
fn texts(rt: HostRuntime) -> Result<(), Fail> {
    for (text, wanted) in &TEXTS {
        let came = outcome(rt.alloc(), *text)?;
        assert_eq!(rt; came.as_str(), *wanted, "{text}");
    }
    Ok(())
}

/// Keys of a machine, behind a good one, and what they come to.
const KEYS: [(&str, &str); 14] = [
    ("id = 1\nmin = 0", "bad key vm.1.min"),
    ("id = 0\nmin = 0", "bad key vm.1.id"),
    ("id = 1\nmin = 65537", "bad key vm.1.min"),
    ("id = 1\nmin = 3\nmax = 2", "bad key vm.1.max"),
    ("id = 1\nmin = 3\nmax = 65537", "bad key vm.1.max"),
    (
        "id = 1\nmin = 3\nmax = 5\noverhead = 0",
        "bad key vm.1.overhead",
    ),
    (
        "id = 1\nmin = 3\nmax = 5\noverhead = 1\nshares = 1048577",
        "bad key vm.1.shares",
    ),
    (
        "id = 1\nmin = 3\nmax = 5\noverhead = 1\nshares = 1\nballoon = 3",
        "bad key vm.1.balloon",
    ),
    (
        "id = 1\nmin = 3\nmax = 5\noverhead = 1\nshares = 1\nballoon = 2",
        "ok",
    ),
    (
        "id = 1\nmin = 3\nmax = 5\noverhead = 1\nshares = 1\nballoon = 2\ntau = 1",
        "bad key vm.1.tau",
    ),
    (
        "id = 1\nmin = 3\nmax = 5\noverhead = 1\nshares = 1\nballoon = 2\ntrace = 'ask'",
        "bad key vm.1.trace",
    ),
    (
        "id = 1\nmin = 3\nmax = 5\noverhead = 1\nshares = 1\nballoon = 2\ntrace = ['ask', 1]",
        "bad key vm.1.trace",
    ),
    (
        "id = 1\nmin = 3\nmax = 5\noverhead = 1\nshares = 1\nballoon = 2\ntrace = []",
        "ok",
    ),
    (
        "id = 1\nmin = 3\nmax = 5\noverhead = 1\nshares = 1\nballoon = 3\ntrace = 1",
        "bad key vm.1.balloon",
    ),
];

#[test]
fn machines(rt: HostRuntime) -> Result<(), Fail> {
    let alloc = rt.alloc();
    for (keys, wanted) in &KEYS {
        let text = format!(in alloc; "{SITE}{VM}[[vm]]\n{keys}\n")?;
        let came = outcome(alloc, text.as_str())?;
        assert_eq!(rt; came.as_str(), *wanted, "{keys}");
    }
    Ok(())
}

/// Keys of a machine, and what they come to in each version: in version 1 a tax of its own is an unknown key.
const OWN_TAXES: [(&str, &str, &str); 13] = [
    ("", "ok", "ok"),
    ("tau = 0", "bad key vm.0.tau", "ok"),
    ("tau = 99", "bad key vm.0.tau", "ok"),
    ("tau = 100", "bad key vm.0.tau", "bad key vm.0.tau"),
    ("tau = -1", "bad key vm.0.tau", "bad key vm.0.tau"),
    ("tau = 'x'", "bad key vm.0.tau", "bad key vm.0.tau"),
    ("tau = 1.0", "bad key vm.0.tau", "bad key vm.0.tau"),
    (
        "tau = 100\ntrace = 1",
        "bad key vm.0.trace",
        "bad key vm.0.tau",
    ),
    (
        "tau = 1\ntrace = 1",
        "bad key vm.0.trace",
        "bad key vm.0.trace",
    ),
    (
        "tau = 1\nshape = 1",
        "bad key vm.0.shape",
        "bad key vm.0.shape",
    ),
    (
        "tau = 100\nshape = 1",
        "bad key vm.0.shape",
        "bad key vm.0.tau",
    ),
    ("tau = 1\nzone = 1", "bad key vm.0.tau", "bad key vm.0.zone"),
    (
        "tau = 100\n[[vm]]\nid = 0",
        "bad key vm.1.id",
        "bad key vm.0.tau",
    ),
];

#[test]
fn own_taxes(rt: HostRuntime) -> Result<(), Fail> {
    let alloc = rt.alloc();
    for (keys, in_one, in_two) in &OWN_TAXES {
        let text = format!(in alloc; "{SITE}{VM}{keys}\n")?;
        let came = outcome(alloc, text.as_str())?;
        assert_eq!(rt; came.as_str(), *in_one, "{keys}");
        let text = format!(in alloc; "{SITE_OF_TWO}{VM}{keys}\n")?;
        let came = outcome(alloc, text.as_str())?;
        assert_eq!(rt; came.as_str(), *in_two, "{keys}");
    }
    Ok(())
}

/// A tax of its own is tried behind the balloon.
const BALLOON_AND_TAX: &str = "version = 2
vm = [{ id = 0, min = 1, max = 1, overhead = 1, shares = 1, balloon = 1, tau = 100 }]
machine = { frames = 20, page = 16, slots = 8 }
";

const TWO_MACHINES: &str = "version = 2
[machine]
frames = 20
page = 16
slots = 8
[[vm]]
id = 255
min = 1
max = 1
overhead = 1
shares = 1
balloon = 0
tau = 20
trace = ['ask']
[[vm]]
id = 32
min = 1
max = 1
overhead = 1
shares = 1
balloon = 0
";

#[test]
fn machines_with_their_own_tax(rt: HostRuntime) -> Result<(), Fail> {
    let alloc = rt.alloc();
    let came = outcome(alloc, BALLOON_AND_TAX)?;
    assert_eq!(rt; came.as_str(), "bad key vm.0.balloon");
    let Ok(scenario) = parse_scenario(alloc, TWO_MACHINES) else {
        panic!(rt; "a scenario was refused");
    };
    assert_eq!(rt; scenario.config().tau, 75);
    let guests = scenario.guests();
    assert_eq!(rt; guests.len(), 2);
    assert_eq!(rt; guests[0].vm.number(), 255);
    assert_eq!(rt; guests[0].spec.tau, Some(20));
    assert_eq!(rt; guests[0].trace.as_slice().len(), 1);
    assert_eq!(rt; guests[1].vm.number(), 32);
    assert_eq!(rt; guests[1].spec.tau, None);
    Ok(())
}

const GOOD_LINES: [&str; 7] = [
    "read 5 15 1",
    "read 0 0 16",
    "write 5 15 0f",
    "write 0 0 000102030405060708090a0b0c0d0e0f",
    "ask",
    "lend 5",
    "takeback 0",
];

const BAD_LINES: [&str; 27] = [
    "",
    " ask",
    "ask ",
    "ask 1",
    "Ask",
    "read 6 0 1",
    "read 5 15 2",
    "read 5 0 0",
    "read 5 0",
    "read 5 0 1 1",
    "read  5 0 1",
    "read 05 0 1",
    "read 5 00 1",
    "read +5 0 1",
    "read 4294967296 0 1",
    "read 5 4294967295 1",
    "read 5 1 4294967295",
    "write 5 15 0F",
    "write 5 15 f",
    "write 5 15 0f0f",
    "write 5 15 ",
    "write 5 15",
    "lend 6",
    "takeback",
    "take back 0",
    "start 0",
    "lend 0\\n",
];

#[test]
fn traces(rt: HostRuntime) -> Result<(), Fail> {
    let alloc = rt.alloc();
    for line in &GOOD_LINES {
        let text = format!(in alloc; "{SITE}{VM}trace = [\"{line}\"]\n")?;
        assert_eq!(rt; outcome(alloc, text.as_str())?.as_str(), "ok", "{line}");
    }
    for line in &BAD_LINES {
        let text = format!(in alloc; "{SITE}{VM}trace = ['ask', \"{line}\"]\n")?;
        assert_eq!(rt;
            outcome(alloc, text.as_str())?.as_str(),
            "bad key vm.0.trace",
            "{line}"
        );
    }
    Ok(())
}

/// A version, a number of machines, and what they come to.
const MANY: [(u32, u32, &str); 5] = [
    (1, 32, "ok"),
    (1, 33, "bad key vm"),
    (2, 33, "ok"),
    (2, 256, "ok"),
    (2, 257, "bad key vm"),
];

#[test]
fn many_machines(rt: HostRuntime) -> Result<(), Fail> {
    let alloc = rt.alloc();
    for (version, count, wanted) in &MANY {
        let mut text = format!(in alloc;
            "version = {version}\nmachine = {{ frames = 20, page = 16, slots = 8 }}\n"
        )?;
        for id in 0..*count {
            let vm = format!(in alloc;
                "[[vm]]\nid = {id}\nmin = 1\nmax = 1\noverhead = 1\nshares = 1\nballoon = 0\n"
            )?;
            text.push_str(vm.as_str())?;
        }
        let came = outcome(alloc, text.as_str())?;
        assert_eq!(rt; came.as_str(), *wanted, "{version} {count}");
    }
    Ok(())
}

/// Places are ordered by the bytes of their paths, and not as numbers.
#[test]
fn unknown_keys_of_many_machines(rt: HostRuntime) -> Result<(), Fail> {
    let alloc = rt.alloc();
    let mut text = String::from_str(alloc, SITE)?;
    for id in 0u8..12 {
        let odd = match id {
            2 => "x = 1\n",
            10 => "y = 1\n",
            _ => "",
        };
        let vm = format!(in alloc;
            "[[vm]]\nid = {id}\nmin = 1\nmax = 1\noverhead = 1\nshares = 1\nballoon = 0\n{odd}"
        )?;
        text.push_str(vm.as_str())?;
    }
    assert_eq!(rt; outcome(alloc, text.as_str())?.as_str(), "bad key vm.10.y");
    Ok(())
}
