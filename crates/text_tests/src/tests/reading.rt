//! Files through readers that give little at a time, fail or never end, and the texts of faults.

ghost use Rattle.std.specs.Prelude.{◌≡◌, ◌≤◌};

use esx_reading::{TextFault, read_text};
use esx_types::ReadSource;
use std::alloc::Global;
use std::io::{self, ErrorKind, Read};
use std::marker::Brand;
use std::sync::ledger::{Blank, Ledger};
use std::test::Fail;

#[test]
fn faults(rt: HostRuntime) -> Result<(), Fail> {
    let alloc = rt.alloc();
    let path = String::from_str(alloc, "vm.0.min")?;
    let rows = [
        (TextFault::NotToml, 40, "bad toml"),
        (TextFault::BadKey(path), 41, "bad key vm.0.min"),
        (TextFault::BadLine(7), 42, "bad line 7"),
        (TextFault::NotText, 43, "bad text"),
        (TextFault::Differs(1), 44, "differs 1"),
        (TextFault::Read, 45, "read fault"),
        (TextFault::Write, 46, "write fault"),
        (TextFault::OutOfMemory, 26, "no memory"),
    ];
    for (fault, number, text) in &rows {
        assert_eq!(rt; fault.number(), *number);
        assert_eq!(rt; fault.to_string(alloc)?.as_str(), *text);
    }
    Ok(())
}

/// Gives one text over and over, so many bytes at a time, as long as bytes are left. An interruption comes
/// before each read, and a failure after so many reads.
#[derive(Drop)]
struct Tape {
    text: &'static [u8],
    most: usize,
    left: usize,
    reads: u32,
    interrupted: bool,
}

impl Read for Tape {
    fn read(&mut self, buffer: &mut [u8]) -> io::Result<usize> {
        self.interrupted = !self.interrupted;
        if self.interrupted {
            return Err(io::Error::from(ErrorKind::Interrupted));
        }
        if self.reads == 0 {
            return Err(io::Error::from(ErrorKind::Other));
        }
        self.reads -= 1;
        let count = self
            .text
            .len()
            .min(buffer.len())
            .min(self.most)
            .min(self.left);
        let (front, _) = self.text.split_at(count);
        buffer[..count].copy_from_slice(front);
        self.left -= count;
        Ok(count)
    }
}

fn make_tape(text: &'static [u8], most: usize, left: usize, reads: u32) -> Tape {
    Tape {
        text,
        most,
        left,
        reads,
        interrupted: false,
    }
}

fn read_counted<L: Ledger>(alloc: Global, tape: Tape, blank: Blank) -> Result<String, TextFault>
    requires name { blank.name ≡ L.name }
    requires parts { blank.parts ≡ L.parts }
    requires four { 4 ≤ blank.parts }
{
    let mut source = ReadSource::<_, L>::new(tape, blank);
    read_text(alloc, &mut source)
}

/// The text of a tape, or why it has none.
fn read_tape(alloc: Global, tape: Tape) -> Result<String, TextFault> {
    read_counted::<Brand>(alloc, tape, Blank::new(4))
}

static NOUGHTS: [u8; 65536] = [48; 65536];

#[test]
fn whole(rt: HostRuntime) -> Result<(), Fail> {
    let alloc = rt.alloc();
    assert_eq!(rt;
        read_tape(alloc, make_tape(b"esx", 9, 6, 9))?.as_str(),
        "esxesx"
    );
    assert_eq!(rt;
        read_tape(alloc, make_tape(b"esx", 1, 2, 9))?.as_str(),
        "ee"
    );
    // the end is read once
    assert_eq!(rt;
        read_tape(alloc, make_tape(b"esx", 9, 6, 3))?.as_str(),
        "esxesx"
    );
    assert_eq!(rt; read_tape(alloc, make_tape(b"esx", 9, 0, 9))?.as_str(), "");
    assert_eq!(rt;
        read_tape(alloc, make_tape(b"\xff", 9, 1, 9)),
        Err(TextFault::NotText)
    );
    assert_eq!(rt;
        read_tape(alloc, make_tape(b"esx", 9, 6, 2)),
        Err(TextFault::Read)
    );
    assert_eq!(rt;
        read_tape(alloc, make_tape(b"esx", 9, 6, 0)),
        Err(TextFault::Read)
    );
    Ok(())
}

/// A file of `2^26` bytes is read, and one of a byte more is not.
#[test]
fn long(rt: HostRuntime) -> Result<(), Fail> {
    let alloc = rt.alloc();
    let text = read_tape(alloc, make_tape(&NOUGHTS, 65536, 67108864, 4000000))?;
    assert_eq!(rt; text.len(), 67108864);
    assert_eq!(rt;
        read_tape(alloc, make_tape(&NOUGHTS, 65536, 67108865, 4000000)),
        Err(TextFault::Read)
    );
    Ok(())
}
