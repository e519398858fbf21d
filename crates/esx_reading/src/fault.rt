//! How texts are refused.

use thiserror::Error;

/// Why a text was refused. Each has a number of its own.
#[derive(Debug, Drop, Error, PartialEq, Eq)]
pub enum TextFault {
    #[error("bad toml")]
    NotToml,
    /// The first key, by its path, that is missing, of another kind, out of range or unknown.
    #[error("bad key {0}")]
    BadKey(String),
    /// The line, from 1 on, at which the text cannot go on as it should.
    #[error("bad line {0}")]
    BadLine(u64),
    /// A file that is not UTF-8.
    #[error("bad text")]
    NotText,
    /// The call, from 1 on, whose reply is another.
    #[error("differs {0}")]
    Differs(u64),
    #[error("read fault")]
    Read,
    #[error("write fault")]
    Write,
    #[error("no memory")]
    OutOfMemory,
}

impl TextFault {
    ghost use Rattle.std.specs.Prelude.{◌≡◌};
    ghost use Rattle.esx_reading.specs.Faults.{fault_number};

    /// The number under which it is known.
    pub fn number(&self) -> u8
        ensures { result ≡ fault_number self.now }
    {
        match self {
            TextFault::NotToml => 40,
            TextFault::BadKey(_) => 41,
            TextFault::BadLine(_) => 42,
            TextFault::NotText => 43,
            TextFault::Differs(_) => 44,
            TextFault::Read => 45,
            TextFault::Write => 46,
            TextFault::OutOfMemory => 26,
        }
    }
}
