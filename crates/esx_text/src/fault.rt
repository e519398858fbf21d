//! How serving ends early.

use thiserror::Error;

/// Why serving ended before the end of the input.
#[derive(Debug, Drop, Error, PartialEq, Eq)]
pub enum ServeFault {
    /// The source failed, or gave no end in `READS` reads.
    #[error("read fault")]
    Read,
    /// The sink failed, or took no bytes.
    #[error("write fault")]
    Write,
    #[error("no memory")]
    OutOfMemory,
}
