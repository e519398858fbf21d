//! How an output ends early.

use thiserror::Error;

/// Why an output is not whole.
#[derive(Debug, Drop, Error, PartialEq, Eq)]
pub enum OutputFault {
    /// The sink failed, or took no bytes.
    #[error("write fault")]
    Write,
    #[error("no memory")]
    OutOfMemory,
}
