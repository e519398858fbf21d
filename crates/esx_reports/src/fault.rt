//! Why a question about a session has no answer.

use esx_check::OutputFault;
use esx_events::Refusal;
use esx_reading::TextFault;
use std::alloc::AllocError;
use thiserror::Error;

/// Why a question has no answer, or not a whole one.
#[derive(Debug, Drop, Error, PartialEq, Eq)]
pub enum ReportFault {
    /// The text is no session, or memory ran out as it was checked.
    #[error("{0}")]
    Text(TextFault),
    /// The first call, from 1 on, that has another reply.
    #[error("differs {0}")]
    Differs(u64),
    /// No such node is meant, no such guest, or no such page of it.
    #[error("no {} {}", .0.number(), .0.name())]
    Refused(Refusal),
    #[error("{0}")]
    Output(OutputFault),
}

impl From<AllocError> for ReportFault {
    ghost use Rattle.std.specs.Prelude.{◌≡◌};
    ghost use Rattle.esx_reports.specs.Paths.{no_memory};

    ghost from_gives = { λ _ e. e ≡ no_memory };

    fn from(_error: AllocError) -> ReportFault {
        ReportFault::Output(OutputFault::OutOfMemory)
    }
}
