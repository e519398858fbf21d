//! Laws of guests among workers. A function here does nothing: its contract is the law.

ghost use Rattle.esx_guests.specs.Runs.{DoRunsReadAlone, DoRunsReadAll};

/// The reads of a guest among workers answer what they answer alone: as far as they come, and all of them if it ended
/// done.
pub fn runs_read_alone()
    ensures prefix { DoRunsReadAlone }
    ensures whole { DoRunsReadAll }
{}
