//! Laws of workers. A function here does nothing: its contract is the law.

ghost use Rattle.esx_workers.specs.GuestRuns.{DoGuestsRun, DoGuestsGoThrough, DoOthersLeave};

/// What a guest asks is a guest run of its trace, and of the whole trace if it ended done.
pub fn guests_run()
    ensures run { DoGuestsRun }
    ensures whole { DoGuestsGoThrough }
{}

/// What any other worker asks leaves a guest's memory.
pub fn others_leave()
    ensures { DoOthersLeave }
{}
