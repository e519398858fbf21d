//! Laws of waiting for the lock, as `specs/Waiting` has it. A function here does nothing: its contract is the law.

ghost use Rattle.esx_waiting.specs.Wakes.{IsNoWakeLost, CanEachSleeperBeWoken, DoThreadsSleep};

/// Wherever steps lead, while anybody sleeps a wake depends on a thread that is awake: one that has the watch, where it is
/// said that somebody sleeps, or one that is about to wake another or was woken itself.
pub fn no_wake_is_lost()
    ensures { IsNoWakeLost }
{}

/// Wherever steps lead, some steps of the threads that are awake lead on to the wake of any one that sleeps.
pub fn each_sleeper_can_be_woken()
    ensures { CanEachSleeperBeWoken }
{}

/// Steps lead to a thread that sleeps.
pub fn threads_sleep()
    ensures { DoThreadsSleep }
{}
