//! Laws of advice. A function here does nothing: its contract is the law.

ghost use Rattle.esx_advice.specs.Advised.{DoesWriteGo, DoesReadGo, DoesNamedGo, DoesRebalanceGo, DoesSwapOutLower, DoesRebalanceLeave, DoesSwapOutFollow, DoesGoFollow, IsHelpBounded, IsWaitAdvised, DoesAdviceGoOn, DoesAdviceEnd};

/// If the advice is to go, a write of some bytes inside the page is accepted.
pub fn write_goes_as_advised()
    ensures { DoesWriteGo }
{}

/// And so is a read of some bytes inside the page.
pub fn read_goes_as_advised()
    ensures { DoesReadGo }
{}

/// Any other advice, on each path, names an event that is accepted, with any word. Targets can be set anew at any time.
pub fn advised_event_goes()
    ensures named { DoesNamedGo }
    ensures rebalance { DoesRebalanceGo }
{}

/// A page that is paged out lowers the debt, and new targets leave it.
pub fn swap_out_lowers()
    ensures swap_out { DoesSwapOutLower }
    ensures rebalance { DoesRebalanceLeave }
{}

/// Straight after an advised rebalance the advice is to page out, straight after a replace it is to go.
pub fn advice_follows()
    ensures rebalance { DoesSwapOutFollow }
    ensures replace { DoesGoFollow }
{}

/// With no other actor, at most twice the debt and two advised events stand before the answer to go.
pub fn help_is_bounded()
    ensures { IsHelpBounded }
{}

/// An access that has to wait, as its machine is held or no frame is free, has an advice for its page.
pub fn wait_is_advised()
    ensures { IsWaitAdvised }
{}

/// After an advised event the answer is an advice again, and never a refusal.
pub fn advice_goes_on()
    ensures { DoesAdviceGoOn }
{}

/// With no other actor advice leads to the answer to go, within twice the debt and two advised events, whatever
/// words they take.
pub fn advice_ends()
    ensures { DoesAdviceEnd }
{}
