//! Laws of records, of advice, and of what a virtual machine reads. A function here has next to no body: its
//! contract is the law.

ghost use Rattle.std.specs.Prelude.{◌≡◌, Result};
ghost use Rattle.esx_events.specs.declared.event.Answer.{Answer};
ghost use Rattle.esx_events.specs.declared.event.Refusal.{Refusal};
ghost use Rattle.esx_model.specs.declared.scene.Scene.{Scene};
ghost use Rattle.esx_advice.specs.Advised.{DoesWriteGo, DoesReadGo, DoesNamedGo, DoesRebalanceGo, DoesSwapOutLower, DoesRebalanceLeave, DoesSwapOutFollow, DoesGoFollow, IsHelpBounded, IsWaitAdvised, DoesAdviceGoOn, DoesAdviceEnd};
ghost use Rattle.esx_machine.specs.Applied.{DoMachinesReadAlike};
ghost use Rattle.esx_machine.specs.Machine.{Kept, IsKept, Back, flipped, Trades, turned, Accepts};

/// A record leads to one state. Flipped, it leads back, and flipped again it is as it was, and so are the tables.
pub fn there_and_back()
    ensures one { (r : Back) (here there other : Kept) → Trades r here there → Trades r here other → there ≡ other }
    ensures leads_back { (r : Back) (here there : Kept) → IsKept here → Trades r here there → Trades (turned r here) there here }
    ensures again { (r : Back) (here there : Kept) → Trades r here there → flipped there (turned r here) ≡ (here, r) }
{}

/// After an accepted event a flip leads to the state before it, and a second one to the state after it, with the event's own record.
pub fn event_there_and_back()
    ensures back { (old new : Kept) (answer : Answer) (r : Back) (d : Result (Answer × Scene) Refusal) → IsKept new → Accepts old new answer r d
        → Trades r new old × Trades (turned r new) old new }
    ensures again { (old new : Kept) (answer : Answer) (r : Back) (d : Result (Answer × Scene) Refusal) → Accepts old new answer r d
        → turned (turned r new) old ≡ r }
{}

/// If the advice is to go, a write of some bytes inside the page is accepted.
pub fn write_goes_as_advised()
    ensures { DoesWriteGo }
{
    esx_advice::laws::write_goes_as_advised();
}

/// And so is a read of some bytes inside the page.
pub fn read_goes_as_advised()
    ensures { DoesReadGo }
{
    esx_advice::laws::read_goes_as_advised();
}

/// Any other advice, on each path, names an event that is accepted, with any word. Targets can be set anew at any time.
pub fn advised_event_goes()
    ensures named { DoesNamedGo }
    ensures rebalance { DoesRebalanceGo }
{
    esx_advice::laws::advised_event_goes();
}

/// A page that is paged out lowers the debt, and new targets leave it.
pub fn swap_out_lowers()
    ensures swap_out { DoesSwapOutLower }
    ensures rebalance { DoesRebalanceLeave }
{
    esx_advice::laws::swap_out_lowers();
}

/// Straight after an advised rebalance the advice is to page out, straight after a replace it is to go.
pub fn advice_follows()
    ensures rebalance { DoesSwapOutFollow }
    ensures replace { DoesGoFollow }
{
    esx_advice::laws::advice_follows();
}

/// With no other actor, at most twice the debt and two advised events stand before the answer to go.
pub fn help_is_bounded()
    ensures { IsHelpBounded }
{
    esx_advice::laws::help_is_bounded();
}

/// An access that has to wait, as its machine is held or no frame is free, has an advice for its page.
pub fn wait_is_advised()
    ensures { IsWaitAdvised }
{
    esx_advice::laws::wait_is_advised();
}

/// After an advised event the answer is an advice again, and never a refusal.
pub fn advice_goes_on()
    ensures { DoesAdviceGoOn }
{
    esx_advice::laws::advice_goes_on();
}

/// With no other actor advice leads to the answer to go, within twice the debt and two advised events, whatever
/// words they take.
pub fn advice_ends()
    ensures { DoesAdviceEnd }
{
    esx_advice::laws::advice_ends();
}

/// A read that two machines of a site accept answers equal bytes, if the same events name its virtual machine. Scans, swap
/// outs, samples and shares count as no such events.
pub fn reads_are_isolated()
    ensures { DoMachinesReadAlike }
{
    esx_isolation::laws::reads_are_isolated();
}
