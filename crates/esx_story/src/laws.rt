//! Laws of losses and gains. A function here does nothing: its contract is the law.

ghost use Rattle.esx_story.specs.Hows.{IsLossHow, IsGainHow, IsOtherHow, AreLossesChanges, AreGainsChanges};
ghost use Rattle.esx_story.specs.Readings.{DoesPageTell, IsReadingEnough};
ghost use Rattle.esx_story.specs.Paths.{AreMoments, AreLossesTold, DoCountsStartAnew, IsBackFirst, IsOverFirst, IsBackGained, IsComeGained, IsSetLast};
ghost use Rattle.esx_story.specs.Laws.{IsLossTold, IsOneLost, IsGainTold, IsOneGained, DoOthersStay, AddsUp, AreLossesListed, AreGainsListed, IsFirstAdvised, IsRanked, IsNextFirst};

/// What an accepted event takes out of its frame is one page at most, which its answer tells; what it brings is
/// one page at most; all others stay.
pub fn changes_are_told()
    ensures lost { IsLossTold }
    ensures one_lost { IsOneLost }
    ensures gained { IsGainTold }
    ensures one_gained { IsOneGained }
    ensures others { DoOthersStay }
{}

/// What a machine gained since it was last admitted is what it lost and what it has.
pub fn pages_add_up()
    ensures { AddsUp }
{}

/// The losses and the gains that are listed of a path are all that there are, each once, in order.
pub fn changes_are_listed()
    ensures lost { AreLossesListed }
    ensures gained { AreGainsListed }
{}

/// The machine of rank 1 is the one that advice names; the machines above their target have a rank. The one that
/// comes next is the one that advice would name if the machine that is asked for were not there.
pub fn first_is_advised()
    ensures first { IsFirstAdvised }
    ensures above { IsRanked }
    ensures next { IsNextFirst }
{}

/// The moments of a path are its events, each between the scenes that the path leads to.
pub fn moments_are_the_path()
    ensures { AreMoments }
{}

/// The counts of a machine start anew when it is admitted.
pub fn counts_start_anew()
    ensures { DoCountsStartAnew }
{}

/// A page that was lost is back with the first later event after which it is here, if its machine does not go
/// before; and then it is gained, and it came back as that gain says. Or its machine goes before, with the first event
/// with which it does.
pub fn back_is_first()
    ensures first { IsBackFirst }
    ensures over { IsOverFirst }
    ensures gained { IsBackGained }
    ensures came { IsComeGained }
{}

/// The losses that are told of a path, each with what stood about it, are its losses, each once, in order.
pub fn losses_are_told()
    ensures { AreLossesTold }
{}

/// A page changed its place so that it left its frame exactly where the event lost it, and the loss says the same how;
/// so that it came into a frame exactly where the event gained it, likewise; any other page stays in frames, or out of
/// them. The losses and the gains that are listed of a path are those of its changes of place.
pub fn how_tells()
    ensures lost { IsLossHow }
    ensures gained { IsGainHow }
    ensures others { IsOtherHow }
    ensures losses { AreLossesChanges }
    ensures gains { AreGainsChanges }
{}

/// Where the tables say that a page is before an event tells whether it is here, and how it comes.
pub fn page_tells()
    ensures page { DoesPageTell }
    ensures event { IsReadingEnough }
{}

/// The targets in force at an event were set by the last Rebalance before it in the life of the machine.
pub fn set_is_last()
    ensures { IsSetLast }
{}
