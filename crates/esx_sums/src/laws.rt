//! Laws of sums. A function here does nothing: its contract is the law.

ghost use Rattle.esx_sums.specs.Laws.{DoGuestsAddUp, AreAllEvents, IsLeastFirst, IsMostFirst, IsPresentSmall};
ghost use Rattle.esx_sums.specs.Telling.{IsMoveTold, IsHostHow};

/// What a machine gained in a life is what it lost in it and what it has at the end: nothing, where the life is over.
pub fn guests_add_up()
    ensures { DoGuestsAddUp }
{}

/// After each event one of the levels stands.
pub fn levels_add_up()
    ensures { AreAllEvents }
{}

/// What is told as the least and as the most is so, and first so at its place.
pub fn extremes_are_first()
    ensures least { IsLeastFirst }
    ensures most { IsMostFirst }
{}

/// What an accepted event answers, and where the page that it names was before it, tell how the page that it is about
/// moved.
pub fn moves_are_told()
    ensures { IsMoveTold }
{}

/// A page in whose frame another came had the frame for itself, and shares it now.
pub fn hosts_share()
    ensures { IsHostHow }
{}

/// What is told of the machines of a sound site is small enough for `go_on`.
pub fn present_is_small()
    ensures { IsPresentSmall }
{}
