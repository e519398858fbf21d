//! Laws of changes of place. A function here does nothing: its contract is the law.

ghost use Rattle.esx_passages.specs.Laws.{AreAllPassages, IsEachOnce, AreChangesListed, DoesPageTellSpot, DoEpochsFollow};

/// The passages of an accepted event are the changes of place of all pages that changed theirs, each once.
pub fn passages_are_changes()
    ensures all { AreAllPassages }
    ensures once { IsEachOnce }
{}

/// The passages that are listed of a path are all changes of place that there are, in order of event.
pub fn changes_are_listed()
    ensures { AreChangesListed }
{}

/// What the tables say of a page, and the epoch of its machine, tell where the page is.
pub fn pages_tell_spots()
    ensures { DoesPageTellSpot }
{}

/// The epoch of a machine changes as the answers of accepted events tell it.
pub fn epochs_follow()
    ensures { DoEpochsFollow }
{}
