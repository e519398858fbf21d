//! Laws of the model.

ghost use Rattle.esx_model.specs.Laws.{IsOpeningSound, IsEachEventSound, IsEachPathSound, IsEachPressedSiteFull, IsReadHarmless, HaveSitesTargets, AreAllFramesCounted, IsBookRead, IsEachPathWithinReserves};
ghost use Rattle.esx_model.specs.Epochs.{IsEpochRaisedOnce, AreEpochsCounted, IsEachEpochCounted, AreEpochsShown};

/// A path begins at a sound site.
pub fn opening_is_sound()
    ensures { IsOpeningSound }
{}

/// Each accepted event leaves a sound site sound.
pub fn each_event_is_sound()
    ensures { IsEachEventSound }
{}

/// Each path leads to a sound site.
pub fn each_path_is_sound()
    ensures { IsEachPathSound }
{}

/// Where a page may be replaced, each machine has its least and no frame has two pages.
pub fn each_pressed_site_is_full()
    ensures { IsEachPressedSiteFull }
{}

/// A read changes no page's bytes.
pub fn read_is_harmless()
    ensures { IsReadHarmless }
{}

/// One list of targets fits the rows of a sound site.
pub fn sites_have_targets()
    ensures { HaveSitesTargets }
{}

/// The frames of all kinds add up, and counts are numbers of pages.
pub fn frames_are_counted()
    ensures { AreAllFramesCounted }
{}

/// The book of a sound site is read from its tables.
pub fn book_is_read()
    ensures { IsBookRead }
{}

/// Each path keeps targets, pages out and hints within their bounds.
pub fn each_path_is_within_reserves()
    ensures { IsEachPathWithinReserves }
{}

/// An event raises a machine's epoch by one at most, so on each path it is at most the number of events.
pub fn epochs_are_counted()
    ensures event { IsEpochRaisedOnce }
    ensures path { AreEpochsCounted }
    ensures each { IsEachEpochCounted }
    ensures shown { AreEpochsShown }
{}
