//! Laws of figures. A function here does nothing: its contract is the law.

ghost use Rattle.esx_figures.specs.Laws.{IsSameAlike, IsSharingTold, IsSharedTold, AreGuestSteps, AreSiteSteps, IsOpeningStep, DoStepsRise, IsStepOnce};

/// A machine is told the same twice exactly where nothing of it differs.
pub fn same_is_alike()
    ensures { IsSameAlike }
{}

/// How many pages of a machine are in shared frames after an accepted event follows from how many were before: one less
/// where the page that parted was in one, and one more for each page that came to share.
pub fn sharing_is_told()
    ensures sharing { IsSharingTold }
    ensures page { IsSharedTold }
{}

/// A step of a machine stands exactly where figures of that machine changed; one of no machine exactly at the opening, and
/// where figures of the site changed and of no machine any. Each tells the figures after its event, and the site after it.
pub fn steps_are_changes()
    ensures guests { AreGuestSteps }
    ensures site { AreSiteSteps }
    ensures opening { IsOpeningStep }
{}

/// Steps stand in order of event, and those of one event in order of machine, so none stands twice.
pub fn steps_rise()
    ensures order { DoStepsRise }
    ensures once { IsStepOnce }
{}
