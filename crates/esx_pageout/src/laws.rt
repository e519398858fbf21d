//! Laws of the definitions.

ghost use Rattle.esx_pageout.specs.Draws.{DrawsItsPage, IsDrawnByNone, GoesOut};

/// The word of a page draws it, and is less than how many pages of the machine are in frames.
pub fn draws_its_page()
    ensures { DrawsItsPage }
{}

/// No word draws a page that has none.
pub fn drawn_by_none()
    ensures { IsDrawnByNone }
{}

/// A swap-out by the word of a page, where it is accepted, answers with the page.
pub fn goes_out()
    ensures { GoesOut }
{}
