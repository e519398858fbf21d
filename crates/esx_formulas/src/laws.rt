//! Laws of the level, of the ratio's order and of targets.

ghost use Rattle.esx_formulas.specs.LevelLaws.{AreLevelsOrdered};
ghost use Rattle.esx_formulas.specs.ShareLaws.{AreRatiosOrdered, IsTestOfOrder, IsFirstClaimLeast, IsOneListOfTargets, HasTargetsForEachNeed, AreTargetsPageByPage, DoesCommonTaxCancel};

/// A deeper level has no higher threshold; the level is as deep as the free frames ask, and rises by one.
pub fn levels_are_ordered()
    ensures { AreLevelsOrdered }
{}

/// Ratios with their machines' numbers are in a total order.
pub fn ratios_are_ordered()
    ensures { AreRatiosOrdered }
{}

/// One list of targets at most fits rows and a need.
pub fn one_list_of_targets()
    ensures { IsOneListOfTargets }
{}

/// Some list of targets fits rows and a need.
pub fn targets_for_each_need()
    ensures { HasTargetsForEachNeed }
{}

/// The order of ratios as a test passes where the order holds, and nowhere else.
pub fn order_is_tested()
    ensures { IsTestOfOrder }
{}

/// The first claim of rows is that of a machine of least ratio, where any has pages above its floor.
pub fn first_claim_is_least()
    ensures { IsFirstClaimLeast }
{}

/// The list that is worked out page by page fits rows and a need, and no other list does.
pub fn targets_page_by_page()
    ensures { AreTargetsPageByPage }
{}

/// Where all rows have one tax, pages are taken as version 1 takes them.
pub fn common_tax_cancels()
    ensures { DoesCommonTaxCancel }
{}
