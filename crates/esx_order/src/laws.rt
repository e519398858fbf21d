//! Laws of the order. A function here does nothing: its contract is the law.

ghost use Rattle.esx_order.specs.Laws.{HasOneOrder, AreRanked, IsAdvisedFirst, IsFirstAdvised, IsNoneAdvised};

/// A site's machines above their targets are in one order.
pub fn one_order()
    ensures { HasOneOrder }
{}

/// A machine's place in the order is its rank.
pub fn places_are_ranks()
    ensures { AreRanked }
{}

/// The machine that advice names to page out is the one that stands first in the order.
pub fn advised_is_first()
    ensures first { IsAdvisedFirst }
    ensures advised { IsFirstAdvised }
    ensures none { IsNoneAdvised }
{}
