//! The taxed ratio as a number.

ghost use Rattle.std.specs.Prelude.{◌≡◌};
ghost use Rattle.esx_formulas.specs.Ratio.{thousandths};
ghost use Rattle.esx_order.specs.Order.{IsAbove, ratio_of};

use crate::above::Above;
use esx_formulas::activity::WHOLE;
use esx_formulas::ratio::{price, weight};

/// The taxed ratio of a machine, in thousandths of a share for a page.
pub fn thousandths(above: &Above) -> u64
    requires { IsAbove above.now }
    ensures { result ≡ thousandths (ratio_of above.now) }
{
    let row = &above.row;
    1000 * (u64::from(WHOLE) * u64::from(weight(row))) / (u64::from(row.pages) * price(row))
}
