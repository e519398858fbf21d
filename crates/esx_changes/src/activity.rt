//! What a machine's averages and its open period tell.

ghost use Rattle.std.specs.Prelude.{◌≡◌, ◌≤◌};
ghost use Rattle.esx_formulas.specs.declared.activity.TheConstants.{WHOLE};
ghost use Rattle.esx_formulas.specs.Estimates.{IsEstimate};
ghost use Rattle.esx_model.specs.Readings.{active_now, period_so_far};
ghost use Rattle.esx_changes.specs.Activity.{IsTold};

use esx_model::PeriodRow;
use esx_tables::VmTable;

/// How many of the sampled pages of a period were touched.
pub fn touched(period: &PeriodRow) -> u32
    requires { IsEstimate (period_so_far period.now) }
    ensures { result ≡ (period_so_far period.now).touched }
{
    period
        .marks
        .as_slice()
        .iter()
        .filter(|mark| mark.touched)
        .count() as u32
}

/// How many pages a period samples.
pub fn sampled(period: &PeriodRow) -> u32
    requires { IsEstimate (period_so_far period.now) }
    ensures { result ≡ (period_so_far period.now).pages }
{
    period.marks.len() as u32
}

/// The share of a machine's memory that counts as in use, in units of 1/`WHOLE`.
pub fn active(row: &VmTable) -> u32
    requires { IsTold row.now.period }
    ensures value { result ≡ active_now row.now }
    ensures most { result ≤ WHOLE }
{
    let averages = row.averages();
    match row.period() {
        None => averages.active(None),
        Some(period) => averages.active(Some((row.touched_marks() as u32, sampled(period)))),
    }
}
