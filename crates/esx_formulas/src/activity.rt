//! The averages of a machine's activity, from all of its closed sample periods.

ghost use Rattle.std.specs.Prelude.{◌≡◌, ◌≤◌, All};
ghost use Rattle.std.specs.Option.{ForSome};
ghost use Rattle.esx_formulas.specs.Average.{touched_share, slow_average, fast_average, active_share};
ghost use Rattle.esx_formulas.specs.Estimates.{IsEstimate};

use esx_types::Rows;

/// All of a machine's memory, in the unit of averages and of shares that are in use.
pub const WHOLE: u32 = 65536;

/// What a closed sample period told: how many of its sampled pages were touched.
#[derive(Clone, Copy, Debug, PartialEq, Eq)]
pub struct Estimate {
    pub touched: u32,
    pub pages: u32,
}

/// An open sample period.
#[derive(Debug, Drop)]
pub struct Period {
    /// How many accesses close it.
    pub length: u32,
    /// The sampled pages, equal ones as often as they were drawn.
    pub pages: Rows<u32>,
    /// The pages accessed in it so far, the oldest access first.
    pub accessed: Rows<u32>,
}

impl Period {
    ghost use Rattle.esx_formulas.specs.Average.{is_touched};

    /// Was the page accessed in the period?
    pub fn is_touched(&self, page: u32) -> bool
        ensures { result ≡ is_touched self.now page }
    {
        self.accessed.as_slice().iter().any(|own| *own == page)
    }
}

/// The share of the sampled pages that were touched, in units of 1/`WHOLE`.
pub fn touched_share(estimate: Estimate) -> u32
    requires { IsEstimate estimate }
    ensures value { result ≡ touched_share estimate }
    ensures most { result ≤ WHOLE }
{
    estimate.touched * WHOLE / estimate.pages
}

/// The average over closed periods, the oldest first, in which the past weighs seven times a period.
#[tactic(auto, using(crate::proofs::AverageLaws::slow_of_none, crate::proofs::AverageLaws::slow_average_more))]
pub fn slow_average(closed: &[Estimate]) -> u32
    requires { All IsEstimate closed.now }
    ensures value { result ≡ slow_average closed.now }
    ensures most { result ≤ WHOLE }
{
    let mut slow = WHOLE;
    for estimate in closed {
        slow = (slow * 7 + touched_share(*estimate)) / 8;
    }
    slow
}

/// The average over closed periods, the oldest first, in which the past weighs as much as a period.
#[tactic(auto, using(crate::proofs::AverageLaws::fast_of_none, crate::proofs::AverageLaws::fast_average_more))]
pub fn fast_average(closed: &[Estimate]) -> u32
    requires { All IsEstimate closed.now }
    ensures value { result ≡ fast_average closed.now }
    ensures most { result ≤ WHOLE }
{
    let mut fast = WHOLE;
    for estimate in closed {
        fast = (fast + touched_share(*estimate)) / 2;
    }
    fast
}

/// The greatest of the slow average, the fast one, and the fast one as it would be if the open period,
/// where there is one, closed now.
pub fn active_share(slow: u32, fast: u32, now: Option<Estimate>) -> u32
    requires averages { (slow ≤ WHOLE) × (fast ≤ WHOLE) }
    requires open { ForSome now IsEstimate }
    ensures value { result ≡ active_share slow fast now }
    ensures most { result ≤ WHOLE }
{
    let open = match now {
        Some(estimate) => (fast + touched_share(estimate)) / 2,
        None => fast,
    };
    slow.max(fast.max(open))
}
