//! How much of its memory a virtual machine uses, from the sample periods that closed.

ghost use Rattle.std.specs.Prelude.{◌≡◌, ◌≤◌, ◌++◌, ◌∷◌, [], List};
ghost use Rattle.std.specs.Option.{ForSome};
ghost use Rattle.esx_formulas.specs.declared.activity.Estimate.{Estimate};
ghost use Rattle.esx_formulas.specs.Average.{active_share, touched_share};
ghost use Rattle.esx_formulas.specs.Estimates.{IsEstimate};
ghost use Rattle.esx_average.specs.Means.{estimate, so_far, means_of, next_means};

use esx_formulas::activity::{Estimate, WHOLE, touched_share};
use std::marker::Model;

/// The slow and the fast average of the share of a machine's memory that is in use, in units of
/// 1/`WHOLE`.
#[derive(Clone, Copy, Debug)]
pub struct Averages {
    slow: u32,
    fast: u32,
}

impl Model for Averages {
    ghost use Rattle.std.specs.Prelude.{◌≤◌};
    ghost use Rattle.esx_formulas.specs.declared.activity.TheConstants.{WHOLE};
    ghost use Rattle.esx_average.specs.Means.{Means};

    ghost Value = { Means };

    ghost view = { λ a. record { slow = a.slow; fast = a.fast } };

    ghost invariant = { λ a. (a.slow ≤ WHOLE) × (a.fast ≤ WHOLE) };

    ghost inverse = { λ m. record { slow = m.slow; fast = m.fast } };
}

impl Averages {
    /// The averages of a machine of which no period has closed: all of its memory counts as in use.
    pub fn opened() -> Averages
        ensures whole { result ≡ record { slow = WHOLE; fast = WHOLE } }
        ensures none { result ≡ means_of [] }
    {
        Averages {
            slow: WHOLE,
            fast: WHOLE,
        }
    }

    pub fn slow(self) -> u32
        ensures value { result ≡ self.slow }
        ensures most { result ≤ WHOLE }
    {
        self.slow
    }

    pub fn fast(self) -> u32
        ensures value { result ≡ self.fast }
        ensures most { result ≤ WHOLE }
    {
        self.fast
    }

    /// The averages after one more period, in which `touched` of `pages` sampled pages were touched,
    /// each page as often as it was drawn. `pages` is 1 to `MAX_SAMPLE`.
    pub fn close_period(self, touched: u32, pages: u32) -> Averages
        requires { IsEstimate (estimate touched pages) }
        ensures step { result ≡ next_means self (estimate touched pages) }
        ensures path { (closed : List Estimate) → self ≡ means_of closed → result ≡ means_of (closed ++ estimate touched pages ∷ []) }
    {
        let share = touched_share(Estimate { touched, pages });
        Averages {
            slow: (self.slow * 7 + share) / 8,
            fast: (self.fast + share) / 2,
        }
    }

    /// The share of the machine's memory that counts as in use: the greatest of the slow average, the
    /// fast one, and the fast one as it would be if the open period closed now. `now` is how many of how
    /// many sampled pages of the open period were touched, or none where no period is open.
    pub fn active(self, now: Option<(u32, u32)>) -> u32
        requires { ForSome now (λ e. IsEstimate (estimate e.0 e.1)) }
        ensures value { result ≡ active_share self.slow self.fast (so_far now) }
        ensures most { result ≤ WHOLE }
    {
        let open = match now {
            Some((touched, pages)) => (self.fast + touched_share(Estimate { touched, pages })) / 2,
            None => self.fast,
        };
        self.slow.max(self.fast.max(open))
    }
}
