//! The steps of a path: what is told of an event at which figures changed.

ghost use Rattle.std.specs.Prelude.{◌≡◌};
ghost use Rattle.esx_figures.specs.Steps.{opening_step, guest_step, site_step};

use crate::figures::{Figures, is_same_guest, is_same_site};
use esx_events::Sum;
use esx_types::VmId;

/// An event at which figures changed, with the frames of each kind and the level after it: a machine whose figures it
/// changed and its figures after it, none where it went; or no machine, where the site's alone changed.
///
/// `at` is the place of the event in the path, from 1 on, and 0 for the opening.
#[derive(Clone, Copy, Debug, PartialEq, Eq)]
pub struct Step {
    pub at: u32,
    pub site: Sum,
    pub vm: Option<VmId>,
    pub figures: Option<Figures>,
}

/// The step of a site as it is opened.
pub fn opening_step(site: Sum) -> Step
    ensures { result ≡ opening_step site }
{
    Step {
        at: 0,
        site,
        vm: None,
        figures: None,
    }
}

/// The step of a machine, if its figures changed.
pub fn guest_step(
    at: u32,
    site: Sum,
    vm: VmId,
    before: &Option<Figures>,
    after: &Option<Figures>,
) -> Option<Step>
    ensures { result ≡ guest_step at site vm before.now after.now }
{
    if is_same_guest(before, after) {
        None
    } else {
        Some(Step {
            at,
            site,
            vm: Some(vm),
            figures: *after,
        })
    }
}

/// The step of the site alone, if its figures changed.
pub fn site_step(at: u32, before: &Sum, after: &Sum) -> Option<Step>
    ensures { result ≡ site_step at before.now after.now }
{
    if is_same_site(before, after) {
        None
    } else {
        Some(Step {
            at,
            site: *after,
            vm: None,
            figures: None,
        })
    }
}
