//! The steps of an event.

ghost use Rattle.std.specs.Prelude.{◌≡◌, ◌++◌, ◌+◌, ◌<◌, ◌≤◌, vec_len, vec_capacity};
ghost use Rattle.esx_types.specs.declared.config.TheConstants.{VM_NUMBERS};
ghost use Rattle.esx_figures.specs.Steps.{told, guests_told, or_site};
ghost use Rattle.esx_watch.specs.Telling.{HasRoom};

use crate::looking::Guests;
use esx_events::Sum;
use esx_figures::Step;
use esx_figures::steps::{guest_step, site_step};
use esx_types::VmId;

/// Adds a step, if there is one.
fn tell(steps: &mut Vec<Step>, step: Option<Step>)
    requires { vec_len steps.old < vec_capacity steps.old }
    ensures told { steps.new.items ≡ steps.old.items ++ told step }
    ensures len { vec_len steps.new ≤ vec_len steps.old + 1 }
    ensures capacity { vec_capacity steps.new ≡ vec_capacity steps.old }
{
    if let Some(step) = step {
        steps.push_reserved(Step {
            at: step.at,
            site: step.site,
            vm: step.vm,
            figures: step.figures,
        });
    }
}

/// Adds the steps of the machines whose figures changed.
fn tell_guests(steps: &mut Vec<Step>, at: u32, site: Sum, before: &Guests, after: &Guests)
    requires { HasRoom (vec_len steps.old) (vec_capacity steps.old) }
    ensures told { steps.new.items ≡ steps.old.items ++ guests_told at site before.now after.now VM_NUMBERS }
    ensures capacity { vec_capacity steps.new ≡ vec_capacity steps.old }
{
    let numbers_before = before.numbers();
    let numbers_now = after.numbers();
    let last = numbers_before.max(numbers_now);
    for number in 0..last {
        let vm = VmId::new(number as u8);
        let was = before.at(number);
        let is = after.at(number);
        tell(steps, guest_step(at, site, vm, &was, &is));
    }
}

/// Adds the steps of an event, of which these were the figures before it and after it.
pub(crate) fn tell_event(
    steps: &mut Vec<Step>,
    at: u32,
    site_before: &Sum,
    site: &Sum,
    before: &Guests,
    after: &Guests,
)
    requires { HasRoom (vec_len steps.old) (vec_capacity steps.old) }
    ensures { steps.new.items ≡ steps.old.items ++ or_site at site_before.now site.now (guests_told at site.now before.now after.now VM_NUMBERS) }
{
    let told = steps.len();
    tell_guests(steps, at, *site, before, after);
    if steps.len() == told {
        tell(steps, site_step(at, site_before, site));
    }
}
