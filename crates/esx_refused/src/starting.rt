//! Machines that were admitted, and start one after another. Each start makes a node: nothing else can be lacking.

ghost use Rattle.std.specs.Prelude.{◌≡◌, ◌≤◌, IfOk};
ghost use Rattle.esx_types.specs.declared.config.TheConstants.{VM_NUMBERS};
ghost use Rattle.esx_opening.specs.Orders.{of_number};
ghost use Rattle.esx_refused.specs.Promised.{all_started, started_below};

use crate::coming::{RefusedOpening, lacking};
use esx_events::Refusal;
use esx_scenario::Guest;
use esx_types::{Config, VM_NUMBERS};

/// How many nodes are made where those that have a number have started; or the first that is refused.
fn with_number(
    site: &Config,
    nodes: u32,
    guests: &[Guest],
    number: usize,
) -> Result<u32, RefusedOpening>
    requires { nodes ≤ site.now.nodes }
    ensures value { result ≡ all_started site.now nodes (of_number guests.now number) }
    ensures within { IfOk result (λ after. after ≤ site.now.nodes) }
{
    let mut made = nodes;
    for guest in guests {
        if usize::from(guest.vm.number()) == number {
            let starts = guest.spec.overhead;
            if site.nodes - made < starts {
                let next = u64::from(site.nodes) + 1;
                return Err(lacking(guest.vm, Refusal::Full, next, site.nodes));
            }
            made += starts;
        }
    }
    Ok(made)
}

/// The same with all, in the order of their numbers.
pub(crate) fn started(site: &Config, nodes: u32, guests: &[Guest]) -> Result<u32, RefusedOpening>
    requires { nodes ≤ site.now.nodes }
    ensures { result ≡ started_below site.now nodes guests.now VM_NUMBERS }
{
    let mut made = nodes;
    for number in 0..VM_NUMBERS {
        match with_number(site, made, guests, number) {
            Ok(after) => made = after,
            Err(first) => return Err(first),
        }
    }
    Ok(made)
}
