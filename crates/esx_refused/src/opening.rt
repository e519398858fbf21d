//! The first machine that is refused as a site is opened.

ghost use Rattle.std.specs.Prelude.{◌≡◌, IfSome, IsSomeAnd, IfNone};
ghost use Rattle.esx_events.specs.declared.event.Refusal.{Refusal};
ghost use Rattle.esx_model.specs.Console.{Session};
ghost use Rattle.esx_console.specs.Calls.{opened_session};
ghost use Rattle.esx_opening.specs.Openings.{opening_events, AreAccepted, IsRefusedAt};
ghost use Rattle.esx_refused.specs.Refused.{first_refused, IsRefusedOf};

use crate::coming::{RefusedOpening, admitted};
use crate::starting::started;
use esx_scenario::Guest;
use esx_types::Config;

/// The first machine that is refused as a site is opened, whose machines are admitted, and then started, in the order of
/// their numbers; `None` where all run. No memory is taken.
pub fn refused_opening(site: &Config, guests: &[Guest]) -> Option<RefusedOpening>
    ensures first { result ≡ first_refused site.now guests.now }
    ensures machine { IfSome result (λ m. IsRefusedOf site.now guests.now m) }
    ensures refusal { (e : Refusal) → IsRefusedAt (opening_events guests.now) (opened_session site.now) e → IsSomeAnd result (λ m. m.refusal ≡ e) }
    ensures all_run { IfNone result ((opened : Session) × AreAccepted (opening_events guests.now) (opened_session site.now) opened) }
{
    match admitted(site, guests) {
        Ok(promised) => started(site, promised.nodes, guests).err(),
        Err(first) => Some(first),
    }
}
