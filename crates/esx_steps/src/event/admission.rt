//! A machine comes, under the reserves.

ghost use Rattle.std.specs.Prelude.{◌≡◌, ◌<◌, ◌+◌, IfOk, replicate};
ghost use Rattle.esx_model.specs.declared.scene.Place.TheVariants.{Untouched};
ghost use Rattle.esx_model.specs.sound.Sound.{IsSound};
ghost use Rattle.esx_model.specs.event.Admission.{admit, admitted};
ghost use Rattle.esx_steps.specs.Gives.{Gives};

use crate::site::{memory_reserved, swap_reserved, vm_at};
use esx_events::{Answer, Boxed, Refusal, Reserves};
use esx_model::{Place, Site, Vm};
use esx_types::{Config, Rows, VmId, VmSpec, VmState};
use std::alloc::{AllocError, Global};

/// As many pages as the machine may have, none of them brought.
fn untouched(alloc: Global, pages: u32) -> Result<Rows<Place>, AllocError>
    ensures { IfOk result (λ places. places ≡ replicate pages Untouched) }
{
    let mut places = Rows::new(alloc);
    for _page in 0..pages {
        places.push(Place::Untouched)?;
    }
    Ok(places)
}

fn admitted(alloc: Global, spec: VmSpec) -> Result<Vm, AllocError>
    ensures { IfOk result (λ vm. vm ≡ admitted spec) }
{
    Ok(Vm {
        spec,
        state: VmState::Starting,
        epoch: 0,
        due: false,
        target: spec.max,
        overhead: Rows::new(alloc),
        places: untouched(alloc, spec.max)?,
        closed: Rows::new(alloc),
        period: None,
    })
}

/// A machine comes where its reserves are there.
#[tactic(auto, unfolding(esx_model::specs::event::Admission::admit))]
pub fn admit(
    alloc: Global,
    config: &Config,
    site: Site,
    vm: VmId,
    spec: VmSpec,
) -> Result<(Answer, Site), Refusal>
    requires { IsSound config.now site }
    ensures { Gives result (admit config.now site vm spec) }
{
    let number = usize::from(vm.number());
    if vm_at(&site, number).is_some() {
        return Err(Refusal::VmThere);
    }
    if !spec.is_good() {
        return Err(Refusal::BadSpec);
    }
    let memory = memory_reserved(&site) + (u64::from(spec.min) + u64::from(spec.overhead));
    if u64::from(config.frames) < memory {
        return Err(Refusal::NoMemoryReserve);
    }
    let swap = swap_reserved(&site) + u64::from(spec.max - spec.min);
    if u64::from(config.slots) < swap {
        return Err(Refusal::NoSwapReserve);
    }
    let row = admitted(alloc, spec)?;
    let reserves = Reserves {
        memory: memory as u32,
        frames: config.frames,
        swap: swap as u32,
        slots: config.slots,
    };
    let reserves = Boxed::new(alloc, reserves)?;
    let mut site = site;
    site.vms.set(number, Some(row));
    Ok((Answer::Admitted { reserves }, site))
}
