//! Whole paths, and the tables that they lead to.

ghost use Rattle.std.specs.Prelude.{◌≡◌, ◌<◌, None, Ok, Err, IfOk, replicate};
ghost use Rattle.esx_types.specs.Ranges.{IsConfig};
ghost use Rattle.esx_types.specs.declared.config.TheConstants.{VM_NUMBERS};
ghost use Rattle.esx_model.specs.sound.Sound.{IsSound, NamesVm};
ghost use Rattle.esx_model.specs.Replay.{opening, next, run, replay_of};
ghost use Rattle.esx_plain.specs.Runs.{Steps, Runs, Replays, fault_at};

use crate::fault::PlainFault;
use crate::show::shown;
use esx_events::{Answer, Event, Refusal};
use esx_level::Thresholds;
use esx_model::{Book, Scene, Site, Vm};
use esx_steps::{free_count, step};
use esx_types::{Config, Level, Rows, VM_NUMBERS};
use std::alloc::{AllocError, Global};

fn no_machines(alloc: Global) -> Result<Rows<Option<Vm>>, AllocError>
    ensures { IfOk result (λ vms. vms ≡ replicate VM_NUMBERS None) }
{
    let mut vms = Rows::new(alloc);
    for _number in 0..VM_NUMBERS as u32 {
        vms.push(None)?;
    }
    Ok(vms)
}

/// Where a path begins.
fn opening(alloc: Global, config: &Config) -> Result<Scene, AllocError>
    ensures { IfOk result (λ scene. scene ≡ opening config.now) }
{
    Ok(Scene {
        site: Site {
            vms: no_machines(alloc)?,
            hints: Rows::new(alloc),
            tau: config.tau,
        },
        level: Level::High,
    })
}

/// One event, and the level after it.
#[tactic(auto, unfolding(esx_model::specs::Replay::next), using(crate::proofs::Paths::ok_settled))]
fn next(
    alloc: Global,
    config: &Config,
    scene: Scene,
    event: &Event,
) -> Result<(Answer, Scene), Refusal>
    requires config { IsConfig config.now }
    requires sound { IsSound config.now scene.site }
    ensures steps { Steps result (next config.now scene event.now) }
    ensures named { NamesVm event.now }
{
    let Scene { site, level } = scene;
    let (answer, site) = step(alloc, config, site, level, event)?;
    let free = free_count(&site, config.frames) as u32;
    let level = Thresholds::of(*config).next(level, free);
    Ok((answer, Scene { site, level }))
}

/// Why a path has no tables, where the event at a place was refused.
fn fault_at(index: u64, refusal: Refusal) -> PlainFault
    ensures { result ≡ fault_at index refusal }
{
    match refusal {
        Refusal::OutOfMemory => PlainFault::OutOfMemory,
        _ => PlainFault::Refused { at: index, refusal },
    }
}

/// The scene that a path leads to, or its first refused event.
pub fn run(alloc: Global, config: &Config, events: &[Event]) -> Result<Scene, PlainFault>
    requires { IsConfig config.now }
    ensures runs { Runs result (run config.now events.now) }
    ensures sound { IfOk result (λ scene. IsSound config.now scene.site) }
{
    let Ok(mut scene) = opening(alloc, config) else {
        return Err(PlainFault::OutOfMemory);
    };
    for (index, event) in events.iter().enumerate() {
        match next(alloc, config, scene, event) {
            Ok((_, after)) => scene = after,
            Err(refusal) => return Err(fault_at(index as u64, refusal)),
        }
    }
    Ok(scene)
}

/// The tables that a path leads to from the opening of a site, event after event.
///
/// A path ends at its first refused event, which is named with its place, from 0 on.
#[tactic(auto, using(crate::proofs::Paths::replays_shown, crate::proofs::Paths::fault_replays))]
pub fn replay(alloc: Global, config: &Config, events: &[Event]) -> Result<Book, PlainFault>
    requires { IsConfig config.now }
    ensures { Replays result (replay_of config.now events.now) }
{
    match run(alloc, config, events) {
        Ok(scene) => match shown(alloc, config, &scene) {
            Ok(book) => Ok(book),
            Err(_) => Err(PlainFault::OutOfMemory),
        },
        Err(fault) => Err(fault),
    }
}
