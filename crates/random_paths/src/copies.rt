//! Copies of a scene, since a step of the plain program takes its scene.

ghost use Rattle.std.specs.Prelude.{◌≡◌, IfOk};

use esx_formulas::Period;
use esx_model::{Place, Scene, Site, Vm};
use esx_types::Rows;
use std::alloc::{AllocError, Global};

fn copy_place(place: &Place) -> Result<Place, AllocError>
    ensures { IfOk result (λ copy. copy ≡ place.now) }
{
    Ok(match place {
        Place::Untouched => Place::Untouched,
        Place::Here {
            bytes,
            frame,
            shared,
        } => Place::Here {
            bytes: bytes.copy()?,
            frame: *frame,
            shared: *shared,
        },
        Place::Out { bytes, slot } => Place::Out {
            bytes: bytes.copy()?,
            slot: *slot,
        },
        Place::Lent { epoch } => Place::Lent { epoch: *epoch },
    })
}

fn copy_places(alloc: Global, places: &[Place]) -> Result<Rows<Place>, AllocError>
    ensures { IfOk result (λ copy. copy ≡ places.now) }
{
    let mut copy = Vec::with_capacity(alloc, places.len())?;
    for place in places {
        copy.push(copy_place(place)?)?;
    }
    Ok(Rows::from_vec(copy))
}

fn copy_numbers(alloc: Global, numbers: &[u32]) -> Result<Rows<u32>, AllocError>
    ensures { IfOk result (λ copy. copy ≡ numbers.now) }
{
    Ok(Rows::from_vec(Vec::from_slice(alloc, numbers)?))
}

fn copy_period(alloc: Global, period: &Option<Period>) -> Result<Option<Period>, AllocError>
    ensures { IfOk result (λ copy. copy ≡ period.now) }
{
    match period {
        None => Ok(None),
        Some(open) => Ok(Some(Period {
            length: open.length,
            pages: copy_numbers(alloc, open.pages.as_slice())?,
            accessed: copy_numbers(alloc, open.accessed.as_slice())?,
        })),
    }
}

fn copy_vm(alloc: Global, vm: &Vm) -> Result<Vm, AllocError>
    ensures { IfOk result (λ copy. copy ≡ vm.now) }
{
    Ok(Vm {
        spec: vm.spec,
        state: vm.state,
        epoch: vm.epoch,
        due: vm.due,
        target: vm.target,
        overhead: copy_numbers(alloc, vm.overhead.as_slice())?,
        places: copy_places(alloc, vm.places.as_slice())?,
        closed: Rows::from_vec(Vec::from_slice(alloc, vm.closed.as_slice())?),
        period: copy_period(alloc, &vm.period)?,
    })
}

fn copy_place_of(alloc: Global, vm: &Option<Vm>) -> Result<Option<Vm>, AllocError>
    ensures { IfOk result (λ copy. copy ≡ vm.now) }
{
    match vm {
        None => Ok(None),
        Some(vm) => Ok(Some(copy_vm(alloc, vm)?)),
    }
}

fn copy_vms(alloc: Global, vms: &[Option<Vm>]) -> Result<Rows<Option<Vm>>, AllocError>
    ensures { IfOk result (λ copy. copy ≡ vms.now) }
{
    let mut copy = Vec::with_capacity(alloc, vms.len())?;
    for vm in vms {
        copy.push(copy_place_of(alloc, vm)?)?;
    }
    Ok(Rows::from_vec(copy))
}

pub fn copy_scene(alloc: Global, scene: &Scene) -> Result<Scene, AllocError>
    ensures { IfOk result (λ copy. copy ≡ scene.now) }
{
    let site = &scene.site;
    Ok(Scene {
        site: Site {
            vms: copy_vms(alloc, site.vms.as_slice())?,
            hints: Rows::from_vec(Vec::from_slice(alloc, site.hints.as_slice())?),
            tau: site.tau,
        },
        level: scene.level,
    })
}
