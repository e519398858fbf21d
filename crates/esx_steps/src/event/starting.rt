//! A machine takes its overhead frames, one at a time.

ghost use Rattle.std.specs.Prelude.{◌≡◌, ◌<◌, ◌≤◌, ◌+◌, length, Some, Ok, OnOk, IfOk, IfErr, not, nat_lt};
ghost use Rattle.esx_types.specs.declared.config.TheConstants.{MAX_OVERHEAD};
ghost use Rattle.esx_events.specs.declared.event.Answer.TheVariants as answers;
ghost use Rattle.esx_model.specs.declared.scene.Vm.{Vm};
ghost use Rattle.esx_model.specs.Site.{vm_at};
ghost use Rattle.esx_model.specs.sound.Sound.{IsSound};
ghost use Rattle.esx_model.specs.event.Starting.{start, with_overhead, take_overhead};
ghost use Rattle.esx_steps.specs.Gives.{Gives};

use crate::site::{least_free, vm_of};
use esx_events::{Answer, Refusal};
use esx_model::{Site, Vm};
use esx_types::{Config, VmId, VmState};

fn take_frame(vm: &mut Vm, frame: u32) -> Result<Answer, Refusal>
    requires { length vm.old.overhead ≤ MAX_OVERHEAD }
    ensures vm { OnOk result (vm.new ≡ with_overhead vm.old frame) }
    ensures answer { IfOk result (λ a. a ≡ answers.Started (not (nat_lt (length vm.old.overhead + 1) vm.old.spec.overhead))
        frame (length vm.old.overhead + 1) vm.old.spec.overhead) }
    ensures err { IfErr result (λ e. e ≡ Refusal.OutOfMemory) }
{
    let held = vm.overhead.len() + 1;
    vm.overhead.push(frame)?;
    let running = held >= vm.spec.overhead as usize;
    vm.state = if running {
        VmState::Running
    } else {
        VmState::Starting
    };
    Ok(Answer::Started {
        running,
        frame,
        held: held as u32,
        overhead: vm.spec.overhead,
    })
}

fn take_overhead(site: Site, number: usize, frame: u32) -> Result<(Answer, Site), Refusal>
    requires number { number < length site.vms }
    requires few { (v : Vm) → vm_at site number ≡ Some v → length v.overhead ≤ MAX_OVERHEAD }
    ensures { (v : Vm) → vm_at site number ≡ Some v → Gives result (take_overhead site number v (Some frame)) }
{
    let mut site = site;
    let Some(vm) = site.vms.row_mut(number) else {
        return Err(Refusal::OutOfMemory);
    };
    let answer = take_frame(vm, frame)?;
    Ok((answer, site))
}

/// A machine takes the least frame that is free; with all its overhead it runs.
#[tactic(auto, unfolding(esx_model::specs::event::Starting::start))]
pub fn start(config: &Config, site: Site, vm: VmId) -> Result<(Answer, Site), Refusal>
    requires { IsSound config.now site }
    ensures { Gives result (start config.now site vm) }
{
    let number = usize::from(vm.number());
    let Some(row) = vm_of(config, &site, number) else {
        return Err(Refusal::NoVm);
    };
    match row.state {
        VmState::Running => return Err(Refusal::NotNeeded),
        VmState::Stopping => return Err(Refusal::NotRunning),
        VmState::Starting => {}
    }
    let Some(frame) = least_free(&site, config.frames) else {
        return Err(Refusal::Short);
    };
    take_overhead(site, number, frame)
}
