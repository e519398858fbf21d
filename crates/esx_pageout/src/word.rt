//! The word that draws a page of a machine.

ghost use Rattle.std.specs.Prelude.{◌≡◌, ◌<◌, length, Some};
ghost use Rattle.esx_model.specs.declared.scene.Scene.{Scene};
ghost use Rattle.esx_model.specs.declared.scene.Vm.{Vm};
ghost use Rattle.esx_model.specs.Places.{is_here};
ghost use Rattle.esx_model.specs.Site.{vm_at, place_at};
ghost use Rattle.esx_machine.specs.Machine.{Shows};
ghost use Rattle.esx_story.specs.Readings.{is_told_here};
ghost use Rattle.esx_pageout.specs.Word.{here_before, word_of};

use esx_events::{PageState, Refusal};
use esx_machine::Machine;
use esx_types::VmId;

/// Whether what is said of a page tells that it is in a frame.
fn is_told_here(said: Result<PageState, Refusal>) -> bool
    ensures { result ≡ is_told_here said }
{
    matches!(
        said,
        Ok(PageState::Private { .. } | PageState::Hinted { .. } | PageState::Shared { .. })
    )
}

/// Whether a page of a machine is in a frame.
fn is_here(machine: &Machine, vm: VmId, page: u32) -> bool
    ensures { (scene : Scene) (v : Vm) → Shows machine.now scene → vm_at scene.site vm ≡ Some v → result ≡ is_here (place_at v page) }
{
    is_told_here(machine.of_page(vm, page))
}

/// How many pages before a page of a machine are in frames. It looks at each of them.
fn here_before(machine: &Machine, vm: VmId, page: u32) -> u32
    ensures { (scene : Scene) (v : Vm) → Shows machine.now scene → vm_at scene.site vm ≡ Some v → page < length v.places
        → result ≡ here_before v.places page }
{
    let mut count = 0;
    for earlier in 0..page {
        if is_here(machine, vm, earlier) {
            count += 1;
        }
    }
    count
}

/// The word by which a swap-out draws a page: the page's place, from 0, among the pages of its machine in frames. `NoVm`
/// where there is no such virtual machine, and `NotResident` where the page is in no frame, or there is no such page. It
/// looks at each page before that one, and takes no memory.
pub fn word_of(machine: &Machine, vm: VmId, page: u32) -> Result<u64, Refusal>
    ensures { (scene : Scene) → Shows machine.now scene → result ≡ word_of scene.site vm page }
{
    if machine.spec(vm).is_none() {
        return Err(Refusal::NoVm);
    }
    if !is_here(machine, vm, page) {
        return Err(Refusal::NotResident);
    }
    Ok(u64::from(here_before(machine, vm, page)))
}
