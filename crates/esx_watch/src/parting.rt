//! Whether the page that an event left in no shared frame was in one.

ghost use Rattle.std.specs.Prelude.{◌≡◌};
ghost use Rattle.esx_model.specs.declared.scene.Scene.{Scene};
ghost use Rattle.esx_machine.specs.Machine.{Kept, Shows, Trades};
ghost use Rattle.esx_figures.specs.Sharing.{has_shared, parted};

use esx_figures::laws::sharing_is_told;
use esx_figures::telling::is_told_shared;
use esx_machine::{Machine, Record};
use esx_types::VmId;

/// Is a page in a shared frame?
fn is_shared(machine: &Machine, vm: VmId, page: u32) -> bool
    ensures { (scene : Scene) → Shows machine.now scene → result ≡ has_shared scene.site vm page }
{
    sharing_is_told();
    is_told_shared(machine.of_page(vm, page))
}

/// Was a page in a shared frame before the event that the record leads back over? The machine goes back by the record and
/// forth again, and is as it was.
fn was_shared(machine: &mut Machine, record: &mut Record, vm: VmId, page: u32) -> bool
    requires { (there : Kept) × Trades record.old machine.old there }
    ensures same { machine.new ≡ machine.old }
    ensures shared { (there : Kept) (scene : Scene) → Trades record.old machine.old there → Shows there scene → result ≡ has_shared scene.site vm page }
{
    machine.flip(record);
    let shared = is_shared(machine, vm, page);
    machine.flip(record);
    shared
}

/// The machine of the page, if there is one and it was in a shared frame before the event that the record leads back over.
/// The machine that is asked is as it was.
pub(crate) fn parted(
    machine: &mut Machine,
    record: &mut Record,
    page: Option<(VmId, u32)>,
) -> Option<VmId>
    requires { (there : Kept) × Trades record.old machine.old there }
    ensures same { machine.new ≡ machine.old }
    ensures parted { (there : Kept) (scene : Scene) → Trades record.old machine.old there → Shows there scene → result ≡ parted scene.site page }
{
    let Some((vm, page)) = page else {
        return None;
    };
    if was_shared(machine, record, vm, page) {
        Some(vm)
    } else {
        None
    }
}
