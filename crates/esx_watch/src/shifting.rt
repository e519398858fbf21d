//! How many pages of each machine are in shared frames, at its number.

ghost use Rattle.std.specs.Prelude.{◌≡◌};
ghost use Rattle.esx_types.specs.declared.config.TheConstants.{MAX_PAGES};
ghost use Rattle.esx_watch.specs.Shifting.{shared_at, raised, lowered, shifted, AreAtMost};

use esx_types::{Rows, VmId};

/// Of the machine with a number, 0 where there is no such number.
pub(crate) fn shared_at(shared: &[u32], number: usize) -> u32
    ensures { result ≡ shared_at shared.now number }
{
    match shared.get(number) {
        Some(count) => *count,
        None => 0,
    }
}

/// One more, of a machine.
fn raise(shared: &mut Rows<u32>, vm: Option<VmId>)
    requires { AreAtMost 4294967294 shared.old }
    ensures { shared.new ≡ raised shared.old vm }
{
    let Some(vm) = vm else {
        return;
    };
    let number = usize::from(vm.number());
    let count = shared_at(shared.as_slice(), number);
    shared.set(number, count + 1);
}

/// One less, of a machine.
fn lower(shared: &mut Rows<u32>, vm: Option<VmId>)
    ensures { shared.new ≡ lowered shared.old vm }
{
    let Some(vm) = vm else {
        return;
    };
    let number = usize::from(vm.number());
    let count = shared_at(shared.as_slice(), number);
    shared.set(number, count.saturating_sub(1));
}

/// One more of the machine of a page that joined and of one that is its host, one less of the machine of one that parted.
pub(crate) fn shift(
    shared: &mut Rows<u32>,
    parted: Option<VmId>,
    joined: Option<VmId>,
    host: Option<VmId>,
)
    requires { AreAtMost MAX_PAGES shared.old }
    ensures { shared.new ≡ shifted shared.old parted joined host }
{
    raise(shared, joined);
    raise(shared, host);
    lower(shared, parted);
}
