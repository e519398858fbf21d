//! What is seen of a machine before an event that may take a page of it.

ghost use Rattle.std.specs.Prelude.{◌≡◌, Some, length, IfOk, OnOk, List};
ghost use Rattle.esx_types.specs.declared.config.TheConstants.{VM_NUMBERS};
ghost use Rattle.esx_types.specs.declared.config.Config.{Config};
ghost use Rattle.esx_model.specs.declared.scene.Scene.{Scene};
ghost use Rattle.esx_model.specs.declared.scene.Site.{Site};
ghost use Rattle.esx_model.specs.declared.scene.Vm.{Vm};
ghost use Rattle.esx_model.specs.Site.{vm_at};
ghost use Rattle.esx_machine.specs.Machine.{Shows, book_in};
ghost use Rattle.esx_story.specs.Moments.{Moment};
ghost use Rattle.esx_story.specs.Order.{has_own_tax};
ghost use Rattle.esx_story.specs.Readings.{is_told_here, named_page, said_before};
ghost use Rattle.esx_story.specs.Story.{seen};
ghost use Rattle.esx_story.specs.Waits.{Met};
ghost use Rattle.esx_walk.specs.Accounts.{IsAccount};
ghost use Rattle.esx_walk.specs.Holding.{held_before};
ghost use Rattle.esx_walk.specs.Kept.{account_of, HasSpace};
ghost use Rattle.esx_walk.specs.Looking.{losing, IsPrepared};

use crate::account::Account;
use crate::holding::held_before;
use crate::order::order_of;
use esx_events::{Event, PageState, Refusal};
use esx_machine::Machine;
use esx_story::Seen;
use esx_story::telling::named_page;
use esx_types::{Rows, VmId};
use std::alloc::AllocError;

/// What was seen before an event: of the machine that may lose a page, and what each machine held, by number, where targets
/// are to be made for want of frames.
#[derive(Drop)]
pub struct Before {
    pub seen: Option<Seen>,
    pub held: Option<Rows<u32>>,
}

/// Where the page is that an event names, `NoVm` where it names none.
pub fn page_before(machine: &Machine, event: &Event) -> Result<PageState, Refusal>
    ensures { result ≡ said_before (book_in machine.now) (named_page event.now) }
{
    match named_page(event) {
        Some((vm, page)) => machine.of_page(vm, page),
        None => Err(Refusal::NoVm),
    }
}

fn is_here(before: Result<PageState, Refusal>) -> bool
    ensures { result ≡ is_told_here before }
{
    matches!(
        before,
        Ok(PageState::Private { .. } | PageState::Hinted { .. } | PageState::Shared { .. })
    )
}

/// The machine that an event may take a page of, where the page that it names is there.
pub fn losing(event: &Event, before: Result<PageState, Refusal>) -> Option<VmId>
    ensures { result ≡ losing event.now before }
{
    let vm = match event {
        Event::SwapOut { vm, .. } => return Some(*vm),
        Event::Replace { vm, .. } => return Some(*vm),
        Event::Lend { vm, .. } => *vm,
        Event::DropPage { vm, .. } => *vm,
        _ => return None,
    };
    if is_here(before) { Some(vm) } else { None }
}

/// Whether a machine has a tax of its own.
fn has_own_tax(machine: &Machine, vm: VmId) -> bool
    ensures { (scene : Scene) → Shows machine.now scene → result ≡ has_own_tax (vm_at scene.site vm) }
{
    match machine.spec(vm) {
        Some(spec) => spec.tau.is_some(),
        None => false,
    }
}

/// What is told of a machine. It looks at each machine.
fn look(machine: &Machine, vm: VmId) -> Result<Seen, AllocError>
    requires { (scene : Scene) × Shows machine.now scene }
    ensures { (scene : Scene) → Shows machine.now scene → IfOk result (λ s. s ≡ seen machine.now.config scene vm) }
{
    let rows = machine.rows()?;
    Ok(Seen {
        level: machine.level(),
        free: machine.free(),
        tau: machine.tau(),
        own: has_own_tax(machine, vm),
        order: order_of(rows.as_slice(), vm),
    })
}

/// How many pages a machine has, if there is one.
fn page_count(machine: &Machine, vm: VmId) -> usize
    ensures { (scene : Scene) (v : Vm) → Shows machine.now scene → vm_at scene.site vm ≡ Some v → result ≡ v.spec.max }
{
    match machine.spec(vm) {
        Some(spec) => spec.max as usize,
        None => 0,
    }
}

/// Takes room for a loss, and looks at the machine that may lose a page.
fn prepare_loss(
    machine: &Machine,
    account: &mut Account,
    losing: Option<VmId>,
) -> Result<Option<Seen>, AllocError>
    requires { (scene : Scene) × Shows machine.now scene }
    ensures same { (c : Config) (ms : List Moment) (mets : List Met) (s : Site) → IsAccount c ms mets s (account_of account.old) → IsAccount c ms mets s (account_of account.new) }
    ensures space { OnOk result (HasSpace account.new) }
    ensures ready { (scene : Scene) → Shows machine.now scene → length (account_of account.old).places ≡ VM_NUMBERS
        → IfOk result (λ seen. IsPrepared machine.now.config scene losing (account_of account.new).places seen) }
{
    let Some(vm) = losing else {
        account.take_room(0, 0)?;
        return Ok(None);
    };
    let seen = look(machine, vm)?;
    let pages = page_count(machine, vm);
    account.take_room(usize::from(vm.number()), pages)?;
    Ok(Some(seen))
}

/// Takes room for a loss, and looks at what the event, which names a page that was there, may take or ask for.
pub fn prepare(
    machine: &Machine,
    account: &mut Account,
    event: &Event,
    page: Result<PageState, Refusal>,
) -> Result<Before, AllocError>
    requires { (scene : Scene) × Shows machine.now scene }
    ensures same { (c : Config) (ms : List Moment) (mets : List Met) (s : Site) → IsAccount c ms mets s (account_of account.old) → IsAccount c ms mets s (account_of account.new) }
    ensures space { OnOk result (HasSpace account.new) }
    ensures ready { (scene : Scene) → Shows machine.now scene → length (account_of account.old).places ≡ VM_NUMBERS
        → IfOk result (λ before. IsPrepared machine.now.config scene (losing event.now page) (account_of account.new).places before.seen) }
    ensures held { (scene : Scene) → Shows machine.now scene → IfOk result (λ before. before.held ≡ held_before scene event.now) }
{
    let seen = prepare_loss(machine, account, losing(event, page))?;
    let held = held_before(machine, event)?;
    Ok(Before { seen, held })
}
