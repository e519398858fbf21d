//! What is read of a machine before an event, and what the event then changed.

ghost use Rattle.std.specs.Prelude.{◌≡◌, option_map};
ghost use Rattle.esx_model.specs.declared.scene.Scene.{Scene};
ghost use Rattle.esx_model.specs.event.Paging.{compared};
ghost use Rattle.esx_model.specs.event.Sharing.{found_by};
ghost use Rattle.esx_machine.specs.Machine.{Shows, book_in};
ghost use Rattle.esx_story.specs.Readings.{named_page, said_before};
ghost use Rattle.esx_survey.specs.Changes.{host_by, changes_by};

use esx_events::{Answer, Event, PageState, Refusal};
use esx_machine::Machine;
use esx_story::telling::{gained, lost, named_page};
use esx_sums::Changes;
use esx_sums::moving::moved;
use esx_types::VmId;

/// What was read before an event: where the page is that it names, `NoVm` where it names none, and the page that it would
/// find to be equal to the one that it is to share.
#[derive(Clone, Copy, Debug)]
pub struct Before {
    pub page: Result<PageState, Refusal>,
    pub equal: Option<(VmId, u32)>,
}

fn page_before(machine: &Machine, event: &Event) -> Result<PageState, Refusal>
    ensures { result ≡ said_before (book_in machine.now) (named_page event.now) }
{
    match named_page(event) {
        Some((vm, page)) => machine.of_page(vm, page),
        None => Err(Refusal::NoVm),
    }
}

/// Reads what tells afterwards what an event changed.
pub fn read_before(machine: &Machine, event: &Event) -> Before
    ensures page { result.page ≡ said_before (book_in machine.now) (named_page event.now) }
    ensures equal { (scene : Scene) → Shows machine.now scene → result.equal ≡ found_by scene.site (compared scene.site event.now) }
{
    Before {
        page: page_before(machine, event),
        equal: machine.equal_page(event),
    }
}

fn vm_of(page: Option<(VmId, u32)>) -> Option<VmId>
    ensures { result ≡ option_map (λ p. p.0) page }
{
    match page {
        Some((vm, _page)) => Some(vm),
        None => None,
    }
}

/// The machine of the page in whose frame another came.
fn host(event: &Event, answer: &Answer, equal: Option<(VmId, u32)>) -> Option<VmId>
    ensures { result ≡ host_by event.now answer.now equal }
{
    match (event, answer) {
        (Event::Scan { .. }, _) => vm_of(equal),
        (Event::SwapOut { .. }, Answer::SharedOut { .. }) => vm_of(equal),
        _ => None,
    }
}

/// The pages that an accepted event changed, by its answer and by what was read before it.
pub fn changes(event: &Event, answer: &Answer, before: &Before) -> Changes
    ensures { result ≡ changes_by event.now answer.now before.now.page before.now.equal }
{
    Changes {
        lost: lost(event, answer, before.page),
        gained: gained(event, before.page),
        moved: moved(event, answer, before.page),
        host: host(event, answer, before.equal),
    }
}
