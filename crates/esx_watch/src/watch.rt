//! The watch of a path, over a machine.

ghost use Rattle.std.specs.Prelude.{◌≡◌, ◌≢◌, ◌<◌, [], List, IfOk, IfErr, option_map, vec_len, vec_capacity};
ghost use Rattle.esx_types.specs.declared.config.TheConstants.{MAX_NODES, MAX_PAGES};
ghost use Rattle.esx_types.specs.declared.config.Config.{Config};
ghost use Rattle.esx_types.specs.Ranges.{IsConfig};
ghost use Rattle.esx_events.specs.declared.event.Event.{Event};
ghost use Rattle.esx_model.specs.declared.scene.Scene.{Scene};
ghost use Rattle.esx_machine.specs.Machine.{Shows};
ghost use Rattle.esx_plans.specs.plan.Balloon.{CanEpochsRise};
ghost use Rattle.esx_story.specs.Moments.{moments};
ghost use Rattle.esx_figures.specs.Steps.{steps};
ghost use Rattle.esx_watch.specs.Logs.{log_of};
ghost use Rattle.esx_watch.specs.Shifting.{AreAtMost};
ghost use Rattle.esx_watch.specs.Telling.{HasRoom};
ghost use Rattle.esx_watch.specs.Watches.{watched, IsWatch, MayWatch, WatchedOn};

use crate::log::Log;
use crate::parting::parted;
use esx_events::{Answer, Event, Refusal};
use esx_figures::Step;
use esx_figures::telling::{joining, parting};
use esx_machine::Machine;
use esx_types::{Config, VmId};
use std::alloc::Global;
use std::marker::Model;

/// A machine that makes the events of a path one after another, and the steps at which figures changed.
#[derive(Drop)]
pub struct Watch {
    machine: Machine,
    log: Log,
}

impl Model for Watch {
    ghost use Rattle.esx_watch.specs.Watches.{Watched, watched};

    ghost Value = { Watched };

    ghost view = { λ a. watched a.machine a.log };
}

fn vm_of(page: Option<(VmId, u32)>) -> Option<VmId>
    ensures { result ≡ option_map (λ p. p.0) page }
{
    match page {
        Some((vm, _page)) => Some(vm),
        None => None,
    }
}

/// Makes an event that there is room to log.
fn make(machine: &mut Machine, log: &mut Log, event: &Event) -> Result<Answer, Refusal>
    requires rise { CanEpochsRise machine.old.tables }
    requires room { HasRoom (vec_len log.old.steps) (vec_capacity log.old.steps) }
    requires short { (log_of log.old).events < MAX_NODES }
    requires small { AreAtMost MAX_PAGES (log_of log.old).shared }
    requires shows { (scene : Scene) × Shows machine.old scene }
    ensures { (site : Config) (es : List Event) → IsWatch site es (watched machine.old log.old) → WatchedOn site es event.now result (watched machine.new log.new) }
{
    let host = vm_of(machine.equal_page(event));
    match machine.apply(event) {
        Ok((answer, record)) => {
            let mut record = record;
            let gone = parted(machine, &mut record, parting(event, &answer));
            log.go_on(machine, gone, joining(event, &answer), host);
            Ok(answer)
        }
        Err(refusal) => Err(refusal),
    }
}

impl Watch {
    /// Of no event. `BadSpec` where one of the site's numbers is out of its range.
    pub fn open(alloc: Global, site: Config) -> Result<Watch, Refusal>
        ensures opens { IfOk result (λ watch. IsWatch site [] watch) }
        ensures refused { IfErr result (λ e. e ≢ Refusal.OutOfMemory → (e ≡ Refusal.BadSpec) × (¬ IsConfig site)) }
    {
        let machine = Machine::open(alloc, site)?;
        let log = Log::open(alloc, machine.sum())?;
        Ok(Watch { machine, log })
    }

    /// One more event of the path: its answer, or the first refusal that applies. It and want of memory, also before an
    /// event that would be refused, leave the watch where it was.
    ///
    /// condition: the path has fewer events than a journal may have nodes
    pub fn go(&mut self, event: &Event) -> Result<Answer, Refusal>
        requires short { MayWatch self.old }
        ensures { (site : Config) (es : List Event) → IsWatch site es self.old → WatchedOn site es event.now result self.new }
    {
        match self.log.take_room() {
            Ok(()) => make(&mut self.machine, &mut self.log, event),
            Err(_) => Err(Refusal::OutOfMemory),
        }
    }

    /// The steps of the path, from its opening on: of each event at which figures changed, those of the machines in order
    /// of number, or that of the site where its figures alone changed.
    pub fn steps(&self) -> &[Step]
        ensures { (site : Config) (es : List Event) → IsWatch site es self.now → result.now ≡ steps site (moments site es) }
    {
        self.log.steps()
    }
}
