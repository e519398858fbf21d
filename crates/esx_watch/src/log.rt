//! The log of a watch: the figures as they stand, and the steps so far.

ghost use Rattle.std.specs.Prelude.{◌≡◌, ◌<◌, ◌++◌, ◌∷◌, [], List, replicate, vec_len, vec_capacity, IfOk, OnOk};
ghost use Rattle.esx_types.specs.declared.config.TheConstants.{MAX_NODES, MAX_PAGES, VM_NUMBERS};
ghost use Rattle.esx_types.specs.declared.config.Config.{Config};
ghost use Rattle.esx_story.specs.Moments.{Moment};
ghost use Rattle.esx_watch.specs.Logs.{log_of, opened, IsLog, IsNext};
ghost use Rattle.esx_watch.specs.Shifting.{AreAtMost};
ghost use Rattle.esx_watch.specs.Telling.{HasRoom};

use crate::looking::{Guests, all_figures};
use crate::shifting::shift;
use crate::telling::tell_event;
use esx_events::Sum;
use esx_figures::Step;
use esx_figures::laws::sharing_is_told;
use esx_figures::steps::opening_step;
use esx_machine::Machine;
use esx_types::{Rows, VM_NUMBERS, VmId};
use std::alloc::{AllocError, Global};

/// How many pages of each machine are in shared frames, what is told of the site and of each machine, the steps so far,
/// and how many events there were.
#[derive(Drop)]
pub(crate) struct Log {
    shared: Rows<u32>,
    site: Sum,
    guests: Guests,
    steps: Vec<Step>,
    events: u32,
}

/// No page of any machine.
fn no_shared(alloc: Global) -> Result<Vec<u32>, AllocError>
    ensures { IfOk result (λ shared. shared.items ≡ replicate VM_NUMBERS 0) }
{
    let shared = vec![in alloc; 0u32; VM_NUMBERS]?;
    Ok(shared)
}

impl Log {
    /// Of a site as it is opened.
    pub(crate) fn open(alloc: Global, site: Sum) -> Result<Log, AllocError>
        ensures { IfOk result (λ log. log_of log ≡ opened site) }
    {
        let shared = no_shared(alloc)?;
        let guests = Guests::nobody();
        let mut steps = Vec::new(alloc);
        let first = opening_step(site);
        steps.push(Step {
            at: first.at,
            site: first.site,
            vm: first.vm,
            figures: first.figures,
        })?;
        Ok(Log {
            shared: Rows::from_vec(shared),
            site,
            guests,
            steps,
            events: 0,
        })
    }

    /// Takes room for the steps of one more event.
    pub(crate) fn take_room(&mut self) -> Result<(), AllocError>
        ensures same { log_of self.new ≡ log_of self.old }
        ensures room { OnOk result (HasRoom (vec_len self.new.steps) (vec_capacity self.new.steps)) }
    {
        self.steps.reserve(VM_NUMBERS)?;
        Ok(())
    }

    /// One more event, which the machine made: a page of one machine parted, one of another joined, and one of a third is
    /// its host.
    pub(crate) fn go_on(
        &mut self,
        machine: &Machine,
        parted: Option<VmId>,
        joined: Option<VmId>,
        host: Option<VmId>,
    )
        requires room { HasRoom (vec_len self.old.steps) (vec_capacity self.old.steps) }
        requires short { (log_of self.old).events < MAX_NODES }
        requires small { AreAtMost MAX_PAGES (log_of self.old).shared }
        ensures { (c : Config) (ms : List Moment) (x : Moment) → IsLog c ms x.before (log_of self.old) → IsNext c x machine.now parted joined host → IsLog c (ms ++ x ∷ []) x.after (log_of self.new) }
    {
        sharing_is_told();
        shift(&mut self.shared, parted, joined, host);
        let site = machine.sum();
        let guests = all_figures(machine, self.shared.as_slice());
        let at = self.events + 1;
        tell_event(
            &mut self.steps,
            at,
            &self.site,
            &site,
            &self.guests,
            &guests,
        );
        self.site = site;
        self.guests = guests;
        self.events = at;
    }

    /// The steps so far.
    pub(crate) fn steps(&self) -> &[Step]
        ensures { result.now ≡ (log_of self.now).steps }
    {
        self.steps.as_slice()
    }
}
