//! The course of a path, over a machine.

ghost use Rattle.std.specs.Prelude.{◌≡◌, ◌≢◌, ◌<◌, [], List, IfOk, IfErr};
ghost use Rattle.std.specs.Option.{ForSome};
ghost use Rattle.esx_types.specs.declared.config.TheConstants.{VM_NUMBERS};
ghost use Rattle.esx_types.specs.declared.config.Config.{Config};
ghost use Rattle.esx_types.specs.Ranges.{IsConfig};
ghost use Rattle.esx_events.specs.declared.event.Event.{Event};
ghost use Rattle.esx_machine.specs.Machine.{Kept, Trades, book_in};
ghost use Rattle.esx_passages.specs.Readings.{new_epoch};
ghost use Rattle.esx_course.specs.Looking.{passed_from, with_epoch};
ghost use Rattle.esx_course.specs.Courses.{IsCourse, MayGoOn, WentOn};

use crate::looking::{keep_epoch, passed_by, spots_in};
use esx_events::{Answer, Event, Refusal};
use esx_machine::{Machine, Record};
use esx_passages::Passages;
use esx_passages::telling::{movers, new_epoch};
use esx_types::{Config, VM_NUMBERS, VmId};
use std::alloc::Global;
use std::marker::Model;

/// A machine that makes the events of a path one after another, and how often the loans of each virtual machine were reset,
/// by its number.
#[derive(Drop)]
pub struct Course {
    machine: Machine,
    epochs: [u32; VM_NUMBERS],
}

impl Model for Course {
    ghost use Rattle.esx_course.specs.Courses.{Coursed};

    ghost Value = { Coursed };

    ghost view = { λ a. record { machine = a.machine; epochs = a.epochs } };
}

/// What an event moved that a machine made: `found` is the page that it found to be equal to its own, and the record leads
/// back. The machine is turned back, looked at, and turned again.
fn moved(
    machine: &mut Machine,
    epochs: &mut [u32; VM_NUMBERS],
    record: &mut Record,
    event: &Event,
    answer: &Answer,
    found: Option<(VmId, u32)>,
) -> Passages
    requires back { (there : Kept) × Trades record.old machine.old there }
    ensures same { machine.new ≡ machine.old }
    ensures moved { (there : Kept) → Trades record.old machine.old there → result ≡ passed_from event.now answer.now found (book_in there) (book_in machine.old) epochs.old }
    ensures epochs { epochs.new ≡ with_epoch epochs.old (new_epoch event.now answer.now) }
    ensures within { ForSome (new_epoch event.now answer.now) (λ p. p.0 < VM_NUMBERS) }
{
    let pages = movers(event, answer, found);
    machine.flip(record);
    let from = spots_in(machine, epochs, &pages);
    machine.flip(record);
    keep_epoch(epochs, new_epoch(event, answer));
    let to = spots_in(machine, epochs, &pages);
    passed_by(event, answer, &pages, &from, &to)
}

impl Course {
    /// Of no event. `BadSpec` where one of the site's numbers is out of its range.
    pub fn open(alloc: Global, site: Config) -> Result<Course, Refusal>
        ensures opens { IfOk result (λ course. IsCourse site [] course) }
        ensures refused { IfErr result (λ e. e ≢ Refusal.OutOfMemory → (e ≡ Refusal.BadSpec) × (¬ IsConfig site)) }
    {
        let machine = Machine::open(alloc, site)?;
        Ok(Course {
            machine,
            epochs: [0; VM_NUMBERS],
        })
    }

    /// One more event of the path: its answer and what it moved, or the first refusal that applies. A refusal and want of
    /// memory leave the course where it was.
    ///
    /// condition: the path has fewer events than a journal may have nodes
    pub fn go(&mut self, event: &Event) -> Result<(Answer, Passages), Refusal>
        requires short { MayGoOn self.old }
        ensures { (site : Config) (es : List Event) → IsCourse site es self.old → WentOn site es event.now result self.new }
    {
        let found = self.machine.equal_page(event);
        match self.machine.apply(event) {
            Ok((answer, mut record)) => {
                let passages = moved(
                    &mut self.machine,
                    &mut self.epochs,
                    &mut record,
                    event,
                    &answer,
                    found,
                );
                drop(record);
                Ok((answer, passages))
            }
            Err(refusal) => Err(refusal),
        }
    }
}
