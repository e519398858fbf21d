//! The survey of a path: the walk along it, and the sums of it.

ghost use Rattle.std.specs.Prelude.{◌≡◌, ◌≢◌, ◌++◌, ◌∷◌, [], List, length, IfOk, IfErr};
ghost use Rattle.esx_types.specs.declared.config.Config.{Config};
ghost use Rattle.esx_types.specs.Ranges.{IsConfig};
ghost use Rattle.esx_events.specs.declared.event.Event.{Event};
ghost use Rattle.esx_model.specs.declared.scene.Scene.{Scene};
ghost use Rattle.esx_machine.specs.Machine.{Shows};
ghost use Rattle.esx_story.specs.Moments.{moments};
ghost use Rattle.esx_story.specs.Story.{told};
ghost use Rattle.esx_story.specs.Waits.{Met};
ghost use Rattle.esx_sums.specs.Accounts.{IsSums, IsShort};
ghost use Rattle.esx_sums.specs.Kept.{sums_of, HasSpace};
ghost use Rattle.esx_sums.specs.Rows.{guests};
ghost use Rattle.esx_survey.specs.Counting.{IsMade, surveyed};
ghost use Rattle.esx_survey.specs.Surveys.{IsSurvey, MaySurvey, MayRefuse, IsAlong, SurveyedOn};

use crate::before::{Before, changes, read_before};
use crate::present::all_present;
use esx_events::{Answer, Event, Refusal};
use esx_machine::Machine;
use esx_sums::laws::{moves_are_told, present_is_small};
use esx_sums::{Guest, Sums};
use esx_types::{Config, VmId};
use esx_walk::Walk;
use std::alloc::{AllocError, Global};
use std::marker::Model;

/// The walk of a path, and what is counted along it.
#[derive(Drop)]
pub struct Survey {
    walk: Walk,
    sums: Sums,
}

impl Model for Survey {
    ghost use Rattle.esx_sums.specs.Kept.{sums_of};
    ghost use Rattle.esx_survey.specs.Surveys.{Surveyed};

    ghost Value = { Surveyed };

    ghost view = { λ a. record { walk = a.walk; sums = sums_of a.sums } };
}

/// Counts an event that a machine made, before which this was read.
fn count(sums: &mut Sums, machine: &Machine, event: &Event, answer: &Answer, before: &Before)
    requires room { HasSpace sums.old }
    requires short { IsShort (sums_of sums.old) }
    requires shows { (scene : Scene) × Shows machine.now scene }
    ensures { (site : Config) (es : List Event) (mets : List Met) (t u : Scene) → IsSums site (moments site es) mets (sums_of sums.old) → IsMade site es t u event.now answer.now before.now
        → Shows machine.now u → machine.now.config ≡ site → IsSums site (moments site (es ++ event.now ∷ [])) mets (sums_of sums.new) }
{
    moves_are_told();
    present_is_small();
    let changes = changes(event, answer, before);
    let sum = machine.sum();
    let present = all_present(machine);
    let standing = &present[..machine.numbers()];
    sums.go_on(event, answer, &changes, &sum, standing);
}

/// Makes an event that there is room to count.
fn make(walk: &mut Walk, sums: &mut Sums, event: &Event) -> Result<Answer, Refusal>
    requires room { HasSpace sums.old }
    requires short { MaySurvey (surveyed walk.old sums.old) }
    ensures { (site : Config) (es : List Event) (mets : List Met) → IsSurvey site es mets (surveyed walk.old sums.old) → SurveyedOn site es mets event.now result (surveyed walk.new sums.new) }
{
    let before = read_before(walk.machine(), event);
    match walk.go(event) {
        Ok(answer) => {
            count(sums, walk.machine(), event, &answer, &before);
            Ok(answer)
        }
        Err(refusal) => Err(refusal),
    }
}

/// The page of an access, once more.
fn copy(access: &Option<(VmId, u32)>) -> Option<(VmId, u32)>
    ensures { result ≡ access.now }
{
    match access {
        Some((vm, page)) => Some((*vm, *page)),
        None => None,
    }
}

impl Survey {
    /// Of no event. `BadSpec` where one of the site's numbers is out of its range.
    pub fn open(alloc: Global, site: Config) -> Result<Survey, Refusal>
        ensures opens { IfOk result (λ survey. IsSurvey site [] [] survey) }
        ensures refused { IfErr result (λ e. e ≢ Refusal.OutOfMemory → (e ≡ Refusal.BadSpec) × (¬ IsConfig site)) }
    {
        let walk = Walk::open(alloc, site)?;
        let sums = Sums::open(alloc, site)?;
        Ok(Survey { walk, sums })
    }

    /// One more event of the path: its answer, or the first refusal that applies. A refusal is counted by `refuse`
    /// alone; it and want of memory, also before an event that would be refused, leave the survey where it was.
    ///
    /// condition: the path has fewer events than a journal may have nodes
    pub fn go(&mut self, event: &Event) -> Result<Answer, Refusal>
        requires short { MaySurvey self.old }
        ensures { (site : Config) (es : List Event) (mets : List Met) → IsSurvey site es mets self.old → SurveyedOn site es mets event.now result self.new }
    {
        match self.sums.take_room() {
            Ok(()) => make(&mut self.walk, &mut self.sums, event),
            Err(_) => Err(Refusal::OutOfMemory),
        }
    }

    /// A call that was refused after the events so far: `access` is the page that it was to read or write, none where it
    /// was no access.
    ///
    /// condition: fewer than 2^32 - 1 were refused before
    pub fn refuse(&mut self, access: Option<(VmId, u32)>, refusal: Refusal)
        requires few { MayRefuse self.old }
        ensures { (site : Config) (es : List Event) (mets : List Met) → IsSurvey site es mets self.old
            → IsSurvey site es (mets ++ record { at = length es; access = access; refusal = refusal } ∷ []) self.new }
    {
        self.walk.refuse(copy(&access), refusal);
        self.sums.refuse(access, refusal);
    }

    /// How many events the path has.
    pub fn events(&self) -> u32
        ensures { (site : Config) (es : List Event) (mets : List Met) → IsSurvey site es mets self.now → result ≡ length es }
    {
        self.walk.events()
    }

    /// The walk along the path.
    pub fn walk(&self) -> &Walk
        ensures { result.now ≡ self.now.walk }
    {
        &self.walk
    }

    /// The sums of the path.
    pub fn sums(&self) -> &Sums
        ensures { sums_of result.now ≡ self.now.sums }
    {
        &self.sums
    }

    /// The rows of all lives of machines, in order of machine and life, as they stand at the end of the path.
    ///
    /// condition: the path has no more events than a journal may have nodes
    pub fn guests(&self, alloc: Global) -> Result<Vec<Guest>, AllocError>
        requires along { IsAlong self.now }
        ensures { IfOk result (λ rows. (site : Config) (es : List Event) (mets : List Met) → IsSurvey site es mets self.now
            → rows.items ≡ guests site (moments site es) mets (told site (moments site es) mets)) }
    {
        let present = all_present(self.walk.machine());
        let rows = self.sums.guests(alloc, &present, self.walk.losses())?;
        Ok(rows)
    }
}
