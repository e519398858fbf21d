//! The walk along a path, over a machine.

ghost use Rattle.std.specs.Prelude.{◌≡◌, ◌≢◌, ◌↔◌, ◌<◌, ◌++◌, ◌∷◌, [], ℕ, List, length, IfOk, IfErr};
ghost use Rattle.esx_types.specs.declared.config.Config.{Config};
ghost use Rattle.esx_types.specs.Ranges.{IsConfig};
ghost use Rattle.esx_events.specs.declared.event.Event.{Event};
ghost use Rattle.esx_plans.specs.plan.Balloon.{CanEpochsRise};
ghost use Rattle.esx_story.specs.Moments.{moments};
ghost use Rattle.esx_story.specs.Waits.{Met};
ghost use Rattle.esx_story.specs.Story.{told};
ghost use Rattle.esx_walk.specs.Accounts.{IsLife};
ghost use Rattle.esx_walk.specs.Few.{IsShort};
ghost use Rattle.esx_walk.specs.Kept.{account_of, HasSpace};
ghost use Rattle.esx_walk.specs.Making.{walked, IsReady};
ghost use Rattle.esx_walk.specs.Walks.{IsWalk, MayGoOn, MayRefuse, WentOn};
ghost use Rattle.esx_walk.specs.Complete.{AreAllLosses, AreRising, AreGood};

use crate::account::Account;
use crate::holding::given_after;
use crate::lives::Life;
use crate::looking::{Before, page_before, prepare};
use esx_events::{Answer, Event, PageState, Refusal};
use esx_machine::Machine;
use esx_story::Loss;
use esx_story::telling::{gained, lost};
use esx_types::{Config, VmId};
use std::alloc::Global;
use std::marker::Model;

/// A machine that makes the events of a path one after another, and an account of what they took and brought.
#[derive(Drop)]
pub struct Walk {
    machine: Machine,
    account: Account,
}

impl Model for Walk {
    ghost use Rattle.esx_walk.specs.Kept.{account_of};
    ghost use Rattle.esx_walk.specs.Walks.{Walked};

    ghost Value = { Walked };

    ghost view = { λ a. record { machine = a.machine; account = account_of a.account } };
}

/// Makes an event for which all is prepared, where the page that it names was so before it.
fn make(
    machine: &mut Machine,
    account: &mut Account,
    event: &Event,
    page: Result<PageState, Refusal>,
    before: Before,
) -> Result<Answer, Refusal>
    requires rise { CanEpochsRise machine.old.tables }
    requires space { HasSpace account.old }
    requires short { IsShort (account_of account.old) }
    ensures { (site : Config) (es : List Event) (mets : List Met) → (walk : IsWalk site es mets (walked machine.old account.old)) → IsReady site walk.scene event.now page (account_of account.old).places before.seen before.held
        → WentOn site es mets event.now result (walked machine.new account.new) }
{
    match machine.apply(event) {
        Ok((answer, _record)) => {
            let lost = lost(event, &answer, page);
            let gained = gained(event, page);
            let given = given_after(machine, before.held);
            account.go_on(event, &answer, before.seen, &given, &lost, &gained);
            Ok(answer)
        }
        Err(refusal) => Err(refusal),
    }
}

impl Walk {
    /// Of no event. `BadSpec` where one of the site's numbers is out of its range.
    pub fn open(alloc: Global, site: Config) -> Result<Walk, Refusal>
        ensures opens { IfOk result (λ walk. IsWalk site [] [] walk) }
        ensures refused { IfErr result (λ e. e ≢ Refusal.OutOfMemory → (e ≡ Refusal.BadSpec) × (¬ IsConfig site)) }
    {
        let machine = Machine::open(alloc, site)?;
        let account = Account::open(alloc)?;
        Ok(Walk { machine, account })
    }

    /// One more event of the path: its answer, or the first refusal that applies. A refusal is counted by `refuse`
    /// alone; it and want of memory, also before an event that would be refused, leave the walk where it was.
    ///
    /// condition: the path has fewer events than a journal may have nodes
    pub fn go(&mut self, event: &Event) -> Result<Answer, Refusal>
        requires short { MayGoOn self.old }
        ensures { (site : Config) (es : List Event) (mets : List Met) → IsWalk site es mets self.old → WentOn site es mets event.now result self.new }
    {
        let page = page_before(&self.machine, event);
        match prepare(&self.machine, &mut self.account, event, page) {
            Ok(before) => make(&mut self.machine, &mut self.account, event, page, before),
            Err(_) => Err(Refusal::OutOfMemory),
        }
    }

    /// A call that was refused after the events so far: `access` is the page that it was to read or write, none where it
    /// was no access. A loss is told how many accesses of its page waited.
    ///
    /// condition: fewer than 2^32 - 1 were refused before
    pub fn refuse(&mut self, access: Option<(VmId, u32)>, refusal: Refusal)
        requires few { MayRefuse self.old }
        ensures { (site : Config) (es : List Event) (mets : List Met) → IsWalk site es mets self.old
            → IsWalk site es (mets ++ record { at = length es; access = access; refusal = refusal } ∷ []) self.new }
    {
        self.account.refuse(access, refusal);
    }

    /// How many events the path has.
    pub fn events(&self) -> u32
        ensures { (site : Config) (es : List Event) (mets : List Met) → IsWalk site es mets self.now → result ≡ length es }
    {
        self.account.events()
    }

    /// The losses of the path, the oldest first, each with what stood about it when it came, and what came of it so far.
    pub fn losses(&self) -> &[Loss]
        ensures told { (site : Config) (es : List Event) (mets : List Met) → IsWalk site es mets self.now → result.now ≡ told site (moments site es) mets }
        ensures all { (site : Config) (es : List Event) (mets : List Met) → IsWalk site es mets self.now → AreAllLosses (moments site es) result.now }
        ensures rising { (site : Config) (es : List Event) (mets : List Met) → IsWalk site es mets self.now → AreRising result.now }
        ensures good { (site : Config) (es : List Event) (mets : List Met) → IsWalk site es mets self.now → AreGood result.now }
    {
        self.account.losses()
    }

    /// How often a machine was admitted under a number, the last rebalance since and what it asked for, and what the
    /// machine gained and lost since its last admission.
    pub fn life(&self, vm: VmId) -> Life
        ensures { (site : Config) (es : List Event) (mets : List Met) → IsWalk site es mets self.now → IsLife (moments site es) vm result }
    {
        self.account.life(vm)
    }

    /// The machine, as the path has left it.
    pub fn machine(&self) -> &Machine
        ensures { result.now ≡ self.now.machine }
    {
        &self.machine
    }
}
