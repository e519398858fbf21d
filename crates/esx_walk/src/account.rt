//! What a walk keeps of the path behind it.

ghost use Rattle.std.specs.Prelude.{◌≡◌, ◌<◌, ◌≤◌, ◌*◌, ◌++◌, ◌∷◌, [], List, length, slice_index_or, IfOk, OnOk, OnErr};
ghost use Rattle.esx_types.specs.declared.config.TheConstants.{MAX_NODES};
ghost use Rattle.esx_types.specs.declared.config.Config.{Config};
ghost use Rattle.esx_model.specs.declared.scene.Site.{Site};
ghost use Rattle.esx_model.specs.Replay.{opening};
ghost use Rattle.esx_story.specs.Moments.{Moment};
ghost use Rattle.esx_story.specs.Waits.{Met};
ghost use Rattle.esx_walk.specs.Account.{life_in, nothing, gone_on};
ghost use Rattle.esx_walk.specs.Accounts.{IsAccount, IsNext};
ghost use Rattle.esx_walk.specs.Few.{AreFew, IsShort, IsPatient};
ghost use Rattle.esx_walk.specs.Kept.{account_of, HasSpace};

use crate::lives::{Life, count, life_at, live, no_lives};
use crate::opens::{clear, make_places, mark_open, no_places, shut};
use crate::telling::{add_loss, come_back, wait};
use esx_events::{Answer, Event, Refusal};
use esx_story::{Change, Loss, Seen};
use esx_types::{Rows, VmId};
use std::alloc::{AllocError, Global};

/// The events of a path so far, their losses, a life for each machine's number, and for each page the place,
/// from 1, of the loss after which it is away.
#[derive(Drop)]
pub struct Account {
    alloc: Global,
    events: u32,
    losses: Vec<Loss>,
    lives: Rows<Life>,
    places: Rows<Rows<u32>>,
}

impl Account {
    fn blank(alloc: Global) -> Result<Account, AllocError>
        ensures { IfOk result (λ a. account_of a ≡ nothing) }
    {
        let lives = no_lives(alloc)?;
        let places = no_places(alloc)?;
        Ok(Account {
            alloc,
            events: 0,
            losses: Vec::new(alloc),
            lives: Rows::from_vec(lives),
            places: Rows::from_vec(places),
        })
    }

    /// Of no event.
    pub fn open(alloc: Global) -> Result<Account, AllocError>
        ensures { IfOk result (λ a. (c : Config) → IsAccount c [] [] (opening c).site (account_of a)) }
    {
        let account = Account::blank(alloc)?;
        Ok(account)
    }

    /// Takes room for one more loss, and a place for each of so many pages of a machine.
    pub fn take_room(&mut self, number: usize, pages: usize) -> Result<(), AllocError>
        ensures same { (c : Config) (ms : List Moment) (mets : List Met) (s : Site) → IsAccount c ms mets s (account_of self.old) → IsAccount c ms mets s (account_of self.new) }
        ensures room { OnOk result (HasSpace self.new) }
        ensures pages { OnOk result (number < length (account_of self.old).places → pages ≤ length (slice_index_or (account_of self.new).places number [])) }
    {
        self.losses.reserve(1)?;
        let alloc = self.alloc;
        make_places(alloc, &mut self.places, number, pages)?;
        Ok(())
    }

    fn step(
        &mut self,
        event: &Event,
        answer: &Answer,
        seen: Option<Seen>,
        given: &Option<Rows<u32>>,
        lost: &Option<Change>,
        gained: &Option<Change>,
    )
        requires room { HasSpace self.old }
        requires short { (account_of self.old).events < MAX_NODES }
        requires losses { length (account_of self.old).losses < MAX_NODES }
        requires lives { AreFew (2 * MAX_NODES) (account_of self.old).lives }
        ensures { account_of self.new ≡ gone_on (account_of self.old) event.now answer.now seen given.now lost.now gained.now }
    {
        let alloc = self.alloc;
        self.events += 1;
        let place = self.losses.len() as u32 + 1;
        come_back(&mut self.losses, &self.places, self.events, gained);
        add_loss(
            &mut self.losses,
            &self.lives,
            self.events,
            answer,
            seen,
            lost,
        );
        count(&mut self.lives, gained);
        count(&mut self.lives, lost);
        live(&mut self.lives, self.events, event, answer, given);
        shut(&mut self.places, gained);
        clear(alloc, &mut self.places, event, answer);
        mark_open(&mut self.places, place, lost);
    }

    /// One more event, with what it lost and gained, what was seen of the machine that it names before it, and what each
    /// machine gave, by number, if it is a rebalance below level high.
    pub fn go_on(
        &mut self,
        event: &Event,
        answer: &Answer,
        seen: Option<Seen>,
        given: &Option<Rows<u32>>,
        lost: &Option<Change>,
        gained: &Option<Change>,
    )
        requires room { HasSpace self.old }
        requires short { IsShort (account_of self.old) }
        ensures { (c : Config) (ms : List Moment) (mets : List Met) (x : Moment) → IsAccount c ms mets x.before.site (account_of self.old)
            → IsNext c x (account_of self.old).places event.now answer.now seen given.now lost.now gained.now → IsAccount c (ms ++ x ∷ []) mets x.after.site (account_of self.new) }
    {
        self.step(event, answer, seen, given, lost, gained);
    }

    /// A call that was refused after the events so far, and the page that it was to read or write, if it was an access.
    pub fn refuse(&mut self, access: Option<(VmId, u32)>, refusal: Refusal)
        requires few { IsPatient (account_of self.old) }
        ensures { (c : Config) (ms : List Moment) (mets : List Met) (m : Met) (s : Site) → IsAccount c ms mets s (account_of self.old)
            → (m.at ≡ length ms) × (m.access ≡ access) × (m.refusal ≡ refusal) → IsAccount c ms (mets ++ m ∷ []) s (account_of self.new) }
    {
        wait(&mut self.losses, &self.places, access, refusal);
    }

    /// How many events there were.
    pub fn events(&self) -> u32
        ensures { result ≡ (account_of self.now).events }
    {
        self.events
    }

    /// The losses so far, the oldest first.
    pub fn losses(&self) -> &[Loss]
        ensures { result.now ≡ (account_of self.now).losses }
    {
        self.losses.as_slice()
    }

    /// What is kept of the machine under a number.
    pub fn life(&self, vm: VmId) -> Life
        ensures { result ≡ life_in (account_of self.now).lives vm }
    {
        life_at(&self.lives, usize::from(vm.number()))
    }
}
