//! What is kept of a path.

ghost use Rattle.std.specs.Prelude.{◌≡◌, ◌<◌, ◌≤◌, ◌*◌, ◌++◌, ◌∷◌, [], List, length, IfOk, OnOk};
ghost use Rattle.esx_types.specs.declared.config.TheConstants.{MAX_NODES};
ghost use Rattle.esx_types.specs.declared.config.Config.{Config};
ghost use Rattle.esx_story.specs.Moments.{Moment};
ghost use Rattle.esx_sums.specs.Accounts.{IsSums, IsNext, IsShort, IsPatient};
ghost use Rattle.esx_sums.specs.Few.{AreFew, AreSmall, IsShortSite, AreShortLevels};
ghost use Rattle.esx_sums.specs.Kept.{sums_of, HasSpace};
ghost use Rattle.esx_story.specs.Waits.{Met};
ghost use Rattle.esx_sums.specs.Mets.{refused_with};
ghost use Rattle.esx_sums.specs.Site.{IsSiteSums, levels, revoked_by};
ghost use Rattle.esx_sums.specs.Sums.{all_present, nothing, gone_on, refused};
ghost use Rattle.esx_sums.specs.Lives.{end_of};
ghost use Rattle.esx_sums.specs.Rows.{guests};

use crate::guest::Guest;
use crate::level::{Levels, levels_after, no_levels};
use crate::present::Present;
use crate::refusals::{count_refusal, no_refusals, refusals_at};
use crate::rows::all_rows;
use crate::site::{SiteSums, all_here, all_out, no_site, site_after};
use crate::tallies::{end, no_tallies, refuse, tally_all};
use crate::tally::{Over, Tally};
use esx_events::{Answer, Event, Refusal, Sum};
use esx_story::{Change, Loss};
use esx_types::{Config, Level, Rows, VmId};
use std::alloc::{AllocError, Global};

/// The pages that an event changed: one that left its frame, one that came into one, and one that stayed in frames and
/// moved; and the machine of a page in whose frame another came.
#[derive(Clone, Copy, Debug, PartialEq, Eq)]
pub struct Changes {
    pub lost: Option<Change>,
    pub gained: Option<Change>,
    pub moved: Option<Change>,
    pub host: Option<VmId>,
}

/// The sums of a path so far: the present life under each machine's number, those that are over in the order in which
/// the next one began, the levels, the site, and how many events were refused for each reason.
#[derive(Drop)]
pub struct Sums {
    lives: Rows<Tally>,
    past: Vec<Over>,
    levels: Levels,
    site: SiteSums,
    level: Level,
    refused: Rows<u32>,
}

impl Sums {
    fn blank(alloc: Global, frames: u32) -> Result<Sums, AllocError>
        ensures { IfOk result (λ s. sums_of s ≡ nothing frames) }
    {
        let now = no_tallies(alloc)?;
        let refused = no_refusals(alloc)?;
        Ok(Sums {
            lives: Rows::from_vec(now),
            past: Vec::new(alloc),
            levels: no_levels(),
            site: no_site(frames),
            level: Level::High,
            refused: Rows::from_vec(refused),
        })
    }

    /// Of no event.
    pub fn open(alloc: Global, site: Config) -> Result<Sums, AllocError>
        ensures { IfOk result (λ s. IsSums site [] [] (sums_of s)) }
    {
        let sums = Sums::blank(alloc, site.frames)?;
        Ok(sums)
    }

    /// Takes room for one more life that is over.
    pub fn take_room(&mut self) -> Result<(), AllocError>
        ensures same { sums_of self.new ≡ sums_of self.old }
        ensures room { OnOk result (HasSpace self.new) }
    {
        self.past.reserve(1)?;
        Ok(())
    }

    fn step(
        &mut self,
        event: &Event,
        answer: &Answer,
        changes: &Changes,
        sum: &Sum,
        present: &[Option<Present>],
    )
        requires room { HasSpace self.old }
        requires few { AreFew (2 * MAX_NODES) (sums_of self.old).now }
        requires site { IsShortSite (sums_of self.old).site }
        requires levels { AreShortLevels (sums_of self.old).levels }
        requires small { AreSmall present.now }
        ensures whole { sums_of self.new ≡ gone_on (sums_of self.old) event.now answer.now changes.now sum.now present.now }
        ensures revoked { revoked_by answer.now ≤ 4294967295 }
    {
        let pages = all_here(present);
        let out = all_out(present);
        end(&mut self.past, &self.lives, event);
        tally_all(&mut self.lives, event, changes, present);
        self.levels = levels_after(self.levels, self.level, sum.level);
        self.site = site_after(&self.site, event, answer, sum, pages, out);
        self.level = sum.level;
    }

    /// One more event, with the pages that it changed, the frames of each kind and the level after it, and what is told
    /// of each machine that stands after it, at its number.
    pub fn go_on(
        &mut self,
        event: &Event,
        answer: &Answer,
        changes: &Changes,
        sum: &Sum,
        present: &[Option<Present>],
    )
        requires room { HasSpace self.old }
        requires short { IsShort (sums_of self.old) }
        requires small { AreSmall present.now }
        ensures { (c : Config) (ms : List Moment) (mets : List Met) (x : Moment) → IsSums c ms mets (sums_of self.old)
            → IsNext c ms x event.now answer.now changes.now sum.now present.now → IsSums c (ms ++ x ∷ []) mets (sums_of self.new) }
    {
        self.step(event, answer, changes, sum, present);
    }

    /// An event that was refused after those so far, with the page where it was an access.
    pub fn refuse(&mut self, access: Option<(VmId, u32)>, refusal: Refusal)
        requires few { IsPatient (sums_of self.old) }
        ensures { (c : Config) (ms : List Moment) (mets : List Met) (m : Met) → IsSums c ms mets (sums_of self.old)
            → (m.at ≡ length ms) × (m.access ≡ access) × (m.refusal ≡ refusal) → IsSums c ms (mets ++ m ∷ []) (sums_of self.new) }
    {
        refuse(&mut self.lives, access, refusal);
        count_refusal(&mut self.refused, refusal);
    }

    /// What is told of the site.
    pub fn site(&self) -> SiteSums
        ensures { (c : Config) (ms : List Moment) (mets : List Met) → IsSums c ms mets (sums_of self.now) → IsSiteSums c ms result }
    {
        let sums = self.site;
        sums
    }

    /// After how many events each level stood, and how often it was entered.
    pub fn levels(&self) -> Levels
        ensures { (c : Config) (ms : List Moment) (mets : List Met) → IsSums c ms mets (sums_of self.now) → result ≡ levels ms }
    {
        let levels = self.levels;
        levels
    }

    /// How many events were refused for the reason with a number.
    pub fn refused(&self, number: u8) -> u32
        ensures { (c : Config) (ms : List Moment) (mets : List Met) → IsSums c ms mets (sums_of self.now) → result ≡ refused_with number mets }
    {
        refusals_at(&self.refused, usize::from(number))
    }

    /// The rows of all lives, in order of machine and life. `present` is what is told of each machine that stands at the
    /// end of the path, at its number, and `losses` are the path's.
    ///
    /// condition: there are fewer than 2^32 losses
    pub fn guests(
        &self,
        alloc: Global,
        present: &[Option<Present>],
        losses: &[Loss],
    ) -> Result<Vec<Guest>, AllocError>
        requires few { length losses.now < 4294967296 }
        ensures { IfOk result (λ rows. (c : Config) (ms : List Moment) (mets : List Met) → IsSums c ms mets (sums_of self.now) → present.now ≡ all_present (end_of c ms).site → rows.items ≡ guests c ms mets losses.now) }
    {
        let rows = all_rows(alloc, &self.lives, self.past.as_slice(), present, losses)?;
        Ok(rows)
    }
}
