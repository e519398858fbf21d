//! All that a report tells of a path.

ghost use Rattle.std.specs.Prelude.{◌≡◌, List, IfOk};
ghost use Rattle.esx_types.specs.declared.config.Config.{Config};
ghost use Rattle.esx_types.specs.Ranges.{IsConfig};
ghost use Rattle.esx_session.specs.declared.session.Entry.{Entry};
ghost use Rattle.esx_account.specs.Account.{IsAccountOf};
ghost use Rattle.esx_account.specs.Surveying.{IsPathOf, SurveysPath, IsAlong};
ghost use Rattle.esx_account.specs.Texts.{IsPathIn};

use crate::lines::loss_lines;
use crate::parts::{losses_by_level, opened_of, path_counts, refusals_of};
use crate::text::survey_text;
use esx_paths::Path;
use esx_report::{LossLine, LossesByLevel, Opened, PathSums, Told};
use esx_session::Script;
use esx_sums::{Guest, Levels, SiteSums};
use esx_survey::Survey;
use esx_types::Rows;
use std::alloc::{AllocError, Global};

/// What a report tells of the path to a node of a session, and the session's calls.
///
/// `refusals` has at each place, from 0 on, how many calls were refused on the path by the refusal of that number; `guests`
/// are in order of machine and life, and `losses` in order of event.
#[derive(Drop)]
pub struct Account {
    pub opened: Opened,
    pub path: PathSums,
    pub levels: Levels,
    pub site: SiteSums,
    pub refusals: Rows<u32>,
    pub guests: Rows<Guest>,
    pub by_level: LossesByLevel,
    pub losses: Rows<LossLine>,
    pub script: Script,
}

/// The account of a path that was surveyed.
fn gathered(
    alloc: Global,
    script: Script,
    survey: &Survey,
    path: &Path,
) -> Result<Account, AllocError>
    requires site { IsConfig script.site }
    requires path { (entries : List Entry) × IsPathOf script.site entries script.requests path.now × SurveysPath script.site entries path.now survey.now }
    ensures { (entries : List Entry) → IsPathOf script.site entries script.requests path.now → SurveysPath script.site entries path.now survey.now → IfOk result (IsAccountOf script.site entries path.now) }
{
    // At most 2^32 - 1 calls, so no more refusals.
    let _calls = path.calls;
    let sums = survey.sums();
    let losses = loss_lines(alloc, survey.walk(), path)?;
    let refusals = refusals_of(alloc, sums)?;
    let guests = survey.guests(alloc)?;
    Ok(Account {
        opened: opened_of(&script.site),
        path: path_counts(survey.events(), path),
        levels: sums.levels(),
        site: sums.site(),
        refusals: Rows::from_vec(refusals),
        guests: Rows::from_vec(guests),
        by_level: losses_by_level(survey.walk().losses()),
        losses: Rows::from_vec(losses),
        script,
    })
}

/// The second pass over the text of a session: all that a report tells of the path that the first pass told, and the calls of
/// the session without their replies. It is refused for want of memory alone.
///
/// condition: the path is one of the session of that text
pub fn account_of(alloc: Global, text: &str, path: &Path) -> Result<Account, AllocError>
    requires { (site : Config) × (entries : List Entry) × IsPathIn text.now site entries path.now }
    ensures { (site : Config) (entries : List Entry) → IsPathIn text.now site entries path.now → IfOk result (IsAccountOf site entries path.now) }
{
    let (script, survey) = survey_text(alloc, text, path)?;
    gathered(alloc, script, &survey, path)
}

impl Account {
    /// What a report is told.
    pub fn told(&self) -> Told<'_>
        ensures opened { result.opened ≡ self.now.opened }
        ensures path { result.path ≡ self.now.path }
        ensures levels { result.levels ≡ self.now.levels }
        ensures site { result.site ≡ self.now.site }
        ensures refusals { result.refusals.now ≡ self.now.refusals }
        ensures guests { result.guests.now ≡ self.now.guests }
        ensures by_level { result.by_level ≡ self.now.by_level }
        ensures losses { result.losses.now ≡ self.now.losses }
    {
        Told {
            opened: self.opened,
            path: self.path,
            levels: self.levels,
            site: self.site,
            refusals: self.refusals.as_slice(),
            guests: self.guests.as_slice(),
            by_level: self.by_level,
            losses: self.losses.as_slice(),
        }
    }
}
