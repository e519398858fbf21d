//! The path to a node of a session, surveyed.

ghost use Rattle.std.specs.Prelude.{◌≡◌, ◌≢◌, ◌≤◌, ◌+◌, ◌++◌, ◌∷◌, [], ℕ, List, length, map, take, drop, IfOk, OnOk};
ghost use Rattle.esx_types.specs.declared.config.Config.{Config};
ghost use Rattle.esx_types.specs.Ranges.{IsConfig};
ghost use Rattle.esx_events.specs.declared.event.Event.{Event};
ghost use Rattle.esx_session.specs.declared.session.Entry.{Entry};
ghost use Rattle.esx_story.specs.Waits as story;
ghost use Rattle.esx_survey.specs.Surveys.{IsSurvey};
ghost use Rattle.esx_account.specs.Surveying.{IsPathOf, SurveysPath, IsAlong, met_of, NeverFall, IsWay, MayTell, IsAccepted};

use crate::asking::event_asked;
use esx_events::{Event, Refusal};
use esx_paths::{Met, Path, Waypoint};
use esx_session::{Request, Script};
use esx_survey::Survey;
use esx_types::Config;
use std::alloc::{AllocError, Global};

/// The only refusal that can come of a site and events that are accepted.
pub(crate) fn want_of_memory(refusal: Refusal) -> AllocError
    requires { ¬ (refusal ≢ Refusal.OutOfMemory) }
{
    match refusal {
        Refusal::OutOfMemory => AllocError,
        _ => unreachable!(),
    }
}

/// A survey of no event, at a good site.
fn open(alloc: Global, site: Config) -> Result<Survey, AllocError>
    requires { IsConfig site }
    ensures { IfOk result (λ survey. IsSurvey site [] [] survey) }
{
    match Survey::open(alloc, site) {
        Ok(survey) => Ok(survey),
        Err(refusal) => Err(want_of_memory(refusal)),
    }
}

/// One more event, which is accepted.
fn go(survey: &mut Survey, event: &Event) -> Result<(), AllocError>
    requires { IsAccepted survey.old event.now }
    ensures { (site : Config) (es : List Event) (mets : List story.Met) → IsSurvey site es mets survey.old → OnOk result (IsSurvey site (es ++ event.now ∷ []) mets survey.new) }
{
    match survey.go(event) {
        Ok(_answer) => Ok(()),
        Err(refusal) => Err(want_of_memory(refusal)),
    }
}

/// Tells a survey of the refusals that were met where it is. Those before the first of these places were told already; what
/// it gives is the place of the next.
fn refuse_here(survey: &mut Survey, mets: &[Met], first: usize) -> usize
    requires tells { MayTell mets.now first survey.old }
    ensures told { (site : Config) (es : List Event) → IsSurvey site es (map met_of (take first mets.now)) survey.old → IsSurvey site es (map met_of (take result mets.now)) survey.new }
    ensures later { (site : Config) (es : List Event) → IsSurvey site es (map met_of (take first mets.now)) survey.old
        → NeverFall (length es) (drop first mets.now) → NeverFall (length es + 1) (drop result mets.now) }
    ensures within { result ≤ length mets.now }
{
    let here = survey.events();
    for next in first..mets.len() {
        let met = &mets[next];
        if met.at != here {
            return next;
        }
        survey.refuse(met.access, met.refusal);
    }
    mets.len()
}

/// The survey of a path whose site accepts each of its events.
fn survey_way(
    alloc: Global,
    site: Config,
    requests: &[Request],
    waypoints: &[Waypoint],
    mets: &[Met],
) -> Result<Survey, AllocError>
    requires site { IsConfig site }
    requires way { (es : List Event) × IsWay site requests.now waypoints.now mets.now es }
    ensures { (es : List Event) → IsWay site requests.now waypoints.now mets.now es → IfOk result (λ survey. IsSurvey site es (map met_of mets.now) survey) }
{
    let mut survey = open(alloc, site)?;
    let mut told = refuse_here(&mut survey, mets, 0);
    for (_at, waypoint) in waypoints.iter().enumerate() {
        go(&mut survey, event_asked(requests, waypoint.call))?;
        told = refuse_here(&mut survey, mets, told);
    }
    Ok(survey)
}

/// The survey of the path that is told of a session, from the session's calls: each event of the path is made again, and the
/// survey is told of the refusals that were met on it, where they were met. It is refused for want of memory alone.
///
/// Beside the survey itself no memory is taken.
pub fn survey_script(alloc: Global, script: &Script, path: &Path) -> Result<Survey, AllocError>
    requires site { IsConfig script.now.site }
    requires path { (entries : List Entry) × IsPathOf script.now.site entries script.now.requests path.now }
    ensures surveys { (entries : List Entry) → IsPathOf script.now.site entries script.now.requests path.now → IfOk result (SurveysPath script.now.site entries path.now) }
    ensures along { IfOk result (λ survey. IsAlong path.now.waypoints survey.walk) }
{
    // At most 2^32 - 1 calls, so no more refusals.
    let _calls = path.calls;
    survey_way(
        alloc,
        script.site,
        script.requests.as_slice(),
        path.waypoints.as_slice(),
        path.mets.as_slice(),
    )
}
