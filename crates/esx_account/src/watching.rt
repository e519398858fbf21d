//! The path to a node of a session, watched: its steps.

ghost use Rattle.std.specs.Prelude.{◌≡◌, ◌++◌, ◌∷◌, [], List, map, IfOk, OnOk};
ghost use Rattle.esx_types.specs.declared.config.Config.{Config};
ghost use Rattle.esx_types.specs.Ranges.{IsConfig};
ghost use Rattle.esx_events.specs.declared.event.Event.{Event};
ghost use Rattle.esx_session.specs.declared.session.Entry.{Entry};
ghost use Rattle.esx_story.specs.Moments.{moments};
ghost use Rattle.esx_figures.specs.Steps.{steps};
ghost use Rattle.esx_paths.specs.declared.mets.Met.{Met};
ghost use Rattle.esx_watch.specs.Watches.{IsWatch};
ghost use Rattle.esx_account.specs.Lines.{waypoint_numbered};
ghost use Rattle.esx_account.specs.Surveying.{IsPathOf, IsWay, events_to};
ghost use Rattle.esx_account.specs.Texts.{IsPathIn};
ghost use Rattle.esx_account.specs.Watching.{IsGoing, step_row, steps_to};

use crate::asking::event_asked;
use crate::surveying::want_of_memory;
use crate::text::script_of;
use esx_events::Event;
use esx_figures::Step;
use esx_paths::{Path, Waypoint};
use esx_report::StepRow;
use esx_session::{Request, Script};
use esx_types::Config;
use esx_watch::Watch;
use std::alloc::{AllocError, Global};

/// A watch of no event, at a good site.
fn open(alloc: Global, site: Config) -> Result<Watch, AllocError>
    requires { IsConfig site }
    ensures { IfOk result (λ watch. IsWatch site [] watch) }
{
    match Watch::open(alloc, site) {
        Ok(watch) => Ok(watch),
        Err(refusal) => Err(want_of_memory(refusal)),
    }
}

/// One more event, which is accepted.
fn go(watch: &mut Watch, event: &Event) -> Result<(), AllocError>
    requires { IsGoing watch.old event.now }
    ensures { (site : Config) (es : List Event) → IsWatch site es watch.old → OnOk result (IsWatch site (es ++ event.now ∷ []) watch.new) }
{
    match watch.go(event) {
        Ok(_answer) => Ok(()),
        Err(refusal) => Err(want_of_memory(refusal)),
    }
}

/// The watch of a path whose site accepts each of its events.
fn watch_way(
    alloc: Global,
    site: Config,
    requests: &[Request],
    waypoints: &[Waypoint],
) -> Result<Watch, AllocError>
    requires site { IsConfig site }
    requires way { (es : List Event) × (mets : List Met) × IsWay site requests.now waypoints.now mets es }
    ensures { (es : List Event) (mets : List Met) → IsWay site requests.now waypoints.now mets es → IfOk result (λ watch. IsWatch site es watch) }
{
    let mut watch = open(alloc, site)?;
    for (_at, waypoint) in waypoints.iter().enumerate() {
        go(&mut watch, event_asked(requests, waypoint.call))?;
    }
    Ok(watch)
}

/// The watch of the path that is told of a session, from the session's calls.
fn watch_script(alloc: Global, script: &Script, path: &Path) -> Result<Watch, AllocError>
    requires site { IsConfig script.now.site }
    requires path { (entries : List Entry) × IsPathOf script.now.site entries script.now.requests path.now }
    ensures { (entries : List Entry) → IsPathOf script.now.site entries script.now.requests path.now → IfOk result (λ watch. IsWatch script.now.site (events_to script.now.site entries path.now) watch) }
{
    // At most 2^32 - 1 calls, so no more refusals.
    let _calls = path.calls;
    watch_way(
        alloc,
        script.site,
        script.requests.as_slice(),
        path.waypoints.as_slice(),
    )
}

/// The waypoint of the event that has this number, from 1 on.
fn waypoint_at(waypoints: &[Waypoint], number: u32) -> Option<Waypoint>
    ensures { result ≡ waypoint_numbered waypoints.now number }
{
    if number == 0 {
        return None;
    }
    match waypoints.get(number as usize - 1) {
        Some(waypoint) => Some(Waypoint {
            node: waypoint.node,
            call: waypoint.call,
            caller: waypoint.caller,
        }),
        None => None,
    }
}

/// A step with the waypoint of its event.
fn step_row(waypoints: &[Waypoint], step: &Step) -> StepRow
    ensures { result ≡ step_row waypoints.now step.now }
{
    match waypoint_at(waypoints, step.at) {
        None => StepRow {
            node: 0,
            by: None,
            step: *step,
        },
        Some(waypoint) => StepRow {
            node: waypoint.node,
            by: Some(waypoint.caller),
            step: *step,
        },
    }
}

/// The steps of a path that was watched, each with the node of its event and who called for it.
fn rows_of(alloc: Global, watch: &Watch, path: &Path) -> Result<Vec<StepRow>, AllocError>
    ensures { (site : Config) (es : List Event) → IsWatch site es watch.now → IfOk result (λ rows. rows.items ≡ map (step_row path.now.waypoints) (steps site (moments site es))) }
{
    let waypoints = path.waypoints.as_slice();
    let steps = watch.steps();
    let mut rows = Vec::with_capacity(alloc, steps.len())?;
    for step in steps {
        rows.push(step_row(waypoints, step))?;
    }
    Ok(rows)
}

/// The watch of the path that is told of the session of a text. The calls of the session go with it.
fn watch_text(alloc: Global, text: &str, path: &Path) -> Result<Watch, AllocError>
    requires { (site : Config) × (entries : List Entry) × IsPathIn text.now site entries path.now }
    ensures { (site : Config) (entries : List Entry) → IsPathIn text.now site entries path.now → IfOk result (λ watch. IsWatch site (events_to site entries path.now) watch) }
{
    let script = script_of(alloc, text)?;
    watch_script(alloc, &script, path)
}

/// The second pass over the text of a session for its steps: the steps of the path that the first pass told, from the opening
/// on, each with the node of its event and who called for it. It is refused for want of memory alone.
///
/// condition: the path is one of the session of that text
pub fn steps_of(alloc: Global, text: &str, path: &Path) -> Result<Vec<StepRow>, AllocError>
    requires { (site : Config) × (entries : List Entry) × IsPathIn text.now site entries path.now }
    ensures { (site : Config) (entries : List Entry) → IsPathIn text.now site entries path.now → IfOk result (λ rows. rows.items ≡ steps_to site entries path.now) }
{
    let watch = watch_text(alloc, text, path)?;
    rows_of(alloc, &watch, path)
}
