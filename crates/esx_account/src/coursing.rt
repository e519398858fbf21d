//! The changes of place on the path to a node of a session, each with its call.

ghost use Rattle.std.specs.Prelude.{◌≡◌, ◌++◌, ◌∷◌, [], List, map, IfOk, OnOk};
ghost use Rattle.esx_types.specs.declared.config.Config.{Config};
ghost use Rattle.esx_types.specs.Ranges.{IsConfig};
ghost use Rattle.esx_events.specs.declared.event.Event.{Event};
ghost use Rattle.esx_session.specs.declared.session.Entry.{Entry};
ghost use Rattle.esx_story.specs.Moments.{moments};
ghost use Rattle.esx_passages.specs.declared.passage.Passages.{Passages};
ghost use Rattle.esx_passages.specs.Passages.{before_rest, in_order, passings};
ghost use Rattle.esx_course.specs.Courses.{IsCourse};
ghost use Rattle.esx_paths.specs.declared.mets.Met.{Met};
ghost use Rattle.esx_account.specs.Coursing.{change_line, AreChangesOf, AreChangesTo, MayBeMade, MovesSo};
ghost use Rattle.esx_account.specs.Surveying.{IsPathOf, IsWay};
ghost use Rattle.esx_account.specs.Texts.{IsPathIn};

use crate::asking::event_asked;
use crate::surveying::want_of_memory;
use crate::text::script_of;
use esx_course::Course;
use esx_events::Event;
use esx_passages::{Passage, Passages};
use esx_paths::{Path, Waypoint};
use esx_report::ChangeLine;
use esx_session::{Request, Script};
use esx_types::Config;
use std::alloc::{AllocError, Global};

/// A course of no event, at a good site.
fn open(alloc: Global, site: Config) -> Result<Course, AllocError>
    requires { IsConfig site }
    ensures { IfOk result (λ course. IsCourse site [] course) }
{
    match Course::open(alloc, site) {
        Ok(course) => Ok(course),
        Err(refusal) => Err(want_of_memory(refusal)),
    }
}

/// One more event, which is accepted: what it moved.
fn go(course: &mut Course, event: &Event) -> Result<Passages, AllocError>
    requires { MayBeMade course.old event.now }
    ensures { (site : Config) (es : List Event) → IsCourse site es course.old → IfOk result (λ passages. IsCourse site (es ++ event.now ∷ []) course.new × MovesSo site es event.now passages) }
{
    match course.go(event) {
        Ok((_answer, passages)) => Ok(passages),
        Err(refusal) => Err(want_of_memory(refusal)),
    }
}

/// Adds a passage with the waypoint of its event, of which it is told if the event moved a page so.
fn add_passage(
    lines: &mut Vec<ChangeLine>,
    at: u32,
    waypoint: &Waypoint,
    passage: Option<Passage>,
) -> Result<(), AllocError>
    ensures { OnOk result (lines.new.items ≡ lines.old.items ++ map (change_line at waypoint.now) (before_rest passage [])) }
{
    let Some(passage) = passage else {
        return Ok(());
    };
    lines.push(ChangeLine {
        at,
        node: waypoint.node,
        call: waypoint.call,
        by: waypoint.caller,
        passage,
    })?;
    Ok(())
}

/// One more event, of this number, with its waypoint: what it moved is added.
fn go_on(
    course: &mut Course,
    lines: &mut Vec<ChangeLine>,
    at: u32,
    waypoint: &Waypoint,
    event: &Event,
) -> Result<(), AllocError>
    requires { MayBeMade course.old event.now }
    ensures { (site : Config) (es : List Event) → IsCourse site es course.old → OnOk result (IsCourse site (es ++ event.now ∷ []) course.new × ((passages : Passages) × MovesSo site es event.now passages × (lines.new.items ≡ lines.old.items ++ map (change_line at waypoint.now) (in_order passages)))) }
{
    let passages = go(course, event)?;
    add_passage(lines, at, waypoint, passages.first)?;
    add_passage(lines, at, waypoint, passages.second)
}

/// The changes of place on a path whose site accepts each of its events.
fn course_way(
    alloc: Global,
    site: Config,
    requests: &[Request],
    waypoints: &[Waypoint],
) -> Result<Vec<ChangeLine>, AllocError>
    requires site { IsConfig site }
    requires way { (mets : List Met) × (es : List Event) × IsWay site requests.now waypoints.now mets es }
    ensures { (mets : List Met) (es : List Event) → IsWay site requests.now waypoints.now mets es → IfOk result (λ lines. AreChangesOf waypoints.now (passings (moments site es)) lines.items) }
{
    let mut course = open(alloc, site)?;
    let mut lines = Vec::new(alloc);
    for (at, waypoint) in waypoints.iter().enumerate() {
        let event = event_asked(requests, waypoint.call);
        go_on(&mut course, &mut lines, at as u32 + 1, waypoint, event)?;
    }
    Ok(lines)
}

/// The changes of place on the path that is told of a session, from the session's calls: each event of the path is made again.
fn course_script(alloc: Global, script: &Script, path: &Path) -> Result<Vec<ChangeLine>, AllocError>
    requires site { IsConfig script.now.site }
    requires path { (entries : List Entry) × IsPathOf script.now.site entries script.now.requests path.now }
    ensures { (entries : List Entry) → IsPathOf script.now.site entries script.now.requests path.now → IfOk result (λ lines. AreChangesTo script.now.site entries path.now lines.items) }
{
    // At most 2^32 - 1 calls, so no more refusals.
    let _calls = path.calls;
    course_way(
        alloc,
        script.site,
        script.requests.as_slice(),
        path.waypoints.as_slice(),
    )
}

/// The second pass over the text of a session for its changes of place: those on the path that the first pass told, in order of
/// event, each with the node and the call of its event, and who made the call. It is refused for want of memory alone.
///
/// Beside the calls of the session and the machine there is a row for each change.
///
/// condition: the path is one of the session of that text
pub fn changes_of(alloc: Global, text: &str, path: &Path) -> Result<Vec<ChangeLine>, AllocError>
    requires { (site : Config) × (entries : List Entry) × IsPathIn text.now site entries path.now }
    ensures { (site : Config) (entries : List Entry) → IsPathIn text.now site entries path.now → IfOk result (λ lines. AreChangesTo site entries path.now lines.items) }
{
    let script = script_of(alloc, text)?;
    course_script(alloc, &script, path)
}
