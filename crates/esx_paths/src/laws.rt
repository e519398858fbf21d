//! Laws of paths. A function here does nothing: its contract is the law.

ghost use Rattle.std.specs.Prelude.{◌≡◌, ◌+◌, ℕ, List, length};
ghost use Rattle.esx_model.specs.Tree.{path};
ghost use Rattle.esx_model.specs.Console.{Session, history};
ghost use Rattle.esx_paths.specs.declared.way.Waypoint.{Waypoint};
ghost use Rattle.esx_paths.specs.Makers.{refusals};
ghost use Rattle.esx_paths.specs.Paths.{IsPathTo, mets_on, mets_off};

/// A path has a waypoint for each of its events.
pub fn one_waypoint_each()
    ensures { (s : Session) (node : ℕ) (waypoints : List Waypoint) → IsPathTo s node waypoints → length waypoints ≡ length (path (history s).nodes node) }
{}

/// Each refusal was met on a path or elsewhere.
pub fn refusals_add_up()
    ensures { (s : Session) (node : ℕ) → length (mets_on s node) + mets_off s node ≡ length (refusals s) }
{}
