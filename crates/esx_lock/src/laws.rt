//! Laws of what passes know.

ghost use Rattle.std.specs.Prelude.{◌≡◌, List};
ghost use Rattle.esx_events.specs.declared.call.Line.{Line};
ghost use Rattle.esx_lock.specs.declared.view.View.{View};
ghost use Rattle.esx_lock.specs.Logs.{Follows};
ghost use Rattle.esx_lock.specs.Passes.{IsWhole};

/// A pass that speaks for all callers never learns of a new line: nobody else can have written one.
pub fn whole_pass_has_seen_all()
    ensures { (v : View) (log : List Line) → IsWhole v → Follows v.callers v.ids v.seen log → log ≡ v.seen }
{}
