//! Laws of what passes know.

ghost use Rattle.std.specs.Prelude.{◌≡◌};
ghost use Rattle.esx_events.specs.declared.call.Call.{Call};
ghost use Rattle.esx_events.specs.declared.call.Reply.{Reply};
ghost use Rattle.esx_lock.specs.declared.view.View.{View};
ghost use Rattle.esx_lock.specs.Passes.{IsWhole};
ghost use Rattle.esx_model.specs.Console.{next_reply, lined};
ghost use Rattle.esx_desk.specs.Legal.{session};
ghost use Rattle.esx_desk.specs.Told.{Adds};

use esx_lock::laws::whole_pass_has_seen_all;

/// To a pass that speaks for all callers a desk is a console: the reply is a console's after what the pass
/// had seen, and the log is that console's.
pub fn whole_pass_has_a_console()
    ensures reply { (v w : View) (call : Call) (reply : Reply) → IsWhole v → Adds v w call reply → reply ≡ next_reply (session v.site v.seen) call }
    ensures line { (v w : View) (call : Call) (reply : Reply) → IsWhole v → (a : Adds v w call reply) → session v.site w.seen ≡ lined (session v.site v.seen) a.caller call }
{
    whole_pass_has_seen_all();
}
