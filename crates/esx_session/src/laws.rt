//! Laws of sessions.

ghost use Rattle.std.specs.Prelude.{ℕ, List};
ghost use Rattle.esx_types.specs.declared.config.Config.{Config};
ghost use Rattle.esx_session.specs.declared.session.Entry.{Entry};
ghost use Rattle.esx_session.specs.Sessions.{ReadsOneSession, ReadsAsPrinted};

/// A text is that of one session at most.
pub fn one_session()
    ensures { (text : List ℕ) → ReadsOneSession text }
{}

/// What is printed of a session is read as that session: one whose site, callers and calls are in range, and whose
/// replies are ASCII without carriage returns.
pub fn read_as_printed()
    ensures { (site : Config) (entries : List Entry) → ReadsAsPrinted site entries }
{}
