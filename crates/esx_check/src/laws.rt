//! Laws of checks. A function here does nothing: its contract is the law.

ghost use Rattle.std.specs.Prelude.{◌≡◌, ◌∷◌, ℕ, List, length, map};
ghost use Rattle.std.specs.Str.Lines.{lines};
ghost use Rattle.esx_types.specs.declared.config.Config.{Config};
ghost use Rattle.esx_types.specs.declared.version.Version.{Version};
ghost use Rattle.esx_types.specs.declared.version.Version.TheVariants.{Two};
ghost use Rattle.esx_model.specs.Console.{Session, IsLegal};
ghost use Rattle.esx_session.specs.declared.session.Entry.{Entry};
ghost use Rattle.esx_session.specs.Sessions.{ended, head_line, logged, session_text, Reads};
ghost use Rattle.esx_check.specs.declared.check.Checked.{Checked};
ghost use Rattle.esx_check.specs.declared.check.Checked.TheVariants.{Same};
ghost use Rattle.esx_check.specs.Again.{made};
ghost use Rattle.esx_check.specs.Checks.{Checks, ChecksText, IsPrintable};

use esx_replies::laws::told_reply;
use esx_session::laws::{one_session, read_as_printed};

/// A check comes to one thing.
pub fn one_check()
    ensures { (site : Config) (entries : List Entry) (checked other : Checked) → Checks site entries checked → Checks site entries other → checked ≡ other }
{}

/// A check of a text comes to one thing.
pub fn one_text_check()
    ensures { (text : List ℕ) (checked other : Checked) → ChecksText text checked → ChecksText text other → checked ≡ other }
{
    one_session();
    one_check();
}

/// What is told of a legal log is the same when it is gone through again.
pub fn told_log_is_same()
    ensures { (s : Session) → IsLegal s → Checks s.site (map logged s.log) (Same (length s.log)) }
{}

/// What is printed of a legal log is read as the session that it tells. The site, the callers and the calls are in the
/// ranges that a session can have; of the replies nothing is asked.
pub fn printed_log_is_read()
    ensures { (s : Session) → IsLegal s → IsPrintable s → Reads (session_text s.site (map logged s.log)) s.site (map logged s.log) }
{
    told_reply();
    read_as_printed();
}

/// So what is printed of a legal log can be read, and a check of it comes to the same.
pub fn printed_log_is_checked()
    ensures { (s : Session) → IsLegal s → IsPrintable s → ChecksText (session_text s.site (map logged s.log)) (Same (length s.log)) }
{
    printed_log_is_read();
    told_log_is_same();
}

/// Whatever session is read of what is printed of a legal log, it is the same when it is gone through again.
pub fn printed_log_is_same()
    ensures { (s : Session) (site : Config) (entries : List Entry) (checked : Checked) → IsLegal s → IsPrintable s
        → Reads (session_text s.site (map logged s.log)) site entries → Checks site entries checked → checked ≡ Same (length s.log) }
{
    one_session();
    printed_log_is_read();
    told_log_is_same();
    one_check();
}

/// So a check of what is printed of a legal log finds it the same.
pub fn printed_text_is_same()
    ensures { (s : Session) (checked : Checked) → IsLegal s → IsPrintable s → ChecksText (session_text s.site (map logged s.log)) checked → checked ≡ Same (length s.log) }
{
    printed_log_is_same();
}

/// A session is the same only where it is what is told of a log: that of a console at which its calls were made.
pub fn same_is_told_log()
    ensures { (site : Config) (entries : List Entry) → Checks site entries (Same (length entries)) → map logged (made site entries).log ≡ entries }
{}

/// What is printed of a session that was read has the lines of its text, but for the first, which says version 2.
pub fn first_line_alone()
    ensures { (text : List ℕ) (version : Version) (others : List (List ℕ)) (site : Config) (entries : List Entry) → lines text ≡ head_line version ∷ others
        → Reads text site entries → session_text site entries ≡ ended (head_line Two ∷ others) }
{}
