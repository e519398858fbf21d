//! A law of the texts of replies. The function here does nothing: its contract is the law.

ghost use Rattle.esx_events.specs.declared.call.Reply.{Reply};
ghost use Rattle.esx_replies.specs.Told.{IsReplyTold};

/// The text of each reply whose names are names of nodes is ASCII, ends in a line feed, and has no carriage return.
pub fn told_reply()
    ensures { (reply : Reply) → IsReplyTold reply }
{}
