//! The text of a line whose call is spelled already.

ghost use Rattle.std.specs.Prelude.{◌≡◌, ◌+◌, ◌≤◌, ◌++◌, ◌∷◌, [], ℕ, List, IfSome, IfNone, OnOk, decimal, drop, length, true};
ghost use Rattle.esx_replies.specs.Replies.{reply_text};
ghost use Rattle.esx_session.specs.Sessions.{quoted};
ghost use Rattle.esx_session.specs.Printing.{line_text};
ghost use Rattle.esx_told.specs.Told.{Spells};

use esx_events::{Line, Reply};
use esx_replies::{is_brief, put_reply};
use esx_session::ReplySign;
use esx_types::MemorySink;
use esx_writing::{AnswerBuffer, ROOM, append_held};
use std::alloc::{AllocError, Global};
use std::marker::Brand;
use std::sync::ledger::{Blank, Ledger};

/// The longest spelling that is held; a longer one goes to the text at once.
const MOST: usize = 512;

/// How long the sign before a reply is.
const SIGN: usize = 2;

/// Adds who called and the call's spelling to a text, an end of them held. Where memory runs out, a front of them may be
/// added.
fn push_call(
    text: &mut Vec<u8>,
    held: &mut AnswerBuffer,
    caller: u16,
    spelled: &[u8],
) -> Result<(), AllocError>
    requires { held.old ≡ [] }
    ensures whole { OnOk result (text.new.items ++ held.new ≡ text.old.items ++ (decimal caller ++ 32 ∷ (spelled.now ++ 10 ∷ []))) }
    ensures front { (more : List ℕ) × (text.new.items ≡ text.old.items ++ more) }
{
    held.push_number(u64::from(caller));
    held.push(b" ");
    if spelled.len() > MOST {
        append_held(text, held)?;
        text.extend_from_slice(spelled)?;
    } else {
        held.push(spelled);
    }
    held.push(b"\n");
    Ok(())
}

/// Holds a reply as a session has it, and tells whether all of it is held, by a count of the writes.
fn hold_reply<L: Ledger>(
    alloc: Global,
    held: &mut AnswerBuffer,
    reply: &Reply,
    blank: Blank,
) -> bool
    requires name { blank.name ≡ L.name }
    requires parts { blank.parts ≡ L.parts }
    requires four { 4 ≤ blank.parts }
    ensures { result ≡ true → held.new ≡ held.old ++ quoted (reply_text reply.now) }
{
    let mut rest = MemorySink::<L>::new(Vec::new(alloc), blank);
    put_reply::<ReplySign, MemorySink<L>>(&mut rest, held, reply).is_ok() && rest.bytes.is_empty()
}

/// Adds a line whose call is spelled and whose reply is known to be one line, and tells where the reply stands. Of other
/// lines, and where there is no room, a front may be added or held.
fn push_line(
    text: &mut Vec<u8>,
    held: &mut AnswerBuffer,
    line: &Line,
    spelled: &[u8],
) -> Option<usize>
    requires empty { held.old ≡ [] }
    requires spelled { Spells spelled.now line.now.call }
    ensures some { IfSome result (λ at. (text.new.items ≡ text.old.items ++ line_text line.now) × (at ≤ length text.new.items) × (drop at text.new.items ≡ reply_text line.now.reply)) }
    ensures front { (more : List ℕ) × (text.new.items ≡ text.old.items ++ more) }
{
    if spelled.is_empty() || !is_brief(&line.reply.said) {
        return None;
    }
    push_call(text, held, line.caller, spelled).ok()?;
    let at = text.len() + (ROOM - held.room()) + SIGN;
    if !hold_reply::<Brand>(*text.allocator(), held, &line.reply, Blank::new(4)) {
        return None;
    }
    append_held(text, held).ok()?;
    Some(at)
}

/// Adds a line to a text where its call is spelled, its reply is known to be one line and there is memory, and tells where
/// the reply stands. Elsewhere the text stays.
pub fn add_spelled(
    text: &mut Vec<u8>,
    held: &mut AnswerBuffer,
    line: &Line,
    spelled: &[u8],
) -> Option<usize>
    requires empty { held.old ≡ [] }
    requires spelled { Spells spelled.now line.now.call }
    ensures some { IfSome result (λ at. (text.new.items ≡ text.old.items ++ line_text line.now) × (at ≤ length text.new.items) × (drop at text.new.items ≡ reply_text line.now.reply)) }
    ensures none { IfNone result (text.new.items ≡ text.old.items) }
    ensures empty { held.new ≡ [] }
{
    let start = text.len();
    let added = push_line(text, held, line, spelled);
    held.clear();
    if added.is_none() {
        text.truncate(start);
    }
    added
}
