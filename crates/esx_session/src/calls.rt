//! The calls of a session, read one by one.

ghost use Rattle.std.specs.Prelude.{◌≡◌, ◌∷◌, ◌+◌, ◌++◌, ◌<◌, ◌^◌, [], ℕ, List, length, IfOk, IfErr, IsErrOf, IfSome, IfNone, OnOk, OnErr, MatchOption};
ghost use Rattle.esx_types.specs.Ranges.{IsConfig};
ghost use Rattle.esx_types.specs.declared.config.Config.{Config};
ghost use Rattle.esx_types.specs.declared.version.Version.{Version};
ghost use Rattle.esx_reading.specs.Fields.{joined};
ghost use Rattle.esx_session.specs.declared.session.Entry.{Entry};
ghost use Rattle.esx_session.specs.Sessions.{site_words, head_line, IsEntryOf, Reads, HasOpening, IsRefused};
ghost use Rattle.esx_session.specs.Reading.{TakesReply, LacksReply, TakesEntry, LacksEntry, AreRead, TellsCalls, LacksCalls, LacksHead, LacksOpening, GoesOn, BeginsReply, EntryTakesMemory, NextTakesMemory, Follows, IsNextLine};

use crate::line::{call_of, is_end};
use crate::place::Place;
use crate::session::Entry;
use crate::site::site_of;
use esx_reading::TextFault;
use esx_types::{Bytes, Config, Version};
use std::alloc::{AllocError, Global};
use std::marker::Model;

/// The first line of each session as it is printed.
const HEAD: &str = "esx session 2";

/// The first line of each session of version 1.
const HEAD_OF_ONE: &str = "esx session 1";

/// Adds a line to the text of a reply.
fn add_line(reply: &mut Vec<u8>, line: &str) -> Result<(), AllocError>
    ensures { OnOk result (reply.new.items ≡ reply.old.items ++ (line.now ++ 10 ∷ [])) }
{
    reply.reserve(line.len() + 1)?;
    reply.extend_from_slice(line.as_bytes())?;
    reply.push(b'\n')?;
    Ok(())
}

/// The lines of a reply, of which there is at least one. They are read in place of what a buffer holds.
fn read_reply(place: &mut Place, mut reply: Vec<u8>) -> Result<Bytes, TextFault>
    ensures ok { IfOk result (TakesReply place.old place.new) }
    ensures only { IfErr result (λ e. LacksReply e place.old) }
    ensures memory { IsErrOf result TextFault.OutOfMemory → BeginsReply place.old.left }
{
    reply.clear();
    while let Some(line) = place.next_reply() {
        let Ok(()) = add_line(&mut reply, line) else {
            return Err(TextFault::OutOfMemory);
        };
    }
    if reply.is_empty() {
        return Err(TextFault::BadLine(place.passed() + 1));
    }
    Ok(Bytes::from_vec(reply))
}

/// A call, of which the first line was passed, and its reply, which is read into a buffer.
fn read_entry(
    alloc: Global,
    version: Version,
    line: &str,
    place: &mut Place,
    buffer: Vec<u8>,
) -> Result<Entry, TextFault>
    ensures ok { IfOk result (TakesEntry version line.now place.old place.new) }
    ensures only { IfErr result (λ e. LacksEntry version e line.now place.old) }
    ensures memory { IsErrOf result TextFault.OutOfMemory → EntryTakesMemory version line.now place.old.left }
{
    let Ok(found) = call_of(alloc, version, line) else {
        return Err(TextFault::OutOfMemory);
    };
    let Some((caller, call)) = found else {
        return Err(TextFault::BadLine(place.passed()));
    };
    let reply = read_reply(place, buffer)?;
    Ok(Entry {
        caller,
        call,
        reply,
    })
}

/// The next call behind so many, with its reply. `None` at the last line, behind which nothing stands. A bad line is
/// one of the next two, since an entry is the line of a call and at least one line of its reply.
fn next_entry(
    alloc: Global,
    version: Version,
    place: &mut Place,
    count: u64,
    buffer: Vec<u8>,
) -> Result<Option<Entry>, TextFault>
    ensures some { (start : Place) (done : List Entry) → AreRead version start place.old done
        → IfOk result (λ next. IfSome next (λ entry. AreRead version start place.new (done ++ entry ∷ []))) }
    ensures none { (start : Place) (done : List Entry) → AreRead version start place.old done → count ≡ length done
        → IfOk result (λ next. IfNone next (TellsCalls version start.left done)) }
    ensures only { (start : Place) (done : List Entry) → AreRead version start place.old done → count ≡ length done
        → IfErr result (λ e. LacksCalls version e start) }
    ensures near { (line : ℕ) → IsErrOf result (TextFault.BadLine line) → IsNextLine line place.old }
    ensures memory { IsErrOf result TextFault.OutOfMemory → GoesOn count place.old.left }
    ensures wants { IsErrOf result TextFault.OutOfMemory → NextTakesMemory version place.old.left }
    ensures entry { IfOk result (λ next. IfSome next (IsEntryOf version)) }
    ensures passed { IfOk result (λ next. IfSome next (λ entry. place.old.passed < place.new.passed)) }
    ensures left { IfOk result (λ next. IfSome next (λ entry. length place.new.left < length place.old.left)) }
{
    match place.next() {
        None => Err(TextFault::BadLine(place.passed() + 1)),
        Some(line) if is_end(line, count) => match place.next() {
            None => Ok(None),
            Some(_) => Err(TextFault::BadLine(place.passed())),
        },
        Some(line) => Ok(Some(read_entry(alloc, version, line, place, buffer)?)),
    }
}

/// The version whose first line this is.
fn version_of(line: &str) -> Option<Version>
    ensures { MatchOption result ((version : Version) → line.now ≡ head_line version → ⊥) (λ version. line.now ≡ head_line version) }
{
    match line {
        HEAD => Some(Version::Two),
        HEAD_OF_ONE => Some(Version::One),
        _ => None,
    }
}

/// The version of a session, from its first line, which is passed.
fn read_head(place: &mut Place) -> Option<Version>
    ensures left { MatchOption result (LacksHead place.old.left) (λ version. place.old.left ≡ head_line version ∷ place.new.left) }
    ensures passed { IfSome result (λ version. place.new.passed ≡ place.old.passed + 1) }
{
    let line = place.next()?;
    version_of(line)
}

/// The version and the site, from the first two lines.
fn read_opening(place: &mut Place) -> Result<(Version, Config), TextFault>
    ensures ok { IfOk result (λ p. IsConfig p.1 × (place.old.left ≡ head_line p.0 ∷ joined (site_words p.1) ∷ place.new.left)) }
    ensures passed { IfOk result (λ p. place.new.passed ≡ place.old.passed + 2) }
    ensures only { IfErr result (λ e. LacksOpening e place.old.left) }
{
    let Some(version) = read_head(place) else {
        return Err(TextFault::BadLine(1));
    };
    let Some(line) = place.next() else {
        return Err(TextFault::BadLine(2));
    };
    let Some(site) = site_of(line) else {
        return Err(TextFault::BadLine(2));
    };
    Ok((version, site))
}

/// The calls of a session's text, read one by one, within the limits of its version. It holds none of them: each entry
/// that it gives holds its own call and reply, and no memory is taken but for that entry.
#[derive(Drop)]
pub struct Calls<'a> {
    version: Version,
    place: Place<'a>,
    count: u64,
    buffer: Option<Vec<u8>>,
}

impl<'a> Model for Calls<'a> {
    ghost use Rattle.std.specs.Prelude.{◌+◌, ◌≤◌};
    ghost use Rattle.esx_session.specs.Reading.{Reader};

    ghost Value = { Reader };

    ghost view = { λ c. record { version = c.version; at = c.place; count = c.count } };

    ghost invariant = { λ c. c.count + 2 ≤ c.place.passed };
}

/// The site of a text, and its calls, of which none is read yet. `BadLine(1)` and `BadLine(2)` where the first line,
/// or the one behind it, is that of no session. No memory is taken.
pub fn open_calls<'a>(text: &'a str) -> Result<(Config, Calls<'a>), TextFault>
    ensures ok { IfOk result (λ p. Follows text.now p.0 [] p.1) }
    ensures site { IfOk result (λ p. IsConfig p.0) }
    ensures opening { OnOk result (HasOpening text.now) }
    ensures only { IfErr result (λ e. IsRefused e text.now) }
    ensures none { OnErr result (HasOpening text.now → ⊥) }
    ensures memory { IsErrOf result TextFault.OutOfMemory → ⊥ }
{
    let mut place = Place::start(text);
    let (version, site) = read_opening(&mut place)?;
    let calls = Calls {
        version,
        place,
        count: 0,
        buffer: None,
    };
    Ok((site, calls))
}

impl<'a> Calls<'a> {
    /// The next call, with its reply. `None` behind the last of them, where the text ends with the number of its
    /// calls and nothing else. `BadLine` has the first line at which the text is no session, from 1 on: one past
    /// its last line where it ends too early. It comes once each entry before that line was given: the line is one of
    /// the next two. `OutOfMemory` where there is none for the entry: its line has a command that may take memory, or
    /// is that of a call with a line of a reply behind it.
    ///
    /// The reader goes on behind the entry that it gives, and else stays where it is: after the end it says the end
    /// again, after a bad line the same line, and after want of memory it tries the same entry once more.
    pub fn next(&mut self, alloc: Global) -> Result<Option<Entry>, TextFault>
        ensures some { (text : List ℕ) (site : Config) (done : List Entry) → Follows text site done self.old
            → IfOk result (λ next. IfSome next (λ entry. Follows text site (done ++ entry ∷ []) self.new)) }
        ensures none { (text : List ℕ) (site : Config) (done : List Entry) → Follows text site done self.old
            → IfOk result (λ next. IfNone next (Reads text site done)) }
        ensures only { (text : List ℕ) (site : Config) (done : List Entry) → Follows text site done self.old → IfErr result (λ e. IsRefused e text) }
        ensures near { (line : ℕ) → IsErrOf result (TextFault.BadLine line) → IsNextLine line self.old.at }
        ensures memory { IsErrOf result TextFault.OutOfMemory → GoesOn self.old.count self.old.at.left }
        ensures wants { IsErrOf result TextFault.OutOfMemory → NextTakesMemory self.old.version self.old.at.left }
        ensures entry { IfOk result (λ next. IfSome next (IsEntryOf self.old.version)) }
        ensures version { self.new.version ≡ self.old.version }
        ensures count { IfOk result (λ next. IfSome next (λ entry. self.new.count ≡ self.old.count + 1)) }
        ensures bound { IfOk result (λ next. IfSome next (λ entry. self.new.count < 2 ^ 63)) }
        ensures left { IfOk result (λ next. IfSome next (λ entry. length self.new.at.left < length self.old.at.left)) }
        ensures end { IfOk result (λ next. IfNone next (self.new ≡ self.old)) }
        ensures refused { OnErr result (self.new ≡ self.old) }
    {
        let mut ahead = self.place.ahead();
        let buffer = self.buffer.take().unwrap_or(Vec::new(alloc));
        let Some(entry) = next_entry(alloc, self.version, &mut ahead, self.count, buffer)? else {
            return Ok(None);
        };
        self.place = ahead;
        self.count += 1;
        Ok(Some(entry))
    }

    /// Takes the bytes of a reply that is done with, so that the next reply is read into them and takes no memory
    /// of its own where it is no longer.
    pub fn give_back(&mut self, reply: Bytes)
        ensures { self.new ≡ self.old }
    {
        self.buffer = Some(reply.into_vec());
    }
}
