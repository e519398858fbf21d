//! The text of a session, gone through once: checked while it is read, with what is kept of the session.

ghost use Rattle.std.specs.Prelude.{◌≡◌, ◌+◌, ◌++◌, ◌∷◌, ◌↔◌, [], ℕ, List, Bool, IsTrue, IfOk, IfErr, IsErrOf, OnOk, OnErr};
ghost use Rattle.esx_types.specs.declared.config.Config.{Config};
ghost use Rattle.esx_model.specs.Console.{Session, next_reply, lined};
ghost use Rattle.esx_console.specs.Calls.{opened_session};
ghost use Rattle.esx_replies.specs.Replies.{reply_text};
ghost use Rattle.esx_session.specs.declared.session.Entry.{Entry};
ghost use Rattle.esx_session.specs.Sessions.{Reads, HasOpening, IsRefused};
ghost use Rattle.esx_session.specs.Reading.{Follows, IsNextLine};
ghost use Rattle.esx_check.specs.Gates.{turn_of, GoesToInText, GoesToBadLine, PassedFor, PassedForSome};
ghost use Rattle.esx_paths.specs.Pasts.{IsPastOf};
ghost use Rattle.esx_paths.specs.Texts.{GoesThrough, calls_gone};

use crate::past::Past;
use esx_check::has_text;
use esx_door::Gate;
use esx_reading::TextFault;
use esx_session::{Calls, Entry, open_calls};
use esx_writing::AnswerBuffer;
use std::alloc::{AllocError, Global};

/// What going through a text comes to.
#[derive(Drop)]
pub enum Gone {
    /// Each call has its reply, and this is kept of the session.
    Through { past: Past },
    /// The first call, from 1 on, that has another reply.
    Differs { call: u64 },
}

/// Reads the calls that are left, up to the end of the text. At a fault the reader stands behind each that was read.
fn read_on(alloc: Global, calls: &mut Calls) -> Result<(), TextFault>
    ensures ok { (text : List ℕ) (site : Config) (done : List Entry) → Follows text site done calls.old
        → OnOk result ((later : List Entry) × Reads text site (done ++ later)) }
    ensures only { (text : List ℕ) (site : Config) (done : List Entry) → Follows text site done calls.old → IfErr result (λ e. IsRefused e text) }
    ensures err { (text : List ℕ) (site : Config) (done : List Entry) → Follows text site done calls.old
        → OnErr result ((later : List Entry) × Follows text site (done ++ later) calls.new) }
    ensures near { (line : ℕ) → IsErrOf result (TextFault.BadLine line) → IsNextLine line calls.new.at }
{
    while let Some(later) = calls.next(alloc)? {
        calls.give_back(later.reply);
        drop(later.call);
    }
    Ok(())
}

/// Passes the gate with the number of a call, makes the call again, and tells whether its reply is the one that stands
/// with it.
fn has_same_reply<G: Gate>(
    past: &mut Past,
    held: &mut AnswerBuffer,
    gate: &mut G,
    entry: &Entry,
) -> Result<bool, AllocError>
    requires { held.old ≡ [] }
    ensures made { OnOk result ((s : Session) → IsPastOf past.old s → IsPastOf past.new (lined s entry.now.caller entry.now.call)) }
    ensures same { IfOk result (λ same. (s : Session) → IsPastOf past.old s → IsTrue same ↔ (reply_text (next_reply s entry.now.call) ≡ entry.now.reply)) }
    ensures count { OnOk result (past.new.calls ≡ past.old.calls + 1) }
    ensures empty { IfOk result (λ same. IsTrue same → held.new ≡ []) }
    ensures gate { (answer : Bool) × G.passes gate.old (turn_of (past.old.calls + 1)) answer gate.new }
{
    gate.pass_through(past.count().saturating_add(1));
    let reply = past.call(entry.caller, &entry.call)?;
    Ok(has_text(held, &reply, entry.reply.as_slice()))
}

/// Makes the calls of a text again as they are read, from the first on.
fn go_through<G: Gate>(
    alloc: Global,
    mut past: Past,
    mut held: AnswerBuffer,
    mut calls: Calls,
    gate: &mut G,
) -> Result<Gone, TextFault>
    requires none { past.calls ≡ 0 }
    requires empty { held ≡ [] }
    ensures ok { (text : List ℕ) (site : Config) → Follows text site [] calls.entry → IsPastOf past (opened_session site) → IfOk result (GoesThrough text) }
    ensures only { (text : List ℕ) (site : Config) → Follows text site [] calls.entry → IsPastOf past (opened_session site) → IfErr result (λ e. IsRefused e text) }
    ensures gate { IfOk result (λ gone. PassedFor G.passes (calls_gone gone) gate.old gate.new) }
    ensures some { (text : List ℕ) (site : Config) → Follows text site [] calls.entry → IsPastOf past (opened_session site)
        → OnErr result (PassedForSome G.passes (GoesToInText text) gate.old gate.new) }
    ensures bad { (text : List ℕ) (site : Config) (line : ℕ) → Follows text site [] calls.entry → IsPastOf past (opened_session site)
        → IsErrOf result (TextFault.BadLine line) → PassedForSome G.passes (GoesToBadLine text line) gate.old gate.new }
{
    while let Some(entry) = calls.next(alloc)? {
        let Ok(same) = has_same_reply(&mut past, &mut held, gate, &entry) else {
            return Err(TextFault::OutOfMemory);
        };
        calls.give_back(entry.reply);
        drop(entry.call);
        if !same {
            let call = u64::from(past.count());
            drop(past);
            read_on(alloc, &mut calls)?;
            return Ok(Gone::Differs { call });
        }
    }
    Ok(Gone::Through { past })
}

/// Reads the session of a text, makes its calls again as they are read, and compares their replies, up to the first that
/// differs. From there on the text is only read: a bad line behind a difference is the fault all the same. Before each call
/// that is made the gate is passed, with the number of the call as its turn, whatever it answers.
///
/// Beside the text, the tables of the site and what undoes its events there are 12 bytes for each node and a row for each call
/// that was refused, one entry at a time, and one reply that is read in place of the last. `OutOfMemory` comes as well where
/// there are more than 2^32 - 1 calls.
pub fn past_of_text<G: Gate>(alloc: Global, text: &str, gate: &mut G) -> Result<Gone, TextFault>
    ensures ok { IfOk result (GoesThrough text.now) }
    ensures only { IfErr result (λ e. IsRefused e text.now) }
    ensures memory { IsErrOf result TextFault.OutOfMemory → HasOpening text.now }
    ensures gate { IfOk result (λ gone. PassedFor G.passes (calls_gone gone) gate.old gate.new) }
    ensures some { OnErr result (PassedForSome G.passes (GoesToInText text.now) gate.old gate.new) }
    ensures bad { (line : ℕ) → IsErrOf result (TextFault.BadLine line) → PassedForSome G.passes (GoesToBadLine text.now line) gate.old gate.new }
{
    let (site, calls) = open_calls(text)?;
    let Ok(held) = AnswerBuffer::new(alloc) else {
        return Err(TextFault::OutOfMemory);
    };
    let Ok(past) = Past::open(alloc, site) else {
        return Err(TextFault::OutOfMemory);
    };
    go_through(alloc, past, held, calls, gate)
}
