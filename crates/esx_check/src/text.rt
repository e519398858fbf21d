//! The text of a session, read and checked in one pass.

ghost use Rattle.std.specs.Prelude.{◌≡◌, ◌++◌, [], ℕ, List, IfOk, IfErr, IsErrOf, OnOk, OnErr};
ghost use Rattle.esx_types.specs.declared.config.Config.{Config};
ghost use Rattle.esx_console.specs.Calls.{opened_session};
ghost use Rattle.esx_console.specs.Unlogged.{AnswersAs};
ghost use Rattle.esx_session.specs.declared.session.Entry.{Entry};
ghost use Rattle.esx_session.specs.Sessions.{Reads, HasOpening, IsRefused};
ghost use Rattle.esx_session.specs.Reading.{Follows, IsNextLine, NextTakesMemory};
ghost use Rattle.esx_check.specs.Checks.{ChecksText};
ghost use Rattle.esx_check.specs.Differences.{ComparesText, checked_of};
ghost use Rattle.esx_check.specs.Gates.{calls_made, GoesToInText, GoesToBadLine, PassedFor, PassedForSome};
ghost use Rattle.esx_check.specs.Wants.{RunsOutAsRead, RunsOutInText};

use crate::again::Again;
use crate::check::Checked;
use crate::difference::{Compared, Difference};
use esx_door::{Gate, Open};
use esx_reading::TextFault;
use esx_session::{Calls, open_calls};
use std::alloc::Global;

/// Reads the calls that are left, up to the end of the text. At a fault the reader stands behind each that was read.
fn read_on(alloc: Global, calls: &mut Calls) -> Result<(), TextFault>
    ensures ok { (text : List ℕ) (site : Config) (done : List Entry) → Follows text site done calls.old
        → OnOk result ((later : List Entry) × Reads text site (done ++ later)) }
    ensures only { (text : List ℕ) (site : Config) (done : List Entry) → Follows text site done calls.old → IfErr result (λ e. IsRefused e text) }
    ensures err { (text : List ℕ) (site : Config) (done : List Entry) → Follows text site done calls.old
        → OnErr result ((later : List Entry) × Follows text site (done ++ later) calls.new) }
    ensures near { (line : ℕ) → IsErrOf result (TextFault.BadLine line) → IsNextLine line calls.new.at }
    ensures wants { IsErrOf result TextFault.OutOfMemory → NextTakesMemory calls.new.version calls.new.at.left }
{
    while let Some(later) = calls.next(alloc)? {
        calls.give_back(later.reply);
        drop(later.call);
    }
    Ok(())
}

/// Makes the calls of a text again as they are read, from the first on, at a console that was opened at the site of
/// the text, and passes the gate before each, up to the first that has another reply than the one that stands with it.
/// The console is done with then, and left to the caller: to drop it takes as long as there is memory to give back.
///
/// Where reading ends early the gate was passed for calls that stand in the text, and each but the last of them has
/// its reply; at a bad line, and where memory is wanting to read on, for those that a check of the calls before it
/// makes.
pub fn diff_as_read<G: Gate>(
    alloc: Global,
    again: &mut Again,
    mut calls: Calls,
    gate: &mut G,
) -> Result<Compared, TextFault>
    requires none { (calls.count ≡ 0) × (again.old.console.jumps ≡ 0) }
    requires empty { again.old.held ≡ [] }
    ensures ok { (text : List ℕ) (site : Config) → Follows text site [] calls.entry → AnswersAs again.old.console (opened_session site)
        → IfOk result (ComparesText text) }
    ensures only { (text : List ℕ) (site : Config) → Follows text site [] calls.entry → AnswersAs again.old.console (opened_session site)
        → IfErr result (λ e. IsRefused e text) }
    ensures gate { IfOk result (λ compared. PassedFor G.passes (calls_made (checked_of compared)) gate.old gate.new) }
    ensures some { (text : List ℕ) (site : Config) → Follows text site [] calls.entry → AnswersAs again.old.console (opened_session site)
        → OnErr result (PassedForSome G.passes (GoesToInText text) gate.old gate.new) }
    ensures bad { (text : List ℕ) (site : Config) (line : ℕ) → Follows text site [] calls.entry → AnswersAs again.old.console (opened_session site)
        → IsErrOf result (TextFault.BadLine line) → PassedForSome G.passes (GoesToBadLine text line) gate.old gate.new }
    ensures wants { (text : List ℕ) (site : Config) → Follows text site [] calls.entry → AnswersAs again.old.console (opened_session site)
        → IsErrOf result TextFault.OutOfMemory → PassedForSome G.passes (RunsOutAsRead text) gate.old gate.new }
{
    let mut count: u64 = 0;
    while let Some(entry) = calls.next(alloc)? {
        count += 1;
        let Ok(other) = again.other_reply(gate, count, &entry) else {
            return Err(TextFault::OutOfMemory);
        };
        if let Some(reply) = other {
            read_on(alloc, &mut calls)?;
            return Ok(Compared::Differs(Difference {
                number: count,
                entry,
                reply,
            }));
        }
        calls.give_back(entry.reply);
        drop(entry.call);
    }
    Ok(Compared::Same(count))
}

/// As `check_text_through`, and gives the call that has another reply, with the reply that stands there and the one that
/// it has.
pub fn diff_text_through<G: Gate>(
    alloc: Global,
    text: &str,
    gate: &mut G,
) -> Result<Compared, TextFault>
    ensures ok { IfOk result (ComparesText text.now) }
    ensures only { IfErr result (λ e. IsRefused e text.now) }
    ensures memory { IsErrOf result TextFault.OutOfMemory → HasOpening text.now }
    ensures gate { IfOk result (λ compared. PassedFor G.passes (calls_made (checked_of compared)) gate.old gate.new) }
    ensures some { OnErr result (PassedForSome G.passes (GoesToInText text.now) gate.old gate.new) }
    ensures bad { (line : ℕ) → IsErrOf result (TextFault.BadLine line) → PassedForSome G.passes (GoesToBadLine text.now line) gate.old gate.new }
    ensures wants { IsErrOf result TextFault.OutOfMemory → PassedForSome G.passes (RunsOutInText text.now) gate.old gate.new }
{
    let (site, calls) = open_calls(text)?;
    let Ok(mut again) = Again::open(alloc, site) else {
        return Err(TextFault::OutOfMemory);
    };
    diff_as_read(alloc, &mut again, calls, gate)
}

/// Reads the session of a text and makes its calls again as they are read, up to the first that has another reply
/// than the one that stands with it. From there on the text is only read: a bad line behind a difference is
/// the fault all the same.
///
/// Beside the text, the tables of the site and what undoes its events there is one entry at a time, and one reply is
/// read in place of the last; behind a difference there is that call too, with both replies. Memory is taken behind the
/// first two lines alone.
pub fn check_text(alloc: Global, text: &str) -> Result<Checked, TextFault>
    ensures ok { IfOk result (ChecksText text.now) }
    ensures only { IfErr result (λ e. IsRefused e text.now) }
    ensures memory { IsErrOf result TextFault.OutOfMemory → HasOpening text.now }
{
    check_text_through(alloc, text, &mut Open)
}

/// As `check_text`, and passes the gate before each call, with the number of the call as its turn (past
/// 2^32 - 1 with that number). What the check comes to is the same whatever the gate answers, where memory does not run out.
///
/// Where memory runs out, or a line is bad, the gate was passed for the first calls of the text, for none that does
/// not stand there, and for none behind the first that has another reply. Where a line is bad, these are all that a
/// check of the calls before the line makes, so a bad line is told behind them; a bad opening is told before any.
/// Memory runs out as the site is opened, before any call; at a call that takes memory, which is the last for which
/// the gate was passed; or as an entry is read, behind all that a check of the calls before it makes.
pub fn check_text_through<G: Gate>(
    alloc: Global,
    text: &str,
    gate: &mut G,
) -> Result<Checked, TextFault>
    ensures ok { IfOk result (ChecksText text.now) }
    ensures only { IfErr result (λ e. IsRefused e text.now) }
    ensures memory { IsErrOf result TextFault.OutOfMemory → HasOpening text.now }
    ensures gate { IfOk result (λ checked. PassedFor G.passes (calls_made checked) gate.old gate.new) }
    ensures some { OnErr result (PassedForSome G.passes (GoesToInText text.now) gate.old gate.new) }
    ensures bad { (line : ℕ) → IsErrOf result (TextFault.BadLine line) → PassedForSome G.passes (GoesToBadLine text.now line) gate.old gate.new }
    ensures wants { IsErrOf result TextFault.OutOfMemory → PassedForSome G.passes (RunsOutInText text.now) gate.old gate.new }
{
    match diff_text_through(alloc, text, gate) {
        Ok(compared) => Ok(compared.checked()),
        Err(fault) => Err(fault),
    }
}
