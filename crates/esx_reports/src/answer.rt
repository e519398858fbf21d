//! An answer for which all memory is taken, and its text.

ghost use Rattle.std.specs.Prelude.{◌≡◌, ◌+◌, ℕ, List};
ghost use Rattle.esx_writing.specs.Writing.{Puts, sink_faults};
ghost use Rattle.esx_report.specs.Losses.{AreGoodLines};
ghost use Rattle.esx_report.specs.Report.{report_text};
ghost use Rattle.esx_report.specs.SiteTable.{site_csv};
ghost use Rattle.esx_report.specs.declared.told.Told.{Told};
ghost use Rattle.esx_reports.specs.Answers.{IsGood, IsTextOf, IsToldOf};

use crate::question::Table;
use esx_account::Account;
use esx_report::{
    ChangeLine, StepRow, Why, put_changes, put_guests, put_losses, put_report, put_site, put_steps,
    put_whys,
};
use esx_types::{Sink, SinkFailed};
use esx_writing::AnswerBuffer;

/// An answer, with all that it tells.
#[derive(Drop)]
pub enum Answer {
    Report { account: Account },
    Table { account: Account, table: Table },
    Why { whys: Vec<Why> },
    Changes { lines: Vec<ChangeLine> },
    Steps { rows: Vec<StepRow> },
}

/// The whole report.
fn put_all_tables<W: Sink>(
    sink: &mut W,
    held: &mut AnswerBuffer,
    account: &Account,
) -> Result<(), SinkFailed>
    requires { AreGoodLines account.now.losses }
    ensures bytes { (told : Told) × IsToldOf account.now told × Puts (W.contents sink.old) held.old (W.contents sink.new) held.new (report_text told) result }
    ensures failures { W.failures sink.new ≡ W.failures sink.old + sink_faults result }
    ensures flushes { W.flushes sink.new ≡ W.flushes sink.old }
{
    let told = account.told();
    put_report(sink, held, &told)
}

/// The table of the site.
fn put_site_table<W: Sink>(
    sink: &mut W,
    held: &mut AnswerBuffer,
    account: &Account,
) -> Result<(), SinkFailed>
    ensures bytes { (told : Told) × IsToldOf account.now told × Puts (W.contents sink.old) held.old (W.contents sink.new) held.new (site_csv told) result }
    ensures failures { W.failures sink.new ≡ W.failures sink.old + sink_faults result }
    ensures flushes { W.flushes sink.new ≡ W.flushes sink.old }
{
    let told = account.told();
    put_site(sink, held, &told)
}

/// One table of values.
fn put_table<W: Sink>(
    sink: &mut W,
    held: &mut AnswerBuffer,
    account: &Account,
    table: Table,
) -> Result<(), SinkFailed>
    requires { AreGoodLines account.now.losses }
    ensures bytes { (text : List ℕ) × IsTextOf (Answer.Table account.now table) text × Puts (W.contents sink.old) held.old (W.contents sink.new) held.new text result }
    ensures failures { W.failures sink.new ≡ W.failures sink.old + sink_faults result }
    ensures flushes { W.flushes sink.new ≡ W.flushes sink.old }
{
    match table {
        Table::Losses => put_losses(sink, held, account.losses.as_slice()),
        Table::Guests => put_guests(sink, held, account.guests.as_slice()),
        Table::Site => put_site_table(sink, held, account),
    }
}

/// The text of an answer.
pub(crate) fn put_answer<W: Sink>(
    sink: &mut W,
    held: &mut AnswerBuffer,
    answer: &Answer,
) -> Result<(), SinkFailed>
    requires { IsGood answer.now }
    ensures bytes { (text : List ℕ) × IsTextOf answer.now text × Puts (W.contents sink.old) held.old (W.contents sink.new) held.new text result }
    ensures failures { W.failures sink.new ≡ W.failures sink.old + sink_faults result }
    ensures flushes { W.flushes sink.new ≡ W.flushes sink.old }
{
    match answer {
        Answer::Report { account } => put_all_tables(sink, held, account),
        Answer::Table { account, table } => put_table(sink, held, account, *table),
        Answer::Why { whys } => put_whys(sink, held, whys.as_slice()),
        Answer::Changes { lines } => put_changes(sink, held, lines.as_slice()),
        Answer::Steps { rows } => put_steps(sink, held, rows.as_slice()),
    }
}
