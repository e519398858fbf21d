//! What is asked about a path, answered with all memory that the answer wants.

ghost use Rattle.std.specs.Prelude.{◌≡◌, List, IfOk, IfErr, OnOk};
ghost use Rattle.esx_types.specs.declared.config.Config.{Config};
ghost use Rattle.esx_session.specs.declared.session.Entry.{Entry};
ghost use Rattle.esx_account.specs.Account.{IsAccountOf};
ghost use Rattle.esx_account.specs.Surveying.{IsPathOf};
ghost use Rattle.esx_account.specs.Texts.{IsPathIn};
ghost use Rattle.esx_report.specs.Losses.{AreGoodLines};
ghost use Rattle.esx_reports.specs.declared.question.What.TheVariants as whats;
ghost use Rattle.esx_reports.specs.Answers.{AreMeant, LacksPage, IsAnswerTo, HasNoAnswer, IsGood};

use crate::answer::Answer;
use crate::fault::ReportFault;
use crate::question::{Table, What};
use crate::reasons::whys_of;
use esx_account::{Account, account_of, changes_of, chosen, most_pages, steps_of};
use esx_events::Refusal;
use esx_paths::Path;
use std::alloc::Global;

/// Whether a guest, and a page of it if one is named, can be meant.
fn meant(account: &Account, path: &Path, vm: u32, page: Option<u32>) -> Result<(), Refusal>
    requires { (site : Config) × (entries : List Entry) × IsAccountOf site entries path.now account.now × IsPathOf site entries account.now.script.requests path.now }
    ensures ok { (site : Config) (entries : List Entry) → IsAccountOf site entries path.now account.now → IsPathOf site entries account.now.script.requests path.now
        → OnOk result (AreMeant site entries path.now vm page) }
    ensures none { (site : Config) (entries : List Entry) → IsAccountOf site entries path.now account.now → IsPathOf site entries account.now.script.requests path.now
        → IfErr result (LacksPage site entries path.now vm page) }
{
    let Some(most) = most_pages(&account.script, path, vm) else {
        return Err(Refusal::NoVm);
    };
    match page {
        Some(page) if page >= most => Err(Refusal::OutOfRange),
        _ => Ok(()),
    }
}

/// Why a guest lost its pages, or the one that is named.
fn why_asked(
    alloc: Global,
    account: &Account,
    path: &Path,
    vm: u32,
    page: Option<u32>,
) -> Result<Answer, ReportFault>
    requires { (site : Config) × (entries : List Entry) × IsAccountOf site entries path.now account.now × IsPathOf site entries account.now.script.requests path.now }
    ensures answer { (site : Config) (entries : List Entry) → IsAccountOf site entries path.now account.now → IsPathOf site entries account.now.script.requests path.now
        → IfOk result (IsAnswerTo (whats.Why vm page) site entries path.now) }
    ensures none { (site : Config) (entries : List Entry) → IsAccountOf site entries path.now account.now → IsPathOf site entries account.now.script.requests path.now
        → IfErr result (HasNoAnswer (whats.Why vm page) site entries path.now) }
    ensures good { IfOk result IsGood }
{
    if let Err(refusal) = meant(account, path, vm, page) {
        return Err(ReportFault::Refused(refusal));
    }
    let lines = chosen(alloc, account.losses.as_slice(), vm, page)?;
    let whys = whys_of(alloc, &account.opened, &account.script, lines.as_slice())?;
    Ok(Answer::Why { whys })
}

/// All tables of the path.
fn report_asked(alloc: Global, text: &str, path: &Path) -> Result<Answer, ReportFault>
    requires { (site : Config) × (entries : List Entry) × IsPathIn text.now site entries path.now }
    ensures answer { (site : Config) (entries : List Entry) → IsPathIn text.now site entries path.now → IfOk result (IsAnswerTo whats.Report site entries path.now) }
    ensures none { (site : Config) (entries : List Entry) → IsPathIn text.now site entries path.now → IfErr result (HasNoAnswer whats.Report site entries path.now) }
    ensures good { IfOk result IsGood }
{
    let account = account_of(alloc, text, path)?;
    Ok(Answer::Report { account })
}

/// One table of the path.
fn table_asked(alloc: Global, text: &str, path: &Path, table: Table) -> Result<Answer, ReportFault>
    requires { (site : Config) × (entries : List Entry) × IsPathIn text.now site entries path.now }
    ensures answer { (site : Config) (entries : List Entry) → IsPathIn text.now site entries path.now → IfOk result (IsAnswerTo (whats.Table table) site entries path.now) }
    ensures none { (site : Config) (entries : List Entry) → IsPathIn text.now site entries path.now → IfErr result (HasNoAnswer (whats.Table table) site entries path.now) }
    ensures good { IfOk result IsGood }
{
    let account = account_of(alloc, text, path)?;
    Ok(Answer::Table { account, table })
}

/// Why a guest lost its pages on the path, or the one that is named.
fn guest_asked(
    alloc: Global,
    text: &str,
    path: &Path,
    vm: u32,
    page: Option<u32>,
) -> Result<Answer, ReportFault>
    requires { (site : Config) × (entries : List Entry) × IsPathIn text.now site entries path.now }
    ensures answer { (site : Config) (entries : List Entry) → IsPathIn text.now site entries path.now → IfOk result (IsAnswerTo (whats.Why vm page) site entries path.now) }
    ensures none { (site : Config) (entries : List Entry) → IsPathIn text.now site entries path.now → IfErr result (HasNoAnswer (whats.Why vm page) site entries path.now) }
    ensures good { IfOk result IsGood }
{
    let account = account_of(alloc, text, path)?;
    why_asked(alloc, &account, path, vm, page)
}

/// The changes of place on the path.
fn changes_asked(alloc: Global, text: &str, path: &Path) -> Result<Answer, ReportFault>
    requires { (site : Config) × (entries : List Entry) × IsPathIn text.now site entries path.now }
    ensures answer { (site : Config) (entries : List Entry) → IsPathIn text.now site entries path.now → IfOk result (IsAnswerTo whats.Changes site entries path.now) }
    ensures none { (site : Config) (entries : List Entry) → IsPathIn text.now site entries path.now → IfErr result (HasNoAnswer whats.Changes site entries path.now) }
    ensures good { IfOk result IsGood }
{
    let lines = changes_of(alloc, text, path)?;
    Ok(Answer::Changes { lines })
}

/// The steps of the path.
fn steps_asked(alloc: Global, text: &str, path: &Path) -> Result<Answer, ReportFault>
    requires { (site : Config) × (entries : List Entry) × IsPathIn text.now site entries path.now }
    ensures answer { (site : Config) (entries : List Entry) → IsPathIn text.now site entries path.now → IfOk result (IsAnswerTo whats.Steps site entries path.now) }
    ensures none { (site : Config) (entries : List Entry) → IsPathIn text.now site entries path.now → IfErr result (HasNoAnswer whats.Steps site entries path.now) }
    ensures good { IfOk result IsGood }
{
    let rows = steps_of(alloc, text, path)?;
    Ok(Answer::Steps { rows })
}

/// What is asked about the path to a node of the session of a text.
pub(crate) fn answer_to(
    alloc: Global,
    text: &str,
    path: &Path,
    what: What,
) -> Result<Answer, ReportFault>
    requires { (site : Config) × (entries : List Entry) × IsPathIn text.now site entries path.now }
    ensures answer { (site : Config) (entries : List Entry) → IsPathIn text.now site entries path.now → IfOk result (IsAnswerTo what site entries path.now) }
    ensures none { (site : Config) (entries : List Entry) → IsPathIn text.now site entries path.now → IfErr result (HasNoAnswer what site entries path.now) }
    ensures good { IfOk result IsGood }
{
    match what {
        What::Report => report_asked(alloc, text, path),
        What::Table { table } => table_asked(alloc, text, path, table),
        What::Why { vm, page } => guest_asked(alloc, text, path, vm, page),
        What::Changes => changes_asked(alloc, text, path),
        What::Steps => steps_asked(alloc, text, path),
    }
}
