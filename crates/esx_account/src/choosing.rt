//! Some of the losses of a path.

ghost use Rattle.std.specs.Prelude.{◌≡◌, List, filter, IfOk};
ghost use Rattle.esx_session.specs.declared.session.Request.{Request};
ghost use Rattle.esx_report.specs.Losses.{AreGoodLines};
ghost use Rattle.esx_account.specs.Lines.{AreAsked};
ghost use Rattle.esx_account.specs.Choosing.{is_page, is_asked};

use esx_report::LossLine;
use std::alloc::{AllocError, Global};

/// Is it the page that is named, if one is?
fn is_page(named: Option<u32>, page: u32) -> bool
    ensures { result ≡ is_page named page }
{
    match named {
        Some(named) => page == named,
        None => true,
    }
}

/// Is it a loss of this machine, and of this page if one is named?
fn is_asked(line: &LossLine, vm: u32, page: Option<u32>) -> bool
    ensures { result ≡ is_asked vm page line.now }
{
    let change = line.loss.change;
    u32::from(change.vm.number()) == vm && is_page(page, change.page)
}

/// The losses of a machine, of all its pages or of the one that is named, in their order.
pub fn chosen(
    alloc: Global,
    lines: &[LossLine],
    vm: u32,
    page: Option<u32>,
) -> Result<Vec<LossLine>, AllocError>
    ensures chosen { IfOk result (λ chosen. chosen.items ≡ filter (is_asked vm page) lines.now) }
    ensures good { AreGoodLines lines.now → IfOk result (λ chosen. AreGoodLines chosen.items) }
    ensures asked { (requests : List Request) → AreAsked requests lines.now → IfOk result (λ chosen. AreAsked requests chosen.items) }
{
    let mut chosen = Vec::new(alloc);
    for line in lines {
        if is_asked(line, vm, page) {
            chosen.push(*line)?;
        }
    }
    Ok(chosen)
}
