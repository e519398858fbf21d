//! The parts of an account.

ghost use Rattle.std.specs.Prelude.{◌≡◌, ◌≤◌, ◌<◌, List, length, IfOk};
ghost use Rattle.esx_types.specs.declared.config.Config.{Config};
ghost use Rattle.esx_types.specs.Ranges.{IsConfig};
ghost use Rattle.esx_story.specs.Moments.{Moment};
ghost use Rattle.esx_story.specs.Waits as story;
ghost use Rattle.esx_sums.specs.Accounts.{IsSums};
ghost use Rattle.esx_sums.specs.Kept.{sums_of};
ghost use Rattle.esx_account.specs.Account.{opened_of, path_counts, refusals_of, losses_by_level};

use esx_formulas::level::{margin, threshold};
use esx_paths::Path;
use esx_report::{LossesByLevel, Opened, PathSums};
use esx_story::Loss;
use esx_sums::Sums;
use esx_sums::losses::level_losses;
use esx_types::{Config, Level};
use std::alloc::{AllocError, Global};

/// How many numbers refusals have, from 0 on.
const REASONS: u8 = 28;

/// A site as it was opened, with the thresholds of its levels in frames.
pub(crate) fn opened_of(site: &Config) -> Opened
    requires { IsConfig site.now }
    ensures { result ≡ opened_of site.now }
{
    Opened {
        frames: site.frames,
        page: site.page,
        slots: site.slots,
        high: threshold(site.frames, site.high, 4),
        soft: threshold(site.frames, site.soft, 3),
        hard: threshold(site.frames, site.hard, 2),
        low: threshold(site.frames, site.low, 1),
        margin: margin(site),
    }
}

/// The counts of a path with so many events.
pub(crate) fn path_counts(events: u32, path: &Path) -> PathSums
    requires nodes { path.now.nodes ≤ 4294967295 }
    requires mets { length path.now.mets ≤ 4294967295 }
    requires elsewhere { path.now.elsewhere ≤ 4294967295 }
    ensures { result ≡ path_counts events path.now }
{
    PathSums {
        events,
        made: path.nodes as u32,
        node: path.node,
        calls: path.calls,
        refused: path.mets.len() as u32,
        elsewhere: path.elsewhere as u32,
    }
}

/// How many calls were refused for each reason, by its number.
pub(crate) fn refusals_of(alloc: Global, sums: &Sums) -> Result<Vec<u32>, AllocError>
    ensures { IfOk result (λ counts. (c : Config) (ms : List Moment) (mets : List story.Met) → IsSums c ms mets (sums_of sums.now) → counts.items ≡ refusals_of mets) }
{
    let mut counts = Vec::with_capacity(alloc, usize::from(REASONS))?;
    for number in 0..REASONS {
        counts.push(sums.refused(number))?;
    }
    Ok(counts)
}

/// How many losses came in each way, at each level.
pub(crate) fn losses_by_level(losses: &[Loss]) -> LossesByLevel
    requires { length losses.now < 4294967296 }
    ensures { result ≡ losses_by_level losses.now }
{
    LossesByLevel {
        high: level_losses(losses, Level::High),
        soft: level_losses(losses, Level::Soft),
        hard: level_losses(losses, Level::Hard),
        low: level_losses(losses, Level::Low),
    }
}
