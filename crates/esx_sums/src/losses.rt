//! What losses come to: by level, and of a life.

ghost use Rattle.std.specs.Prelude.{◌≡◌, ◌+◌, ◌<◌, ◌≤◌, ℕ, length};
ghost use Rattle.esx_sums.specs.Losses.{level_losses, with_loss, is_in_life, is_near, waits_in, came_back, with_return, AreFewLosses, AreFewReturns};

use crate::level::is_level;
use crate::tally::one_if;
use esx_story::{How, Loss};
use esx_types::{Level, VmId};

/// How many losses of a level came in each way.
#[derive(Clone, Copy, Debug, PartialEq, Eq)]
pub struct LevelLosses {
    pub level: Level,
    pub balloon: u32,
    pub swap: u32,
    pub replace: u32,
    pub drop: u32,
}

/// How many losses of a life were back, how many of them within 1000 events, and how many accesses of lost pages were
/// refused.
#[derive(Clone, Copy, Debug, PartialEq, Eq)]
pub struct Returns {
    pub back: u32,
    pub soon: u32,
    pub waits: u64,
}

fn with_loss(sums: LevelLosses, loss: &Loss) -> LevelLosses
    requires { AreFewLosses 4294967294 sums }
    ensures { result ≡ with_loss sums loss.now }
{
    let here = is_level(sums.level, loss.seen.level);
    let how = loss.change.how;
    LevelLosses {
        level: sums.level,
        balloon: sums.balloon + one_if(here && matches!(how, How::Balloon)),
        swap: sums.swap + one_if(here && matches!(how, How::Swap)),
        replace: sums.replace + one_if(here && matches!(how, How::Replaced)),
        drop: sums.drop + one_if(here && matches!(how, How::Dropped)),
    }
}

/// How many losses came in each way while a level stood.
///
/// condition: there are fewer than 2^32
pub fn level_losses(losses: &[Loss], level: Level) -> LevelLosses
    requires { length losses.now < 4294967296 }
    ensures { result ≡ level_losses level losses.now }
{
    let mut sums = LevelLosses {
        level,
        balloon: 0,
        swap: 0,
        replace: 0,
        drop: 0,
    };
    for (_at, loss) in losses.iter().enumerate() {
        sums = with_loss(sums, loss);
    }
    sums
}

/// Is the loss of this life?
fn is_in_life(loss: &Loss, vm: VmId, life: u32) -> bool
    ensures { result ≡ is_in_life vm life loss.now }
{
    loss.change.vm == vm && loss.life == life
}

/// Was the page back within 1000 events?
fn is_near(loss: &Loss) -> bool
    ensures { result ≡ is_near loss.now.at loss.now.back }
{
    match loss.back {
        Some(at) => at.saturating_sub(loss.at) <= 1000,
        None => false,
    }
}

/// How many accesses waited for the page, if the loss is of this life.
fn waits_in(loss: &Loss, vm: VmId, life: u32) -> u32
    ensures value { result ≡ waits_in vm life loss.now }
    ensures small { result ≤ 4294967295 }
{
    let waits = loss.waits;
    if is_in_life(loss, vm, life) { waits } else { 0 }
}

fn with_return(sums: Returns, loss: &Loss, vm: VmId, life: u32) -> Returns
    requires { AreFewReturns 4294967294 sums }
    ensures value { result ≡ with_return vm life sums loss.now }
    ensures few { (k : ℕ) → AreFewReturns k sums → AreFewReturns (k + 1) result }
{
    let own = is_in_life(loss, vm, life);
    Returns {
        back: sums.back + one_if(own && loss.back.is_some()),
        soon: sums.soon + one_if(own && is_near(loss)),
        waits: sums.waits + waits_in(loss, vm, life) as u64,
    }
}

/// How many losses of a life were back, how many of them within 1000 events, and how many accesses of lost pages were
/// refused. It looks at each loss.
///
/// condition: there are fewer than 2^32
pub fn came_back(losses: &[Loss], vm: VmId, life: u32) -> Returns
    requires { length losses.now < 4294967296 }
    ensures { result ≡ came_back vm life losses.now }
{
    let mut sums = Returns {
        back: 0,
        soon: 0,
        waits: 0,
    };
    for (_at, loss) in losses.iter().enumerate() {
        sums = with_return(sums, loss, vm, life);
    }
    sums
}
