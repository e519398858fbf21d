//! Names of levels and states.

ghost use Rattle.std.specs.Prelude.{◌≡◌};
ghost use Rattle.esx_replies.specs.Texts.{level_text, state_text, running_text};

use esx_types::{Level, VmState};

pub fn level_name(level: Level) -> &'static str
    ensures { result.now ≡ level_text level }
{
    match level {
        Level::High => "high",
        Level::Soft => "soft",
        Level::Hard => "hard",
        Level::Low => "low",
    }
}

pub fn state_name(state: VmState) -> &'static str
    ensures { result.now ≡ state_text state }
{
    match state {
        VmState::Starting => "starting",
        VmState::Running => "running",
        VmState::Stopping => "stopping",
    }
}

pub fn running_name(running: bool) -> &'static str
    ensures { result.now ≡ running_text running }
{
    if running { "running" } else { "starting" }
}
