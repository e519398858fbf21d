//! What a scenario says.

ghost use Rattle.std.specs.Prelude.{◌≡◌};
ghost use Rattle.esx_types.specs.Ranges.{IsConfig};
ghost use Rattle.esx_scenario.specs.Plans.{Plan, IsPlan};

use esx_types::{Config, Rows, SmallBytes, VmId, VmSpec};
use std::marker::Model;

/// The most turns of a worker.
pub const MAX_TURNS: u32 = 1000000;

/// What the workers of a run are told.
///
/// `seed`, below 2^63, is what their random words begin with; `turns` is the most turns of each, 1 to `MAX_TURNS`;
/// `sample` is how many words the policy worker draws for a sample, 1 to `MAX_SAMPLE`; `length` is the length of
/// its sample periods, 1 to `MAX_LENGTH`.
#[derive(Clone, Copy, Debug, PartialEq, Eq)]
pub struct Settings {
    pub seed: u64,
    pub turns: u32,
    pub sample: u32,
    pub length: u32,
}

/// What a virtual machine does in one turn.
#[derive(Debug, Drop)]
pub enum TraceLine {
    /// Reads `len` bytes of a page from byte `at` on.
    Read {
        page: u32,
        at: u32,
        len: u32,
    },
    /// Writes bytes into a page from byte `at` on.
    Write {
        page: u32,
        at: u32,
        bytes: SmallBytes,
    },
    Ask,
    Lend {
        page: u32,
    },
    TakeBack {
        page: u32,
    },
}

/// A virtual machine of a scenario: its number, what it asks for, and what it does.
#[derive(Debug, Drop)]
pub struct Guest {
    pub vm: VmId,
    pub spec: VmSpec,
    pub trace: Rows<TraceLine>,
}

/// A scenario whose numbers are in their ranges: the site and the settings; up to `VM_NUMBERS` virtual machines,
/// in the order of the text, with numbers of their own and good wishes; traces of up to `MOST_LINES` lines, each
/// within its machine's pages and within the site's page size.
#[derive(Debug, Drop)]
pub struct Scenario {
    config: Config,
    settings: Settings,
    guests: Rows<Guest>,
}

impl Model for Scenario {
    ghost use Rattle.esx_scenario.specs.Plans.{Plan, IsPlan};

    ghost Value = { Plan };

    ghost view = { λ s. record { site = s.config; settings = s.settings; guests = s.guests } };

    ghost invariant = { λ s. IsPlan (record { site = s.config; settings = s.settings; guests = s.guests }) };
}

impl Scenario {
    pub fn new(config: Config, settings: Settings, guests: Rows<Guest>) -> Scenario
        requires { IsPlan (record { site = config; settings = settings; guests = guests }) }
        ensures { result ≡ record { site = config; settings = settings; guests = guests } }
    {
        Scenario {
            config,
            settings,
            guests,
        }
    }

    /// The site.
    pub fn config(&self) -> Config
        ensures same { result ≡ self.now.site }
        ensures good { IsConfig result }
    {
        self.config
    }

    /// What the workers are told.
    pub fn settings(&self) -> Settings
        ensures { result ≡ self.now.settings }
    {
        self.settings
    }

    /// The virtual machines, in the order of the text.
    pub fn guests(&self) -> &[Guest]
        ensures same { result.now ≡ self.now.guests }
        ensures good { IsPlan self.now }
    {
        self.guests.as_slice()
    }
}
