//! A value that only keeps a log.

ghost use Rattle.std.specs.Prelude.{◌≡◌, ◌++◌, ◌∷◌, [], OnOk, OnErr};
ghost use Rattle.lock_tests.specs.Tally.{line_of};

use esx_events::{Call, Line, Refusal, Reply, Said};
use esx_lock::Gauged;
use esx_types::{Config, Level};
use std::alloc::{AllocError, Global};

/// Lines that callers number as they like. At a site with no frames none is ever free and the level is `High`;
/// at any other each line uses one frame up, and the level is `Soft`.
#[derive(Drop)]
pub struct Tally {
    pub site: Config,
    pub log: Vec<Line>,
}

impl Gauged for Tally {
    ghost use Rattle.lock_tests.specs.Tally.{anything, tally_gauge};

    ghost site = { λ t. t.site };

    ghost lines = { λ t. t.log.items };

    ghost legal = { anything };

    ghost gauge_of = { tally_gauge };

    fn gauge(&self) -> (u32, Level) {
        if self.site.frames == 0 {
            return (0, Level::High);
        }
        let left = u64::from(self.site.frames).saturating_sub(self.log.len() as u64);
        (left as u32, Level::Soft)
    }

    ghost is_legal = { λ t. tt };

    ghost begins_legal = { λ s log later l. tt };
}

impl Tally {
    pub fn new(alloc: Global, site: Config) -> Tally
        ensures { (result.site ≡ site) × (result.log.items ≡ []) }
    {
        Tally {
            site,
            log: Vec::new(alloc),
        }
    }

    pub fn add(&mut self, caller: u16, number: u64) -> Result<(), AllocError>
        ensures site { self.new.site ≡ self.old.site }
        ensures ok { OnOk result (self.new.log.items ≡ self.old.log.items ++ line_of caller number ∷ []) }
        ensures err { OnErr result (self.new.log.items ≡ self.old.log.items) }
    {
        self.log.reserve(1)?;
        self.log.push_reserved(Line {
            caller,
            call: Call::Stand,
            reply: Reply {
                jumps: number,
                said: Said::Refused {
                    refusal: Refusal::Full,
                },
            },
        });
        Ok(())
    }
}
