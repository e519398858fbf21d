//! The worker that looks for pages of one content.

ghost use Rattle.std.specs.Prelude.{◌≡◌};
ghost use Rattle.esx_workers.specs.Sharing.{sharer_asks, sharer_asked};

use crate::draws::{draw, draw_machine};
use crate::machine::Machine;
use esx_events::{Call, Event};
use rand_pcg::Pcg64;

/// Scans a page of a machine, both drawn, over and over.
#[derive(Debug, Drop)]
pub struct SharerWorker<'a> {
    pub machines: &'a [Machine],
    pub rng: Pcg64,
}

impl<'a> SharerWorker<'a> {
    /// The next call, if there is a machine.
    pub fn ask(&mut self) -> Option<Call>
        ensures call { result ≡ sharer_asks self.old }
        ensures asked { self.new ≡ sharer_asked self.old }
    {
        let machine = draw_machine(self.machines, &mut self.rng)?;
        let page = draw(&mut self.rng, u64::from(machine.pages)) as u32;
        Some(Call::Do {
            event: Event::Scan {
                vm: machine.vm,
                page,
            },
        })
    }
}
