//! The worker that pages out.

ghost use Rattle.std.specs.Prelude.{◌≡◌};
ghost use Rattle.esx_workers.specs.Swapping.{swapper_asks, swapper_asked};

use crate::draws::{draw_machine, draw_word};
use crate::machine::Machine;
use esx_events::{Call, Event};
use rand_pcg::Pcg64;

/// Asks a machine to page out, over and over: machine and word are drawn.
#[derive(Debug, Drop)]
pub struct SwapperWorker<'a> {
    pub machines: &'a [Machine],
    pub rng: Pcg64,
}

impl<'a> SwapperWorker<'a> {
    /// The next call, if there is a machine.
    pub fn ask(&mut self) -> Option<Call>
        ensures call { result ≡ swapper_asks self.old }
        ensures asked { self.new ≡ swapper_asked self.old }
    {
        let machine = draw_machine(self.machines, &mut self.rng)?;
        let word = draw_word(&mut self.rng);
        Some(Call::Do {
            event: Event::SwapOut {
                vm: machine.vm,
                word,
            },
        })
    }
}
