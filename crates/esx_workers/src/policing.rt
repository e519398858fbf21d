//! The worker that sets targets and opens sample periods.

ghost use Rattle.std.specs.Prelude.{◌≡◌, true, IfOk, OnOk, OnErr};
ghost use Rattle.esx_workers.specs.Passed.{takes_room};
ghost use Rattle.esx_workers.specs.Policing.{new_period, policy_asks, policy_asked};
ghost use Rattle.esx_workers.specs.Draws.{after_words};

use crate::draws::draw_words;
use crate::machine::Machine;
use esx_events::{Boxed, Call, Event};
use esx_types::{Rows, VmId};
use rand_pcg::Pcg64;
use std::alloc::{AllocError, Global};

/// Rebalances, then opens a sample period for each machine in order, over and over.
///
/// `sample` is how many words are drawn for a period, `length` how many accesses it takes. `next` is the place of
/// the machine that is sampled next; past the last one comes a rebalance.
#[derive(Debug, Drop)]
pub struct PolicyWorker<'a> {
    pub machines: &'a [Machine],
    pub sample: u32,
    pub length: u32,
    pub next: usize,
    pub rng: Pcg64,
}

impl<'a> PolicyWorker<'a> {
    /// The next call.
    pub fn ask(&mut self, alloc: Global) -> Result<Call, AllocError>
        ensures call { IfOk result (λ call. call ≡ policy_asks self.old) }
        ensures asked { OnOk result (self.new ≡ policy_asked self.old) }
        ensures late { OnErr result (takes_room (policy_asks self.old) ≡ true) }
    {
        match self.machines.get(self.next) {
            Some(machine) => {
                let vm = machine.vm;
                self.next += 1;
                self.sample_of(alloc, vm)
            }
            None => {
                self.next = 0;
                Ok(Call::Do {
                    event: Event::Rebalance,
                })
            }
        }
    }

    // A new period for a machine, with words that are drawn.
    fn sample_of(&mut self, alloc: Global, vm: VmId) -> Result<Call, AllocError>
        ensures call { IfOk result (λ call. call ≡ new_period self.old vm) }
        ensures asked { OnOk result (self.new ≡ record self.old { rng = after_words self.old.sample self.old.rng }) }
    {
        let words = draw_words(alloc, &mut self.rng, self.sample)?;
        Ok(Call::Do {
            event: Event::Sample {
                vm,
                length: self.length,
                words: Boxed::new(alloc, Rows::from_vec(words))?,
            },
        })
    }
}
