//! Any worker.

ghost use Rattle.std.specs.Prelude.{◌≡◌, true, IfOk, OnOk, OnErr};
ghost use Rattle.esx_workers.specs.Passed.{may_want};
ghost use Rattle.esx_workers.specs.Workers.{asks, asked, hears, rest};

use crate::end::How;
use crate::policing::PolicyWorker;
use crate::sharing::SharerWorker;
use crate::swapping::SwapperWorker;
use crate::visiting::GuestWorker;
use esx_events::{Call, Reply};
use std::alloc::{AllocError, Global};

/// A worker, as far as it has come.
#[derive(Debug, Drop)]
pub enum Worker<'a> {
    Guest(GuestWorker<'a>),
    Sharer(SharerWorker<'a>),
    Swapper(SwapperWorker<'a>),
    Policy(PolicyWorker<'a>),
}

impl<'a> Worker<'a> {
    /// The next call, if there is one.
    pub fn ask(&mut self, alloc: Global) -> Result<Option<Call>, AllocError>
        ensures call { IfOk result (λ call. call ≡ asks self.old) }
        ensures asked { OnOk result (self.new ≡ asked self.old) }
        ensures late { OnErr result (may_want (asks self.old) ≡ true) }
    {
        match self {
            Worker::Guest(guest) => guest.ask(alloc),
            Worker::Sharer(sharer) => Ok(sharer.ask()),
            Worker::Swapper(swapper) => Ok(swapper.ask()),
            Worker::Policy(policy) => Ok(Some(policy.ask(alloc)?)),
        }
    }

    /// Hears the reply to its call.
    pub fn hear(&mut self, reply: &Reply)
        ensures { self.new ≡ hears self.old reply.now }
    {
        if let Worker::Guest(guest) = self {
            guest.hear(reply);
        }
    }

    /// How it ends where it makes no more calls.
    pub fn rest(&self) -> How
        ensures { result ≡ rest self.now }
    {
        match self {
            Worker::Guest(guest) => guest.rest(),
            _ => How::Turns,
        }
    }
}
