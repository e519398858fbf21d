//! What is kept of a session as its calls are made again.

ghost use Rattle.std.specs.Prelude.{◌≡◌, ◌+◌, ℕ, List, IfOk, OnOk, OnErr};
ghost use Rattle.esx_types.specs.Ranges.{IsConfig};
ghost use Rattle.esx_model.specs.Console.{Session, next_reply, lined};
ghost use Rattle.esx_console.specs.Calls.{opened_session};
ghost use Rattle.esx_paths.specs.Pasts.{IsPastOf};

use crate::makers::{Maker, RefusedCall, is_done, note_maker, note_refused, refusal_in, take_room};
use esx_console::Unlogged;
use esx_events::{Call, Reply};
use esx_types::Config;
use std::alloc::{AllocError, Global};
use std::marker::Model;

/// What is kept of a session: its site and a console at which its calls were made, 12 bytes for each node, and a row for
/// each call that was refused. Nothing else grows with the calls.
///
/// It is seen as these, which are said of the session.
#[derive(Drop)]
pub struct Past {
    pub(crate) alloc: Global,
    pub(crate) site: Config,
    pub(crate) console: Unlogged,
    pub(crate) calls: u32,
    pub(crate) makers: Vec<Maker>,
    pub(crate) refused: Vec<RefusedCall>,
}

impl Model for Past {
    ghost use Rattle.esx_paths.specs.Pasts.{Kept, IsKept};

    ghost Value = { Kept };

    ghost view = { λ a. record { site = a.site; console = a.console; calls = a.calls; makers = a.makers.items; refused = a.refused.items } };

    ghost invariant = { λ a. IsKept (record { site = a.site; console = a.console; calls = a.calls; makers = a.makers.items; refused = a.refused.items }) };
}

impl Past {
    /// Of no call, at a good site, which is refused for want of memory alone.
    pub(crate) fn open(alloc: Global, site: Config) -> Result<Past, AllocError>
        requires { IsConfig site }
        ensures past { IfOk result (λ past. IsPastOf past (opened_session site)) }
        ensures none { IfOk result (λ past. past.calls ≡ 0) }
    {
        match Unlogged::open(alloc, site) {
            Ok(console) => Ok(Past {
                alloc,
                site,
                console,
                calls: 0,
                makers: Vec::new(alloc),
                refused: Vec::new(alloc),
            }),
            Err(_) => Err(AllocError),
        }
    }

    /// How many calls were made.
    pub(crate) fn count(&self) -> u32
        ensures { result ≡ self.now.calls }
    {
        self.calls
    }

    /// Makes a call of a caller, and keeps what made its node, or that it was refused. Where memory runs out, or there are
    /// 2^32 - 1 calls already, nothing changes.
    pub(crate) fn call(&mut self, caller: u16, call: &Call) -> Result<Reply, AllocError>
        ensures ok { IfOk result (λ reply. (s : Session) → IsPastOf self.old s → reply ≡ next_reply s call.now) }
        ensures lined { OnOk result ((s : Session) → IsPastOf self.old s → IsPastOf self.new (lined s caller call.now)) }
        ensures count { OnOk result (self.new.calls ≡ self.old.calls + 1) }
        ensures err { OnErr result (self.new ≡ self.old) }
    {
        let Some(number) = self.calls.checked_add(1) else {
            return Err(AllocError);
        };
        take_room(&mut self.makers, &mut self.refused)?;
        let node = self.console.stand().node;
        let reply = self.console.call(call)?;
        self.calls = number;
        note_maker(
            &mut self.makers,
            is_done(&reply.said),
            Maker {
                parent: node,
                call: number,
                caller,
            },
        );
        note_refused(
            &mut self.refused,
            node,
            number,
            call,
            refusal_in(&reply.said),
        );
        Ok(reply)
    }
}
