//! Doors to a desk and to a console.

use esx_console::Console;
use esx_desk::{Desk, Pass};
use esx_door::Door;
use esx_events::{Call, Reply};
use std::alloc::AllocError;
use std::sync::Wait;

/// A pass of a desk, as the least of its callers.
#[derive(Drop)]
pub struct DeskDoor<'a, R> {
    pub rt: &'a R,
    pub desk: &'a Desk,
    pub pass: Pass,
    pub caller: u16,
}

impl<'a, R: Wait> Door for DeskDoor<'a, R> {
    ghost use Rattle.esx_desk.specs.Told.{HadIt};
    ghost use Rattle.esx_work.specs.Doors.{IsReady, Leads};
    ghost use Rattle.esx_work.specs.Growth.{leads_self, leads_on};

    ghost can_submit = { λ d. IsReady d.desk.now d.pass d.caller };

    ghost caller = { λ d. d.caller };

    ghost seen = { λ d. d.pass.view.seen };

    ghost leads = { λ d e. Leads d.desk.now e.desk.now d.pass e.pass };

    ghost wanted = { λ _ _ e. HadIt e.pass.view };

    fn submit(&mut self, call: Call) -> Result<Reply, AllocError> {
        self.desk.submit(self.rt, &mut self.pass, call)
    }

    ghost leads_self = { λ d. leads_self d.desk.now d.pass };

    ghost leads_on = { λ d e f one two. leads_on d.desk.now e.desk.now f.desk.now d.pass e.pass f.pass one two };
}

/// A console under a caller's number. Its log goes on with lines of this caller alone.
#[derive(Drop)]
pub struct ConsoleDoor {
    pub console: Console,
    pub caller: u16,
}

impl Door for ConsoleDoor {
    ghost use Rattle.esx_work.specs.Growth.{IsAlone, alone_self, alone_on};

    ghost can_submit = { λ d. Unit {0} };

    ghost caller = { λ d. d.caller };

    ghost seen = { λ d. d.console.log };

    ghost leads = { λ d e. IsAlone d.caller e.caller d.console e.console };

    fn submit(&mut self, call: Call) -> Result<Reply, AllocError> {
        self.console.call(self.caller, call)
    }

    ghost leads_self = { λ d. alone_self d.caller d.console };

    ghost leads_on = { λ d e f one two. alone_on d.caller e.caller f.caller d.console e.console f.console one two };
}
