//! The console that a desk's lock keeps. It stands on the heap, so that a take and a give move a pointer.

ghost use Rattle.std.specs.Prelude.{◌≡◌, ◌++◌, ◌∷◌, [], IfOk, OnErr};
ghost use Rattle.esx_model.specs.History.{opened};
ghost use Rattle.esx_model.specs.Console.{next_reply, IsLegal};
ghost use Rattle.esx_desk.specs.Legal.{AreReplies-prop};
ghost use Rattle.esx_desk.specs.Told.{line};

use esx_console::Console;
use esx_events::{Call, Reply};
use esx_lock::Gauged;
use esx_types::Level;
use std::alloc::{AllocError, Global};

/// A console, and that its log is legal.
#[derive(Drop)]
pub struct LegalConsole {
    console: Box<Console>,
    ghost legal: { IsLegal console.value } by { AreReplies-prop (opened console.value.site) console.value.log },
}

impl Gauged for LegalConsole {
    ghost use Rattle.esx_desk.specs.Legal.{legal_for, gauge_for, begins_legal};

    ghost site = { λ c. c.console.value.site };

    ghost lines = { λ c. c.console.value.log };

    ghost legal = { legal_for };

    ghost gauge_of = { gauge_for };

    fn gauge(&self) -> (u32, Level) {
        self.console.gauge()
    }

    ghost is_legal = { λ c. c.legal };

    ghost begins_legal = { begins_legal };
}

impl LegalConsole {
    /// Where memory is wanting the console is dropped.
    pub fn new(alloc: Global, console: Console) -> Result<LegalConsole, AllocError>
        ensures { IfOk result (λ legal. legal.console.value ≡ console) }
    {
        let console = Box::new(alloc, console)?;
        let _ = console.log();
        Ok(LegalConsole { console })
    }

    pub fn into_console(self) -> Console
        ensures { result ≡ self.console.value }
    {
        let LegalConsole { console } = self;
        Box::into_inner(console)
    }

    /// Makes a call. Where memory runs out there is no line.
    #[tactic(auto, using(crate::proofs::Calls::called_site, crate::proofs::Calls::called_line))]
    pub fn call(&mut self, caller: u16, call: Call) -> Result<Reply, AllocError>
        ensures reply { IfOk result (λ reply. reply ≡ next_reply self.old.console.value call) }
        ensures ok { IfOk result (λ reply. self.new.console.value.log ≡ self.old.console.value.log ++ line caller call reply ∷ []) }
        ensures err { OnErr result (self.new.console.value.log ≡ self.old.console.value.log) }
        ensures site { self.new.console.value.site ≡ self.old.console.value.site }
    {
        self.console.call(caller, call)
    }
}
