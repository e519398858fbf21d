//! One site under one thread, with no log of what was asked of it.

ghost use Rattle.std.specs.Prelude.{◌≡◌, ◌≢◌, ◌+◌, ◌<◌, ◌≤◌, ◌^◌, ℕ, IfOk, IfErr, OnOk, OnErr};
ghost use Rattle.esx_types.specs.Ranges.{IsConfig};
ghost use Rattle.esx_model.specs.Console.{Session, history, next_reply, lined};
ghost use Rattle.esx_journal.specs.Journal.{stand_at};
ghost use Rattle.esx_journal.specs.Marks.{node_named};
ghost use Rattle.esx_console.specs.Calls.{opened_session};
ghost use Rattle.esx_console.specs.Hearing.{MayLackMemory, ComesToMemory};
ghost use Rattle.esx_console.specs.Unlogged.{AnswersAs};

use crate::hearing::{counted, hear};
use esx_events::{Call, Refusal, Reply, Stand};
use esx_journal::Journal;
use esx_types::Config;
use std::alloc::{AllocError, Global};
use std::marker::Model;

/// A console that keeps no log: it answers as one does at which the same calls were made, and takes no memory
/// for their lines.
///
/// It is seen as what it keeps, which is said of a session: the site that it was opened with and the lines that
/// a log of its calls would have.
#[derive(Drop)]
pub struct Unlogged {
    alloc: Global,
    journal: Journal,
    jumps: u64,
}

impl Model for Unlogged {
    ghost use Rattle.esx_console.specs.Unlogged.{Kept, Answers};

    ghost Value = { Kept };

    ghost view = { λ u. record { journal = u.journal; jumps = u.jumps } };

    ghost invariant = { λ u. Answers (record { journal = u.journal; jumps = u.jumps }) };
}

impl Unlogged {
    /// Opens a site, with no virtual machine.
    pub fn open(alloc: Global, config: Config) -> Result<Unlogged, Refusal>
        ensures opens { IfOk result (λ u. AnswersAs u (opened_session config) × IsConfig config) }
        ensures none { IfOk result (λ u. u.jumps ≡ 0) }
        ensures refused { IfErr result (λ e. e ≢ Refusal.OutOfMemory → (e ≡ Refusal.BadSpec) × (IsConfig config → ⊥)) }
        ensures late { IfErr result (λ e. e ≡ Refusal.OutOfMemory → IsConfig config) }
    {
        let journal = Journal::open(alloc, config)?;
        Ok(Unlogged {
            alloc,
            journal,
            jumps: 0,
        })
    }

    /// Makes a call. The reply is that of the console whose session it answers as, and so is all that comes
    /// after it, whoever called. Where memory runs out nothing changes. No copy is made of what is said.
    pub fn call(&mut self, call: &Call) -> Result<Reply, AllocError>
        requires { self.old.jumps < 2 ^ 63 }
        ensures ok { IfOk result (λ reply. (s : Session) → AnswersAs self.old s → reply ≡ next_reply s call.now) }
        ensures lined { OnOk result ((s : Session) (caller : ℕ) → AnswersAs self.old s → AnswersAs self.new (lined s caller call.now)) }
        ensures few { OnOk result (self.new.jumps ≤ self.old.jumps + 1) }
        ensures err { OnErr result (self.new ≡ self.old) }
        ensures room { OnErr result (MayLackMemory call.now) }
        ensures there { (s : Session) → AnswersAs self.old s → OnErr result (ComesToMemory (history s) call.now) }
    {
        let heard = hear(&mut self.journal, self.alloc, call)?;
        let jumps = counted(self.jumps, heard.jumped);
        self.jumps = jumps;
        Ok(Reply {
            jumps,
            said: heard.said,
        })
    }

    /// Where the cursor is.
    pub fn stand(&self) -> Stand
        ensures { (s : Session) → AnswersAs self.now s → result ≡ stand_at (history s) }
    {
        self.journal.stand()
    }

    /// The node that has a name, also one that was pruned since.
    pub fn node_of(&self, name: &str) -> Option<u32>
        ensures { (s : Session) → AnswersAs self.now s → result ≡ node_named name.now (history s).marks }
    {
        self.journal.marks().node_of(name)
    }
}
