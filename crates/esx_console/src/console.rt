//! One site under one thread, with the log of all that was asked of it.

ghost use Rattle.std.specs.Prelude.{◌≡◌, ◌≢◌, ◌≤◌, [], length, Ok, IfOk, IfErr, OnErr};
ghost use Rattle.esx_types.specs.Ranges.{IsConfig};
ghost use Rattle.esx_model.specs.Replay.{replay_of};
ghost use Rattle.esx_model.specs.History.{here, scene_at, book_at};
ghost use Rattle.esx_model.specs.Console.{history, next_reply, lined, IsLegal};
ghost use Rattle.esx_machine.specs.Machine.{Shows, book_in};
ghost use Rattle.esx_console.specs.Console.{session_gauge};

mod keeping;

use crate::hearing::counted;
use crate::hearing::twice::hear_twice;
use crate::log::Log;
use esx_events::{Call, Line, Refusal, Reply};
use esx_journal::Journal;
use esx_machine::Machine;
use esx_model::Book;
use esx_types::{Config, Level, VmId};
use std::alloc::{AllocError, Global};
use std::marker::Model;

/// A console, seen as the site that it was opened with and the lines of its log.
///
/// Every answered call is a line, questions and refused calls too, and the log tells everything else:
/// the tables, the tree of events and the count of jumps are those that its calls lead to.
#[derive(Drop)]
pub struct Console<L: Log = Vec<Line>> {
    alloc: Global,
    site: Config,
    journal: Journal,
    log: L,
    jumps: u64,
}

impl<L: Log> Model for Console<L> {
    ghost use Rattle.esx_model.specs.Console.{Session};
    ghost use Rattle.esx_console.specs.Console.{IsConsole};

    ghost Value = { Session };

    ghost view = { λ c. record { site = c.site; log = L.lines c.log } };

    ghost invariant = { λ c. IsConsole (record { site = c.site; log = L.lines c.log }) c.journal c.jumps };
}

impl Console {
    /// Opens a site, with no virtual machine and an empty log.
    pub fn open(alloc: Global, config: Config) -> Result<Console, Refusal>
        ensures opens { IfOk result (λ c. (c ≡ record { site = config; log = [] }) × IsConfig config) }
        ensures refused { IfErr result (λ e. e ≢ Refusal.OutOfMemory → (e ≡ Refusal.BadSpec) × (IsConfig config → ⊥)) }
        ensures late { IfErr result (λ e. e ≡ Refusal.OutOfMemory → IsConfig config) }
    {
        Console::over(alloc, config, Vec::new(alloc))
    }

    /// Takes room for so many calls to come, so that neither the log nor the tree of events moves while they are made.
    /// Where it is refused, each takes its own as it comes.
    pub fn make_room(&mut self, calls: usize)
        ensures { self.new ≡ self.old }
    {
        if self.log.reserve(calls).is_ok() {
            self.journal.make_room(calls);
        }
    }

    /// The lines so far, the oldest first.
    pub fn log(&self) -> &[Line]
        ensures lines { result.now ≡ self.now.log }
        ensures legal { IsLegal self.now }
    {
        self.log.as_slice()
    }
}

impl<L: Log> Console<L> {
    /// Opens a site, with no virtual machine, over an empty log of any kind.
    pub fn over(alloc: Global, config: Config, log: L) -> Result<Console<L>, Refusal>
        requires { L.lines log ≡ [] }
        ensures opens { IfOk result (λ c. (c ≡ record { site = config; log = [] }) × IsConfig config) }
        ensures refused { IfErr result (λ e. e ≢ Refusal.OutOfMemory → (e ≡ Refusal.BadSpec) × (IsConfig config → ⊥)) }
        ensures late { IfErr result (λ e. e ≡ Refusal.OutOfMemory → IsConfig config) }
    {
        let journal = Journal::open(alloc, config)?;
        Ok(Console {
            alloc,
            site: config,
            journal,
            log,
            jumps: 0,
        })
    }

    /// Makes a call and logs it with its reply. Where memory runs out nothing changes, and there is no line.
    pub fn call(&mut self, caller: u16, call: Call) -> Result<Reply, AllocError>
        ensures ok { IfOk result (λ reply. (reply ≡ next_reply self.old call) × (self.new ≡ lined self.old caller call)) }
        ensures err { OnErr result (self.new ≡ self.old) }
        ensures legal { IsLegal self.new }
    {
        self.log.take_room()?;
        let (heard, copy) = hear_twice(&mut self.journal, self.alloc, &call)?;
        let jumps = counted(self.jumps, heard.jumped);
        self.jumps = jumps;
        let line = Line {
            caller,
            call,
            reply: Reply {
                jumps,
                said: copy.said,
            },
        };
        self.log.note(line, &[]);
        Ok(Reply {
            jumps,
            said: heard.said,
        })
    }

    /// Its log.
    pub fn kept(&self) -> &L
        ensures lines { L.lines result.now ≡ self.now.log }
        ensures legal { IsLegal self.now }
    {
        &self.log
    }

    /// How many moves of the cursor were accepted so far.
    pub fn jumps(&self) -> u64
        ensures value { result ≡ (history self.now).jumps }
        ensures few { result ≤ length self.now.log }
    {
        self.jumps
    }

    /// The machine, for questions: its tables are those of replaying the cursor's path.
    #[tactic(auto, using(crate::proofs::Keeps::history_site))]
    pub fn machine(&self) -> &Machine
        ensures config { result.now.config ≡ self.now.site }
        ensures tables { book_in result.now ≡ book_at (history self.now) }
        ensures shows { Shows result.now (scene_at (history self.now)) }
        ensures replay { replay_of self.now.site (here (history self.now)) ≡ Ok (book_in result.now) }
    {
        self.journal.machine()
    }

    /// How scarce frames are: how many are free, and the level.
    pub fn gauge(&self) -> (u32, Level)
        ensures { result ≡ session_gauge self.now }
    {
        let machine = self.machine();
        (machine.free(), machine.level())
    }

    /// A copy of every table.
    pub fn book(&self) -> Result<Book, AllocError>
        ensures tables { IfOk result (λ book. book ≡ book_at (history self.now)) }
        ensures replay { IfOk result (λ book. replay_of self.now.site (here (history self.now)) ≡ Ok book) }
    {
        self.machine().book()
    }

    /// Reads where a page is, any page of any number, so that this is near when an access comes. What it gives is for
    /// `look_at` alone: the page's frame, or `u32::MAX` where it is in none.
    #[inline(always)]
    pub fn look_for(&self, vm: VmId, page: u32) -> u32 {
        self.machine().look_for(vm, page)
    }

    /// Reads a frame's row and the byte of its page that stands so many bytes behind its first, or 0 where there is none,
    /// as an access is to: any numbers may be asked for. What it gives means nothing.
    #[inline(always)]
    pub fn look_at(&self, frame: u32, at: u32) -> u8 {
        self.machine().look_at(frame, at)
    }

    /// The site as it was opened.
    pub fn site(&self) -> Config
        ensures { result ≡ self.now.site }
    {
        self.site
    }
}
