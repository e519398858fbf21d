//! Events, their answers and the refusals.

ghost use Rattle.std.specs.Prelude.{◌≡◌, IfOk};

use crate::boxed::Boxed;
use esx_types::{Level, Rows, SmallBytes, VmId, VmSpec};
use std::alloc::{AllocError, AllocFailed};

/// What changes the machine.
#[derive(Debug, Drop)]
pub enum Event {
    /// A new virtual machine, under the reserves of admission control.
    Admit {
        vm: VmId,
        spec: VmSpec,
    },
    /// Takes one overhead frame; with the last one the virtual machine runs.
    Start {
        vm: VmId,
    },
    /// Reads `len` bytes of a page from byte `at` on.
    Read {
        vm: VmId,
        page: u32,
        at: u32,
        len: u32,
    },
    /// Writes bytes into a page from byte `at` on.
    Write {
        vm: VmId,
        page: u32,
        at: u32,
        bytes: SmallBytes,
    },
    /// The guest's balloon driver asks how many pages it is to lend.
    Ask {
        vm: VmId,
    },
    /// The guest gives a page up to the balloon.
    Lend {
        vm: VmId,
        page: u32,
    },
    /// The guest takes a page back from the balloon.
    TakeBack {
        vm: VmId,
        page: u32,
    },
    /// Opens a sample period of `length` accesses; a page is drawn by each word.
    Sample {
        vm: VmId,
        length: u32,
        words: Boxed<Rows<u64>>,
    },
    /// Sets every target anew.
    Rebalance,
    /// Looks for a page with the same content, to share one frame with it.
    Scan {
        vm: VmId,
        page: u32,
    },
    /// Pages one page out, drawn by the word.
    SwapOut {
        vm: VmId,
        word: u64,
    },
    /// Brings a page into the frame of another page of its machine, drawn by the word.
    Replace {
        vm: VmId,
        page: u32,
        word: u64,
    },
    SetShares {
        vm: VmId,
        shares: u32,
    },
    /// The idle memory tax of the site, in percent.
    SetTax {
        tau: u32,
    },
    /// The idle memory tax of a machine, in percent, from now on its own.
    SetVmTax {
        vm: VmId,
        tau: u32,
    },
    /// The machine runs no more, and is taken apart.
    Stop {
        vm: VmId,
    },
    /// Frees a page of a machine that stops.
    DropPage {
        vm: VmId,
        page: u32,
    },
    /// Gives one overhead frame of a machine that stops back; with the last one it is gone.
    Gone {
        vm: VmId,
    },
}

fn copy_words(words: &Boxed<Rows<u64>>) -> Result<Boxed<Rows<u64>>, AllocError>
    ensures { IfOk result (λ copy. copy ≡ words.now) }
{
    let alloc = words.allocator();
    let copy = Vec::from_slice(alloc, words.get().as_slice())?;
    Boxed::new(alloc, Rows::from_vec(copy))
}

impl Event {
    pub fn copy(&self) -> Result<Event, AllocError>
        ensures { IfOk result (λ e. e ≡ self.now) }
    {
        match self {
            Event::Admit { vm, spec } => Ok(Event::Admit {
                vm: *vm,
                spec: *spec,
            }),
            Event::Start { vm } => Ok(Event::Start { vm: *vm }),
            Event::Read { vm, page, at, len } => Ok(Event::Read {
                vm: *vm,
                page: *page,
                at: *at,
                len: *len,
            }),
            Event::Write {
                vm,
                page,
                at,
                bytes,
            } => Ok(Event::Write {
                vm: *vm,
                page: *page,
                at: *at,
                bytes: bytes.copy()?,
            }),
            Event::Ask { vm } => Ok(Event::Ask { vm: *vm }),
            Event::Lend { vm, page } => Ok(Event::Lend {
                vm: *vm,
                page: *page,
            }),
            Event::TakeBack { vm, page } => Ok(Event::TakeBack {
                vm: *vm,
                page: *page,
            }),
            Event::Sample { vm, length, words } => Ok(Event::Sample {
                vm: *vm,
                length: *length,
                words: copy_words(words)?,
            }),
            Event::Rebalance => Ok(Event::Rebalance),
            Event::Scan { vm, page } => Ok(Event::Scan {
                vm: *vm,
                page: *page,
            }),
            Event::SwapOut { vm, word } => Ok(Event::SwapOut {
                vm: *vm,
                word: *word,
            }),
            Event::Replace { vm, page, word } => Ok(Event::Replace {
                vm: *vm,
                page: *page,
                word: *word,
            }),
            Event::SetShares { vm, shares } => Ok(Event::SetShares {
                vm: *vm,
                shares: *shares,
            }),
            Event::SetTax { tau } => Ok(Event::SetTax { tau: *tau }),
            Event::SetVmTax { vm, tau } => Ok(Event::SetVmTax { vm: *vm, tau: *tau }),
            Event::Stop { vm } => Ok(Event::Stop { vm: *vm }),
            Event::DropPage { vm, page } => Ok(Event::DropPage {
                vm: *vm,
                page: *page,
            }),
            Event::Gone { vm } => Ok(Event::Gone { vm: *vm }),
        }
    }
}

/// What a look at a page's content came to.
#[derive(Clone, Copy, Debug, PartialEq, Eq)]
pub enum Scanned {
    /// The page is remembered as a hint.
    Hinted,
    /// It shares this frame now, with so many pages in all.
    Shared { frame: u32, count: u32 },
    /// As `Hinted`, in place of a hint whose page had changed.
    Stale,
    /// Another content has the same key.
    Clash,
    /// It was shared before.
    Already,
}

/// Frames and slots that are reserved, each of all.
#[derive(Clone, Copy, Debug, PartialEq, Eq)]
pub struct Reserves {
    pub memory: u32,
    pub frames: u32,
    pub swap: u32,
    pub slots: u32,
}

/// What an accepted event answers, its numbers in the order in which they are printed.
#[derive(Debug, Drop)]
pub enum Answer {
    /// What is reserved after it.
    Admitted {
        reserves: Boxed<Reserves>,
    },
    /// Whether the machine runs now, which is printed last; the frame that was taken, and how many are held of
    /// how many.
    Started {
        running: bool,
        frame: u32,
        held: u32,
        overhead: u32,
    },
    Bytes {
        bytes: SmallBytes,
    },
    Done,
    /// How many pages the balloon is to lend, how many it lends, and how often it was reset.
    Goal {
        goal: u32,
        lent: u32,
        epoch: u32,
    },
    /// The balloon was reset, for the so many-th time.
    Reset {
        epoch: u32,
    },
    Lent {
        lent: u32,
        goal: u32,
    },
    TakenBack {
        lent: u32,
    },
    /// A period of so many accesses is open, with so many pages drawn.
    Opened {
        length: u32,
        pages: u32,
    },
    Rebalanced {
        need: u32,
        revoked: u32,
    },
    Looked {
        scanned: Scanned,
    },
    PagedOut {
        page: u32,
        slot: u32,
    },
    /// In place of being paged out the page shares this frame now.
    SharedOut {
        page: u32,
        frame: u32,
    },
    /// The page that went out, its slot, and its frame, where the wanted page is now.
    Replaced {
        page: u32,
        slot: u32,
        frame: u32,
    },
    /// So many overhead frames are still held.
    GivenBack {
        held: u32,
    },
    Gone,
}

impl Answer {
    pub fn copy(&self) -> Result<Answer, AllocError>
        ensures { IfOk result (λ a. a ≡ self.now) }
    {
        match self {
            Answer::Admitted { reserves } => Ok(Answer::Admitted {
                reserves: Boxed::new(reserves.allocator(), *reserves.get())?,
            }),
            Answer::Started {
                running,
                frame,
                held,
                overhead,
            } => Ok(Answer::Started {
                running: *running,
                frame: *frame,
                held: *held,
                overhead: *overhead,
            }),
            Answer::Bytes { bytes } => Ok(Answer::Bytes {
                bytes: bytes.copy()?,
            }),
            Answer::Done => Ok(Answer::Done),
            Answer::Goal { goal, lent, epoch } => Ok(Answer::Goal {
                goal: *goal,
                lent: *lent,
                epoch: *epoch,
            }),
            Answer::Reset { epoch } => Ok(Answer::Reset { epoch: *epoch }),
            Answer::Lent { lent, goal } => Ok(Answer::Lent {
                lent: *lent,
                goal: *goal,
            }),
            Answer::TakenBack { lent } => Ok(Answer::TakenBack { lent: *lent }),
            Answer::Opened { length, pages } => Ok(Answer::Opened {
                length: *length,
                pages: *pages,
            }),
            Answer::Rebalanced { need, revoked } => Ok(Answer::Rebalanced {
                need: *need,
                revoked: *revoked,
            }),
            Answer::Looked { scanned } => Ok(Answer::Looked { scanned: *scanned }),
            Answer::PagedOut { page, slot } => Ok(Answer::PagedOut {
                page: *page,
                slot: *slot,
            }),
            Answer::SharedOut { page, frame } => Ok(Answer::SharedOut {
                page: *page,
                frame: *frame,
            }),
            Answer::Replaced { page, slot, frame } => Ok(Answer::Replaced {
                page: *page,
                slot: *slot,
                frame: *frame,
            }),
            Answer::GivenBack { held } => Ok(Answer::GivenBack { held: *held }),
            Answer::Gone => Ok(Answer::Gone),
        }
    }
}

/// Why a call is not accepted. Each has a number of its own, which is printed with its name.
#[derive(Clone, Copy, Debug, PartialEq, Eq)]
pub enum Refusal {
    NoVm,
    VmThere,
    BadSpec,
    NoMemoryReserve,
    NoSwapReserve,
    NotRunning,
    OutOfRange,
    Held,
    Short,
    OverGoal,
    NotLent,
    LentAlready,
    NotNow { level: Level },
    AtTarget,
    NotResident,
    BadWords,
    NotNeeded,
    PagesLeft,
    NothingToUndo,
    NothingToRedo,
    NoSuchNode,
    NameTaken,
    NoSuchName,
    OnPath,
    Full,
    OutOfMemory,
    SampleOpen,
}

impl Refusal {
    ghost use Rattle.esx_events.specs.Numbers.{refusal_number, refusal_name};

    /// The number under which it is printed.
    pub fn number(self) -> u8
        ensures { result ≡ refusal_number self }
    {
        match self {
            Refusal::NoVm => 1,
            Refusal::VmThere => 2,
            Refusal::BadSpec => 3,
            Refusal::NoMemoryReserve => 4,
            Refusal::NoSwapReserve => 5,
            Refusal::NotRunning => 6,
            Refusal::OutOfRange => 7,
            Refusal::Held => 8,
            Refusal::Short => 9,
            Refusal::OverGoal => 10,
            Refusal::NotLent => 11,
            Refusal::LentAlready => 12,
            Refusal::NotNow { .. } => 13,
            Refusal::AtTarget => 14,
            Refusal::NotResident => 15,
            Refusal::BadWords => 16,
            Refusal::NotNeeded => 17,
            Refusal::PagesLeft => 18,
            Refusal::NothingToUndo => 19,
            Refusal::NothingToRedo => 20,
            Refusal::NoSuchNode => 21,
            Refusal::NameTaken => 22,
            Refusal::NoSuchName => 23,
            Refusal::OnPath => 24,
            Refusal::Full => 25,
            Refusal::OutOfMemory => 26,
            Refusal::SampleOpen => 27,
        }
    }

    /// The name under which it is printed.
    pub fn name(self) -> &'static str
        ensures { result.now ≡ refusal_name self }
    {
        match self {
            Refusal::NoVm => "NoVm",
            Refusal::VmThere => "VmThere",
            Refusal::BadSpec => "BadSpec",
            Refusal::NoMemoryReserve => "NoMemoryReserve",
            Refusal::NoSwapReserve => "NoSwapReserve",
            Refusal::NotRunning => "NotRunning",
            Refusal::OutOfRange => "OutOfRange",
            Refusal::Held => "Held",
            Refusal::Short => "Short",
            Refusal::OverGoal => "OverGoal",
            Refusal::NotLent => "NotLent",
            Refusal::LentAlready => "LentAlready",
            Refusal::NotNow { .. } => "NotNow",
            Refusal::AtTarget => "AtTarget",
            Refusal::NotResident => "NotResident",
            Refusal::BadWords => "BadWords",
            Refusal::NotNeeded => "NotNeeded",
            Refusal::PagesLeft => "PagesLeft",
            Refusal::NothingToUndo => "NothingToUndo",
            Refusal::NothingToRedo => "NothingToRedo",
            Refusal::NoSuchNode => "NoSuchNode",
            Refusal::NameTaken => "NameTaken",
            Refusal::NoSuchName => "NoSuchName",
            Refusal::OnPath => "OnPath",
            Refusal::Full => "Full",
            Refusal::OutOfMemory => "OutOfMemory",
            Refusal::SampleOpen => "SampleOpen",
        }
    }
}

impl From<AllocError> for Refusal {
    ghost use Rattle.std.specs.Prelude.{◌≡◌};
    ghost use Rattle.esx_events.specs.declared.event.Refusal.TheVariants.{OutOfMemory};

    ghost from_gives = { λ _ e. e ≡ OutOfMemory };

    fn from(_error: AllocError) -> Refusal {
        Refusal::OutOfMemory
    }
}

impl<T: Drop> From<AllocFailed<T>> for Refusal {
    ghost use Rattle.std.specs.Prelude.{◌≡◌};
    ghost use Rattle.esx_events.specs.declared.event.Refusal.TheVariants.{OutOfMemory};

    ghost from_gives = { λ _ e. e ≡ OutOfMemory };

    fn from(_error: AllocFailed<T>) -> Refusal {
        Refusal::OutOfMemory
    }
}
