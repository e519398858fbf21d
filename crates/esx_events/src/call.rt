//! Calls of a console, what is said to them, and the lines of its log.

ghost use Rattle.std.specs.Prelude.{◌≡◌, IfOk};

use crate::boxed::Boxed;
use crate::event::{Answer, Event, Refusal};
use crate::events::Events;
use crate::name::Name;
use esx_types::{Level, Rows, VmId, VmState};
use std::alloc::{AllocError, Global};

/// What a caller asks of a console.
#[derive(Debug, Drop)]
pub enum Call {
    Do { event: Event },
    /// Goes so many events back.
    Undo { count: u32 },
    /// Goes so many events forward again.
    Redo { count: u32 },
    /// Goes to a node the shortest way.
    Goto { node: u32 },
    /// Goes to the node that has this name.
    Visit { name: Name },
    /// Gives the cursor's node a name.
    Mark { name: Name },
    /// Drops a node and all below it.
    Prune { node: u32 },
    /// Tries events and goes back.
    WhatIf { events: Events },
    Sum,
    Table,
    OfVm { vm: VmId },
    OfPage { vm: VmId, page: u32 },
    Advise { vm: VmId, page: u32 },
    Stand,
    Marks,
}

impl Call {
    pub fn copy(&self) -> Result<Call, AllocError>
        ensures { IfOk result (λ c. c ≡ self.now) }
    {
        match self {
            Call::Do { event } => Ok(Call::Do {
                event: event.copy()?,
            }),
            Call::Undo { count } => Ok(Call::Undo { count: *count }),
            Call::Redo { count } => Ok(Call::Redo { count: *count }),
            Call::Goto { node } => Ok(Call::Goto { node: *node }),
            Call::Visit { name } => Ok(Call::Visit { name: name.copy()? }),
            Call::Mark { name } => Ok(Call::Mark { name: name.copy()? }),
            Call::Prune { node } => Ok(Call::Prune { node: *node }),
            Call::WhatIf { events } => Ok(Call::WhatIf {
                events: events.copy()?,
            }),
            Call::Sum => Ok(Call::Sum),
            Call::Table => Ok(Call::Table),
            Call::OfVm { vm } => Ok(Call::OfVm { vm: *vm }),
            Call::OfPage { vm, page } => Ok(Call::OfPage {
                vm: *vm,
                page: *page,
            }),
            Call::Advise { vm, page } => Ok(Call::Advise {
                vm: *vm,
                page: *page,
            }),
            Call::Stand => Ok(Call::Stand),
            Call::Marks => Ok(Call::Marks),
        }
    }
}

/// How many frames are of each kind, and the level.
#[derive(Clone, Copy, Debug, PartialEq, Eq)]
pub struct Sum {
    pub overhead: u32,
    pub private: u32,
    pub shared: u32,
    pub free: u32,
    pub level: Level,
}

/// Where the cursor of a journal is: a node, and how many events lead to it.
#[derive(Clone, Copy, Debug, PartialEq, Eq)]
pub struct Stand {
    pub node: u32,
    pub depth: u32,
}

/// Where a page is, as a question for it is answered.
#[derive(Clone, Copy, Debug, PartialEq, Eq)]
pub enum PageState {
    Untouched,
    Private { frame: u32 },
    /// Private, and remembered as a hint for sharing.
    Hinted { frame: u32 },
    Shared { frame: u32, count: u32 },
    Out { slot: u32 },
    Lent,
}

/// The averages of a virtual machine, in units of 1/65,536, and its open period: accesses done of its
/// length, and touched ones of its pages. These four are 0 where no period is open.
#[derive(Clone, Copy, Debug, PartialEq, Eq)]
pub struct Activity {
    pub slow: u32,
    pub fast: u32,
    pub active: u32,
    pub done: u32,
    pub length: u32,
    pub touched: u32,
    pub pages: u32,
}

/// A virtual machine's line of the table.
#[derive(Clone, Copy, Debug, PartialEq, Eq)]
pub struct TableRow {
    pub vm: VmId,
    pub state: VmState,
    pub min: u32,
    pub max: u32,
    pub target: u32,
    pub here: u32,
    pub lent: u32,
    pub out: u32,
    pub shares: u32,
    pub active: u32,
}

/// What lets a write to a page go on.
#[derive(Clone, Copy, Debug, PartialEq, Eq)]
pub enum Help {
    Go,
    SwapOut { vm: VmId },
    Rebalance,
    Replace,
}

/// A name, and the node that has it.
#[derive(Debug, Drop)]
pub struct NameRow {
    pub name: Name,
    pub node: u32,
}

impl NameRow {
    pub fn copy(&self) -> Result<NameRow, AllocError>
        ensures { IfOk result (λ r. r ≡ self.now) }
    {
        Ok(NameRow {
            name: self.name.copy()?,
            node: self.node,
        })
    }
}

/// What would come of some events: how many were given, the frames before them, what each tried one
/// answered, and the frames after them.
#[derive(Debug, Drop)]
pub struct Sides {
    pub given: u32,
    pub before: Sum,
    pub replies: Rows<Result<Answer, Refusal>>,
    pub after: Sum,
}

fn copy_tried(reply: &Result<Answer, Refusal>) -> Result<Result<Answer, Refusal>, AllocError>
    ensures { IfOk result (λ copy. copy ≡ reply.now) }
{
    match reply {
        Ok(answer) => Ok(Ok(answer.copy()?)),
        Err(refusal) => Ok(Err(*refusal)),
    }
}

fn copy_replies(
    alloc: Global,
    replies: &[Result<Answer, Refusal>],
) -> Result<Rows<Result<Answer, Refusal>>, AllocError>
    ensures { IfOk result (λ copy. copy ≡ replies.now) }
{
    let mut copy = Vec::with_capacity(alloc, replies.len())?;
    for reply in replies {
        copy.push(copy_tried(reply)?)?;
    }
    Ok(Rows::from_vec(copy))
}

impl Sides {
    pub fn copy(&self, alloc: Global) -> Result<Sides, AllocError>
        ensures { IfOk result (λ s. s ≡ self.now) }
    {
        Ok(Sides {
            given: self.given,
            before: self.before,
            replies: copy_replies(alloc, self.replies.as_slice())?,
            after: self.after,
        })
    }
}

/// What is said to a call.
#[derive(Debug, Drop)]
pub enum Said {
    Done {
        answer: Answer,
    },
    Refused {
        refusal: Refusal,
    },
    Stand {
        stand: Stand,
    },
    Marked {
        name: Name,
        node: u32,
    },
    Pruned {
        count: u32,
    },
    Sides {
        sides: Boxed<Sides>,
    },
    Sum {
        sum: Sum,
    },
    Table {
        rows: Boxed<Rows<TableRow>>,
        sum: Boxed<Sum>,
    },
    Activity {
        activity: Boxed<Activity>,
    },
    Page {
        state: PageState,
    },
    Help {
        help: Help,
    },
    Marks {
        marks: Boxed<Rows<NameRow>>,
    },
}

fn copy_table(rows: &Boxed<Rows<TableRow>>) -> Result<Boxed<Rows<TableRow>>, AllocError>
    ensures { IfOk result (λ copy. copy ≡ rows.now) }
{
    let alloc = rows.allocator();
    let copy = Vec::from_slice(alloc, rows.get().as_slice())?;
    Boxed::new(alloc, Rows::from_vec(copy))
}

fn copy_marks(alloc: Global, marks: &[NameRow]) -> Result<Rows<NameRow>, AllocError>
    ensures { IfOk result (λ copy. copy ≡ marks.now) }
{
    let mut copy = Vec::with_capacity(alloc, marks.len())?;
    for row in marks {
        copy.push(row.copy()?)?;
    }
    Ok(Rows::from_vec(copy))
}

impl Said {
    pub fn copy(&self) -> Result<Said, AllocError>
        ensures { IfOk result (λ s. s ≡ self.now) }
    {
        match self {
            Said::Done { answer } => Ok(Said::Done {
                answer: answer.copy()?,
            }),
            Said::Refused { refusal } => Ok(Said::Refused { refusal: *refusal }),
            Said::Stand { stand } => Ok(Said::Stand { stand: *stand }),
            Said::Marked { name, node } => Ok(Said::Marked {
                name: name.copy()?,
                node: *node,
            }),
            Said::Pruned { count } => Ok(Said::Pruned { count: *count }),
            Said::Sides { sides } => Ok(Said::Sides {
                sides: Boxed::new(sides.allocator(), sides.get().copy(sides.allocator())?)?,
            }),
            Said::Sum { sum } => Ok(Said::Sum { sum: *sum }),
            Said::Table { rows, sum } => Ok(Said::Table {
                rows: copy_table(rows)?,
                sum: Boxed::new(sum.allocator(), *sum.get())?,
            }),
            Said::Activity { activity } => Ok(Said::Activity {
                activity: Boxed::new(activity.allocator(), *activity.get())?,
            }),
            Said::Page { state } => Ok(Said::Page { state: *state }),
            Said::Help { help } => Ok(Said::Help { help: *help }),
            Said::Marks { marks } => {
                let copy = copy_marks(marks.allocator(), marks.get().as_slice())?;
                Ok(Said::Marks {
                    marks: Boxed::new(marks.allocator(), copy)?,
                })
            }
        }
    }
}

/// What is said to a call, and how many jumps the cursor has made so far, this call's included.
#[derive(Debug, Drop)]
pub struct Reply {
    pub jumps: u64,
    pub said: Said,
}

impl Reply {
    pub fn copy(&self) -> Result<Reply, AllocError>
        ensures { IfOk result (λ r. r ≡ self.now) }
    {
        Ok(Reply {
            jumps: self.jumps,
            said: self.said.copy()?,
        })
    }
}

/// A line of a log: who called, the call, and the reply to it.
#[derive(Debug, Drop)]
pub struct Line {
    pub caller: u16,
    pub call: Call,
    pub reply: Reply,
}

const _: () = prove!(size_of::<Event>() == 40);

const _: () = prove!(size_of::<Call>() == 48);

const _: () = prove!(size_of::<Answer>() == 32);

const _: () = prove!(size_of::<Said>() == 40);

const _: () = prove!(size_of::<Reply>() == 48);

const _: () = prove!(size_of::<Line>() == 104);
