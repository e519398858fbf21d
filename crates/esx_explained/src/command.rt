//! The commands: those of the grammar, and the words of the console alone.

ghost use Rattle.std.specs.Prelude.{◌≡◌, IfSome, IfNone};
ghost use Rattle.esx_explained.specs.Words.{command_word};
ghost use Rattle.esx_explained.specs.declared.command.Command.{Command};

/// A command, by its first word; behind `WhatIf` the words of the console alone, which are no calls.
#[derive(Clone, Copy, Debug, PartialEq, Eq)]
pub enum Command {
    Admit,
    Start,
    Ask,
    Stop,
    Gone,
    Lend,
    TakeBack,
    Scan,
    DropPage,
    Shares,
    VmTax,
    Read,
    Write,
    Sample,
    Rebalance,
    SwapOut,
    Replace,
    Tax,
    Undo,
    Redo,
    Goto,
    Prune,
    Visit,
    Mark,
    Sum,
    Table,
    Stand,
    Marks,
    OfVm,
    OfPage,
    Advise,
    WhatIf,
    Session,
    Order,
    PageOut,
}

/// Every command, in the order of the grammar.
pub const COMMANDS: [Command; 35] = [
    Command::Admit,
    Command::Start,
    Command::Ask,
    Command::Stop,
    Command::Gone,
    Command::Lend,
    Command::TakeBack,
    Command::Scan,
    Command::DropPage,
    Command::Shares,
    Command::VmTax,
    Command::Read,
    Command::Write,
    Command::Sample,
    Command::Rebalance,
    Command::SwapOut,
    Command::Replace,
    Command::Tax,
    Command::Undo,
    Command::Redo,
    Command::Goto,
    Command::Prune,
    Command::Visit,
    Command::Mark,
    Command::Sum,
    Command::Table,
    Command::Stand,
    Command::Marks,
    Command::OfVm,
    Command::OfPage,
    Command::Advise,
    Command::WhatIf,
    Command::Session,
    Command::Order,
    Command::PageOut,
];

impl Command {
    ghost use Rattle.std.specs.Prelude.{◌≡◌, ◌≤◌, length};
    ghost use Rattle.esx_explained.specs.Words.{command_word, is_event};

    /// Is it an event, which can be tried?
    pub fn is_event(self) -> bool
        ensures { result ≡ is_event self }
    {
        match self {
            Command::Admit
            | Command::Start
            | Command::Ask
            | Command::Stop
            | Command::Gone
            | Command::Lend
            | Command::TakeBack
            | Command::Scan
            | Command::DropPage
            | Command::Shares
            | Command::VmTax
            | Command::Read
            | Command::Write
            | Command::Sample
            | Command::Rebalance
            | Command::SwapOut
            | Command::Replace
            | Command::Tax => true,
            _ => false,
        }
    }

    /// Its first word.
    pub fn name(self) -> &'static str
        ensures word { result.now ≡ command_word self }
        ensures short { length result.now ≤ 9 }
    {
        match self {
            Command::Admit => "admit",
            Command::Start => "start",
            Command::Ask => "ask",
            Command::Stop => "stop",
            Command::Gone => "gone",
            Command::Lend => "lend",
            Command::TakeBack => "takeback",
            Command::Scan => "scan",
            Command::DropPage => "drop",
            Command::Shares => "shares",
            Command::VmTax => "vmtax",
            Command::Read => "read",
            Command::Write => "write",
            Command::Sample => "sample",
            Command::Rebalance => "rebalance",
            Command::SwapOut => "swapout",
            Command::Replace => "replace",
            Command::Tax => "tax",
            Command::Undo => "undo",
            Command::Redo => "redo",
            Command::Goto => "goto",
            Command::Prune => "prune",
            Command::Visit => "visit",
            Command::Mark => "mark",
            Command::Sum => "sum",
            Command::Table => "table",
            Command::Stand => "where",
            Command::Marks => "marks",
            Command::OfVm => "vm",
            Command::OfPage => "page",
            Command::Advise => "advise",
            Command::WhatIf => "whatif",
            Command::Session => "session",
            Command::Order => "order",
            Command::PageOut => "pageout",
        }
    }
}

/// The command that begins with a word.
pub fn command_of(word: &str) -> Option<Command>
    ensures found { IfSome result (λ command. word.now ≡ command_word command) }
    ensures only { IfNone result ((command : Command) → word.now ≡ command_word command → ⊥) }
{
    for command in COMMANDS {
        if command.name() == word {
            return Some(command);
        }
    }
    None
}
