//! The first words of commands, those that are read alike together.

ghost use Rattle.std.specs.Prelude.{◌≡◌, IfSome, IfNone, length};
ghost use Rattle.esx_words.specs.Verbs.{event_word, verb_word};
ghost use Rattle.esx_words.specs.declared.verbs.EventVerb.{EventVerb};
ghost use Rattle.esx_words.specs.declared.verbs.Verb.{Verb};
ghost use Rattle.esx_words.specs.declared.verbs.Verb.TheVariants as verbs;
ghost use Rattle.esx_words.specs.declared.verbs.EventVerb.TheVariants as events;
ghost use Rattle.esx_words.specs.declared.verbs.PlaceVerb.TheVariants as places;

// The letters of each first word: they stand here alone.
pub const ADMIT: &str = "admit";

pub const START: &str = "start";

pub const ASK: &str = "ask";

pub const STOP: &str = "stop";

pub const GONE: &str = "gone";

pub const LEND: &str = "lend";

pub const TAKEBACK: &str = "takeback";

pub const SCAN: &str = "scan";

pub const DROP: &str = "drop";

pub const SHARES: &str = "shares";

pub const VMTAX: &str = "vmtax";

pub const READ: &str = "read";

pub const WRITE: &str = "write";

pub const SAMPLE: &str = "sample";

pub const REBALANCE: &str = "rebalance";

pub const SWAPOUT: &str = "swapout";

pub const REPLACE: &str = "replace";

pub const TAX: &str = "tax";

pub const UNDO: &str = "undo";

pub const REDO: &str = "redo";

pub const GOTO: &str = "goto";

pub const PRUNE: &str = "prune";

pub const VISIT: &str = "visit";

pub const MARK: &str = "mark";

pub const SUM: &str = "sum";

pub const TABLE: &str = "table";

pub const WHERE: &str = "where";

pub const MARKS: &str = "marks";

pub const VM: &str = "vm";

pub const PAGE: &str = "page";

pub const ADVISE: &str = "advise";

pub const WHATIF: &str = "whatif";

/// Events that a virtual machine alone stands behind.
#[derive(Clone, Copy, Debug, PartialEq, Eq)]
pub enum MachineEvent {
    Start,
    Ask,
    Stop,
    Gone,
}

/// Events behind which a virtual machine and a number stand.
#[derive(Clone, Copy, Debug, PartialEq, Eq)]
pub enum PlaceEvent {
    Lend,
    TakeBack,
    Scan,
    DropPage,
    SetShares,
    SetVmTax,
}

/// First words of events.
#[derive(Clone, Copy, Debug, PartialEq, Eq)]
pub enum EventVerb {
    Admit,
    Machine { verb: MachineEvent },
    Place { verb: PlaceEvent },
    Read,
    Write,
    Sample,
    Rebalance,
    SwapOut,
    Replace,
    SetTax,
}

/// Moves behind which a number stands.
#[derive(Clone, Copy, Debug, PartialEq, Eq)]
pub enum NumberVerb {
    Undo,
    Redo,
    Goto,
    Prune,
}

/// Calls behind which a name stands.
#[derive(Clone, Copy, Debug, PartialEq, Eq)]
pub enum NameVerb {
    Visit,
    Mark,
}

/// Calls behind which nothing stands.
#[derive(Clone, Copy, Debug, PartialEq, Eq)]
pub enum AloneVerb {
    Sum,
    Table,
    Stand,
    Marks,
}

/// Questions about a page.
#[derive(Clone, Copy, Debug, PartialEq, Eq)]
pub enum PlaceVerb {
    OfPage,
    Advise,
}

/// First words of commands.
#[derive(Clone, Copy, Debug, PartialEq, Eq)]
pub enum Verb {
    Event { verb: EventVerb },
    Number { verb: NumberVerb },
    Name { verb: NameVerb },
    Alone { verb: AloneVerb },
    OfVm,
    Place { verb: PlaceVerb },
    WhatIf,
}

/// The command that begins with a word: looked for among the words of its length.
pub fn verb_of(word: &str) -> Option<Verb>
    ensures found { IfSome result (λ verb. word.now ≡ verb_word verb) }
    ensures only { IfNone result ((verb : Verb) → word.now ≡ verb_word verb → ⊥) }
{
    match word.len() {
        4 => verb_of_four(word),
        5 => verb_of_five(word),
        2 => match word {
            VM => Some(Verb::OfVm),
            _ => None,
        },
        3 => match word {
            SUM => Some(Verb::Alone {
                verb: AloneVerb::Sum,
            }),
            ASK => Some(Verb::Event {
                verb: EventVerb::Machine {
                    verb: MachineEvent::Ask,
                },
            }),
            TAX => Some(Verb::Event {
                verb: EventVerb::SetTax,
            }),
            _ => None,
        },
        6 => match word {
            ADVISE => Some(Verb::Place {
                verb: PlaceVerb::Advise,
            }),
            SAMPLE => Some(Verb::Event {
                verb: EventVerb::Sample,
            }),
            WHATIF => Some(Verb::WhatIf),
            SHARES => Some(Verb::Event {
                verb: EventVerb::Place {
                    verb: PlaceEvent::SetShares,
                },
            }),
            _ => None,
        },
        7 => match word {
            SWAPOUT => Some(Verb::Event {
                verb: EventVerb::SwapOut,
            }),
            REPLACE => Some(Verb::Event {
                verb: EventVerb::Replace,
            }),
            _ => None,
        },
        8 => match word {
            TAKEBACK => Some(Verb::Event {
                verb: EventVerb::Place {
                    verb: PlaceEvent::TakeBack,
                },
            }),
            _ => None,
        },
        9 => match word {
            REBALANCE => Some(Verb::Event {
                verb: EventVerb::Rebalance,
            }),
            _ => None,
        },
        _ => None,
    }
}

/// The same, for words of four letters: those of accesses and questions first.
#[inline(always)]
fn verb_of_four(word: &str) -> Option<Verb>
    requires { length word.now ≡ 4 }
    ensures found { IfSome result (λ verb. word.now ≡ verb_word verb) }
    ensures only { IfNone result ((verb : Verb) → word.now ≡ verb_word verb → ⊥) }
{
    match word {
        PAGE => Some(Verb::Place {
            verb: PlaceVerb::OfPage,
        }),
        READ => Some(Verb::Event {
            verb: EventVerb::Read,
        }),
        _ => other_verb_of_four(word),
    }
}

/// The same, for the others.
#[inline(never)]
fn other_verb_of_four(word: &str) -> Option<Verb>
    requires four { length word.now ≡ 4 }
    requires page { word.now ≡ verb_word (verbs.Place places.OfPage) → ⊥ }
    requires read { word.now ≡ verb_word (verbs.Event events.Read) → ⊥ }
    ensures found { IfSome result (λ verb. word.now ≡ verb_word verb) }
    ensures only { IfNone result ((verb : Verb) → word.now ≡ verb_word verb → ⊥) }
{
    match word {
        SCAN => Some(Verb::Event {
            verb: EventVerb::Place {
                verb: PlaceEvent::Scan,
            },
        }),
        LEND => Some(Verb::Event {
            verb: EventVerb::Place {
                verb: PlaceEvent::Lend,
            },
        }),
        UNDO => Some(Verb::Number {
            verb: NumberVerb::Undo,
        }),
        REDO => Some(Verb::Number {
            verb: NumberVerb::Redo,
        }),
        GOTO => Some(Verb::Number {
            verb: NumberVerb::Goto,
        }),
        MARK => Some(Verb::Name {
            verb: NameVerb::Mark,
        }),
        STOP => Some(Verb::Event {
            verb: EventVerb::Machine {
                verb: MachineEvent::Stop,
            },
        }),
        DROP => Some(Verb::Event {
            verb: EventVerb::Place {
                verb: PlaceEvent::DropPage,
            },
        }),
        GONE => Some(Verb::Event {
            verb: EventVerb::Machine {
                verb: MachineEvent::Gone,
            },
        }),
        _ => None,
    }
}

/// The same, for words of five letters.
#[inline(always)]
fn verb_of_five(word: &str) -> Option<Verb>
    requires { length word.now ≡ 5 }
    ensures found { IfSome result (λ verb. word.now ≡ verb_word verb) }
    ensures only { IfNone result ((verb : Verb) → word.now ≡ verb_word verb → ⊥) }
{
    match word {
        WRITE => Some(Verb::Event {
            verb: EventVerb::Write,
        }),
        WHERE => Some(Verb::Alone {
            verb: AloneVerb::Stand,
        }),
        START => Some(Verb::Event {
            verb: EventVerb::Machine {
                verb: MachineEvent::Start,
            },
        }),
        ADMIT => Some(Verb::Event {
            verb: EventVerb::Admit,
        }),
        VISIT => Some(Verb::Name {
            verb: NameVerb::Visit,
        }),
        MARKS => Some(Verb::Alone {
            verb: AloneVerb::Marks,
        }),
        PRUNE => Some(Verb::Number {
            verb: NumberVerb::Prune,
        }),
        TABLE => Some(Verb::Alone {
            verb: AloneVerb::Table,
        }),
        VMTAX => Some(Verb::Event {
            verb: EventVerb::Place {
                verb: PlaceEvent::SetVmTax,
            },
        }),
        _ => None,
    }
}

/// The event that begins with a word.
pub fn event_verb_of(word: &str) -> Option<EventVerb>
    ensures found { IfSome result (λ verb. word.now ≡ event_word verb) }
    ensures only { IfNone result ((verb : EventVerb) → word.now ≡ event_word verb → ⊥) }
{
    let Some(verb) = verb_of(word) else {
        return None;
    };
    match verb {
        Verb::Event { verb } => Some(verb),
        _ => None,
    }
}
