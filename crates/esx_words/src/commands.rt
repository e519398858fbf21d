//! Commands as lines: which call a line asks for.

ghost use Rattle.std.specs.Prelude.{◌≡◌, ◌∷◌, [], ◌<◌, decimal, IfOk, IfSome, IfNone, OnErr};
ghost use Rattle.esx_types.specs.declared.config.TheConstants.{VM_NUMBERS};
ghost use Rattle.esx_events.specs.Names.{IsName};
ghost use Rattle.esx_events.specs.declared.call.Call.{Call};
ghost use Rattle.esx_words.specs.Verbs.{verb_word};
ghost use Rattle.esx_words.specs.Commands.{verb_form, words_of, IsInRange, Operands, AreOperands, OperandsTakeMemory, operand_words, Spells, BeginTakingMemory, MayTakeMemory};
ghost use Rattle.esx_words.specs.declared.verbs.Verb.TheVariants as verbs;

use crate::event::event_of;
use crate::listed::tried;
use crate::operands::{machine, name, number, place};
use crate::verbs::{AloneVerb, NameVerb, NumberVerb, PlaceVerb, Verb, verb_of};
use esx_events::{Call, Name};
use esx_reading::Fields;
use esx_types::VmId;
use std::alloc::{AllocError, Global};

fn number_call(verb: NumberVerb, number: u32) -> Call
    ensures words { words_of result ≡ verb_word (verbs.Number verb) ∷ decimal number ∷ [] }
    ensures range { IsInRange result }
{
    match verb {
        NumberVerb::Undo => Call::Undo { count: number },
        NumberVerb::Redo => Call::Redo { count: number },
        NumberVerb::Goto => Call::Goto { node: number },
        NumberVerb::Prune => Call::Prune { node: number },
    }
}

fn name_call(verb: NameVerb, name: Name) -> Call
    ensures words { words_of result ≡ verb_word (verbs.Name verb) ∷ name ∷ [] }
    ensures range { IsName name → IsInRange result }
{
    match verb {
        NameVerb::Visit => Call::Visit { name },
        NameVerb::Mark => Call::Mark { name },
    }
}

fn alone_call(verb: AloneVerb) -> Call
    ensures words { words_of result ≡ verb_word (verbs.Alone verb) ∷ [] }
    ensures range { IsInRange result }
{
    match verb {
        AloneVerb::Sum => Call::Sum,
        AloneVerb::Table => Call::Table,
        AloneVerb::Stand => Call::Stand,
        AloneVerb::Marks => Call::Marks,
    }
}

fn place_call(verb: PlaceVerb, vm: VmId, page: u32) -> Call
    ensures words { words_of result ≡ verb_word (verbs.Place verb) ∷ decimal vm ∷ decimal page ∷ [] }
    ensures range { vm < VM_NUMBERS → IsInRange result }
{
    match verb {
        PlaceVerb::OfPage => Call::OfPage { vm, page },
        PlaceVerb::Advise => Call::Advise { vm, page },
    }
}

/// The call whose operands are left, if they are those of one.
#[inline(always)]
fn operands_of(alloc: Global, verb: Verb, fields: &mut Fields) -> Result<Option<Call>, AllocError>
    ensures found { IfOk result (λ found. IfSome found (λ call. IsInRange call × (verb_word verb ∷ fields.old ≡ words_of call))) }
    ensures only { IfOk result (λ found. IfNone found ((x : Operands (verb_form verb)) → AreOperands (verb_form verb) x
        → fields.old ≡ operand_words (verb_form verb) x → ⊥)) }
    ensures memory { OnErr result (OperandsTakeMemory (verb_form verb) fields.old) }
{
    match verb {
        Verb::Event { verb } => match event_of(alloc, verb, fields)? {
            Some(event) => Ok(Some(Call::Do { event })),
            None => Ok(None),
        },
        Verb::Number { verb } => match number(fields) {
            Some(number) => Ok(Some(number_call(verb, number))),
            None => Ok(None),
        },
        Verb::Name { verb } => match name(alloc, fields)? {
            Some(name) => Ok(Some(name_call(verb, name))),
            None => Ok(None),
        },
        Verb::Alone { verb } => {
            if fields.is_empty() {
                Ok(Some(alone_call(verb)))
            } else {
                Ok(None)
            }
        }
        Verb::OfVm => match machine(fields) {
            Some(vm) => Ok(Some(Call::OfVm { vm })),
            None => Ok(None),
        },
        Verb::Place { verb } => match place(fields) {
            Some((vm, page)) => Ok(Some(place_call(verb, vm, page))),
            None => Ok(None),
        },
        Verb::WhatIf => match tried(alloc, fields)? {
            Some(events) => Ok(Some(Call::WhatIf { events })),
            None => Ok(None),
        },
    }
}

/// The call whose fields these are, if they are those of one.
#[inline(always)]
fn call_of(alloc: Global, fields: &mut Fields) -> Result<Option<Call>, AllocError>
    ensures found { IfOk result (λ found. IfSome found (λ call. IsInRange call × (fields.old ≡ words_of call))) }
    ensures only { IfOk result (λ found. IfNone found ((call : Call) → IsInRange call → fields.old ≡ words_of call → ⊥)) }
    ensures memory { OnErr result (BeginTakingMemory fields.old) }
{
    let Some(word) = fields.next() else {
        return Ok(None);
    };
    let Some(verb) = verb_of(word) else {
        return Ok(None);
    };
    operands_of(alloc, verb, fields)
}

/// The call of a command line, `None` if the line is no command. Memory is taken for names, bytes, the words of a
/// sample and tried events, once what stands before them has been read, and for nothing else.
pub fn parse_command(alloc: Global, text: &str) -> Result<Option<Call>, AllocError>
    ensures found { IfOk result (λ found. IfSome found (λ call. Spells text.now call)) }
    ensures only { IfOk result (λ found. IfNone found ((call : Call) → Spells text.now call → ⊥)) }
    ensures memory { OnErr result (MayTakeMemory text.now) }
{
    call_of(alloc, &mut Fields::of(text))
}
