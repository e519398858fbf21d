//! Events as lines: which event a line asks for.

ghost use Rattle.std.specs.Prelude.{◌≡◌, ◌∷◌, [], ◌<◌, decimal, IfOk, IfSome, IfNone, OnErr};
ghost use Rattle.esx_types.specs.declared.config.TheConstants.{VM_NUMBERS};
ghost use Rattle.esx_events.specs.declared.event.Event.{Event};
ghost use Rattle.esx_reading.specs.Fields.{fields};
ghost use Rattle.esx_words.specs.Kinds.{Values, AreValues, value_words, TakeMemory};
ghost use Rattle.esx_words.specs.Verbs.{event_word};
ghost use Rattle.esx_words.specs.Commands.{event_kinds, event_words, IsEventInRange, SpellsEvent, EventTakesMemory};
ghost use Rattle.esx_words.specs.declared.verbs.EventVerb.TheVariants as events;

use crate::operands::{drawn, drawn_place, machine, number, place, range, sampled, spec, written};
use crate::verbs::{EventVerb, MachineEvent, PlaceEvent, event_verb_of};
use esx_events::Event;
use esx_reading::Fields;
use esx_types::VmId;
use std::alloc::{AllocError, Global};

fn machine_event(verb: MachineEvent, vm: VmId) -> Event
    ensures words { event_words result ≡ event_word (events.Machine verb) ∷ decimal vm ∷ [] }
    ensures range { vm < VM_NUMBERS → IsEventInRange result }
{
    match verb {
        MachineEvent::Start => Event::Start { vm },
        MachineEvent::Ask => Event::Ask { vm },
        MachineEvent::Stop => Event::Stop { vm },
        MachineEvent::Gone => Event::Gone { vm },
    }
}

fn place_event(verb: PlaceEvent, vm: VmId, number: u32) -> Event
    ensures words { event_words result ≡ event_word (events.Place verb) ∷ decimal vm ∷ decimal number ∷ [] }
    ensures range { vm < VM_NUMBERS → IsEventInRange result }
{
    match verb {
        PlaceEvent::Lend => Event::Lend { vm, page: number },
        PlaceEvent::TakeBack => Event::TakeBack { vm, page: number },
        PlaceEvent::Scan => Event::Scan { vm, page: number },
        PlaceEvent::DropPage => Event::DropPage { vm, page: number },
        PlaceEvent::SetShares => Event::SetShares { vm, shares: number },
        PlaceEvent::SetVmTax => Event::SetVmTax { vm, tau: number },
    }
}

/// The event whose operands are left, if they are those of one.
#[inline(always)]
pub fn event_of(
    alloc: Global,
    verb: EventVerb,
    fields: &mut Fields,
) -> Result<Option<Event>, AllocError>
    ensures found { IfOk result (λ found. IfSome found (λ event. IsEventInRange event × (event_word verb ∷ fields.old ≡ event_words event))) }
    ensures only { IfOk result (λ found. IfNone found ((x : Values (event_kinds verb)) → AreValues (event_kinds verb) x
        → fields.old ≡ value_words (event_kinds verb) x → ⊥)) }
    ensures memory { OnErr result (TakeMemory (event_kinds verb) fields.old) }
{
    match verb {
        EventVerb::Admit => match spec(fields) {
            Some((vm, spec)) => Ok(Some(Event::Admit { vm, spec })),
            None => Ok(None),
        },
        EventVerb::Machine { verb } => match machine(fields) {
            Some(vm) => Ok(Some(machine_event(verb, vm))),
            None => Ok(None),
        },
        EventVerb::Place { verb } => match place(fields) {
            Some((vm, number)) => Ok(Some(place_event(verb, vm, number))),
            None => Ok(None),
        },
        EventVerb::Read => match range(fields) {
            Some((vm, page, at, len)) => Ok(Some(Event::Read { vm, page, at, len })),
            None => Ok(None),
        },
        EventVerb::Write => match written(alloc, fields)? {
            Some((vm, page, at, bytes)) => Ok(Some(Event::Write {
                vm,
                page,
                at,
                bytes,
            })),
            None => Ok(None),
        },
        EventVerb::Sample => match sampled(alloc, fields)? {
            Some((vm, length, words)) => Ok(Some(Event::Sample { vm, length, words })),
            None => Ok(None),
        },
        EventVerb::Rebalance => {
            if fields.is_empty() {
                Ok(Some(Event::Rebalance))
            } else {
                Ok(None)
            }
        }
        EventVerb::SwapOut => match drawn(fields) {
            Some((vm, word)) => Ok(Some(Event::SwapOut { vm, word })),
            None => Ok(None),
        },
        EventVerb::Replace => match drawn_place(fields) {
            Some((vm, page, word)) => Ok(Some(Event::Replace { vm, page, word })),
            None => Ok(None),
        },
        EventVerb::SetTax => match number(fields) {
            Some(tau) => Ok(Some(Event::SetTax { tau })),
            None => Ok(None),
        },
    }
}

/// The event whose fields these are, if they are those of one.
fn event_of_fields(alloc: Global, fields: &mut Fields) -> Result<Option<Event>, AllocError>
    ensures found { IfOk result (λ found. IfSome found (λ event. IsEventInRange event × (fields.old ≡ event_words event))) }
    ensures only { IfOk result (λ found. IfNone found ((event : Event) → IsEventInRange event → fields.old ≡ event_words event → ⊥)) }
    ensures memory { OnErr result (EventTakesMemory fields.old) }
{
    let Some(word) = fields.next() else {
        return Ok(None);
    };
    let Some(verb) = event_verb_of(word) else {
        return Ok(None);
    };
    event_of(alloc, verb, fields)
}

/// The event of a text, if it is that of one.
pub fn event_of_text(alloc: Global, text: &str) -> Result<Option<Event>, AllocError>
    ensures found { IfOk result (λ found. IfSome found (λ event. SpellsEvent text.now event)) }
    ensures only { IfOk result (λ found. IfNone found ((event : Event) → SpellsEvent text.now event → ⊥)) }
    ensures memory { OnErr result (EventTakesMemory (fields text.now)) }
{
    event_of_fields(alloc, &mut Fields::of(text))
}
