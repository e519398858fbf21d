//! Commands as text, for sessions.

ghost use Rattle.std.specs.Prelude.{◌≡◌, ◌+◌, ◌≤◌, ◌++◌, ◌∷◌, [], IfOk, OnOk, IsUtf8, string_bytes, codes, decimal, flat_map};
ghost use Rattle.hex.specs.Hex.{encode_lower};
ghost use Rattle.esx_reading.specs.Fields.{joined};
ghost use Rattle.esx_words.specs.Commands.{event_words, spelling};
ghost use Rattle.esx_writing.specs.Writing.{Writes, Puts, sink_faults};
ghost use Rattle.esx_words.specs.Kinds.{perhaps_number};
ghost use Rattle.esx_words.specs.Printing.{word_text, perhaps_text, spec_head, next_text, sample_head, tried_head};
ghost use Rattle.esx_events.specs.Lists.{IsTriable};
ghost use Rattle.esx_events.specs.declared.call.Call.TheVariants as calls;

use crate::verbs;
use esx_events::{Call, Event, Name};
use esx_types::{MemorySink, Sink, SinkFailed, VmId, VmSpec};
use esx_writing::{AnswerBuffer, Hex, line, put_line, write_held};
use std::alloc::{AllocError, Global};
use std::marker::Brand;
use std::sync::ledger::{Blank, Ledger};

/// A first word and a virtual machine.
fn put_machine<W: Sink>(
    sink: &mut W,
    held: &mut AnswerBuffer,
    verb: &str,
    vm: VmId,
) -> Result<(), SinkFailed>
    ensures bytes { Puts (W.contents sink.old) held.old (W.contents sink.new) held.new (joined (verb.now ∷ decimal vm ∷ [])) result }
    ensures utf8 { OnOk result (IsUtf8 (joined (verb.now ∷ decimal vm ∷ []))) }
    ensures failures { W.failures sink.new ≡ W.failures sink.old + sink_faults result }
    ensures flushes { W.flushes sink.new ≡ W.flushes sink.old }
{
    put_line(sink, held, &line![verb, " ", u64::from(vm.number())])
}

/// A first word and a number.
fn put_number<W: Sink>(
    sink: &mut W,
    held: &mut AnswerBuffer,
    verb: &str,
    number: u32,
) -> Result<(), SinkFailed>
    ensures bytes { Puts (W.contents sink.old) held.old (W.contents sink.new) held.new (joined (verb.now ∷ decimal number ∷ [])) result }
    ensures utf8 { OnOk result (IsUtf8 (joined (verb.now ∷ decimal number ∷ []))) }
    ensures failures { W.failures sink.new ≡ W.failures sink.old + sink_faults result }
    ensures flushes { W.flushes sink.new ≡ W.flushes sink.old }
{
    put_line(sink, held, &line![verb, " ", u64::from(number)])
}

/// A first word, a virtual machine and a number.
fn put_place<W: Sink>(
    sink: &mut W,
    held: &mut AnswerBuffer,
    verb: &str,
    vm: VmId,
    page: u32,
) -> Result<(), SinkFailed>
    ensures bytes { Puts (W.contents sink.old) held.old (W.contents sink.new) held.new (joined (verb.now ∷ decimal vm ∷ decimal page ∷ [])) result }
    ensures utf8 { OnOk result (IsUtf8 (joined (verb.now ∷ decimal vm ∷ decimal page ∷ []))) }
    ensures failures { W.failures sink.new ≡ W.failures sink.old + sink_faults result }
    ensures flushes { W.flushes sink.new ≡ W.flushes sink.old }
{
    put_line(
        sink,
        held,
        &line![verb, " ", u64::from(vm.number()), " ", u64::from(page)],
    )
}

/// A first word, a virtual machine and a word.
fn put_drawn<W: Sink>(
    sink: &mut W,
    held: &mut AnswerBuffer,
    verb: &str,
    vm: VmId,
    word: u64,
) -> Result<(), SinkFailed>
    ensures bytes { Puts (W.contents sink.old) held.old (W.contents sink.new) held.new (joined (verb.now ∷ decimal vm ∷ decimal word ∷ [])) result }
    ensures utf8 { OnOk result (IsUtf8 (joined (verb.now ∷ decimal vm ∷ decimal word ∷ []))) }
    ensures failures { W.failures sink.new ≡ W.failures sink.old + sink_faults result }
    ensures flushes { W.flushes sink.new ≡ W.flushes sink.old }
{
    put_line(
        sink,
        held,
        &line![verb, " ", u64::from(vm.number()), " ", word],
    )
}

/// A first word, a virtual machine, a number and a word.
fn put_drawn_place<W: Sink>(
    sink: &mut W,
    held: &mut AnswerBuffer,
    verb: &str,
    vm: VmId,
    page: u32,
    word: u64,
) -> Result<(), SinkFailed>
    ensures bytes { Puts (W.contents sink.old) held.old (W.contents sink.new) held.new (joined (verb.now ∷ decimal vm ∷ decimal page ∷ decimal word ∷ [])) result }
    ensures utf8 { OnOk result (IsUtf8 (joined (verb.now ∷ decimal vm ∷ decimal page ∷ decimal word ∷ []))) }
    ensures failures { W.failures sink.new ≡ W.failures sink.old + sink_faults result }
    ensures flushes { W.flushes sink.new ≡ W.flushes sink.old }
{
    put_line(
        sink,
        held,
        &line![
            verb,
            " ",
            u64::from(vm.number()),
            " ",
            u64::from(page),
            " ",
            word,
        ],
    )
}

/// A first word, a virtual machine and three numbers.
fn put_range<W: Sink>(
    sink: &mut W,
    held: &mut AnswerBuffer,
    verb: &str,
    vm: VmId,
    page: u32,
    at: u32,
    len: u32,
) -> Result<(), SinkFailed>
    ensures bytes { Puts (W.contents sink.old) held.old (W.contents sink.new) held.new (joined (verb.now ∷ decimal vm ∷ decimal page ∷ decimal at ∷ decimal len ∷ [])) result }
    ensures utf8 { OnOk result (IsUtf8 (joined (verb.now ∷ decimal vm ∷ decimal page ∷ decimal at ∷ decimal len ∷ []))) }
    ensures failures { W.failures sink.new ≡ W.failures sink.old + sink_faults result }
    ensures flushes { W.flushes sink.new ≡ W.flushes sink.old }
{
    put_line(
        sink,
        held,
        &line![
            verb,
            " ",
            u64::from(vm.number()),
            " ",
            u64::from(page),
            " ",
            u64::from(at),
            " ",
            u64::from(len),
        ],
    )
}

/// A first word, a virtual machine, two numbers and bytes.
fn put_written<'x, W: Sink>(
    sink: &mut W,
    held: &mut AnswerBuffer,
    verb: &'x str,
    vm: VmId,
    page: u32,
    at: u32,
    bytes: &'x [u8],
) -> Result<(), SinkFailed>
    ensures bytes { Puts (W.contents sink.old) held.old (W.contents sink.new) held.new (joined (verb.now ∷ decimal vm ∷ decimal page ∷ decimal at ∷ encode_lower bytes.now ∷ [])) result }
    ensures utf8 { OnOk result (IsUtf8 (joined (verb.now ∷ decimal vm ∷ decimal page ∷ decimal at ∷ encode_lower bytes.now ∷ []))) }
    ensures failures { W.failures sink.new ≡ W.failures sink.old + sink_faults result }
    ensures flushes { W.flushes sink.new ≡ W.flushes sink.old }
{
    put_line(
        sink,
        held,
        &line![
            verb,
            " ",
            u64::from(vm.number()),
            " ",
            u64::from(page),
            " ",
            u64::from(at),
            " ",
            Hex { bytes },
        ],
    )
}

/// A first word, a virtual machine and what it asks for, but for a tax of its own.
fn put_spec_head<W: Sink>(
    sink: &mut W,
    held: &mut AnswerBuffer,
    verb: &str,
    vm: VmId,
    spec: VmSpec,
) -> Result<(), SinkFailed>
    ensures bytes { Puts (W.contents sink.old) held.old (W.contents sink.new) held.new (spec_head verb.now vm spec) result }
    ensures utf8 { OnOk result (IsUtf8 (spec_head verb.now vm spec)) }
    ensures failures { W.failures sink.new ≡ W.failures sink.old + sink_faults result }
    ensures flushes { W.flushes sink.new ≡ W.flushes sink.old }
{
    put_line(
        sink,
        held,
        &line![
            verb,
            " ",
            u64::from(vm.number()),
            " ",
            u64::from(spec.min),
            " ",
            u64::from(spec.max),
            " ",
            u64::from(spec.overhead),
            " ",
            u64::from(spec.shares),
            " ",
            u64::from(spec.balloon_max),
        ],
    )
}

/// A further word.
fn put_word<W: Sink>(sink: &mut W, held: &mut AnswerBuffer, word: u64) -> Result<(), SinkFailed>
    ensures bytes { Puts (W.contents sink.old) held.old (W.contents sink.new) held.new (word_text word) result }
    ensures utf8 { OnOk result (IsUtf8 (word_text word)) }
    ensures failures { W.failures sink.new ≡ W.failures sink.old + sink_faults result }
    ensures flushes { W.flushes sink.new ≡ W.flushes sink.old }
{
    put_line(sink, held, &line![" ", word])
}

/// A further number, if there is one.
fn put_perhaps_number<W: Sink>(
    sink: &mut W,
    held: &mut AnswerBuffer,
    number: Option<u32>,
) -> Result<(), SinkFailed>
    ensures bytes { Puts (W.contents sink.old) held.old (W.contents sink.new) held.new (perhaps_text number) result }
    ensures utf8 { OnOk result (IsUtf8 (perhaps_text number)) }
    ensures failures { W.failures sink.new ≡ W.failures sink.old + sink_faults result }
    ensures flushes { W.flushes sink.new ≡ W.flushes sink.old }
{
    match number {
        Some(number) => put_word(sink, held, u64::from(number)),
        None => Ok(()),
    }
}

/// A first word, a virtual machine and what it asks for.
fn put_spec<W: Sink>(
    sink: &mut W,
    held: &mut AnswerBuffer,
    verb: &str,
    vm: VmId,
    spec: VmSpec,
) -> Result<(), SinkFailed>
    ensures bytes { Puts (W.contents sink.old) held.old (W.contents sink.new) held.new (joined (verb.now ∷ decimal vm ∷ decimal spec.min ∷ decimal spec.max ∷ decimal spec.overhead ∷ decimal spec.shares ∷ decimal spec.balloon_max ∷ perhaps_number spec.tau)) result }
    ensures utf8 { OnOk result (IsUtf8 (joined (verb.now ∷ decimal vm ∷ decimal spec.min ∷ decimal spec.max ∷ decimal spec.overhead ∷ decimal spec.shares ∷ decimal spec.balloon_max ∷ perhaps_number spec.tau))) }
    ensures failures { W.failures sink.new ≡ W.failures sink.old + sink_faults result }
    ensures flushes { W.flushes sink.new ≡ W.flushes sink.old }
{
    put_spec_head(sink, held, verb, vm, spec)?;
    put_perhaps_number(sink, held, spec.tau)
}

/// A first word and a name.
fn put_name<'x, W: Sink>(
    sink: &mut W,
    held: &mut AnswerBuffer,
    verb: &'x str,
    name: &'x Name,
) -> Result<(), SinkFailed>
    ensures bytes { Puts (W.contents sink.old) held.old (W.contents sink.new) held.new (joined (verb.now ∷ name.now ∷ [])) result }
    ensures utf8 { OnOk result (IsUtf8 (joined (verb.now ∷ name.now ∷ []))) }
    ensures failures { W.failures sink.new ≡ W.failures sink.old + sink_faults result }
    ensures flushes { W.flushes sink.new ≡ W.flushes sink.old }
{
    put_line(sink, held, &line![verb, " ", name.as_str()])
}

/// A first word alone.
fn put_alone<W: Sink>(sink: &mut W, held: &mut AnswerBuffer, verb: &str) -> Result<(), SinkFailed>
    ensures bytes { Puts (W.contents sink.old) held.old (W.contents sink.new) held.new (joined (verb.now ∷ [])) result }
    ensures utf8 { OnOk result (IsUtf8 (joined (verb.now ∷ []))) }
    ensures failures { W.failures sink.new ≡ W.failures sink.old + sink_faults result }
    ensures flushes { W.flushes sink.new ≡ W.flushes sink.old }
{
    put_line(sink, held, &verb)
}

/// Further words.
fn put_sample_words<W: Sink>(
    sink: &mut W,
    held: &mut AnswerBuffer,
    words: &[u64],
) -> Result<(), SinkFailed>
    ensures bytes { Puts (W.contents sink.old) held.old (W.contents sink.new) held.new (flat_map word_text words.now) result }
    ensures utf8 { OnOk result (IsUtf8 (flat_map word_text words.now)) }
    ensures failures { W.failures sink.new ≡ W.failures sink.old + sink_faults result }
    ensures flushes { W.flushes sink.new ≡ W.flushes sink.old }
{
    for word in words {
        put_word(sink, held, *word)?;
    }
    Ok(())
}

/// A sample.
fn put_sample<W: Sink>(
    sink: &mut W,
    held: &mut AnswerBuffer,
    vm: VmId,
    length: u32,
    words: &[u64],
) -> Result<(), SinkFailed>
    ensures bytes { Puts (W.contents sink.old) held.old (W.contents sink.new) held.new (sample_head vm length ++ flat_map word_text words.now) result }
    ensures utf8 { OnOk result (IsUtf8 (sample_head vm length ++ flat_map word_text words.now)) }
    ensures failures { W.failures sink.new ≡ W.failures sink.old + sink_faults result }
    ensures flushes { W.flushes sink.new ≡ W.flushes sink.old }
{
    put_place(sink, held, verbs::SAMPLE, vm, length)?;
    put_sample_words(sink, held, words)
}

/// The spelling of an event.
pub fn put_event<W: Sink>(
    sink: &mut W,
    held: &mut AnswerBuffer,
    event: &Event,
) -> Result<(), SinkFailed>
    ensures bytes { Puts (W.contents sink.old) held.old (W.contents sink.new) held.new (joined (event_words event.now)) result }
    ensures utf8 { OnOk result (IsUtf8 (joined (event_words event.now))) }
    ensures failures { W.failures sink.new ≡ W.failures sink.old + sink_faults result }
    ensures flushes { W.flushes sink.new ≡ W.flushes sink.old }
{
    match event {
        Event::Admit { vm, spec } => put_spec(sink, held, verbs::ADMIT, *vm, *spec),
        Event::Start { vm } => put_machine(sink, held, verbs::START, *vm),
        Event::Read { vm, page, at, len } => put_range(
            sink,
            held,
            verbs::READ,
            *vm,
            *page,
            *at,
            *len,
        ),
        Event::Write {
            vm,
            page,
            at,
            bytes,
        } => put_written(sink, held, verbs::WRITE, *vm, *page, *at, bytes.as_slice()),
        Event::Ask { vm } => put_machine(sink, held, verbs::ASK, *vm),
        Event::Lend { vm, page } => put_place(sink, held, verbs::LEND, *vm, *page),
        Event::TakeBack { vm, page } => put_place(sink, held, verbs::TAKEBACK, *vm, *page),
        Event::Sample { vm, length, words } => put_sample(
            sink,
            held,
            *vm,
            *length,
            words.get().as_slice(),
        ),
        Event::Rebalance => put_alone(sink, held, verbs::REBALANCE),
        Event::Scan { vm, page } => put_place(sink, held, verbs::SCAN, *vm, *page),
        Event::SwapOut { vm, word } => put_drawn(sink, held, verbs::SWAPOUT, *vm, *word),
        Event::Replace { vm, page, word } => put_drawn_place(
            sink,
            held,
            verbs::REPLACE,
            *vm,
            *page,
            *word,
        ),
        Event::SetShares { vm, shares } => put_place(sink, held, verbs::SHARES, *vm, *shares),
        Event::SetTax { tau } => put_number(sink, held, verbs::TAX, *tau),
        Event::SetVmTax { vm, tau } => put_place(sink, held, verbs::VMTAX, *vm, *tau),
        Event::Stop { vm } => put_machine(sink, held, verbs::STOP, *vm),
        Event::DropPage { vm, page } => put_place(sink, held, verbs::DROP, *vm, *page),
        Event::Gone { vm } => put_machine(sink, held, verbs::GONE, *vm),
    }
}

/// What parts tried events.
fn put_next_word<W: Sink>(sink: &mut W, held: &mut AnswerBuffer) -> Result<(), SinkFailed>
    ensures bytes { Puts (W.contents sink.old) held.old (W.contents sink.new) held.new (codes "; ") result }
    ensures utf8 { OnOk result (IsUtf8 (codes "; ")) }
    ensures failures { W.failures sink.new ≡ W.failures sink.old + sink_faults result }
    ensures flushes { W.flushes sink.new ≡ W.flushes sink.old }
{
    put_line(sink, held, &"; ")
}

/// A further event that is tried.
fn put_next<W: Sink>(sink: &mut W, held: &mut AnswerBuffer, event: &Event) -> Result<(), SinkFailed>
    ensures bytes { Puts (W.contents sink.old) held.old (W.contents sink.new) held.new (next_text event.now) result }
    ensures utf8 { OnOk result (IsUtf8 (next_text event.now)) }
    ensures failures { W.failures sink.new ≡ W.failures sink.old + sink_faults result }
    ensures flushes { W.flushes sink.new ≡ W.flushes sink.old }
{
    put_next_word(sink, held)?;
    put_event(sink, held, event)
}

/// Further events that are tried.
fn put_others<W: Sink>(
    sink: &mut W,
    held: &mut AnswerBuffer,
    events: &[Event],
) -> Result<(), SinkFailed>
    ensures bytes { Puts (W.contents sink.old) held.old (W.contents sink.new) held.new (flat_map next_text events.now) result }
    ensures utf8 { OnOk result (IsUtf8 (flat_map next_text events.now)) }
    ensures failures { W.failures sink.new ≡ W.failures sink.old + sink_faults result }
    ensures flushes { W.flushes sink.new ≡ W.flushes sink.old }
{
    for event in events {
        put_next(sink, held, event)?;
    }
    Ok(())
}

/// Events that are tried.
fn put_listed<W: Sink>(
    sink: &mut W,
    held: &mut AnswerBuffer,
    first: &Event,
    others: &[Event],
) -> Result<(), SinkFailed>
    ensures bytes { Puts (W.contents sink.old) held.old (W.contents sink.new) held.new (joined (event_words first.now) ++ flat_map next_text others.now) result }
    ensures utf8 { OnOk result (IsUtf8 (joined (event_words first.now) ++ flat_map next_text others.now)) }
    ensures failures { W.failures sink.new ≡ W.failures sink.old + sink_faults result }
    ensures flushes { W.flushes sink.new ≡ W.flushes sink.old }
{
    put_event(sink, held, first)?;
    put_others(sink, held, others)
}

/// The first word of tried events.
fn put_tried_word<W: Sink>(sink: &mut W, held: &mut AnswerBuffer) -> Result<(), SinkFailed>
    ensures bytes { Puts (W.contents sink.old) held.old (W.contents sink.new) held.new tried_head result }
    ensures utf8 { OnOk result (IsUtf8 tried_head) }
    ensures failures { W.failures sink.new ≡ W.failures sink.old + sink_faults result }
    ensures flushes { W.flushes sink.new ≡ W.flushes sink.old }
{
    put_line(sink, held, &line![verbs::WHATIF, " "])
}

/// A call that tries events.
fn put_tried<W: Sink>(
    sink: &mut W,
    held: &mut AnswerBuffer,
    first: &Event,
    others: &[Event],
) -> Result<(), SinkFailed>
    ensures bytes { Puts (W.contents sink.old) held.old (W.contents sink.new) held.new (tried_head ++ (joined (event_words first.now) ++ flat_map next_text others.now)) result }
    ensures utf8 { OnOk result (IsUtf8 (tried_head ++ (joined (event_words first.now) ++ flat_map next_text others.now))) }
    ensures failures { W.failures sink.new ≡ W.failures sink.old + sink_faults result }
    ensures flushes { W.flushes sink.new ≡ W.flushes sink.old }
{
    put_tried_word(sink, held)?;
    put_listed(sink, held, first, others)
}

/// A call that tries events, of which there are some.
fn put_events<W: Sink>(
    sink: &mut W,
    held: &mut AnswerBuffer,
    events: &[Event],
) -> Result<(), SinkFailed>
    requires { IsTriable events.now }
    ensures bytes { Puts (W.contents sink.old) held.old (W.contents sink.new) held.new (spelling (calls.WhatIf events.now)) result }
    ensures utf8 { OnOk result (IsUtf8 (spelling (calls.WhatIf events.now))) }
    ensures failures { W.failures sink.new ≡ W.failures sink.old + sink_faults result }
    ensures flushes { W.flushes sink.new ≡ W.flushes sink.old }
{
    match events.split_first() {
        Some((first, others)) => put_tried(sink, held, first, others),
        None => unreachable!(),
    }
}

/// The spelling of a call.
pub fn put_command<W: Sink>(
    sink: &mut W,
    held: &mut AnswerBuffer,
    call: &Call,
) -> Result<(), SinkFailed>
    ensures bytes { Puts (W.contents sink.old) held.old (W.contents sink.new) held.new (spelling call.now) result }
    ensures utf8 { OnOk result (IsUtf8 (spelling call.now)) }
    ensures failures { W.failures sink.new ≡ W.failures sink.old + sink_faults result }
    ensures flushes { W.flushes sink.new ≡ W.flushes sink.old }
{
    match call {
        Call::Do { event } => put_event(sink, held, event),
        Call::Undo { count } => put_number(sink, held, verbs::UNDO, *count),
        Call::Redo { count } => put_number(sink, held, verbs::REDO, *count),
        Call::Goto { node } => put_number(sink, held, verbs::GOTO, *node),
        Call::Visit { name } => put_name(sink, held, verbs::VISIT, name),
        Call::Mark { name } => put_name(sink, held, verbs::MARK, name),
        Call::Prune { node } => put_number(sink, held, verbs::PRUNE, *node),
        Call::WhatIf { events } => put_events(sink, held, events.as_slice()),
        Call::Sum => put_alone(sink, held, verbs::SUM),
        Call::Table => put_alone(sink, held, verbs::TABLE),
        Call::OfVm { vm } => put_machine(sink, held, verbs::VM, *vm),
        Call::OfPage { vm, page } => put_place(sink, held, verbs::PAGE, *vm, *page),
        Call::Advise { vm, page } => put_place(sink, held, verbs::ADVISE, *vm, *page),
        Call::Stand => put_alone(sink, held, verbs::WHERE),
        Call::Marks => put_alone(sink, held, verbs::MARKS),
    }
}

/// Writes the spelling of a call, over an empty buffer.
pub fn write_command<W: Sink>(
    sink: &mut W,
    held: &mut AnswerBuffer,
    call: &Call,
) -> Result<(), SinkFailed>
    requires { held.old ≡ [] }
    ensures bytes { Writes (W.contents sink.old) (W.contents sink.new) (spelling call.now) result }
    ensures utf8 { OnOk result (IsUtf8 (spelling call.now)) }
    ensures empty { held.new ≡ [] }
    ensures failures { W.failures sink.new ≡ W.failures sink.old + sink_faults result }
    ensures flushes { W.flushes sink.new ≡ W.flushes sink.old }
{
    put_command(sink, held, call)?;
    write_held(sink, held)
}

/// The spelling of a call, by a count of the writes.
fn call_bytes<L: Ledger>(alloc: Global, call: &Call, blank: Blank) -> Result<Vec<u8>, AllocError>
    requires name { blank.name ≡ L.name }
    requires parts { blank.parts ≡ L.parts }
    requires four { 4 ≤ blank.parts }
    ensures bytes { IfOk result (λ bytes. bytes.items ≡ spelling call.now) }
    ensures utf8 { IfOk result (λ bytes. IsUtf8 bytes.items) }
{
    let mut held = AnswerBuffer::new(alloc)?;
    let mut sink = MemorySink::<L>::new(Vec::new(alloc), blank);
    match write_command(&mut sink, &mut held, call) {
        Ok(()) => Ok(sink.into_bytes()),
        Err(SinkFailed) => Err(AllocError),
    }
}

/// The one spelling of a call. A write is read again only where it has 1 to `MAX_PAGE` bytes.
pub fn print_command(alloc: Global, call: &Call) -> Result<String, AllocError>
    ensures { IfOk result (λ text. string_bytes text ≡ spelling call.now) }
{
    let bytes = call_bytes::<Brand>(alloc, call, Blank::new(4))?;
    match String::from_utf8(bytes) {
        Ok(text) => Ok(text),
        Err(_) => unreachable!(),
    }
}
