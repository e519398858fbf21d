//! How the workers of a run ended, a line for each.

ghost use Rattle.std.specs.Prelude.{◌≡◌, ◌+◌, ◌++◌, [], codes, flat_map, map, IfOk, OnOk, IsUtf8};
ghost use Rattle.esx_opening.specs.Orders.{in_order};
ghost use Rattle.esx_writing.specs.Writing.{Writes, Puts, sink_faults};
ghost use Rattle.esx_program.specs.Ends.{how_text, name_text, ending_text, workers_named, endings};

use esx_opening::in_order;
use esx_scenario::Guest;
use esx_types::{Sink, SinkFailed, VmId};
use esx_work::{End, How};
use esx_writing::{AnswerBuffer, Piece, put_pieces, write_held};
use std::alloc::{AllocError, Global};

/// Who a worker of a run is: the guest of a virtual machine, or one of those that there is one of.
#[derive(Clone, Copy, Debug, PartialEq, Eq)]
pub enum Name {
    Guest(VmId),
    Sharer,
    Swapper,
    Policy,
}

/// How a worker ended.
#[derive(Clone, Copy, Debug, PartialEq, Eq)]
pub struct Ending {
    pub name: Name,
    pub how: How,
}

fn guests_named(alloc: Global, guests: &[&Guest]) -> Result<Vec<Name>, AllocError>
    ensures { IfOk result (λ names. names.items ≡ map (λ g. Name.Guest g.now.vm) guests.now) }
{
    guests
        .iter()
        .map(|guest| Name::Guest(guest.vm))
        .collect(alloc)
}

/// The workers of a run, in their order.
pub fn names_of(alloc: Global, guests: &[Guest]) -> Result<Vec<Name>, AllocError>
    ensures { IfOk result (λ names. names.items ≡ workers_named (in_order guests.now)) }
{
    let ordered = in_order(alloc, guests)?;
    let mut names = guests_named(alloc, &ordered)?;
    names.push(Name::Sharer)?;
    names.push(Name::Swapper)?;
    names.push(Name::Policy)?;
    Ok(names)
}

/// How each of these workers ended.
pub fn endings_of(alloc: Global, names: &[Name], ends: &[End]) -> Result<Vec<Ending>, AllocError>
    ensures { IfOk result (λ e. e.items ≡ endings names.now ends.now) }
{
    names
        .iter()
        .zip(ends)
        .map(|(name, end)| Ending {
            name: *name,
            how: end.how,
        })
        .collect(alloc)
}

fn how_word(how: How) -> &'static str
    ensures { result.now ≡ how_text how }
{
    match how {
        How::Done => "done",
        How::Turns => "turns",
        How::Rewound => "rewound",
    }
}

fn put_name<W: Sink>(sink: &mut W, held: &mut AnswerBuffer, name: Name) -> Result<(), SinkFailed>
    ensures bytes { Puts (W.contents sink.old) held.old (W.contents sink.new) held.new (name_text name) result }
    ensures utf8 { OnOk result (IsUtf8 (name_text name)) }
    ensures failures { W.failures sink.new ≡ W.failures sink.old + sink_faults result }
    ensures flushes { W.flushes sink.new ≡ W.flushes sink.old }
{
    match name {
        Name::Guest(vm) => put_pieces(
            sink,
            held,
            &[Piece::Text("guest "), Piece::Number(u64::from(vm.number()))],
        ),
        Name::Sharer => put_pieces(sink, held, &[Piece::Text("sharer")]),
        Name::Swapper => put_pieces(sink, held, &[Piece::Text("swapper")]),
        Name::Policy => put_pieces(sink, held, &[Piece::Text("policy")]),
    }
}

/// The rest of a line.
fn put_how<W: Sink>(sink: &mut W, held: &mut AnswerBuffer, how: How) -> Result<(), SinkFailed>
    ensures bytes { Puts (W.contents sink.old) held.old (W.contents sink.new) held.new (codes " " ++ (how_text how ++ codes "\n")) result }
    ensures utf8 { OnOk result (IsUtf8 (codes " " ++ (how_text how ++ codes "\n"))) }
    ensures failures { W.failures sink.new ≡ W.failures sink.old + sink_faults result }
    ensures flushes { W.flushes sink.new ≡ W.flushes sink.old }
{
    put_pieces(
        sink,
        held,
        &[
            Piece::Text(" "),
            Piece::Text(how_word(how)),
            Piece::Text("\n"),
        ],
    )
}

fn put_ending<W: Sink>(
    sink: &mut W,
    held: &mut AnswerBuffer,
    ending: &Ending,
) -> Result<(), SinkFailed>
    ensures bytes { Puts (W.contents sink.old) held.old (W.contents sink.new) held.new (ending_text ending.now) result }
    ensures failures { W.failures sink.new ≡ W.failures sink.old + sink_faults result }
    ensures flushes { W.flushes sink.new ≡ W.flushes sink.old }
{
    put_name(sink, held, ending.name)?;
    put_how(sink, held, ending.how)
}

fn put_endings<W: Sink>(
    sink: &mut W,
    held: &mut AnswerBuffer,
    endings: &[Ending],
) -> Result<(), SinkFailed>
    ensures bytes { Puts (W.contents sink.old) held.old (W.contents sink.new) held.new (flat_map ending_text endings.now) result }
    ensures failures { W.failures sink.new ≡ W.failures sink.old + sink_faults result }
    ensures flushes { W.flushes sink.new ≡ W.flushes sink.old }
{
    for ending in endings {
        put_ending(sink, held, ending)?;
    }
    Ok(())
}

/// Writes how the workers ended, each in a line, over an empty buffer.
pub fn write_endings<W: Sink>(
    sink: &mut W,
    held: &mut AnswerBuffer,
    endings: &[Ending],
) -> Result<(), SinkFailed>
    requires { held.old ≡ [] }
    ensures bytes { Writes (W.contents sink.old) (W.contents sink.new) (flat_map ending_text endings.now) result }
    ensures empty { held.new ≡ [] }
    ensures failures { W.failures sink.new ≡ W.failures sink.old + sink_faults result }
    ensures flushes { W.flushes sink.new ≡ W.flushes sink.old }
{
    put_endings(sink, held, endings)?;
    write_held(sink, held)
}
