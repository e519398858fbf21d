//! What stands in a field of a table.

ghost use Rattle.std.specs.Prelude.{◌≡◌, ◌+◌, ◌<◌, ◌≤◌, ◌*◌, ◌/◌, length, decimal};
ghost use Rattle.esx_writing.specs.Writing.{Puts, sink_faults, thousandths_text};
ghost use Rattle.esx_report.specs.Fields.{level_text, how_text, spot_text, percent_text, field_text};

use esx_story::{How, Spot};
use esx_types::{Level, Sink, SinkFailed};
use esx_writing::{AnswerBuffer, line, put_line};
use itoa::Buffer;

/// A number, a part of a whole or a word.
#[derive(Clone, Copy)]
pub enum Field {
    Empty,
    Number(u64),
    /// `W.DDD`, cut off. Nothing where `under` is 0.
    Fraction { over: u64, under: u64 },
    /// `W.D%`, cut off. Nothing where `whole` is 0.
    Percent { part: u32, whole: u32 },
    /// `K/N`.
    Place { place: u32, all: u32 },
    How(How),
    Level(Level),
    /// The kind of place where a page is.
    Spot(Spot),
}

/// The word for a level.
pub fn level_name(level: Level) -> &'static str
    ensures { result.now ≡ level_text level }
{
    match level {
        Level::High => "high",
        Level::Soft => "soft",
        Level::Hard => "hard",
        Level::Low => "low",
    }
}

/// The word for the way in which a page came or left.
pub fn how_name(how: How) -> &'static str
    ensures { result.now ≡ how_text how }
{
    match how {
        How::Balloon => "balloon",
        How::Swap => "swap",
        How::Replaced => "replace",
        How::Dropped => "drop",
        How::First => "first",
        How::Pop => "pop",
        How::SwapIn => "swapin",
        How::Share => "share",
        How::Host => "host",
        How::Cow => "cow",
        How::Own => "own",
        How::LentAway => "lend",
        How::TakenBack => "takeback",
        How::DroppedOut => "dropout",
    }
}

/// The word for the kind of place where a page is.
pub fn spot_name(spot: Spot) -> &'static str
    ensures { result.now ≡ spot_text spot }
{
    match spot {
        Spot::Untouched => "untouched",
        Spot::Here { .. } => "here",
        Spot::Out { .. } => "out",
        Spot::Lent { .. } => "lent",
    }
}

/// How many whole ones a fraction has.
#[tactic(auto, using(crate::proofs::FieldLemmas::whole_of_thousandths))]
fn whole_part(over: u64, under: u64) -> u64
    requires { 0 < under }
    ensures { result ≡ 1000 * over / under / 1000 }
{
    over / under
}

/// Puts a fraction in thousandths.
fn put_fraction<W: Sink>(
    sink: &mut W,
    held: &mut AnswerBuffer,
    over: u64,
    under: u64,
) -> Result<(), SinkFailed>
    requires { 0 < under }
    ensures bytes { Puts (W.contents sink.old) held.old (W.contents sink.new) held.new (thousandths_text (1000 * over / under)) result }
    ensures failures { W.failures sink.new ≡ W.failures sink.old + sink_faults result }
    ensures flushes { W.flushes sink.new ≡ W.flushes sink.old }
{
    let thousandths = 1000 * u128::from(over) / u128::from(under);
    put_line(
        sink,
        held,
        &line![
            whole_part(over, under),
            ".",
            (thousandths / 100 % 10) as u64,
            (thousandths / 10 % 10) as u64,
            (thousandths % 10) as u64,
        ],
    )
}

/// Puts a part in tenths of a percent.
fn put_percent<W: Sink>(
    sink: &mut W,
    held: &mut AnswerBuffer,
    part: u32,
    whole: u32,
) -> Result<(), SinkFailed>
    requires { 0 < whole }
    ensures bytes { Puts (W.contents sink.old) held.old (W.contents sink.new) held.new (percent_text (1000 * part / whole)) result }
    ensures failures { W.failures sink.new ≡ W.failures sink.old + sink_faults result }
    ensures flushes { W.flushes sink.new ≡ W.flushes sink.old }
{
    let tenths = 1000 * u64::from(part) / u64::from(whole);
    put_line(sink, held, &line![tenths / 10, ".", tenths % 10, "%"])
}

/// Puts a field, and `none` where there is nothing in it.
pub fn put_field<W: Sink>(
    sink: &mut W,
    held: &mut AnswerBuffer,
    none: &str,
    field: Field,
) -> Result<(), SinkFailed>
    ensures bytes { Puts (W.contents sink.old) held.old (W.contents sink.new) held.new (field_text none.now field) result }
    ensures failures { W.failures sink.new ≡ W.failures sink.old + sink_faults result }
    ensures flushes { W.flushes sink.new ≡ W.flushes sink.old }
{
    match field {
        Field::Empty => put_line(sink, held, &none),
        Field::Number(number) => put_line(sink, held, &number),
        Field::Fraction { over, under } => {
            if under == 0 {
                put_line(sink, held, &none)
            } else {
                put_fraction(sink, held, over, under)
            }
        }
        Field::Percent { part, whole } => {
            if whole == 0 {
                put_line(sink, held, &none)
            } else {
                put_percent(sink, held, part, whole)
            }
        }
        Field::Place { place, all } => put_line(
            sink,
            held,
            &line![u64::from(place), "/", u64::from(all)],
        ),
        Field::How(how) => put_line(sink, held, &how_name(how)),
        Field::Level(level) => put_line(sink, held, &level_name(level)),
        Field::Spot(spot) => put_line(sink, held, &spot_name(spot)),
    }
}

/// How many digits a number has.
#[tactic(auto, using(crate::proofs::FieldLemmas::few_digits))]
fn digits(number: u64) -> usize
    ensures value { result ≡ length (decimal number) }
    ensures most { result ≤ 20 }
{
    Buffer::new().format(number).len()
}

/// How long a field is, where `none` is so long.
#[tactic(auto, using(crate::proofs::FieldLemmas::thousandths_length, crate::proofs::FieldLemmas::percent_length))]
pub fn field_length(none: usize, field: Field) -> usize
    requires { none < 8 }
    ensures { (text : _) → none ≡ length text → result ≡ length (field_text text field) }
{
    match field {
        Field::Empty => none,
        Field::Number(number) => digits(number),
        Field::Fraction { over, under } => {
            if under == 0 {
                none
            } else {
                digits(whole_part(over, under)) + 4
            }
        }
        Field::Percent { part, whole } => {
            if whole == 0 {
                none
            } else {
                digits(1000 * u64::from(part) / u64::from(whole) / 10) + 3
            }
        }
        Field::Place { place, all } => digits(u64::from(place)) + 1 + digits(u64::from(all)),
        Field::How(how) => how_name(how).len(),
        Field::Level(level) => level_name(level).len(),
        Field::Spot(spot) => spot_name(spot).len(),
    }
}
