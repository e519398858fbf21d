//! The table of steps, as comma-separated values.

ghost use Rattle.std.specs.Prelude.{◌≡◌, ◌+◌, flat_map};
ghost use Rattle.esx_writing.specs.Writing.{Puts, sink_faults};
ghost use Rattle.esx_report.specs.Steps.{by_field, figure_fields, step_head, step_fields, step_row, steps_csv};

use crate::field::Field;
use crate::losses::number_field;
use crate::row::put_row;
use esx_figures::{Figures, Step};
use esx_types::{Sink, SinkFailed, VmId};
use esx_writing::{AnswerBuffer, put_line};

/// A step, and what is known of its event: the node that it made, 0 for the opening, and who called for it, none for the
/// opening.
#[derive(Clone, Copy)]
pub struct StepRow {
    pub node: u32,
    pub by: Option<u16>,
    pub step: Step,
}

/// What is told of a machine.
#[derive(Clone, Copy)]
pub struct FigureFields {
    pub here: Field,
    pub target: Field,
    pub active: Field,
    pub shared: Field,
    pub lent: Field,
    pub out: Field,
}

fn by_field(by: Option<u16>) -> Field
    ensures { result ≡ by_field by }
{
    match by {
        None => Field::Empty,
        Some(by) => Field::Number(by as u64),
    }
}

fn vm_number(vm: Option<VmId>) -> Option<u32>
    ensures { result ≡ vm }
{
    match vm {
        None => None,
        Some(vm) => Some(vm.number() as u32),
    }
}

fn figure_fields(figures: &Option<Figures>) -> FigureFields
    ensures { result ≡ figure_fields figures.now }
{
    match figures {
        None => FigureFields {
            here: Field::Empty,
            target: Field::Empty,
            active: Field::Empty,
            shared: Field::Empty,
            lent: Field::Empty,
            out: Field::Empty,
        },
        Some(figures) => FigureFields {
            here: Field::Number(figures.here as u64),
            target: Field::Number(figures.target as u64),
            active: Field::Number(figures.active as u64),
            shared: Field::Number(figures.shared as u64),
            lent: Field::Number(figures.lent as u64),
            out: Field::Number(figures.out as u64),
        },
    }
}

fn step_fields(row: &StepRow) -> [Field; 15]
    ensures { result ≡ step_fields row.now }
{
    let step = &row.step;
    let guest = figure_fields(&step.figures);
    [
        Field::Number(step.at as u64),
        Field::Number(row.node as u64),
        by_field(row.by),
        number_field(vm_number(step.vm)),
        Field::Number(step.site.overhead as u64),
        Field::Number(step.site.private as u64),
        Field::Number(step.site.shared as u64),
        Field::Number(step.site.free as u64),
        Field::Level(step.site.level),
        guest.here,
        guest.target,
        guest.active,
        guest.shared,
        guest.lent,
        guest.out,
    ]
}

/// The head of the table.
pub fn put_step_head<W: Sink>(sink: &mut W, held: &mut AnswerBuffer) -> Result<(), SinkFailed>
    ensures bytes { Puts (W.contents sink.old) held.old (W.contents sink.new) held.new step_head result }
    ensures failures { W.failures sink.new ≡ W.failures sink.old + sink_faults result }
    ensures flushes { W.flushes sink.new ≡ W.flushes sink.old }
{
    put_line(
        sink,
        held,
        &"event,node,by,vm,overhead,private,shared,free,level,here,target,active,shared_pages,lent,out\n",
    )
}

/// The row of a step: who called is empty for the opening, the machine and its figures where the site's alone changed, and
/// the figures where the machine went.
pub fn put_step<W: Sink>(
    sink: &mut W,
    held: &mut AnswerBuffer,
    row: &StepRow,
) -> Result<(), SinkFailed>
    ensures bytes { Puts (W.contents sink.old) held.old (W.contents sink.new) held.new (step_row row.now) result }
    ensures failures { W.failures sink.new ≡ W.failures sink.old + sink_faults result }
    ensures flushes { W.flushes sink.new ≡ W.flushes sink.old }
{
    put_row(sink, held, &step_fields(row))
}

/// The rows of steps.
fn put_step_rows<W: Sink>(
    sink: &mut W,
    held: &mut AnswerBuffer,
    rows: &[StepRow],
) -> Result<(), SinkFailed>
    ensures bytes { Puts (W.contents sink.old) held.old (W.contents sink.new) held.new (flat_map step_row rows.now) result }
    ensures failures { W.failures sink.new ≡ W.failures sink.old + sink_faults result }
    ensures flushes { W.flushes sink.new ≡ W.flushes sink.old }
{
    for row in rows {
        put_step(sink, held, row)?;
    }
    Ok(())
}

/// The table of steps: its head, and a row for each of these, in their order.
pub fn put_steps<W: Sink>(
    sink: &mut W,
    held: &mut AnswerBuffer,
    rows: &[StepRow],
) -> Result<(), SinkFailed>
    ensures bytes { Puts (W.contents sink.old) held.old (W.contents sink.new) held.new (steps_csv rows.now) result }
    ensures failures { W.failures sink.new ≡ W.failures sink.old + sink_faults result }
    ensures flushes { W.flushes sink.new ≡ W.flushes sink.old }
{
    put_step_head(sink, held)?;
    put_step_rows(sink, held, rows)
}
