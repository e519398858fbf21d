//! The rows of the table of guests.

ghost use Rattle.std.specs.Prelude.{◌≡◌, ◌<◌, ◌++◌, None, length, map, filter, slice_index_or, option_map, OnOk, IfOk};
ghost use Rattle.esx_types.specs.declared.config.TheConstants.{VM_NUMBERS};
ghost use Rattle.esx_sums.specs.Accounts.{is_over_of};
ghost use Rattle.esx_sums.specs.Rows.{row_of, over_row, own_rows, last_rows, of_each, machine_rows};
ghost use Rattle.esx_sums.specs.Sums.{here_of};

use crate::guest::Guest;
use crate::losses::{Returns, came_back};
use crate::present::Present;
use crate::tallies::tally_at;
use crate::tally::{Over, Tally};
use esx_story::Loss;
use esx_types::{Rows, VM_NUMBERS, VmId};
use std::alloc::{AllocError, Global};

fn here_at(present: Option<Present>) -> u32
    ensures { result ≡ here_of present }
{
    match present {
        Some(present) => present.here,
        None => 0,
    }
}

fn target_at(present: Option<Present>) -> Option<u32>
    ensures { result ≡ option_map (λ x. x.target) present }
{
    match present {
        Some(present) => Some(present.target),
        None => None,
    }
}

fn row_of(vm: VmId, tally: &Tally, present: Option<Present>, back: Returns) -> Guest
    ensures { result ≡ row_of vm tally.now present back }
{
    Guest {
        vm,
        life: tally.life,
        reads: tally.accesses.reads,
        writes: tally.accesses.writes,
        counts: tally.counts,
        share: tally.moves.share,
        host: tally.moves.host,
        cow: tally.moves.cow,
        own: tally.moves.own,
        back: back.back,
        soon: back.soon,
        waits: back.waits,
        held: tally.accesses.held,
        short: tally.accesses.short,
        above: tally.stay.above,
        below: tally.stay.below,
        events: tally.stay.events,
        sum_here: tally.stay.sum_here,
        most: tally.stay.most,
        here: here_at(present),
        target: target_at(present),
    }
}

fn over_row(over: &Over, losses: &[Loss]) -> Guest
    requires { length losses.now < 4294967296 }
    ensures { result ≡ over_row losses.now over.now }
{
    let back = came_back(losses, over.vm, over.tally.life);
    row_of(over.vm, &over.tally, None, back)
}

/// Adds the row of a life that another followed, if it is of a machine.
fn add_over(rows: &mut Vec<Guest>, over: &Over, vm: VmId, losses: &[Loss]) -> Result<(), AllocError>
    requires { length losses.now < 4294967296 }
    ensures { OnOk result (rows.new.items ≡ rows.old.items ++ own_rows vm losses.now over.now) }
{
    if over.vm == vm {
        rows.push(over_row(over, losses))?;
    }
    Ok(())
}

/// Adds the rows of the lives of a machine that others followed.
fn add_past(
    rows: &mut Vec<Guest>,
    past: &[Over],
    vm: VmId,
    losses: &[Loss],
) -> Result<(), AllocError>
    requires { length losses.now < 4294967296 }
    ensures { OnOk result (rows.new.items ≡ rows.old.items ++ map (over_row losses.now) (filter (is_over_of vm) past.now)) }
{
    for (_at, over) in past.iter().enumerate() {
        add_over(rows, over, vm, losses)?;
    }
    Ok(())
}

/// Adds the row of the last life of a machine, if it had one.
fn add_last(
    rows: &mut Vec<Guest>,
    vm: VmId,
    tally: &Tally,
    present: Option<Present>,
    losses: &[Loss],
) -> Result<(), AllocError>
    requires { length losses.now < 4294967296 }
    ensures { OnOk result (rows.new.items ≡ rows.old.items ++ last_rows vm tally.now present losses.now) }
{
    if tally.life > 0 {
        let back = came_back(losses, vm, tally.life);
        rows.push(row_of(vm, tally, present, back))?;
    }
    Ok(())
}

fn present_at(present: &[Option<Present>], number: usize) -> Option<Present>
    ensures { result ≡ slice_index_or present.now number None }
{
    match present.get(number) {
        Some(one) => *one,
        None => None,
    }
}

/// The machine with a number.
fn machine(number: usize) -> VmId
    requires { number < VM_NUMBERS }
    ensures { result ≡ number }
{
    VmId::new(number as u8)
}

/// The rows of all machines, in order of number.
pub(crate) fn all_rows(
    alloc: Global,
    now: &Rows<Tally>,
    past: &[Over],
    present: &[Option<Present>],
    losses: &[Loss],
) -> Result<Vec<Guest>, AllocError>
    requires { length losses.now < 4294967296 }
    ensures { IfOk result (λ rows. rows.items ≡ of_each (machine_rows now.now past.now present.now losses.now) VM_NUMBERS) }
{
    let mut rows = Vec::new(alloc);
    for number in 0..VM_NUMBERS {
        let vm = machine(number);
        let tally = tally_at(now, number);
        add_past(&mut rows, past, vm, losses)?;
        add_last(&mut rows, vm, &tally, present_at(present, number), losses)?;
    }
    Ok(rows)
}
