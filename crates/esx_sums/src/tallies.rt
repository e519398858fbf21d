//! The present life of the machine under each number.

ghost use Rattle.std.specs.Prelude.{◌≡◌, ◌≤◌, ◌<◌, ◌*◌, replicate, vec_len, vec_capacity, length, IfOk};
ghost use Rattle.esx_types.specs.declared.config.TheConstants.{MAX_NODES, VM_NUMBERS};
ghost use Rattle.esx_sums.specs.Few.{IsFew, AreFew, AreFewHits};
ghost use Rattle.esx_sums.specs.Sums.{blank, tally_in, accessed_in, counted_in, moved_in, hosted_in, stood_at, stood_in, begun_in, ended_in, tallied, refused_in};

use crate::present::Present;
use crate::sums::Changes;
use crate::tally::{
    Moves, Over, Tally, blank, refused_access, with_access, with_change, with_move, with_present,
};
use esx_events::{Event, Refusal};
use esx_story::Change;
use esx_types::{Rows, VM_NUMBERS, VmId};
use std::alloc::{AllocError, Global};

pub(crate) fn no_tallies(alloc: Global) -> Result<Vec<Tally>, AllocError>
    ensures { IfOk result (λ now. now.items ≡ replicate VM_NUMBERS (blank 0)) }
{
    let mut now = Vec::with_capacity(alloc, VM_NUMBERS)?;
    for _number in 0..VM_NUMBERS {
        now.push(blank(0))?;
    }
    Ok(now)
}

pub(crate) fn tally_at(now: &Rows<Tally>, number: usize) -> Tally
    ensures { result ≡ tally_in now.now number }
{
    match now.as_slice().get(number) {
        Some(tally) => *tally,
        None => blank(0),
    }
}

/// Counts an accepted access for its machine.
pub(crate) fn access(now: &mut Rows<Tally>, event: &Event)
    requires { AreFew 4294967294 now.old }
    ensures { now.new ≡ accessed_in now.old event.now }
{
    let vm = match event {
        Event::Read { vm, .. } => *vm,
        Event::Write { vm, .. } => *vm,
        _ => return,
    };
    let number = usize::from(vm.number());
    let tally = tally_at(now, number);
    let accesses = with_access(tally.accesses, event);
    now.set(number, Tally { accesses, ..tally });
}

/// Counts a page that came or left for its machine.
pub(crate) fn count(now: &mut Rows<Tally>, change: &Option<Change>)
    requires { AreFew 4294967294 now.old }
    ensures { now.new ≡ counted_in now.old change.now }
{
    let Some(change) = change else {
        return;
    };
    let number = usize::from(change.vm.number());
    let tally = tally_at(now, number);
    let counts = with_change(tally.counts, change.how);
    now.set(number, Tally { counts, ..tally });
}

/// Counts a page that moved for its machine.
pub(crate) fn shift(now: &mut Rows<Tally>, change: &Option<Change>)
    requires { AreFew 4294967294 now.old }
    ensures { now.new ≡ moved_in now.old change.now }
{
    let Some(change) = change else {
        return;
    };
    let number = usize::from(change.vm.number());
    let tally = tally_at(now, number);
    let moves = with_move(tally.moves, change.how);
    now.set(number, Tally { moves, ..tally });
}

/// Counts a page in whose frame another came, for its machine.
pub(crate) fn host(now: &mut Rows<Tally>, host: Option<VmId>)
    requires { AreFew 4294967294 now.old }
    ensures { now.new ≡ hosted_in now.old host }
{
    let Some(vm) = host else {
        return;
    };
    let number = usize::from(vm.number());
    let tally = tally_at(now, number);
    let moves = Moves {
        host: tally.moves.host + 1,
        ..tally.moves
    };
    now.set(number, Tally { moves, ..tally });
}

/// A machine that stands has stood one event longer.
fn stay(now: &mut Rows<Tally>, number: usize, present: Option<Present>)
    requires { IsFew 4294967294 (tally_in now.old number) }
    ensures { now.new ≡ stood_at now.old number present }
{
    let Some(present) = present else {
        return;
    };
    let tally = tally_at(now, number);
    let stay = with_present(tally.stay, present);
    now.set(number, Tally { stay, ..tally });
}

/// Counts the event for each machine that stands after it.
pub(crate) fn stand(now: &mut Rows<Tally>, present: &[Option<Present>])
    requires { AreFew 4294967294 now.old }
    ensures { now.new ≡ stood_in now.old present.now }
{
    for (at, one) in present.iter().enumerate() {
        stay(now, at, *one);
    }
}

/// A machine that is admitted begins its next life.
pub(crate) fn begin(now: &mut Rows<Tally>, event: &Event)
    requires { AreFew 4294967294 now.old }
    ensures { now.new ≡ begun_in now.old event.now }
{
    let Event::Admit { vm, .. } = event else {
        return;
    };
    let number = usize::from(vm.number());
    let tally = tally_at(now, number);
    now.set(number, blank(tally.life + 1));
}

/// The life before an admission is over.
pub(crate) fn end(past: &mut Vec<Over>, now: &Rows<Tally>, event: &Event)
    requires { vec_len past.old < vec_capacity past.old }
    ensures { past.new.items ≡ ended_in past.old.items now.now event.now }
{
    let Event::Admit { vm, .. } = event else {
        return;
    };
    let tally = tally_at(now, usize::from(vm.number()));
    if tally.life > 0 {
        past.push_reserved(Over { vm: *vm, tally });
    }
}

/// Counts a refused access for its machine.
pub(crate) fn refuse(now: &mut Rows<Tally>, access: Option<(VmId, u32)>, refusal: Refusal)
    requires { AreFewHits 4294967294 now.old }
    ensures { now.new ≡ refused_in now.old access refusal }
{
    let Some((vm, _page)) = access else {
        return;
    };
    let number = usize::from(vm.number());
    let tally = tally_at(now, number);
    let accesses = refused_access(tally.accesses, refusal);
    now.set(number, Tally { accesses, ..tally });
}

/// Counts an accepted event: for the life that it begins, for the machines whose pages it changed, for its own, and for
/// all that stand after it.
pub(crate) fn tally_all(
    now: &mut Rows<Tally>,
    event: &Event,
    changes: &Changes,
    present: &[Option<Present>],
)
    requires { AreFew (2 * MAX_NODES) now.old }
    ensures { now.new ≡ tallied now.old event.now changes.now present.now }
{
    begin(now, event);
    count(now, &changes.gained);
    count(now, &changes.lost);
    shift(now, &changes.moved);
    host(now, changes.host);
    access(now, event);
    stand(now, present);
}
