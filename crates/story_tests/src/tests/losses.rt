//! What is told of the losses of paths: the rows of both tables, and the sentences.

ghost use Rattle.std.specs.Prelude.{◌≡◌, ◌≤◌, length};
ghost use Rattle.esx_story.specs.Order.{HasGoodRows};
ghost use Rattle.esx_walk.specs.Complete.{AreGood};
ghost use Rattle.esx_walk.specs.Walks.{MayGoOn};

use super::paths::{BALLOON, PAGING, TWO_LIVES, losses_of, walk_along};
use esx_report::{
    LossLine, Why, put_loss, put_loss_head, put_loss_heading, put_loss_line, put_why, put_why_head,
};
use esx_story::Loss;
use esx_types::{MemorySink, Sink, SinkFailed};
use esx_walk::Walk;
use esx_writing::{AnswerBuffer, write_held};
use std::alloc::Global;
use std::marker::Brand;
use std::process::Abort;
use std::sync::ledger::{Blank, Ledger};
use std::test::Fail;

/// The number of the call that a loss came with, and how it was spelt.
type Call = (u32, &'static str);

/// A loss with its call, by caller 0. Its event made the node of its number.
fn line_of(loss: &Loss, call: u32) -> LossLine
    requires { HasGoodRows loss.now.seen.order }
    ensures { HasGoodRows result.loss.seen.order }
{
    LossLine {
        node: loss.at,
        call,
        by: 0,
        loss: *loss,
    }
}

/// The call of the loss at a place.
fn call_at(calls: &[Call], at: usize) -> Call {
    match calls.get(at) {
        Some(call) => *call,
        None => (0, ""),
    }
}

fn put_rows<W: Sink>(
    sink: &mut W,
    held: &mut AnswerBuffer,
    losses: &[Loss],
    calls: &[Call],
) -> Result<(), SinkFailed>
    requires { AreGood losses.now }
{
    put_loss_head(sink, held)?;
    for (at, loss) in losses.iter().enumerate() {
        let (call, _) = call_at(calls, at);
        put_loss(sink, held, &line_of(loss, call))?;
    }
    Ok(())
}

fn put_lines<W: Sink>(
    sink: &mut W,
    held: &mut AnswerBuffer,
    losses: &[Loss],
    calls: &[Call],
) -> Result<(), SinkFailed>
    requires { AreGood losses.now }
{
    put_loss_heading(sink, held)?;
    for (at, loss) in losses.iter().enumerate() {
        let (call, _) = call_at(calls, at);
        put_loss_line(sink, held, &line_of(loss, call))?;
    }
    Ok(())
}

fn put_reasons<W: Sink>(
    alloc: Global,
    sink: &mut W,
    held: &mut AnswerBuffer,
    losses: &[Loss],
    calls: &[Call],
) -> Result<(), SinkFailed>
    requires { AreGood losses.now }
{
    put_why_head(sink, held, losses.len() as u64)?;
    for (at, loss) in losses.iter().enumerate() {
        let (call, command) = call_at(calls, at);
        let Ok(command) = String::from_str(alloc, command) else {
            return Err(SinkFailed);
        };
        let why = Why {
            line: line_of(loss, call),
            command,
            frames: 8,
            returns_at: 5,
        };
        put_why(sink, held, &why)?;
    }
    Ok(())
}

fn put_told<W: Sink>(
    alloc: Global,
    sink: &mut W,
    held: &mut AnswerBuffer,
    losses: &[Loss],
    calls: &[Call],
) -> Result<(), SinkFailed>
    requires { AreGood losses.now }
{
    put_rows(sink, held, losses, calls)?;
    put_lines(sink, held, losses, calls)?;
    put_reasons(alloc, sink, held, losses, calls)?;
    write_held(sink, held)
}

fn told_counted<L: Ledger>(
    alloc: Global,
    walk: &Walk,
    calls: &[Call],
    blank: Blank,
) -> Result<Vec<u8>, Fail>
    requires name { blank.name ≡ L.name }
    requires parts { blank.parts ≡ L.parts }
    requires four { 4 ≤ blank.parts }
    requires walk { MayGoOn walk.now }
{
    let mut held = AnswerBuffer::new(alloc)?;
    let mut sink = MemorySink::<L>::new(Vec::new(alloc), blank);
    match put_told(alloc, &mut sink, &mut held, losses_of(walk), calls) {
        Ok(()) => Ok(sink.into_bytes()),
        Err(_) => Err(Fail::new("a text")),
    }
}

/// Whether the losses of a path are told so.
fn expect(
    rt: &impl Abort,
    alloc: Global,
    commands: &[&str],
    calls: &[Call],
    text: &str,
) -> Result<(), Fail>
    requires { length commands.now ≤ 100 }
{
    let walk = walk_along(alloc, commands)?;
    assert_eq!(rt; walk.losses().len(), calls.len());
    let told = told_counted::<Brand>(alloc, &walk, calls, Blank::new(4))?;
    assert!(rt; told.as_slice() == text.as_bytes());
    Ok(())
}

const PAGING_TOLD: &str = concat!(
    "event,node,call,by,vm,life,page,how,level,free,here,target,set,need,revoked,from_vm,shares,active,tax,ratio,above,rank,next,next_ratio,slot,back,as,after,waits\n",
    "11,11,14,0,0,1,1,replace,low,0,3,6,0,,,,1000,65536,75,333.333,0,,,,0,13,swapin,2,0\n",
    "13,13,17,0,0,1,0,replace,low,0,3,6,0,,,,1000,65536,75,333.333,0,,,,0,14,swapin,1,0\n",
    "14,14,20,0,0,1,2,replace,low,0,3,6,0,,,,1000,65536,75,333.333,0,,,,0,,,,0\n",
    "17,17,23,0,1,1,0,drop,low,0,3,6,0,,,,1000,65536,75,333.333,0,,,,,,,,0\n",
    "18,18,24,0,1,1,1,drop,low,1,2,6,0,,,,1000,65536,75,500.000,0,,,,,,,,0\n",
    "19,19,25,0,1,1,2,drop,low,2,1,6,0,,,,1000,65536,75,1000.000,0,,,,,,,,0\n",
    "   event     node  by  vm   page how     level    free   here target      set  shares  act      ratio  rank next     nratio     back as       after waits\n",
    "      11       11   0   0      1 replace low         0      3      6        0    1000  100    333.333     -    -          -       13 swapin       2     0\n",
    "      13       13   0   0      0 replace low         0      3      6        0    1000  100    333.333     -    -          -       14 swapin       1     0\n",
    "      14       14   0   0      2 replace low         0      3      6        0    1000  100    333.333     -    -          -        - -            -     0\n",
    "      17       17   0   1      0 drop    low         0      3      6        0    1000  100    333.333     -    -          -        - -            -     0\n",
    "      18       18   0   1      1 drop    low         1      2      6        0    1000  100    500.000     -    -          -        - -            -     0\n",
    "      19       19   0   1      2 drop    low         2      1      6        0    1000  100   1000.000     -    -          -        - -            -     0\n",
    "esx why 1\n",
    "losses 6\n",
    "Event 11 (caller 0: replace 0 3 1): guest 0 lost page 1: it made room for another page of its own guest, to slot 0.\n",
    "  Memory: level low, 0 of 8 frames free (level high returns at 5).\n",
    "  The guest: 3 pages in frames, target 6 since its admission.\n",
    "  Its ratio was 333.333 shares a page (1000 shares, 100% active, tax 75%): no frame is free and no guest has more than its minimum, so it gives one of its own.\n",
    "  It came back at event 13 (2 later): read from its slot.\n",
    "Event 13 (caller 0: replace 0 1 0): guest 0 lost page 0: it made room for another page of its own guest, to slot 0.\n",
    "  Memory: level low, 0 of 8 frames free (level high returns at 5).\n",
    "  The guest: 3 pages in frames, target 6 since its admission.\n",
    "  Its ratio was 333.333 shares a page (1000 shares, 100% active, tax 75%): no frame is free and no guest has more than its minimum, so it gives one of its own.\n",
    "  It came back at event 14 (1 later): read from its slot.\n",
    "Event 14 (caller 0: replace 0 0 1): guest 0 lost page 2: it made room for another page of its own guest, to slot 0.\n",
    "  Memory: level low, 0 of 8 frames free (level high returns at 5).\n",
    "  The guest: 3 pages in frames, target 6 since its admission.\n",
    "  Its ratio was 333.333 shares a page (1000 shares, 100% active, tax 75%): no frame is free and no guest has more than its minimum, so it gives one of its own.\n",
    "  It did not come back on this path.\n",
    "Event 17 (caller 0: drop 1 0): guest 1 lost page 0: given back by the stopping guest.\n",
    "  It did not come back on this path.\n",
    "Event 18 (caller 0: drop 1 1): guest 1 lost page 1: given back by the stopping guest.\n",
    "  It did not come back on this path.\n",
    "Event 19 (caller 0: drop 1 2): guest 1 lost page 2: given back by the stopping guest.\n",
    "  It did not come back on this path.\n",
);

/// Pages that make room, and pages that are dropped, without a reason.
#[test]
fn losses_of_paging(rt: HostRuntime) -> Result<(), Fail> {
    let calls = [
        (14, "replace 0 3 1"),
        (17, "replace 0 1 0"),
        (20, "replace 0 0 1"),
        (23, "drop 1 0"),
        (24, "drop 1 1"),
        (25, "drop 1 2"),
    ];
    expect(&rt, rt.alloc(), &PAGING, &calls, PAGING_TOLD)
}

const BALLOON_TOLD: &str = concat!(
    "event,node,call,by,vm,life,page,how,level,free,here,target,set,need,revoked,from_vm,shares,active,tax,ratio,above,rank,next,next_ratio,slot,back,as,after,waits\n",
    "10,10,11,0,0,1,3,balloon,soft,2,5,2,8,3,3,3,1000,65536,75,200.000,1,1,,,,12,pop,2,0\n",
    "11,11,12,0,0,1,2,balloon,soft,3,4,2,8,3,3,3,1000,65536,75,250.000,1,1,,,,,,,0\n",
    "   event     node  by  vm   page how     level    free   here target      set  shares  act      ratio  rank next     nratio     back as       after waits\n",
    "      10       10   0   0      3 balloon soft        2      5      2        8    1000  100    200.000   1/1    -          -       12 pop          2     0\n",
    "      11       11   0   0      2 balloon soft        3      4      2        8    1000  100    250.000   1/1    -          -        - -            -     0\n",
    "esx why 1\n",
    "losses 2\n",
    "Event 10 (caller 0: lend 0 3): guest 0 lost page 3: its balloon lent it; its bytes are given up.\n",
    "  Memory: level soft, 2 of 8 frames free (level high returns at 5).\n",
    "  The guest: 5 pages in frames, target 2 since event 8, where 3 frames were wanted and 3 of the 3 revoked came from it.\n",
    "  Its ratio was 200.000 shares a page (1000 shares, 100% active, tax 75%): the least of 1 above target; no other guest is above its target.\n",
    "  It came back at event 12 (2 later): the guest touched it, the balloon popped, and it is zeros.\n",
    "Event 11 (caller 0: lend 0 2): guest 0 lost page 2: its balloon lent it; its bytes are given up.\n",
    "  Memory: level soft, 3 of 8 frames free (level high returns at 5).\n",
    "  The guest: 4 pages in frames, target 2 since event 8, where 3 frames were wanted and 3 of the 3 revoked came from it.\n",
    "  Its ratio was 250.000 shares a page (1000 shares, 100% active, tax 75%): the least of 1 above target; no other guest is above its target.\n",
    "  It did not come back on this path.\n",
);

/// Pages that are lent, each with what a rebalance asked for.
#[test]
fn losses_of_a_balloon(rt: HostRuntime) -> Result<(), Fail> {
    let calls = [(11, "lend 0 3"), (12, "lend 0 2")];
    expect(&rt, rt.alloc(), &BALLOON, &calls, BALLOON_TOLD)
}

const TWO_LIVES_TOLD: &str = concat!(
    "event,node,call,by,vm,life,page,how,level,free,here,target,set,need,revoked,from_vm,shares,active,tax,ratio,above,rank,next,next_ratio,slot,back,as,after,waits\n",
    "13,13,13,0,0,1,2,balloon,low,0,3,2,11,5,3,1,1000,65536,75,333.333,2,2,1,166.666,,30,pop,17,0\n",
    "14,14,14,0,1,1,0,swap,low,1,3,1,11,5,3,2,500,65536,75,166.666,1,1,,,0,16,swapin,2,2\n",
    "15,15,18,0,1,1,1,swap,low,2,2,1,11,5,3,2,500,65536,75,250.000,1,1,,,1,,,,0\n",
    "18,18,21,0,1,1,0,drop,hard,2,2,1,11,5,3,2,500,65536,75,250.000,1,1,,,,,,,0\n",
    "20,20,23,0,1,1,2,drop,hard,3,1,1,11,5,3,2,500,65536,75,500.000,0,,,,,,,,0\n",
    "29,29,32,0,1,2,3,swap,low,0,4,1,28,5,3,3,500,65536,20,125.000,1,1,,,0,,,,0\n",
    "   event     node  by  vm   page how     level    free   here target      set  shares  act      ratio  rank next     nratio     back as       after waits\n",
    "      13       13   0   0      2 balloon low         0      3      2       11    1000  100    333.333   2/2    1    166.666       30 pop         17     0\n",
    "      14       14   0   1      0 swap    low         1      3      1       11     500  100    166.666   1/1    -          -       16 swapin       2     2\n",
    "      15       15   0   1      1 swap    low         2      2      1       11     500  100    250.000   1/1    -          -        - -            -     0\n",
    "      18       18   0   1      0 drop    hard        2      2      1       11     500  100    250.000   1/1    -          -        - -            -     0\n",
    "      20       20   0   1      2 drop    hard        3      1      1       11     500  100    500.000     -    -          -        - -            -     0\n",
    "      29       29   0   1      3 swap    low         0      4      1       28     500  100    125.000   1/1    -          -        - -            -     0\n",
    "esx why 1\n",
    "losses 6\n",
    "Event 13 (caller 0: lend 0 2): guest 0 lost page 2: its balloon lent it; its bytes are given up.\n",
    "  Memory: level low, 0 of 8 frames free (level high returns at 5).\n",
    "  The guest: 3 pages in frames, target 2 since event 11, where 5 frames were wanted and 1 of the 3 revoked came from it.\n",
    "  Its ratio was 333.333 shares a page (1000 shares, 100% active, own tax 75%): number 2 of 2 above target, although guest 1 at 166.666 comes first.\n",
    "  It came back at event 30 (17 later): the guest touched it, the balloon popped, and it is zeros.\n",
    "Event 14 (caller 0: swapout 1 0): guest 1 lost page 0: paged out by the host, to slot 0.\n",
    "  Memory: level low, 1 of 8 frames free (level high returns at 5).\n",
    "  The guest: 3 pages in frames, target 1 since event 11, where 5 frames were wanted and 2 of the 3 revoked came from it.\n",
    "  Its ratio was 166.666 shares a page (500 shares, 100% active, tax 75%): the least of 1 above target; no other guest is above its target.\n",
    "  It came back at event 16 (2 later, after 2 refused accesses): read from its slot.\n",
    "Event 15 (caller 0: swapout 1 0): guest 1 lost page 1: paged out by the host, to slot 1.\n",
    "  Memory: level low, 2 of 8 frames free (level high returns at 5).\n",
    "  The guest: 2 pages in frames, target 1 since event 11, where 5 frames were wanted and 2 of the 3 revoked came from it.\n",
    "  Its ratio was 250.000 shares a page (500 shares, 100% active, tax 75%): the least of 1 above target; no other guest is above its target.\n",
    "  It did not come back on this path.\n",
    "Event 18 (caller 0: drop 1 0): guest 1 lost page 0: given back by the stopping guest.\n",
    "  It did not come back on this path.\n",
    "Event 20 (caller 0: drop 1 2): guest 1 lost page 2: given back by the stopping guest.\n",
    "  It did not come back on this path.\n",
    "Event 29 (caller 0: swapout 1 3): guest 1 lost page 3: paged out by the host, to slot 0.\n",
    "  Memory: level low, 0 of 8 frames free (level high returns at 5).\n",
    "  The guest: 4 pages in frames, target 1 since event 28, where 5 frames were wanted and 3 of the 3 revoked came from it.\n",
    "  Its ratio was 125.000 shares a page (500 shares, 100% active, own tax 20%): the least of 1 above target; no other guest is above its target.\n",
    "  It did not come back on this path.\n",
);

/// A page of a machine that is not the first, pages that are waited for, taxes of the machines' own, and a life behind another.
#[test]
fn losses_of_two_lives(rt: HostRuntime) -> Result<(), Fail> {
    let calls = [
        (13, "lend 0 2"),
        (14, "swapout 1 0"),
        (18, "swapout 1 0"),
        (21, "drop 1 0"),
        (23, "drop 1 2"),
        (32, "swapout 1 3"),
    ];
    expect(&rt, rt.alloc(), &TWO_LIVES, &calls, TWO_LIVES_TOLD)
}
