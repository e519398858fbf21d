//! What is done to the rows of nodes.

ghost use Rattle.std.specs.Prelude.{◌≡◌, ◌<◌, ◌≤◌, ◌+◌, ◌^◌, ℕ, true, OnOk, OnErr, IfOk, IfErr, Some, None, List, if◌then◌else◌, length};
ghost use Rattle.esx_model.specs.Tree.{Node};
ghost use Rattle.esx_machine.specs.Machine.{Trades};
ghost use Rattle.esx_machine.specs.Machine as machines;
ghost use Rattle.esx_journal.specs.Rows.{Row};
ghost use Rattle.esx_journal.specs.Row.{LastsFit, child_at, grown, AreNodes, Lost, Drops, lost_parent};
ghost use Rattle.esx_journal.specs.Children.{AreLinked, no_row, parent_of};

use crate::children::{forget_children, unlink};
use crate::rows::Rows;
use esx_events::Answer;
use esx_machine::{Machine, Record};
use std::alloc::AllocError;

/// A prune goes along links for one step in so many rows from its node on.
const ROWS_A_STEP: usize = 64;

/// It goes so many steps more.
const MORE_STEPS: usize = 16;

/// The child to which a redo goes from a node.
pub fn child_of(rows: &Rows, at: usize) -> Option<u32>
    requires inside { at < length rows.now }
    requires fits { LastsFit rows.now }
    ensures { result ≡ child_at rows.now at no_row }
{
    let next = rows.last(at);
    if next != 0 && rows.has_record(next as usize) {
        Some(next)
    } else {
        None
    }
}

/// Goes where a record leads, and lets it go.
pub fn revert(machine: &mut Machine, mut back: Record)
    requires { (there : machines.Kept) × Trades back machine.old there }
    ensures { (there : machines.Kept) → Trades back machine.old there → machine.new ≡ there }
{
    machine.flip(&mut back);
}

/// Adds a child under a node, and hands the answer on, with a copy where one is wanted. Where memory runs out it gives
/// the record back.
#[inline(always)]
pub fn add_child(
    rows: &mut Rows,
    at: u32,
    child: u32,
    back: Record,
    answer: Answer,
    with_copy: bool,
) -> Result<(Answer, Option<Answer>), Record>
    requires inside { at < length rows.old }
    requires child { child ≡ length rows.old }
    ensures grown { OnOk result (rows.new ≡ grown rows.old at back no_row) }
    ensures told { IfOk result (λ told. told ≡ (answer, (if with_copy then Some answer else None))) }
    ensures same { OnErr result (rows.new ≡ rows.old) }
    ensures given { IfErr result (λ given. given ≡ back) }
{
    match told(answer, with_copy) {
        Ok(told) => {
            rows.push_child(at, child, back)?;
            Ok(told)
        }
        Err(_) => Err(back),
    }
}

/// An answer, with a copy where one is wanted.
#[inline(always)]
fn told(answer: Answer, with_copy: bool) -> Result<(Answer, Option<Answer>), AllocError>
    ensures { IfOk result (λ told. told ≡ (answer, (if with_copy then Some answer else None))) }
{
    if !with_copy {
        return Ok((answer, None));
    }
    let copy = answer.copy()?;
    Ok((answer, Some(copy)))
}

/// Drops the records of a node and of all that stand below it, and answers how many. It goes along the links to
/// children for some steps, and where these do not suffice, once through the later rows.
pub fn drop_below(rows: &mut Rows, node: u32) -> u32
    requires nodes { (nodes : List Node) × AreNodes rows.old nodes }
    requires linked { AreLinked rows.old }
    requires some { 0 < node }
    requires inside { node < length rows.old }
    requires small { length rows.old ≤ 2 ^ 32 }
    ensures drops { (nodes : List Node) → AreNodes rows.old nodes → Drops result rows.old rows.new nodes node }
    ensures linked { AreLinked rows.new }
{
    let steps = (rows.len() - node as usize) / ROWS_A_STEP + MORE_STEPS;
    let (gone, are_all) = drop_by_links(rows, node, steps);
    if are_all {
        gone
    } else {
        gone + drop_by_numbers(rows, node)
    }
}

/// Drops records of a node and of what stands below it, children before their parents, in so many steps along
/// the links to children. A child that went is taken off its parent. Answers how many went, and whether they were all.
fn drop_by_links(rows: &mut Rows, node: u32, steps: usize) -> (u32, bool)
    requires nodes { (nodes : List Node) × AreNodes rows.old nodes }
    requires linked { AreLinked rows.old }
    requires some { 0 < node }
    requires inside { node < length rows.old }
    requires small { length rows.old ≤ 2 ^ 32 }
    ensures lost { (nodes : List Node) → AreNodes rows.old nodes → Lost result.0 rows.old rows.new nodes node }
    ensures drops { result.1 ≡ true → (nodes : List Node) → AreNodes rows.old nodes → Drops result.0 rows.old rows.new nodes node }
    ensures linked { AreLinked rows.new }
{
    let mut gone = 0;
    let mut at = node;
    'walk: for _step in 0..steps {
        let first = rows.first(at as usize);
        if first != 0 {
            at = first;
        } else {
            gone += rows.drop_record(at as usize);
            if at == node {
                return (gone, true);
            }
            let parent = rows.parent(at as usize);
            unlink(rows, parent, at);
            at = parent;
        }
    }
    (gone, false)
}

/// Drops the records of a node and of what still stands below it, in the order of numbers: each goes whose parent
/// went. Answers how many these were. It looks at each row from the node's on once, and leaves no child to the node.
fn drop_by_numbers(rows: &mut Rows, node: u32) -> u32
    requires part { (old : List Row) × (nodes : List Node) × (gone : ℕ) × AreNodes old nodes × Lost gone old rows.old nodes node }
    requires linked { AreLinked rows.old }
    requires some { 0 < node }
    requires inside { node < length rows.old }
    requires small { length rows.old ≤ 2 ^ 32 }
    ensures drops { (old : List Row) (nodes : List Node) (gone : ℕ) → AreNodes old nodes → Lost gone old rows.old nodes node
        → Drops (gone + result) old rows.new nodes node }
    ensures linked { AreLinked rows.new }
{
    let mut gone = rows.drop_record(node as usize);
    'pass: for at in node as usize + 1..rows.len() {
        if has_lost_parent(rows, at) {
            gone += rows.drop_record(at);
        }
    }
    forget_children(rows, node);
    gone
}

/// Does a node stand below another that went? The opening never goes.
fn has_lost_parent(rows: &Rows, at: usize) -> bool
    requires inside { at < length rows.now }
    requires parent { parent_of rows.now at < length rows.now }
    ensures { result ≡ lost_parent rows.now at no_row }
{
    let parent = rows.parent(at);
    rows.has_record(at) && parent != 0 && !rows.has_record(parent as usize)
}
