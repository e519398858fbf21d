//! The lines of each job.

ghost use Rattle.std.specs.Prelude.{◌<◌, ◌^◌};

use crate::draws::Draws;
use crate::job::Job;
use crate::line_text::LineText;
use std::alloc::AllocError;

/// The commands that let the machines of a job in.
pub fn put_opening(job: Job, text: &mut LineText) -> Result<(), AllocError> {
    let guests = job.guests();
    for vm in 0..guests.count {
        let shares = vm.wrapping_mul(100).wrapping_add(500);
        text.line(
            "admit",
            &[vm, guests.least, guests.most, 1, shares, guests.balloon],
        )?;
        text.line("start", &[vm])?;
    }
    Ok(())
}

/// The command of a turn, from 0 on; of traces their next line.
pub fn put_turn(
    job: Job,
    draws: &mut Draws,
    turn: u32,
    text: &mut LineText,
) -> Result<(), AllocError> {
    let turn = u64::from(turn);
    match job {
        Job::Accesses => put_access_turn(draws, text),
        Job::Pressure => put_pressure_turn(draws, turn, text),
        Job::Sharing => put_sharing_turn(draws, turn, text),
        Job::Branches => put_branch_turn(draws, turn, text),
        Job::Targets => put_target_turn(draws, turn, text),
        Job::Records => put_record_turn(draws, turn, text),
        Job::Opening => put_large_turn(draws, text),
        Job::Traces => put_trace_line(draws, text),
    }
}

fn put_read(
    draws: &mut Draws,
    vm: u64,
    page: u64,
    size: u64,
    text: &mut LineText,
) -> Result<(), AllocError>
    requires { 8 < size }
{
    let at = draws.below(size - 8);
    let length = 1 + draws.below(8);
    text.line("read", &[vm, page, at, length])
}

/// A write of eight bytes that are drawn.
fn put_write(
    draws: &mut Draws,
    vm: u64,
    page: u64,
    size: u64,
    text: &mut LineText,
) -> Result<(), AllocError>
    requires { 8 < size }
{
    let at = draws.below(size - 8);
    let word = draws.word();
    put_content(vm, page, at, word, text)
}

fn put_content(
    vm: u64,
    page: u64,
    at: u64,
    word: u64,
    text: &mut LineText,
) -> Result<(), AllocError> {
    text.words("write", &[vm, page, at])?;
    text.hex(word)?;
    text.end()
}

fn put_access_turn(draws: &mut Draws, text: &mut LineText) -> Result<(), AllocError> {
    let vm = draws.below(8);
    let page = draws.skewed(2500);
    match draws.below(100) {
        0..=47 => put_read(draws, vm, page, 4096, text),
        48..=91 => put_write(draws, vm, page, 4096, text),
        92..=94 => text.line("page", &[vm, page]),
        95..=96 => text.line("advise", &[vm, page]),
        97 => text.line("vm", &[vm]),
        98 => text.line("where", &[]),
        _ => text.line("sum", &[]),
    }
}

/// Opens a sample period, with drawn words for its pages.
fn put_sample(
    draws: &mut Draws,
    vm: u64,
    length: u64,
    words: u64,
    text: &mut LineText,
) -> Result<(), AllocError> {
    text.words("sample", &[vm, length])?;
    for _ in 0..words {
        let word = draws.word();
        text.number(word)?;
    }
    text.end()
}

fn put_pressure_turn(draws: &mut Draws, turn: u64, text: &mut LineText) -> Result<(), AllocError> {
    let vm = draws.below(8);
    if turn % 100 == 99 {
        return text.line("rebalance", &[]);
    }
    if turn % 25 == 1 {
        return put_sample(draws, turn / 25 % 8, 100, 50, text);
    }
    let page = draws.skewed(1024);
    let word = draws.word();
    match draws.below(100) {
        0..=30 => put_write(draws, vm, page, 4096, text),
        31..=61 => put_read(draws, vm, page, 4096, text),
        62..=75 => text.line("swapout", &[vm, word]),
        76..=78 => text.line("replace", &[vm, page, word]),
        79 => text.line("ask", &[vm]),
        80..=82 => text.line("lend", &[vm, page]),
        83 => text.line("takeback", &[vm, page]),
        84..=92 => text.line("scan", &[vm, page]),
        93..=98 => text.line("advise", &[vm, page]),
        _ => text.line("table", &[]),
    }
}

/// One of 300 contents, at the front of a page.
fn put_like(draws: &mut Draws, vm: u64, page: u64, text: &mut LineText) -> Result<(), AllocError> {
    let like = draws.below(300);
    put_content(vm, page, 0, like, text)
}

/// What would be if pages were written and looked for.
fn put_sharing_trial(draws: &mut Draws, text: &mut LineText) -> Result<(), AllocError> {
    text.word("whatif")?;
    for place in 0..3u64 {
        let vm = draws.below(4);
        let page = draws.below(2000);
        text.words(if place == 0 { " scan" } else { "; scan" }, &[vm, page])?;
    }
    text.end()
}

fn put_sharing_turn(draws: &mut Draws, turn: u64, text: &mut LineText) -> Result<(), AllocError> {
    let vm = draws.below(4);
    if turn < 4000 {
        return put_like(draws, vm, turn % 2000, text);
    }
    let page = draws.below(2000);
    match draws.below(100) {
        0..=44 => text.line("scan", &[vm, page]),
        45..=79 => put_read(draws, vm, page, 4096, text),
        80..=85 => put_like(draws, vm, page, text),
        86..=91 => put_write(draws, vm, page, 4096, text),
        92..=94 => put_sharing_trial(draws, text),
        95..=98 => text.line("page", &[vm, page]),
        _ => text.line("sum", &[]),
    }
}

/// What would be after a few accesses.
fn put_branch_trial(draws: &mut Draws, text: &mut LineText) -> Result<(), AllocError> {
    text.word("whatif")?;
    for place in 0..6u64 {
        let vm = draws.below(2);
        let page = draws.below(4000);
        text.words(
            if place == 0 { " read" } else { "; read" },
            &[vm, page, 0, 4],
        )?;
    }
    text.end()
}

/// A name that no turn before had.
fn put_name(word: &str, turn: u64, text: &mut LineText) -> Result<(), AllocError> {
    text.word(word)?;
    text.word(" turn_")?;
    text.more_hex(turn)?;
    text.end()
}

/// So many turns grow the tree before anybody goes back on it.
const OPEN_TURNS: u64 = 1000;

fn put_branch_turn(draws: &mut Draws, turn: u64, text: &mut LineText) -> Result<(), AllocError>
    requires { turn < 2 ^ 32 }
{
    let vm = draws.below(2);
    let page = draws.below(4000);
    let near = 1 + draws.below(6);
    match draws.below(if turn < OPEN_TURNS { 600 } else { 1000 }) {
        0..=449 => put_write(draws, vm, page, 64, text),
        450..=599 => put_read(draws, vm, page, 64, text),
        600..=699 => text.line("undo", &[near]),
        700..=779 => text.line("redo", &[near]),
        780..=819 => {
            let back = draws.below(1 + turn / 8);
            text.line("goto", &[(1 + turn / 2).saturating_sub(back)])
        }
        820..=854 => {
            let back = draws.below(1 + turn / 4);
            text.line("prune", &[(2 + turn / 2).saturating_sub(back)])
        }
        855..=884 => put_name("mark", turn, text),
        885..=904 => {
            let back = draws.below(1 + turn);
            put_name("visit", back, text)
        }
        905..=934 => put_branch_trial(draws, text),
        935..=964 => text.line("where", &[]),
        _ => text.line("page", &[vm, page]),
    }
}

fn put_target_turn(draws: &mut Draws, turn: u64, text: &mut LineText) -> Result<(), AllocError> {
    let vm = draws.below(32);
    if turn % 32 == 31 {
        return text.line("rebalance", &[]);
    }
    if turn % 32 == 15 {
        return put_sample(draws, turn / 32 % 32, 200, 100, text);
    }
    let page = draws.skewed(1024);
    let word = draws.word();
    match draws.below(100) {
        0..=44 => put_write(draws, vm, page, 64, text),
        45..=79 => put_read(draws, vm, page, 64, text),
        80..=97 => text.line("swapout", &[vm, word]),
        98 => text.line("shares", &[vm, 1 + word % 1048576]),
        _ => text.line("vm", &[vm]),
    }
}

fn put_record_turn(draws: &mut Draws, turn: u64, text: &mut LineText) -> Result<(), AllocError> {
    let vm = draws.below(4);
    if turn % 100 == 99 {
        return text.line("rebalance", &[]);
    }
    if turn % 400 == 1 {
        return put_sample(draws, vm, 100, 10, text);
    }
    let page = draws.skewed(1024);
    let word = draws.word();
    match draws.below(100) {
        0..=34 => put_write(draws, vm, page, 256, text),
        35..=69 => put_read(draws, vm, page, 256, text),
        70..=79 => text.line("swapout", &[vm, word]),
        80..=82 => text.line("replace", &[vm, page, word]),
        83..=84 => text.line("scan", &[vm, page]),
        85..=86 => text.line("lend", &[vm, page]),
        87..=88 => text.line("undo", &[1 + word % 5]),
        89..=91 => text.line("page", &[vm, page]),
        92..=95 => text.line("advise", &[vm, page]),
        96..=98 => text.line("sum", &[]),
        _ => text.line("table", &[]),
    }
}

/// A large machine comes or goes beside those of the scenario, or what was done is undone, or one of them is asked about.
fn put_large_turn(draws: &mut Draws, text: &mut LineText) -> Result<(), AllocError> {
    let vm = draws.below(4);
    let page = draws.below(65536);
    let back = 1 + draws.below(4);
    match draws.below(100) {
        0..=29 => put_coming(draws, 8 + vm, text),
        30..=49 => {
            text.line("stop", &[8 + vm])?;
            text.line("gone", &[8 + vm])
        }
        50..=57 => text.line("undo", &[back]),
        58..=67 => {
            text.line("undo", &[back])?;
            text.line("redo", &[back])
        }
        68..=81 => put_write(draws, vm, page, 4096, text),
        82..=87 => text.line("table", &[]),
        88..=93 => text.line("sum", &[]),
        _ => text.line("page", &[vm, page]),
    }
}

/// Lets a large machine in, with 8,192 to 65,536 reserved frames.
fn put_coming(draws: &mut Draws, vm: u64, text: &mut LineText) -> Result<(), AllocError> {
    let least = 8192 * (1 + draws.below(8));
    text.line("admit", &[vm, least, 65536, 1, 1000, 0])?;
    text.line("start", &[vm])
}

/// A line of a trace, without an end.
fn put_trace_line(draws: &mut Draws, text: &mut LineText) -> Result<(), AllocError> {
    let page = draws.skewed(1024);
    let at = draws.below(248);
    match draws.below(100) {
        0..=59 => {
            let length = 1 + draws.below(8);
            text.words("read", &[page, at, length])
        }
        60..=94 => {
            let word = draws.word();
            text.words("write", &[page, at])?;
            text.hex(word)
        }
        95..=96 => text.word("ask"),
        97..=98 => text.words("lend", &[page]),
        _ => text.words("takeback", &[page]),
    }
}
