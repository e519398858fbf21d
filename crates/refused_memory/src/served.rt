//! A site that is served from bytes in memory into a fixed array.

ghost use Rattle.std.specs.Prelude.{◌≡◌, ◌≤◌};

use esx_console::Console;
use esx_events::Refusal;
use esx_text::{ServeFault, serve};
use esx_told::TextLog;
use esx_types::{Config, MemorySource, WriteSink};
use std::alloc::Global;
use std::marker::Brand;
use std::mem;
use std::sync::ledger::{Blank, Ledger};

/// How many bytes are read at once.
const AT_ONCE: usize = 64;

/// The same by a count of the calls at each end.
fn served_counted<I: Ledger, O: Ledger>(
    alloc: Global,
    console: &mut Console<TextLog>,
    input: &[u8],
    room: &mut [u8],
    calls_in: Blank,
    calls_out: Blank,
) -> (Result<u64, ServeFault>, usize)
    requires name_in { calls_in.name ≡ I.name }
    requires parts_in { calls_in.parts ≡ I.parts }
    requires four_in { 4 ≤ calls_in.parts }
    requires name_out { calls_out.name ≡ O.name }
    requires parts_out { calls_out.parts ≡ O.parts }
    requires four_out { 4 ≤ calls_out.parts }
{
    let size = room.len();
    let mut source = MemorySource::<I>::new(input, AT_ONCE, calls_in);
    let mut sink = WriteSink::<&mut [u8], O>::new(room, calls_out);
    let result = serve(alloc, console, 0, &mut source, &mut sink);
    let left = sink.into_writer();
    (result, size.saturating_sub(left.len()))
}

/// Serves a site over a log that is kept as text, writes its answers to the front of the room, and tells how many bytes they are.
pub fn served(
    alloc: Global,
    site: Config,
    input: &[u8],
    room: &mut [u8],
) -> Result<(Result<u64, ServeFault>, usize), Refusal> {
    let mut console = Console::over(alloc, site, TextLog::new(alloc)?)?;
    let (calls_in, calls_out) = (Blank::new(4), Blank::new(4));
    let served = served_counted::<Brand, Brand>(
        alloc,
        &mut console,
        input,
        room,
        calls_in,
        calls_out,
    );
    // The system takes the memory of a site back.
    mem::forget(console);
    Ok(served)
}
