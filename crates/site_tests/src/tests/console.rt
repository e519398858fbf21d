//! What is run of the console.

use super::site::{SITE, SPEC, done};
use esx_console::Console;
use esx_events::{Call, Event, Refusal, Reply, Said};
use esx_types::{FrameRow, VmId};
use std::process::Abort;
use std::rt::HostRuntime;
use std::test::Fail;

fn make(console: &mut Console, event: Event) -> Result<(), Fail> {
    let _ = console.call(0, Call::Do { event })?;
    Ok(())
}

fn start(console: &mut Console) -> Result<(), Fail> {
    let vm = VmId::new(0);
    make(console, Event::Admit { vm, spec: SPEC })?;
    make(console, Event::Start { vm })
}

fn first_frame_is_free(console: &Console) -> Result<bool, Fail> {
    let book = console.book()?;
    Ok(matches!(book.frames.as_slice(), [FrameRow::Free, ..]))
}

fn expect_first_free(rt: &impl Abort, console: &Console, want: bool) -> Result<(), Fail> {
    assert_eq!(rt; first_frame_is_free(console)?, want);
    Ok(())
}

fn copies(rt: &impl Abort, console: &mut Console) -> Result<(), Fail> {
    start(console)?;
    expect_first_free(rt, console, false)?;
    let _ = console.call(0, Call::Undo { count: 1 })?;
    expect_first_free(rt, console, true)
}

#[test]
fn copies_the_tables_with_ample_memory(rt: HostRuntime) -> Result<(), Fail> {
    match Console::open(rt.alloc(), SITE) {
        Ok(mut console) => {
            let outcome = copies(&rt, &mut console);
            done(console);
            outcome
        }
        Err(refusal) => Err(Fail::from(refusal)),
    }
}

fn expect_stand(rt: &impl Abort, reply: Option<&Reply>) {
    assert!(rt;
        matches!(
            reply,
            Some(Reply {
                jumps: 1,
                said: Said::Stand { .. }
            })
        )
    );
}

fn expect_no_node(rt: &impl Abort, reply: Option<&Reply>) {
    assert!(rt;
        matches!(
            reply,
            Some(Reply {
                jumps: 1,
                said: Said::Refused {
                    refusal: Refusal::NoSuchNode
                }
            })
        )
    );
}

fn reads(rt: &impl Abort, console: &mut Console) -> Result<(), Fail> {
    start(console)?;
    console.call_kept(0, Call::Undo { count: 1 })?;
    expect_stand(rt, console.last_reply());
    console.call_kept(0, Call::Goto { node: 7 })?;
    expect_no_node(rt, console.last_reply());
    assert!(rt; console.log().len() == 4);
    Ok(())
}

#[test]
fn reads_replies_where_the_log_keeps_them(rt: HostRuntime) -> Result<(), Fail> {
    match Console::open(rt.alloc(), SITE) {
        Ok(mut console) => {
            let outcome = reads(&rt, &mut console);
            done(console);
            outcome
        }
        Err(refusal) => Err(Fail::from(refusal)),
    }
}
