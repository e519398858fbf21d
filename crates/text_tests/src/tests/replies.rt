//! Replies as they stand in the format.

use crate::tests::table::table;
use esx_events::{Answer, Refusal, Reply, Said};
use esx_replies::print_reply;
use esx_types::{Level, VmId};
use std::alloc::Global;
use std::rt::HostRuntime;
use std::test::Fail;

/// Whether what is said is printed so, where the cursor made 7 jumps.
fn is_printed(alloc: Global, said: Said, text: &str) -> Result<bool, Fail> {
    let reply = Reply { jumps: 7, said };
    let printed = print_reply(alloc, &reply)?;
    Ok(printed.as_str() == text)
}

#[test]
fn a_refusal_with_its_level(rt: HostRuntime) -> Result<(), Fail> {
    let refusal = Refusal::NotNow { level: Level::Soft };
    let said = Said::Refused { refusal };
    assert!(rt; is_printed(rt.alloc(), said, "no 13 NotNow soft\n")?);
    Ok(())
}

#[test]
fn an_answer(rt: HostRuntime) -> Result<(), Fail> {
    let answer = Answer::Replaced {
        page: 3,
        slot: 1,
        frame: 9,
    };
    let said = Said::Done { answer };
    assert!(rt; is_printed(rt.alloc(), said, "ok out 3 slot 1 frame 9\n")?);
    Ok(())
}

const TABLE: &str =
    " vm state        min     max  target    here    lent     out  shares  active\n255 running        2       6       6       1       0       0    1000   65536\noverhead 1 private 1 shared 0 free 18 high\n";

#[test]
fn a_table(rt: HostRuntime) -> Result<(), Fail> {
    let said = table(rt.alloc(), VmId::new(255))?;
    assert!(rt; is_printed(rt.alloc(), said, TABLE)?);
    Ok(())
}
